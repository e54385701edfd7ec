//! The captures and SDPs of `examples` are those that the program generates.

use super::compare::{same, same_at};
use capture_gen::examples::{
    MEDIA, NARROW, Spread, described, second_path, three_media, two_paths, usual_equipment,
};
use capture_gen::{capture_len, sdp_bytes, write_capture};
use std::alloc::Global;
use std::process::Abort;
use std::test::Fail;
use timing_outside::MemorySink;

// A generated capture of two frames with this flaw. Asserts what the call requires, since a proof does not follow the
// rows of a table.
fn made(rt: &impl Abort, alloc: Global, flaw: u32) -> Result<MemorySink, Fail> {
    assert!(rt; flaw <= 4);
    let mut sink = MemorySink::new(alloc, capture_len(2, flaw))?;
    write_capture(0, 2, flaw, &mut sink)?;
    Ok(sink)
}

// The capture of this sender is the generated one with this flaw.
fn is_as_made(rt: &impl Abort, alloc: Global, spread: &Spread, flaw: u32) -> Result<(), Fail> {
    let sink = made(rt, alloc, flaw)?;
    let capture = spread.capture(alloc)?;
    same_at(rt, &flaw, &capture.as_slice(), &sink.bytes());
    Ok(())
}

// The plain capture, one with five packets of its last frame at once, and one with evenly spaced packets.
#[test]
fn captures_are_as_made(rt: HostRuntime) -> Result<(), Fail> {
    let burst = Spread {
        bunched: 1,
        at_once: 5,
        ..NARROW
    };
    let even = Spread {
        packet_nanos: 1_000_000,
        ..NARROW
    };
    is_as_made(&rt, rt.alloc(), &NARROW, 0)?;
    is_as_made(&rt, rt.alloc(), &burst, 1)?;
    is_as_made(&rt, rt.alloc(), &even, 2)
}

// A capture header of 24 bytes, and 72 bytes for each of 8,641 packets.
#[test]
fn usual_capture(rt: HostRuntime) -> Result<(), Fail> {
    let capture = usual_equipment(rt.alloc())?;
    same(&rt, &capture.len(), &(24 + 72 * 8641));
    Ok(())
}

// If `old` is replaced by `new`, the SDP is `less` bytes shorter.
fn is_shorter(
    rt: &impl Abort,
    alloc: Global,
    (old, new): (&str, &str),
    less: usize,
) -> Result<(), Fail> {
    let sdp = described(alloc, old, new)?;
    let want = sdp_bytes().len().checked_sub(less);
    same_at(rt, &old, &Some(sdp.len()), &want);
    Ok(())
}

// Replacing a text that isn't in the SDP changes nothing.
fn is_unchanged(rt: &impl Abort, alloc: Global) -> Result<(), Fail> {
    let sdp = described(alloc, "absent", "")?;
    same(rt, &sdp.as_slice(), &sdp_bytes());
    Ok(())
}

// The SDP with one more media and that with two more have the lengths of these media more.
fn has_more(rt: &impl Abort, alloc: Global) -> Result<(), Fail> {
    let more = three_media(alloc)?.len();
    same(rt, &more, &(sdp_bytes().len() + 2 * MEDIA.len()));
    let two = two_paths(alloc)?.len();
    same(rt, &two, &(sdp_bytes().len() + MEDIA.len()));
    Ok(())
}

// SDPs with a height of one digit less, without a media, and with more media.
#[test]
fn other_description(rt: HostRuntime) -> Result<(), Fail> {
    let height = ("height=1080;", "height=720;");
    is_shorter(&rt, rt.alloc(), height, 1)?;
    is_shorter(&rt, rt.alloc(), (MEDIA, ""), MEDIA.len())?;
    is_unchanged(&rt, rt.alloc())?;
    has_more(&rt, rt.alloc())
}

// The bytes of a packet record, with a number from 0 to 39.
fn record<'a>(rt: &impl Abort, capture: &'a [u8], number: usize) -> &'a [u8] {
    assert!(rt; number < 40);
    let from = 24 + 72 * number;
    assert!(rt; from + 72 <= capture.len());
    &capture[from..from + 72]
}

// A packet record of the other path has a capture timestamp that is `wanted` nanoseconds later, in the same second, and
// another last byte of its address.
fn check_later(rt: &impl Abort, own: &[u8], late: &[u8], wanted: u32, number: usize) {
    assert!(rt; own.len() == 72 && late.len() == 72);
    let nanos = u32::from_le_bytes([own[4], own[5], own[6], own[7]]);
    let later = u32::from_le_bytes([late[4], late[5], late[6], late[7]]);
    same_at(rt, &number, &later.wrapping_sub(nanos), &wanted);
    same_at(rt, &number, &(own[49], late[49]), &(1, 2));
    same_at(rt, &number, &(&own[..4]), &(&late[..4]));
}

// All other bytes of a packet record are the same.
fn check_same(rt: &impl Abort, own: &[u8], late: &[u8], number: usize) {
    assert!(rt; own.len() == 72 && late.len() == 72);
    same_at(rt, &number, &(&own[8..49]), &(&late[8..49]));
    same_at(rt, &number, &(&own[50..]), &(&late[50..]));
}

// Each packet record differs from the plain one in its capture timestamp, which is 150 ns later (for one record 900
// ns), and in the last byte of its address.
fn check_records(rt: &impl Abort, plain: &[u8], other: &[u8]) {
    for number in 0..40usize {
        let (own, late) = (record(rt, plain, number), record(rt, other, number));
        let wanted = if number == 4 { 900 } else { 150 };
        check_later(rt, own, late, wanted, number);
        check_same(rt, own, late, number);
    }
}

// A capture header of 24 bytes, and 40 packet records of 72 bytes.
#[test]
fn second_path_is_later(rt: HostRuntime) -> Result<(), Fail> {
    let plain = NARROW.capture(rt.alloc())?;
    let other = second_path(rt.alloc())?;
    same(&rt, &other.len(), &(24 + 72 * 40));
    check_records(&rt, &plain, &other);
    Ok(())
}
