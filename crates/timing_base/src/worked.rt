//! Values for the tests of the crates above: a plain video stream, the check of one capture, and
//! verdicts on two frames.

ghost use Rattle.std.specs.Prelude.{◌≡◌, true, IfOk};
ghost use Rattle.timing_base.specs.Name.{is_file_name};

use crate::address::Address;
use crate::fail::{Broken, FailProof};
use crate::job::CheckJob;
use crate::list::Items;
use crate::media::{Kind, Media, Session};
use crate::name::FileName;
use crate::packet::Rtp;
use crate::row::{Judged, KindVerdict};
use crate::shift::FlowOptions;
use std::alloc::{AllocError as OutOfMemory, Global};

/// The plain video stream: 1080 lines, progressive, at 50 frames per second, to 239.0.0.1:50000,
/// declared narrow.
pub const PLAIN: Media = Media {
    line: 5,
    address: Address { bits: 0xef00_0001 },
    port: 50_000,
    pt: 96,
    width: 1920,
    height: 1080,
    interlaced: false,
    p: 50,
    q: 1,
    declared: Some(Kind::N),
    troff: None,
    cmax: None,
};

/// The violation of a linear sender: packet 1 comes after its gapped read.
pub const LATE: FailProof = FailProof {
    model: Broken::Empty,
    from: 1,
    to: 1,
    count: 1,
    limit: 2,
};

/// The verdict on two frames of 20 packets that keep all limits, after one packet of another frame.
pub const NARROW: Judged = Judged {
    n: 20,
    frames: 2,
    packets: 40,
    head: 1,
    tail: 0,
    bucket_peak: 1,
    gapped_peak: 1,
    linear_peak: 1,
    kinds: [KindVerdict::Pass, KindVerdict::Pass, KindVerdict::Pass],
};

/// The verdict on two frames of 20 packets of a linear sender, which are late for gapped reads.
pub const LINEAR: Judged = Judged {
    kinds: [
        KindVerdict::Fail(LATE),
        KindVerdict::Pass,
        KindVerdict::Pass,
    ],
    ..NARROW
};

/// Returns the plain stream without a declared type, to this port (0 is taken as 1).
pub fn undeclared_to(port: u16) -> Media {
    Media {
        port: port.max(1),
        declared: None,
        ..PLAIN
    }
}

/// Returns the fields of a packet of the plain stream, from source 1.
pub fn reading(number: u32, timestamp: u32, marker: bool) -> Rtp
    ensures value { result ≡ record { number = number; timestamp = timestamp; marker = marker; pt = 96; ssrc = 1 } }
{
    Rtp {
        number,
        timestamp,
        marker,
        pt: PLAIN.pt,
        ssrc: 1,
    }
}

/// Returns the file name with this text. Returns `Err` if memory runs out.
pub fn file_name(alloc: Global, text: &str) -> Result<FileName, OutOfMemory>
    requires { is_file_name text.now ≡ true }
    ensures { IfOk result (λ name. name ≡ text.now) }
{
    Ok(FileName::from_text(String::from_str(alloc, text)?))
}

/// Returns the check of one capture with one thread. Returns `Err` if memory runs out.
pub fn check_of(alloc: Global, capture: &str, json: bool) -> Result<CheckJob, OutOfMemory>
    requires { is_file_name capture.now ≡ true }
{
    let sdp = file_name(alloc, "a.sdp")?;
    let mut captures = Vec::new(alloc);
    captures.push(file_name(alloc, capture)?)?;
    Ok(CheckJob {
        sdp,
        captures: Items::from_vec(captures),
        workers: 0,
        options: FlowOptions::NONE,
        json,
        joined: false,
        media: None,
    })
}

/// Returns the session with only the plain stream. Returns `Err` if memory runs out.
pub fn plain_session(alloc: Global) -> Result<Session, OutOfMemory> {
    let mut media = Vec::new(alloc);
    media.push(PLAIN)?;
    Ok(Session {
        media: Items::from_vec(media),
    })
}
