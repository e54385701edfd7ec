//! Captures in pcapng (draft-ietf-opsawg-pcapng), little-endian.

use std::alloc::{AllocError, Global};

/// A section header: type, total length, byte order, version 1.0, no section length, total length.
pub const SECTION: [u8; 28] = [
    0x0a, 0x0d, 0x0d, 0x0a, 28, 0, 0, 0, 0x4d, 0x3c, 0x2b, 0x1a, 1, 0, 0, 0, 255, 255, 255, 255,
    255, 255, 255, 255, 28, 0, 0, 0,
];

/// An interface description with timestamps in nanoseconds: type, total length, link type 1,
/// snaplen, option 9 and the end of the options, total length.
pub const NANOS: [u8; 32] = [
    1, 0, 0, 0, 32, 0, 0, 0, 1, 0, 0, 0, 0, 0, 4, 0, 9, 0, 1, 0, 9, 0, 0, 0, 0, 0, 0, 0, 32, 0, 0,
    0,
];

/// An interface description without options, so that timestamps are microseconds.
pub const MICROS: [u8; 20] = [1, 0, 0, 0, 20, 0, 0, 0, 1, 0, 0, 0, 0, 0, 4, 0, 20, 0, 0, 0];

/// Appends a 32-bit number to a file. Returns `Err` if memory runs out.
pub fn push_number(file: &mut Vec<u8>, number: u32) -> Result<(), AllocError> {
    file.extend_from_slice(&number.to_le_bytes())
}

/// Appends an enhanced packet block to a file, with this interface, this timestamp, these data (a
/// multiple of 4 bytes), and `options` bytes in place of options. Returns `Err` if memory runs out.
pub fn push_packet(
    file: &mut Vec<u8>,
    interface: u32,
    stamp: u64,
    data: &[u8],
    options: u32,
) -> Result<(), AllocError> {
    let len = data.len().min(65_536) as u32;
    let total = 32 + len + options.min(1 << 20);
    push_number(file, 6)?;
    push_number(file, total)?;
    push_number(file, interface)?;
    push_number(file, (stamp / 4_294_967_296) as u32)?;
    push_number(file, (stamp % 4_294_967_296) as u32)?;
    push_number(file, len)?;
    push_number(file, len)?;
    file.extend_from_slice(data)?;
    for _ in 0..options.min(1 << 20) {
        file.push(7)?;
    }
    push_number(file, total)
}

/// Returns the little-endian number in the first four bytes.
fn little(bytes: &[u8]) -> u32 {
    let mut number = 0;
    for byte in bytes.iter().take(4).rev() {
        number = (number << 8) | u32::from(*byte);
    }
    number
}

/// Returns a file with a section of one interface, and a packet of another. Returns `Err` if memory
/// runs out.
pub fn without_interface(alloc: Global) -> Result<Vec<u8>, AllocError> {
    let mut file = Vec::from_slice(alloc, &SECTION)?;
    file.extend_from_slice(&NANOS)?;
    push_packet(&mut file, 1, 3_000_000_005, &[1, 2, 3, 4], 0)?;
    Ok(file)
}

/// Returns a made capture, with packet records of 72 bytes, as a pcapng file with one interface.
/// Its timestamps are in units of `unit` nanoseconds. Returns `Err` if memory runs out.
pub fn as_pcapng(
    alloc: Global,
    capture: &[u8],
    interface: &[u8],
    unit: u64,
) -> Result<Vec<u8>, AllocError> {
    let mut file = Vec::from_slice(alloc, &SECTION)?;
    file.extend_from_slice(interface)?;
    if capture.len() < 24 {
        return Ok(file);
    }
    for record in capture[24..].chunks(72) {
        if record.len() < 72 {
            break;
        }
        let stamp = u64::from(little(record)) * 1_000_000_000 + u64::from(little(&record[4..]));
        push_packet(&mut file, 0, stamp / unit.max(1), &record[16..72], 0)?;
    }
    Ok(file)
}
