//! Goes through the packet records of a capture in memory, each of which can be given another capture timestamp.

ghost use Rattle.std.specs.Prelude.{◌≡◌, ◌≤◌, ◌<◌, ◌^◌, ◌++◌, ◌∷◌, ℕ, List, All, length};
ghost use Rattle.timing_base.specs.Captures.{IsStamp, Record};
ghost use Rattle.pcap_reader.specs.WrittenHeads.{file_head};
ghost use Rattle.timing_reach.specs.ShapedAgain.{CanBeHeld};
ghost use Rattle.timing_reach.specs.shape.Keeping.{came_text, restamped, stamp_bytes};

use byteorder::{ByteOrder, LittleEndian};

/// The bytes of the header of a capture.
const FILE_HEAD: usize = 24;

/// The bytes of the header of a packet record.
const RECORD_HEAD: usize = 16;

/// The bytes of the capture timestamp, with which that header begins.
const STAMP: usize = 8;

/// The nanoseconds of a second.
const NANOSECONDS: u64 = 1_000_000_000;

/// Writes a capture timestamp, in nanoseconds.
#[inline(always)]
fn write_stamp(bytes: &mut [u8], at: u64)
    requires stamp { IsStamp at }
    requires room { length bytes.old ≡ 8 }
    ensures { bytes.new ≡ stamp_bytes at }
{
    LittleEndian::write_u32(bytes, (at / NANOSECONDS) as u32);
    LittleEndian::write_u32(&mut bytes[4..], (at % NANOSECONDS) as u32);
}

/// A capture, and the place of its next packet record.
#[derive(Drop)]
pub struct Walk {
    /// The bytes of the capture.
    pub bytes: Vec<u8>,
    place: usize,
}

impl Walk {
    ghost use Rattle.timing_reach.specs.shape.Walking.{CanSkip, CanWalk, HasHead, IsBefore, PassesAll, PassesOne};
    ghost use Rattle.timing_reach.specs.shape.Walking.{HoldsAll};

    /// Returns a walk before the first packet record.
    pub fn new(bytes: Vec<u8>) -> Walk
        ensures { (records : List Record) → bytes.items ≡ file_head ++ came_text records
            → All CanBeHeld records → IsBefore result file_head records }
    {
        Walk {
            bytes,
            place: FILE_HEAD,
        }
    }

    /// Returns the capture timestamp of the next packet record, in nanoseconds.
    #[inline(always)]
    pub fn stamp(&self) -> u64
        requires { HasHead self.now }
        ensures { (done : List ℕ) (r : Record) (rest : List Record)
            → IsBefore self.now done (r ∷ rest) → result ≡ r.stamp }
    {
        let head = &self.bytes[self.place..];
        let seconds = LittleEndian::read_u32(head);
        let nanos = LittleEndian::read_u32(&head[4..]);
        u64::from(seconds) * NANOSECONDS + u64::from(nanos)
    }

    /// Returns the number of captured bytes of the next packet record.
    #[inline(always)]
    fn captured(&self) -> u32
        requires { HasHead self.now }
        ensures { (done : List ℕ) (r : Record) (rest : List Record)
            → IsBefore self.now done (r ∷ rest) → result ≡ length r.bytes }
    {
        LittleEndian::read_u32(&self.bytes[self.place + STAMP..])
    }

    /// Gives the next packet record another capture timestamp, in nanoseconds.
    #[inline(always)]
    pub fn restamp(&mut self, at: u64)
        requires head { HasHead self.old }
        requires stamp { IsStamp at }
        ensures head { HasHead self.new }
        ensures size { length self.new.bytes.items ≡ length self.old.bytes.items }
        ensures place { self.new.place ≡ self.old.place }
        ensures restamps { (done : List ℕ) (r : Record) (rest : List Record)
            → IsBefore self.old done (r ∷ rest) → IsBefore self.new done (restamped at r ∷ rest) }
    {
        write_stamp(&mut self.bytes[self.place..self.place + STAMP], at);
    }

    /// Goes behind the next packet record.
    #[inline(always)]
    pub fn pass(&mut self)
        requires { HasHead self.old }
        ensures bytes { self.new.bytes ≡ self.old.bytes }
        ensures place { self.old.place < self.new.place }
        ensures passes { PassesOne self.old self.new }
    {
        self.place += RECORD_HEAD + self.captured() as usize;
    }

    /// Goes behind the next `count` packet records.
    pub fn skip(&mut self, count: u64)
        requires { CanSkip count self.old }
        ensures { PassesAll count self.old self.new }
    {
        for _ in 0..count {
            self.pass();
        }
    }

    /// Gives each of the remaining packet records a capture timestamp of at least `least` nanoseconds: its own, or
    /// `least` if its own is earlier.
    pub fn hold_back(&mut self, least: u64)
        requires stamp { IsStamp least }
        requires can { CanWalk self.old }
        ensures { HoldsAll least self.old self.new }
    {
        while self.place < self.bytes.len() {
            let at = self.stamp().max(least);
            self.restamp(at);
            self.pass();
        }
    }
}
