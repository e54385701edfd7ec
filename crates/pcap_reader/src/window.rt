//! The part of a capture that is in the buffer.

ghost use Rattle.pcap_reader.specs.Stages.{is_begun, stage_note};
ghost use Rattle.pcap_reader.specs.declared.stage.Stage.TheVariants as stage;
ghost use Rattle.std.specs.Prelude.{◌≡◌, ◌≤◌, ◌<◌, ◌+◌, ◌-◌, ◌*◌, ◌^◌, ◌++◌, ℕ, [], IfOk, IfErr, IfSome, Some, None, IsTrue, true, false, vec_len, vec_capacity, length, take, drop};

use crate::layout::Layout;
use crate::pages::before_page;
use crate::stage::{Head, Stage};
use std::alloc::{AllocError, Global};
use timing_base::{FileNote, PcapFault};
use timing_outside::{Failed, Source};

/// The capacity of the buffer, in bytes: a page, the largest packet record, and a full read.
const ROOM: usize = 331_792;

/// The most bytes that one read asks for.
const READ: u64 = 65_536;

/// The buffered bytes of a capture, from `start` to `filled` of the buffer, and their place in the
/// capture.
#[derive(Drop)]
pub struct Window {
    buf: Vec<u8>,
    start: usize,
    filled: usize,
    /// The place in the capture of the first buffered byte, counted from 0.
    pub place: u64,
    /// The number of packet records that were consumed.
    pub count: u64,
    /// The greatest length of a capture, in bytes.
    pub most: u64,
    /// How far the capture was read.
    pub stage: Stage,
    ghost ordered: { start ≤ filled },
    ghost within: { filled ≤ vec_len buf },
    ghost roomy: { 331792 ≤ vec_capacity buf },
    ghost long: { 24 ≤ most },
    ghost short: { most ≤ 2 ^ 40 },
    ghost begins: { is_begun stage ≡ false → place ≡ 0 },
    ghost inside: { place ≤ most },
    ghost few: { 16 * count ≤ place },
    ghost taken: { place + (filled - start) ≤ most + 16 },
}

impl Window {
    ghost use Rattle.std.specs.Io.KnownBytes.{Keeps, IsAtEnd, prepend_known};
    ghost use Rattle.timing_outside.specs.Causes.{HasCause};
    ghost use Rattle.pcap_reader.specs.Windows.{held_bytes, last_bytes, taken_length, SameRecord, Takes, front_note};
    ghost use Rattle.pcap_reader.specs.Heads.{IsHead};
    ghost use Rattle.pcap_reader.specs.Records.{OnReadFault};
    ghost use Rattle.timing_base.specs.declared.capture.FileNote.TheVariants as file_note;

    /// Returns a window at the start of a capture, for captures of at most `most` bytes. Returns
    /// `Err` if memory runs out.
    pub fn new(alloc: Global, most: u64) -> Result<Window, AllocError>
        requires least { 24 ≤ most }
        requires greatest { most ≤ 2 ^ 40 }
        ensures held { IfOk result (λ w. held_bytes w ≡ []) }
        ensures taken { IfOk result (λ w. taken_length w ≡ 0) }
        ensures place { IfOk result (λ w. w.place ≡ 0) }
        ensures count { IfOk result (λ w. w.count ≡ 0) }
        ensures most { IfOk result (λ w. w.most ≡ most) }
        ensures stage { IfOk result (λ w. w.stage ≡ stage.Header) }
    {
        Ok(Window {
            buf: Vec::with_capacity(alloc, ROOM)?,
            start: 0,
            filled: 0,
            place: 0,
            count: 0,
            most,
            stage: Stage::Header,
        })
    }

    /// Returns how the records ended, if they have.
    pub fn note(&self) -> Option<FileNote>
        ensures note { result ≡ stage_note self.now.stage }
    {
        match self.stage {
            Stage::Header | Stage::Records(_) => None,
            Stage::Ended(note) => Some(note),
        }
    }

    /// Returns the number of buffered bytes.
    pub fn len(&self) -> usize
        ensures { result ≡ length (held_bytes self.now) }
    {
        self.filled - self.start
    }

    /// Returns the buffered bytes.
    pub fn peek(&self) -> &[u8]
        ensures { result.now ≡ held_bytes self.now }
    {
        &self.buf[self.start..self.filled]
    }

    /// Returns the last `count` bytes that were consumed.
    pub fn last(&self, count: usize) -> &[u8]
        requires { count ≤ self.now.start }
        ensures { result.now ≡ last_bytes count self.now }
    {
        &self.buf[self.start - count..self.start]
    }

    /// Consumes the file header.
    pub fn pass_header(&mut self, layout: Layout)
        requires held { 24 ≤ length (held_bytes self.old) }
        requires first { self.old.place ≡ 0 }
        ensures held { held_bytes self.new ≡ drop 24 (held_bytes self.old) }
        ensures taken { taken_length self.new ≡ taken_length self.old }
        ensures place { self.new.place ≡ 24 }
        ensures count { self.new.count ≡ 0 }
        ensures same_count { self.new.count ≡ self.old.count }
        ensures most { self.new.most ≡ self.old.most }
        ensures stage { self.new.stage ≡ stage.Records layout }
    {
        self.start += 24;
        self.place += 24;
        self.stage = Stage::Records(layout);
    }

    /// Sets how the records ended.
    pub fn settle(&mut self, note: FileNote)
        ensures held { held_bytes self.new ≡ held_bytes self.old }
        ensures taken { taken_length self.new ≡ taken_length self.old }
        ensures count { self.new.count ≡ self.old.count }
        ensures most { self.new.most ≡ self.old.most }
        ensures stage { self.new.stage ≡ stage.Ended note }
        ensures same { self.old.stage ≡ stage.Ended note → self.new ≡ self.old }
    {
        self.stage = Stage::Ended(note);
    }

    /// Returns the buffered bytes, without those past the greatest length of a capture.
    pub fn within(&self) -> &[u8]
        ensures { result.now ≡ take (self.now.most - self.now.place) (held_bytes self.now) }
    {
        let room = (self.most - self.place) as usize;
        let bytes = self.peek();
        &bytes[..bytes.len().min(room)]
    }

    /// Reads the header of the packet record at the start of the buffered bytes. Of several faults
    /// the first in this order is returned: the fraction of the capture timestamp, the captured
    /// length, the greatest length of a capture.
    pub fn head(&self, layout: Layout) -> Result<Head, FileNote>
        requires { 16 ≤ length (held_bytes self.now) }
        ensures head { IfOk result (IsHead layout self.now) }
        ensures cut { IfOk result (λ h. (long : ℕ) → long < 16 + h.captured
            → front_note layout self.now long ≡ Some (file_note.Cut self.now.place)) }
        ensures faulty { IfErr result (λ e. (long : ℕ) → front_note layout self.now long ≡ Some e) }
        ensures read { IfErr result (λ e. OnReadFault e ⊥) }
    {
        match layout.read_head(self.peek(), self.count + 1) {
            Ok(head) => {
                if self.place + 16 + head.captured as u64 > self.most {
                    return Err(FileNote::Refused(PcapFault::TooLong));
                }
                Ok(head)
            }
            Err(fault) => Err(FileNote::Refused(fault)),
        }
    }

    /// Consumes a packet record with this many captured bytes. They stay in the buffer, directly
    /// before the buffered bytes.
    pub fn pass_record(&mut self, captured: usize)
        requires held { 16 + captured ≤ length (held_bytes self.old) }
        requires most { self.old.place + 16 + captured ≤ self.old.most }
        requires begun { is_begun self.old.stage ≡ true }
        ensures held { held_bytes self.new ≡ drop (16 + captured) (held_bytes self.old) }
        ensures taken { taken_length self.new ≡ taken_length self.old }
        ensures behind { last_bytes captured self.new ≡ take captured (drop 16 (held_bytes self.old)) }
        ensures start { captured ≤ self.new.start }
        ensures place { self.new.place ≡ self.old.place + 16 + captured }
        ensures count { self.new.count ≡ self.old.count + 1 }
        ensures most { self.new.most ≡ self.old.most }
        ensures stage { self.new.stage ≡ self.old.stage }
    {
        let length = 16 + captured;
        self.start += length;
        self.place += length as u64;
        self.count += 1;
    }

    /// Consumes this many packet records, which have `size` bytes with their headers.
    pub fn pass_records(&mut self, records: u64, size: usize)
        requires held { size ≤ length (held_bytes self.old) }
        requires most { self.old.place + size ≤ self.old.most }
        requires few { 16 * records ≤ size }
        requires begun { is_begun self.old.stage ≡ true }
        ensures held { held_bytes self.new ≡ drop size (held_bytes self.old) }
        ensures taken { taken_length self.new ≡ taken_length self.old }
        ensures place { self.new.place ≡ self.old.place + size }
        ensures count { self.new.count ≡ self.old.count + records }
        ensures most { self.new.most ≡ self.old.most }
        ensures stage { self.new.stage ≡ self.old.stage }
    {
        self.start += size;
        self.place += size as u64;
        self.count += records;
    }

    /// Moves the buffered bytes near the start of the buffer, so that they end at a page boundary.
    fn compact(&mut self)
        ensures bytes { held_bytes self.new ≡ held_bytes self.old }
        ensures start { self.new.start ≤ 4095 }
        ensures filled { self.new.filled ≡ self.new.start + (self.old.filled - self.old.start) }
        ensures same { SameRecord self.old self.new }
    {
        let held = self.filled - self.start;
        let place = before_page(held).min(self.start);
        self.buf.copy_within(self.start..self.filled, place);
        self.start = place;
        self.filled = place + held;
    }

    /// Returns how many bytes the next read asks for. All reads together take at most 16 bytes, the
    /// size of a packet record's header, more than the greatest length of a capture.
    fn want(&self) -> usize
        requires { self.now.place + (self.now.filled - self.now.start) < self.now.most + 16 }
        ensures some { 0 < result }
        ensures few { result ≤ 65536 }
        ensures room { self.now.place + (self.now.filled - self.now.start) + result
            ≤ self.now.most + 16 }
    {
        let taken = self.place + (self.filled - self.start) as u64;
        READ.min(self.most + 16 - taken) as usize
    }

    /// Makes the buffer at least `end` bytes long, within its capacity. Bytes beyond the furthest
    /// read so far aren't written.
    fn reach(&mut self, end: usize)
        requires { end ≤ 331792 }
        ensures bytes { held_bytes self.new ≡ held_bytes self.old }
        ensures room { end ≤ vec_len self.new.buf }
        ensures start { self.new.start ≡ self.old.start }
        ensures filled { self.new.filled ≡ self.old.filled }
        ensures same { SameRecord self.old self.new }
    {
        if self.buf.len() < end {
            let Ok(()) = self.buf.resize(end, 0) else {
                unreachable!()
            };
        }
    }

    /// Reads once behind the buffered bytes, and returns the number of bytes read, 0 at the end.
    fn read_more<S: Source>(&mut self, source: &mut S) -> Result<usize, Failed>
        requires room { self.old.filled + 65536 ≤ 331792 }
        requires taken { self.old.place + (self.old.filled - self.old.start) < self.old.most + 16 }
        ensures bytes { Keeps (prepend_known (held_bytes self.old) (S.left source.old))
            (prepend_known (held_bytes self.new) (S.left source.new)) }
        ensures name { S.name source.new ≡ S.name source.old }
        ensures cause { HasCause (S.faults source.old) (S.faults source.new) result }
        ensures start { self.new.start ≡ self.old.start }
        ensures same { SameRecord self.old self.new }
        ensures filled { IfOk result (λ n. self.new.filled ≡ self.old.filled + n) }
        ensures end { IfOk result (λ n. n ≡ 0 → IsAtEnd (S.left source.new)) }
    {
        let end = self.filled + self.want();
        self.reach(end);
        let got = source.read(&mut self.buf[self.filled..end])?;
        self.filled += got;
        Ok(got)
    }

    /// Moves the buffered bytes near the start of the buffer, and reads until `need` bytes are
    /// buffered. Returns whether there are that many.
    pub fn fill<S: Source>(&mut self, source: &mut S, need: usize) -> Result<bool, Failed>
        requires need { need ≤ 262160 }
        requires most { self.old.place + need ≤ self.old.most + 16 }
        ensures bytes { Keeps (prepend_known (held_bytes self.old) (S.left source.old))
            (prepend_known (held_bytes self.new) (S.left source.new)) }
        ensures name { S.name source.new ≡ S.name source.old }
        ensures cause { HasCause (S.faults source.old) (S.faults source.new) result }
        ensures same { SameRecord self.old self.new }
        ensures takes { Takes (S.left source.old) (S.left source.new) (taken_length self.old)
            (taken_length self.new) }
        ensures enough { IfOk result (λ b. IsTrue b → need ≤ length (held_bytes self.new)) }
        ensures few { IfOk result (λ b. b ≡ false → length (held_bytes self.new) < need) }
        ensures end { IfOk result (λ b. b ≡ false → IsAtEnd (S.left source.new)) }
    {
        self.compact();
        while self.filled - self.start < need {
            let got = self.read_more(source)?;
            if got == 0 {
                return Ok(false);
            }
        }
        Ok(true)
    }
}
