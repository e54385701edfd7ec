//! The buffer between a file and its classic form.

ghost use Rattle.std.specs.Prelude.{◌≡◌, ◌≤◌, ◌<◌, ◌+◌, ◌-◌, ◌++◌, ℕ, List, [], IfOk, IfErr, vec_len, vec_capacity, length, min, take, drop};
ghost use Rattle.std.specs.Io.KnownBytes.{Keeps, Consumes, IsAtEnd};
ghost use Rattle.pcap_reader.specs.WrittenHeads.{file_head};
ghost use Rattle.timing_outside.specs.Causes.{HasCause};

use crate::reads::Reads;
use pcap_reader::{before_page, file_head};
use std::alloc::{AllocError, Global};
use timing_outside::Failed;

/// The capacity of the buffer, in bytes: a page, the start of a packet block with its data, and a
/// full read.
const ROOM: usize = 331_804;

/// The length of a packet block up to its data, in bytes.
const PACKET_HEAD: usize = 28;

/// The most output bytes that are kept: a packet record with its header.
const MOST_KEPT: usize = 262_160;

/// The size of the file header of a classic capture, in bytes.
const FILE_HEAD: usize = 24;

/// The size of a packet record's header, in bytes.
const RECORD_HEAD: usize = 16;

/// Copies these bytes to a place of `buf`.
fn put_at(buf: &mut [u8], place: usize, bytes: &[u8])
    requires { place + length bytes.now ≤ length buf.old }
    ensures value { buf.new ≡ take place buf.old ++ (bytes.now ++ drop (place + length bytes.now) buf.old) }
    ensures len { length buf.new ≡ length buf.old }
{
    buf[place..place + bytes.len()].copy_from_slice(bytes);
}

/// Moves the bytes from `from` to `to` down to `place`.
fn shift(buf: &mut [u8], from: usize, to: usize, place: usize)
    requires down { place ≤ from }
    requires ordered { from ≤ to }
    requires within { to ≤ length buf.old }
    ensures { buf.new ≡ take place buf.old
        ++ (take (to - from) (drop from buf.old) ++ drop (place + (to - from)) buf.old) }
{
    buf.copy_within(from..to, place);
}

/// Reads once, at most `most` bytes, to a place of `buf`. Returns the number of bytes read, 0 at
/// the end.
fn read_at<S: Reads>(
    source: &mut S,
    buf: &mut [u8],
    place: usize,
    most: usize,
) -> Result<usize, Failed>
    requires some { 0 < most }
    requires room { place + most ≤ length buf.old }
    ensures len { length buf.new ≡ length buf.old }
    ensures before { take place buf.new ≡ take place buf.old }
    ensures failed { IfErr result (λ _. Keeps (S.left source.old) (S.left source.new)) }
    ensures few { IfOk result (λ n. n ≤ most) }
    ensures got { IfOk result (λ n. Consumes (S.left source.old) (S.left source.new)
        (take n (drop place buf.new))) }
    ensures end { IfOk result (λ n. n ≡ 0 → IsAtEnd (S.left source.new)) }
    ensures name { S.name source.new ≡ S.name source.old }
    ensures cause { HasCause (S.faults source.old) (S.faults source.new) result }
{
    source.read_bytes(&mut buf[place..place + most])
}

/// A buffer with two parts. From `kept` to `kept_end` are output bytes that wait to be given, from
/// `start` to `filled` are buffered bytes that were read and not consumed.
#[derive(Drop)]
pub struct Window {
    buf: Vec<u8>,
    kept: usize,
    kept_end: usize,
    start: usize,
    filled: usize,
    ghost kept_first: { kept ≤ kept_end },
    ghost apart: { kept_end ≤ start },
    ghost ordered: { start ≤ filled },
    ghost within: { filled ≤ vec_len buf },
    ghost begun: { 24 ≤ vec_len buf },
    ghost roomy: { 331804 ≤ vec_capacity buf },
    ghost bounded: { filled ≤ 331804 },
    ghost few: { kept_end - kept ≤ 262160 },
}

impl Window {
    ghost use Rattle.pcapng_reader.specs.Windows.{kept_bytes, held_bytes};

    /// Returns a window with the file header of a classic capture as output, and no buffered bytes.
    /// Returns `Err` if memory runs out.
    pub fn new(alloc: Global) -> Result<Window, AllocError>
        ensures kept { IfOk result (λ w. kept_bytes w ≡ file_head) }
        ensures held { IfOk result (λ w. held_bytes w ≡ []) }
    {
        let mut buf = Vec::with_capacity(alloc, ROOM)?;
        buf.extend_from_slice(&file_head())?;
        Ok(Window {
            buf,
            kept: 0,
            kept_end: FILE_HEAD,
            start: FILE_HEAD,
            filled: FILE_HEAD,
        })
    }

    /// Returns the number of buffered bytes.
    pub fn len(&self) -> usize
        ensures { result ≡ length (held_bytes self.now) }
    {
        self.filled - self.start
    }

    /// Returns the buffered bytes.
    pub fn peek(&self) -> &[u8]
        ensures { result.now ≡ held_bytes self.now }
    {
        &self.buf[self.start..self.filled]
    }

    /// Copies as many output bytes to the start of `out` as fit, and returns their number.
    pub fn give(&mut self, out: &mut [u8]) -> usize
        ensures count { result ≡ min (length out.old) (length (kept_bytes self.old)) }
        ensures bytes { kept_bytes self.old ≡ take result out.new ++ kept_bytes self.new }
        ensures len { length out.new ≡ length out.old }
        ensures held { held_bytes self.new ≡ held_bytes self.old }
    {
        let count = out.len().min(self.kept_end - self.kept);
        out[..count].copy_from_slice(&self.buf[self.kept..self.kept + count]);
        self.kept += count;
        count
    }

    /// Consumes this many buffered bytes.
    pub fn pass(&mut self, count: usize)
        requires { count ≤ length (held_bytes self.old) }
        ensures kept { kept_bytes self.new ≡ kept_bytes self.old }
        ensures held { held_bytes self.new ≡ drop count (held_bytes self.old) }
    {
        self.start += count;
    }

    /// Turns the first buffered bytes into output, at most 262,160, in place of any output bytes.
    pub fn keep_front(&mut self)
        ensures held { held_bytes self.old ≡ kept_bytes self.new ++ held_bytes self.new }
        ensures some { 0 < length (held_bytes self.old) → 0 < length (kept_bytes self.new) }
    {
        self.kept = self.start;
        self.kept_end = self.start + MOST_KEPT.min(self.filled - self.start);
        self.start = self.kept_end;
    }

    /// Drops the output bytes.
    pub fn forget(&mut self)
        ensures kept { kept_bytes self.new ≡ [] }
        ensures held { held_bytes self.new ≡ held_bytes self.old }
    {
        self.kept = self.kept_end;
    }

    /// Makes these bytes the output, and drops all output bytes and buffered bytes.
    pub fn keep_only(&mut self, bytes: &[u8])
        requires { length bytes.now ≤ 16 }
        ensures kept { kept_bytes self.new ≡ bytes.now }
        ensures held { held_bytes self.new ≡ [] }
    {
        put_at(&mut self.buf, 0, bytes);
        self.kept = 0;
        self.kept_end = bytes.len();
        self.start = bytes.len();
        self.filled = bytes.len();
    }

    /// Consumes the start of a packet block and `captured` bytes of data, and makes a packet record
    /// of this header and these data the output, in place of any output bytes.
    pub fn keep_record(&mut self, head: &[u8; 16], captured: usize)
        requires held { 28 + captured ≤ length (held_bytes self.old) }
        requires few { captured ≤ 262144 }
        ensures kept { kept_bytes self.new ≡ head.now ++ take captured (drop 28 (held_bytes self.old)) }
        ensures held { held_bytes self.new ≡ drop (28 + captured) (held_bytes self.old) }
    {
        let data = self.start + PACKET_HEAD;
        self.kept = data - RECORD_HEAD;
        put_at(&mut self.buf, data - RECORD_HEAD, head);
        self.kept_end = data + captured;
        self.start = self.kept_end;
    }

    /// Consumes a packet block of `total` bytes, and writes a packet record to `out` from the place
    /// `at` on: this header, and the first `captured` bytes of the packet's data.
    #[inline(always)]
    pub fn give_record(
        &mut self,
        head: &[u8; 16],
        captured: usize,
        total: usize,
        out: &mut [u8],
        at: usize,
    )
        requires held { total ≤ length (held_bytes self.old) }
        requires data { 28 + captured ≤ total }
        requires room { at + 16 + captured ≤ length out.old }
        ensures given { take (at + 16 + captured) out.new
            ≡ take at out.old ++ (head.now ++ take captured (drop 28 (held_bytes self.old))) }
        ensures len { length out.new ≡ length out.old }
        ensures kept { kept_bytes self.new ≡ kept_bytes self.old }
        ensures held { held_bytes self.new ≡ drop total (held_bytes self.old) }
    {
        put_at(out, at, head);
        put_at(
            out,
            at + RECORD_HEAD,
            &self.peek()[PACKET_HEAD..PACKET_HEAD + captured],
        );
        self.start += total;
    }

    /// Moves the output bytes to the start of the buffer, and the buffered bytes behind them, so
    /// that they end at a page boundary.
    fn compact(&mut self)
        ensures kept { kept_bytes self.new ≡ kept_bytes self.old }
        ensures held { held_bytes self.new ≡ held_bytes self.old }
        ensures filled { self.new.filled ≤ length (kept_bytes self.old) + length (held_bytes self.old) + 4095 }
    {
        let kept = self.kept_end - self.kept;
        let held = self.filled - self.start;
        let start = self.start.min(kept + before_page(kept + held));
        shift(&mut self.buf, self.kept, self.kept_end, 0);
        shift(&mut self.buf, self.start, self.filled, start);
        self.kept = 0;
        self.kept_end = kept;
        self.start = start;
        self.filled = start + held;
    }

    /// Makes the buffer at least `end` bytes long, within its capacity. Bytes beyond the furthest
    /// read so far aren't written.
    fn reach(&mut self, end: usize)
        requires { end ≤ 331804 }
        ensures kept { kept_bytes self.new ≡ kept_bytes self.old }
        ensures held { held_bytes self.new ≡ held_bytes self.old }
        ensures filled { self.new.filled ≡ self.old.filled }
        ensures room { end ≤ vec_len self.new.buf }
    {
        if self.buf.len() < end {
            let Ok(()) = self.buf.resize(end, 0) else {
                unreachable!()
            };
        }
    }

    /// Makes room for `most` bytes behind the buffered ones. Moves the contents to the start if
    /// they are no more than the free bytes before them, or if there is no room otherwise.
    fn make_room(&mut self, most: usize)
        requires { length (kept_bytes self.old) + length (held_bytes self.old) + most ≤ 327708 }
        ensures kept { kept_bytes self.new ≡ kept_bytes self.old }
        ensures held { held_bytes self.new ≡ held_bytes self.old }
        ensures room { self.new.filled + most ≤ vec_len self.new.buf }
        ensures within { self.new.filled + most ≤ 331804 }
    {
        let used = (self.kept_end - self.kept) + (self.filled - self.start);
        if used <= self.filled - used || ROOM - self.filled < most {
            self.compact();
        }
        self.reach(self.filled + most);
    }

    /// Reads once behind the buffered bytes, at most `most` bytes. Returns the number of bytes
    /// read, 0 at the end.
    pub fn read<S: Reads>(&mut self, source: &mut S, most: usize) -> Result<usize, Failed>
        requires some { 0 < most }
        requires room { length (kept_bytes self.old) + length (held_bytes self.old) + most ≤ 327708 }
        ensures kept { kept_bytes self.new ≡ kept_bytes self.old }
        ensures failed { IfErr result (λ _. (held_bytes self.new ≡ held_bytes self.old)
            × Keeps (S.left source.old) (S.left source.new)) }
        ensures got { IfOk result (λ n. (bs : List ℕ) × (length bs ≡ n) × (n ≤ most)
            × Consumes (S.left source.old) (S.left source.new) bs
            × (held_bytes self.new ≡ held_bytes self.old ++ bs)) }
        ensures end { IfOk result (λ n. n ≡ 0 → IsAtEnd (S.left source.new)) }
        ensures name { S.name source.new ≡ S.name source.old }
        ensures cause { HasCause (S.faults source.old) (S.faults source.new) result }
    {
        self.make_room(most);
        match read_at(source, &mut self.buf, self.filled, most) {
            Ok(got) => {
                self.filled += got;
                Ok(got)
            }
            Err(failed) => Err(failed),
        }
    }
}
