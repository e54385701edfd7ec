//! A line that is written from its end to its start.

ghost use Rattle.std.specs.Prelude.{◌≡◌, ◌≤◌, ◌+◌, ◌++◌, ◌∷◌, [], length};
ghost use Rattle.std.specs.Fmt.{decimal, signed_decimal};

use itoa::{Buffer, write_digits};

/// The size of a line, in bytes.
const ROOM: usize = 512;

/// A line of at most 512 bytes. It is written from its end to its start, since the length of a number is known only
/// after its digits.
#[derive(Clone, Copy)]
pub(crate) struct Line {
    bytes: [u8; ROOM],
    /// The index of the first byte that is written.
    start: usize,
    ghost within: { start ≤ 512 },
}

impl Line {
    ghost use Rattle.flow_measure.specs.report.Line.{written};

    /// Returns an empty line.
    pub(crate) fn new() -> Line
        ensures written { written result ≡ [] }
        ensures room { result.start ≡ 512 }
    {
        Line {
            bytes: [0; ROOM],
            start: ROOM,
        }
    }

    /// Empties the line.
    #[inline(always)]
    pub(crate) fn clear(&mut self)
        ensures written { written self.new ≡ [] }
        ensures room { self.new.start ≡ 512 }
    {
        self.start = ROOM;
    }

    /// Returns the bytes written.
    #[inline(always)]
    pub(crate) fn as_bytes(&self) -> &[u8]
        ensures { result.now ≡ written self.now }
    {
        &self.bytes[self.start..]
    }

    /// Puts a byte in front of the line.
    #[inline(always)]
    pub(crate) fn put_byte(&mut self, byte: u8)
        requires { 1 ≤ self.old.start }
        ensures written { written self.new ≡ byte ∷ written self.old }
        ensures room { self.old.start ≡ self.new.start + 1 }
    {
        let start = self.start - 1;
        self.bytes[start] = byte;
        self.start = start;
    }

    /// Puts a number in front of the line.
    #[inline(always)]
    pub(crate) fn put_number(&mut self, number: u64)
        requires { 20 ≤ self.old.start }
        ensures written { written self.new ≡ decimal number ++ written self.old }
        ensures room { self.old.start ≤ self.new.start + 20 }
    {
        self.start = write_digits(number, &mut self.bytes, self.start);
    }

    /// Puts a signed number in front of the line.
    #[inline(always)]
    pub(crate) fn put_signed(&mut self, number: i128)
        requires { 40 ≤ self.old.start }
        ensures written { written self.new ≡ signed_decimal number ++ written self.old }
        ensures room { self.old.start ≤ self.new.start + 40 }
    {
        if number >= 0 && number < 0x1_0000_0000_0000_0000 {
            self.put_number(number as u64);
        } else {
            self.put_wide(number);
        }
    }

    /// Puts a signed number of any size in front of the line.
    #[inline(never)]
    fn put_wide(&mut self, number: i128)
        requires { 40 ≤ self.old.start }
        ensures written { written self.new ≡ signed_decimal number ++ written self.old }
        ensures room { self.old.start ≤ self.new.start + 40 }
    {
        let mut buffer = Buffer::new();
        self.put_bytes(buffer.format(number).as_bytes());
    }

    /// Puts bytes in front of the line.
    fn put_bytes(&mut self, bytes: &[u8])
        requires { length bytes.now ≤ self.old.start }
        ensures written { written self.new ≡ bytes.now ++ written self.old }
        ensures room { self.old.start ≡ self.new.start + length bytes.now }
    {
        let start = self.start - bytes.len();
        self.bytes[start..self.start].copy_from_slice(bytes);
        self.start = start;
    }
}
