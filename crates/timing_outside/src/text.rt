//! Bytes in memory that are read in pieces.
ghost use Rattle.std.specs.Prelude.{◌≡◌, ◌≤◌, ◌++◌, vec_len, length, min, take};

/// Bytes, and how many of them were read.
#[derive(Drop)]
pub struct Text {
    bytes: Vec<u8>,
    at: usize,
    ghost within: { at ≤ vec_len bytes },
}

impl Text {
    ghost use Rattle.timing_outside.specs.Texts.{rest_of};

    /// Returns these bytes, of which none was read.
    pub fn new(bytes: Vec<u8>) -> Text
        ensures { rest_of result ≡ bytes.items }
    {
        Text { bytes, at: 0 }
    }

    /// Copies the next bytes to the start of `buf`, at most `most` of them, and returns their
    /// number.
    pub fn give(&mut self, most: usize, buf: &mut [u8]) -> usize
        ensures count { result ≡ min (min (length buf.old) most) (length (rest_of self.old)) }
        ensures bytes { rest_of self.old ≡ take result buf.new ++ rest_of self.new }
        ensures bound { result ≤ length buf.new }
    {
        let count = buf.len().min(most).min(self.bytes.len() - self.at);
        buf[..count].copy_from_slice(&self.bytes[self.at..self.at + count]);
        self.at += count;
        count
    }
}
