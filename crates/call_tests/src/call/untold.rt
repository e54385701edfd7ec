//! A source with bytes that contracts don't know, and with a watch on its reads.

use timing_outside::{Failed, MemorySource, Source};

/// A watch on the reads of a source.
pub trait Watch: Send + Drop {
    /// Returns the greatest number of bytes that the next read may give. `taken` bytes were read before, and `asked`
    /// are asked for. Each read calls it once.
    fn before(&mut self, taken: usize, asked: usize) -> usize;
}

/// A source with bytes that contracts don't know, and with a watch on its reads.
#[derive(Drop)]
pub struct UntoldSource<W: Watch> {
    /// The source that is read.
    pub inner: MemorySource,
    /// The number of bytes that were read.
    pub taken: usize,
    /// The watch.
    pub watch: W,
}

impl<W: Watch> Source for UntoldSource<W> {
    ghost use Rattle.std.specs.Prelude.{None};
    ghost use Rattle.timing_outside.specs.MemorySources.{faults_of, name_of};

    ghost name = { λ s. name_of s.inner };

    ghost left = { λ s. None };

    ghost faults = { λ s. faults_of s.inner };

    fn read(&mut self, buf: &mut [u8]) -> Result<usize, Failed> {
        let most = self.watch.before(self.taken, buf.len()).min(buf.len());
        let read = self.inner.read(&mut buf[..most])?;
        self.taken = self.taken.saturating_add(read);
        Ok(read)
    }
}
