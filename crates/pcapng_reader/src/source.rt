//! A source that gives another one's bytes in classic form.

ghost use Rattle.std.specs.Prelude.{◌≡◌, IfOk, IfErr};
ghost use Rattle.std.specs.Option.{option_map};
ghost use Rattle.pcapng_reader.specs.Classic.{classic};

use crate::converter::Converter;
use std::alloc::Global;
use timing_outside::{Failed, Source};

/// A source that gives the bytes of another one as a classic capture. A file that isn't pcapng is
/// passed through unchanged.
#[derive(Drop)]
pub struct Classic<S: Source> {
    pub(crate) source: S,
    pub(crate) converter: Converter,
}

impl<S: Source> Classic<S> {
    ghost use Rattle.pcapng_reader.specs.Sources.{under, left_of};

    /// Wraps a source. Allocates all memory that it ever uses, 331,804 and 16,384 bytes, and reads
    /// nothing. If memory runs out, returns the unchanged source as `Err`.
    pub fn wrap(alloc: Global, source: S) -> Result<Classic<S>, S>
        ensures left { IfOk result (λ c. left_of S.left c ≡ option_map classic (S.left source)) }
        ensures source { IfOk result (λ c. under c ≡ source) }
        ensures back { IfErr result (λ s. s ≡ source) }
    {
        match Converter::new(alloc) {
            Ok(converter) => Ok(Classic { source, converter }),
            Err(_) => Err(source),
        }
    }

    /// Returns the wrapped source, with the bytes it has left.
    pub fn into_inner(self) -> S
        ensures { result ≡ under self }
    {
        let Classic {
            source,
            converter: _,
        } = self;
        source
    }
}

impl<S: Source> Source for Classic<S> {
    ghost use Rattle.pcapng_reader.specs.Sources.{under, left_of};

    ghost name = { λ c. S.name (under c) };

    ghost left = { λ c. left_of S.left c };

    ghost faults = { λ c. S.faults (under c) };

    /// Reads the next bytes of the classic form. Reads the wrapped source only until there is a
    /// byte to return. If that read fails, returns `Failed`, and the next call continues at the
    /// same byte.
    fn read(&mut self, buf: &mut [u8]) -> Result<usize, Failed> {
        self.converter.give_read(&mut self.source, buf)
    }
}
