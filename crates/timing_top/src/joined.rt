//! Judges the captures of a job as one capture.

ghost use Rattle.std.specs.Prelude.{◌≡◌};
ghost use Rattle.timing_base.specs.Captures.{joined};
ghost use Rattle.timing_outside.specs.Shelves.{StaysAs};
ghost use Rattle.pcapng_reader.specs.Sources.{faults_of};
ghost use Rattle.fail_interval.specs.Rows.{rows_of};
ghost use Rattle.timing_top.specs.Found.{AreReady, Judges};

use crate::alone::Alone;
use crate::captures::Found;
use fail_interval::Bank;
use pcapng_reader::Classic;
use timing_outside::Shelf;
use timing_steps::{Failure, give_back_all, take_sources};

impl Alone<'_> {
    /// Takes the captures in order, with packet records that are numbered on from capture to capture, and judges the
    /// media in all of them as one. After a capture that couldn't be read, the sources of the others go back to the
    /// shelf unread.
    pub fn judge_joined<H: Shelf>(
        &self,
        shelf: &mut H,
        sources: Vec<Classic<H::Source>>,
    ) -> Result<Found, Failure>
        requires ready { AreReady (faults_of H.Source.faults) sources.items self.now.media.now }
        ensures judged { Judges (λ files. rows_of self.now.options 0 self.now.media.now (joined files))
            self.now.media.now H.Shelf H.Source.Source shelf.old shelf.new sources.items result }
        ensures stays { StaysAs H.text H.lacks H.faults shelf.old shelf.new }
    {
        let mut bank = match Bank::new(self.alloc, self.media, 0, self.options) {
            Ok(bank) => bank,
            Err(_) => {
                give_back_all(shelf, sources);
                return Err(Failure::OutOfMemory);
            }
        };
        let taken = take_sources(self.alloc, shelf, sources, &mut bank)?;
        let mut rows = Vec::new(self.alloc);
        bank.finish(&mut rows)?;
        Ok(Found {
            notes: taken.notes,
            rows,
        })
    }
}
