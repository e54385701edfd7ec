//! Judges the captures of a job one after the other, each by itself.

ghost use Rattle.std.specs.Prelude.{◌≡◌, ◌≤◌, ◌<◌, ◌+◌, ℕ, List, Some, IfOk, IfErr, length};
ghost use Rattle.timing_outside.specs.Causes.{Rose};
ghost use Rattle.timing_outside.specs.Shelves.{StaysAs};
ghost use Rattle.timing_report.specs.Outcomes.{AreOfSession};
ghost use Rattle.pcapng_reader.specs.Sources.{faults_of, left_of, name_of};
ghost use Rattle.timing_steps.specs.Answers.{OnReadFault};
ghost use Rattle.fail_interval.specs.Rows.{rows_of_files};
ghost use Rattle.timing_top.specs.Found.{AreReady, FindsNext, Judges};

use crate::alone::Alone;
use fail_interval::Bank;
use pcapng_reader::Classic;
use std::alloc::Global;
use timing_base::{FileNote, FlowOptions, Media, Row};
use timing_outside::{Shelf, Source};
use timing_report::Input;
use timing_steps::{Failure, give_back, take_source};

/// The results of judging the captures of a job.
#[derive(Drop)]
pub struct Found {
    /// How each capture ends.
    pub notes: Vec<FileNote>,
    /// The results of the flows.
    pub rows: Vec<Row>,
}

/// Judges the media in one more capture, by itself, and appends its note and its results.
fn judge_next<H: Shelf>(
    alloc: Global,
    shelf: &mut H,
    source: Classic<H::Source>,
    media: &[Media],
    options: FlowOptions,
    found: &mut Found,
) -> Result<(), Failure>
    requires fresh { faults_of H.Source.faults source ≡ 0 }
    requires few { length found.old.notes.items < 16 }
    requires few_media { length media.now ≤ 64 }
    ensures told { IfOk result (λ _. (text : List ℕ) → left_of H.Source.left source ≡ Some text
        → FindsNext text media.now options (length found.old.notes.items)
        found.old.notes.items found.new.notes.items found.old.rows.items found.new.rows.items) }
    ensures count { IfOk result (λ _. length found.new.notes.items
        ≡ length found.old.notes.items + 1) }
    ensures of_session { IfOk result (λ _. AreOfSession media.now found.old.rows.items
        → AreOfSession media.now found.new.rows.items) }
    ensures cause { IfErr result (λ e. OnReadFault e (λ i.
        (i ≡ Input.Capture (length found.old.notes.items))
        × Rose (H.faults shelf.old (name_of H.Source.name source))
        (H.faults shelf.new (name_of H.Source.name source)))) }
    ensures stays { StaysAs H.text H.lacks H.faults shelf.old shelf.new }
{
    let number = found.notes.len() as u32;
    let mut bank = match Bank::new(alloc, media, number, options) {
        Ok(bank) => bank,
        Err(_) => {
            give_back(shelf, source);
            return Err(Failure::OutOfMemory);
        }
    };
    let taken = take_source(alloc, shelf, source, number, 0, &mut bank)?;
    found.notes.push(taken.note)?;
    bank.finish(&mut found.rows)?;
    Ok(())
}

impl Alone<'_> {
    /// Judges the media in each capture by itself. After a capture that couldn't be read, the sources of the others go
    /// back to the shelf unread.
    pub fn judge_each<H: Shelf>(
        &self,
        shelf: &mut H,
        sources: Vec<Classic<H::Source>>,
    ) -> Result<Found, Failure>
        requires ready { AreReady (faults_of H.Source.faults) sources.items self.now.media.now }
        ensures judged { Judges (rows_of_files self.now.options 0 self.now.media.now) self.now.media.now
            H.Shelf H.Source.Source shelf.old shelf.new sources.items result }
        ensures stays { StaysAs H.text H.lacks H.faults shelf.old shelf.new }
    {
        let mut found = Found {
            notes: Vec::new(self.alloc),
            rows: Vec::new(self.alloc),
        };
        let mut outcome = Ok(());
        for source in sources {
            outcome = match outcome {
                Ok(()) => judge_next(
                    self.alloc,
                    shelf,
                    source,
                    self.media,
                    self.options,
                    &mut found,
                ),
                Err(failure) => {
                    give_back(shelf, source);
                    Err(failure)
                }
            };
        }
        outcome?;
        Ok(found)
    }
}
