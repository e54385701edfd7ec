//! Judges the captures of a job on one thread.

ghost use Rattle.std.specs.Prelude.{◌≡◌};
ghost use Rattle.timing_outside.specs.Shelves.{StaysAs};
ghost use Rattle.fail_interval.specs.Rows.{rows_over};
ghost use Rattle.pcapng_reader.specs.Sources.{faults_of};
ghost use Rattle.timing_top.specs.Found.{AreReady, Judges};

use crate::captures::Found;
use pcapng_reader::Classic;
use std::alloc::Global;
use timing_base::{FlowOptions, Media};
use timing_outside::Shelf;
use timing_steps::Failure;

/// A request to judge media in captures on one thread.
#[derive(Clone, Copy)]
pub struct Alone<'a> {
    /// The allocator.
    pub alloc: Global,
    /// The media that are judged.
    pub media: &'a [Media],
    /// Whether the captures are judged as one.
    pub joined: bool,
    /// The seconds that are added to every capture timestamp.
    pub options: FlowOptions,
}

impl Alone<'_> {
    /// Judges the media, in each capture by itself or in all of them as one.
    ///
    /// Returns `ReadFault` with the first capture that couldn't be read, and `OutOfMemory` if memory runs out. All
    /// sources go back to the shelf in any case.
    pub fn judge<H: Shelf>(
        &self,
        shelf: &mut H,
        sources: Vec<Classic<H::Source>>,
    ) -> Result<Found, Failure>
        requires ready { AreReady (faults_of H.Source.faults) sources.items self.now.media.now }
        ensures judged { Judges (rows_over self.now.joined self.now.options self.now.media.now) self.now.media.now
            H.Shelf H.Source.Source shelf.old shelf.new sources.items result }
        ensures stays { StaysAs H.text H.lacks H.faults shelf.old shelf.new }
    {
        if self.joined {
            self.judge_joined(shelf, sources)
        } else {
            self.judge_each(shelf, sources)
        }
    }
}
