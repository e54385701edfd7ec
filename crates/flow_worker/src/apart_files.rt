//! Files that are judged each by itself.

ghost use Rattle.std.specs.Prelude.{◌≡◌, ◌<◌, [], ℕ, List, All, false, IfOk, length, map};
ghost use Rattle.std.specs.List.{list_all};
ghost use Rattle.ruled_intake.specs.declared.message.Message.{Message as MessageValue};
ghost use Rattle.verdict_book.specs.Receipts.{IsOf, row_of};
ghost use Rattle.flow_worker.specs.Messages.{batch as batch_of, ending};
ghost use Rattle.flow_worker.specs.Opening.{Setting};
ghost use Rattle.flow_worker.specs.Settings.{IsWorker};
ghost use Rattle.flow_worker.specs.Posting.{own_keys, taken_row};

use crate::judges::Judges;
use crate::setting::RunSetting;
use ruled_intake::{Batch, FileEnd, Message};
use std::alloc::{AllocError as OutOfMemory, Global};
use std::sync::Wait;
use verdict_book::{Book, Receipt};

/// File that is judged by itself.
#[derive(Drop)]
struct OneFile {
    judges: Judges,
    /// Whether its end was taken.
    ended: bool,
}

/// Files of a run, in order.
#[derive(Drop)]
pub struct Apart {
    alloc: Global,
    files: Vec<OneFile>,
}

impl Apart {
    ghost use Rattle.flow_worker.specs.Standing.{ApartStandsFor, MayTake, Takes, TellsEnds};

    /// Returns the files of the run, of which nothing was taken yet. Returns `Err` if memory runs out.
    pub fn new(alloc: Global, run: &RunSetting<'_>, worker: u32) -> Result<Apart, OutOfMemory>
        requires limits { IsWorker run.now worker }
        ensures stands { IfOk result (λ apart. ApartStandsFor (record { media = run.now.media.now; workers = length run.now.lanes.now; joined = false; options = run.now.options })
            run.now.files worker [] apart) }
    {
        let mut all = Vec::new(alloc);
        for file in 0..run.files {
            let judges = Judges::new(alloc, run, file, worker)?;
            all.push(OneFile {
                judges,
                ended: false,
            })?;
        }
        Ok(Apart { alloc, files: all })
    }

    /// Takes a message. One of a file that doesn't exist, or after its file's first end, is ignored. Returns `Err` if
    /// memory runs out; what the judges were fed is then unspecified.
    pub fn take(&mut self, message: Message) -> Result<(), OutOfMemory>
        requires few { MayTake ApartStandsFor message self.old }
        ensures stands { IfOk result (λ _. Takes ApartStandsFor message self.old self.new) }
    {
        match message {
            Message::Batch(batch) => self.feed(&batch),
            Message::End(end) => {
                self.end(&end);
                Ok(())
            }
        }
    }

    /// Feeds a batch to the judges of its file. Returns `Err` if memory runs out.
    fn feed(&mut self, batch: &Batch) -> Result<(), OutOfMemory>
        requires few { MayTake ApartStandsFor (batch_of batch.now.file batch.now.packets) self.old }
        ensures stands { IfOk result (λ _. Takes ApartStandsFor (batch_of batch.now.file batch.now.packets) self.old self.new) }
    {
        let file = batch.file as usize;
        if file >= self.files.len() || self.files[file].ended {
            return Ok(());
        }
        self.files[file].judges.take(batch.packets.as_slice(), 0)
    }

    /// Marks a file as ended.
    fn end(&mut self, end: &FileEnd)
        ensures stands { Takes ApartStandsFor (ending end.now.file end.now.note end.now.records) self.old self.new }
    {
        let file = end.file as usize;
        if file < self.files.len() {
            self.files[file].ended = true;
        }
    }

    /// Returns whether an end of each file was taken.
    pub fn has_ended(&self) -> bool
        ensures { TellsEnds ApartStandsFor self.now result }
    {
        all_ended(&self.files)
    }

    /// Posts the results of the worker's flows, by file and then by media. Returns `Err` if memory runs out.
    pub fn post<R: Wait>(self, rt: &R, book: &Book) -> Result<Vec<Receipt>, OutOfMemory>
        ensures posted { IfOk result (λ receipts. All (IsOf book.now) receipts.items) }
        ensures rows { IfOk result (λ receipts.
            (s : Setting) (files worker : ℕ) (taken : List MessageValue)
            → ApartStandsFor s files worker taken self
            → map row_of receipts.items ≡ map (taken_row s files taken) (own_keys s files worker)) }
    {
        let Apart { alloc, files } = self;
        let mut receipts = Vec::new(alloc);
        for file in files {
            let OneFile { judges, ended: _ } = file;
            judges.post(rt, book, &mut receipts)?;
        }
        Ok(receipts)
    }
}

/// Returns whether an end of each file was taken.
fn all_ended(files: &[OneFile]) -> bool
    ensures { result ≡ list_all (λ file. file.ended) files.now }
{
    files.iter().all(|file| file.ended)
}
