//! Joined files, which are judged as one, in their order.

ghost use Rattle.std.specs.Prelude.{◌≡◌, ◌<◌, ◌+◌, ◌^◌, ◌++◌, ◌∷◌, [], ℕ, List, All, None, false, true, IfNone, IfOk, IfSome, get_or, length};
ghost use Rattle.ruled_intake.specs.declared.message.Message.{Message as MessageValue};
ghost use Rattle.ruled_intake.specs.Lanes.{IsWithin};
ghost use Rattle.verdict_book.specs.Receipts.{IsOf};
ghost use Rattle.flow_worker.specs.Messages.{batch as batch_of, ending, has_end};
ghost use Rattle.flow_worker.specs.Opening.{Setting};
ghost use Rattle.flow_worker.specs.Settings.{IsWorker};

use crate::judges::Judges;
use crate::setting::RunSetting;
use ruled_intake::{Batch, FileEnd, Message};
use std::alloc::{AllocError as OutOfMemory, Global};
use std::mem;
use std::sync::Wait;
use verdict_book::{Book, Receipt};

/// Messages that came of one of the files.
#[derive(Drop)]
struct Waiting {
    /// Batches that came before the files before it had ended.
    batches: Vec<Batch>,
    end: Option<FileEnd>,
}

/// Files of a run, in order, and one judge for each media.
#[derive(Drop)]
pub struct Joined {
    alloc: Global,
    judges: Judges,
    files: Vec<Waiting>,
    /// File with packets that are fed as they come: all files before it have ended.
    next: usize,
    /// Number of packet records of the files before it.
    before: u64,
}

impl Joined {
    ghost use Rattle.flow_worker.specs.declared.joined_files.Waiting.{Waiting};
    ghost use Rattle.flow_worker.specs.Standing.{HasEnded, HasRows, JoinedIsAt, JoinedStandsFor, MayTake, Takes, TellsEnds};

    /// Returns the files of the run, of which nothing was taken yet. Returns `Err` if memory runs out.
    pub fn new(alloc: Global, run: &RunSetting<'_>, worker: u32) -> Result<Joined, OutOfMemory>
        requires limits { IsWorker run.now worker }
        ensures stands { IfOk result (λ joined. JoinedStandsFor (record { media = run.now.media.now; workers = length run.now.lanes.now; joined = true; options = run.now.options })
            run.now.files worker [] joined) }
    {
        let judges = Judges::new(alloc, run, 0, worker)?;
        let mut all = Vec::new(alloc);
        for _ in 0..run.files {
            all.push(Waiting {
                batches: Vec::new(alloc),
                end: None,
            })?;
        }
        Ok(Joined {
            alloc,
            judges,
            files: all,
            next: 0,
            before: 0,
        })
    }

    /// Takes a message. One of a file that doesn't exist, or after its file's first end, is ignored. Returns `Err` if
    /// memory runs out; what the judges were fed is then unspecified.
    pub fn take(&mut self, message: Message) -> Result<(), OutOfMemory>
        requires few { MayTake JoinedStandsFor message self.old }
        ensures stands { IfOk result (λ _. Takes JoinedStandsFor message self.old self.new) }
    {
        match message {
            Message::Batch(batch) => self.feed(batch),
            Message::End(end) => self.end(end),
        }
    }

    /// Feeds a batch of the next file, and keeps a batch of a later file. Returns `Err` if memory runs out.
    fn feed(&mut self, batch: Batch) -> Result<(), OutOfMemory>
        requires few { MayTake JoinedStandsFor (batch_of batch.file batch.packets) self.old }
        ensures stands { IfOk result (λ _. Takes JoinedStandsFor (batch_of batch.file batch.packets) self.old self.new) }
    {
        let file = batch.file as usize;
        if file >= self.files.len() || self.files[file].end.is_some() {
            return Ok(());
        }
        if file == self.next {
            return self.judges.take(batch.packets.as_slice(), self.before);
        }
        self.files[file].batches.push(batch)?;
        Ok(())
    }

    /// Notes the end of a file, and goes on to the first file that hasn't ended. Returns `Err` if memory runs out.
    fn end(&mut self, end: FileEnd) -> Result<(), OutOfMemory>
        requires few { MayTake JoinedStandsFor (ending end.file end.note end.records) self.old }
        ensures stands { IfOk result (λ _. Takes JoinedStandsFor (ending end.file end.note end.records) self.old self.new) }
    {
        let file = end.file as usize;
        if file >= self.files.len() || self.files[file].end.is_some() {
            return Ok(());
        }
        self.note_end(file, end);
        self.advance()
    }

    /// Notes the end of a file that has none yet.
    fn note_end(&mut self, file: usize, end: FileEnd)
        requires file { file ≡ end.file }
        requires there { file < length self.old.files.items }
        requires none { (d : Waiting) → (get_or self.old.files.items file d).end ≡ None }
        ensures { (s : Setting) (files worker : ℕ) (taken : List MessageValue)
            → JoinedIsAt s files worker taken self.old
            → JoinedIsAt s files worker (taken ++ ending end.file end.note end.records ∷ []) self.new }
    {
        self.files[file].end = Some(end);
    }

    /// Goes on to the first file that hasn't ended. Returns `Err` if memory runs out.
    fn advance(&mut self) -> Result<(), OutOfMemory>
        requires few { (s : Setting) × (files : ℕ) × (worker : ℕ) × (taken : List MessageValue)
            × JoinedIsAt s files worker taken self.old × IsWithin (2 ^ 41) taken }
        ensures stands { IfOk result (λ _. (s : Setting) (files worker : ℕ) (taken : List MessageValue)
            → JoinedIsAt s files worker taken self.old
            → JoinedStandsFor s files worker taken self.new) }
    {
        while let Some(records) = self.ended() {
            self.go_on(records)?;
        }
        Ok(())
    }

    /// Returns the number of packet records of the next file, if it exists and has ended.
    fn ended(&self) -> Option<u64>
        ensures some { IfSome result (λ records. (s : Setting) (files worker : ℕ)
            (taken : List MessageValue) → JoinedIsAt s files worker taken self.now
            → HasEnded files taken self.now.next records) }
        ensures none { IfNone result ((s : Setting) (files worker : ℕ) (taken : List MessageValue)
            → JoinedIsAt s files worker taken self.now
            → self.now.next < files → has_end self.now.next taken ≡ false) }
    {
        if self.next >= self.files.len() {
            return None;
        }
        match &self.files[self.next].end {
            Some(end) => Some(end.records),
            None => None,
        }
    }

    /// Goes on to the file after the next one, which has ended with `records` packet records, and feeds the batches
    /// kept of it. Returns `Err` if memory runs out.
    fn go_on(&mut self, records: u64) -> Result<(), OutOfMemory>
        requires few { (s : Setting) × (files : ℕ) × (worker : ℕ) × (taken : List MessageValue)
            × JoinedIsAt s files worker taken self.old × IsWithin (2 ^ 41) taken
            × HasEnded files taken self.old.next records }
        ensures next { self.new.next ≡ self.old.next + 1 }
        ensures count { length self.new.files.items ≡ length self.old.files.items }
        ensures stands { IfOk result (λ _. (s : Setting) (files worker : ℕ) (taken : List MessageValue)
            → JoinedIsAt s files worker taken self.old
            → HasEnded files taken self.old.next records
            → JoinedIsAt s files worker taken self.new) }
    {
        self.before += records;
        self.next += 1;
        if self.next >= self.files.len() {
            return Ok(());
        }
        let batches = mem::replace(&mut self.files[self.next].batches, Vec::new(self.alloc));
        self.judges.take_batches(batches, self.before)
    }

    /// Returns whether an end of each file was taken.
    pub fn has_ended(&self) -> bool
        ensures { TellsEnds JoinedStandsFor self.now result }
    {
        self.next >= self.files.len()
    }

    /// Posts the results of the worker's flows, by media, after all files have ended. Returns `Err` if memory runs out.
    pub fn post<R: Wait>(self, rt: &R, book: &Book) -> Result<Vec<Receipt>, OutOfMemory>
        ensures posted { IfOk result (λ receipts. All (IsOf book.now) receipts.items) }
        ensures rows { IfOk result (λ receipts. HasRows JoinedStandsFor self receipts.items) }
    {
        let mut receipts = Vec::new(self.alloc);
        self.judges.post(rt, book, &mut receipts)?;
        Ok(receipts)
    }
}
