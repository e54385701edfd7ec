//! The judging of all flows of a worker.

ghost use Rattle.std.specs.Prelude.{◌<◌, [], All, IfOk};
ghost use Rattle.verdict_book.specs.Receipts.{IsOf};
ghost use Rattle.flow_worker.specs.Settings.{IsWorker, setting_of};

use crate::apart_files::Apart;
use crate::joined_files::Joined;
use crate::setting::RunSetting;
use ruled_intake::Message;
use std::alloc::{AllocError as OutOfMemory, Global};
use std::sync::Wait;
use verdict_book::{Book, Receipt};

/// Judges of a worker's flows.
#[derive(Drop)]
pub enum Judging {
    /// Each file is judged by itself.
    Apart(Apart),
    /// The files are judged as one.
    Joined(Joined),
}

impl Judging {
    ghost use Rattle.flow_worker.specs.Standing.{HasRows, MayTake, StandsFor, Takes, TellsEnds};

    /// Returns the judges of a worker that has taken nothing yet. Returns `Err` if memory runs out.
    pub fn new(alloc: Global, run: &RunSetting<'_>, worker: u32) -> Result<Judging, OutOfMemory>
        requires limits { IsWorker run.now worker }
        ensures stands { IfOk result (λ judging. StandsFor (setting_of run.now) run.now.files worker [] judging) }
    {
        if run.joined {
            let files = Joined::new(alloc, run, worker)?;
            Ok(Judging::Joined(files))
        } else {
            let files = Apart::new(alloc, run, worker)?;
            Ok(Judging::Apart(files))
        }
    }

    /// Takes a message. Returns `Err` if memory runs out; what the judges were fed is then unspecified.
    pub fn take(&mut self, message: Message) -> Result<(), OutOfMemory>
        requires few { MayTake StandsFor message self.old }
        ensures stands { IfOk result (λ _. Takes StandsFor message self.old self.new) }
    {
        match self {
            Judging::Apart(files) => files.take(message),
            Judging::Joined(files) => files.take(message),
        }
    }

    /// Returns whether an end of each file was taken.
    pub fn has_ended(&self) -> bool
        ensures { TellsEnds StandsFor self.now result }
    {
        match self {
            Judging::Apart(files) => files.has_ended(),
            Judging::Joined(files) => files.has_ended(),
        }
    }

    /// Posts the results of the worker's flows, by file and then by media, after all files have ended. Returns `Err` if
    /// memory runs out.
    pub fn post<R: Wait>(self, rt: &R, book: &Book) -> Result<Vec<Receipt>, OutOfMemory>
        ensures posted { IfOk result (λ receipts. All (IsOf book.now) receipts.items) }
        ensures rows { IfOk result (λ receipts. HasRows StandsFor self receipts.items) }
    {
        match self {
            Judging::Apart(files) => files.post(rt, book),
            Judging::Joined(files) => files.post(rt, book),
        }
    }
}
