//! The captures that the violations of a report need.

ghost use Rattle.std.specs.Prelude.{◌≡◌, ◌<◌, ℕ, List, All, Contains, IfOk, IfErr, IfSome, Some, map, option_map, slice_get};
ghost use Rattle.timing_outside.specs.Shelves.{StaysAs};
ghost use Rattle.pcapng_reader.specs.Classic.{classic_texts};
ghost use Rattle.timing_base.specs.Jobs.{ReportJob as JobValue};
ghost use Rattle.timing_base.specs.Media.{Media as MediaValue};
ghost use Rattle.timing_report.specs.declared.json_report.reading.ReportProof.{ReportProof as Claim};
ghost use Rattle.timing_steps.specs.Answers.{OnReadFault, seen_of};
ghost use Rattle.timing_top.specs.verify.Asked.{NeededRose, captures_of, file_count, media_for, needed};
ghost use Rattle.timing_top.specs.verify.Findings.{Finds};
ghost use Rattle.timing_top.specs.verify.Found.{AreServed, FailedNeeded, IsChecked, IsFound, Serves};

use crate::verify::checked::{Checked, Finding};
use crate::verify::read::{FileRead, answer_of, read_file};
use std::alloc::Global;
use timing_base::{FlowKey, Media, ReportJob};
use timing_outside::Shelf;
use timing_report::Input;
use timing_report::json_report::ReportProof;
use timing_steps::Failure;

/// Returns the number of files that flows of a job can belong to. Joined captures are one file.
fn file_count(job: &ReportJob) -> usize
    ensures { result ≡ file_count job.now }
{
    if job.joined { 1 } else { job.captures.len() }
}

/// Returns the media of a flow, if the job has its file and the SDP its media.
fn media_for<'a>(job: &ReportJob, media: &'a [Media], key: FlowKey) -> Option<&'a Media>
    ensures { option_map (λ m. m.now) result ≡ media_for job.now media.now key }
{
    if (key.file as usize) < file_count(job) {
        media.get(key.media as usize)
    } else {
        None
    }
}

/// Returns the file with this number, if it was read.
fn read_of(reads: &[FileRead], file: u32) -> Option<&FileRead>
    ensures there { IfSome result (λ read. Contains reads.now read.now) }
    ensures file { IfSome result (λ read. read.now.file ≡ file) }
{
    reads.iter().find(|read| read.file == file)
}

/// Returns the finding on a claim in a file that was read.
fn answer(read: &FileRead, claim: &ReportProof) -> Finding
    ensures { (job : JobValue) (media : List MediaValue) (claims : List Claim) (text : List ℕ → List ℕ)
        (m : MediaValue) → Serves job media claims text read.now → claim.now.key.file ≡ read.now.file
        → Contains claims claim.now → slice_get media claim.now.key.media ≡ Some m
        → Finds m claim.now job.options (map text (captures_of job claim.now.key)) result }
{
    answer_of(&read.readings, claim.key.media as usize, claim)
}

/// The claims of a report, with the job and the media that they are about.
#[derive(Clone, Copy)]
struct Claims<'a> {
    alloc: Global,
    job: &'a ReportJob,
    media: &'a [Media],
    list: &'a [ReportProof],
}

impl Claims<'_> {
    ghost use Rattle.timing_top.specs.verify.Claims.{AreServedFor, Since};

    /// Returns the finding on a claim in the captures of its file. If the file wasn't read yet, it is read now for all
    /// claims.
    fn find_there<H: Shelf>(
        &self,
        shelf: &mut H,
        reads: &mut Vec<FileRead>,
        claim: &ReportProof,
    ) -> Result<Finding, Failure>
        requires within { claim.now.key.file < file_count self.now.job.now }
        requires reported { Contains self.now.list.now claim.now }
        ensures found { (m : MediaValue) → slice_get self.now.media.now claim.now.key.media ≡ Some m
            → Since H.text H.lacks H.faults shelf.old self.now reads.old.items
            (λ texts lacks. IfOk result (IsFound texts lacks self.now.job.now m claim.now)) }
        ensures served { Since H.text H.lacks H.faults shelf.old self.now reads.old.items
            (λ texts lacks. IfOk result (λ _. AreServedFor texts lacks self.now reads.new.items)) }
        ensures cause { IfErr result (FailedNeeded (H.faults shelf.old) (H.faults shelf.new) self.now.job.now
            (captures_of self.now.job.now claim.now.key)) }
        ensures stays { StaysAs H.text H.lacks H.faults shelf.old shelf.new }
    {
        if let Some(read) = read_of(reads, claim.key.file) {
            return Ok(answer(read, claim));
        }
        let read = read_file(
            self.alloc,
            self.job,
            shelf,
            self.media,
            self.list,
            claim.key.file,
        )?;
        let finding = answer(&read, claim);
        reads.push(read)?;
        Ok(finding)
    }

    /// Returns the finding on a claim. If its flow doesn't exist, it is not confirmed, and nothing is read for it.
    fn find<H: Shelf>(
        &self,
        shelf: &mut H,
        reads: &mut Vec<FileRead>,
        claim: &ReportProof,
    ) -> Result<Finding, Failure>
        requires reported { Contains self.now.list.now claim.now }
        ensures found { Since H.text H.lacks H.faults shelf.old self.now reads.old.items
            (λ texts lacks. IfOk result (λ finding. IsChecked texts lacks self.now.job.now self.now.media.now
            (record { claim = claim.now; finding = finding }))) }
        ensures served { Since H.text H.lacks H.faults shelf.old self.now reads.old.items
            (λ texts lacks. IfOk result (λ _. AreServedFor texts lacks self.now reads.new.items)) }
        ensures cause { IfErr result (FailedNeeded (H.faults shelf.old) (H.faults shelf.new) self.now.job.now
            (needed self.now.job.now self.now.media.now claim.now)) }
        ensures stays { StaysAs H.text H.lacks H.faults shelf.old shelf.new }
    {
        match media_for(self.job, self.media, claim.key) {
            Some(_) => self.find_there(shelf, reads, claim),
            None => Ok(Ok(false)),
        }
    }
}

/// Checks the claims of a report one after the other. Each file is read once, for the first claim that needs it.
pub fn check_each<H: Shelf>(
    alloc: Global,
    job: &ReportJob,
    shelf: &mut H,
    media: &[Media],
    claims: &[ReportProof],
) -> Result<Vec<Checked>, Failure>
    ensures checked { IfOk result (λ checked. All (IsChecked (classic_texts (H.text shelf.old)) (H.lacks shelf.old)
        job.now media.now) checked.items) }
    ensures claims { IfOk result (λ checked. map (λ c. c.claim) checked.items ≡ claims.now) }
    ensures cause { IfErr result (λ e. OnReadFault e (λ i. (number : ℕ) × (i ≡ Input.Capture number)
        × NeededRose (seen_of H.Shelf shelf.old shelf.new) job.now media.now claims.now number)) }
    ensures stays { StaysAs H.text H.lacks H.faults shelf.old shelf.new }
{
    let all = Claims {
        alloc,
        job,
        media,
        list: claims,
    };
    let mut reads = Vec::new(alloc);
    let mut checked = Vec::new(alloc);
    for claim in claims {
        let finding = all.find(shelf, &mut reads, claim)?;
        checked.push(Checked {
            claim: *claim,
            finding,
        })?;
    }
    Ok(checked)
}
