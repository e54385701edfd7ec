//! The readings of a file's flows, with what the claims of a report need.

ghost use Rattle.std.specs.Prelude.{◌≡◌, ◌≤◌, ◌<◌, ◌^◌, [], List, All, IfOk, OnOk, length};
ghost use Rattle.interval_checker.specs.Asking.{AsksNoLess};
ghost use Rattle.interval_checker.specs.Readings.{HaveRead, HaveRoom};
ghost use Rattle.timing_top.specs.verify.Found.{AreAsked, Asks};

use interval_checker::{Asked, Reading};
use std::alloc::{AllocError as OutOfMemory, Global};
use timing_base::{FlowOptions, Media};
use timing_report::json_report::ReportProof;

/// Asks for what a claim needs, if it is on this flow.
fn ask_claim(
    asked: &mut Asked,
    claim: &ReportProof,
    file: u32,
    media: usize,
) -> Result<(), OutOfMemory>
    ensures asks { OnOk result (Asks asked.new file media claim.now) }
    ensures no_less { AsksNoLess asked.old asked.new }
{
    if claim.key.file != file {
        return Ok(());
    }
    if claim.key.media as usize != media {
        return Ok(());
    }
    asked.ask(u64::from(claim.run), &claim.proof)
}

/// Returns what the claims on a flow need.
fn asked_of(
    alloc: Global,
    claims: &[ReportProof],
    file: u32,
    media: usize,
) -> Result<Asked, OutOfMemory>
    ensures { IfOk result (λ asked. All (Asks asked file media) claims.now) }
{
    let mut asked = Asked::new(alloc);
    for claim in claims {
        ask_claim(&mut asked, claim, file, media)?;
    }
    Ok(asked)
}

/// Returns a reading for the flow of each media in this file, not yet begun, with what the claims need.
pub fn readings_of(
    alloc: Global,
    media: &[Media],
    claims: &[ReportProof],
    file: u32,
    options: FlowOptions,
) -> Result<Vec<Reading>, OutOfMemory>
    ensures asked { IfOk result (λ readings. AreAsked options claims.now file 0 media.now readings.items) }
    ensures none { IfOk result (λ readings. HaveRead readings.items []) }
    ensures room { IfOk result (λ readings. HaveRoom (2 ^ 40) readings.items) }
{
    let mut readings = Vec::new(alloc);
    for (number, each) in media.iter().enumerate() {
        let asked = asked_of(alloc, claims, file, number)?;
        readings.push(Reading::new(each, options, asked))?;
    }
    Ok(readings)
}
