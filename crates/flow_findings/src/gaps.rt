//! The gaps in the packet numbers of a flow.

ghost use Rattle.std.specs.Prelude.{◌≡◌, ◌≤◌, ◌<◌, ◌*◌, ◌^◌, ◌++◌, IfOk, length};
ghost use Rattle.std.specs.List.{flat_map};
ghost use Rattle.flow_findings.specs.Gaps.{backs, gap, gap_at, gap_before, gaps_of, half_turn, is_loss, is_wrap, losses, missing, skipped, wraps};

use std::alloc::{AllocError as OutOfMemory, Global};
use timing_base::{Run, Unjudged, Verdict};

/// A gap in the packet numbers of a flow.
#[derive(Clone, Copy, Debug, PartialEq, Eq)]
pub struct Gap {
    /// The packet number after that of the packet before.
    pub expected: u32,
    /// The packet number that came.
    pub got: u32,
}

/// The count of 16-bit sequence numbers, which is also the packet number after their first turn.
const TURN: u32 = 65_536;

/// Returns half the count of packet numbers: 2^31, or with `seq16` half the count of 16-bit sequence numbers.
fn half_turn(seq16: bool) -> u32
    ensures { result ≡ half_turn seq16 }
{
    if seq16 { TURN / 2 } else { 1 << 31 }
}

impl Gap {
    /// Returns how many packet numbers the gap skips, modulo 2^32; with `seq16` modulo 2^16.
    fn skipped(self, seq16: bool) -> u32
        ensures { result ≡ skipped seq16 self }
    {
        let skipped = self.got.wrapping_sub(self.expected);
        if seq16 { skipped % TURN } else { skipped }
    }

    /// Returns whether the sequence number wraps, and the extended sequence number stays 0. With `seq16` it doesn't
    /// count.
    fn is_wrap(self, seq16: bool) -> bool
        ensures { result ≡ is_wrap seq16 self }
    {
        !seq16 && self.expected == TURN && self.got == 0
    }

    /// Returns whether packets are missing.
    fn is_loss(self, seq16: bool) -> bool
        ensures { result ≡ is_loss seq16 self }
    {
        !self.is_wrap(seq16) && self.skipped(seq16) < half_turn(seq16)
    }
}

/// The gaps of a flow, counted by their kind.
#[derive(Clone, Copy, Debug, PartialEq, Eq)]
pub(crate) struct GapCounts {
    /// The gaps at which the sequence number wraps, and the extended sequence number stays 0.
    pub(crate) wraps: u64,
    /// The gaps at which packets are missing.
    pub(crate) losses: u64,
    /// The count of missing packets.
    pub(crate) missing: u64,
    /// The gaps at which the packet number goes back.
    pub(crate) backs: u64,
}

/// Adds the gap before a run; the first run has none. Returns `Err` if memory runs out.
fn add_gap(gaps: &mut Vec<Gap>, run: &Run) -> Result<(), OutOfMemory>
    ensures { IfOk result (λ _. gaps.new.items ≡ gaps.old.items ++ gap_before run.now.number run.now.expected) }
{
    if let Some(expected) = run.expected {
        gaps.push(Gap {
            expected,
            got: run.number,
        })?;
    }
    Ok(())
}

/// Returns the gaps between runs. Returns `Err` if memory runs out.
fn gaps_between(alloc: Global, runs: &[Run]) -> Result<Vec<Gap>, OutOfMemory>
    ensures { IfOk result (λ gaps. gaps.items
        ≡ flat_map (λ run. gap_before run.number run.expected) runs.now) }
{
    let mut gaps = Vec::new(alloc);
    for run in runs {
        add_gap(&mut gaps, run)?;
    }
    Ok(gaps)
}

/// Returns the gap at which a flow is refused, if it is. Returns `Err` if memory runs out.
fn gap_at(alloc: Global, unjudged: Unjudged) -> Result<Vec<Gap>, OutOfMemory>
    ensures { IfOk result (λ gaps. gaps.items ≡ gap_at unjudged) }
{
    match unjudged {
        Unjudged::Gap { expected, got, .. } => {
            let mut gaps = Vec::new(alloc);
            gaps.push(Gap { expected, got })?;
            Ok(gaps)
        }
        Unjudged::Absent | Unjudged::NoWholeFrame { .. } | Unjudged::Refused { .. } => {
            Ok(Vec::new(alloc))
        }
    }
}

/// Returns the gaps of a flow: those between its runs, or the one at which it is refused. Returns `Err` if memory runs
/// out.
pub(crate) fn gaps_of(alloc: Global, verdict: &Verdict) -> Result<Vec<Gap>, OutOfMemory>
    ensures value { IfOk result (λ gaps. gaps.items ≡ gaps_of verdict.now) }
    ensures few { IfOk result (λ gaps. length gaps.items ≤ 1025) }
{
    match verdict {
        Verdict::Unjudged(unjudged) => gap_at(alloc, *unjudged),
        Verdict::Judged(_) => Ok(Vec::new(alloc)),
        Verdict::Runs(runs) => gaps_between(alloc, runs.list.as_slice()),
    }
}

/// Counts gaps by their kind. `seq16` is whether the packets are numbered by their 16-bit sequence numbers alone.
pub(crate) fn counts_of(gaps: &[Gap], seq16: bool) -> GapCounts
    requires { length gaps.now ≤ 1025 }
    ensures wraps { result.wraps ≡ wraps seq16 gaps.now }
    ensures losses { result.losses ≡ losses seq16 gaps.now }
    ensures missing { result.missing ≡ missing seq16 gaps.now }
    ensures backs { result.backs ≡ backs seq16 gaps.now }
{
    let mut counts = GapCounts {
        wraps: 0,
        losses: 0,
        missing: 0,
        backs: 0,
    };
    for gap in gaps {
        if gap.is_wrap(seq16) {
            counts.wraps += 1;
        } else if gap.is_loss(seq16) {
            counts.losses += 1;
            counts.missing += u64::from(gap.skipped(seq16));
        } else {
            counts.backs += 1;
        }
    }
    counts
}
