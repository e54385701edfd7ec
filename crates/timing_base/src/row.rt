//! The results of flows, as in the report.

ghost use Rattle.std.specs.Prelude.{◌≡◌, IfOk};

use crate::fail::FailProof;
use crate::key::FlowKey;
use crate::list::Items;
use crate::packet::PacketFault;
use std::alloc::{AllocError as OutOfMemory, Global};
use std::marker::Model;

/// The verdict on one sender type.
#[derive(Clone, Copy, Debug, PartialEq, Eq)]
pub enum KindVerdict {
    /// The judged packets keep all limits of the type.
    Pass,
    /// The judged packets break a limit of the type; this is the first violation.
    Fail(FailProof),
}

/// The verdict on a judged run: the packets after its first marker and up to its last one, which
/// are whole frames (fields of an interlaced video) of one size.
#[derive(Clone, Copy, Debug, PartialEq, Eq)]
pub struct Judged {
    /// The number of packets in each frame or field, 1 to 262,144.
    pub n: u32,
    /// The number of judged frames or fields.
    pub frames: u64,
    /// The number of judged packets.
    pub packets: u64,
    /// The number of packets before the judged ones.
    pub head: u64,
    /// The number of packets after the judged ones.
    pub tail: u64,
    /// The greatest count of the bucket, in packets.
    pub bucket_peak: u64,
    /// The most packets that the virtual receiver buffer held with gapped reads, 0 if it was always
    /// empty.
    pub gapped_peak: u64,
    /// The most packets that the virtual receiver buffer held with linear reads, 0 if it was always
    /// empty.
    pub linear_peak: u64,
    /// The verdicts on the types N, NL and W, in this order.
    pub kinds: [KindVerdict; 3],
}

impl Model for Judged {
    ghost use Rattle.timing_base.specs.Verdicts.{Judged as Seen, IsJudged};

    ghost Value = { Seen };

    ghost view = { λ judged. record {
      n = judged.n;
      frames = judged.frames;
      packets = judged.packets;
      head = judged.head;
      tail = judged.tail;
      bucket_peak = judged.bucket_peak;
      gapped_peak = judged.gapped_peak;
      linear_peak = judged.linear_peak;
      kinds = judged.kinds;
    } };

    ghost invariant = { λ judged. IsJudged (view judged) };

    ghost inverse = { λ judged. record {
      n = judged.n;
      frames = judged.frames;
      packets = judged.packets;
      head = judged.head;
      tail = judged.tail;
      bucket_peak = judged.bucket_peak;
      gapped_peak = judged.gapped_peak;
      linear_peak = judged.linear_peak;
      kinds = judged.kinds;
    } };
}

/// The reason why a flow has no verdict. `rec` is the number of a packet record, counted from 1.
#[derive(Clone, Copy, Debug, PartialEq, Eq)]
pub enum Unjudged {
    /// The flow has no packets.
    Absent,
    /// The flow has fewer than two markers. `head` counts the packets up to and including the first
    /// marker, or all packets if there is none.
    NoWholeFrame { head: u64 },
    /// The first fault of the flow, and its packet record.
    Refused { rec: u64, fault: PacketFault },
    /// The first gap that is too many, and its packet record. `expected` and `got` are packet
    /// numbers.
    Gap { rec: u64, expected: u32, got: u32 },
}

/// The result of one run.
#[derive(Clone, Copy, Debug, PartialEq, Eq)]
pub enum RunVerdict {
    /// The run has fewer than two markers. `head` counts the packets up to and including the first
    /// marker, or all packets if there is none.
    NoWholeFrame { head: u64 },
    /// The run has a whole frame or field.
    Judged(Judged),
}

/// A run: the packets of a flow between two gaps in the packet numbers.
#[derive(Clone, Copy, Debug, PartialEq, Eq)]
pub struct Run {
    /// The packet record of its first packet, counted from 1.
    pub rec: u64,
    /// The packet number of its first packet.
    pub number: u32,
    /// The packet number that would have continued the run before; `None` for the first run.
    pub expected: Option<u32>,
    /// The result of the run.
    pub verdict: RunVerdict,
}

/// The 2 to 1,025 runs of a flow with gaps, in order. Only the first has no expected number.
/// Contracts see their list.
#[derive(Debug, Drop)]
pub struct Runs {
    /// The runs, counted from 0.
    pub list: Items<Run>,
}

impl Model for Runs {
    ghost use Rattle.std.specs.Prelude.{List};
    ghost use Rattle.timing_base.specs.declared.row.Run.{Run};
    ghost use Rattle.timing_base.specs.Rows.{AreRuns};

    ghost Value = { List Run };

    ghost view = { λ runs. runs.list };

    ghost invariant = { λ runs. AreRuns runs.list };
}

/// The result of a flow.
#[derive(Debug, Drop)]
pub enum Verdict {
    /// The flow isn't judged.
    Unjudged(Unjudged),
    /// The packet numbers have no gap, and the flow has a whole frame or field.
    Judged(Judged),
    /// The packet numbers have gaps.
    Runs(Runs),
}

/// The result of one flow of one capture, as in the report.
#[derive(Debug, Drop)]
pub struct Row {
    /// The flow.
    pub key: FlowKey,
    /// Its result.
    pub verdict: Verdict,
}

impl Verdict {
    /// Returns an equal verdict. Returns `Err` if memory for its runs runs out.
    pub fn try_copy(&self, alloc: Global) -> Result<Verdict, OutOfMemory>
        ensures { IfOk result (λ copy. copy ≡ self.now) }
    {
        match self {
            Verdict::Unjudged(unjudged) => Ok(Verdict::Unjudged(*unjudged)),
            Verdict::Judged(judged) => Ok(Verdict::Judged(*judged)),
            Verdict::Runs(runs) => Ok(Verdict::Runs(runs.try_copy(alloc)?)),
        }
    }
}

impl Runs {
    /// Returns equal runs. Returns `Err` if memory runs out.
    pub fn try_copy(&self, alloc: Global) -> Result<Runs, OutOfMemory>
        ensures { IfOk result (λ copy. copy ≡ self.now) }
    {
        let mut list = Vec::new(alloc);
        list.extend_from_slice(self.list.as_slice())?;
        Ok(Runs {
            list: Items::from_vec(list),
        })
    }
}

impl Row {
    /// Returns an equal result. Returns `Err` if memory for its runs runs out.
    pub fn try_copy(&self, alloc: Global) -> Result<Row, OutOfMemory>
        ensures { IfOk result (λ copy. copy ≡ self.now) }
    {
        Ok(Row {
            key: self.key,
            verdict: self.verdict.try_copy(alloc)?,
        })
    }
}
