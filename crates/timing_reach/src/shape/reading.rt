//! Reads a flow once: it is kept while it is judged.

ghost use Rattle.std.specs.Prelude.{◌≡◌, ◌<◌, ◌≤◌, ◌^◌, [], ℕ, Bool, List, IfOk};
ghost use Rattle.timing_base.specs.Shifts.{AreFlowOptions, FlowOptions as FlowOptionsValue};
ghost use Rattle.timing_base.specs.Captures.{Record};
ghost use Rattle.timing_base.specs.Media.{Media as MediaValue};
ghost use Rattle.timing_base.specs.declared.key.FlowKey.{FlowKey as KeyValue};

use crate::shape::kept::Kept;
use fail_interval::Metered;
use flow_demux::FlowTaker;
use std::alloc::{AllocError as OutOfMemory, Global};
use timing_base::{FlowKey, FlowOptions, FlowPacket, Media, Rtp, Verdict};

/// The result of reading a flow: the verdict on it, and its packets.
#[derive(Drop)]
pub struct KeptFlow {
    /// The verdict on the flow.
    pub verdict: Verdict,
    /// The packets of the flow.
    pub packets: Kept,
}

/// The judge of a flow, and the packets that are kept.
#[derive(Drop)]
pub struct Reading {
    judge: Metered<(), ()>,
    packets: Kept,
}

impl Reading {
    ghost use Rattle.timing_reach.specs.shape.Readings.{HasRoom, IsKeptFlow, IsReading, count_read};

    /// Returns a reading of the flow of this media before the first packet record, with the options of the flow, for a
    /// list or for a capture. Returns `Err` if memory runs out.
    pub fn new(
        alloc: Global,
        media: &Media,
        number: u32,
        options: FlowOptions,
        list: bool,
    ) -> Result<Reading, OutOfMemory>
        ensures room { IfOk result (λ reading. HasRoom (2 ^ 40) reading) }
        ensures stands { IfOk result (λ reading.
            IsReading media.now (record { file = 0; media = number }) options list reading []) }
    {
        let key = FlowKey {
            file: 0,
            media: number,
        };
        Ok(Reading {
            judge: Metered::new(alloc, media, key, options, ()),
            packets: Kept::new(alloc, list)?,
        })
    }

    /// Returns the result if the flow ends here. Returns `Err` if memory runs out.
    pub fn finish(self) -> Result<KeptFlow, OutOfMemory>
        requires { count_read self < 2 ^ 41 }
        ensures { IfOk result (λ kept. (m : MediaValue) (key : KeyValue) (options : FlowOptionsValue) (list : Bool)
            (items : List Record) → AreFlowOptions options → IsReading m key options list self items
            → IsKeptFlow m options list items kept) }
    {
        let Reading { judge, packets } = self;
        let (row, _) = judge.finish()?;
        Ok(KeptFlow {
            verdict: row.verdict,
            packets,
        })
    }
}

impl FlowTaker for Reading {
    ghost use Rattle.fail_interval.specs.Meterings.{expected_next};
    ghost use Rattle.timing_reach.specs.shape.Readings.{HasRoom, ReadsOn, reads_more, reads_none};
    ghost use Rattle.timing_reach.specs.shape.Readings.{reads_other, room_less};

    ghost takes = { ReadsOn };

    ghost room = { HasRoom };

    ghost expects = { λ x. expected_next x.judge };

    ghost none = { reads_none };

    ghost other = { reads_other };

    ghost more = { reads_more };

    ghost less = { room_less };

    #[inline(always)]
    fn expected(&self) -> Option<Rtp> {
        self.judge.expected()
    }

    #[inline(always)]
    fn take_next(&mut self, packet: &FlowPacket, frame: &[u8]) -> Result<bool, OutOfMemory> {
        if !self.judge.take_next(packet, frame)? {
            return Ok(false);
        }
        self.packets.keep(packet.at, frame)?;
        Ok(true)
    }

    #[inline(always)]
    fn take(&mut self, packet: &FlowPacket, frame: &[u8]) -> Result<(), OutOfMemory> {
        self.judge.take(packet, frame)?;
        self.packets.keep(packet.at, frame)
    }
}
