//! Reads a flow once: it is measured while it is judged.

ghost use Rattle.std.specs.Prelude.{◌≡◌, ◌<◌, ◌≤◌, ◌^◌, [], ℕ, List, IfOk, Some};
ghost use Rattle.timing_base.specs.Shifts.{FlowOptions as FlowOptionsValue};
ghost use Rattle.timing_base.specs.Media.{Media as MediaValue};
ghost use Rattle.timing_base.specs.declared.key.FlowKey.{FlowKey as KeyValue};
ghost use Rattle.timing_base.specs.declared.packet.FlowPacket.{FlowPacket as PacketValue};

use crate::window::gauge::Gauge;
use crate::window::windows::Windows;
use fail_interval::Metered;
use flow_demux::FlowTaker;
use std::alloc::{AllocError as OutOfMemory, Global};
use timing_base::{FlowKey, FlowOptions, FlowPacket, Media, Rtp, Verdict};

/// The result of reading a flow: the verdict on it, and the windows of its judged packets if it is judged in one run.
#[derive(Drop)]
pub struct Measured {
    /// The verdict on the flow.
    pub verdict: Verdict,
    /// The windows of the judged packets, in microseconds; present if the flow is judged in one run.
    pub windows: Option<Windows>,
}

/// The judge of a flow, and its gauge.
#[derive(Drop)]
pub struct Reading {
    judge: Metered<(), ()>,
    gauge: Gauge,
}

impl Reading {
    ghost use Rattle.timing_reach.specs.window.Readings.{HasRoom, IsMeasured, IsReading};

    /// Returns a reading of the flow of this media before the first packet record, with the options of the flow.
    pub fn new(alloc: Global, media: &Media, number: u32, options: FlowOptions) -> Reading
        ensures room { HasRoom (2 ^ 40) result }
        ensures stands { IsReading media.now (record { file = 0; media = number }) options result [] }
    {
        let key = FlowKey {
            file: 0,
            media: number,
        };
        Reading {
            judge: Metered::new(alloc, media, key, options, ()),
            gauge: Gauge::new(alloc, media, options.shift),
        }
    }

    /// Returns the result if the flow ends here. Returns `Err` if memory runs out.
    pub fn finish(self) -> Result<Measured, OutOfMemory>
        ensures { IfOk result (λ measured. (m : MediaValue) (key : KeyValue) (options : FlowOptionsValue)
            (packets : List PacketValue) → IsReading m key options self packets
            → IsMeasured m options packets measured) }
    {
        let Reading { judge, gauge } = self;
        let (row, _) = judge.finish()?;
        Ok(Measured {
            verdict: row.verdict,
            windows: gauge.windows(),
        })
    }
}

impl FlowTaker for Reading {
    ghost use Rattle.fail_interval.specs.Meterings.{expected_next};
    ghost use Rattle.timing_reach.specs.window.Readings.{HasRoom, ReadsOn, reads_more, reads_none};
    ghost use Rattle.timing_reach.specs.window.Readings.{reads_other, room_less};

    ghost takes = { ReadsOn };

    ghost room = { HasRoom };

    ghost expects = { λ x. expected_next x.judge };

    ghost none = { reads_none };

    ghost other = { reads_other };

    ghost more = { reads_more };

    ghost less = { room_less };

    #[inline(always)]
    fn expected(&self) -> Option<Rtp> {
        self.judge.expected()
    }

    #[inline(always)]
    fn take_next(&mut self, packet: &FlowPacket, frame: &[u8]) -> Result<bool, OutOfMemory> {
        if !self.judge.take_next(packet, frame)? {
            return Ok(false);
        }
        self.gauge.pass(packet)?;
        Ok(true)
    }

    #[inline(always)]
    fn take(&mut self, packet: &FlowPacket, frame: &[u8]) -> Result<(), OutOfMemory> {
        self.judge.take(packet, frame)?;
        self.gauge.pass(packet)
    }
}
