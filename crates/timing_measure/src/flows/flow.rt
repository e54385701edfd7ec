//! Judges and measures the flow of one media.

ghost use Rattle.std.specs.Prelude.{◌≡◌, ◌≤◌, ◌+◌, ◌^◌, [], ℕ, List, IfOk, true};
ghost use Rattle.timing_base.specs.Shifts.{FlowOptions as FlowOptionsValue};
ghost use Rattle.timing_base.specs.Media.{Media as MediaValue};
ghost use Rattle.timing_base.specs.declared.packet.FlowPacket.{FlowPacket as PacketValue};

use crate::flows::source::source_with;
use fail_interval::Metered;
use flow_demux::FlowTaker;
use run_meter::RunMeter;
use std::alloc::{AllocError as OutOfMemory, Global};
use timing_base::{FlowKey, FlowOptions, FlowPacket, Media, Rtp, Verdict};

/// The result of a flow that has ended.
#[derive(Drop)]
pub struct FlowEnd<O: Drop> {
    /// The number of the media, counted from 0.
    pub media: u32,
    /// The number of its packets, judged or not.
    pub packets: u64,
    /// The SSRC of the first packet that was read as RTP.
    pub ssrc: Option<u32>,
    /// The verdict on the flow.
    pub verdict: Verdict,
    /// The output of the meters of its runs.
    pub out: O,
}

/// The taker of the packets of a flow: its judge with the meters of its runs.
#[derive(Drop)]
pub struct FlowMeter<M: Drop, O: Drop> {
    /// The judge, and the meters of the runs.
    pub metered: Metered<M, O>,
    /// The SSRC of the first packet that was read as RTP.
    pub source: Option<u32>,
}

impl<M: RunMeter<Out = O>, O: Drop> FlowMeter<M, O> {
    ghost use Rattle.timing_measure.specs.flows.Meters.{HasRoom, StandsFor};
    ghost use Rattle.timing_measure.specs.flows.Ends.{IsEndOf};

    /// Returns the taker of the flow of a media before the first packet, with an empty output.
    pub fn new(
        alloc: Global,
        media: &Media,
        number: u32,
        options: FlowOptions,
        out: O,
    ) -> FlowMeter<M, O>
        ensures room { HasRoom (2 ^ 41) result }
        ensures stands { (past : M.Past) → M.tells past out media.now options.shift [] None
            → StandsFor M.WANTS_LEVELS M.stands M.tells past media.now number options result [] }
    {
        let key = FlowKey {
            file: 0,
            media: number,
        };
        FlowMeter {
            metered: Metered::new(alloc, media, key, options, out),
            source: None,
        }
    }

    /// Returns the result of the flow if it ends here. Returns `Err` if memory runs out.
    pub fn finish(self) -> Result<FlowEnd<O>, OutOfMemory>
        ensures { M.WANTS_LEVELS ≡ true → IfOk result (λ end. (past : M.Past) (m : MediaValue) (number : ℕ)
            (options : FlowOptionsValue) (packets : List PacketValue)
            → StandsFor M.WANTS_LEVELS M.stands M.tells past m number options self packets
            → IsEndOf M.tells past m number options packets end) }
    {
        let FlowMeter { metered, source } = self;
        let packets = metered.judge.fed();
        let (row, out) = metered.finish()?;
        Ok(FlowEnd {
            media: row.key.media,
            packets,
            ssrc: source,
            verdict: row.verdict,
            out,
        })
    }
}

impl<M: RunMeter<Out = O>, O: Drop> FlowTaker for FlowMeter<M, O> {
    ghost use Rattle.timing_measure.specs.flows.Meters.{HasRoom, TakesOn, expected_next, room_less};
    ghost use Rattle.timing_measure.specs.flows.Meters.{takes_more, takes_none, takes_other};

    ghost takes = { λ m old new items. TakesOn M.WANTS_LEVELS M.stands M.tells m old new items };

    ghost room = { HasRoom };

    ghost expects = { expected_next };

    ghost none = { λ m x. takes_none M.WANTS_LEVELS M.stands M.tells m x };

    ghost other = { λ m x r is. takes_other M.WANTS_LEVELS M.stands M.tells m x r is };

    ghost more = { λ m x y z a b first second.
        takes_more M.WANTS_LEVELS M.stands M.tells m x y z a b first second };

    ghost less = { room_less };

    #[inline(always)]
    fn expected(&self) -> Option<Rtp> {
        self.metered.expected()
    }

    #[inline(always)]
    fn take_next(&mut self, packet: &FlowPacket, frame: &[u8]) -> Result<bool, OutOfMemory> {
        if !self.metered.take_next(packet, frame)? {
            return Ok(false);
        }
        self.source = source_with(self.source, packet);
        Ok(true)
    }

    #[inline(always)]
    fn take(&mut self, packet: &FlowPacket, frame: &[u8]) -> Result<(), OutOfMemory> {
        self.source = source_with(self.source, packet);
        self.metered.take(packet, frame)
    }
}
