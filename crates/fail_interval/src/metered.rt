//! The judge of a flow, together with the output of the meters of its runs.

ghost use Rattle.std.specs.Prelude.{◌≡◌, ◌≤◌, [], ℕ, List, IfOk, None, true};
ghost use Rattle.timing_base.specs.Shifts.{FlowOptions as FlowOptionsValue};
ghost use Rattle.timing_base.specs.Media.{Media as MediaValue};
ghost use Rattle.timing_base.specs.declared.key.FlowKey.{FlowKey as KeyValue};
ghost use Rattle.timing_base.specs.declared.packet.FlowPacket.{FlowPacket as PacketValue};
ghost use Rattle.fail_interval.specs.Row.{row};

use crate::judge::FlowJudge;
use flow_demux::FlowTaker;
use run_meter::RunMeter;
use std::alloc::{AllocError as OutOfMemory, Global};
use timing_base::{FlowKey, FlowOptions, FlowPacket, Media, Row, Rtp};

/// The judge of a flow, and the output of the meters of the flow's runs.
#[derive(Drop)]
pub struct Metered<M: Drop, O: Drop> {
    /// Judge of the flow.
    pub judge: FlowJudge<M>,
    /// Output of the meters.
    pub out: O,
}

impl<M: RunMeter<Out = O>, O: Drop> Metered<M, O> {
    ghost use Rattle.fail_interval.specs.Measured.{TellsOfAll};
    ghost use Rattle.fail_interval.specs.Meterings.{IsFed};
    ghost use Rattle.fail_interval.specs.Stands.{StandsFor, count_fed};

    /// Returns the judge of the flow with this key, this media and these options, before the first packet. `out` must
    /// not contain any result yet. The shift changes the capture timestamps of judged packets, but not those in a
    /// reported fault.
    pub fn new(
        alloc: Global,
        media: &Media,
        key: FlowKey,
        options: FlowOptions,
        out: O,
    ) -> Metered<M, O>
        ensures fed { (past : M.Past) → M.tells past out media.now options.shift [] None
            → IsFed M.WANTS_LEVELS M.stands M.tells past media.now key options result [] }
        ensures none { count_fed result.judge ≡ 0 }
        ensures stands { StandsFor media.now key options result.judge [] }
        ensures out { result.out ≡ out }
    {
        Metered {
            judge: FlowJudge::new(alloc, media, key, options),
            out,
        }
    }

    /// Ends the flow, and returns its result and the output of its meters. Returns `Err` if memory runs out.
    pub fn finish(self) -> Result<(Row, O), OutOfMemory>
        ensures row { IfOk result (λ told. (media : MediaValue) (key : KeyValue) (options : FlowOptionsValue)
            (packets : List PacketValue) → StandsFor media key options self.judge packets
            → told.0 ≡ row packets key media options) }
        ensures tells { M.WANTS_LEVELS ≡ true → IfOk result (λ told. (past : M.Past) (media : MediaValue)
            (key : KeyValue) (options : FlowOptionsValue) (packets : List PacketValue)
            → IsFed M.WANTS_LEVELS M.stands M.tells past media key options self packets
            → TellsOfAll M.tells past media options packets told.1) }
    {
        let Metered { judge, mut out } = self;
        let row = judge.finish(&mut out)?;
        Ok((row, out))
    }
}

impl<M: RunMeter<Out = O>, O: Drop> FlowTaker for Metered<M, O> {
    ghost use Rattle.fail_interval.specs.Meterings.{Feeds, HasRoom, expected_next, feeds_more, feeds_none, feeds_other, room_less};

    ghost takes = { λ m old new items. Feeds M.WANTS_LEVELS M.stands M.tells m old new items };

    ghost room = { HasRoom };

    ghost expects = { expected_next };

    ghost none = { λ m x. feeds_none M.WANTS_LEVELS M.stands M.tells m x };

    ghost other = { λ m x r is. feeds_other M.WANTS_LEVELS M.stands M.tells m x r is };

    ghost more = { λ m x y z a b first second.
        feeds_more M.WANTS_LEVELS M.stands M.tells m x y z a b first second };

    ghost less = { room_less };

    #[inline(always)]
    fn expected(&self) -> Option<Rtp> {
        self.judge.expected()
    }

    #[inline(always)]
    fn take_next(&mut self, packet: &FlowPacket, _frame: &[u8]) -> Result<bool, OutOfMemory> {
        self.judge.feed_judged(packet.rec, packet.at)
    }

    #[inline(always)]
    fn take(&mut self, packet: &FlowPacket, _frame: &[u8]) -> Result<(), OutOfMemory> {
        self.judge
            .feed(packet.rec, packet.at, packet.rtp, &mut self.out)
    }
}
