//! The trait of a meter of judged runs.

ghost use Rattle.std.specs.Prelude.{◌≡◌, ◌<◌, ◌^◌, ◌++◌, ◌∷◌, [], ℕ, ⊤, Bool, false, List, Option, None, Some, IfOk, length};
ghost use Rattle.timing_base.specs.Shifts.{Shift};
ghost use Rattle.sender_params.specs.Ticks.{NeverFall};
ghost use Rattle.timing_base.specs.Media.{Media as MediaValue};
ghost use Rattle.timing_base.specs.declared.packet.FlowPacket.{FlowPacket as PacketValue};
ghost use Rattle.run_meter.specs.Levels.{IsLevel};
ghost use Rattle.run_meter.specs.Runs.{AreWhole, IsHeadOf, IsJudgedOf, JudgedPart, OpenPart, RunOf, part_of, stamps_of, told_of};

use crate::level::Level;
use crate::run::{RunHead, RunPacket};
use sender_params::Params;
use std::alloc::{AllocError as OutOfMemory, Global};
use timing_base::Judged;

/// A meter of one judged run, which gets the run's packets one by one.
///
/// Packets fed since the last commit aren't judged yet. If the run ends there, they never are: the output depends only
/// on committed packets. A call returns `Err` if memory runs out; the state of the meter and of its output is then
/// unspecified. All calls on one meter must get the same `Params`.
pub trait RunMeter: Drop {
    /// Output that the meters of a flow's runs write, one after the other.
    type Out;

    /// Whether the meter needs the packets and their levels. If `false`, the caller doesn't feed it.
    const WANTS_LEVELS: bool;

    /// The value of `WANTS_LEVELS` for the clauses.
    ghost WANTS_LEVELS: { Bool };

    /// The meter belongs to run `r` of the video `m`: exactly the packets `fed` were fed, and `committed` is the
    /// committed part of them. `shift` is that of their capture timestamps.
    ghost stands: { Self → (m : MediaValue) → (shift : Shift) → RunOf → (fed committed : List PacketValue) → Type 0 };

    /// What the output held before, since its owner may take results out of it while the runs go on.
    ghost Past: { Type 0 } = { Unit {0} };

    /// The output contains the results of exactly these runs: the judged runs `over`, which have ended, and the open
    /// run if it has a complete frame or field.
    ghost tells: { Past → Self.Out → (m : MediaValue) → (shift : Shift) → List JudgedPart → Option OpenPart → Type 0 };

    /// Returns the meter of a run, before the run's first packet. The packets of the first frame or field, which is
    /// complete, are fed next. Returns `Err` if memory runs out.
    fn begin(
        alloc: Global,
        params: &Params,
        run: &RunHead,
        out: &Self::Out,
    ) -> Result<Self, OutOfMemory>
        ensures { IfOk result (λ meter. (shift : Shift) (r : RunOf) → IsHeadOf r run.now → r.n ≡ params.now.n
            → stands meter params.now.media shift r [] []) };

    /// Feeds the next packet with its level: the state of the models just after it. The results are right only if no
    /// capture timestamp is below the one before. Returns `Err` if memory runs out.
    fn feed(&mut self, params: &Params, packet: RunPacket, level: Level) -> Result<(), OutOfMemory>
        requires { packet.at < 2 ^ 62 }
        ensures { IfOk result (λ _. (shift : Shift) (r : RunOf) (fed committed : List PacketValue) (p : PacketValue)
            → r.n ≡ params.now.n → packet ≡ told_of shift p → length fed < 2 ^ 41
            → NeverFall (stamps_of shift (fed ++ p ∷ []))
            → IsLevel params.now.media r.n (stamps_of shift (fed ++ p ∷ [])) (length fed) level
            → stands self.old params.now.media shift r fed committed
            → stands self.new params.now.media shift r (fed ++ p ∷ []) committed) };

    /// Commits all packets fed so far, since the last one ended its frame or field. Returns `Err` if memory runs out.
    fn commit(&mut self, params: &Params, out: &mut Self::Out) -> Result<(), OutOfMemory>
        ensures stands { IfOk result (λ _. (shift : Shift) (r : RunOf) (fed committed : List PacketValue)
            → r.n ≡ params.now.n → AreWhole r.n fed
            → stands self.old params.now.media shift r fed committed
            → stands self.new params.now.media shift r fed fed) }
        ensures tells { IfOk result (λ _. (past : Past) (shift : Shift) (r : RunOf) (over : List JudgedPart)
            (fed committed : List PacketValue) → r.n ≡ params.now.n → AreWhole r.n fed
            → stands self.old params.now.media shift r fed committed
            → tells past out.old params.now.media shift over (Some (record { run = r; packets = committed }))
            → tells past out.new params.now.media shift over (Some (record { run = r; packets = fed }))) };

    /// Ends the run. `judged` is the result for the committed packets. Returns `Err` if memory runs out.
    fn close(self, params: &Params, judged: &Judged, out: &mut Self::Out) -> Result<(), OutOfMemory>
        ensures { IfOk result (λ _. (past : Past) (shift : Shift) (r : RunOf) (over : List JudgedPart)
            (fed committed : List PacketValue) → r.n ≡ params.now.n
            → IsJudgedOf params.now.media shift r committed judged.now
            → stands self params.now.media shift r fed committed
            → tells past out.old params.now.media shift over (Some (record { run = r; packets = committed }))
            → tells past out.new params.now.media shift (over ++ part_of r judged.now committed ∷ []) None) };

    /// A run that begins adds nothing to the output.
    ghost opens: { (past : Past) (out : Self.Out) (m : MediaValue) (shift : Shift) (over : List JudgedPart) (r : RunOf)
        → tells past out m shift over None → tells past out m shift over (Some (record { run = r; packets = [] })) };
}

/// A meter that does nothing, for a flow that is only judged.
impl RunMeter for () {
    type Out = ();

    const WANTS_LEVELS: bool = false;

    ghost WANTS_LEVELS = { false };

    ghost stands = { λ _ _ _ _ _ _. ⊤ };

    ghost tells = { λ _ _ _ _ _ _. ⊤ };

    #[inline(always)]
    fn begin(
        _alloc: Global,
        _params: &Params,
        _run: &RunHead,
        _out: &(),
    ) -> Result<(), OutOfMemory> {
        Ok(())
    }

    #[inline(always)]
    fn feed(
        &mut self,
        _params: &Params,
        _packet: RunPacket,
        _level: Level,
    ) -> Result<(), OutOfMemory> {
        Ok(())
    }

    #[inline(always)]
    fn commit(&mut self, _params: &Params, _out: &mut ()) -> Result<(), OutOfMemory> {
        Ok(())
    }

    #[inline(always)]
    fn close(self, _params: &Params, _judged: &Judged, _out: &mut ()) -> Result<(), OutOfMemory> {
        Ok(())
    }

    ghost opens = { λ _ _ _ _ _ _ _. tt };
}
