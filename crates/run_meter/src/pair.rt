//! Two meters of the same run.

ghost use Rattle.std.specs.Prelude.{◌||◌};

use crate::level::Level;
use crate::meter::RunMeter;
use crate::run::{RunHead, RunPacket};
use sender_params::Params;
use std::alloc::{AllocError as OutOfMemory, Global};
use timing_base::Judged;

/// Two meters of one run, each with its own output.
#[derive(Drop)]
pub struct Pair<A: Drop, B: Drop> {
    /// Meter that is called first; its output is `out.0`.
    pub first: A,
    /// Meter that is called second, and not at all if a call of the first returns `Err`; its output is `out.1`.
    pub second: B,
}

impl<A: RunMeter, B: RunMeter> RunMeter for Pair<A, B> {
    /// Outputs of both meters.
    type Out = (A::Out, B::Out);

    const WANTS_LEVELS: bool = A::WANTS_LEVELS || B::WANTS_LEVELS;

    ghost WANTS_LEVELS = { A.WANTS_LEVELS || B.WANTS_LEVELS };

    ghost stands = { λ x m shift r fed committed.
        A.stands x.first m shift r fed committed × B.stands x.second m shift r fed committed };

    ghost Past = { A.Past × B.Past };

    ghost tells = { λ past out m shift over part.
        A.tells past.0 out.0 m shift over part × B.tells past.1 out.1 m shift over part };

    #[inline]
    fn begin(
        alloc: Global,
        params: &Params,
        run: &RunHead,
        out: &(A::Out, B::Out),
    ) -> Result<Pair<A, B>, OutOfMemory> {
        Ok(Pair {
            first: A::begin(alloc, params, run, &out.0)?,
            second: B::begin(alloc, params, run, &out.1)?,
        })
    }

    #[inline(always)]
    fn feed(
        &mut self,
        params: &Params,
        packet: RunPacket,
        level: Level,
    ) -> Result<(), OutOfMemory> {
        self.first.feed(params, packet, level)?;
        self.second.feed(params, packet, level)
    }

    #[inline]
    fn commit(&mut self, params: &Params, out: &mut (A::Out, B::Out)) -> Result<(), OutOfMemory> {
        self.first.commit(params, &mut out.0)?;
        self.second.commit(params, &mut out.1)
    }

    #[inline]
    fn close(
        self,
        params: &Params,
        judged: &Judged,
        out: &mut (A::Out, B::Out),
    ) -> Result<(), OutOfMemory> {
        let Pair { first, second } = self;
        first.close(params, judged, &mut out.0)?;
        second.close(params, judged, &mut out.1)
    }

    ghost opens = { λ past out m shift over r tells. (
      A.opens past.0 out.0 m shift over r tells.0,
      B.opens past.1 out.1 m shift over r tells.1,
    ) };
}
