//! The regions around the violations of the sender types.

ghost use Rattle.std.specs.Prelude.{◌≡◌, ◌≤◌, ◌<◌, ◌^◌, ◌++◌, ◌∷◌, [], ℕ, IfOk, List, length};
ghost use Rattle.timing_base.specs.Media.{IsMedia, Media};
ghost use Rattle.timing_base.specs.declared.media.Kind.{Kind as KindValue};
ghost use Rattle.timing_base.specs.declared.media.Kind.TheVariants.{N, NL, W};
ghost use Rattle.run_meter.specs.Levels.{IsLevel};
ghost use Rattle.run_meter.specs.Runs.{NameFirst, NamesFirst, is_broken};

use crate::Region;
use crate::drawing::region::RegionMeter;
use run_meter::Level;
use sender_params::Params;
use std::alloc::{AllocError as OutOfMemory, Global};
use timing_base::{Items, Judged, Kind, KindVerdict};

/// The meters of the packets around the first one that breaks each of N, NL and W.
#[derive(Drop)]
pub struct RegionMeters {
    narrow: RegionMeter,
    narrow_linear: RegionMeter,
    wide: RegionMeter,
}

impl RegionMeters {
    ghost use Rattle.flow_page.specs.drawing.Drawn.{AreRegions};
    ghost use Rattle.flow_page.specs.drawing.drawing.Regions.{DrawsRegions};

    /// Returns the meters before the first packet. Returns `Err` if memory runs out.
    pub fn new(alloc: Global, params: &Params) -> Result<RegionMeters, OutOfMemory>
        ensures { IfOk result (λ x. DrawsRegions params.now.media params.now.n x []) }
    {
        Ok(RegionMeters {
            narrow: RegionMeter::new(alloc, params, Kind::N)?,
            narrow_linear: RegionMeter::new(alloc, params, Kind::NL)?,
            wide: RegionMeter::new(alloc, params, Kind::W)?,
        })
    }

    /// Takes the levels just after the next packet.
    #[inline(always)]
    pub fn feed(&mut self, level: Level)
        ensures { (m : Media) (n : ℕ) (stamps : List ℕ) (at : ℕ) → length stamps < 2 ^ 41
            → DrawsRegions m n self.old stamps → IsLevel m n (stamps ++ at ∷ []) (length stamps) level
            → DrawsRegions m n self.new (stamps ++ at ∷ []) }
    {
        self.narrow.feed(level);
        self.narrow_linear.feed(level);
        self.wide.feed(level);
    }

    /// Returns the regions around the violations in `judged`, the verdicts on the first `packets` packets. Returns
    /// `Err` if memory runs out.
    pub fn finish(
        &self,
        alloc: Global,
        judged: &Judged,
        packets: u64,
    ) -> Result<Items<Region>, OutOfMemory>
        requires { packets ≤ 2 ^ 41 }
        ensures { IfOk result (λ regions. (m : Media) (n : ℕ) (stamps more : List ℕ)
            → IsMedia m → 1 ≤ n → length stamps ≡ packets → DrawsRegions m n self.now (stamps ++ more)
            → NameFirst m n stamps judged.now.kinds
            → AreRegions m n stamps 0 judged.now.kinds regions) }
    {
        let [narrow, narrow_linear, wide] = judged.kinds;
        let mut regions = Vec::new(alloc);
        put_region(alloc, &self.narrow, narrow, packets, &mut regions)?;
        put_region(
            alloc,
            &self.narrow_linear,
            narrow_linear,
            packets,
            &mut regions,
        )?;
        put_region(alloc, &self.wide, wide, packets, &mut regions)?;
        Ok(Items::from_vec(regions))
    }
}

ghost use Rattle.flow_page.specs.drawing.drawing.Regions.{DrawsRegion, PutsKind};

/// Appends the region of a sender type to those of the types before, if the type fails. Returns `Err` if memory runs
/// out.
fn put_region(
    alloc: Global,
    meter: &RegionMeter,
    verdict: KindVerdict,
    packets: u64,
    regions: &mut Vec<Region>,
) -> Result<(), OutOfMemory>
    requires { packets ≤ 2 ^ 41 }
    ensures { IfOk result (λ _. (m : Media) (n : ℕ) (kind : KindValue) (stamps more : List ℕ)
        → IsMedia m → 1 ≤ n → length stamps ≡ packets → DrawsRegion m n kind meter.now (stamps ++ more)
        → NamesFirst (is_broken m n stamps kind) (length stamps) verdict
        → PutsKind m n stamps kind verdict regions.old.items regions.new.items) }
{
    match verdict {
        KindVerdict::Pass => Ok(()),
        KindVerdict::Fail(proof) => {
            regions.push(meter.finish(alloc, proof, packets)?)?;
            Ok(())
        }
    }
}
