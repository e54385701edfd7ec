//! The rows of a judged run, written while the run is judged.

ghost use Rattle.std.specs.Prelude.{◌≡◌, IfOk, true};

use crate::rows::maker::{Kept, RowMaker};
use crate::rows::rows::Rows;
use run_meter::{Level, RunHead, RunMeter, RunPacket};
use sender_params::Params;
use std::alloc::{AllocError as OutOfMemory, Global};
use timing_base::Judged;

/// The greatest number of packets of a run.
const MOST: u64 = 1 << 41;

/// A meter of one judged run. It appends the run's rows to those of earlier runs, whenever a frame or field is judged.
#[derive(Drop)]
pub struct RowsMeter {
    /// The maker, as of the committed packets.
    pub maker: RowMaker,
    /// The packets that are fed and not yet committed.
    pub kept: Vec<Kept>,
}

impl RunMeter for RowsMeter {
    ghost use Rattle.flow_measure.specs.rows.Told.{PastRows, Tells, begins_open};
    ghost use Rattle.flow_measure.specs.rows.making.Meters.{StandsFor};

    type Out = Rows;

    const WANTS_LEVELS: bool = true;

    ghost WANTS_LEVELS = { true };

    ghost stands = { StandsFor };

    ghost Past = { PastRows };

    ghost tells = { Tells };

    fn begin(
        alloc: Global,
        params: &Params,
        run: &RunHead,
        _out: &Rows,
    ) -> Result<RowsMeter, OutOfMemory> {
        Ok(RowsMeter {
            maker: RowMaker::new(params, run.run),
            kept: Vec::new(alloc),
        })
    }

    #[inline(always)]
    fn feed(
        &mut self,
        _params: &Params,
        packet: RunPacket,
        level: Level,
    ) -> Result<(), OutOfMemory> {
        self.kept.push(Kept { packet, level })?;
        Ok(())
    }

    fn commit(&mut self, params: &Params, out: &mut Rows) -> Result<(), OutOfMemory> {
        put_rows(&mut self.maker, params, self.kept.as_slice(), out)?;
        self.kept.clear();
        Ok(())
    }

    fn close(self, _params: &Params, _judged: &Judged, _out: &mut Rows) -> Result<(), OutOfMemory> {
        Ok(())
    }

    ghost opens = { begins_open };
}

ghost use Rattle.flow_measure.specs.rows.making.Meters.{PutsRow, PutsRows};

/// Appends the rows of these packets to `to`. Returns `Err` if memory runs out.
fn put_rows(
    maker: &mut RowMaker,
    params: &Params,
    kept: &[Kept],
    to: &mut Rows,
) -> Result<(), OutOfMemory>
    ensures frames { IfOk result (λ _. to.new.frames ≡ to.old.frames) }
    ensures puts { IfOk result (λ _. PutsRows to.old.frames params.now.media params.now.n maker.old maker.new kept.now
        to.old.text.items to.new.text.items) }
{
    for one in kept {
        put_row(maker, params, *one, to)?;
    }
    Ok(())
}

/// Appends the row of the next packet to `to`. If `to` has a row per frame or field, appends that row instead, at its
/// last packet. Returns `Err` if memory runs out.
#[inline(always)]
fn put_row(
    maker: &mut RowMaker,
    params: &Params,
    kept: Kept,
    to: &mut Rows,
) -> Result<(), OutOfMemory>
    ensures frames { to.new.frames ≡ to.old.frames }
    ensures puts { IfOk result (λ _. PutsRow to.old.frames params.now.media params.now.n maker.old maker.new kept
        to.old.text.items to.new.text.items) }
{
    // No run has more packets.
    if maker.walk.seen == MOST {
        return Ok(());
    }
    let row = maker.packet_row(kept);
    let group = maker.feed(params, kept);
    if !to.frames {
        return to.text.extend_from_slice(to.row.of_packet(&row));
    }
    match group {
        Some(group) => to.text.extend_from_slice(to.row.of_group(&group)),
        None => Ok(()),
    }
}
