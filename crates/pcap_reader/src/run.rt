//! Packet records that are completely in the buffer, taken one after the other.

ghost use Rattle.std.specs.Prelude.{◌≡◌, ◌≤◌, ◌<◌, ◌+◌, ◌*◌, ◌^◌, ℕ, IfSome, length};
ghost use Rattle.pcap_reader.specs.Heads.{IsWhole};
ghost use Rattle.pcap_reader.specs.Runs.{TakesRun};

use crate::layout::{Fraction, Layout, Order};
use crate::stage::Head;
use crate::taker::Taker;

/// The size of a packet record's header, in bytes.
const RECORD_HEAD: usize = 16;

/// The size of the largest packet record with its header, in bytes.
const MOST_HELD: usize = 262_160;

/// Consecutive packet records that were taken.
#[derive(Clone, Copy, Debug)]
pub struct Run {
    /// The number of records.
    pub records: u64,
    /// Their size with their headers, in bytes.
    pub size: usize,
}

/// Returns the header of the packet record at the start of these bytes, if the record is complete
/// and has no fault. A fault is reported later, when the reader comes to it. The bytes are too few
/// for a record of more than 262,144 captured bytes.
#[inline(always)]
fn whole_head(layout: Layout, bytes: &[u8]) -> Option<Head>
    requires { length bytes.now ≤ 262160 }
    ensures { IfSome result (IsWhole layout bytes.now) }
{
    if bytes.len() < RECORD_HEAD {
        return None;
    }
    let head = layout.read_stamped(bytes)?;
    if bytes.len() - RECORD_HEAD < head.captured {
        return None;
    }
    Some(head)
}

/// Passes packet records of one layout to the taker, as [`take_run`] does. The bytes are too few
/// for a record of more than 262,144 captured bytes.
#[inline(always)]
fn take_laid_out<T: Taker>(
    layout: Layout,
    bytes: &[u8],
    before: u64,
    number: u64,
    taker: &mut T,
) -> Result<Run, T::Stop>
    requires before { before ≤ 2 ^ 41 }
    requires number { number ≤ 2 ^ 37 }
    requires short { length bytes.now ≤ 262160 }
    requires room { (count : ℕ) → 16 * count ≤ length bytes.now → T.room (before + number) count taker.old }
    ensures { TakesRun T.takes T.stops T.room layout bytes.now before number taker.old taker.new result }
{
    let mut run = Run {
        records: 0,
        size: 0,
    };
    while let Some(head) = whole_head(layout, &bytes[run.size..]) {
        let start = run.size + RECORD_HEAD;
        let end = start + head.captured;
        taker.take(before + number + run.records, head.at, &bytes[start..end])?;
        run.records += 1;
        run.size = end;
    }
    Ok(run)
}

/// Passes packet records to the taker, as [`take_run`] does, from at most 262,160 bytes.
#[inline(always)]
fn take_few<T: Taker>(
    layout: Layout,
    bytes: &[u8],
    before: u64,
    number: u64,
    taker: &mut T,
) -> Result<Run, T::Stop>
    requires before { before ≤ 2 ^ 41 }
    requires number { number ≤ 2 ^ 37 }
    requires short { length bytes.now ≤ 262160 }
    requires room { (count : ℕ) → 16 * count ≤ length bytes.now → T.room (before + number) count taker.old }
    ensures { TakesRun T.takes T.stops T.room layout bytes.now before number taker.old taker.new result }
{
    // The loop is compiled once for each layout, so that it needn't be checked for each record.
    match (layout.order, layout.fraction) {
        (Order::Little, Fraction::Micros) => {
            let layout = Layout {
                order: Order::Little,
                fraction: Fraction::Micros,
            };
            take_laid_out(layout, bytes, before, number, taker)
        }
        (Order::Little, Fraction::Nanos) => {
            let layout = Layout {
                order: Order::Little,
                fraction: Fraction::Nanos,
            };
            take_laid_out(layout, bytes, before, number, taker)
        }
        (Order::Big, Fraction::Micros) => {
            let layout = Layout {
                order: Order::Big,
                fraction: Fraction::Micros,
            };
            take_laid_out(layout, bytes, before, number, taker)
        }
        (Order::Big, Fraction::Nanos) => {
            let layout = Layout {
                order: Order::Big,
                fraction: Fraction::Nanos,
            };
            take_laid_out(layout, bytes, before, number, taker)
        }
    }
}

/// Passes the packet records at the start of the first 262,160 of these bytes to the taker, up to
/// the first that is incomplete or has a fault. The first record has this `number`, and `before` is
/// added to each number. Returns `Err` if the taker stops.
#[inline(always)]
pub fn take_run<T: Taker>(
    layout: Layout,
    bytes: &[u8],
    before: u64,
    number: u64,
    taker: &mut T,
) -> Result<Run, T::Stop>
    requires before { before ≤ 2 ^ 41 }
    requires number { number ≤ 2 ^ 37 }
    requires short { length bytes.now ≤ 2 ^ 40 }
    requires room { (count : ℕ) → 16 * count ≤ length bytes.now → T.room (before + number) count taker.old }
    ensures { TakesRun T.takes T.stops T.room layout bytes.now before number taker.old taker.new result }
{
    let few = bytes.len().min(MOST_HELD);
    take_few(layout, &bytes[..few], before, number, taker)
}
