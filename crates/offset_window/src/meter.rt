//! The window of a flow, packet by packet.

ghost use Rattle.std.specs.Prelude.{◌≡◌, ◌≤◌, ◌<◌, ◌+◌, ◌-◌, ◌^◌, ◌++◌, ◌∷◌, [], ℕ, ℤ, List, slice_index};
ghost use Rattle.std.specs.Prelude.{pos, negsuc, ◌≤ℤ◌, true};
ghost use Rattle.sender_params.specs.Limits.{gapped_of};
ghost use Rattle.sender_params.specs.Reads.{anchor_of};
ghost use Rattle.timing_base.specs.declared.media.Kind.{Kind};
ghost use Rattle.offset_window.specs.Moves.{IsLowerBy, IsUpperBy, MovesBy};
ghost use Rattle.offset_window.specs.Parts.{comes_after, comes_before};
ghost use Rattle.offset_window.specs.Quiets.{IsQuiet, early_of, late_of};

use crate::quiet::Quiet;
use crate::read::{MOST, Read};
use crate::window::{Window, WindowEnd};
use read_schedule::Grid;
use sender_params::Params;
use timing_base::Kind;

/// Window of the packets so far of one flow, for one sender type.
#[derive(Clone, Copy, Debug, PartialEq, Eq)]
pub struct WindowMeter {
    /// Sender type, which sets the schedule of the reads and VRX_FULL.
    pub kind: Kind,
    /// Number of packets fed.
    pub seen: u64,
    /// Reads of the flow's packets, with the offset 0. A packet must not come after its own read, nor before the read
    /// VRX_FULL packets earlier.
    grid: Grid,
    lower: WindowEnd,
    upper: WindowEnd,
    /// Next packets that move neither end.
    quiet: Quiet,
    ghost few: { seen ≤ 2 ^ 41 },
    ghost quiet_is: { seen < quiet.until → IsQuiet grid (late_of lower) (early_of upper) seen quiet },
}

impl WindowMeter {
    ghost use Rattle.sender_params.specs.declared.params.Params.{Params};
    ghost use Rattle.offset_window.specs.Stands.{StandsFor};
    ghost use Rattle.offset_window.specs.Window.{IsWindow};

    /// Returns the meter of a flow that is judged as one of this sender type, before the first packet. That packet
    /// belongs to frame or field `n0`, counted from the epoch.
    pub fn new(params: &Params, kind: Kind, n0: i128) -> WindowMeter
        requires low { negsuc 479 ≤ℤ n0 }
        requires high { n0 ≤ℤ pos (2 ^ 42) }
        ensures seen { result.seen ≡ 0 }
        ensures stands { StandsFor params.now kind n0 result [] }
    {
        WindowMeter {
            kind,
            seen: 0,
            grid: Grid::without_offset(params, is_gapped(kind), n0),
            lower: WindowEnd::At {
                micros: 0,
                binding: None,
            },
            upper: WindowEnd::At {
                micros: MOST,
                binding: None,
            },
            quiet: Quiet::over(),
        }
    }

    /// Puts in the packet that came at `at`, in nanoseconds of TAI. A packet and a read at the same instant both count
    /// (SMPTE ST 2110-21, virtual receiver buffer; this project's profile).
    ///
    /// The caller must pass the same `Params` as to `new`: for others the result is not guaranteed.
    #[inline(always)]
    pub fn feed(&mut self, params: &Params, at: u64)
        requires in_time { at < 2 ^ 62 }
        requires few { self.old.seen < 2 ^ 41 }

        ensures seen { self.new.seen ≡ self.old.seen + 1 }

        // The meter was then fed the packets before and this one.
        ensures stands { (kind : Kind) (anchor : ℤ) (stamps : List ℕ)
            → StandsFor params.now kind anchor self.old stamps
            → StandsFor params.now kind anchor self.new (stamps ++ at ∷ []) }
    {
        if self.quiet.has(self.seen, at) {
            self.seen += 1;
            self.quiet.go_on();
        } else {
            self.measure(params.vrx_full(self.kind), at);
        }
    }

    /// Returns the window of the packets fed, if the first of them belongs to the frame or field that was passed to
    /// `new`. For no packets it is all offsets.
    pub fn finish(&self) -> Window
        ensures { (params : Params) (kind : Kind) (stamps : List ℕ)
            → StandsFor params kind (anchor_of params.media (slice_index stamps 0)) self.now stamps
            → IsWindow params.media params.n stamps kind result }
    {
        Window {
            lower: self.lower,
            upper: self.upper,
        }
    }

    /// Puts in the packet that came at `at`, and determines which next packets move neither end. The buffer may hold
    /// `full` packets.
    #[cold]
    #[inline(never)]
    fn measure(&mut self, full: u64, at: u64)
        requires in_time { at < 2 ^ 62 }
        requires few { self.old.seen < 2 ^ 41 }
        ensures kind { self.new.kind ≡ self.old.kind }
        ensures grid { self.new.grid ≡ self.old.grid }
        ensures seen { self.new.seen ≡ self.old.seen + 1 }
        ensures back { self.new.seen < self.new.quiet.until → self.new.quiet.back ≡ full }
        ensures lower { let broken = comes_after self.old.grid self.old.seen at in
            MovesBy (IsLowerBy broken self.old.seen) broken self.old.lower self.new.lower }
        ensures room { self.old.seen < full → self.new.upper ≡ self.old.upper }
        ensures moves { full ≤ self.old.seen → let broken = comes_before self.old.grid (self.old.seen - full) at in
            MovesBy (IsUpperBy broken self.old.seen) broken self.old.upper self.new.upper }
    {
        let mut lower = self.lower;
        raise(&mut lower, &Read::of(self.grid, self.seen), self.seen, at);
        let mut upper = self.upper;
        fill(&mut upper, &self.grid, full, self.seen, at);
        let seen = self.seen + 1;
        let quiet = Quiet::after(&self.grid, late_of(&lower), early_of(&upper), full, seen);
        *self = WindowMeter {
            kind: self.kind,
            seen,
            grid: self.grid,
            lower,
            upper,
            quiet,
        };
    }
}

/// Moves the upper end down if the buffer, which may hold `full` packets, held more just after this packet, which came
/// at `at`.
fn fill(end: &mut WindowEnd, grid: &Grid, full: u64, packet: u64, at: u64)
    requires { at < 2 ^ 62 }
    ensures room { packet < full → end.new ≡ end.old }
    ensures moves { full ≤ packet → let broken = comes_before grid.now (packet - full) at in
        MovesBy (IsUpperBy broken packet) broken end.old end.new }
{
    if full <= packet {
        sink(end, &Read::of(*grid, packet - full), packet, at);
    }
}

/// Returns the offset, in microseconds, with which a packet must not come after its own read, if the lower end is to
/// stay.
fn late_of(end: &WindowEnd) -> u32
    ensures { result ≡ late_of end.now }
{
    match *end {
        WindowEnd::Absent => MOST,
        WindowEnd::At { micros, .. } => micros,
    }
}

/// Returns the offset, in microseconds, with which a packet must not come before the read that makes room for it, if
/// the upper end is to stay.
fn early_of(end: &WindowEnd) -> u32
    ensures { result ≡ early_of end.now }
{
    match *end {
        WindowEnd::Absent => 0,
        WindowEnd::At { micros, .. } => micros,
    }
}

/// Moves the lower end if this packet, which came at `at`, is late for its own read with it.
#[inline(always)]
fn raise(end: &mut WindowEnd, own: &Read, packet: u64, at: u64)
    requires { at < 2 ^ 62 }
    ensures { let broken = comes_after own.now.grid own.now.number at in
        MovesBy (IsLowerBy broken packet) broken end.old end.new }
{
    if let WindowEnd::At { micros, .. } = *end
        && own.is_before(micros, at)
    {
        *end = lower_end(own, packet, at);
    }
}

/// Moves the upper end if this packet, which came at `at`, comes with it before the read that makes room for it.
#[inline(always)]
fn sink(end: &mut WindowEnd, freeing: &Read, packet: u64, at: u64)
    requires { at < 2 ^ 62 }
    ensures { let broken = comes_before freeing.now.grid freeing.now.number at in
        MovesBy (IsUpperBy broken packet) broken end.old end.new }
{
    if let WindowEnd::At { micros, .. } = *end
        && freeing.is_after(micros, at)
    {
        *end = upper_end(freeing, micros, packet, at);
    }
}

/// Returns the lower end for one packet alone, which comes after its own read with the offset 0.
#[cold]
#[inline(never)]
fn lower_end(own: &Read, packet: u64, at: u64) -> WindowEnd
    requires in_time { at < 2 ^ 62 }
    requires late { comes_after own.now.grid own.now.number at 0 ≡ true }
    ensures { IsLowerBy (comes_after own.now.grid own.now.number at) packet result }
{
    match own.least_offset(at) {
        None => WindowEnd::Absent,
        Some(micros) => WindowEnd::At {
            micros,
            binding: Some(packet),
        },
    }
}

/// Returns the upper end for one packet alone, which with the offset `micros` comes before the read that makes room for
/// it.
#[cold]
#[inline(never)]
fn upper_end(freeing: &Read, micros: u32, packet: u64, at: u64) -> WindowEnd
    requires in_time { at < 2 ^ 62 }
    requires early { comes_before freeing.now.grid freeing.now.number at micros ≡ true }
    ensures { IsUpperBy (comes_before freeing.now.grid freeing.now.number at) packet result }
{
    match freeing.greatest_offset(micros, at) {
        None => WindowEnd::Absent,
        Some(micros) => WindowEnd::At {
            micros,
            binding: Some(packet),
        },
    }
}

/// Returns whether the reads of this sender type are gapped.
fn is_gapped(kind: Kind) -> bool
    ensures { result ≡ gapped_of kind }
{
    kind == Kind::N
}
