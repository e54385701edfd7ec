//! Limits and times of senders, with values worked by hand.

ghost use Rattle.std.specs.Prelude.{◌<◌, ◌^◌};

use super::compare::same;
use sender_params::worked::video;
use sender_params::{Params, sizes_of};
use timing_base::Kind;

// The capture timestamp of the first packet of the plain capture: 764,000 ns after 1,600,000,000 s.
const FIRST: u64 = 1_600_000_000_000_764_000;

// C_MAX and VRX_FULL of N, NL and W.
fn limits(params: &Params) -> [(u64, u64); 3] {
    [
        (params.c_max(Kind::N), params.vrx_full(Kind::N)),
        (params.c_max(Kind::NL), params.vrx_full(Kind::NL)),
        (params.c_max(Kind::W), params.vrx_full(Kind::W)),
    ]
}

// TR_OFFSET in nanoseconds, as numerator and denominator.
fn offset_of(params: &Params) -> (u128, u128)
    ensures num_small { result.0 < 2 ^ 94 }
    ensures den_small { result.1 < 2 ^ 48 }
{
    let sizes = sizes_of(params, true);
    (sizes.offset, sizes.den)
}

// T_RS in nanoseconds with gapped or linear reads, as numerator and denominator.
fn step_of(params: &Params, gapped: bool) -> (u128, u128)
    ensures num_small { result.0 < 2 ^ 51 }
    ensures den_small { result.1 < 2 ^ 48 }
{
    let sizes = sizes_of(params, gapped);
    (sizes.step, sizes.den)
}

#[test]
fn limits_at_5994(rt: HostRuntime) {
    let params = Params::of(&video(1080, false, 60_000, 1001), 4320);
    same(&rt, &limits(&params), &[(6, 9), (5, 9), (16, 863)]);
}

#[test]
fn limits_at_50(rt: HostRuntime) {
    let params = Params::of(&video(1080, false, 50, 1), 17_280);
    same(&rt, &limits(&params), &[(20, 32), (20, 32), (40, 2880)]);
}

#[test]
fn interlaced_limits(rt: HostRuntime) {
    let params = Params::of(&video(1080, true, 25, 1), 8640);
    same(&rt, &limits(&params), &[(10, 16), (10, 16), (20, 1440)]);
}

// TR_OFFSET is 746,666 2/3 ns.
#[test]
fn height_720(rt: HostRuntime) {
    let (num, den) = offset_of(&Params::of(&video(720, false, 50, 1), 20));
    same(&rt, &(num * 3), &(2_240_000 * den));
}

// TR_OFFSET is 1,664,000 ns, and 1,271,111 1/9 ns.
#[test]
fn interlaced_offsets(rt: HostRuntime) {
    let (num, den) = offset_of(&Params::of(&video(576, true, 25, 1), 20));
    same(&rt, &num, &(1_664_000 * den));
    let (num, den) = offset_of(&Params::of(&video(480, true, 30_000, 1001), 20));
    same(&rt, &(num * 9), &(11_440_000 * den));
}

// 1080p at 50 with 20 packets per frame, and a first packet at 764,000 ns of frame 80,000,000,000. T_RS is 960,000 ns
// with gapped and 1,000,000 ns with linear reads, TR_OFFSET 764,444 4/9 ns and T_DRAIN 909,090 10/11 ns.
#[test]
fn plain_narrow(rt: HostRuntime) {
    let params = Params::of(&video(1080, false, 50, 1), 20);
    let (num, den) = step_of(&params, true);
    same(&rt, &num, &(960_000 * den));
    let (num, den) = step_of(&params, false);
    same(&rt, &num, &(1_000_000 * den));
    let (num, den) = offset_of(&params);
    same(&rt, &(num * 9), &(6_880_000 * den));
    same(
        &rt,
        &(params.drain.num * 11),
        &(10_000_000 * params.drain.den),
    );
    let (num, den) = params.group();
    same(&rt, &num, &(20_000_000 * den));
    same(&rt, &params.n(), &20);
    same(&rt, &limits(&params), &[(4, 8), (4, 8), (16, 720)]);
    same(&rt, &params.anchor(FIRST), &80_000_000_000);
    same(&rt, &params.ticks(FIRST, FIRST + 3_840_000), &4);
}

// Gapped read 1 is due 1,724,444 4/9 ns after the start of the frame, before packet 1 at 1,764,000 ns; linear read 1 at
// 1,764,444 4/9 ns, after it.
#[test]
fn linear_sender(rt: HostRuntime) {
    let params = Params::of(&video(1080, false, 50, 1), 20);
    same(&rt, &params.anchor(FIRST), &80_000_000_000);
    let (offset, den) = offset_of(&params);
    let (step, parts) = step_of(&params, true);
    same(&rt, &step, &(960_000 * parts));
    same(&rt, &((offset + 960_000 * den) * 9), &(15_520_000 * den));
    assert!(rt; offset + 960_000 * den < 1_764_000 * den);
    let (step, parts) = step_of(&params, false);
    same(&rt, &step, &(1_000_000 * parts));
    same(&rt, &((offset + 1_000_000 * den) * 9), &(15_880_000 * den));
    assert!(rt; 1_764_000 * den < offset + 1_000_000 * den);
}
