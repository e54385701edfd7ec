//! The first packet that passes a test.

ghost use Rattle.std.specs.Prelude.{◌≡◌, ◌<◌, ◌≤◌, ◌+◌, ◌^◌, ℕ, Bool};
ghost use Rattle.flow_measure.specs.First.{IsFirst};

/// Returns the first packet that passes a test, after `times` more packets from number `packet` on. `passes` is whether
/// these packets pass, all of them or none. `found` is the first packet before them that passes. Packets are counted
/// from 0.
pub fn first_with(found: Option<u64>, packet: u64, times: u64, passes: bool) -> Option<u64>
    requires { 1 ≤ times }
    ensures { (test : ℕ → Bool) → IsFirst test packet found
        → ((j : ℕ) → j < times → test (packet + j) ≡ passes) → IsFirst test (packet + times) result }
{
    if !passes {
        return found;
    }
    match found {
        None => Some(packet),
        Some(_) => found,
    }
}
