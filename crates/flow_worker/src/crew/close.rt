//! The ends of lanes.

ghost use Rattle.std.specs.Prelude.{map};
ghost use Rattle.flow_worker.specs.crew.Closing.{AreClosed, CanClose};

use ruled_intake::{Lane, SendPass, TakePass};
use std::sync::Wait;

/// Ends the lanes, with the passes of their senders and their takers. For each sender, what was taken is a prefix of
/// what it sent. The call may wait, though no thread has a lane any more.
pub fn close_all<R: Wait>(
    rt: &R,
    lanes: Vec<Lane>,
    senders: Vec<Vec<SendPass>>,
    takers: Vec<TakePass>,
)
    requires { CanClose lanes.items (map (λ c. c.items) senders.items) takers.items }
    ensures { AreClosed (map (λ c. c.items) senders.items) takers.items }
{
    let mut senders = senders.into_iter();
    let mut takers = takers.into_iter();
    for lane in lanes {
        let Some(passes) = senders.next() else {
            unreachable!()
        };
        let Some(taker) = takers.next() else {
            unreachable!()
        };
        lane.close(rt, passes, taker);
    }
}
