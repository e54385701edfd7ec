//! One call of each function, on known results and targets.

use super::compare::same;
use std::alloc::Global;
use timing_base::{Address, FlowKey, Items, Row, Run, RunVerdict, Runs, Target, Verdict, route};

const FLOW: FlowKey = FlowKey { file: 2, media: 1 };

#[test]
fn flows_are_dealt_out_in_order(rt: HostRuntime) {
    same(&rt, &route(FLOW, 3, 4), &3);
    same(&rt, &route(FLOW, 3, 1), &0);
    same(
        &rt,
        &route(
            FlowKey {
                file: 15,
                media: 63,
            },
            64,
            16,
        ),
        &15,
    );
}

#[test]
fn target_is_written_in_octets(rt: HostRuntime) {
    let target = Target {
        address: Address::new(239, 0, 0, 1),
        port: 50000,
    };
    let text = format!(in rt.alloc(); "{target}").expect(&rt, "there is memory");
    same(&rt, &text.as_str(), &"239.0.0.1:50000");
}

// A run without a whole frame.
fn run(rec: u64, expected: Option<u32>) -> Run {
    Run {
        rec,
        number: 8,
        expected,
        verdict: RunVerdict::NoWholeFrame { head: 1 },
    }
}

// Two runs without a whole frame, the second from record 3.
fn runs(alloc: Global) -> Result<Runs, std::alloc::AllocError> {
    let mut list = Vec::new(alloc);
    list.push(Run {
        rec: 1,
        number: 8,
        expected: None,
        verdict: RunVerdict::NoWholeFrame { head: 1 },
    })?;
    list.push(Run {
        rec: 3,
        number: 8,
        expected: Some(8),
        verdict: RunVerdict::NoWholeFrame { head: 1 },
    })?;
    Ok(Runs {
        list: Items::from_vec(list),
    })
}

#[test]
fn copied_row_has_the_same_runs(rt: HostRuntime) {
    let row = Row {
        key: FLOW,
        verdict: Verdict::Runs(runs(rt.alloc()).expect(&rt, "there is memory")),
    };
    let copy = row.try_copy(rt.alloc()).expect(&rt, "there is memory");
    same(&rt, &copy.key, &FLOW);
    match copy.verdict {
        Verdict::Runs(runs) => match runs.list.as_slice() {
            [first, second] => {
                same(&rt, first, &run(1, None));
                same(&rt, second, &run(3, Some(8)));
            }
            _ => assert!(rt; false, "not two runs"),
        },
        _ => assert!(rt; false, "no runs"),
    }
}
