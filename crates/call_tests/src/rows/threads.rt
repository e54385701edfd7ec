//! Intakes and workers run concurrently.

use crate::call::{CHECK_TWO, Outcome, PASS, Row, SINKS, Step, UntoldSource, Watch, answered};
use std::process::Abort;
use std::sync::Wait;
use std::sync::atomic::{AtomicBool, Ordering};
use std::test::Fail;
use std::thread::Threads;
use timing_outside::{Gate, MemoryShelf, NoGate, OpenFault, Shelf};
use timing_report::Status;

// The number of times that a flag is read.
const LOOKS: u32 = 200_000_000;

// A gate at which the first intake and the first worker meet: each raises a flag, and waits for the flag of the other.
#[derive(Drop)]
struct Meeting {
    intake_came: AtomicBool,
    worker_came: AtomicBool,
    intake_saw: AtomicBool,
    worker_saw: AtomicBool,
}

fn no_meeting() -> Meeting {
    Meeting {
        intake_came: AtomicBool::new(false),
        worker_came: AtomicBool::new(false),
        intake_saw: AtomicBool::new(false),
        worker_saw: AtomicBool::new(false),
    }
}

// Whether the flag was seen raised.
fn sees(flag: &AtomicBool) -> bool {
    for _ in 0..LOOKS {
        if flag.load(Ordering::SeqCst) {
            return true;
        }
    }
    false
}

impl Gate for Meeting {
    fn meet<R: Wait>(&self, _rt: &R, who: u64) {
        if who == 0 {
            self.intake_came.store(true, Ordering::SeqCst);
            let saw = sees(&self.worker_came);
            self.intake_saw.store(saw, Ordering::SeqCst);
        }
        if who == 16 {
            self.worker_came.store(true, Ordering::SeqCst);
            let saw = sees(&self.intake_came);
            self.worker_saw.store(saw, Ordering::SeqCst);
        }
    }
}

// Runs a row at a gate of its own, at which both have to meet.
fn meets<R: Abort + AllocGlobal + Wait + Threads + Sync>(rt: &R, row: &Row) -> Result<(), Fail> {
    let (alloc, line) = (rt.alloc(), row.line);
    let wanted = row.wanted(alloc)?;
    let mut shelf = row.shelf(alloc)?;
    let gate = no_meeting();
    let found = answered(rt, line, SINKS, &mut shelf, &gate)?;
    found.is(line, (row.status, &wanted, row.err))?;
    assert!(rt; gate.intake_saw.load(Ordering::SeqCst), "{line}");
    assert!(rt; gate.worker_saw.load(Ordering::SeqCst), "{line}");
    Ok(())
}

// An intake and a worker each wait for the other: on one thread they would not meet.
const TWO_THREADS_AT_ONCE_CHECK: Row = Row {
    line: "check --workers 1 --sdp p.sdp a.pcap",
    ..PASS
};

const TWO_THREADS_AT_ONCE_SELF_TEST: Row = Row {
    line: "selftest 2 --workers 1",
    is_empty: true,
    out: &[
        "flaw 0: judged: 20 per frame, 2 frames, 40 packets, head 1, tail 0, class narrow, declared N; status 0\nflaw 1: judged: 20 per frame, 2 frames, 40 packets, head 1, tail 0, class wide, declared N; status 1\nflaw 2: judged: 20 per frame, 2 frames, 40 packets, head 1, tail 0, class narrow linear, declared N; status 1\nflaw 3: gaps 1, runs 2; status 4\nflaw 4: refused at record 40: FrameSize want 20 got 19; status 4\n",
    ],
    ..PASS
};

#[test]
fn two_threads_at_once(rt: HostRuntime) -> Result<(), Fail> {
    meets(&rt, &TWO_THREADS_AT_ONCE_CHECK)?;
    meets(&rt, &TWO_THREADS_AT_ONCE_SELF_TEST)
}

// The flags by which two intakes and a worker wait for each other: each raises one, and waits for another.
#[derive(Drop)]
struct Hall {
    a_began: AtomicBool,
    b_began: AtomicBool,
    a_goes_on: AtomicBool,
    worker_took: AtomicBool,
    a_saw_b: AtomicBool,
    b_saw_a: AtomicBool,
    a_saw_worker: AtomicBool,
    worker_saw_a: AtomicBool,
}

fn empty_hall() -> Hall {
    Hall {
        a_began: AtomicBool::new(false),
        b_began: AtomicBool::new(false),
        a_goes_on: AtomicBool::new(false),
        worker_took: AtomicBool::new(false),
        a_saw_b: AtomicBool::new(false),
        b_saw_a: AtomicBool::new(false),
        a_saw_worker: AtomicBool::new(false),
        worker_saw_a: AtomicBool::new(false),
    }
}

// Raises a flag, waits for another, and notes whether it was seen.
fn holds(raised: &AtomicBool, other: &AtomicBool, saw: &AtomicBool) {
    raised.store(true, Ordering::SeqCst);
    saw.store(sees(other), Ordering::SeqCst);
}

impl Gate for Hall {
    fn meet<R: Wait>(&self, _rt: &R, who: u64) {
        if who == 32 {
            holds(&self.worker_took, &self.a_goes_on, &self.worker_saw_a);
        }
    }
}

// The byte at which a read that begins before it ends; 256 packet records end before it.
const STOP: usize = 20_000;

// The file that a source is of.
#[derive(Clone, Copy)]
enum Name {
    A,
    B,
    Other,
}

// Holds each capture's source at its first byte, and that of the first capture also at `STOP`.
#[derive(Drop)]
struct Held<'a> {
    name: Name,
    hall: &'a Hall,
}

impl Held<'_> {
    // Holds the source if a read begins at such a byte.
    fn hold(&self, taken: usize) {
        let hall = self.hall;
        match self.name {
            Name::A if taken == 0 => holds(&hall.a_began, &hall.b_began, &hall.a_saw_b),
            Name::B if taken == 0 => holds(&hall.b_began, &hall.a_began, &hall.b_saw_a),
            Name::A if taken == STOP => {
                holds(&hall.a_goes_on, &hall.worker_took, &hall.a_saw_worker);
            }
            _ => {}
        }
    }
}

impl Watch for Held<'_> {
    fn before(&mut self, taken: usize, asked: usize) -> usize {
        self.hold(taken);
        if taken < STOP {
            asked.min(STOP - taken)
        } else {
            asked
        }
    }
}

// A shelf of such sources, which counts the fetches of each capture.
#[derive(Drop)]
struct HeldShelf<'a> {
    inner: MemoryShelf,
    hall: &'a Hall,
    a_fetched: u32,
    b_fetched: u32,
}

impl<'a> Shelf for HeldShelf<'a> {
    ghost use Rattle.std.specs.Prelude.{None};
    ghost use Rattle.timing_outside.specs.MemoryShelves.{count_of};

    type Source = UntoldSource<Held<'a>>;

    ghost text = { λ s n. None };

    ghost lacks = { λ s n. ⊥ };

    ghost faults = { λ s n. count_of s.inner n };

    fn fetch(&mut self, name: &str) -> Result<UntoldSource<Held<'a>>, OpenFault> {
        let inner = self.inner.fetch(name)?;
        let which = match name {
            "a.pcap" => Name::A,
            "b.pcap" => Name::B,
            _ => Name::Other,
        };
        match which {
            Name::A => self.a_fetched = self.a_fetched.saturating_add(1),
            Name::B => self.b_fetched = self.b_fetched.saturating_add(1),
            Name::Other => {}
        }
        let hall = self.hall;
        Ok(UntoldSource {
            inner,
            taken: 0,
            watch: Held { name: which, hall },
        })
    }

    fn give_back(&mut self, source: UntoldSource<Held<'a>>) {
        let UntoldSource { inner, .. } = source;
        self.inner.give_back(inner);
    }
}

// Two captures of 20 frames.
const LONG: Row = Row {
    line: CHECK_TWO,
    capture: &[Step::Frames(20)],
    second: &[Step::Frames(20)],
    ..PASS
};

// The output of a check of them on one thread.
fn printed<R: Abort + AllocGlobal + Wait + Threads + Sync>(rt: &R) -> Result<Outcome, Fail> {
    let mut shelf = LONG.shelf(rt.alloc())?;
    let found = answered(rt, CHECK_TWO, SINKS, &mut shelf, &NoGate)?;
    assert_eq!(rt; found.status, Status::Pass);
    Ok(found)
}

// A check with a worker has the same output, and fetches each capture once.
fn prints_in_hall<R: Abort + AllocGlobal + Wait + Threads + Sync>(
    rt: &R,
    hall: &Hall,
    wanted: &[u8],
) -> Result<(), Fail> {
    let line = "check --workers 1 --sdp p.sdp a.pcap b.pcap";
    let mut shelf = HeldShelf {
        inner: LONG.shelf(rt.alloc())?,
        hall,
        a_fetched: 0,
        b_fetched: 0,
    };
    let found = answered(rt, line, SINKS, &mut shelf, hall)?;
    let HeldShelf {
        a_fetched,
        b_fetched,
        ..
    } = shelf;
    found.is(line, (Status::Pass, wanted, ""))?;
    assert_eq!(rt; a_fetched, 1);
    assert_eq!(rt; b_fetched, 1);
    Ok(())
}

// Both captures are read at the same time, and the worker takes packets before the first capture is read whole. A run
// that read one capture after the other, or judged only after all were read, would not see the flags.
#[test]
fn captures_are_read_and_judged_at_once(rt: HostRuntime) -> Result<(), Fail> {
    let wanted = printed(&rt)?;
    let hall = empty_hall();
    prints_in_hall(&rt, &hall, wanted.out.bytes())?;
    assert!(rt; hall.a_saw_b.load(Ordering::SeqCst));
    assert!(rt; hall.b_saw_a.load(Ordering::SeqCst));
    assert!(rt; hall.a_saw_worker.load(Ordering::SeqCst));
    assert!(rt; hall.worker_saw_a.load(Ordering::SeqCst));
    Ok(())
}
