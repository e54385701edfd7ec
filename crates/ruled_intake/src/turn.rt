//! Files that are read ahead of their turn.

use crossbeam_utils::sync::EventCount;
use std::sync::Wait;
use std::sync::atomic::{AtomicBool, Ordering};

/// Turn of one file among files that are judged in their order. It guarantees nothing: only waiting depends on it.
#[derive(Drop)]
pub struct Turn {
    /// Whether the file is being read.
    reading: AtomicBool,
    /// Event on which threads sleep that wait for the file's end.
    ended: EventCount,
}

/// Guard of a file that is being read. When it is dropped, the file has ended.
pub struct Reading<'a> {
    turn: &'a Turn,
}

impl Turn {
    /// Returns the turn of a file that isn't read yet.
    pub fn new() -> Turn {
        Turn {
            reading: AtomicBool::new(false),
            ended: EventCount::new(),
        }
    }

    /// Notes that the file is being read from now on.
    pub fn begin(&self) -> Reading<'_> {
        self.reading.store(true, Ordering::SeqCst);
        Reading { turn: self }
    }

    /// Sleeps while the file is being read. If reading hasn't begun, the call returns at once: the thread that is to
    /// read the file may be the caller's.
    pub fn wait_for_end<R: Wait>(&self, rt: &R) {
        for _ in rt.forever() {
            if !self.reading.load(Ordering::SeqCst) {
                break;
            }
            let sleep = self.ended.prepare_wait();
            // The file may have ended before this thread announced its sleep: then nothing would wake it.
            if !self.reading.load(Ordering::SeqCst) {
                break;
            }
            sleep.wait(rt);
        }
    }
}

impl Drop for Reading<'_> {
    fn drop(self) {
        let Self { turn } = self;
        turn.reading.store(false, Ordering::SeqCst);
        turn.ended.notify_all();
    }
}
