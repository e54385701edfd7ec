//! The data that the intakes and the workers of a run share.

use ruled_intake::{Lane, Reading, Turn};
use timing_base::{FlowOptions, Media};

/// Setting of a run: what is asked of it, and its lanes. In `specs/` it is a `Setting`, in which the number of workers
/// is the number of lanes.
#[derive(Clone, Copy)]
pub struct RunSetting<'a> {
    /// Media of the session.
    pub media: &'a [Media],
    /// Lane of each worker.
    pub lanes: &'a [Lane],
    /// Number of files.
    pub files: u32,
    /// Whether the files are judged as one.
    pub joined: bool,
    /// How the packets of the flows are timed and numbered.
    pub options: FlowOptions,
    /// Turn of each file. If a file has none, no intake waits for the end of the file before.
    pub turns: &'a [Turn],
}

impl<'a> RunSetting<'a> {
    /// Begins the turn of a file, if it has one. The file is being read until the result is dropped.
    pub fn begin_turn(&self, file: u32) -> Option<Reading<'a>> {
        let turn = self.turns.get(file as usize)?;
        Some(turn.begin())
    }

    /// Returns the turn of the file that is judged before this one, if the files are joined.
    pub(crate) fn turn_before(&self, file: u32) -> Option<&'a Turn> {
        if !self.joined || file == 0 {
            return None;
        }
        self.turns.get(file as usize - 1)
    }
}
