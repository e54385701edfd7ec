//! The lines of a flow's stretches.

ghost use Rattle.std.specs.Prelude.{◌≡◌, ◌<◌, ◌≤◌, ◌++◌, [], IfOk, None, string_bytes};

use crate::form::LineForm;
use crate::stretch::Stretch;
use std::alloc::{AllocError as OutOfMemory, Global};

/// The lines of the stretches of a flow's judged runs. The caller may remove lines from the front of the text between
/// calls.
#[derive(Drop)]
pub struct WatchLines {
    /// The lines of complete stretches.
    pub text: String,
    /// The media of the flow, and how its lines are written.
    pub form: LineForm,
    /// The number of frames or fields in a complete stretch.
    pub every: u32,
    /// The frames or fields of the open run that have no line yet, or `None` if there are none.
    pub open: Option<Stretch>,
    ghost some: { 1 ≤ every },
}

impl WatchLines {
    ghost use Rattle.flow_watch.specs.making.Lines.{Adds, AddsEach, EndsOpen};

    /// Returns the lines before the first run: none. A stretch has `every` frames or fields.
    pub fn new(alloc: Global, form: LineForm, every: u32) -> WatchLines
        requires { 1 ≤ every }
        ensures text { string_bytes result.text ≡ [] }
        ensures form { result.form ≡ form }
        ensures every { result.every ≡ every }
        ensures none { result.open ≡ None }
    {
        WatchLines {
            text: String::new(alloc),
            form,
            every,
            open: None,
        }
    }

    /// Adds the next frame or field of a run, a stretch of its own, and the line of the open stretch if that is now
    /// complete. Returns `Err` if memory runs out.
    pub(crate) fn add(&mut self, group: Stretch) -> Result<(), OutOfMemory>
        ensures { IfOk result (λ _. Adds group self.old self.new) }
    {
        let stretch = match self.open {
            Some(so_far) => so_far.joined(group),
            None => group,
        };
        if stretch.groups() < u64::from(self.every) {
            self.open = Some(stretch);
            return Ok(());
        }
        self.open = None;
        self.form.add_stretch(&mut self.text, &stretch)
    }

    /// Adds these frames or fields of a run in turn, each a stretch of its own. Returns `Err` if memory runs out.
    pub(crate) fn add_each(&mut self, groups: &[Stretch]) -> Result<(), OutOfMemory>
        ensures { IfOk result (λ _. AddsEach groups.now self.old self.new) }
    {
        for group in groups {
            self.add(*group)?;
        }
        Ok(())
    }

    /// Adds the line of what is left of a stretch, if anything is: its run ends here, or the flow has a fault. Returns
    /// `Err` if memory runs out.
    pub fn end(&mut self) -> Result<(), OutOfMemory>
        ensures { IfOk result (λ _. EndsOpen self.old self.new) }
    {
        match self.open {
            None => Ok(()),
            Some(stretch) => {
                self.open = None;
                self.form.add_stretch(&mut self.text, &stretch)
            }
        }
    }
}
