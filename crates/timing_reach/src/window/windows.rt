//! The lines that `window` prints.

ghost use Rattle.std.specs.Prelude.{◌≡◌, ◌++◌, IfOk, string_bytes};
ghost use Rattle.timing_report.specs.declared.status.Status.TheVariants as status;
ghost use Rattle.timing_reach.specs.Windows.{window_line, windows_text};

use offset_window::{Window, WindowEnd};
use std::alloc::{AllocError as OutOfMemory, Global};
use std::fmt;
use timing_base::Kind;
use timing_report::{Status, kind_name};
use timing_steps::Answer;

/// The offsets with which the receiver buffer would neither underflow nor overflow, for each sender type, in
/// microseconds.
#[derive(Clone, Copy)]
pub struct Windows {
    /// The window of type N.
    pub narrow: Window,
    /// The window of type NL.
    pub narrow_linear: Window,
    /// The window of type W.
    pub wide: Window,
}

/// The packet that binds an end, as a line has it.
#[derive(Clone, Copy)]
struct BindingWord {
    /// The packet, counted from 0.
    packet: Option<u64>,
}

impl fmt::Display for BindingWord {
    ghost use Rattle.std.specs.Prelude.{Some};
    ghost use Rattle.timing_reach.specs.Windows.{binding_text};

    ghost output = { λ word. Some (binding_text word.packet) };

    fn fmt<W: fmt::Write>(&self, f: &mut fmt::Formatter<W>) -> fmt::Result {
        match self.packet {
            None => Ok(()),
            Some(packet) => write!(f, " at packet {packet}"),
        }
    }
}

/// An end of a window, as a line has it.
#[derive(Clone, Copy)]
struct EndWord {
    end: WindowEnd,
}

impl fmt::Display for EndWord {
    ghost use Rattle.std.specs.Prelude.{Some};
    ghost use Rattle.timing_reach.specs.Windows.{end_text};

    ghost output = { λ word. Some (end_text word.end) };

    fn fmt<W: fmt::Write>(&self, f: &mut fmt::Formatter<W>) -> fmt::Result {
        match self.end {
            WindowEnd::Absent => write!(f, "none"),
            WindowEnd::At { micros, binding } => {
                let word = BindingWord { packet: binding };
                write!(f, "{micros}{word}")
            }
        }
    }
}

/// Adds the line of a sender type.
fn add_line(text: &mut String, kind: Kind, window: Window) -> Result<(), OutOfMemory>
    ensures { IfOk result (λ _. string_bytes text.new
        ≡ string_bytes text.old ++ window_line kind window) }
{
    let name = kind_name(kind);
    let lower = EndWord { end: window.lower };
    let upper = EndWord { end: window.upper };
    writeln!(text, "{name} lower {lower}, upper {upper}")
}

/// Returns the answer with the lines of the three types, and status 0. Returns `Err` if memory runs out.
pub fn windowed(alloc: Global, windows: &Windows) -> Result<Answer, OutOfMemory>
    ensures { IfOk result (λ answer. answer
        ≡ record { text = windows_text windows.now; status = status.Pass }) }
{
    let mut text = String::new(alloc);
    add_line(&mut text, Kind::N, windows.narrow)?;
    add_line(&mut text, Kind::NL, windows.narrow_linear)?;
    add_line(&mut text, Kind::W, windows.wide)?;
    Ok(Answer {
        text: text.into_bytes(),
        status: Status::Pass,
    })
}
