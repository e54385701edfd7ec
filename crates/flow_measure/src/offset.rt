//! The offset of an end of a window.

ghost use Rattle.std.specs.Prelude.{◌≡◌};
ghost use Rattle.flow_measure.specs.Told.{micros_of};

use offset_window::WindowEnd;

/// Returns the offset of an end of a window, in microseconds; `None` if the end is absent.
pub fn micros_of(end: WindowEnd) -> Option<u32>
    ensures { result ≡ micros_of end }
{
    match end {
        WindowEnd::Absent => None,
        WindowEnd::At { micros, .. } => Some(micros),
    }
}
