//! The lines that `shape` prints.

ghost use Rattle.std.specs.Prelude.{◌≡◌, ◌++◌, IfOk, string_bytes};
ghost use Rattle.timing_reach.specs.Shapes.{delays_line, not_shaped, packet_line, delayed_line};

use flow_shaper::Bound;
use std::alloc::{AllocError as OutOfMemory, Global};
use std::fmt;
use timing_report::Status;
use timing_steps::Answer;

/// The limit that holds a packet back, as a line has it.
#[derive(Clone, Copy)]
struct BoundWord {
    bound: Bound,
}

impl fmt::Display for BoundWord {
    ghost use Rattle.std.specs.Prelude.{Some};
    ghost use Rattle.timing_reach.specs.Shapes.{bound_text};

    ghost output = { λ word. Some (bound_text word.bound) };

    fn fmt<W: fmt::Write>(&self, f: &mut fmt::Formatter<W>) -> fmt::Result {
        match self.bound {
            Bound::Arrival => write!(f, "nothing"),
            Bound::Bucket { from } => write!(f, "bucket from {from}"),
            Bound::Buffer { read } => write!(f, "read {read}"),
            Bound::Order => write!(f, "order"),
        }
    }
}

/// Adds the line of a delayed packet. The delay is in nanoseconds.
#[cold]
#[inline(never)]
fn add_delayed(lines: &mut String, packet: u64, delay: u64, bound: Bound) -> Result<(), OutOfMemory>
    ensures { IfOk result (λ _. string_bytes lines.new
        ≡ string_bytes lines.old ++ delayed_line packet delay bound) }
{
    let word = BoundWord { bound };
    writeln!(lines, "packet {packet} delayed {delay} ns by {word}")
}

/// Adds the line of a packet, if something holds it back. The packet counts from 0, and the delay is in nanoseconds.
#[inline(always)]
pub fn add_packet(
    lines: &mut String,
    packet: u64,
    delay: u64,
    bound: Bound,
) -> Result<(), OutOfMemory>
    ensures { IfOk result (λ _. string_bytes lines.new
        ≡ string_bytes lines.old ++ packet_line packet delay bound) }
{
    match bound {
        Bound::Arrival => Ok(()),
        _ => add_delayed(lines, packet, delay, bound),
    }
}

/// Adds the line for all packets: the number of delayed packets, the number of packets, and the greatest delay in
/// nanoseconds.
pub fn add_delays(
    lines: &mut String,
    delayed: u64,
    packets: u64,
    most: u64,
) -> Result<(), OutOfMemory>
    ensures { IfOk result (λ _. string_bytes lines.new
        ≡ string_bytes lines.old ++ delays_line delayed packets most) }
{
    writeln!(lines, "delayed {delayed} of {packets}, greatest {most} ns")
}

/// Returns the answer for a flow in which this packet, counted from 0, can't leave in time.
pub fn not_shaped(alloc: Global, packet: u64) -> Result<Answer, OutOfMemory>
    ensures { IfOk result (λ answer. answer ≡ not_shaped packet) }
{
    Ok(Answer {
        text: format!(in alloc; "not shaped: packet {packet}\n")?.into_bytes(),
        status: Status::NotAllJudged,
    })
}
