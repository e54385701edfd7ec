//! What to do about a finding.

ghost use Rattle.std.specs.Prelude.{◌≡◌, ◌++◌, IfOk, Some, string_bytes};
ghost use Rattle.findings_report.specs.Text.{advice, advice_line, burst_advice, fault_advice, pacing_advice, phase_advice, refusal_advice};

use crate::setting::{Setting, group_of};
use flow_findings::{Finding, Refusal};
use std::alloc::{AllocError as OutOfMemory, Global};
use timing_base::PacketFault;

/// Returns what to do about the fault of a packet.
fn fault_advice(fault: PacketFault) -> &'static str
    ensures { result.now ≡ fault_advice fault }
{
    match fault {
        PacketFault::Short => "capture more bytes of each packet, at least 96.",
        PacketFault::Version => "look at the port: these packets aren't RTP.",
        PacketFault::PayloadType => "correct the payload type in the description.",
        PacketFault::SecondSource => {
            "look for two senders, or for one that was restarted: the command scan lists their streams."
        }
        PacketFault::Number { .. } => "look for what loses packets or brings them out of order.",
        PacketFault::StampBack { .. } => {
            "look at the order of the files, and for two capturing cards or a bonded pair."
        }
        PacketFault::NoMarker => "correct the sender's packetizer.",
        PacketFault::SameStamp => "correct the sender's packetizer.",
        PacketFault::FrameSize { .. } => "correct the sender's packetizer.",
        PacketFault::FrameTooLarge => "correct the sender's packetizer.",
    }
}

/// Returns what to do about a flow that is refused.
fn refusal_advice(cause: Refusal) -> &'static str
    ensures { result.now ≡ refusal_advice cause }
{
    match cause {
        Refusal::Fault(fault) => fault_advice(fault),
        Refusal::Gap { .. } => "look for what loses packets or brings them out of order.",
    }
}

/// Returns what to do about a phase. If it isn't the first finding, the findings above it come first.
fn phase_advice(is_first: bool) -> &'static str
    ensures { result.now ≡ phase_advice is_first }
{
    if is_first {
        "align the sender to the epoch or declare its TROFF, or give --delay for a known delay of the capture."
    } else {
        "see the findings above first; else align the sender to the epoch or declare its TROFF, or give --delay for a known delay of the capture."
    }
}

/// Returns what to do about a burst. Returns `Err` if memory runs out.
fn burst_advice(alloc: Global, setting: Setting) -> Result<String, OutOfMemory>
    ensures { IfOk result (λ s. string_bytes s ≡ burst_advice setting) }
{
    let group = group_of(setting);
    format!(in alloc;
        "space the packets of a {group} evenly. If the capturing host makes the timestamps in software, capture with the network card's first."
    )
}

/// Returns what to do about pacing. Returns `Err` if memory runs out.
fn pacing_advice(alloc: Global, setting: Setting) -> Result<String, OutOfMemory>
    ensures { IfOk result (λ s. string_bytes s ≡ pacing_advice setting) }
{
    let group = group_of(setting);
    format!(in alloc;
        "space the packets of a {group} evenly, and see whether they drift through the capture."
    )
}

/// Adds the line with what to do.
fn add_line(text: &mut String, what: &str) -> Result<(), OutOfMemory>
    ensures { IfOk result (λ _. string_bytes text.new
        ≡ string_bytes text.old ++ advice_line (Some what.now)) }
{
    writeln!(text, "  do: {what}")
}

/// Adds the line with what to do about a finding; none about a pass. `is_first` is whether it is the headline. Returns
/// `Err` if memory runs out.
pub(crate) fn add_advice(
    text: &mut String,
    alloc: Global,
    setting: Setting,
    is_first: bool,
    finding: &Finding,
) -> Result<(), OutOfMemory>
    ensures { IfOk result (λ _. string_bytes text.new
        ≡ string_bytes text.old ++ advice_line (advice setting is_first finding.now)) }
{
    match finding {
        Finding::Elsewhere { .. } => {
            add_line(
                text,
                "correct the description, or the destination of the sender.",
            )
        }
        Finding::Absent { .. } => add_line(
            text,
            "capture the right port or VLAN, and join the group. IPv6 and double VLAN tags aren't read.",
        ),
        Finding::Refused { cause, .. } => add_line(text, refusal_advice(*cause)),
        Finding::Unmarked { .. } => add_line(
            text,
            "capture for longer. If that doesn't help, the sender sets no marker.",
        ),
        Finding::Wrap { .. } => add_line(
            text,
            "add --seq16: the sender leaves the extended sequence number 0.",
        ),
        Finding::Loss { .. } => add_line(
            text,
            "look for drops: of the capture (the last lines of tcpdump), on the path, and of the socket buffer.",
        ),
        Finding::Order { .. } => add_line(
            text,
            "look for a bonded pair, a mirror of both directions, two senders with one SSRC, or a restart.",
        ),
        Finding::Rate { .. } => add_line(
            text,
            "correct exactframerate in the description, or the sender's clock.",
        ),
        Finding::Utc { .. } => add_line(text, "add --tai 37."),
        Finding::TaiTwice { .. } => add_line(text, "leave out --tai."),
        Finding::Burst { .. } => {
            let what = burst_advice(alloc, setting)?;
            add_line(text, what.as_str())
        }
        Finding::Phase(_) => add_line(text, phase_advice(is_first)),
        Finding::Pacing(_) => {
            let what = pacing_advice(alloc, setting)?;
            add_line(text, what.as_str())
        }
        Finding::Drift { .. } => add_line(
            text,
            "lock the sender and the capturing card to PTP: one of them isn't.",
        ),
        Finding::Rare { .. } => add_line(
            text,
            "look at that time in the sender's log: this is a single event.",
        ),
        Finding::Pass { .. } => Ok(()),
        Finding::Microseconds { .. } => add_line(
            text,
            "capture with nanoseconds: a packet can be off by a microsecond.",
        ),
        Finding::Unlocked { .. } => add_line(
            text,
            "lock the sender's RTP clock to PTP if receivers need it.",
        ),
    }
}
