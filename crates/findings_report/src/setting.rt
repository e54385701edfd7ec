//! What the sentences on a flow have in common.

ghost use Rattle.std.specs.Prelude.{◌≡◌};
ghost use Rattle.findings_report.specs.Text.{group_of, setting_of};

use flow_findings::ExplainedRun;
use std::fmt;
use timing_base::{Kind, Media};
use timing_report::group_name;

/// What the sentences on a flow have in common.
#[derive(Clone, Copy)]
pub(crate) struct Setting {
    /// Whether a picture is sent as two fields.
    pub(crate) interlaced: bool,
    /// The sender type that the findings are of.
    pub(crate) kind: Kind,
    /// The count of judged frames or fields.
    pub(crate) groups: u64,
    /// The count of judged packets.
    pub(crate) packets: u64,
}

/// Returns what the sentences on a flow of this media have in common.
pub(crate) fn setting_of(media: &Media, shown: Option<ExplainedRun>) -> Setting
    ensures { result ≡ setting_of media.now shown }
{
    match shown {
        None => Setting {
            interlaced: media.interlaced,
            kind: Kind::W,
            groups: 0,
            packets: 0,
        },
        Some(run) => Setting {
            interlaced: media.interlaced,
            kind: run.kind,
            groups: run.groups,
            packets: run.packets,
        },
    }
}

/// Returns `field` if the video is interlaced, else `frame`.
pub(crate) fn group_of(setting: Setting) -> &'static str
    ensures { result.now ≡ group_of setting }
{
    group_name(setting.interlaced)
}

/// A count with its noun, which is in the singular.
#[derive(Clone, Copy)]
pub(crate) struct Counted {
    pub(crate) count: u64,
    pub(crate) noun: &'static str,
}

impl fmt::Display for Counted {
    ghost use Rattle.std.specs.Prelude.{Some};
    ghost use Rattle.findings_report.specs.Text.{counted};

    ghost output = { λ c. Some (counted c.count c.noun.now) };

    fn fmt<W: fmt::Write>(&self, f: &mut fmt::Formatter<W>) -> fmt::Result {
        if self.count == 1 {
            write!(f, "{} {}", self.count, self.noun)
        } else {
            write!(f, "{} {}s", self.count, self.noun)
        }
    }
}

/// Packets with their count.
#[derive(Clone, Copy)]
pub(crate) struct PacketsText {
    pub(crate) count: u64,
}

impl fmt::Display for PacketsText {
    ghost use Rattle.std.specs.Prelude.{Some};
    ghost use Rattle.findings_report.specs.Text.{packets_text};

    ghost output = { λ packets. Some (packets_text packets.count) };

    fn fmt<W: fmt::Write>(&self, f: &mut fmt::Formatter<W>) -> fmt::Result {
        let packets = Counted {
            count: self.count,
            noun: "packet",
        };
        write!(f, "{packets}")
    }
}

/// Gaps with their count.
#[derive(Clone, Copy)]
pub(crate) struct GapsText {
    pub(crate) count: u64,
}

impl fmt::Display for GapsText {
    ghost use Rattle.std.specs.Prelude.{Some};
    ghost use Rattle.findings_report.specs.Text.{gaps_text};

    ghost output = { λ gaps. Some (gaps_text gaps.count) };

    fn fmt<W: fmt::Write>(&self, f: &mut fmt::Formatter<W>) -> fmt::Result {
        let gaps = Counted {
            count: self.count,
            noun: "gap",
        };
        write!(f, "{gaps}")
    }
}
