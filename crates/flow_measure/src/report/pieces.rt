//! Pieces of the JSON of a run: summaries, optional members, violations, strings and lists of counts.

ghost use Rattle.std.specs.Prelude.{◌≡◌, ◌++◌, IfOk, false, string_bytes};
ghost use Rattle.std.specs.Fmt.{decimal};
ghost use Rattle.flow_measure.specs.report.Json.{flag_text, items_text, list_text, quoted_text};

use crate::{Buffer, Place, Summary};
use serde_json::Value;
use std::alloc::{AllocError as OutOfMemory, Global};
use std::fmt;
use timing_base::{FailProof, KindVerdict};
use timing_report::json_report::comma_if;
use timing_report::model_name;

/// Returns a JSON string, in quotes and with escapes.
pub(crate) fn quoted(alloc: Global, text: &str) -> Result<String, OutOfMemory>
    ensures { IfOk result (λ s. string_bytes s ≡ quoted_text text.now) }
{
    let value = Value::try_from_str(alloc, text)?;
    value.to_string(alloc)
}

/// Returns `true` or `false` as text.
pub(crate) fn flag_name(flag: bool) -> &'static str
    ensures { result.now ≡ flag_text flag }
{
    if flag { "true" } else { "false" }
}

/// Returns a list of counts.
pub(crate) fn counts_of(alloc: Global, counts: &[u64]) -> Result<String, OutOfMemory>
    ensures { IfOk result (λ s. string_bytes s ≡ list_text decimal counts.now) }
{
    let mut text = String::from_str(alloc, "[")?;
    add_counts(&mut text, counts)?;
    text.push_str("]")?;
    Ok(text)
}

/// Adds counts, separated by commas.
fn add_counts(text: &mut String, counts: &[u64]) -> Result<(), OutOfMemory>
    ensures { IfOk result (λ _. string_bytes text.new
        ≡ string_bytes text.old ++ items_text decimal false counts.now) }
{
    for (index, count) in counts.iter().enumerate() {
        text.push_str(comma_if(index > 0))?;
        write!(text, "{count}")?;
    }
    Ok(())
}

/// The least, the greatest and the sum of some numbers.
#[derive(Clone, Copy)]
pub(crate) struct Level {
    pub(crate) summary: Summary,
}

impl fmt::Display for Level {
    ghost use Rattle.std.specs.Prelude.{Some};
    ghost use Rattle.flow_measure.specs.report.Json.{level_text};

    ghost output = { λ level. Some (level_text level.summary) };

    fn fmt<W: fmt::Write>(&self, f: &mut fmt::Formatter<W>) -> fmt::Result {
        write!(
            f,
            "{{\"greatest\":{},\"least\":{},\"sum\":{}}}",
            self.summary.greatest, self.summary.least, self.summary.sum
        )
    }
}

/// The occupancy of the buffer, the count of late packets and the slack.
#[derive(Clone, Copy)]
pub(crate) struct Held {
    pub(crate) buffer: Buffer,
}

impl fmt::Display for Held {
    ghost use Rattle.std.specs.Prelude.{Some};
    ghost use Rattle.flow_measure.specs.report.Json.{buffer_text};

    ghost output = { λ held. Some (buffer_text held.buffer) };

    fn fmt<W: fmt::Write>(&self, f: &mut fmt::Formatter<W>) -> fmt::Result {
        let held = self.buffer.occupancy;
        let margins = self.buffer.margins;
        write!(
            f,
            "{{\"greatest\":{},\"late\":{},\"least\":{},\"slack\":{},\"sum\":{}}}",
            held.greatest, margins.late, held.least, margins.slack, held.sum
        )
    }
}

/// The end of a summary, with the value to compare with if there is one.
#[derive(Clone, Copy)]
struct TargetEnd {
    target: Option<u64>,
}

impl fmt::Display for TargetEnd {
    ghost use Rattle.std.specs.Prelude.{Some};
    ghost use Rattle.flow_measure.specs.report.Json.{target_end};

    ghost output = { λ end. Some (target_end end.target) };

    fn fmt<W: fmt::Write>(&self, f: &mut fmt::Formatter<W>) -> fmt::Result {
        match self.target {
            None => f.write_str("}"),
            Some(target) => write!(f, ",\"target\":{target}}}"),
        }
    }
}

/// A whole summary, with the value to compare with if there is one.
#[derive(Clone, Copy)]
pub(crate) struct Whole {
    pub(crate) summary: Summary,
    pub(crate) target: Option<u64>,
}

impl fmt::Display for Whole {
    ghost use Rattle.std.specs.Prelude.{Some};
    ghost use Rattle.flow_measure.specs.report.Json.{summary_text};

    ghost output = { λ whole. Some (summary_text whole.summary whole.target) };

    fn fmt<W: fmt::Write>(&self, f: &mut fmt::Formatter<W>) -> fmt::Result {
        let Summary {
            least,
            greatest,
            sum,
            first,
            last,
        } = self.summary;
        let end = TargetEnd {
            target: self.target,
        };
        write!(
            f,
            "{{\"first\":{first},\"greatest\":{greatest},\"last\":{last},\"least\":{least},\"sum\":{sum}{end}"
        )
    }
}

/// The steps of the RTP timestamp as a member, empty if there is only one frame or field.
#[derive(Clone, Copy)]
pub(crate) struct Steps {
    pub(crate) step: Option<Summary>,
}

impl fmt::Display for Steps {
    ghost use Rattle.std.specs.Prelude.{Some};
    ghost use Rattle.flow_measure.specs.report.Json.{step_member};

    ghost output = { λ steps. Some (step_member steps.step) };

    fn fmt<W: fmt::Write>(&self, f: &mut fmt::Formatter<W>) -> fmt::Result {
        match self.step {
            None => Ok(()),
            Some(step) => write!(
                f,
                "\"step\":{{\"greatest\":{},\"least\":{}}},",
                step.greatest, step.least
            ),
        }
    }
}

/// A member that may be missing: a number with its key, and the comma after it.
#[derive(Clone, Copy)]
pub(crate) struct NumberIf {
    pub(crate) key: &'static str,
    pub(crate) number: Option<u64>,
}

impl fmt::Display for NumberIf {
    ghost use Rattle.std.specs.Prelude.{Some};
    ghost use Rattle.flow_measure.specs.report.Json.{member_if};

    ghost output = { λ member. Some (member_if member.key.now member.number) };

    fn fmt<W: fmt::Write>(&self, f: &mut fmt::Formatter<W>) -> fmt::Result {
        match self.number {
            None => Ok(()),
            Some(number) => write!(f, "\"{}\":{number},", self.key),
        }
    }
}

/// The place of packet `to` of a violation as members, empty if it is unknown.
#[derive(Clone, Copy)]
struct Named {
    place: Option<Place>,
}

impl fmt::Display for Named {
    ghost use Rattle.std.specs.Prelude.{Some, option_map};
    ghost use Rattle.flow_measure.specs.report.Json.{place_members};
    ghost use Rattle.flow_measure.specs.report.Told.{place_told};

    ghost output = { λ named. Some (place_members (option_map place_told named.place)) };

    fn fmt<W: fmt::Write>(&self, f: &mut fmt::Formatter<W>) -> fmt::Result {
        match self.place {
            None => Ok(()),
            Some(place) => write!(f, "\"record\":{},\"stamp\":{},", place.record, place.stamp),
        }
    }
}

/// A violation.
#[derive(Clone, Copy)]
struct Proof {
    proof: FailProof,
    place: Option<Place>,
}

impl fmt::Display for Proof {
    ghost use Rattle.std.specs.Prelude.{Some, option_map};
    ghost use Rattle.flow_measure.specs.report.Json.{proof_text};
    ghost use Rattle.flow_measure.specs.report.Told.{place_told};

    ghost output = { λ p. Some (proof_text p.proof (option_map place_told p.place)) };

    fn fmt<W: fmt::Write>(&self, f: &mut fmt::Formatter<W>) -> fmt::Result {
        let proof = self.proof;
        let model = model_name(proof.model);
        let named = Named { place: self.place };
        write!(
            f,
            "{{\"count\":{},\"from\":{},\"limit\":{},\"model\":\"{model}\",{named}\"to\":{}}}",
            proof.count, proof.from, proof.limit, proof.to
        )
    }
}

/// Whether a type passes, and its violation if it fails.
#[derive(Clone, Copy)]
pub(crate) struct Outcome {
    pub(crate) verdict: KindVerdict,
    pub(crate) place: Option<Place>,
}

impl fmt::Display for Outcome {
    ghost use Rattle.std.specs.Prelude.{Some, option_map};
    ghost use Rattle.flow_measure.specs.report.Json.{outcome_text};
    ghost use Rattle.flow_measure.specs.report.Told.{place_told};

    ghost output = { λ o. Some (outcome_text o.verdict (option_map place_told o.place)) };

    fn fmt<W: fmt::Write>(&self, f: &mut fmt::Formatter<W>) -> fmt::Result {
        match self.verdict {
            KindVerdict::Pass => f.write_str("\"pass\":true"),
            KindVerdict::Fail(proof) => {
                let proof = Proof {
                    proof,
                    place: self.place,
                };
                write!(f, "\"pass\":false,\"proof\":{proof}")
            }
        }
    }
}
