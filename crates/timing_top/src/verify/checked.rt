//! Findings on violations that are claimed of a sender.

use timing_base::Unjudged;
use timing_report::json_report::ReportProof;

/// The finding on a violation: whether it is confirmed, or why its flow or its run isn't judged.
pub type Finding = Result<bool, Unjudged>;

/// A violation in a report, with its finding.
#[derive(Clone, Copy)]
pub struct Checked {
    /// The violation, with its flow, run and sender type.
    pub claim: ReportProof,
    /// The finding.
    pub finding: Finding,
}
