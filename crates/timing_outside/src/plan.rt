//! Plans of what fails in memory, and when.
ghost use Rattle.std.specs.Prelude.{◌≡◌, ◌≤◌};
ghost use Rattle.timing_outside.specs.Counts.{is_planned};

/// The plan by which contents in memory are fetched and read.
#[derive(Drop)]
pub struct ReadPlan {
    /// Whether each fetch fails.
    pub fetch_fails: bool,
    /// The greatest number of bytes that one read returns, at least 1.
    pub piece: u32,
    /// The numbers of the reads that fail. Reads of a source count from 1, and reads that fail
    /// count too.
    pub fails: Vec<u32>,
    ghost some: { 1 ≤ piece },
}

/// The plan by which a sink in memory is written to.
#[derive(Drop)]
pub struct WritePlan {
    /// The greatest number of bytes that one write takes, at least 1.
    pub piece: u32,
    /// The numbers of the writes that fail. Writes of at least one byte count from 1, and writes
    /// that fail count too.
    pub fails: Vec<u32>,
    ghost some: { 1 ≤ piece },
}

/// Returns whether the call with this number is to fail.
pub(crate) fn is_among(fails: &[u32], number: u64) -> bool
    ensures { result ≡ is_planned fails.now number }
{
    for fail in fails {
        if u64::from(*fail) == number {
            return true;
        }
    }
    false
}
