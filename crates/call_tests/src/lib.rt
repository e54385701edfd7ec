//! Tests of intakes and workers, of reports and of command lines, crate by crate, and tests of whole commands that
//! files can't show: reads, fetches and writes that fail, inputs that change, and concurrent threads.
#![tactic(auto)]

#[cfg(test)]
mod call;
#[cfg(test)]
mod parts;
#[cfg(test)]
mod rows;
