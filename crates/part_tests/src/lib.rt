//! Tests of the crates up to the judges and the checker, and of lanes and books, with values worked by hand: reading
//! inputs, the numbers of a sender and of a flow, verdicts and claims, and concurrent parts.
#![tactic(auto)]

#[cfg(test)]
mod rows;
