//! Tests of the crates above the judges, and of command lines and pairs of flows.

mod compare;

// Command lines, two flows, scans, and reports that are read.
mod json;
mod lines;
mod scan;
mod skew;

// Intakes and workers.
mod intakes;
mod workers;
