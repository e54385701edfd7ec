//! The common part of the commands on one flow: the packets of a flow are taken from its captures while these are read.

pub mod flows;
