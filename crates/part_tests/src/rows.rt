//! Tests by the crate that they call, lowest first.

mod compare;

// SDPs, captures, inputs and outputs, and generated captures.
mod base;
mod examples;
mod made;
mod outside;
mod pcap;
mod pcapng;
mod sdp;
mod udp;

// Fractions, the numbers of a sender, and those of one flow.
mod bucket;
mod buffer;
mod fractions;
mod groups;
mod reads;
mod sender;
mod shaper;
mod window;

// Flows and claims.
mod bank;
mod checker;
mod demux;
mod judge;

// Concurrent parts.
mod books;
mod lanes;
