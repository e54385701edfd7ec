//! Command lines that many rows run, and lines that many reports have.

/// Judges the plain capture on one thread.
pub const CHECK: &str = "check --serial --sdp p.sdp a.pcap";

/// Judges two captures on one thread.
pub const CHECK_TWO: &str = "check --serial --sdp p.sdp a.pcap b.pcap";

/// Judges two captures as one.
pub const JOINED: &str = "check --serial --joined --sdp p.sdp a.pcap b.pcap";

/// The lines before the flows, for one capture that is read to its end.
pub const HEADER: &str = "ST 2110-21 timing report\nfile 1 end a.pcap\n";

/// The lines of the plain flow.
pub const NARROW: &str =
    "flow 1.1 239.0.0.1:50000 judged: 20 per frame, 2 frames, 40 packets, head 1, tail 0, class narrow, declared N\n  N pass, bucket 1 of 4, buffer 1 of 8\n  NL pass, bucket 1 of 4, buffer 1 of 8\n  W pass, bucket 1 of 16, buffer 1 of 720\n";
