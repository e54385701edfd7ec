//! The packets of a flow, and their faults.

/// The fields that the analyser reads of one RTP packet of video (RFC 3550, section 5.1; RFC 4175,
/// section 4.2).
#[derive(Clone, Copy, Debug, PartialEq, Eq)]
pub struct Rtp {
    /// The packet number: the extended sequence number times 65,536, plus the RTP sequence number.
    pub number: u32,
    /// The RTP timestamp, in ticks of 90 kHz.
    pub timestamp: u32,
    /// Whether this is the last packet of its frame or field.
    pub marker: bool,
    /// The payload type, 7 bits of a packet.
    pub pt: u8,
    /// The synchronization source.
    pub ssrc: u32,
}

/// The reason why the packets of a flow aren't judged. If a packet has several faults, the first in
/// this order counts.
#[derive(Clone, Copy, Debug, PartialEq, Eq)]
pub enum PacketFault {
    /// The payload ends before the extended sequence number does.
    Short,
    /// The RTP version is not 2.
    Version,
    /// The payload type isn't that of the media.
    PayloadType,
    /// The synchronization source isn't that of the flow's first packet.
    SecondSource,
    /// The flow has one gap in its packet numbers more than is allowed. `expected` is the number
    /// after that of the packet before.
    Number { expected: u32, got: u32 },
    /// The capture timestamp is below that of the packet before. Both are nanoseconds, as in the
    /// file.
    StampBack { before: u64, got: u64 },
    /// The RTP timestamp is new, and the packet before had no marker.
    NoMarker,
    /// The RTP timestamp is that of the packet before, which had the marker.
    SameStamp,
    /// A frame or field has another number of packets than the first judged one. `want` is the size
    /// of the first one, `got` the packets of this one up to here.
    FrameSize { want: u32, got: u32 },
    /// The first judged frame or field has more than 262,144 packets.
    FrameTooLarge,
}

/// A packet of a flow. A flow consists of the packets of one media in one capture, in the order of
/// their packet records.
#[derive(Clone, Copy, Debug, PartialEq, Eq)]
pub struct FlowPacket {
    /// The number of its packet record, counted from 1.
    pub rec: u64,
    /// Its capture timestamp, in nanoseconds, as in the capture.
    pub at: u64,
    /// The fields that were read, or why they couldn't be read: `Short` or `Version`. The other
    /// faults depend on the media and on the packets before.
    pub rtp: Result<Rtp, PacketFault>,
}
