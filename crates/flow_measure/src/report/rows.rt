//! The rows of a flow, one per packet or one per frame or field.

ghost use Rattle.std.specs.Prelude.{◌≡◌, ◌≤◌, ◌+◌, ◌++◌};
ghost use Rattle.flow_measure.specs.report.Line.{written};
ghost use Rattle.flow_measure.specs.report.Rows.{field, field_if, group_clock, group_finds, group_header_text, group_place, packet_finds, packet_header_text, packet_place, signed_field};

use crate::report::line::Line;

/// The row of a judged packet.
#[derive(Clone, Copy)]
pub struct PacketRow {
    /// The number of its run among all runs of the flow, judged or not, from 1.
    pub run: u64,
    /// Its number among the judged packets of the run, from 0.
    pub packet: u64,
    /// Its packet record, from 1.
    pub rec: u64,
    /// Its capture timestamp in nanoseconds of TAI, after the shift of its flow.
    pub stamp: u64,
    /// The number of its frame or field in the run, from 0.
    pub group: u64,
    /// Its place in the frame or field, from 0.
    pub place: u64,
    /// The count of the bucket just after it, in packets.
    pub bucket: u64,
    /// The occupancy of the buffer just after it by gapped reads, in packets; below 0 if the reads are ahead.
    pub gapped: i64,
    /// The occupancy of the buffer just after it by linear reads, in packets; below 0 if the reads are ahead.
    pub linear: i64,
}

/// The row of a judged frame or field.
#[derive(Clone, Copy)]
pub struct GroupRow {
    /// The number of its run among all runs of the flow, judged or not, from 1.
    pub run: u64,
    /// Its number among the judged frames or fields of the run, from 0.
    pub group: u64,
    /// The packet record of its first packet, from 1.
    pub rec: u64,
    /// The capture timestamp of its first packet in nanoseconds of TAI, after the shift of its flow.
    pub stamp: u64,
    /// Nanoseconds from the instant at which it begins to its first packet.
    pub first: i128,
    /// Nanoseconds from the instant at which it begins to its last packet.
    pub last: i128,
    /// Its RTP timestamp, in ticks of 90 kHz.
    pub timestamp: u32,
    /// Ticks from the RTP timestamp before; `None` for the first frame or field.
    pub step: Option<u32>,
    /// Ticks by which its RTP timestamp exceeds the media clock at the instant at which it begins.
    pub offset: i128,
    /// Ticks from its RTP timestamp to its first packet.
    pub latency: i128,
    /// The greatest count of the bucket just after one of its packets, in packets.
    pub bucket: u64,
    /// The least occupancy of the buffer just after one of its packets by gapped reads, in packets.
    pub gapped_least: i64,
    /// The greatest occupancy by gapped reads, in packets.
    pub gapped: i64,
    /// The least occupancy by linear reads, in packets.
    pub linear_least: i64,
    /// The greatest occupancy by linear reads, in packets.
    pub linear: i64,
}

/// Returns the header line of packet rows, with its line end.
pub(crate) fn packet_header() -> &'static str
    ensures { result.now ≡ packet_header_text }
{
    "run,packet,record,stamp,group,place,bucket,gapped,linear\n"
}

/// Returns the header line of frame rows, with its line end.
pub(crate) fn group_header() -> &'static str
    ensures { result.now ≡ group_header_text }
{
    "run,group,record,stamp,first,last,timestamp,step,offset,latency,bucket,gapped_least,gapped,linear_least,linear\n"
}

/// A writer of rows as lines, each in the memory of the one before.
#[derive(Clone, Copy)]
pub struct RowText {
    line: Line,
}

impl RowText {
    ghost use Rattle.flow_measure.specs.report.Rows.{group_row_text, packet_row_text};

    /// Returns a writer before its first row.
    pub fn new() -> RowText {
        RowText { line: Line::new() }
    }

    /// Returns the line of a packet, with its line end. The line is valid until the next row is written.
    pub fn of_packet(&mut self, row: &PacketRow) -> &[u8]
        ensures { result.now ≡ packet_row_text row.now }
    {
        begin_packet(&mut self.line, row);
        put_packet_place(&mut self.line, row);
        self.line.as_bytes()
    }

    /// Returns the line of a frame or field, with its line end. The line is valid until the next row is written.
    pub fn of_group(&mut self, row: &GroupRow) -> &[u8]
        ensures { result.now ≡ group_row_text row.now }
    {
        begin_group(&mut self.line, row);
        put_group_clock(&mut self.line, row);
        put_group_place(&mut self.line, row);
        self.line.as_bytes()
    }
}

/// Puts a field and its comma in front of the line.
#[inline(always)]
fn put_field(line: &mut Line, number: u64)
    requires { 21 ≤ line.old.start }
    ensures written { written line.new ≡ field number ++ written line.old }
    ensures room { line.old.start ≤ line.new.start + 21 }
{
    line.put_byte(b',');
    line.put_number(number);
}

/// Puts a signed field and its comma in front of the line.
#[inline(always)]
fn put_signed_field(line: &mut Line, number: i128)
    requires { 41 ≤ line.old.start }
    ensures written { written line.new ≡ signed_field number ++ written line.old }
    ensures room { line.old.start ≤ line.new.start + 41 }
{
    line.put_byte(b',');
    line.put_signed(number);
}

/// Puts a field that may be empty, and its comma, in front of the line.
fn put_field_if(line: &mut Line, number: Option<u32>)
    requires { 21 ≤ line.old.start }
    ensures written { written line.new ≡ field_if number ++ written line.old }
    ensures room { line.old.start ≤ line.new.start + 21 }
{
    match number {
        None => line.put_byte(b','),
        Some(number) => put_field(line, u64::from(number)),
    }
}

/// Begins the line of a packet from its end: the levels and the line end.
#[inline(always)]
fn begin_packet(line: &mut Line, row: &PacketRow)
    ensures written { written line.new ≡ packet_finds row.now }
    ensures room { 409 ≤ line.new.start }
{
    line.clear();
    line.put_byte(b'\n');
    line.put_signed(i128::from(row.linear));
    put_signed_field(line, i128::from(row.gapped));
    put_field(line, row.bucket);
}

/// Puts the fields that locate a packet in front of the levels.
#[inline(always)]
fn put_packet_place(line: &mut Line, row: &PacketRow)
    requires { 126 ≤ line.old.start }
    ensures { written line.new ≡ packet_place row.now (written line.old) }
{
    put_field(line, row.place);
    put_field(line, row.group);
    put_field(line, row.stamp);
    put_field(line, row.rec);
    put_field(line, row.packet);
    put_field(line, row.run);
}

/// Begins the line of a frame or field from its end: the levels and the line end.
fn begin_group(line: &mut Line, row: &GroupRow)
    ensures written { written line.new ≡ group_finds row.now }
    ensures room { 327 ≤ line.new.start }
{
    line.clear();
    line.put_byte(b'\n');
    line.put_signed(i128::from(row.linear));
    put_signed_field(line, i128::from(row.linear_least));
    put_signed_field(line, i128::from(row.gapped));
    put_signed_field(line, i128::from(row.gapped_least));
    put_field(line, row.bucket);
}

/// Puts the times and the RTP timestamp of a frame or field in front of the levels.
fn put_group_clock(line: &mut Line, row: &GroupRow)
    requires { 206 ≤ line.old.start }
    ensures written { written line.new ≡ group_clock row.now (written line.old) }
    ensures room { line.old.start ≤ line.new.start + 206 }
{
    put_signed_field(line, row.latency);
    put_signed_field(line, row.offset);
    put_field_if(line, row.step);
    put_field(line, u64::from(row.timestamp));
    put_signed_field(line, row.last);
    put_signed_field(line, row.first);
}

/// Puts the fields that locate a frame or field in front of the line.
fn put_group_place(line: &mut Line, row: &GroupRow)
    requires { 84 ≤ line.old.start }
    ensures { written line.new ≡ group_place row.now (written line.old) }
{
    put_field(line, row.stamp);
    put_field(line, row.rec);
    put_field(line, row.group);
    put_field(line, row.run);
}
