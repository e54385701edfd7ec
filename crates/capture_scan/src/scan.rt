//! One pass over the packet records of a capture.

ghost use Rattle.std.specs.Prelude.{◌≡◌, ◌≤◌, ◌<◌, ◌+◌, ◌^◌, ◌++◌, ◌∷◌, [], List, IfOk, Some};
ghost use Rattle.capture_scan.specs.Few.{IsFewPassed};
ghost use Rattle.timing_base.specs.Captures.{IsStamp, Record};

use crate::found::{Found, PassedOver, Span};
use crate::packet::{Seen, look_at};
use crate::streams::Streams;
use crate::unread::Unread;
use pcap_reader::Taker;
use std::alloc::{AllocError as OutOfMemory, Global};
use udp_rtp::FrameClass;

impl Span {
    ghost use Rattle.capture_scan.specs.Counting.{span_with};

    /// Returns the capture timestamps of the first and the last record, after one more record.
    #[inline(always)]
    fn with(span: Option<Span>, at: u64) -> Span
        ensures { result ≡ span_with span at }
    {
        match span {
            Some(span) => Span {
                first: span.first,
                last: at,
            },
            None => Span {
                first: at,
                last: at,
            },
        }
    }
}

impl PassedOver {
    ghost use Rattle.capture_scan.specs.Counting.{passed_with};
    ghost use Rattle.capture_scan.specs.Scans.{passed_over};

    /// Returns the counts of no frame.
    fn none() -> PassedOver
        ensures { result ≡ passed_over [] }
    {
        PassedOver {
            empty: 0,
            tags: 0,
            ipv6: 0,
            other: 0,
            not_udp: 0,
            fragment: 0,
            broken: 0,
        }
    }

    /// Counts one more frame of this class.
    fn count(&mut self, class: FrameClass)
        requires { IsFewPassed (2 ^ 41) self.old }
        ensures { self.new ≡ passed_with self.old class }
    {
        match class {
            FrameClass::Empty => self.empty += 1,
            FrameClass::Tags => self.tags += 1,
            FrameClass::Ipv6 => self.ipv6 += 1,
            FrameClass::Other => self.other += 1,
            FrameClass::NotUdp => self.not_udp += 1,
            FrameClass::Fragment => self.fragment += 1,
            FrameClass::Broken => self.broken += 1,
        }
    }
}

/// A scan of a capture, in one pass over its packet records.
///
/// It allocates memory when a stream or a target with unread packets first occurs, for at most 1,024 of each.
#[derive(Drop)]
pub struct Scan {
    /// The number of records that were taken.
    records: u64,
    /// The capture timestamps of the first and the last record.
    span: Option<Span>,
    passed_over: PassedOver,
    streams: Streams,
    unread: Unread,
    ghost few: { records ≤ 2 ^ 41 },
    ghost few_streams: { streams.taken ≤ records },
    ghost few_unread: { unread.taken ≤ records },
    ghost few_passed: { IsFewPassed records passed_over },
}

impl Scan {
    ghost use Rattle.capture_scan.specs.Scans.{IsFound};
    ghost use Rattle.capture_scan.specs.Stands.{StandsFor, Takes, count_records};

    /// Returns a scan that was given no record.
    pub fn new(alloc: Global) -> Scan
        ensures stands { StandsFor result [] }
        ensures none { count_records result ≡ 0 }
    {
        Scan {
            records: 0,
            span: None,
            passed_over: PassedOver::none(),
            streams: Streams::new(alloc),
            unread: Unread::new(alloc),
        }
    }

    /// Takes a packet record with this number, counted from 1, this capture timestamp in nanoseconds, and this Ethernet
    /// frame.
    ///
    /// Returns `Err` if memory runs out. What the scan contains is not guaranteed from then on.
    #[inline(always)]
    pub fn take(&mut self, number: u64, at: u64, frame: &[u8]) -> Result<(), OutOfMemory>
        requires few { count_records self.old < 2 ^ 41 }
        ensures count { count_records self.new ≤ count_records self.old + 1 }
        ensures takes { IfOk result (λ _. Takes self.old self.new
            (record { number = number; stamp = at; bytes = frame.now } ∷ [])) }
    {
        self.records += 1;
        self.span = Some(Span::with(self.span, at));
        match look_at(number, at, frame) {
            Seen::Read(packet) => self.streams.take(&packet),
            Seen::Unread(target) => self.unread.take(target),
            Seen::PassedOver(class) => {
                self.passed_over.count(class);
                Ok(())
            }
        }
    }

    /// Returns the result for the records that were taken. Returns `Err` if memory runs out.
    pub fn finish(&self, alloc: Global) -> Result<Found, OutOfMemory>
        ensures { IfOk result (λ found. (records : List Record) → StandsFor self.now records
            → IsFound records found) }
    {
        let streams = self.streams.finish(alloc)?;
        let unread = self.unread.finish(alloc)?;
        Ok(Found {
            records: self.records,
            span: self.span,
            passed_over: self.passed_over,
            streams,
            unread,
            more: self.streams.more + self.unread.more,
        })
    }
}

impl Taker for Scan {
    ghost use Rattle.capture_scan.specs.Stands.{HasRoom, Takes, room_less, takes_more, takes_none};
    ghost use Rattle.pcap_reader.specs.Taken.{StopsAnyhow};

    /// Memory ran out.
    type Stop = OutOfMemory;

    ghost takes = { Takes };

    ghost stops = { StopsAnyhow };

    ghost room = { HasRoom };

    ghost none = { takes_none };

    ghost more = { takes_more };

    ghost ends = { λ _ _ _ _ _ _ _ _. tt };

    ghost halts = { λ _ _ _ _ _ _. tt };

    ghost less = { room_less };

    #[inline(always)]
    fn take(&mut self, number: u64, at: u64, frame: &[u8]) -> Result<(), OutOfMemory> {
        Scan::take(self, number, at, frame)
    }
}
