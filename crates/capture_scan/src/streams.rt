//! The streams of a capture.

ghost use Rattle.std.specs.Prelude.{◌≡◌, ◌≤◌, ◌<◌, ◌+◌, ◌^◌, ◌++◌, ◌∷◌, [], ℕ, All, List, None, Some, IfOk, IfSome};
ghost use Rattle.std.specs.Prelude.{OnOk, true};
ghost use Rattle.indexmap.specs.IndexMap.{get, values};
ghost use Rattle.capture_scan.specs.Scans.{is_same_stream, stream_key};

use crate::counter::Counter;
use crate::key::StreamKey;
use crate::packet::Packet;
use crate::stream::Stream;
use indexmap::IndexMap;
use std::alloc::{AllocError as OutOfMemory, Global};

/// The greatest number of streams that are listed.
const MOST: usize = 1024;

/// The streams of some packets, in the order of their first packets.
#[derive(Drop)]
pub struct Streams {
    counters: IndexMap<StreamKey, Counter>,
    /// The index of the stream of the last packet, counted from 0. Most packets belong to the same stream as the one
    /// before.
    near: usize,
    /// The number of packets that were taken.
    pub taken: u64,
    /// The number of those that belong to further streams.
    pub more: u64,
    ghost few: { All (λ c. c.stream.packets ≤ taken) (values counters) },
    ghost few_more: { more ≤ taken },
}

impl Streams {
    ghost use Rattle.capture_scan.specs.Places.{HasStream};
    ghost use Rattle.capture_scan.specs.Scans.{streams};
    ghost use Rattle.capture_scan.specs.Stands.{HaveTaken};
    ghost use Rattle.capture_scan.specs.declared.packet.Packet.{Packet as Counted};

    /// Returns no stream.
    pub fn new(alloc: Global) -> Streams
        ensures none { HaveTaken result [] }
        ensures taken { result.taken ≡ 0 }
    {
        Streams {
            counters: IndexMap::new(alloc),
            near: 0,
            taken: 0,
            more: 0,
        }
    }

    /// Returns whether this is the stream of the last packet.
    #[inline(always)]
    fn is_near(&self, key: StreamKey) -> bool
        ensures { result ≡ true → HasStream self.now key self.now.near }
    {
        match self.counters.get_index(self.near) {
            Some((&other, _)) => other == key,
            None => false,
        }
    }

    /// Returns the index of a stream.
    #[inline(always)]
    fn place_of(&self, key: StreamKey) -> Option<usize>
        ensures some { IfSome result (HasStream self.now key) }
        ensures none { result ≡ None → get is_same_stream self.now.counters key ≡ None }
    {
        if self.is_near(key) {
            return Some(self.near);
        }
        self.counters.get_index_of(&key)
    }

    /// Begins a stream with its first packet, if fewer than 1,024 are listed; else counts the packet in `more`. Returns
    /// `Err` if memory runs out.
    #[cold]
    #[inline(never)]
    fn begin(&mut self, key: StreamKey, packet: &Packet) -> Result<(), OutOfMemory>
        requires key { key ≡ stream_key packet.now }
        requires absent { get is_same_stream self.old.counters key ≡ None }
        requires few { self.old.more < self.old.taken }
        requires room { self.old.taken ≤ 2 ^ 41 }
        ensures taken { self.new.taken ≡ self.old.taken }
        ensures stands { OnOk result ((ps : List Counted) → HaveTaken self.old ps
            → HaveTaken self.new (ps ++ packet.now ∷ [])) }
    {
        if self.counters.len() >= MOST {
            self.more += 1;
            return Ok(());
        }
        let place = self.counters.len();
        self.counters.insert(key, Counter::first(packet))?;
        self.near = place;
        Ok(())
    }

    /// Takes a packet. Returns `Err` if memory runs out; which packets are counted is not guaranteed from then on.
    #[inline(always)]
    pub fn take(&mut self, packet: &Packet) -> Result<(), OutOfMemory>
        requires few { self.old.taken < 2 ^ 41 }
        ensures taken { self.new.taken ≡ self.old.taken + 1 }
        ensures stands { OnOk result ((ps : List Counted) → HaveTaken self.old ps
            → HaveTaken self.new (ps ++ packet.now ∷ [])) }
    {
        self.taken += 1;
        let key = StreamKey::of(packet);
        match self.place_of(key) {
            Some(place) => {
                self.near = place;
                let (_, counter) = self.counters.pair_mut(place);
                counter.take(packet);
                Ok(())
            }
            None => self.begin(key, packet),
        }
    }

    /// Returns the streams, in the order of their first packets. Returns `Err` if memory runs out.
    pub fn finish(&self, alloc: Global) -> Result<Vec<Stream>, OutOfMemory>
        ensures { IfOk result (λ list. (ps : List Counted) → HaveTaken self.now ps
            → list.items ≡ streams ps) }
    {
        let mut streams = Vec::new(alloc);
        for (_, counter) in self.counters.iter() {
            streams.push(counter.stream)?;
        }
        Ok(streams)
    }
}
