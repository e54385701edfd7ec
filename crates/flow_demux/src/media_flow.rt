//! The flow of one media, and its taker.

ghost use Rattle.std.specs.Prelude.{◌≡◌, ◌≤◌, ◌+◌, ◌∷◌, [], ℕ, Some, Ok, IfOk, IfSome, IsOkAnd, ◌++◌, length, string_bytes, true, false};
ghost use Rattle.timing_base.specs.Captures.{IsStamp, Record};
ghost use Rattle.timing_base.specs.Targets.{target_of};
ghost use Rattle.udp_rtp.specs.Flow.{flow_packet, is_same_target};
ghost use Rattle.udp_rtp.specs.Frames.{datagram_of};
ghost use Rattle.flow_demux.specs.Readings.{IsReading};

use crate::taker::FlowTaker;
use crate::writer::FlowWriter;
use pcap_reader::Taker;
use std::alloc::AllocError as OutOfMemory;
use timing_base::{FlowPacket, Media};
use udp_rtp::{Awaited, Datagram, datagram, read_rtp};

/// The flow of a media, and its taker.
#[derive(Drop)]
pub struct MediaFlow<F: Drop> {
    /// Media of the flow: its packets have the target of this media.
    pub media: Media,
    /// Taker of the flow's packets.
    pub taker: F,
    /// The packet that is expected next, in a form that is compared with the bytes of a frame; or nothing.
    awaited: Awaited,
}

impl<F: FlowTaker> MediaFlow<F> {
    ghost use Rattle.flow_demux.specs.Awaits.{AwaitsExpected};
    ghost use Rattle.flow_demux.specs.Takings.{GoesTo, TakesFlow};

    /// Returns the flow before the first packet record.
    pub fn new(media: &Media, taker: F) -> MediaFlow<F>
        ensures media { result.media ≡ media.now }
        ensures taker { result.taker ≡ taker }
        ensures awaits { AwaitsExpected F.expects result }
    {
        MediaFlow {
            media: *media,
            taker,
            awaited: Awaited::nothing(),
        }
    }

    /// Returns the packet of a record if its frame carries the expected packet, else `None`. `number` counts from 1,
    /// `at` is in nanoseconds.
    #[inline(always)]
    pub fn packet_in(&self, number: u64, at: u64, frame: &[u8]) -> Option<FlowPacket>
        requires awaits { AwaitsExpected F.expects self.now }
        ensures packet { IfSome result (λ packet. flow_packet self.now.media
            (record { number = number; stamp = at; bytes = frame.now }) ≡ Some packet) }
        ensures expected { IfSome result (λ packet. IsOkAnd packet.rtp
            (λ p. F.expects self.now.taker ≡ Some p)) }
    {
        if !self.awaited.is_in(frame) {
            return None;
        }
        Some(FlowPacket {
            rec: number,
            at,
            rtp: Ok(self.awaited.packet()),
        })
    }

    /// Takes a packet record if its frame carries the expected packet, and the flow's taker accepts it by
    /// [`FlowTaker::take_next`]. Returns whether it was taken; if not, nothing changes. Returns `Err` if memory runs
    /// out.
    #[inline(always)]
    pub fn take_next(&mut self, number: u64, at: u64, frame: &[u8]) -> Result<bool, OutOfMemory>
        requires stamp { IsStamp at }
        requires short { length frame.now ≤ 262144 }
        requires room { F.room 1 self.old.taker }
        requires awaits { AwaitsExpected F.expects self.old }
        ensures media { self.new.media ≡ self.old.media }
        ensures awaits { AwaitsExpected F.expects self.new }
        ensures other { result ≡ Ok false → self.new ≡ self.old }
        ensures goes { result ≡ Ok true → GoesTo self.old.media frame.now }
        ensures room { (count : ℕ) → result ≡ Ok true → F.room (count + 1) self.old.taker
            → F.room count self.new.taker }
        ensures takes { result ≡ Ok true → TakesFlow F.takes self.old self.new
            (record { number = number; stamp = at; bytes = frame.now } ∷ []) }
    {
        let Some(packet) = self.packet_in(number, at, frame) else {
            return Ok(false);
        };
        match self.taker.take_next(&packet, frame) {
            Ok(true) => {
                self.awaited.go_on();
                Ok(true)
            }
            Ok(false) => Ok(false),
            Err(refused) => {
                self.awaited = Awaited::nothing();
                Err(refused)
            }
        }
    }

    /// Takes the next packet of the flow, and the Ethernet frame that carried it. Returns `Err` if memory runs out.
    #[inline(always)]
    pub fn take_packet(&mut self, packet: &FlowPacket, frame: &[u8]) -> Result<(), OutOfMemory>
        requires stamp { IsStamp packet.now.at }
        requires reading { IsReading packet.now.rtp }
        requires short { length frame.now ≤ 262144 }
        requires room { F.room 1 self.old.taker }
        ensures media { self.new.media ≡ self.old.media }
        ensures awaits { AwaitsExpected F.expects self.new }
        ensures room { (count : ℕ) → IfOk result (λ _. F.room (count + 1) self.old.taker
            → F.room count self.new.taker) }
        ensures takes { IfOk result (λ _. (r : Record) → flow_packet self.old.media r ≡ Some packet.now
            → r.bytes ≡ frame.now → TakesFlow F.takes self.old self.new (r ∷ [])) }
    {
        let taken = self.taker.take(packet, frame);
        self.awaited = Awaited::of(self.media.target(), self.taker.expected());
        taken
    }

    /// Takes the datagram of a packet record if it goes to this media, and returns whether it does. Returns `Err` if
    /// memory runs out.
    #[inline(always)]
    pub fn take_datagram(
        &mut self,
        number: u64,
        at: u64,
        frame: &[u8],
        datagram: &Datagram<'_>,
    ) -> Result<bool, OutOfMemory>
        requires stamp { IsStamp at }
        requires short { length frame.now ≤ 262144 }
        requires datagram { datagram_of frame.now ≡ Some datagram.now }
        requires room { F.room 1 self.old.taker }
        requires awaits { AwaitsExpected F.expects self.old }
        ensures media { self.new.media ≡ self.old.media }
        ensures awaits { AwaitsExpected F.expects self.new }
        ensures goes { IfOk result (λ goes. goes
            ≡ is_same_target datagram.now.target (target_of self.old.media)) }
        ensures room { (count : ℕ) → IfOk result (λ _. F.room (count + 1) self.old.taker
            → F.room count self.new.taker) }
        ensures takes { IfOk result (λ _. TakesFlow F.takes self.old self.new
            (record { number = number; stamp = at; bytes = frame.now } ∷ [])) }
    {
        if datagram.target != self.media.target() {
            return Ok(false);
        }
        let packet = FlowPacket {
            rec: number,
            at,
            rtp: read_rtp(datagram.payload),
        };
        self.take_packet(&packet, frame)?;
        Ok(true)
    }

    /// Takes a packet record: its number, counted from 1, its capture timestamp in nanoseconds since 1970-01-01
    /// 00:00:00, and the captured bytes of its Ethernet frame. Returns `Err` if memory runs out; what was taken is then
    /// unspecified.
    #[inline(always)]
    pub fn take_record(&mut self, number: u64, at: u64, frame: &[u8]) -> Result<(), OutOfMemory>
        requires stamp { IsStamp at }
        requires short { length frame.now ≤ 262144 }
        requires room { F.room 1 self.old.taker }
        requires awaits { AwaitsExpected F.expects self.old }
        ensures media { self.new.media ≡ self.old.media }
        ensures awaits { AwaitsExpected F.expects self.new }
        ensures room { (count : ℕ) → IfOk result (λ _. F.room (count + 1) self.old.taker
            → F.room count self.new.taker) }
        ensures takes { IfOk result (λ _. TakesFlow F.takes self.old self.new
            (record { number = number; stamp = at; bytes = frame.now } ∷ [])) }
    {
        if self.take_next(number, at, frame)? {
            return Ok(());
        }
        self.take_read(number, at, frame)
    }

    /// Takes a packet record as [`MediaFlow::take_record`] does, whatever its frame contains.
    #[cold]
    #[inline(never)]
    fn take_read(&mut self, number: u64, at: u64, frame: &[u8]) -> Result<(), OutOfMemory>
        requires stamp { IsStamp at }
        requires short { length frame.now ≤ 262144 }
        requires room { F.room 1 self.old.taker }
        requires awaits { AwaitsExpected F.expects self.old }
        ensures media { self.new.media ≡ self.old.media }
        ensures awaits { AwaitsExpected F.expects self.new }
        ensures room { (count : ℕ) → IfOk result (λ _. F.room (count + 1) self.old.taker
            → F.room count self.new.taker) }
        ensures takes { IfOk result (λ _. TakesFlow F.takes self.old self.new
            (record { number = number; stamp = at; bytes = frame.now } ∷ [])) }
    {
        let Some(datagram) = datagram(frame) else {
            return Ok(());
        };
        self.take_datagram(number, at, frame, &datagram)?;
        Ok(())
    }
}

impl<F: FlowWriter> MediaFlow<F> {
    ghost use Rattle.flow_demux.specs.Awaits.{AwaitsExpected};
    ghost use Rattle.flow_demux.specs.Texts.{MovesFlow};

    /// Moves the text that the taker made to the end of `to`. Returns `Err` if memory runs out; what was moved is then
    /// unspecified.
    #[inline(always)]
    pub(crate) fn move_text(&mut self, to: &mut String) -> Result<(), OutOfMemory>
        ensures media { self.new.media ≡ self.old.media }
        ensures awaits { AwaitsExpected F.FlowTaker.expects self.old → AwaitsExpected F.FlowTaker.expects self.new }
        ensures room { (count : ℕ) → F.FlowTaker.room count self.old.taker → F.FlowTaker.room count self.new.taker }
        ensures text { IfOk result (λ _. string_bytes to.new ≡ string_bytes to.old ++ F.text self.old.taker) }
        ensures moves { IfOk result (λ _. MovesFlow F.moves self.old self.new) }
    {
        self.taker.move_text(to)
    }
}

impl<F: FlowTaker> Taker for MediaFlow<F> {
    ghost use Rattle.pcap_reader.specs.Taken.{StopsAnyhow};
    ghost use Rattle.flow_demux.specs.Awaits.{AwaitsExpected};
    ghost use Rattle.flow_demux.specs.Takings.{TakesFlow, flow_more, flow_none};

    /// Memory ran out.
    type Stop = OutOfMemory;

    ghost takes = { λ old new items. TakesFlow F.takes old new items };

    ghost stops = { StopsAnyhow };

    ghost room = { λ number count x. AwaitsExpected F.expects x × F.room count x.taker };

    ghost none = { λ x. flow_none F.takes F.none x };

    ghost more = { λ x y z a b first second. flow_more F.takes F.more x y z a b first second };

    ghost ends = { λ _ _ _ _ _ _ _ _. tt };

    ghost halts = { λ _ _ _ _ _ _. tt };

    ghost less = { λ number few many x le room. (room.0, F.less few many x.taker le room.1) };

    #[inline(always)]
    fn take(&mut self, number: u64, at: u64, frame: &[u8]) -> Result<(), OutOfMemory> {
        self.take_record(number, at, frame)
    }
}
