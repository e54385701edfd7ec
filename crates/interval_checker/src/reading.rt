//! A flow that is read for the claims on it.

ghost use Rattle.std.specs.Prelude.{◌≡◌, ◌≤◌, ◌<◌, ◌+◌, ◌∷◌, [], ◌^◌, Some, ℕ, List};
ghost use Rattle.timing_base.specs.Captures.{IsStamp, Record};
ghost use Rattle.timing_base.specs.Judged.{judged};
ghost use Rattle.udp_rtp.specs.Flow.{flow, flow_packet};
ghost use Rattle.udp_rtp.specs.Frames.{datagram_of};
ghost use Rattle.interval_checker.specs.Asking.{IsAsked};
ghost use Rattle.interval_checker.specs.Checked.{Says};

use crate::asked::Asked;
use crate::claim::Claim;
use crate::numbers::Numbers;
use crate::walk::Walk;
use timing_base::{FailProof, FlowOptions, FlowPacket, Kind, Media, Shift, Unjudged};
use udp_rtp::{Datagram, read_rtp};

/// Flow of a media, as far as it has been read, with what is kept of it for the claims.
#[derive(Drop)]
pub struct Reading {
    media: Media,
    /// Shift of the flow's capture timestamps.
    shift: Shift,
    numbers: Numbers,
    walk: Walk,
    /// Reason why the flow isn't judged, once that is known.
    refused: Option<Unjudged>,
}

impl Reading {
    ghost use Rattle.interval_checker.specs.Readings.{HasRead, ReadsOn, asked_by, count_taken, media_of, options_of};

    /// Returns the reading of this media's flow, before the first packet record. The packets are numbered and timed as
    /// the options say.
    pub fn new(media: &Media, options: FlowOptions, asked: Asked) -> Reading
        ensures media { media_of result ≡ media.now }
        ensures options { options_of result ≡ options }
        ensures asked { asked_by result ≡ asked }
        ensures none { count_taken result ≡ 0 }
        ensures read { HasRead result [] }
    {
        Reading {
            media: *media,
            shift: options.shift,
            numbers: Numbers::new(options.seq16),
            walk: Walk::new(asked),
            refused: None,
        }
    }

    /// Takes the packet of a packet record of the flow.
    #[inline]
    fn feed(&mut self, packet: FlowPacket)
        requires stamp { IsStamp packet.at }
        requires few { count_taken self.old < 2 ^ 41 }
        ensures few { count_taken self.new ≤ count_taken self.old + 1 }
        ensures reads { (r : Record) → flow_packet (media_of self.old) r ≡ Some packet
            → ReadsOn self.old self.new (r ∷ []) }
    {
        match self.refused {
            Some(_) => {}
            None => {
                let packet = self.numbers.number(packet);
                self.refused = self.walk.feed(self.media.pt, packet).err();
            }
        }
    }

    /// Takes the datagram of a packet record if it goes to this media. `rec` counts from 1, and `at` is in nanoseconds.
    #[inline]
    pub fn take(&mut self, rec: u64, at: u64, datagram: &Datagram<'_>)
        requires stamp { IsStamp at }
        requires few { count_taken self.old < 2 ^ 41 }
        ensures few { count_taken self.new ≤ count_taken self.old + 1 }
        ensures reads { (bytes : List ℕ) → datagram_of bytes ≡ Some datagram.now
            → ReadsOn self.old self.new (record { number = rec; stamp = at; bytes = bytes } ∷ []) }
    {
        if datagram.target == self.media.target() {
            self.feed(FlowPacket {
                rec,
                at,
                rtp: read_rtp(datagram.payload),
            });
        }
    }

    /// Returns the answer on a claimed violation by a run of the flow, for a sender type. The reading must have been
    /// made with what the claim asks for. Runs count from 0; a flow without a gap has only run 0.
    ///
    /// - `Ok(true)`: the run is judged, and its packets confirm the violation. The interval is one of judged packets,
    ///   the limit is that of the type, and the count is that of the interval and violates the limit.
    /// - `Ok(false)`: the flow is judged, but there is no such run, or the run is judged and doesn't confirm the
    ///   violation.
    /// - `Err`: the reason why the flow isn't judged, or the run has no complete frame or field.
    pub fn answer(&self, kind: Kind, run: u32, proof: &FailProof) -> Result<bool, Unjudged>
        ensures { (items : List Record) → HasRead self.now items
            → IsAsked (asked_by self.now) run proof.now
            → Says (media_of self.now) kind proof.now run
            (judged (flow items (media_of self.now)) (media_of self.now).pt (options_of self.now)) result }
    {
        if let Some(why) = self.refused {
            return Err(why);
        }
        let claim = Claim {
            media: self.media,
            kind,
            run,
            proof: *proof,
            shift: self.shift,
        };
        self.walk.finish(&claim)
    }
}
