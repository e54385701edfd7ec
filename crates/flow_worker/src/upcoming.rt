//! The packets that are expected next in a file.

ghost use Rattle.std.specs.Prelude.{◌≡◌, ◌<◌, ◌^◌, All, IfSome, Some, List, length};
ghost use Rattle.timing_base.specs.Captures.{IsStamp};
ghost use Rattle.timing_base.specs.Media.{Media as MediaValue};
ghost use Rattle.timing_base.specs.declared.packet.Rtp.{Rtp as RtpValue};
ghost use Rattle.timing_base.specs.declared.target.Target.{Target as TargetValue};
ghost use Rattle.udp_rtp.specs.Awaited.{awaited};
ghost use Rattle.flow_worker.specs.Opening.{packet_from};
ghost use Rattle.flow_worker.specs.Targeted.{media_to};

use ruled_intake::Packet;
use timing_base::{FlowPacket, PacketFault, Rtp, Target};
use udp_rtp::Awaited;

/// Packet that is expected next of one media.
#[derive(Clone, Copy)]
pub struct Expected {
    /// Next packet of the media, if it continues its frame or field, as most do.
    awaited: Awaited,
    /// Number of the media, counted from 0.
    media: u32,
    /// Position of the media with the packet that came after the last one of this media.
    after: u32,
}

impl Expected {
    ghost use Rattle.flow_worker.specs.Expecting.{IsExpected};

    /// Returns a value that expects nothing. After it the media at position `place` is tried.
    fn nothing(place: u32) -> Expected
        ensures expected { (media : List MediaValue) → IsExpected media result }
        ensures after { result.after ≡ place }
    {
        Expected {
            awaited: Awaited::nothing(),
            media: 0,
            after: place,
        }
    }
}

/// Returns what is awaited after a packet with this target: nothing after the marker, nor after a packet that couldn't
/// be parsed.
fn after(target: Target, rtp: Result<Rtp, PacketFault>) -> Awaited
    ensures { (t : TargetValue) (p : RtpValue) → awaited result ≡ Some (t, p) → t ≡ target }
{
    match rtp {
        Ok(rtp) => Awaited::after(target, rtp),
        Err(_) => Awaited::nothing(),
    }
}

/// Packets that are expected of the media of a session, each at the position of its media, and the media with the next
/// turn.
#[derive(Drop)]
pub struct Upcoming {
    /// Position of the media of the last packet.
    last: u32,
    each: [Expected; 64],
    ghost here: { last < 64 },
    ghost all: { length each ≡ 64 },
    ghost within: { All (λ e. e.after < 64) each },
}

impl Upcoming {
    ghost use Rattle.flow_worker.specs.Expecting.{AreExpected};

    /// Returns the state before the first packet of a file.
    pub fn new() -> Upcoming
        ensures { (media : List MediaValue) → AreExpected media result }
    {
        Upcoming {
            last: 0,
            each: [Expected::nothing(0); 64],
        }
    }

    /// Returns the packet of a record if its frame carries what is expected of the media with the next turn, else
    /// `None`. The frame is only compared and not parsed. `number` counts from 1, and `at` is in nanoseconds.
    #[inline(always)]
    pub fn take(&mut self, number: u64, at: u64, frame: &[u8]) -> Option<Packet>
        requires number { number < 2 ^ 37 }
        requires at { IsStamp at }
        ensures expected { (media : List MediaValue) → AreExpected media self.old → AreExpected media self.new }
        ensures packet { (media : List MediaValue) → AreExpected media self.old → IfSome result (λ packet.
            packet_from 0 media (record { number = number; stamp = at; bytes = frame.now }) ≡ Some packet) }
        ensures media { (media : List MediaValue) → AreExpected media self.old
            → IfSome result (λ packet. packet.media < length media) }
    {
        let place = self.each[self.last as usize].after;
        let mut expected = self.each[place as usize];
        if !expected.awaited.is_in(frame) {
            return None;
        }
        let packet = FlowPacket {
            rec: number,
            at,
            rtp: Ok(expected.awaited.packet()),
        };
        expected.awaited.go_on();
        self.each[place as usize] = expected;
        self.last = place;
        Some(Packet::new(expected.media, packet))
    }

    /// Notes that the media with this number came after the media of the last packet.
    fn follow(&mut self, media: u32)
        requires { media < 64 }
        ensures expected { (all : List MediaValue) → AreExpected all self.old → AreExpected all self.new }
    {
        self.each[self.last as usize].after = media;
        self.last = media;
    }

    /// Notes that a packet of the media with this number came. It must be the first media with the target.
    pub fn learn(&mut self, media: u32, target: Target, rtp: Result<Rtp, PacketFault>)
        requires { media < 64 }
        ensures expected { (all : List MediaValue) → media_to target 0 all ≡ Some media → AreExpected all self.old
            → AreExpected all self.new }
    {
        self.follow(media);
        self.each[media as usize] = Expected {
            awaited: after(target, rtp),
            media,
            after: self.each[media as usize].after,
        };
    }
}
