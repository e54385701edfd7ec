//! The trait of what takes the packets of a flow.

ghost use Rattle.std.specs.Prelude.{◌≡◌, ◌≤◌, ◌+◌, ◌++◌, ◌∷◌, [], ℕ, List, Option, None, Some, Ok, IfOk, IsOkAnd, length, true, false};
ghost use Rattle.timing_base.specs.Captures.{IsStamp, Record};
ghost use Rattle.timing_base.specs.Media.{Media as MediaValue};
ghost use Rattle.timing_base.specs.declared.packet.Rtp.{Rtp as RtpValue};
ghost use Rattle.frame_group.specs.Expected.{after};
ghost use Rattle.udp_rtp.specs.Flow.{flow_packet};
ghost use Rattle.flow_demux.specs.Readings.{IsReading};

use std::alloc::AllocError as OutOfMemory;
use timing_base::{FlowPacket, Rtp};

/// A taker of the packets of a flow, which come one by one and in order.
pub trait FlowTaker: Drop {
    /// The taker changed from the first state to the second by the packets of this media's flow in these records, and
    /// by nothing else.
    ghost takes: { MediaValue → Self → Self → List Record → Type 0 };

    /// The taker has room for `count` more packets.
    ghost room: { (count : ℕ) → Self → Type 0 };

    /// The next packet of the frame or field, as far as the taker's state determines it.
    ghost expects: { Self → Option RtpValue };

    /// Returns the packet that is expected next, which most often is the one that comes; `None` if the taker doesn't
    /// know it.
    fn expected(&self) -> Option<Rtp>
        ensures { result ≡ expects self.now };

    /// Takes the expected packet, and the Ethernet frame that carried it, if the taker has a short path for it. Returns
    /// whether it was taken; if not, nothing changes. Returns `Err` if memory runs out; what was taken is then
    /// unspecified.
    fn take_next(&mut self, packet: &FlowPacket, frame: &[u8]) -> Result<bool, OutOfMemory>
        requires stamp { IsStamp packet.now.at }
        requires reading { IsReading packet.now.rtp }
        requires short { length frame.now ≤ 262144 }
        requires room { room 1 self.old }
        requires expected { IsOkAnd packet.now.rtp (λ p. expects self.old ≡ Some p) }
        ensures other { result ≡ Ok false → self.new ≡ self.old }
        ensures next { result ≡ Ok true → expects self.new ≡ after (expects self.old) }
        ensures room { (count : ℕ) → result ≡ Ok true → room (count + 1) self.old → room count self.new }
        ensures takes { result ≡ Ok true → (m : MediaValue) (r : Record)
            → flow_packet m r ≡ Some packet.now → r.bytes ≡ frame.now
            → takes m self.old self.new (r ∷ []) };

    /// Takes the next packet, and the Ethernet frame that carried it. Returns `Err` if memory runs out; what was taken
    /// is then unspecified.
    fn take(&mut self, packet: &FlowPacket, frame: &[u8]) -> Result<(), OutOfMemory>
        requires stamp { IsStamp packet.now.at }
        requires reading { IsReading packet.now.rtp }
        requires short { length frame.now ≤ 262144 }
        requires room { room 1 self.old }
        ensures room { (count : ℕ) → IfOk result (λ _. room (count + 1) self.old → room count self.new) }
        ensures takes { IfOk result (λ _. (m : MediaValue) (r : Record)
            → flow_packet m r ≡ Some packet.now → r.bytes ≡ frame.now
            → takes m self.old self.new (r ∷ [])) };

    /// An empty list of records changes nothing.
    ghost none: { (m : MediaValue) (x : Self) → takes m x x [] };

    /// A record that is no packet of the flow changes nothing.
    ghost other: { (m : MediaValue) (x : Self) (r : Record) → flow_packet m r ≡ None
        → takes m x x (r ∷ []) };

    /// Records that are taken in two parts are taken as all of them are.
    ghost more: { (m : MediaValue) (x y z : Self) (a b : List Record) → takes m x y a
        → takes m y z b → takes m x z (a ++ b) };

    /// Room for many packets is room for fewer.
    ghost less: { (few many : ℕ) (x : Self) → few ≤ many → room many x → room few x };
}
