//! The virtual receiver buffer.

ghost use Rattle.std.specs.Prelude.{◌≡◌, ◌<◌, ◌^◌, ◌++◌, ◌∷◌, [], ℕ, List, length, slice_index};
ghost use Rattle.std.specs.Prelude.{pos, negsuc, ◌≤◌, ◌+◌, ◌-◌, ◌↔◌, ◌≤ℤ◌, IsTrue, None, max, not, true, false};
ghost use Rattle.sender_params.specs.Limits.{gapped_of};
ghost use Rattle.sender_params.specs.Reads.{anchor_of};

use read_schedule::Due;
use sender_params::Params;
use timing_base::Kind;

/// Violation of the buffer's model by a packet. Packets count from 0.
#[derive(Clone, Copy, Debug, PartialEq, Eq)]
pub enum VrxFault {
    /// The buffer overflows: just after the packet it holds more than VRX_FULL packets.
    Over {
        /// Number of the packet.
        packet: u64,
        /// Number of packets in the buffer.
        held: u64,
    },
    /// The buffer underflows: the packet came after its own read.
    Empty {
        /// Number of the packet.
        packet: u64,
    },
}

/// State of the buffer between two packets of one flow.
#[derive(Clone, Copy, Debug, PartialEq, Eq)]
pub struct Vrx {
    /// Sender type, which sets the schedule of the reads and VRX_FULL.
    pub kind: Kind,
    /// Greatest occupancy just after any packet, in packets; 0 before the first.
    pub peak: u64,
    /// First violation.
    pub fault: Option<VrxFault>,
}

impl Vrx {
    ghost use Rattle.read_schedule.specs.Stands.{IsDueAt};
    ghost use Rattle.sender_params.specs.declared.params.Params.{Params};
    ghost use Rattle.vrx_buffer.specs.Faults.{BreaksNowhere, fault_at};
    ghost use Rattle.vrx_buffer.specs.Stands.{StandsFor, Takes};
    ghost use Rattle.vrx_buffer.specs.Taking.{IsWithin, Took, earlier, fault_by};

    /// Returns the empty buffer of a flow that is judged as one of this sender type.
    pub fn new(kind: Kind) -> Vrx
        ensures kind { result.kind ≡ kind }
        ensures stands { (params : _) → StandsFor params result [] }
    {
        Vrx {
            kind,
            peak: 0,
            fault: None,
        }
    }

    /// Puts in packet `packet`, counted from 0, and returns its violation of the model, if any. `due` is what is due at
    /// its instant in the schedule of this sender type. A packet and a read at the same instant both count (SMPTE ST
    /// 2110-21, virtual receiver buffer; this project's profile).
    ///
    /// The caller must pass the same `Params` and the same schedule at each call, and every packet in order: for others
    /// the result is not guaranteed.
    #[inline(always)]
    pub fn feed_due(&mut self, params: &Params, packet: u64, due: Due) -> Option<VrxFault>
        requires { packet < 2 ^ 41 }

        ensures kind { self.new.kind ≡ self.old.kind }

        // For any packets before, and any instant of this one.
        ensures fault { (stamps : List ℕ) (at : ℕ) → packet ≡ length stamps
            → StandsFor params.now self.old stamps
            → IsDueAt params.now.media params.now.n
            (anchor_of params.now.media (slice_index (stamps ++ at ∷ []) 0))
            (gapped_of self.old.kind) at due
            → result ≡ fault_at params.now.media params.now.n (stamps ++ at ∷ []) self.old.kind packet }
        ensures stands { Takes params.now self.old self.new packet due }
    {
        let late = comes_late(packet, due);
        self.take(params, packet, due.count, late)
    }

    /// Puts in a packet as [`Vrx::feed_due`] does, without returning its violation.
    #[inline(always)]
    pub fn pass_due(&mut self, params: &Params, packet: u64, due: Due)
        requires { packet < 2 ^ 41 }
        ensures kind { self.new.kind ≡ self.old.kind }
        ensures stands { Takes params.now self.old self.new packet due }
    {
        match self.fault {
            None => {
                self.feed_due(params, packet, due);
            }
            Some(_) => self.go_on(packet, due.count),
        }
    }

    /// Returns whether packet `packet`, counted from 0, comes before its own read and raises no peak. `due` is what is
    /// due at its instant in the schedule of this sender type. If the result is `true`, the state is already that after
    /// the packet. If it is `false`, one of the other calls has to put the packet in.
    #[inline(always)]
    pub fn is_quiet_at(&self, packet: u64, due: Due) -> bool
        // For any packets before, and any instant of this one: it has no fault if no packet before it violates the
        // model.
        ensures fault { (params : Params) (stamps : List ℕ) (at : ℕ) → packet ≡ length stamps
            → StandsFor params self.now stamps
            → IsDueAt params.media params.n
            (anchor_of params.media (slice_index (stamps ++ at ∷ []) 0))
            (gapped_of self.now.kind) at due
            → BreaksNowhere params.media params.n stamps self.now.kind
            → result ≡ true
            → fault_at params.media params.n (stamps ++ at ∷ []) self.now.kind packet ≡ None }
        ensures stands { (params : Params) (stamps : List ℕ) (at : ℕ) → packet ≡ length stamps
            → StandsFor params self.now stamps
            → IsDueAt params.media params.n
            (anchor_of params.media (slice_index (stamps ++ at ∷ []) 0))
            (gapped_of self.now.kind) at due
            → result ≡ true → StandsFor params self.now (stamps ++ at ∷ []) }
    {
        due.count <= packet && packet - due.count < self.peak
    }

    /// Puts in a packet after the first fault. `count` reads were due when it came.
    fn go_on(&mut self, packet: u64, count: u64)
        requires { packet < 2 ^ 41 }
        ensures kind { self.new.kind ≡ self.old.kind }
        ensures peak { self.new.peak ≡ max self.old.peak ((packet + 1) - count) }
        ensures fault { self.new.fault ≡ self.old.fault }
    {
        self.peak = self.peak.max((packet + 1).saturating_sub(count));
    }

    /// Puts in packet `packet`. `count` reads were due when it came, and `late` is whether it came after its own read.
    #[inline(always)]
    fn take(&mut self, params: &Params, packet: u64, count: u64, late: bool) -> Option<VrxFault>
        requires { packet < 2 ^ 41 }
        ensures kind { self.new.kind ≡ self.old.kind }
        ensures took { IsWithin params.now self.old
            → Took params.now self.old self.new packet count late result }
    {
        let held = (packet + 1).saturating_sub(count);
        if self.is_quiet(held, late) {
            return None;
        }
        self.note(params, packet, held, late)
    }

    /// Returns whether a packet raises no peak and has no fault, and no packet before it has one.
    #[inline(always)]
    fn is_quiet(&self, held: u64, late: bool) -> bool
        ensures { IsTrue result
            ↔ ((held ≤ self.now.peak) × (late ≡ false) × (self.now.fault ≡ None)) }
    {
        held <= self.peak && !late && self.fault.is_none()
    }

    /// Updates the peak and the first fault for a packet, and returns its violation.
    #[inline(never)]
    fn note(&mut self, params: &Params, packet: u64, held: u64, late: bool) -> Option<VrxFault>
        ensures kind { self.new.kind ≡ self.old.kind }
        ensures peak { self.new.peak ≡ max self.old.peak held }
        ensures fault { self.new.fault ≡ earlier self.old.fault result }
        ensures answer { result ≡ fault_by params.now self.old.kind packet held late }
    {
        let fault = if held > params.vrx_full(self.kind) {
            Some(VrxFault::Over { packet, held })
        } else if late {
            Some(VrxFault::Empty { packet })
        } else {
            None
        };
        self.peak = self.peak.max(held);
        self.fault = self.fault.or(fault);
        fault
    }
}

/// Returns whether packet `packet` comes after its own read. `due` is what is due at its instant.
#[inline(always)]
pub(crate) fn comes_late(packet: u64, due: Due) -> bool
    requires { packet < 2 ^ 41 }
    ensures last { due.count ≡ packet + 1 → result ≡ not due.on_time }
    ensures more { packet + 1 < due.count → result ≡ true }
    ensures fewer { due.count ≤ packet → result ≡ false }
{
    if due.count == packet + 1 {
        !due.on_time
    } else {
        due.count > packet
    }
}
