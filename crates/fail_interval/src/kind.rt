//! The state of the judgement of one sender type.

ghost use Rattle.std.specs.Prelude.{◌≡◌, ◌≤◌, ◌<◌, ◌+◌, ◌^◌, ◌++◌, ◌∷◌, [], ℕ, List, None};

use drain_bucket::Bucket;
use read_schedule::Due;
use sender_params::Params;
use timing_base::{Broken, FailProof, Kind, KindVerdict};
use vrx_buffer::{Vrx, VrxFault};

/// The verdict so far on one sender type for the judged packets of one run.
#[derive(Clone, Copy)]
pub struct KindMeter {
    /// Virtual receiver buffer with the reads and the limit of the type.
    pub vrx: Vrx,
    /// Verdict on the packets so far.
    pub verdict: KindVerdict,
    /// C_MAX of the type, in packets.
    pub c_max: u64,
}

impl KindMeter {
    ghost use Rattle.fail_interval.specs.Kinds.{ComesNext, StandsFor};

    /// Returns the meter of this sender type before the first packet.
    pub fn new(params: &Params, kind: Kind) -> KindMeter
        ensures kind { result.vrx.kind ≡ kind }
        ensures stands { StandsFor params.now result [] }
    {
        KindMeter {
            vrx: Vrx::new(kind),
            verdict: KindVerdict::Pass,
            c_max: params.c_max(kind),
        }
    }

    /// Takes the next judged packet. `bucket` is the bucket just after it, and `due` the number of reads due at its
    /// instant in the schedule of this sender type.
    #[inline(always)]
    pub fn feed(&mut self, params: &Params, bucket: &Bucket, due: Due)
        requires some { 1 ≤ bucket.now.seen }
        requires few { bucket.now.seen ≤ 2 ^ 41 }
        ensures kind { self.new.vrx.kind ≡ self.old.vrx.kind }
        ensures stands { (stamps : List ℕ) (at : ℕ) → StandsFor params.now self.old stamps
            → ComesNext params.now bucket.now due self.old.vrx.kind stamps at
            → StandsFor params.now self.new (stamps ++ at ∷ []) }
    {
        let packet = bucket.seen - 1;
        if self.vrx.is_quiet_at(packet, due) {
            if bucket.count > self.c_max {
                self.overfill(params, bucket, packet);
            }
            return;
        }
        if let KindVerdict::Pass = self.verdict {
            return self.feed_passing(params, bucket, due);
        }
        self.vrx.pass_due(params, packet, due);
    }

    /// Returns the largest count of the bucket, in packets, that leaves the verdict unchanged.
    pub fn brim(&self) -> u64
        ensures { self.now.verdict ≡ Pass → result ≤ self.now.c_max }
    {
        match self.verdict {
            KindVerdict::Pass => self.c_max,
            KindVerdict::Fail(_) => u64::MAX,
        }
    }

    /// Updates the verdict if the bucket holds more than C_MAX after this packet. The buffer has already taken the
    /// packet.
    #[inline(always)]
    fn overfill(&mut self, params: &Params, bucket: &Bucket, packet: u64)
        requires { packet < 2 ^ 41 }
        ensures vrx { self.new.vrx ≡ self.old.vrx }
        ensures c_max { self.new.c_max ≡ self.old.c_max }
        ensures verdict { (stamps : List ℕ) → IsAfter params.now bucket.now stamps packet
            → (self.old.verdict ≡ Pass
            → None ≡ fault_at params.now.media params.now.n stamps self.old.vrx.kind packet)
            → self.new.verdict ≡ verdict_next self.old.verdict
            (early_at params.now.media params.now.n stamps self.old.vrx.kind packet) }
    {
        if let KindVerdict::Pass = self.verdict {
            self.verdict = verdict_at(params, self.vrx.kind, bucket, None, packet);
        }
    }

    /// Takes the next judged packet while the verdict is a pass.
    #[inline(never)]
    fn feed_passing(&mut self, params: &Params, bucket: &Bucket, due: Due)
        requires some { 1 ≤ bucket.now.seen }
        requires few { bucket.now.seen ≤ 2 ^ 41 }
        requires passes { self.old.verdict ≡ Pass }
        ensures kind { self.new.vrx.kind ≡ self.old.vrx.kind }
        ensures stands { (stamps : List ℕ) (at : ℕ) → StandsFor params.now self.old stamps
            → ComesNext params.now bucket.now due self.old.vrx.kind stamps at
            → StandsFor params.now self.new (stamps ++ at ∷ []) }
    {
        let kind = self.vrx.kind;
        let packet = bucket.seen - 1;
        let fault = self.vrx.feed_due(params, packet, due);
        if bucket.count > self.c_max || fault.is_some() {
            self.verdict = verdict_at(params, kind, bucket, fault, packet);
        }
    }
}

ghost use Rattle.drain_bucket.specs.Stands.{IsAfter};
ghost use Rattle.vrx_buffer.specs.Faults.{fault_at};
ghost use Rattle.fail_interval.specs.Early.{early_at};
ghost use Rattle.fail_interval.specs.Fails.{verdict_next};
ghost use Rattle.timing_base.specs.declared.row.KindVerdict.TheVariants.{Pass};

/// Returns the verdict if no packet before the last one violates a model. If the last packet violates both models, the
/// violation is the bucket's; if it violates none, the verdict is a pass.
#[cold]
#[inline(never)]
fn verdict_at(
    params: &Params,
    kind: Kind,
    bucket: &Bucket,
    fault: Option<VrxFault>,
    packet: u64,
) -> KindVerdict
    requires { packet < 2 ^ 41 }
    ensures { (stamps : List ℕ) → IsAfter params.now bucket.now stamps packet
        → fault ≡ fault_at params.now.media params.now.n stamps kind packet
        → result ≡ verdict_next Pass (early_at params.now.media params.now.n stamps kind packet) }
{
    match fail_at(params, kind, bucket, fault, packet) {
        Some(proof) => KindVerdict::Fail(proof),
        None => KindVerdict::Pass,
    }
}

/// Returns the interval that shows how the last packet violates a model: the bucket if it violates both.
fn fail_at(
    params: &Params,
    kind: Kind,
    bucket: &Bucket,
    fault: Option<VrxFault>,
    packet: u64,
) -> Option<FailProof>
    requires { packet < 2 ^ 41 }
    ensures { (stamps : List ℕ) → IsAfter params.now bucket.now stamps packet
        → fault ≡ fault_at params.now.media params.now.n stamps kind packet
        → result ≡ early_at params.now.media params.now.n stamps kind packet }
{
    let c_max = params.c_max(kind);
    if bucket.count > c_max {
        return Some(FailProof {
            model: Broken::Bucket,
            from: bucket.begin,
            to: packet,
            count: bucket.count,
            limit: c_max,
        });
    }
    match fault? {
        VrxFault::Over { held, .. } => Some(FailProof {
            model: Broken::Over,
            from: 0,
            to: packet,
            count: held,
            limit: params.vrx_full(kind),
        }),
        // All packets before this one came by their own reads, and so by this one's read. This packet is the first that
        // didn't.
        VrxFault::Empty { .. } => Some(FailProof {
            model: Broken::Empty,
            from: packet,
            to: packet,
            count: packet,
            limit: packet + 1,
        }),
    }
}
