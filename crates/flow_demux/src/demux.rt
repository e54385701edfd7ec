//! The flows of all media of a session.

ghost use Rattle.std.specs.Prelude.{◌≡◌, ◌≤◌, ◌<◌, ◌+◌, ◌∷◌, [], ℕ, All, IfOk, IfSome, Ok, ◌++◌, length, string_bytes, true, false};
ghost use Rattle.std.specs.Option.{ForSome};
ghost use Rattle.timing_base.specs.Captures.{IsStamp};
ghost use Rattle.timing_base.specs.Targets.{HaveOwnTargets, target_of};
ghost use Rattle.flow_demux.specs.Awaits.{AwaitsExpected};
ghost use Rattle.flow_demux.specs.Orders.{IsOrderOf};
ghost use Rattle.flow_demux.specs.Takings.{media_in};

use crate::media_flow::MediaFlow;
use crate::order::Order;
use crate::taker::FlowTaker;
use crate::writer::FlowWriter;
use pcap_reader::Taker;
use std::alloc::{AllocError as OutOfMemory, Global};
use timing_base::Target;
use udp_rtp::datagram;

/// Returns whether one of the flows has this target.
fn go_to<F: Drop>(flows: &[MediaFlow<F>], target: Target) -> bool
    ensures { result ≡ false → All (λ f. target_of f.media ≡ target → ⊥) flows.now }
{
    for flow in flows {
        if flow.media.target() == target {
            return true;
        }
    }
    false
}

/// Returns whether no two of the flows have the same target.
fn have_own_targets<F: Drop>(flows: &[MediaFlow<F>]) -> bool
    ensures { result ≡ true → HaveOwnTargets (media_in flows.now) }
{
    for (place, flow) in flows.iter().enumerate() {
        if go_to(&flows[..place], flow.media.target()) {
            return false;
        }
    }
    true
}

/// Returns an order for the flows if each packet belongs to at most one of them. Returns `Err` if memory runs out.
fn order_of<F: Drop>(alloc: Global, flows: &[MediaFlow<F>]) -> Result<Option<Order>, OutOfMemory>
    ensures { IfOk result (λ order. ForSome order (λ o. IsOrderOf o flows.now)) }
{
    if flows.is_empty() || !have_own_targets(flows) {
        return Ok(None);
    }
    Ok(Some(Order::new(alloc, flows.len())?))
}

/// The flows of a session's media, each with its taker, over the packet records of one capture or of joined captures.
#[derive(Drop)]
pub struct Demux<F: Drop> {
    /// One flow for each media, in the order of the media.
    flows: Vec<MediaFlow<F>>,
    /// Order in which packets are expected; `None` if there is no flow, or if two media have the same target.
    order: Option<Order>,
}

impl<F: FlowTaker> Demux<F> {
    ghost use Rattle.flow_demux.specs.Rooms.{HasRoom, IsReady, flows_of};
    ghost use Rattle.flow_demux.specs.Takings.{TakesAll};

    /// Returns a demux of these flows, before the first packet record. Returns `Err` if memory runs out.
    pub fn new(alloc: Global, flows: Vec<MediaFlow<F>>) -> Result<Demux<F>, OutOfMemory>
        requires awaits { All (AwaitsExpected F.expects) flows.items }
        ensures flows { IfOk result (λ demux. flows_of demux ≡ flows.items) }
        ensures ready { IfOk result (IsReady F.expects) }
    {
        let order = order_of(alloc, flows.as_slice())?;
        Ok(Demux { flows, order })
    }

    /// Returns the flows in the order in which [`Demux::new`] got them.
    pub fn into_flows(self) -> Vec<MediaFlow<F>>
        ensures { result.items ≡ flows_of self }
    {
        let Demux { flows, .. } = self;
        flows
    }

    /// Takes a packet record: its number, counted from 1, its capture timestamp in nanoseconds since 1970-01-01
    /// 00:00:00, and the captured bytes of its Ethernet frame. Its packet goes to the flow of each media with the
    /// target of the frame. Returns `Err` if memory runs out; what was taken is then unspecified.
    #[inline(always)]
    pub fn take(&mut self, number: u64, at: u64, frame: &[u8]) -> Result<(), OutOfMemory>
        requires stamp { IsStamp at }
        requires short { length frame.now ≤ 262144 }
        requires room { HasRoom F.room F.expects 1 self.old }
        ensures ready { IsReady F.expects self.new }
        ensures room { (count : ℕ) → IfOk result (λ _. HasRoom F.room F.expects (count + 1) self.old
            → HasRoom F.room F.expects count self.new) }
        ensures takes { IfOk result (λ _. TakesAll F.takes (flows_of self.old) (flows_of self.new)
            (record { number = number; stamp = at; bytes = frame.now } ∷ [])) }
    {
        if self.take_ahead(number, at, frame)? {
            return Ok(());
        }
        self.take_expected(number, at, frame)
    }

    /// Takes a packet record if its frame carries the packet that is expected of the flow with the next turn, and that
    /// flow's taker accepts it by [`FlowTaker::take_next`]. Returns whether it was taken; if not, nothing changes.
    /// Returns `Err` if memory runs out.
    #[inline(always)]
    fn take_ahead(&mut self, number: u64, at: u64, frame: &[u8]) -> Result<bool, OutOfMemory>
        requires stamp { IsStamp at }
        requires short { length frame.now ≤ 262144 }
        requires room { HasRoom F.room F.expects 1 self.old }
        ensures ready { IsReady F.expects self.new }
        ensures other { result ≡ Ok false → flows_of self.new ≡ flows_of self.old }
        ensures room { (count : ℕ) → result ≡ Ok true → HasRoom F.room F.expects (count + 1) self.old
            → HasRoom F.room F.expects count self.new }
        ensures takes { result ≡ Ok true → TakesAll F.takes (flows_of self.old) (flows_of self.new)
            (record { number = number; stamp = at; bytes = frame.now } ∷ []) }
    {
        // `take_next` is called at one place for any number of media. With two calls this function would be too large
        // to be inlined.
        let Some(ahead) = self.ahead() else {
            return Ok(false);
        };
        if !self.flows[ahead].take_next(number, at, frame)? {
            return Ok(false);
        }
        self.pass(ahead);
        Ok(true)
    }

    /// Notes that the flow with the next turn took its packet. With one media there is nothing to note: it is always
    /// its turn.
    #[inline(always)]
    fn pass(&mut self, ahead: usize)
        requires ready { IsReady F.expects self.old }
        requires within { ahead < length (flows_of self.old) }
        ensures flows { flows_of self.new ≡ flows_of self.old }
        ensures ready { IsReady F.expects self.new }
    {
        if self.flows.len() > 1 {
            Order::pass_in(&mut self.order, ahead);
        }
    }

    /// Returns the position of the flow with the next turn, counted from 0, or `None` if no order is kept. With one
    /// media it is always its turn.
    #[inline(always)]
    fn ahead(&self) -> Option<usize>
        requires { IsReady F.expects self.now }
        ensures within { IfSome result (λ ahead. ahead < length (flows_of self.now)) }
        ensures own { IfSome result (λ _. HaveOwnTargets (media_in (flows_of self.now))) }
    {
        if self.flows.len() == 1 {
            return Some(0);
        }
        let Some(order) = &self.order else {
            return None;
        };
        Some(order.ahead())
    }

    /// Takes a packet record as [`Demux::take`] does, whatever its frame. The expected packet isn't parsed, even if the
    /// flow's taker didn't accept it by [`FlowTaker::take_next`].
    #[cold]
    #[inline(never)]
    fn take_expected(&mut self, number: u64, at: u64, frame: &[u8]) -> Result<(), OutOfMemory>
        requires stamp { IsStamp at }
        requires short { length frame.now ≤ 262144 }
        requires room { HasRoom F.room F.expects 1 self.old }
        ensures ready { IsReady F.expects self.new }
        ensures room { (count : ℕ) → IfOk result (λ _. HasRoom F.room F.expects (count + 1) self.old
            → HasRoom F.room F.expects count self.new) }
        ensures takes { IfOk result (λ _. TakesAll F.takes (flows_of self.old) (flows_of self.new)
            (record { number = number; stamp = at; bytes = frame.now } ∷ [])) }
    {
        if let Some(order) = &self.order {
            let ahead = order.ahead();
            if let Some(packet) = self.flows[ahead].packet_in(number, at, frame) {
                Order::learn_in(&mut self.order, Some(ahead));
                return self.flows[ahead].take_packet(&packet, frame);
            }
        }
        self.take_other(number, at, frame)
    }

    /// Takes a packet record as [`Demux::take`] does, whatever its frame, and updates the order of the media.
    #[cold]
    #[inline(never)]
    fn take_other(&mut self, number: u64, at: u64, frame: &[u8]) -> Result<(), OutOfMemory>
        requires stamp { IsStamp at }
        requires short { length frame.now ≤ 262144 }
        requires room { HasRoom F.room F.expects 1 self.old }
        ensures ready { IsReady F.expects self.new }
        ensures room { (count : ℕ) → IfOk result (λ _. HasRoom F.room F.expects (count + 1) self.old
            → HasRoom F.room F.expects count self.new) }
        ensures takes { IfOk result (λ _. TakesAll F.takes (flows_of self.old) (flows_of self.new)
            (record { number = number; stamp = at; bytes = frame.now } ∷ [])) }
    {
        let Some(datagram) = datagram(frame) else {
            return Ok(());
        };
        let mut came = None;
        let mut place = 0;
        for flow in self.flows.iter_mut() {
            if flow.take_datagram(number, at, frame, &datagram)? {
                came = Some(place);
            }
            place += 1;
        }
        Order::learn_in(&mut self.order, came);
        Ok(())
    }
}

impl<F: FlowWriter> Demux<F> {
    ghost use Rattle.flow_demux.specs.Rooms.{HasRoom, IsReady, flows_of};
    ghost use Rattle.flow_demux.specs.Texts.{MovesAll, texts_of};

    /// Moves the text that the takers made to the end of `to`, in the order of the media. Returns `Err` if memory runs
    /// out; what was moved is then unspecified.
    #[inline(always)]
    pub fn move_texts(&mut self, to: &mut String) -> Result<(), OutOfMemory>
        requires ready { IsReady F.FlowTaker.expects self.old }
        ensures ready { IsReady F.FlowTaker.expects self.new }
        ensures room { (count : ℕ) → HasRoom F.FlowTaker.room F.FlowTaker.expects count self.old
            → HasRoom F.FlowTaker.room F.FlowTaker.expects count self.new }
        ensures text { IfOk result (λ _. string_bytes to.new
            ≡ string_bytes to.old ++ texts_of F.text (flows_of self.old)) }
        ensures moves { IfOk result (λ _. MovesAll F.moves (flows_of self.old) (flows_of self.new)) }
    {
        for flow in self.flows.iter_mut() {
            flow.move_text(to)?;
        }
        Ok(())
    }
}

impl<F: FlowTaker> Taker for Demux<F> {
    ghost use Rattle.pcap_reader.specs.Taken.{StopsAnyhow};
    ghost use Rattle.flow_demux.specs.Rooms.{HasRoom, flows_of, room_less};
    ghost use Rattle.flow_demux.specs.Takings.{TakesAll, all_more, all_none};

    /// Memory ran out.
    type Stop = OutOfMemory;

    ghost takes = { λ old new items. TakesAll F.takes (flows_of old) (flows_of new) items };

    ghost stops = { StopsAnyhow };

    ghost room = { λ number count x. HasRoom F.room F.expects count x };

    ghost none = { λ x. all_none F.takes F.none (flows_of x) };

    ghost more = { λ x y z a b first second.
        all_more F.takes F.more (flows_of x) (flows_of y) (flows_of z) a b first second };

    ghost ends = { λ _ _ _ _ _ _ _ _. tt };

    ghost halts = { λ _ _ _ _ _ _. tt };

    ghost less = { λ number few many x le room. room_less F.room F.expects F.less few many x le room };

    #[inline(always)]
    fn take(&mut self, number: u64, at: u64, frame: &[u8]) -> Result<(), OutOfMemory> {
        Demux::take(self, number, at, frame)
    }
}
