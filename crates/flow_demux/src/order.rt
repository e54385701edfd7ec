//! The order in which the packets of the media come.

ghost use Rattle.std.specs.Prelude.{◌≡◌, ◌≤◌, ◌<◌, ℕ, All, IfOk, is_some, length, slice_index, slice_set};
ghost use Rattle.std.specs.Option.{ForSome};

use std::alloc::{AllocError as OutOfMemory, Global};

/// The media of the last packet, and for each media the one that followed it the last time. Media count from 0.
#[derive(Drop)]
pub struct Order {
    /// Media of the last packet.
    last: usize,
    /// For each media, the media of the packet that came after its own packet the last time.
    next: Vec<usize>,
    ghost here: { last < length next.items },
    ghost within: { All (λ media. media < length next.items) next.items },
}

impl Order {
    ghost use Rattle.flow_demux.specs.Orders.{count};

    /// Returns the order for this number of media, before the first packet: each media is expected to follow itself.
    /// Returns `Err` if memory runs out.
    pub fn new(alloc: Global, media: usize) -> Result<Order, OutOfMemory>
        requires { 1 ≤ media }
        ensures { IfOk result (λ order. count order ≡ media) }
    {
        let mut next = Vec::new(alloc);
        for each in 0..media {
            next.push(each)?;
        }
        Ok(Order { last: 0, next })
    }

    /// Returns the media of the packet that is expected next.
    #[inline(always)]
    pub fn ahead(&self) -> usize
        ensures is { result ≡ slice_index self.now.next.items self.now.last }
        ensures within { result < count self.now }
    {
        self.next[self.last]
    }

    /// Notes that a packet of the expected media came.
    #[inline(always)]
    pub fn pass(&mut self, media: usize)
        requires { media < count self.old }
        ensures last { self.new.last ≡ media }
        ensures next { self.new.next ≡ self.old.next }
    {
        self.last = media;
    }

    /// Notes in the order, if there is one, that a packet of the expected media came.
    #[inline(always)]
    pub fn pass_in(order: &mut Option<Order>, media: usize)
        requires { ForSome order.old (λ o. media < count o) }
        ensures count { (n : ℕ) → ForSome order.old (λ o. count o ≡ n)
            → ForSome order.new (λ o. count o ≡ n) }
        ensures same { is_some order.new ≡ is_some order.old }
    {
        if let Some(order) = order {
            order.pass(media);
        }
    }

    /// Notes that a packet of this media came: from then on it is expected after a packet of the media before.
    pub fn learn(&mut self, media: usize)
        requires { media < count self.old }
        ensures last { self.new.last ≡ media }
        ensures next { self.new.next.items ≡ slice_set self.old.next.items self.old.last media }
        ensures count { count self.new ≡ count self.old }
    {
        self.next[self.last] = media;
        self.last = media;
    }

    /// Notes in the order, if there is one, that a packet of the media `came` came. Does nothing if `came` is `None`.
    pub fn learn_in(order: &mut Option<Order>, came: Option<usize>)
        requires { ForSome order.old (λ o. ForSome came (λ media. media < count o)) }
        ensures count { (n : ℕ) → ForSome order.old (λ o. count o ≡ n)
            → ForSome order.new (λ o. count o ≡ n) }
        ensures same { is_some order.new ≡ is_some order.old }
    {
        let Some(media) = came else {
            return;
        };
        if let Some(order) = order {
            order.learn(media);
        }
    }
}
