//! The packet numbers of two flows, and the packets kept for them.

ghost use Rattle.std.specs.Prelude.{◌≡◌, ◌≢◌, ◌<◌, ℕ, None, Some, false, true, length, IfOk, OnOk};
ghost use Rattle.path_skew.specs.Slots.{arrival_at};
ghost use Rattle.path_skew.specs.View.{IsSame, Meets, of_parts};
ghost use Rattle.path_skew.specs.Listed.{pages_of};

use crate::arrival::Arrival;
use crate::arrivals::{Arrivals, PLACES};
use crate::bits::{has, with};
use crate::directory::Directory;
use std::alloc::{AllocError as OutOfMemory, Global};

/// One of the two flows.
#[derive(Clone, Copy, Debug)]
pub enum Side {
    /// The first flow.
    First,
    /// The second flow.
    Second,
}

/// Result of looking up the packet number of a packet.
#[derive(Clone, Copy, Debug)]
pub enum Found {
    /// Its own flow had the number before.
    Again,
    /// Its own flow didn't have the number before. The value is the other flow's first packet with it, if any.
    Opens(Option<Arrival>),
}

/// 32 consecutive packet numbers.
#[derive(Drop)]
pub struct Page {
    /// Bits of the packet numbers that the first flow had, from the lowest number on.
    first: u32,
    /// Bits of the packet numbers that the second flow had, from the lowest number on.
    second: u32,
    /// First packets of the packet numbers, each at the position of its number. A packet counts only while exactly one
    /// of the flows had its number.
    arrivals: Arrivals,
}

/// Returns the other flow's packet at this position if that flow had the number; else keeps this packet there.
///
/// Returns `Err` if memory runs out.
#[inline(always)]
fn exchange(
    arrivals: &mut Arrivals,
    alloc: Global,
    had: bool,
    place: u32,
    arrival: Arrival,
) -> Result<Option<Arrival>, OutOfMemory>
    requires { place < 32 }
    ensures alone { IfOk result (λ found. had ≡ false
        → (found ≡ None) × (arrival_at arrivals.new place ≡ Some arrival)) }
    ensures both { IfOk result (λ found. had ≡ true → (x : Arrival)
        → arrival_at arrivals.old place ≡ Some x → found ≡ Some x) }
    ensures others { OnOk result ((i : ℕ) (x : Arrival) → i ≢ place
        → arrival_at arrivals.old i ≡ Some x → arrival_at arrivals.new i ≡ Some x) }
{
    if had {
        return Ok(arrivals.take(place));
    }
    arrivals.keep(alloc, place, arrival)?;
    Ok(None)
}

/// Takes a packet with the packet number at this position. `own` and `other` are the bits of its own flow and of the
/// other.
///
/// Returns `Err` if memory runs out.
#[inline(always)]
fn meet(
    own: &mut u32,
    other: u32,
    arrivals: &mut Arrivals,
    alloc: Global,
    place: u32,
    arrival: Arrival,
) -> Result<Found, OutOfMemory>
    requires { place < 32 }
    ensures meets { IfOk result (Meets (of_parts own.old other arrivals.old)
        (of_parts own.new other arrivals.new) place arrival) }
{
    if has(*own, place) {
        return Ok(Found::Again);
    }
    let found = exchange(arrivals, alloc, has(other, place), place, arrival)?;
    *own = with(*own, place);
    Ok(Found::Opens(found))
}

impl Page {
    ghost use Rattle.path_skew.specs.Kept.{page_view};

    /// Returns a page without packet numbers, and with these packets.
    fn new(arrivals: Arrivals) -> Page
        ensures { (side : Side) (place : ℕ) → (page_view side (Some result)).own place ≡ false }
    {
        Page {
            first: 0,
            second: 0,
            arrivals,
        }
    }

    /// Frees all kept packets if `found` is a match and both flows had the same numbers of the page.
    #[inline(always)]
    fn release(&mut self, found: Found)
        ensures same { (side : Side) → IsSame (page_view side (Some self.old)) (page_view side (Some self.new)) }
    {
        if let Found::Opens(Some(_)) = found {
            if self.first == self.second {
                self.arrivals = Arrivals::new();
            }
        }
    }

    /// Takes a packet of this flow with the packet number at this position.
    ///
    /// Returns `Err` if memory runs out.
    #[inline(always)]
    fn take(
        &mut self,
        alloc: Global,
        side: Side,
        place: u32,
        arrival: Arrival,
    ) -> Result<Found, OutOfMemory>
        requires { place < 32 }
        ensures meets { IfOk result (Meets (page_view side (Some self.old))
            (page_view side (Some self.new)) place arrival) }
    {
        match side {
            Side::First => meet(
                &mut self.first,
                self.second,
                &mut self.arrivals,
                alloc,
                place,
                arrival,
            ),
            Side::Second => meet(
                &mut self.second,
                self.first,
                &mut self.arrivals,
                alloc,
                place,
                arrival,
            ),
        }
    }

    /// Takes a packet of this flow with the packet number at this position, and frees the kept packets if no number
    /// then waits for the other flow.
    ///
    /// Returns `Err` if memory runs out.
    #[inline(always)]
    fn meet(
        &mut self,
        alloc: Global,
        side: Side,
        place: u32,
        arrival: Arrival,
    ) -> Result<Found, OutOfMemory>
        requires { place < 32 }
        ensures meets { IfOk result (Meets (page_view side (Some self.old))
            (page_view side (Some self.new)) place arrival) }
    {
        let found = self.take(alloc, side, place, arrival)?;
        self.release(found);
        Ok(found)
    }

    /// Returns whether each packet number of the page came in exactly one of the flows.
    fn is_waiting(&self) -> bool {
        self.first ^ self.second == u32::MAX
    }
}

/// Packet numbers of two flows, on pages.
#[derive(Drop)]
pub struct Pages {
    /// Positions of the pages, by page number: a packet number divided by the numbers per page.
    directory: Directory,
    /// Pages, in the order in which they were opened.
    pages: Vec<Page>,
    alloc: Global,
    ghost listed: { length (pages_of directory) ≡ length pages.items },
}

impl Pages {
    ghost use Rattle.path_skew.specs.Kept.{HasPage, view};

    /// Returns the pages of two flows without packets.
    pub fn new(alloc: Global) -> Pages
        ensures none { (side : Side) (number : ℕ) → (view side result).own number ≡ false }
    {
        Pages {
            directory: Directory::new(alloc),
            pages: Vec::new(alloc),
            alloc,
        }
    }

    /// Returns whether the page at this position is a neighbour of page number `page`.
    fn is_beside(&self, place: usize, page: u32) -> bool {
        self.directory.is_at(place, page.wrapping_sub(1))
            || self.directory.is_at(place, page.wrapping_add(1))
    }

    /// Returns whether a flow that goes on to page number `page` comes from the neighbour page at position `near`, and
    /// exactly one flow had each number of that.
    fn is_ahead(&self, near: usize, page: u32) -> bool {
        match self.pages.get(near) {
            Some(last) => last.is_waiting() && self.is_beside(near, page),
            None => false,
        }
    }

    /// Goes on from the page at position `near` to page number `page`, and returns its position. A page that is opened
    /// has room for packets at all positions if the flow is ahead of the other by all numbers of the page before.
    ///
    /// Returns `Err` if memory runs out.
    #[cold]
    #[inline(never)]
    fn turn(&mut self, near: usize, page: u32) -> Result<usize, OutOfMemory>
        ensures at { IfOk result (HasPage self.new page) }
        ensures same { OnOk result ((side : Side) → IsSame (view side self.old) (view side self.new)) }
    {
        let next = near.saturating_add(1);
        if self.directory.is_at(next, page) {
            return Ok(next);
        }
        self.pages.reserve(1)?;
        let arrivals = if self.is_ahead(near, page) {
            Arrivals::with_room(self.alloc)?
        } else {
            Arrivals::new()
        };
        let place = self.directory.enter(page)?;
        if place == self.pages.len() {
            self.pages.push(Page::new(arrivals))?;
        }
        Ok(place)
    }

    /// Goes to page number `page`, which is looked for first at position `near`, and sets `near` to its position.
    ///
    /// Returns `Err` if memory runs out.
    #[inline(always)]
    fn come_to(&mut self, near: &mut usize, page: u32) -> Result<(), OutOfMemory>
        ensures at { OnOk result (HasPage self.new page near.new) }
        ensures same { OnOk result ((side : Side) → IsSame (view side self.old) (view side self.new)) }
    {
        if !self.directory.is_at(*near, page) {
            *near = self.turn(*near, page)?;
        }
        Ok(())
    }

    /// Takes a packet of this flow with this packet number. The number's page is looked for first at position `near`,
    /// which is set to its position.
    ///
    /// Returns `Err` if memory runs out.
    #[inline(always)]
    pub fn meet(
        &mut self,
        near: &mut usize,
        side: Side,
        number: u32,
        arrival: Arrival,
    ) -> Result<Found, OutOfMemory>
        ensures meets { IfOk result (Meets (view side self.old) (view side self.new) number arrival) }
    {
        self.come_to(near, number / PLACES)?;
        let alloc = self.alloc;
        self.pages[*near].meet(alloc, side, number % PLACES, arrival)
    }
}
