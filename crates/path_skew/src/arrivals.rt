//! The packets kept on a page.

ghost use Rattle.std.specs.Prelude.{◌≡◌, ◌≢◌, ◌≤◌, ◌<◌, [], ◌∷◌, ◌++◌, ℕ, Some, None, insert, length, slice_get, slice_set, OnErr, OnOk, IfOk};
ghost use Rattle.path_skew.specs.Items.{Leaves, items_in, ones_below, places_in};

use crate::arrival::Arrival;
use crate::bits::{has, ones_below, with, without};
use std::alloc::{AllocError as OutOfMemory, Global};

/// Number of positions on a page.
pub const PLACES: u32 = 32;

/// Packets in the order of their positions, with a bit for each position that has one.
#[derive(Drop)]
enum Slots {
    /// No packet.
    Empty,
    /// One packet, which takes no memory of its own. The bits come first.
    One(u32, Arrival),
    /// Packets in a vector of their own, or none with room for some. The bits come first.
    Many(u32, Vec<Arrival>),
}

impl Slots {
    /// Returns a bit for each position that has a packet.
    #[inline(always)]
    fn places(&self) -> u32
        ensures { result ≡ places_in self.now }
    {
        match self {
            Slots::Empty => 0,
            Slots::One(places, _) => *places,
            Slots::Many(places, _) => *places,
        }
    }

    /// Appends a packet behind all others. `after` are the bits of the positions after it.
    ///
    /// Returns `Err` if memory runs out; nothing changes then.
    #[inline(always)]
    fn push(&mut self, alloc: Global, arrival: Arrival, after: u32) -> Result<(), OutOfMemory>
        ensures items { OnOk result (items_in self.new ≡ items_in self.old ++ arrival ∷ []) }
        ensures places { OnOk result (places_in self.new ≡ after) }
        ensures same_items { OnErr result (items_in self.new ≡ items_in self.old) }
        ensures same_places { OnErr result (places_in self.new ≡ places_in self.old) }
    {
        match self {
            Slots::Empty => *self = Slots::One(after, arrival),
            Slots::One(_, first) => {
                let items = two(alloc, *first, 1, arrival)?;
                *self = Slots::Many(after, items);
            }
            Slots::Many(places, items) => {
                items.push(arrival)?;
                *places = after;
            }
        }
        Ok(())
    }

    /// Inserts a packet at this index. `after` are the bits of the positions after it.
    ///
    /// Returns `Err` if memory runs out; nothing changes then.
    #[cold]
    #[inline(never)]
    fn insert(
        &mut self,
        alloc: Global,
        index: usize,
        arrival: Arrival,
        after: u32,
    ) -> Result<(), OutOfMemory>
        requires { index ≤ length (items_in self.old) }
        ensures items { OnOk result (items_in self.new ≡ insert (items_in self.old) index arrival) }
        ensures places { OnOk result (places_in self.new ≡ after) }
        ensures same_items { OnErr result (items_in self.new ≡ items_in self.old) }
        ensures same_places { OnErr result (places_in self.new ≡ places_in self.old) }
    {
        match self {
            Slots::Empty => *self = Slots::One(after, arrival),
            Slots::One(_, first) => {
                let items = two(alloc, *first, index, arrival)?;
                *self = Slots::Many(after, items);
            }
            Slots::Many(places, items) => {
                items.insert(index, arrival)?;
                *places = after;
            }
        }
        Ok(())
    }

    /// Replaces the packet at this index.
    #[cold]
    #[inline(never)]
    fn replace(&mut self, index: usize, arrival: Arrival)
        requires { index < length (items_in self.old) }
        ensures items { items_in self.new ≡ slice_set (items_in self.old) index arrival }
        ensures places { places_in self.new ≡ places_in self.old }
    {
        match self {
            Slots::Empty => unreachable!(),
            Slots::One(_, only) => *only = arrival,
            Slots::Many(_, items) => items[index] = arrival,
        }
    }

    /// Returns the packet at this index. If it is the last, it is removed, and `rest` are the bits of the positions
    /// after that. If others follow it, it stays, so that none has to move.
    #[inline(always)]
    fn take(&mut self, index: usize, rest: u32) -> Arrival
        requires { index < length (items_in self.old) }
        ensures value { slice_get (items_in self.old) index ≡ Some result }
        ensures left { Leaves self.old self.new index rest }
    {
        match self {
            Slots::Empty => unreachable!(),
            Slots::One(_, only) => {
                let arrival = *only;
                *self = Slots::Empty;
                arrival
            }
            Slots::Many(places, items) => {
                let arrival = items[index];
                if items.len() == 1 {
                    *self = Slots::Empty;
                } else if index + 1 == items.len() {
                    items.truncate(index);
                    *places = rest;
                }
                arrival
            }
        }
    }
}

/// Returns a vector of a packet and another at this index beside it.
///
/// Returns `Err` if memory runs out.
#[cold]
#[inline(never)]
fn two(
    alloc: Global,
    first: Arrival,
    index: usize,
    arrival: Arrival,
) -> Result<Vec<Arrival>, OutOfMemory>
    requires { index ≤ 1 }
    ensures { IfOk result (λ items. items.items ≡ insert (first ∷ []) index arrival) }
{
    let mut items = Vec::with_capacity(alloc, 2)?;
    items.push(first)?;
    items.insert(index, arrival)?;
    Ok(items)
}

/// Packets by position.
#[derive(Drop)]
pub struct Arrivals {
    slots: Slots,
    ghost counted: { length (items_in slots) ≡ ones_below (places_in slots) 32 },
}

impl Arrivals {
    ghost use Rattle.path_skew.specs.Slots.{arrival_at};

    /// Returns an empty collection.
    pub fn new() -> Arrivals
        ensures none { (place : ℕ) → arrival_at result place ≡ None }
    {
        Arrivals {
            slots: Slots::Empty,
        }
    }

    /// Returns an empty collection with room for a packet at each position.
    ///
    /// Returns `Err` if memory runs out.
    pub fn with_room(alloc: Global) -> Result<Arrivals, OutOfMemory>
        ensures none { IfOk result (λ arrivals. (place : ℕ) → arrival_at arrivals place ≡ None) }
    {
        Ok(Arrivals {
            slots: Slots::Many(0, Vec::with_capacity(alloc, PLACES as usize)?),
        })
    }

    /// Returns the packet at a position, and may remove it.
    #[inline(always)]
    pub fn take(&mut self, place: u32) -> Option<Arrival>
        requires { place < 32 }
        ensures value { result ≡ arrival_at self.old place }
        ensures others { (i : ℕ) (x : Arrival) → i ≢ place
            → arrival_at self.old i ≡ Some x → arrival_at self.new i ≡ Some x }
    {
        let places = self.slots.places();
        if !has(places, place) {
            return None;
        }
        let index = ones_below(places, place);
        Some(self.slots.take(index, without(places, place)))
    }

    /// Keeps a packet at a position, whatever was kept there or at later positions.
    ///
    /// Returns `Err` if memory runs out.
    #[cold]
    #[inline(never)]
    fn keep_before(
        &mut self,
        alloc: Global,
        place: u32,
        arrival: Arrival,
    ) -> Result<(), OutOfMemory>
        requires { place < 32 }
        ensures here { OnOk result (arrival_at self.new place ≡ Some arrival) }
        ensures others { OnOk result ((i : ℕ) (x : Arrival) → i ≢ place
            → arrival_at self.old i ≡ Some x → arrival_at self.new i ≡ Some x) }
    {
        let places = self.slots.places();
        let index = ones_below(places, place);
        if has(places, place) {
            self.slots.replace(index, arrival);
            return Ok(());
        }
        self.slots
            .insert(alloc, index, arrival, with(places, place))?;
        Ok(())
    }

    /// Keeps a packet at a position, whatever was kept there.
    ///
    /// Returns `Err` if memory runs out.
    #[inline(always)]
    pub fn keep(&mut self, alloc: Global, place: u32, arrival: Arrival) -> Result<(), OutOfMemory>
        requires { place < 32 }
        ensures here { OnOk result (arrival_at self.new place ≡ Some arrival) }
        ensures others { OnOk result ((i : ℕ) (x : Arrival) → i ≢ place
            → arrival_at self.old i ≡ Some x → arrival_at self.new i ≡ Some x) }
    {
        let places = self.slots.places();
        if places >> place == 0 {
            self.slots.push(alloc, arrival, with(places, place))?;
            return Ok(());
        }
        self.keep_before(alloc, place, arrival)
    }
}
