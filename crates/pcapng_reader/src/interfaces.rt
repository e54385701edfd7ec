//! The interfaces of a section.

ghost use Rattle.std.specs.Prelude.{◌≡◌, ◌≤◌, ◌<◌, ◌++◌, [], ◌∷◌, IfOk, vec_len, vec_capacity, length, nat_lt, slice_get};

use crate::block::Interface;
use std::alloc::{AllocError, Global};

/// The most interfaces of a section.
pub const MOST_INTERFACES: usize = 1024;

/// The interfaces of a section, in the order of their blocks.
#[derive(Drop)]
pub struct Interfaces {
    items: Vec<Interface>,
    ghost few: { vec_len items ≤ 1024 },
    ghost roomy: { 1024 ≤ vec_capacity items },
}

impl Interfaces {
    ghost use Rattle.pcapng_reader.specs.Described.{list_of};

    /// Returns an empty list with room for as many interfaces as a section may have. Returns `Err`
    /// if memory runs out.
    pub fn new(alloc: Global) -> Result<Interfaces, AllocError>
        ensures { IfOk result (λ s. list_of s ≡ []) }
    {
        let items = Vec::with_capacity(alloc, MOST_INTERFACES)?;
        Ok(Interfaces { items })
    }

    /// Returns whether there is room for one more.
    pub fn has_room(&self) -> bool
        ensures { result ≡ nat_lt (length (list_of self.now)) 1024 }
    {
        self.items.len() < MOST_INTERFACES
    }

    /// Returns the interface with this number, counted from 0.
    pub fn get(&self, number: u32) -> Option<Interface>
        ensures { result ≡ slice_get (list_of self.now) number }
    {
        let place = number as usize;
        if place < self.items.len() {
            Some(self.items[place])
        } else {
            None
        }
    }

    /// Removes all interfaces.
    pub fn clear(&mut self)
        ensures { list_of self.new ≡ [] }
    {
        self.items.clear();
    }

    /// Appends an interface. There has to be room for it.
    pub fn push(&mut self, interface: Interface)
        requires { length (list_of self.old) < 1024 }
        ensures { list_of self.new ≡ list_of self.old ++ interface ∷ [] }
    {
        let Ok(()) = self.items.push(interface) else {
            unreachable!()
        };
    }
}
