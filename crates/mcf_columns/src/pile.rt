//! Piles (stacks) of numbers.

use crate::columns::{NOWHERE, at, put};
use mcf_text::{NoMemory, copies};
use std::alloc::Global;

/// A stack of numbers of rows, columns or nodes, with a fixed capacity.
#[derive(Drop)]
pub struct Pile {
    places: Vec<u32>,
    len: u32,
}

impl Pile {
    /// Makes an empty pile that can hold `room` numbers.
    pub fn start(alloc: Global, room: usize) -> Result<Pile, NoMemory> {
        Ok(Pile {
            places: copies(alloc, room, NOWHERE)?,
            len: 0,
        })
    }

    /// Returns the number of entries.
    #[inline(always)]
    pub fn len(&self) -> u32 {
        self.len
    }

    /// Removes all entries.
    pub fn clear(&mut self) {
        self.len = 0;
    }

    /// Returns the entry at a place, counted from 0 at the bottom, or `NOWHERE` if the pile never
    /// had so many.
    #[inline(always)]
    pub fn get(&self, place: u32) -> u32 {
        at(&self.places, place, NOWHERE)
    }

    /// Adds an entry on top. A full pile stays as it is.
    #[inline(always)]
    pub fn add(&mut self, value: u32) {
        if (self.len as usize) < self.places.len() {
            put(&mut self.places, self.len, value);
            self.len = self.len.wrapping_add(1);
        }
    }

    /// Removes the top entry and returns it, or `None` if the pile is empty.
    #[inline(always)]
    pub fn pop(&mut self) -> Option<u32> {
        if self.len == 0 {
            return None;
        }
        self.len = self.len.wrapping_sub(1);
        Some(self.get(self.len))
    }
}
