//! Names, numbered in their order.
use crate::sorted::{Placed, below_count, with_places};
use mcf_text::NoMemory;
use std::alloc::Global;
use std::marker::Model;

/// Names, numbered from 1 in their order; a name may stand there several times. Clauses see their
/// list.
#[derive(Drop)]
pub struct Names<'t> {
    names: Vec<&'t [u8]>,
    // The names with their places, ordered by name and then by place.
    sorted: Vec<Placed<'t>>,
}

impl<'t> Model for Names<'t> {
    ghost use Rattle.std.specs.Prelude.{ℕ, List, map};
    ghost use Rattle.mcf_names.specs.Private.Index.{IsIndex};

    ghost Value = { List (List ℕ) };

    ghost view = { λ it. map (λ name. name.now) it.names.items };

    ghost invariant = { λ it. IsIndex (map (λ name. name.now) it.names.items) it.sorted.items };
}

impl<'t> Names<'t> {
    ghost use Rattle.std.specs.Prelude.{◌≡◌, ◌-◌, ◌<◌, ◌≤◌, [], IfOk, length, map, slice_index_or};
    ghost use Rattle.mcf_names.specs.Names.{distinct, is_first, number_of};

    /// The names of this list. It takes time n log n, for n names.
    ///
    /// # Errors
    ///
    /// `NoMemory` if an allocation is refused.
    pub fn of(alloc: Global, names: Vec<&'t [u8]>) -> Result<Names<'t>, NoMemory>
        ensures { IfOk result (λ made. made ≡ map (λ name. name.now) names.entry.items) }
    {
        let mut sorted = with_places(alloc, &names)?;
        sorted.sort_unstable();
        Ok(Names { names, sorted })
    }

    /// How many names there are.
    pub fn len(&self) -> usize
        ensures { result ≡ length self.now }
    {
        self.names.len()
    }

    /// The name with this number, from 1.
    pub fn name(&self, number: usize) -> &'t [u8]
        requires first { 1 ≤ number }
        requires last { number ≤ length self.now }
        ensures { result.now ≡ slice_index_or self.now (number - 1) [] }
    {
        self.names[number - 1]
    }

    /// The number of the first name that is this one, byte by byte, from 1; `None` if there is
    /// none. It allocates nothing, and compares log n names.
    pub fn number_of(&self, name: &[u8]) -> Option<usize>
        ensures { result ≡ number_of name.now self.now }
    {
        let place = below_count(&self.sorted, name);
        let found = self.sorted.get(place)?;
        if found.name == name {
            Some(found.place + 1)
        } else {
            None
        }
    }

    /// Each name once, in the order in which they come first.
    ///
    /// # Errors
    ///
    /// `NoMemory` if an allocation is refused.
    pub fn distinct(&self, alloc: Global) -> Result<Names<'t>, NoMemory>
        ensures { IfOk result (λ made. made ≡ distinct self.now) }
    {
        let mut kept = Vec::new(alloc);
        'names: for place in 0..self.len() {
            if self.is_first(place) {
                kept.push(self.name(place + 1))?;
            }
        }
        Names::of(alloc, kept)
    }

    // Whether no name before this place is the same as the one there.
    fn is_first(&self, place: usize) -> bool
        requires { place < length self.now }
        ensures { result ≡ is_first self.now place }
    {
        let name = self.names[place];
        self.number_of(name) == Some(place + 1)
    }
}
