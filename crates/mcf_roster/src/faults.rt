//! Faults of rosters.
ghost use Rattle.std.specs.Prelude.{◌≡◌};
ghost use Rattle.mcf_model.specs.Faults.{is_place};
ghost use Rattle.mcf_roster.specs.RosterFaults.{first_number, is_astray, is_empty, roster_fault};

use crate::pairs::{Pair, Range};

/// The greatest number of persons and things together.
pub const SIZE_LIMIT: usize = 1_000_000_000;

/// A fault of a roster. The tests are made in the order of the cases.
#[derive(Clone, Copy, Debug, PartialEq, Eq)]
pub enum RosterFault {
    /// There are more than `SIZE_LIMIT` persons and things.
    Size,
    /// The range of this person, counted from 1, has a least number above its greatest.
    Takes(usize),
    /// The range of this thing, counted from 1, has a least number above its greatest.
    Needs(usize),
    /// The person or the thing of this pair, counted from 1, isn't there.
    Ends(usize),
}

// Returns whether no number is within a range.
fn is_empty(range: Range) -> bool
    ensures { result ≡ is_empty range }
{
    range.most < range.least
}

// Returns the first range within which there is no number.
fn first_empty(ranges: &[Range]) -> Option<usize>
    ensures { result ≡ first_number is_empty 1 ranges.now }
{
    for place in 0..ranges.len() {
        if is_empty(ranges[place]) {
            return Some(place + 1);
        }
    }
    None
}

// Returns whether a number is that of one of so many.
fn is_place(count: usize, number: u32) -> bool
    ensures { result ≡ is_place count number }
{
    1 <= number && number as usize <= count
}

// Returns whether the person or the thing of a pair isn't there.
fn is_astray(persons: usize, things: usize, pair: Pair) -> bool
    ensures { result ≡ is_astray persons things pair }
{
    let has_person = is_place(persons, pair.who);
    let has_thing = is_place(things, pair.what);
    !(has_person && has_thing)
}

// Returns the first pair whose person or thing isn't there.
fn first_astray(persons: usize, things: usize, pairs: &[Pair]) -> Option<usize>
    ensures { result ≡ first_number (is_astray persons things) 1 pairs.now }
{
    for place in 0..pairs.len() {
        if is_astray(persons, things, pairs[place]) {
            return Some(place + 1);
        }
    }
    None
}

// Returns the first fault of a roster.
pub(crate) fn roster_fault(takes: &[Range], needs: &[Range], pairs: &[Pair]) -> Option<RosterFault>
    ensures { result ≡ roster_fault takes.now needs.now pairs.now }
{
    if takes.len() + needs.len() > SIZE_LIMIT {
        return Some(RosterFault::Size);
    }
    if let Some(person) = first_empty(takes) {
        return Some(RosterFault::Takes(person));
    }
    if let Some(thing) = first_empty(needs) {
        return Some(RosterFault::Needs(thing));
    }
    match first_astray(takes.len(), needs.len(), pairs) {
        Some(pair) => Some(RosterFault::Ends(pair)),
        None => None,
    }
}
