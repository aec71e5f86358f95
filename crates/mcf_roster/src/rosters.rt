//! Rosters without faults.
ghost use Rattle.std.specs.Prelude.{◌≡◌, IfOk};
ghost use Rattle.mcf_roster.specs.RosterFaults.{IsSoundRoster, made_of_lists};

use crate::faults::{RosterFault, roster_fault};
use crate::pairs::{Pair, Range};
use std::marker::Model;

/// A roster without faults: how many things each person takes, how many persons take each thing,
/// and the pairs of a person and a thing that may be chosen.
///
/// Persons, things and pairs count from 1. A pair that is listed twice counts as two: both may be
/// chosen. Clauses see the ranges of persons, those of things, and the pairs, in order.
#[derive(Drop)]
pub struct Roster {
    takes: Vec<Range>,
    needs: Vec<Range>,
    pairs: Vec<Pair>,
}

impl Model for Roster {
    ghost use Rattle.mcf_roster.specs.RosterFaults.{IsSoundRoster, roster_of};
    ghost use Rattle.mcf_roster.specs.Rosters.{Roster as PairRoster};

    ghost Value = { PairRoster };

    ghost view = { λ m. roster_of m.takes.items m.needs.items m.pairs.items };

    ghost invariant = { λ m. IsSoundRoster (roster_of m.takes.items m.needs.items m.pairs.items) };
}

impl Roster {
    /// Makes a roster from how many things each person takes, how many persons take each thing, and
    /// the pairs that may be chosen, in order.
    ///
    /// # Errors
    /// The first fault, in the order of the cases of `RosterFault`.
    pub fn of(takes: Vec<Range>, needs: Vec<Range>, pairs: Vec<Pair>) -> Result<Roster, RosterFault>
        ensures exact { result ≡ made_of_lists takes.items needs.items pairs.items }
        ensures sound { IfOk result IsSoundRoster }
    {
        match roster_fault(&takes, &needs, &pairs) {
            Some(fault) => Err(fault),
            None => Ok(Roster {
                takes,
                needs,
                pairs,
            }),
        }
    }

    /// Returns how many things each person takes, in order.
    pub fn takes(&self) -> &[Range]
        ensures value { result.now ≡ self.now.takes }
        ensures sound { IsSoundRoster self.now }
    {
        &self.takes
    }

    /// Returns how many persons take each thing, in order.
    pub fn needs(&self) -> &[Range]
        ensures value { result.now ≡ self.now.needs }
        ensures sound { IsSoundRoster self.now }
    {
        &self.needs
    }

    /// Returns the pairs that may be chosen, in order.
    pub fn pairs(&self) -> &[Pair]
        ensures value { result.now ≡ self.now.pairs }
        ensures sound { IsSoundRoster self.now }
    {
        &self.pairs
    }
}
