//! What leads away from the places of a bottleneck, and what leads here.
ghost use Rattle.std.specs.Prelude.{◌≡◌};
ghost use Rattle.mcf_flows.specs.Blocking.{in_table};
ghost use Rattle.mcf_places.specs.Crossings.{crossing, crossing_by, passing};

use crate::told::PlannerBottleneck;
use mcf_flows::Side;

/// Where something leads, by the places of a bottleneck.
#[derive(Clone, Copy, Debug, PartialEq, Eq)]
pub enum Crossing {
    /// Away: out of places that must send, or into places that must take. Its most counts.
    Away,
    /// The other way. Its least counts.
    Here,
    /// Neither: it stays among these places, or among the others.
    Apart,
}

// Away, here, or neither.
fn crossing_by(away: bool, here: bool) -> Crossing
    ensures { result ≡ crossing_by away here }
{
    if away {
        Crossing::Away
    } else if here {
        Crossing::Here
    } else {
        Crossing::Apart
    }
}

// Whether a place is marked; places count from 1, and 0 is read as 1.
fn has(marks: &[bool], place: usize) -> bool
    ensures { result ≡ in_table marks.now place }
{
    match marks.get(place.saturating_sub(1)) {
        Some(mark) => *mark,
        None => false,
    }
}

impl PlannerBottleneck {
    /// Returns where a route between two places leads.
    pub fn crossing(&self, tail: u32, head: u32) -> Crossing
        ensures { result ≡ crossing self.now tail head }
    {
        let exit = has(&self.exits, tail as usize);
        let entry = has(&self.entries, head as usize);
        match self.side {
            Side::Send => crossing_by(exit && !entry, entry && !exit),
            Side::Take => crossing_by(entry && !exit, exit && !entry),
        }
    }

    /// Returns where that leads which passes through a place.
    pub fn passing(&self, place: usize) -> Crossing
        ensures { result ≡ passing self.now place }
    {
        let entry = has(&self.entries, place);
        let exit = has(&self.exits, place);
        match self.side {
            Side::Send => crossing_by(entry && !exit, exit && !entry),
            Side::Take => crossing_by(exit && !entry, entry && !exit),
        }
    }
}
