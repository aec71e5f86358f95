//! Where the numbers of the network of a roster's model come from.
ghost use Rattle.std.specs.Prelude.{◌≡◌, slice_index_or};
ghost use Rattle.mcf_roster.specs.declared.origins.Origin.TheVariants.{OfAll};
ghost use Rattle.mcf_roster.specs.Origins.{arc_origins, origin_of, side_origins};

use crate::rosters::Roster;
use mcf_instance::ArrayFault;

/// What a number of the network of a roster's model comes from.
#[derive(Clone, Copy, Debug, PartialEq, Eq)]
pub enum Origin {
    /// This pair, counted from 1: its cost.
    OfPair(usize),
    /// This person, counted from 1.
    OfPerson(usize),
    /// This thing, counted from 1.
    OfThing(usize),
    /// All persons, things and pairs: their number.
    OfAll,
}

// Returns the person or the thing at a place, counted from 0, where all persons stand before all
// things; all of them for a later place.
fn side_origin(persons: usize, things: usize, place: usize) -> Origin
    ensures { result ≡ slice_index_or (side_origins persons things) place OfAll }
{
    if place < persons {
        return Origin::OfPerson(place + 1);
    }
    let later = place - persons;
    if later < things {
        Origin::OfThing(later + 1)
    } else {
        Origin::OfAll
    }
}

// Returns what the numbers of an arc come from; arcs count from 0.
fn arc_origin(roster: &Roster, arc: usize) -> Origin
    ensures { result ≡ slice_index_or (arc_origins roster.now) arc OfAll }
{
    let pairs = roster.pairs().len();
    if arc < pairs {
        return Origin::OfPair(arc + 1);
    }
    side_origin(roster.takes().len(), roster.needs().len(), arc - pairs)
}

/// Returns what the fault of a network that `least` names comes from.
pub fn origin_of(roster: &Roster, fault: ArrayFault) -> Origin
    ensures { result ≡ origin_of roster.now fault }
{
    match fault {
        ArrayFault::Size => Origin::OfAll,
        ArrayFault::Supply(node) => {
            let place = (node.get() as usize).saturating_sub(1);
            side_origin(roster.takes().len(), roster.needs().len(), place)
        }
        ArrayFault::Arc(arc, _) => arc_origin(roster, (arc.get() as usize).saturating_sub(1)),
    }
}
