//! Rows of places that hold in a period in which an earlier row of their place holds.
ghost use Rattle.std.specs.Prelude.{◌≡◌, ◌+◌, IfOk, List, map};
ghost use Rattle.std.specs.List.{list_any, range_with_len};
ghost use Rattle.mcf_period_reading.specs.PlaceTimes.{clashes, is_taken};
ghost use Rattle.mcf_period_reading.specs.Seen.{HasSeen};
ghost use Rattle.mcf_period_reading.specs.declared.spots.Spot.{Spot as ASpot};

use crate::spots::{Spot, spot_at};
use mcf_text::NoMemory;
use std::alloc::Global;
use std::collections::HashSet;

// Whether a row clashes with one of those whose places, and places and periods, these are.
fn clashes_with_seen(places: &HashSet<usize>, spots: &HashSet<(usize, usize)>, spot: Spot) -> bool
    ensures { (rows : List ASpot) → HasSeen rows places.now spots.now → result ≡ list_any (clashes spot) rows }
{
    if spot.period == 0 {
        return places.contains(&spot.place);
    }
    spots.contains(&(spot.place, 0)) || spots.contains(&(spot.place, spot.period))
}

/// For each row, whether an earlier row is of the same place, and holds in one period with it.
pub(crate) fn taken_rows(alloc: Global, all: &[Spot], count: usize) -> Result<Vec<bool>, NoMemory>
    ensures { IfOk result (λ made. made.items ≡ map (is_taken all.now) (range_with_len 1 count)) }
{
    let mut places = HashSet::new(alloc);
    let mut spots = HashSet::new(alloc);
    let mut made = Vec::new(alloc);
    for place in 0..count {
        let spot = spot_at(all, place + 1);
        made.push(clashes_with_seen(&places, &spots, spot))?;
        if place < all.len() {
            places.insert(spot.place)?;
            spots.insert((spot.place, spot.period))?;
        }
    }
    Ok(made)
}
