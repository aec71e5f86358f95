//! The rows of places by place and period.
ghost use Rattle.std.specs.Prelude.{◌≡◌, IfOk, List};
ghost use Rattle.mcf_period_reading.specs.Spots.{AreFirstRows, row_in, row_with, spot_at};
ghost use Rattle.mcf_period_reading.specs.declared.spots.Spot.{Spot as ASpot};

use mcf_text::NoMemory;
use std::alloc::Global;
use std::collections::HashMap;

/// The first row that names a row's place, and the number of its period, from 1, or 0 for each
/// period. Rows count from 1, below the heads.
#[derive(Clone, Copy, Debug, PartialEq, Eq)]
pub struct Spot {
    /// The row that names the place first.
    pub place: usize,
    /// The period.
    pub period: usize,
}

// The place and the period of a row, from 1.
pub(crate) fn spot_at(all: &[Spot], row: usize) -> Spot
    ensures { result ≡ spot_at all.now row }
{
    match all.get(row.saturating_sub(1)) {
        Some(spot) => *spot,
        None => Spot {
            place: 0,
            period: 0,
        },
    }
}

/// The number of the first row of each place and period, by both.
///
/// # Errors
///
/// `NoMemory` if an allocation is refused.
pub fn first_rows(alloc: Global, spots: &[Spot]) -> Result<HashMap<(usize, usize), usize>, NoMemory>
    ensures { IfOk result (AreFirstRows spots.now) }
{
    let mut rows = HashMap::new(alloc);
    for place in 0..spots.len() {
        let spot = spot_at(spots, place + 1);
        let key = (spot.place, spot.period);
        if !rows.contains_key(&key) {
            rows.insert(key, place + 1)?;
        }
    }
    Ok(rows)
}

// The number of the first row of a place and a period, if there is one.
pub(crate) fn row_with(
    rows: &HashMap<(usize, usize), usize>,
    place: usize,
    period: usize,
) -> Option<usize>
    ensures { (spots : List ASpot) → AreFirstRows spots rows.now → result ≡ row_with spots place period }
{
    rows.get(&(place, period)).copied()
}

/// The number of the row of a place that holds in a period: the one of this period, or else the one
/// of each period; 0 if there is neither.
pub fn row_in(rows: &HashMap<(usize, usize), usize>, place: usize, period: usize) -> usize
    ensures { (spots : List ASpot) → AreFirstRows spots rows.now → result ≡ row_in spots place period }
{
    match row_with(rows, place, period) {
        Some(row) => row,
        None => row_with(rows, place, 0).unwrap_or(0),
    }
}
