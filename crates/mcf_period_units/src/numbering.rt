//! The places, numbered by the rows that name them first.
ghost use Rattle.std.specs.Prelude.{◌≡◌, ◌++◌, ◌∷◌, [], IfOk, OnOk, if◌then◌else◌};
ghost use Rattle.mcf_period_units.specs.Numbering.{first_row_of, names_first, number_at, place_numbers, place_rows, spots_of};

use crate::unit_rows::time_at;
use mcf_period_reading::{PlaceTime, Spot};
use mcf_text::NoMemory;
use std::alloc::Global;

// Whether the row names its place first.
fn names_first(times: &[PlaceTime], row: usize) -> bool
    ensures { result ≡ names_first times.now row }
{
    time_at(times, row).place == row
}

// The rows that name places first, in order, and how many places the rows up to each one name.
#[derive(Drop)]
pub(crate) struct Numbered {
    pub(crate) firsts: Vec<usize>,
    pub(crate) numbers: Vec<usize>,
}

// Appends the row if the test holds.
fn push_if(made: &mut Vec<usize>, test: bool, row: usize) -> Result<(), NoMemory>
    ensures { OnOk result (made.new.items ≡ made.old.items ++ (if test then row ∷ [] else [])) }
{
    if test {
        made.push(row)?;
    }
    Ok(())
}

// The places, numbered by the rows that name them first.
pub(crate) fn number_places(alloc: Global, times: &[PlaceTime]) -> Result<Numbered, NoMemory>
    ensures firsts { IfOk result (λ made. made.firsts.items ≡ place_rows times.now) }
    ensures numbers { IfOk result (λ made. made.numbers.items ≡ place_numbers times.now) }
{
    let mut firsts = Vec::new(alloc);
    let mut numbers = Vec::new(alloc);
    for place in 0..times.len() {
        push_if(&mut firsts, names_first(times, place + 1), place + 1)?;
        numbers.push(firsts.as_slice().len())?;
    }
    Ok(Numbered { firsts, numbers })
}

// The number of the place that a row names first; 0 for no row.
pub(crate) fn number_at(numbers: &[usize], row: usize) -> usize
    ensures { result ≡ number_at numbers.now row }
{
    if row == 0 {
        return 0;
    }
    match numbers.get(row - 1) {
        Some(number) => *number,
        None => 0,
    }
}

// The row that names a place first; places count from 1.
pub(crate) fn first_row_of(firsts: &[usize], place: usize) -> usize
    ensures { result ≡ first_row_of firsts.now place }
{
    match firsts.get(place.saturating_sub(1)) {
        Some(row) => *row,
        None => 0,
    }
}

// The place and the period of each row.
pub(crate) fn spots_of(alloc: Global, times: &[PlaceTime]) -> Result<Vec<Spot>, NoMemory>
    ensures { IfOk result (λ made. made.items ≡ spots_of times.now) }
{
    let mut made = Vec::new(alloc);
    for place in 0..times.len() {
        made.push(Spot {
            place: times[place].place,
            period: times[place].period,
        })?;
    }
    Ok(made)
}
