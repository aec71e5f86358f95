//! What pairs cost in whole units.
ghost use Rattle.std.specs.Prelude.{◌≡◌, ◌++◌, IfOk, OnOk, map};
ghost use Rattle.mcf_units.specs.Wholes.{is_whole, place_number, whole};
ghost use Rattle.mcf_pair_tables.specs.PairCosts.{cost_in, great_cell, great_cells, is_cost, is_turnable, pair_in, scale_of_pairs, turned};

use mcf_decimal::Decimal;
use mcf_roster::Pair;
use mcf_roster_reading::PairEntry;
use mcf_table::CellPlace;
use mcf_text::NoMemory;
use std::alloc::Global;

// The most decimals of any cost.
pub(crate) fn scale_of(pairs: &[PairEntry]) -> u32
    ensures { result ≡ scale_of_pairs pairs.now }
{
    let mut scale = 0u32;
    for place in 0..pairs.len() {
        scale = scale.max(pairs[place].cost.places);
    }
    scale
}

// Whether a decimal is a whole number of units, which fits 64 bits.
fn is_whole(scale: u32, number: Decimal) -> bool
    ensures { result ≡ is_whole scale number }
{
    number.at_scale(scale).is_some()
}

// A decimal as a whole number of units; 0 if it isn't one that fits.
fn whole(scale: u32, number: Decimal) -> i64
    ensures { result ≡ whole scale number }
{
    number.at_scale(scale).unwrap_or(0)
}

// Whether a number of 64 bits still fits them with its sign turned.
fn is_turnable(number: i64) -> bool
    ensures { result ≡ is_turnable number }
{
    number.checked_neg().is_some()
}

// A number with its sign turned; 0 if that doesn't fit.
fn turned(number: i64) -> i64
    ensures { result ≡ turned number }
{
    number.checked_neg().unwrap_or(0)
}

// Whether a cost is a whole number of units, which fits 64 bits, with its sign turned for values.
fn is_cost(maximise: bool, scale: u32, number: Decimal) -> bool
    ensures { result ≡ is_cost maximise scale number }
{
    is_whole(scale, number) && (!maximise || is_turnable(whole(scale, number)))
}

// A cost in units, with its sign turned for values; 0 if it isn't one that fits.
fn cost_in(maximise: bool, scale: u32, number: Decimal) -> i64
    ensures { result ≡ cost_in maximise scale number }
{
    let cost = whole(scale, number);
    if maximise { turned(cost) } else { cost }
}

// The number of a person or a thing in 32 bits; 0, which is no number of one, if it doesn't fit.
pub(crate) fn number_in(number: usize) -> u32
    ensures { result ≡ place_number number }
{
    u32::try_from(number).unwrap_or(0)
}

// A pair in units.
#[tactic(auto, unfolding(crate::specs::PairCosts::pair_in))]
fn pair_in(maximise: bool, scale: u32, pair: PairEntry) -> Pair
    ensures { result ≡ pair_in maximise scale pair }
{
    Pair {
        who: number_in(pair.who),
        what: number_in(pair.what),
        cost: cost_in(maximise, scale, pair.cost),
    }
}

// The pairs in units.
pub(crate) fn pairs_in(
    alloc: Global,
    maximise: bool,
    scale: u32,
    pairs: &[PairEntry],
) -> Result<Vec<Pair>, NoMemory>
    ensures { IfOk result (λ made. made.items ≡ map (pair_in maximise scale) pairs.now) }
{
    let mut made = Vec::new(alloc);
    for pair in pairs {
        made.push(pair_in(maximise, scale, *pair))?;
    }
    Ok(made)
}

// Appends the cell of a pair's cost, if it is too great.
fn push_great(
    found: &mut Vec<CellPlace>,
    maximise: bool,
    scale: u32,
    pair: PairEntry,
) -> Result<(), NoMemory>
    ensures { OnOk result (found.new.items ≡ found.old.items ++ great_cell maximise scale pair) }
{
    if !is_cost(maximise, scale, pair.cost) {
        found.push(pair.at)?;
    }
    Ok(())
}

// The cells of the costs that are too great.
pub(crate) fn great_cells(
    alloc: Global,
    maximise: bool,
    scale: u32,
    pairs: &[PairEntry],
) -> Result<Vec<CellPlace>, NoMemory>
    ensures { IfOk result (λ found. found.items ≡ great_cells maximise scale pairs.now) }
{
    let mut found = Vec::new(alloc);
    for pair in pairs {
        push_great(&mut found, maximise, scale, *pair)?;
    }
    Ok(found)
}
