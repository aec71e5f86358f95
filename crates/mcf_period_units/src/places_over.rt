//! The places in all periods, and where they come from.
ghost use Rattle.std.specs.Prelude.{◌≡◌, ◌≤◌, ◌++◌, OnOk, IfOk};
ghost use Rattle.mcf_period_reading.specs.Spots.{AreFirstRows};
ghost use Rattle.mcf_places.specs.declared.faults.TheConstants.{PLACE_LIMIT};
ghost use Rattle.mcf_period_units.specs.PlacesOver.{all_origins, all_places, period_origins, period_places, place_origin, teller};

use crate::numbering::first_row_of;
use crate::origins::PlaceOrigin;
use crate::spans::{Span, named, period_count, told_in};
use crate::unit_rows::{UnitRow, place_over, row_at};
use mcf_period_reading::{Spot, row_in};
use mcf_places::Place;
use mcf_text::NoMemory;
use mcf_units::place_number;
use std::alloc::Global;
use std::collections::HashMap;

// The rows of places: in units, by place and period, and the first row of each place; the periods
// of the problem; and whether what is kept of stocks needs a limit. The spots are what the map is
// of.
#[derive(Clone, Copy)]
pub(crate) struct Rows<'r> {
    pub(crate) units: &'r [UnitRow],
    pub(crate) spots: &'r [Spot],
    pub(crate) found: &'r HashMap<(usize, usize), usize>,
    pub(crate) firsts: &'r [usize],
    pub(crate) span: Span,
    pub(crate) limited: bool,
}

// Places, and where they come from.
#[derive(Drop)]
pub(crate) struct Listed {
    pub(crate) places: Vec<Place>,
    pub(crate) origins: Vec<PlaceOrigin>,
}

// The row by which a place is told in a period of the problem; 0 if none holds.
pub(crate) fn teller(rows: Rows<'_>, period: usize, place: usize) -> usize
    requires { AreFirstRows rows.spots.now rows.found.now }
    ensures { result ≡ teller rows.entry.span rows.entry.spots.now rows.entry.firsts.now period place }
{
    let held = told_in(rows.span.last, named(rows.span, period));
    row_in(rows.found, first_row_of(rows.firsts, place), held)
}

// Where a place in a period comes from.
fn place_origin(rows: Rows<'_>, period: usize, place: usize) -> PlaceOrigin
    requires { AreFirstRows rows.spots.now rows.found.now }
    ensures { result ≡ place_origin rows.entry.span rows.entry.spots.now rows.entry.firsts.now period place }
{
    PlaceOrigin {
        first: place_number(first_row_of(rows.firsts, place)),
        row: place_number(teller(rows, period, place)),
        period: place_number(named(rows.span, period)),
    }
}

// Appends all places in a period, and where they come from.
fn push_period(made: &mut Listed, rows: Rows<'_>, period: usize) -> Result<(), NoMemory>
    requires { AreFirstRows rows.spots.now rows.found.now }
    ensures places { OnOk result (made.new.places.items ≡ made.old.places.items ++ period_places rows.entry.span rows.entry.units.now rows.entry.spots.now rows.entry.firsts.now period) }
    ensures origins { OnOk result (made.new.origins.items ≡ made.old.origins.items ++ period_origins rows.entry.span rows.entry.spots.now rows.entry.firsts.now period) }
{
    for place in 0..rows.firsts.len() {
        let row = row_at(rows.units, teller(rows, period, place + 1));
        let number = named(rows.span, period);
        made.places.push(place_over(rows.span.last, row, number))?;
        made.origins.push(place_origin(rows, period, place + 1))?;
    }
    Ok(())
}

// The places in all periods, and where they come from.
pub(crate) fn all_places(alloc: Global, rows: Rows<'_>) -> Result<Listed, NoMemory>
    requires found { AreFirstRows rows.spots.now rows.found.now }
    requires few { rows.span.last ≤ PLACE_LIMIT }
    ensures places { IfOk result (λ made. made.places.items ≡ all_places rows.entry.span rows.entry.units.now rows.entry.spots.now rows.entry.firsts.now) }
    ensures origins { IfOk result (λ made. made.origins.items ≡ all_origins rows.entry.span rows.entry.spots.now rows.entry.firsts.now) }
{
    let mut made = Listed {
        places: Vec::new(alloc),
        origins: Vec::new(alloc),
    };
    for place in 0..period_count(rows.span) {
        push_period(&mut made, rows, place + 1)?;
    }
    Ok(made)
}
