//! What places may keep from a period to the next, and where it comes from.
ghost use Rattle.std.specs.Prelude.{◌≡◌, ◌≤◌, ◌++◌, OnOk, IfOk};
ghost use Rattle.mcf_period_reading.specs.Spots.{AreFirstRows};
ghost use Rattle.mcf_period_units.specs.Numbering.{first_row_of};
ghost use Rattle.mcf_places.specs.declared.faults.TheConstants.{PLACE_LIMIT};
ghost use Rattle.mcf_period_units.specs.PlacesOver.{all_store_origins, all_stores, period_store_origins, period_stores, place_keep, place_store, place_store_origin, row_or_first, teller};

use crate::numbering::first_row_of;
use crate::origins::StoreOrigin;
use crate::places_over::{Rows, teller};
use crate::spans::{named, period_count};
use crate::unit_rows::{UnitKeep, keep_over, row_at};
use mcf_periods::Store;
use mcf_text::NoMemory;
use mcf_units::place_number;
use std::alloc::Global;

// Stores, and where they come from.
#[derive(Drop)]
pub(crate) struct Stored {
    pub(crate) stores: Vec<Store>,
    pub(crate) origins: Vec<StoreOrigin>,
}

// What a place may keep after a period.
fn place_keep(rows: Rows<'_>, period: usize, place: usize) -> Option<UnitKeep>
    requires { AreFirstRows rows.spots.now rows.found.now }
    ensures { result ≡ place_keep rows.entry.limited rows.entry.span rows.entry.units.now rows.entry.spots.now rows.entry.firsts.now period place }
{
    let row = row_at(rows.units, teller(rows, period, place));
    keep_over(rows.limited, rows.span.last, row, named(rows.span, period))
}

// The row that a place is told of in a period: the one that holds, or else the one that names it
// first.
fn told_row(rows: Rows<'_>, period: usize, place: usize) -> usize
    requires { AreFirstRows rows.spots.now rows.found.now }
    ensures { result ≡ row_or_first (teller rows.entry.span rows.entry.spots.now rows.entry.firsts.now period place) (first_row_of rows.entry.firsts.now place) }
{
    let row = teller(rows, period, place);
    if row == 0 {
        first_row_of(rows.firsts, place)
    } else {
        row
    }
}

// Appends what a place may keep after a period, and where it comes from.
fn push_store(
    made: &mut Stored,
    rows: Rows<'_>,
    period: usize,
    place: usize,
) -> Result<(), NoMemory>
    requires { AreFirstRows rows.spots.now rows.found.now }
    ensures stores { OnOk result (made.new.stores.items ≡ made.old.stores.items ++ place_store rows.entry.limited rows.entry.span rows.entry.units.now rows.entry.spots.now rows.entry.firsts.now period place) }
    ensures origins { OnOk result (made.new.origins.items ≡ made.old.origins.items ++ place_store_origin rows.entry.limited rows.entry.span rows.entry.units.now rows.entry.spots.now rows.entry.firsts.now period place) }
{
    if let Some(keep) = place_keep(rows, period, place) {
        made.stores.push(Store {
            place: place_number(place),
            period: place_number(period),
            most: keep.most,
            cost: keep.cost,
        })?;
        made.origins.push(StoreOrigin {
            row: place_number(told_row(rows, period, place)),
            period: place_number(named(rows.span, period)),
        })?;
    }
    Ok(())
}

// Appends what all places may keep after a period, and where it comes from.
fn push_period(made: &mut Stored, rows: Rows<'_>, period: usize) -> Result<(), NoMemory>
    requires { AreFirstRows rows.spots.now rows.found.now }
    ensures stores { OnOk result (made.new.stores.items ≡ made.old.stores.items ++ period_stores rows.entry.limited rows.entry.span rows.entry.units.now rows.entry.spots.now rows.entry.firsts.now period) }
    ensures origins { OnOk result (made.new.origins.items ≡ made.old.origins.items ++ period_store_origins rows.entry.limited rows.entry.span rows.entry.units.now rows.entry.spots.now rows.entry.firsts.now period) }
{
    for place in 0..rows.firsts.len() {
        push_store(made, rows, period, place + 1)?;
    }
    Ok(())
}

// What places may keep after each period but the last, and where it comes from.
pub(crate) fn all_stores(alloc: Global, rows: Rows<'_>) -> Result<Stored, NoMemory>
    requires found { AreFirstRows rows.spots.now rows.found.now }
    requires few { rows.span.last ≤ PLACE_LIMIT }
    ensures stores { IfOk result (λ made. made.stores.items ≡ all_stores rows.entry.limited rows.entry.span rows.entry.units.now rows.entry.spots.now rows.entry.firsts.now) }
    ensures origins { IfOk result (λ made. made.origins.items ≡ all_store_origins rows.entry.limited rows.entry.span rows.entry.units.now rows.entry.spots.now rows.entry.firsts.now) }
{
    let mut made = Stored {
        stores: Vec::new(alloc),
        origins: Vec::new(alloc),
    };
    for place in 0..period_count(rows.span).saturating_sub(1) {
        push_period(&mut made, rows, place + 1)?;
    }
    Ok(made)
}
