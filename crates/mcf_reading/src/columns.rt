//! The columns that are read, by their heads.
ghost use Rattle.std.specs.Prelude.{◌≡◌, ◌+◌, ◌++◌, IfOk, OnOk, map};
ghost use Rattle.std.specs.List.{flat_map};
ghost use Rattle.mcf_reading.specs.Columns.{all_step_columns, place_columns, place_under, route_columns, step_columns};
ghost use Rattle.mcf_reading.specs.ShownMarks.{number_column, placed_column};
ghost use Rattle.mcf_table.specs.Heads.{column_of, only_place};

use crate::heads::{column_under, further_count, has_periods};
use crate::locations::{ColumnAt, Head};
use mcf_table::{Column, Records};
use mcf_text::NoMemory;
use std::alloc::Global;

// The places of the columns of the table of places, from 0; `None` for a column that it lacks.
#[derive(Clone, Copy)]
pub(crate) struct PlaceColumns {
    pub(crate) name: Option<usize>,
    pub(crate) supply: Option<usize>,
    pub(crate) least: Option<usize>,
    pub(crate) most: Option<usize>,
    pub(crate) cost: Option<usize>,
    pub(crate) penalty: Option<usize>,
    // Whether there is a column of periods, so that a place may have several rows.
    pub(crate) over_periods: bool,
}

// The places of the columns of the table of routes, without those of steps, from 0; `None` for a
// column that it lacks.
#[derive(Clone, Copy)]
pub(crate) struct RouteColumns {
    pub(crate) tail: Option<usize>,
    pub(crate) head: Option<usize>,
    pub(crate) least: Option<usize>,
    pub(crate) both: Option<usize>,
}

// The places of the columns of a step, from 0; `None` for a column that the table lacks.
#[derive(Clone, Copy)]
pub(crate) struct StepColumns {
    pub(crate) most: Option<usize>,
    pub(crate) cost: Option<usize>,
}

// A column of numbers, and its place, from 0; `None` if the table lacks it.
#[derive(Clone, Copy)]
pub(crate) struct NumberColumn {
    pub(crate) column: ColumnAt,
    pub(crate) place: Option<usize>,
}

// The place of the column with a head, if just one has it.
#[tactic(auto, unfolding(crate::specs::Columns::place_under))]
fn place_under(alloc: Global, records: &Records, head: Head) -> Result<Option<usize>, NoMemory>
    ensures { IfOk result (λ place. place ≡ place_under records.now head) }
{
    let column = column_under(alloc, records, head)?;
    Ok(column.only_place())
}

// The columns of the table of places.
#[tactic(auto, unfolding(crate::specs::Columns::place_columns))]
pub(crate) fn place_columns(alloc: Global, records: &Records) -> Result<PlaceColumns, NoMemory>
    ensures { IfOk result (λ columns. columns ≡ place_columns records.now) }
{
    let name = place_under(alloc, records, Head::Name)?;
    let supply = place_under(alloc, records, Head::Supply)?;
    let least = place_under(alloc, records, Head::Least)?;
    let most = place_under(alloc, records, Head::Most(1))?;
    let cost = place_under(alloc, records, Head::Cost(1))?;
    let penalty = place_under(alloc, records, Head::Penalty)?;
    Ok(PlaceColumns {
        name,
        supply,
        least,
        most,
        cost,
        penalty,
        over_periods: has_periods(records),
    })
}

// The columns of the table of routes, without those of steps.
#[tactic(auto, unfolding(crate::specs::Columns::route_columns))]
pub(crate) fn route_columns(alloc: Global, records: &Records) -> Result<RouteColumns, NoMemory>
    ensures { IfOk result (λ columns. columns ≡ route_columns records.now) }
{
    let tail = place_under(alloc, records, Head::From)?;
    let head = place_under(alloc, records, Head::To)?;
    let least = place_under(alloc, records, Head::Least)?;
    let both = place_under(alloc, records, Head::Both)?;
    Ok(RouteColumns {
        tail,
        head,
        least,
        both,
    })
}

// The columns of a step.
fn step_columns(alloc: Global, records: &Records, step: usize) -> Result<StepColumns, NoMemory>
    ensures { IfOk result (λ columns. columns ≡ step_columns records.now step) }
{
    let most = place_under(alloc, records, Head::Most(step))?;
    let cost = place_under(alloc, records, Head::Cost(step))?;
    Ok(StepColumns { most, cost })
}

// The columns of all steps.
pub(crate) fn all_step_columns(
    alloc: Global,
    records: &Records,
) -> Result<Vec<StepColumns>, NoMemory>
    ensures { IfOk result (λ made. made.items ≡ all_step_columns records.now) }
{
    let count = further_count(alloc, records)?;
    let mut made = Vec::new(alloc);
    for place in 0..count + 1 {
        let columns = step_columns(alloc, records, place + 1)?;
        made.push(columns)?;
    }
    Ok(made)
}

// The columns of numbers with these heads.
pub(crate) fn number_columns(
    alloc: Global,
    records: &Records,
    heads: &[Head],
) -> Result<Vec<NumberColumn>, NoMemory>
    ensures { IfOk result (λ made. made.items ≡ map (number_column records.now) heads.now) }
{
    let mut made = Vec::new(alloc);
    for head in heads {
        let place = place_under(alloc, records, *head)?;
        made.push(NumberColumn {
            column: ColumnAt::Under(*head),
            place,
        })?;
    }
    Ok(made)
}

// Appends a column of numbers about periods, by its place, if there is one.
fn push_placed(columns: &mut Vec<NumberColumn>, place: Option<usize>) -> Result<(), NoMemory>
    ensures { OnOk result (columns.new.items ≡ columns.old.items ++ placed_column place) }
{
    if let Some(place) = place {
        columns.push(NumberColumn {
            column: ColumnAt::Placed(place),
            place: Some(place),
        })?;
    }
    Ok(())
}

// Appends the columns of numbers about periods with these heads.
pub(crate) fn push_period_columns(
    columns: &mut Vec<NumberColumn>,
    records: &Records,
    heads: &[&[u8]],
) -> Result<(), NoMemory>
    ensures { OnOk result (columns.new.items ≡ columns.old.items
        ++ flat_map (λ head. placed_column (only_place (column_of head.now records.now))) heads.now) }
{
    for head in heads {
        let column = records.column_of(head);
        push_placed(columns, column.only_place())?;
    }
    Ok(())
}
