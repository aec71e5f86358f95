//! The heads of the columns that say something about periods.
ghost use Rattle.std.specs.Prelude.{◌≡◌};
ghost use Rattle.mcf_period_reading.specs.PeriodHeads.{column_under, has_any, head_text, heads_of, place_under};

use mcf_reading::Table;
use mcf_table::{Column, Records};

/// The head of a column that says something about periods.
#[derive(Clone, Copy, Debug, PartialEq, Eq)]
pub enum PeriodHead {
    /// `period`: the period in which a row holds; empty for each.
    Period,
    /// `keep most`: the most that a place keeps from a period to the next.
    KeepMost,
    /// `keep cost`: the cost of each unit that it keeps.
    KeepCost,
    /// `first stock`: what is there before the first period.
    FirstStock,
    /// `last stock`: what must be left after the last period.
    LastStock,
    /// `lead`: after how many periods what is sent arrives.
    Lead,
}

// The heads that are looked for in the table of places.
static PLACE_HEADS: [PeriodHead; 5] = [
    PeriodHead::Period,
    PeriodHead::KeepMost,
    PeriodHead::KeepCost,
    PeriodHead::FirstStock,
    PeriodHead::LastStock,
];

// The heads that are looked for in the table of routes.
static ROUTE_HEADS: [PeriodHead; 2] = [PeriodHead::Period, PeriodHead::Lead];

// The heads that are looked for in a table.
pub(crate) fn heads_of(table: Table) -> &'static [PeriodHead]
    ensures { result.now ≡ heads_of table }
{
    match table {
        Table::Places => &PLACE_HEADS,
        Table::Routes => &ROUTE_HEADS,
    }
}

// The text of a head.
pub(crate) fn head_text(head: PeriodHead) -> &'static [u8]
    ensures { result.now ≡ head_text head }
{
    match head {
        PeriodHead::Period => b"period",
        PeriodHead::KeepMost => b"keep most",
        PeriodHead::KeepCost => b"keep cost",
        PeriodHead::FirstStock => b"first stock",
        PeriodHead::LastStock => b"last stock",
        PeriodHead::Lead => b"lead",
    }
}

// The column of a table that has this head.
pub(crate) fn column_under(records: &Records, head: PeriodHead) -> Column
    ensures { result ≡ column_under records.now head }
{
    records.column_of(head_text(head))
}

// The place of the column with this head, if just one has it.
pub(crate) fn place_under(records: &Records, head: PeriodHead) -> Option<usize>
    ensures { result ≡ place_under records.now head }
{
    column_under(records, head).only_place()
}

// Whether a table has a column with one of these heads.
pub(crate) fn has_any(records: &Records, heads: &[PeriodHead]) -> bool
    ensures { result ≡ has_any records.now heads.now }
{
    for place in 0..heads.len() {
        if column_under(records, heads[place]).is_there() {
            return true;
        }
    }
    false
}
