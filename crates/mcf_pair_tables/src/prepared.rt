//! The rows of a table as they are read.
ghost use Rattle.std.specs.Prelude.{◌≡◌, IfOk};
ghost use Rattle.mcf_text.specs.Lines.{lines_of};
ghost use Rattle.mcf_pair_tables.specs.PairForms.{IsDoneTo, as_list, lost_total, prepared_costs, shared_needs, untotalled, wish_count};

use mcf_forms::{Filling, WithoutTotal, filled_columns, wishes_of, without_total};
use mcf_roster_reading::is_list;
use mcf_table::Records;
use mcf_text::NoMemory;
use std::alloc::Global;

/// What was done to the rows of a table of persons and things before they were read.
#[derive(Drop)]
pub struct Done {
    /// How many wishes the list has that a sheet of wishes became; `None` if the table isn't one.
    pub wishes: Option<usize>,
    /// What a column `needs` of that sheet says for each thing; empty if it says nothing.
    pub needs: Vec<u8>,
    /// The line of the row of totals that was left out of a list, if there was one.
    pub total: Option<usize>,
    /// The columns that were filled down, in the order of the heads that name them.
    pub filled: Vec<Filling>,
}

// The rows of a table as they are read, and what was done to them.
#[derive(Drop)]
pub(crate) struct ReadRows {
    pub(crate) rows: Records,
    pub(crate) done: Done,
}

// Rows as a list.
#[derive(Drop)]
struct Listed {
    rows: Records,
    // How many wishes there are, if the rows were a sheet of wishes.
    wishes: Option<usize>,
    // What its column `needs` says.
    needs: Vec<u8>,
}

// The rows, as a list if they are a sheet of wishes.
fn as_list(alloc: Global, rows: Records) -> Result<Listed, NoMemory>
    ensures rows { IfOk result (λ made. made.rows ≡ as_list rows) }
    ensures wishes { IfOk result (λ made. made.wishes ≡ wish_count rows) }
    ensures needs { IfOk result (λ made. made.needs.items ≡ shared_needs rows) }
{
    match wishes_of(alloc, &rows)? {
        Some(list) => Ok(Listed {
            rows: list.rows,
            wishes: Some(list.count),
            needs: list.needs,
        }),
        None => Ok(Listed {
            rows,
            wishes: None,
            needs: Vec::new(alloc),
        }),
    }
}

// The rows without a last one of totals, if they are a list.
fn untotalled(alloc: Global, rows: Records) -> Result<WithoutTotal, NoMemory>
    ensures rows { IfOk result (λ made. made.rows ≡ untotalled rows) }
    ensures line { IfOk result (λ made. made.line ≡ lost_total rows) }
{
    if is_list(&rows) {
        without_total(alloc, rows)
    } else {
        Ok(WithoutTotal { rows, line: None })
    }
}

// The rows of a table of persons and things as they are read: a sheet of wishes becomes a list, a
// list loses a last row of totals, and columns are filled down.
pub(crate) fn prepared_costs(
    alloc: Global,
    rows: Records,
    fill_down: &[u8],
) -> Result<ReadRows, NoMemory>
    ensures rows { IfOk result (λ made. made.rows ≡ prepared_costs (lines_of fill_down.now) rows) }
    ensures done { IfOk result (λ made. IsDoneTo (lines_of fill_down.now) rows made.done) }
{
    let list = as_list(alloc, rows)?;
    let left = untotalled(alloc, list.rows)?;
    let made = filled_columns(alloc, left.rows, fill_down)?;
    Ok(ReadRows {
        rows: made.rows,
        done: Done {
            wishes: list.wishes,
            needs: list.needs,
            total: left.line,
            filled: made.columns,
        },
    })
}
