//! What is wrong with a table of persons and things, and where.
ghost use Rattle.std.specs.Prelude.{◌≡◌, ◌++◌, OnOk};
ghost use Rattle.mcf_roster_reading.specs.Faults.{name_kind, number_kind, told};

use mcf_decimal::NumberFault;
use mcf_names::{NameFault, name_fault};
use mcf_table::CellPlace;
use mcf_text::NoMemory;

/// The head of a column that is read.
#[derive(Clone, Copy, Debug, PartialEq, Eq)]
pub enum Head {
    /// `who`: the person of a pair, in a list.
    Who,
    /// `what`: the thing of a pair, in a list.
    What,
    /// `cost`: what a pair costs, in a list.
    Cost,
    /// `takes`: how many things a person takes.
    Takes,
    /// `needs`: how many persons a thing needs, in a list.
    Needs,
}

/// Where a fault is.
#[derive(Clone, Copy, Debug, PartialEq, Eq)]
pub enum Location {
    /// The row of the heads.
    Heads,
    /// The column with this head.
    Under(Head),
    /// A cell; rows are counted from 0, and row 0 has the heads.
    Cell(CellPlace),
}

/// What is wrong with a cell, a column or the table.
#[derive(Clone, Copy, Debug, PartialEq, Eq)]
pub enum FaultKind {
    /// No column has this head.
    NoColumn,
    /// Two columns or more have this head.
    TwoColumns,
    /// The head of a list isn't one that is read, and is nearly this one.
    NearHead(Head),
    /// The cell shows another mark before decimals than the first cell that shows one.
    BothMarks,
    /// The cell isn't empty and stands beyond the last head.
    Beyond,
    /// The cell isn't a name.
    Name(NameFault),
    /// An earlier cell of a matrix has this name, or an earlier row of a list this pair.
    Twice,
    /// The cell isn't a number.
    Number(NumberFault),
    /// The cell is no number of one to eighteen digits, and no range of such numbers.
    NoRange,
    /// An earlier cell says another number of the same person or thing.
    TwoRanges,
    /// The table names no thing.
    NoThing,
    /// The table names things, and no person.
    NoPerson,
}

/// A fault of a table.
#[derive(Clone, Copy, Debug, PartialEq, Eq)]
pub struct Fault {
    /// Where it is.
    pub at: Location,
    /// What is wrong there.
    pub kind: FaultKind,
}

// Appends the fault of a kind at a location, if there is one.
pub(crate) fn push_told(
    faults: &mut Vec<Fault>,
    at: Location,
    kind: Option<FaultKind>,
) -> Result<(), NoMemory>
    ensures { OnOk result (faults.new.items ≡ faults.old.items ++ told at kind) }
{
    if let Some(kind) = kind {
        faults.push(Fault { at, kind })?;
    }
    Ok(())
}

// Why a cell isn't a name.
pub(crate) fn name_kind(cell: &[u8]) -> Option<FaultKind>
    ensures { result ≡ name_kind cell.now }
{
    match name_fault(cell) {
        Some(fault) => Some(FaultKind::Name(fault)),
        None => None,
    }
}

// Why a cell wasn't read as a number.
pub(crate) fn number_kind(fault: Option<NumberFault>) -> Option<FaultKind>
    ensures { result ≡ number_kind fault }
{
    match fault {
        Some(fault) => Some(FaultKind::Number(fault)),
        None => None,
    }
}
