//! What is wrong with a table of groups, and where.
ghost use Rattle.std.specs.Prelude.{◌≡◌, ◌++◌, OnOk};
ghost use Rattle.mcf_group_reading.specs.Faults.{if_kind, name_kind, told};

use mcf_names::{NameFault, name_fault};
use mcf_table::CellPlace;
use mcf_text::NoMemory;

/// The head of a column that is read.
#[derive(Clone, Copy, Debug, PartialEq, Eq)]
pub enum Head {
    /// `group`: the name of a group.
    Group,
    /// `who`: a person that is a member of the group.
    Who,
    /// `what`: a thing that is a member of the group.
    What,
    /// `least`: the least number of members that anyone has.
    Least,
    /// `most`: the greatest number of members that anyone has.
    Most,
}

/// Where a fault is.
#[derive(Clone, Copy, Debug, PartialEq, Eq)]
pub enum Location {
    /// The row of the heads.
    Heads,
    /// The column with this head.
    Under(Head),
    /// A cell; rows are counted from 0, and row 0 has the heads.
    Cell(CellPlace),
}

/// What is wrong with a cell, a column or the table.
#[derive(Clone, Copy, Debug, PartialEq, Eq)]
pub enum FaultKind {
    /// No column has this head.
    NoColumn,
    /// Two columns or more have this head.
    TwoColumns,
    /// No column has the head `who`, and none the head `what`.
    NoMembers,
    /// The head isn't one that is read, and is nearly this one.
    NearHead(Head),
    /// No row stands below the heads.
    NoGroup,
    /// The cell isn't empty and stands beyond the last head.
    Beyond,
    /// The cell isn't a name.
    Name(NameFault),
    /// The row names no person and no thing.
    Neither,
    /// The row names a person and a thing.
    Both,
    /// The other table doesn't name this person or thing.
    Unknown,
    /// The first row of the group names a thing and this row a person, or the other way round.
    Mixed,
    /// An earlier row has this member of the group.
    Twice,
    /// The cell is no number of one to eighteen digits.
    NoNumber,
    /// An earlier cell says another number of the same group.
    TwoNumbers,
    /// The least number of the group is above its greatest.
    Above,
}

/// A fault of a table.
#[derive(Clone, Copy, Debug, PartialEq, Eq)]
pub struct Fault {
    /// Where it is.
    pub at: Location,
    /// What is wrong there.
    pub kind: FaultKind,
}

// The kind, if the test holds.
pub(crate) fn if_kind(test: bool, kind: FaultKind) -> Option<FaultKind>
    ensures { result ≡ if_kind test kind }
{
    if test { Some(kind) } else { None }
}

// Appends the fault of a kind at a location, if there is one.
pub(crate) fn push_told(
    faults: &mut Vec<Fault>,
    at: Location,
    kind: Option<FaultKind>,
) -> Result<(), NoMemory>
    ensures { OnOk result (faults.new.items ≡ faults.old.items ++ told at kind) }
{
    if let Some(kind) = kind {
        faults.push(Fault { at, kind })?;
    }
    Ok(())
}

// Why a cell isn't a name.
pub(crate) fn name_kind(cell: &[u8]) -> Option<FaultKind>
    ensures { result ≡ name_kind cell.now }
{
    match name_fault(cell) {
        Some(fault) => Some(FaultKind::Name(fault)),
        None => None,
    }
}
