//! What is wrong with what tables say about periods.
ghost use Rattle.std.specs.Prelude.{◌≡◌, ◌++◌, OnOk};
ghost use Rattle.mcf_period_reading.specs.PeriodFaults.{if_kind, told};

use crate::heads::PeriodHead;
use mcf_decimal::NumberFault;
use mcf_names::NameFault;
use mcf_reading::Table;
use mcf_text::NoMemory;

/// What is wrong with a cell, or with a column.
#[derive(Clone, Copy, Debug, PartialEq, Eq)]
pub enum PeriodKind {
    /// Two columns or more have this head.
    TwoColumns,
    /// The table of places has no column of periods.
    NoPeriods,
    /// No column has this head, and the title of the column at this place, from 0, nearly is it.
    NearHead(usize),
    /// No row of places names a period.
    NoneNamed,
    /// The cell isn't a name.
    Name(NameFault),
    /// An earlier row names this place, and holds in this period or in each.
    Twice,
    /// No row of places holds in this period.
    NoPeriod,
    /// The cell isn't a number.
    Number(NumberFault),
    /// The amount is below 0.
    BelowZero,
    /// The lead isn't a whole number from 0 to 4,294,967,295.
    NoLead,
    /// Stock before the first period stands in the row of another period.
    NotFirst,
    /// Stock after the last period stands in the row of another period.
    NotLast,
}

/// A fault.
#[derive(Clone, Copy, Debug, PartialEq, Eq)]
pub struct PeriodFault {
    /// The table.
    pub table: Table,
    /// The row; rows are counted from 0, and row 0 has the heads.
    pub row: usize,
    /// The column.
    pub head: PeriodHead,
    /// What is wrong there.
    pub kind: PeriodKind,
}

// The kind, if the test holds.
pub(crate) fn if_kind(test: bool, kind: PeriodKind) -> Option<PeriodKind>
    ensures { result ≡ if_kind test kind }
{
    if test { Some(kind) } else { None }
}

// Appends the fault of a kind, if there is one.
pub(crate) fn push_told(
    faults: &mut Vec<PeriodFault>,
    table: Table,
    row: usize,
    head: PeriodHead,
    kind: Option<PeriodKind>,
) -> Result<(), NoMemory>
    ensures { OnOk result (faults.new.items ≡ faults.old.items ++ told table row head kind) }
{
    if let Some(kind) = kind {
        faults.push(PeriodFault {
            table,
            row,
            head,
            kind,
        })?;
    }
    Ok(())
}
