//! What is wrong with a cell.
use crate::locations::{Head, Location};
use mcf_decimal::NumberFault;
use mcf_names::NameFault;

/// What is wrong with a cell, or with a column.
#[derive(Clone, Copy, Debug, PartialEq, Eq)]
pub enum FaultKind {
    /// No column has this head.
    NoColumn,
    /// Two columns or more have this head.
    TwoColumns,
    /// The head isn't one that is read, and is nearly this one.
    NearHead(Head),
    /// The head is that of a step, and isn't read, since no column has this head.
    Without(Head),
    /// The cell shows another mark before decimals than the first cell that shows one.
    BothMarks,
    /// The cell isn't empty and stands beyond the last head.
    Beyond,
    /// The cell isn't a name.
    Name(NameFault),
    /// An earlier row names this place.
    Twice,
    /// No place has this name.
    NoPlace,
    /// The cell isn't a number.
    Number(NumberFault),
    /// The step before has no limit.
    AfterNoLimit,
    /// The cell is neither yes nor no.
    NotYesNo,
}

/// A fault of a table.
#[derive(Clone, Copy, Debug, PartialEq, Eq)]
pub struct Fault {
    /// Where it is.
    pub at: Location,
    /// What is wrong there.
    pub kind: FaultKind,
}
