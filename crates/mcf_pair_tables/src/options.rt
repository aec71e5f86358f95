//! What is asked.
use mcf_decimal::Mark;

/// The text of a table of persons and things, in UTF-8, and which of its columns are filled down.
#[derive(Clone, Copy)]
pub struct CostTexts<'t> {
    /// The table.
    pub costs: &'t [u8],
    /// The heads of the columns in which an empty cell takes the one above, one a line.
    pub fill_down: &'t [u8],
}

/// Who gets just one, where no cell says how many.
#[derive(Clone, Copy, Debug, PartialEq, Eq)]
pub enum Each {
    /// Each person takes one thing; a thing has at most one person.
    Who,
    /// Each thing has one person; a person takes at most one thing.
    What,
    /// Each person takes one thing, and each thing has one person.
    Both,
}

/// How a table is read, and which choice is the best.
#[derive(Clone, Copy, Debug)]
pub struct Options {
    /// The mark before decimals, or `None` for the one that costs show.
    pub mark: Option<Mark>,
    /// Who gets just one; `None` for each thing, if a cell says how many a person or a thing has,
    /// and otherwise for each person.
    pub each: Option<Each>,
    /// Whether costs are values, of which a choice has as much as possible.
    pub maximise: bool,
}
