//! What is asked.
use mcf_decimal::Mark;
use mcf_units::Terms;

/// How tables are read, and what plans may leave.
#[derive(Clone, Copy, Debug)]
pub struct Options {
    /// The mark before decimals, or `None` for the one that cells show.
    pub mark: Option<Mark>,
    /// What plans may leave.
    pub terms: Terms,
}

/// The texts of two tables, in UTF-8, and which of their columns are filled down.
#[derive(Clone, Copy)]
pub struct Texts<'t> {
    /// The table of places.
    pub places: &'t [u8],
    /// The table of routes.
    pub routes: &'t [u8],
    /// The heads of the columns in which an empty cell takes the one above, one a line.
    pub fill_down: &'t [u8],
}
