//! Where cells stand in the two tables.

/// One of the two tables.
#[derive(Clone, Copy, Debug, PartialEq, Eq)]
pub enum Table {
    /// The table of places.
    Places,
    /// The table of routes.
    Routes,
}

/// The head of a column that is read. The steps of a route are counted from 1.
#[derive(Clone, Copy, Debug, PartialEq, Eq)]
pub enum Head {
    /// `name`: the name of a place.
    Name,
    /// `supply`: what a place gives; below 0, what it wants.
    Supply,
    /// `least`: the least that passes through a place, or that a route carries.
    Least,
    /// `most`, or from the second step on `most 2` and so on: the most that passes through a place,
    /// or that a step of a route carries.
    Most(usize),
    /// `cost`, or from the second step on `cost 2` and so on: the cost of each unit.
    Cost(usize),
    /// `penalty`: the cost of each unit that is missing at a place.
    Penalty,
    /// `from`: the place at which a route begins.
    From,
    /// `to`: the place at which it ends.
    To,
    /// `both`: whether a route is used both ways.
    Both,
}

/// A column of a table.
#[derive(Clone, Copy, Debug, PartialEq, Eq)]
pub enum ColumnAt {
    /// The column with this head.
    Under(Head),
    /// The column at this place, which has no head, or one that isn't read; places are counted from
    /// 0.
    Placed(usize),
}

/// Where a cell stands.
#[derive(Clone, Copy, Debug, PartialEq, Eq)]
pub struct Location {
    /// Its table.
    pub table: Table,
    /// Its row; rows are counted from 0, and row 0 has the heads.
    pub row: usize,
    /// Its column.
    pub column: ColumnAt,
}
