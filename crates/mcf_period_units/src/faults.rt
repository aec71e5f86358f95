//! What is too great, or too late, in whole units.
use mcf_period_reading::PeriodHead;
use mcf_units::GreatFault;

/// A cell of the table of places in a column about periods.
#[derive(Clone, Copy, Debug, PartialEq, Eq)]
pub struct PeriodCell {
    /// The row; rows are counted from 0, and row 0 has the heads.
    pub row: usize,
    /// The column.
    pub head: PeriodHead,
}

/// A number that is too great, or that there are too many; or a row of routes that is too late.
#[derive(Clone, Copy, Debug, PartialEq, Eq)]
pub enum PeriodGreat {
    /// There are more than `PLACE_LIMIT` places in all periods together.
    Places,
    /// A number that is too great without periods, too, or too many steps.
    Number(GreatFault),
    /// The number in this cell doesn't fit 64 bits, in the unit of all amounts or of all costs.
    Cell(PeriodCell),
    /// What leaves by this row of routes arrives after the last period.
    Late(usize),
}
