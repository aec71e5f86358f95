//! Why a cell isn't read as a number.

/// Why a cell isn't read as a number.
#[derive(Clone, Copy, Debug, PartialEq, Eq)]
pub enum NumberFault {
    /// The cell is empty.
    Empty,
    /// The cell is written with an exponent, as 1e3.
    Exponent,
    /// No mark is settled, and the cell may be either of two numbers, as 1.500.
    Either,
    /// The cell is a number, if the other mark stands before decimals.
    OtherMark,
    /// The cell is no number.
    NoNumber,
    /// The cell is a number, whose digits don't fit 128 bits; zeros that end its decimals don't
    /// count.
    TooLong,
}
