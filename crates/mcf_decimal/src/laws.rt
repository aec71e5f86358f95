//! Laws of numbers in cells.
ghost use Rattle.mcf_decimal.specs.Laws.{CellsSayOneNumber, WholeNumbersReadAlike};

/// A cell says at most one number, if it is known which mark is settled.
pub fn cells_say_one_number()
    ensures { CellsSayOneNumber }
{}

/// A whole number without anything between its thousands is the same number, whichever mark is
/// settled, and if none is.
pub fn whole_numbers_read_alike()
    ensures { WholeNumbersReadAlike }
{}
