//! Numbers that add up.
ghost use Rattle.std.specs.Prelude.{◌≡◌, max, map, false, true, MatchOption};
ghost use Rattle.std.specs.List.{list_all};
ghost use Rattle.mcf_decimal.specs.Decimals.{at_scale};
ghost use Rattle.mcf_forms.specs.Sums.{add_up, fits, is_readable, number_in, read_cell, scale_of, sum_at, zero_decimal};

use crate::cells::is_filled;
use mcf_decimal::{Decimal, Mark, NumberFault, number};

// What the cell says under this mark: 0 if it is empty.
#[tactic(auto, unfolding(crate::specs::Sums::read_cell))]
fn read_cell(mark: Mark, cell: &[u8]) -> Result<Decimal, NumberFault>
    ensures { result ≡ read_cell mark cell.now }
{
    if is_filled(cell) {
        number(cell, Some(mark))
    } else {
        Ok(zero_decimal())
    }
}

// The decimal 0.
fn zero_decimal() -> Decimal
    ensures { result ≡ zero_decimal }
{
    Decimal {
        mantissa: 0,
        places: 0,
    }
}

// The number in the cell under this mark, 0 if it is empty; `None` if it is no number.
#[tactic(auto, unfolding(crate::specs::Sums::is_readable, crate::specs::Sums::number_in))]
pub(crate) fn number_in(mark: Mark, cell: &[u8]) -> Option<Decimal>
    ensures { MatchOption result (is_readable mark cell.now ≡ false) (λ number. (is_readable mark cell.now ≡ true) × (number ≡ number_in mark cell.now)) }
{
    match read_cell(mark, cell) {
        Ok(number) => Some(number),
        Err(_) => None,
    }
}

// The most decimals that any of these numbers has.
fn scale_of(numbers: &[Decimal]) -> u32
    ensures { result ≡ scale_of numbers.now }
{
    let mut scale = 0;
    for place in 0..numbers.len() {
        scale = scale.max(numbers[place].places);
    }
    scale
}

// The number in units of 10 to the power of minus `scale`, if that is a whole number that fits.
#[tactic(auto, unfolding(crate::specs::Sums::fits))]
fn value_at(number: Decimal, scale: u32) -> Option<i64>
    ensures { MatchOption result (fits scale number ≡ false) (λ value. (fits scale number ≡ true) × (value ≡ at_scale scale number)) }
{
    number.at_scale(scale)
}

// The sum of the numbers in these units, if each fits.
fn sum_at(numbers: &[Decimal], scale: u32) -> Option<i128>
    ensures { MatchOption result (list_all (fits scale) numbers.now ≡ false) (λ sum. (list_all (fits scale) numbers.now ≡ true) × (sum ≡ sum_at scale numbers.now)) }
{
    let mut sum = 0i128;
    for place in 0..numbers.len() {
        let value = value_at(numbers[place], scale)?;
        sum += i128::from(value);
    }
    Some(sum)
}

// Whether the total is the exact sum of the numbers.
#[tactic(auto, unfolding(crate::specs::Sums::add_up))]
pub(crate) fn add_up(numbers: &[Decimal], total: Decimal) -> bool
    ensures { result ≡ add_up numbers.now total }
{
    let scale = total.places.max(scale_of(numbers));
    match (sum_at(numbers, scale), value_at(total, scale)) {
        (Some(sum), Some(value)) => sum == i128::from(value),
        _ => false,
    }
}
