//! Whole numbers of 128 bits in two words.
ghost use Rattle.std.specs.Prelude.{◌≡◌, ◌≤◌, IfOk, OnErr, length, map};
ghost use Rattle.mcf_c.specs.DoubleMatrices.{wide_value, wide_values};
ghost use Rattle.mcf_c.specs.Handing.{mark_of};

use crate::verdicts::words;
use mcf_text::NoMemory;
use std::alloc::Global;

/// A whole number in two words: `low + 2^64 high`.
#[repr(C)]
#[derive(Clone, Copy)]
pub struct McfWide {
    pub low: u64,
    pub high: i64,
}

/// Returns the words of a number.
pub(crate) fn wide_of(n: i128) -> McfWide
    ensures { wide_value result ≡ n }
{
    if n < 0 {
        let (low, high) = words((-(n + 1)) as u128);
        return McfWide {
            low: u64::MAX - low,
            high: -1 - high as i64,
        };
    }
    let (low, high) = words(n as u128);
    McfWide {
        low,
        high: high as i64,
    }
}

// Returns the number of two words.
fn number_of(wide: McfWide) -> i128
    ensures { result ≡ wide_value wide }
{
    i128::from(wide.low) + i128::from(wide.high) * 0x1_0000_0000_0000_0000
}

// Returns 1 for a place in a set, and 0 for another.
fn wide_mark(is_in: bool) -> McfWide
    ensures { wide_value result ≡ mark_of is_in }
{
    McfWide {
        low: if is_in { 1 } else { 0 },
        high: 0,
    }
}

/// Writes numbers into a buffer for them.
pub(crate) fn put_wide(numbers: &[i128], room: &mut [McfWide])
    requires { length room.old ≡ length numbers.now }
    ensures { wide_values room.new ≡ numbers.now }
{
    for i in 0..numbers.len() {
        room[i] = wide_of(numbers[i]);
    }
}

/// Writes 1 for each place in a set and 0 for all others into a buffer.
pub(crate) fn put_wide_marks(table: &[bool], room: &mut [McfWide])
    requires { length room.old ≡ length table.now }
    ensures { wide_values room.new ≡ map mark_of table.now }
{
    for i in 0..table.len() {
        room[i] = wide_mark(table[i]);
    }
}

/// Returns the numbers of a list of two words each.
pub(crate) fn numbers_of(alloc: Global, wides: &[McfWide]) -> Result<Vec<i128>, NoMemory>
    ensures value { IfOk result (λ made. made.items ≡ wide_values wides.now) }
    ensures wants { OnErr result (1 ≤ length wides.now) }
{
    let mut numbers = Vec::new(alloc);
    for place in 0..wides.len() {
        numbers.push(number_of(wides[place]))?;
    }
    Ok(numbers)
}
