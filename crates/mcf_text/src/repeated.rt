//! Lists of one value.
ghost use Rattle.std.specs.Prelude.{◌≡◌, ◌≤◌, IfOk, OnErr, replicate};

use crate::error::NoMemory;
use std::alloc::Global;

/// A list of `count` copies of a value.
///
/// # Errors
///
/// `NoMemory` if the allocation is refused; no copies need none, which `vec!` doesn't promise.
pub fn copies<T: Copy>(alloc: Global, count: usize, value: T) -> Result<Vec<T>, NoMemory>
    ensures value { IfOk result (λ made. made.items ≡ replicate count value) }
    ensures wants { OnErr result (1 ≤ count) }
{
    let mut made = Vec::new(alloc);
    made.resize(count, value)?;
    Ok(made)
}
