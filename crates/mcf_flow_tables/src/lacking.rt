//! Heads that two tables lack.
ghost use Rattle.std.specs.Prelude.{◌≡◌, IfOk};
ghost use Rattle.mcf_text.specs.Lines.{numbered_lines};
ghost use Rattle.mcf_flow_tables.specs.Lacking.{lack, lacking};

use mcf_forms::first_column;
use mcf_table::Records;
use mcf_text::{NoMemory, split_line};
use std::alloc::Global;

// Whether two tables lack a head.
fn lack(one: &Records, other: &Records, head: &[u8]) -> bool
    ensures { result ≡ lack one.now other.now head.now }
{
    first_column(one, head).is_none() && first_column(other, head).is_none()
}

/// The numbers, from 1, of the heads that neither of two tables has, with ASCII letters in either
/// case. Each line of the text `heads` has a head.
///
/// # Errors
///
/// `NoMemory` if an allocation is refused.
pub fn lacking_heads(
    alloc: Global,
    one: &Records,
    other: &Records,
    heads: &[u8],
) -> Result<Vec<usize>, NoMemory>
    ensures { IfOk result (λ made. made.items ≡ lacking one.now other.now (numbered_lines 1 heads.now)) }
{
    let mut made = Vec::new(alloc);
    let mut rest = heads;
    let mut number = 1;
    'heads: while let Some(parts) = split_line(rest) {
        if lack(one, other, parts.0) {
            made.push(number)?;
        }
        number += 1;
        rest = parts.1;
    }
    Ok(made)
}
