//! Choices, read from plans of a roster's model.
ghost use Rattle.std.specs.Prelude.{◌≡◌, ◌≤◌, IfOk, OnErr, length, map};
ghost use Rattle.mcf_roster.specs.Models.{choice_of, is_carried};

use crate::rosters::Roster;
use mcf_text::NoMemory;
use std::alloc::Global;

// Returns whether a route carries something.
fn is_carried(amount: i128) -> bool
    ensures { result ≡ is_carried amount }
{
    0 < amount
}

// Returns for each route whether it carries something.
fn carried(alloc: Global, amounts: &[i128]) -> Result<Vec<bool>, NoMemory>
    ensures value { IfOk result (λ made. made.items ≡ map is_carried amounts.now) }
    ensures wants { OnErr result (1 ≤ length amounts.now) }
{
    let mut made = Vec::with_capacity(alloc, amounts.len())?;
    for place in 0..amounts.len() {
        let test = is_carried(amounts[place]);
        made.push(test)?;
    }
    Ok(made)
}

/// Returns the choice of a plan of a roster's model: for each pair, in order, whether it is chosen.
/// The plan has the amount that each route of the model carries, in order.
///
/// # Errors
/// `NoMemory` if an allocation is refused; a roster without pairs needs none.
pub fn choice_of(alloc: Global, roster: &Roster, plan: &[i128]) -> Result<Vec<bool>, NoMemory>
    ensures value { IfOk result (λ made. made.items ≡ choice_of roster.now plan.now) }
    ensures wants { OnErr result (1 ≤ length roster.now.pairs) }
{
    let (own, _) = plan.split_at(plan.len().min(roster.pairs().len()));
    carried(alloc, own)
}
