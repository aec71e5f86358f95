//! The verdict on an answer text for an instance text.
ghost use Rattle.std.specs.Prelude.{◌≡◌, ◌≤◌, ◌↔◌, ◌⊎◌, Err, IfOk, IsTrue, Ok, OnErr, if◌then◌else◌, length, ℕ, ℤ};
ghost use Rattle.std.specs.List.{All};
ghost use Rattle.mcf_answer.specs.Parsing.{has_item_line};
ghost use Rattle.mcf_checker.specs.Amounts.{answer_along};
ghost use Rattle.mcf_checker.specs.Correct.{GivesLeastFlow, HasNoFlow, IsCorrect, IsRightFlow, IsRightSolution, amounts};
ghost use Rattle.mcf_checker.specs.Judging.{accepts, judged, same_fault, solution_verdict, verdict};
ghost use Rattle.mcf_flows.specs.Flow.{IsLeast};
ghost use Rattle.mcf_flows.specs.Limits.{limits};
ghost use Rattle.mcf_instance.specs.Memory.{NamesNodes};
ghost use Rattle.mcf_flows.specs.Network.{Network, node_count};
ghost use Rattle.mcf_flows.specs.WellFormed.{IsWellFormed};

use crate::amounts::amounts_verdict;
use crate::price::Price;
use crate::set::set_verdict;
use crate::solution::solution_verdict;
use crate::sparse::sparse_verdict;
use crate::verdict::Verdict;
use mcf_answer::{Answer, FlowAnswer, parse};
use mcf_flows::NODE_LIMIT;
use mcf_instance::{Instance, Refusal, read};
use mcf_text::NoMemory;
use std::alloc::Global;

// Whether the refusals name the same line and the same code.
fn is_same(refusal: &Refusal, fault: &Refusal) -> bool
    ensures { result ≡ same_fault refusal.now fault.now }
{
    refusal.line == fault.line && refusal.code.word() == fault.code.word()
}

// The verdict on a refusal of an instance text with a fault.
fn refusal_verdict(refusal: &Refusal, fault: &Refusal) -> Verdict
    ensures { result ≡ (if same_fault refusal.now fault.now
        then Verdict.Refused refusal.now else Verdict.BadRefusal) }
{
    if is_same(refusal, fault) {
        Verdict::Refused(*refusal)
    } else {
        Verdict::BadRefusal
    }
}

// The verdict on an answer to an instance text with a fault.
#[tactic(auto, unfolding(crate::specs::Judging::judged))]
fn fault_verdict(fault: &Refusal, answer: &Answer) -> Verdict
    ensures { result ≡ judged (Err fault.now) (Ok answer.now) }
{
    match answer {
        Answer::Refused(refusal) => refusal_verdict(refusal, fault),
        Answer::Flow(_) | Answer::Sparse(_) | Answer::Blocked(_) => Verdict::BadKind,
    }
}

// The verdict on an answer to an instance text without a fault.
#[tactic(auto, unfolding(crate::specs::Judging::judged))]
fn instance_verdict(
    alloc: Global,
    instance: &Instance,
    answer: &Answer,
) -> Result<Verdict, NoMemory>
    ensures value { IfOk result (λ v. v ≡ judged (Ok instance.now) (Ok answer.now)) }
    ensures wants { OnErr result (1 ≤ node_count instance.now) }
    ensures well_formed { IsWellFormed limits instance.now }
{
    prove!(instance.node_count() <= NODE_LIMIT);
    match answer {
        Answer::Flow(answer) => solution_verdict(alloc, instance, answer),
        Answer::Sparse(answer) => sparse_verdict(alloc, instance, answer),
        Answer::Blocked(answer) => set_verdict(alloc, instance, answer),
        Answer::Refused(_) => Ok(Verdict::BadKind),
    }
}

// The verdict on an answer to the result of reading an instance text.
fn outcome_verdict(
    alloc: Global,
    outcome: &Result<Instance, Refusal>,
    answer: &Answer,
) -> Result<Verdict, NoMemory>
    ensures value { IfOk result (λ v. v ≡ judged outcome.now (Ok answer.now)) }
    ensures wants { OnErr result ((g : Network) × (outcome.now ≡ Ok g) × (1 ≤ node_count g)) }
    ensures well_formed { IfOk outcome.now (IsWellFormed limits) }
{
    match outcome {
        Ok(instance) => instance_verdict(alloc, instance, answer),
        Err(fault) => Ok(fault_verdict(fault, answer)),
    }
}

/// The verdict on a flow with its cost and prices for an instance: the first of `BadArc`,
/// `BadNode`, `BadPrice`, `BadCost` and `Flow` that applies. It accepts exactly if the flow is
/// right, whoever made it; then no feasible flow costs less.
///
/// # Errors
///
/// `NoMemory` if the allocation for the nodes' balances is refused; an instance without nodes needs
/// none.
pub fn check_flow(
    alloc: Global,
    instance: &Instance,
    answer: &FlowAnswer,
) -> Result<Verdict, NoMemory>
    ensures verdict { IfOk result (λ v. v ≡ solution_verdict instance.now answer.now) }
    ensures exact { IfOk result (λ v. IsTrue (accepts v) ↔ IsRightSolution instance.now answer.now) }
    ensures least { IfOk result (λ v. IsTrue (accepts v) → IsLeast instance.now (amounts answer.now.sent)) }
    ensures wants { OnErr result (1 ≤ node_count instance.now) }
{
    prove!(instance.node_count() <= NODE_LIMIT);
    solution_verdict(alloc, instance, answer)
}

/// The verdict on a flow by arc with its cost and prices by node for an instance: that of
/// [`check_flow`] on the answer that gives each arc its amount and each node its price. It makes no
/// such answer, and reads the arrays where they are.
///
/// # Errors
///
/// `NoMemory` if the allocation for the nodes' balances is refused; an instance without nodes needs
/// none.
pub fn check_amounts<P: Price>(
    alloc: Global,
    instance: &Instance,
    total: i128,
    amounts: &[i64],
    prices: &[P],
) -> Result<Verdict, NoMemory>
    requires one_amount_each { length amounts.now ≡ length instance.now.arcs }
    requires prices { All P.IsInRange prices.now }
    ensures verdict { IfOk result (λ v. v ≡ solution_verdict instance.now (answer_along instance.now total amounts.now (P.values prices.now))) }
    ensures exact { IfOk result (λ v. IsTrue (accepts v) ↔ IsRightFlow instance.now total (P.values prices.now) amounts.now) }
    ensures least { IfOk result (λ v. IsTrue (accepts v) → IsLeast instance.now amounts.now) }
    ensures wants { OnErr result (1 ≤ node_count instance.now) }
{
    prove!(instance.node_count() <= NODE_LIMIT);
    amounts_verdict(alloc, instance, total, amounts, prices)
}

/// The verdict on an answer text for an instance text: the first of `Verdict` that applies. It
/// accepts exactly if the answer text is correct, whoever made it.
///
/// It judges any texts, with prices of any size that an answer may have, and any blocking node set.
/// The time is about linear in the two texts.
///
/// # Errors
///
/// `NoMemory` if an allocation for the content of the texts is refused. An instance text needs none
/// if its first problem line isn't valid, names no nodes or follows a fault, nor does an answer
/// text without a line `f`, `g`, `y` or `x` that has content.
pub fn check(alloc: Global, input: &[u8], answer: &[u8]) -> Result<Verdict, NoMemory>
    ensures verdict { IfOk result (λ v. v ≡ verdict input.now answer.now) }
    ensures exact { IfOk result (λ v. IsTrue (accepts v) ↔ IsCorrect input.now answer.now) }
    ensures least { IfOk result (λ v. (total : ℤ) → v ≡ Verdict.Flow total → GivesLeastFlow input.now answer.now total) }
    ensures none { IfOk result (λ v. (count : ℕ) → v ≡ Verdict.Blocked count → HasNoFlow input.now) }
    ensures wants { OnErr result (NamesNodes limits input.now ⊎ IsTrue (has_item_line answer.now)) }
{
    let outcome = read(alloc, input)?;
    match parse(alloc, answer)? {
        Ok(answer) => outcome_verdict(alloc, &outcome, &answer),
        Err(shape) => Ok(Verdict::BadShape(shape.line)),
    }
}
