//! Answers to instances, returned in arrays.
ghost use Rattle.std.specs.Prelude.{◌≡◌, ◌≢◌, ◌≤◌, ◌<◌, ◌⊎◌, ◌↔◌, FitsSigned, IfOk, List, Ok, OnErr, Some, length, map, set, true, false, ℤ, ℕ, pos};
ghost use Rattle.std.specs.Int.{w64};
ghost use Rattle.std.specs.List.{All};
ghost use Rattle.mcf_c.specs.Handing.{Answers, FitWords, HandsSet, IsMadeFlow, TakesMemory, mark_of};
ghost use Rattle.mcf_c.specs.Verdicts.{Tells, TellsSet};
ghost use Rattle.mcf_checker.specs.Correct.{IsRightSolution, amounts};
ghost use Rattle.mcf_flows.specs.Blocking.{in_list, in_table};
ghost use Rattle.mcf_flows.specs.Network.{IsNode, Network, node_count};
ghost use Rattle.mcf_solver.specs.Answering.{IsNoFlowProof, IsOwed};
ghost use Rattle.mcf_solver.specs.Forms.{HasForm};
ghost use Rattle.mcf_solver.specs.Making.{HasMadeFlow, IsMadeBy};

use crate::choosing::Asked;
use crate::judging::accepts;
use crate::statuses::{BLOCKED, FLOW, NO_MEMORY, NOT_SHOWN, PRICE_OVERFLOW};
use crate::verdicts::{McfVerdict, numbers, set_numbers};
use mcf_answer::{Answer, BlockedAnswer, FlowAnswer, Sent};
use mcf_checker::{Verdict, check_flow};
use mcf_flows::NODE_LIMIT;
use mcf_instance::{Instance, table_of};
use mcf_solver::{Choice, Form, solve_instance, solve_instance_from};
use mcf_text::NoMemory;
use std::alloc::Global;

// Whether a number fits 64 bits.
fn fits(n: i128) -> bool
    ensures yes { result ≡ true → FitsSigned w64 n }
    ensures no { result ≡ false → ¬ FitsSigned w64 n }
{
    if n < -0x8000_0000_0000_0000 {
        return false;
    }
    n <= 0x7fff_ffff_ffff_ffff
}

// Writes a number at a place, unless it doesn't fit.
fn store(room: &mut [i64], place: usize, n: i128) -> bool
    requires { place < length room.old }
    ensures stored { result ≡ true → room.new ≡ set room.old place n }
    ensures wide { result ≡ false → ¬ FitsSigned w64 n }
{
    if !fits(n) {
        return false;
    }
    room[place] = n as i64;
    true
}

// The flow of an arc.
fn flow_of(sent: &Sent) -> i128
    ensures { result ≡ sent.now.flow }
{
    sent.flow
}

// Writes the flows of arcs into a buffer.
fn put_flow(sent: &[Sent], room: &mut [i64])
    requires same { length room.old ≡ length sent.now }
    requires fits { FitWords (amounts sent.now) }
    ensures { room.new ≡ amounts sent.now }
{
    for i in 0..sent.len() {
        room[i] = flow_of(&sent[i]) as i64;
    }
}

// Writes prices into a buffer, unless one doesn't fit.
fn put_prices(prices: &[i128], room: &mut [i64]) -> bool
    requires { length room.old ≡ length prices.now }
    ensures written { result ≡ true → room.new ≡ prices.now }
    ensures wide { result ≡ false → ¬ FitWords prices.now }
{
    for i in 0..prices.len() {
        let price = prices[i];
        if !store(room, i, price) {
            return false;
        }
    }
    true
}

// Returns a flow.
fn hand_flow(
    answer: &FlowAnswer,
    flow: &mut [i64],
    prices: &mut [i64],
    told: &mut McfVerdict,
) -> u32
    requires flow { length flow.old ≡ length answer.now.sent }
    requires prices { length prices.old ≡ length answer.now.prices }
    requires fits { FitWords (amounts answer.now.sent) }
    ensures statuses { (result ≡ FLOW) ⊎ (result ≡ PRICE_OVERFLOW) }
    ensures flow { result ≡ FLOW → flow.new ≡ amounts answer.now.sent }
    ensures prices { result ≡ FLOW → prices.new ≡ answer.now.prices }
    ensures told { result ≡ FLOW → Tells (Verdict.Flow answer.now.cost) told.new }
    ensures told_stays { result ≡ PRICE_OVERFLOW → told.new ≡ told.old }
    ensures wide { result ≡ PRICE_OVERFLOW → ¬ FitWords answer.now.prices }
{
    put_flow(answer.sent.as_slice(), flow);
    if !put_prices(answer.prices.as_slice(), prices) {
        return PRICE_OVERFLOW;
    }
    *told = numbers(&Verdict::Flow(answer.cost));
    FLOW
}

// The mark of a node, by whether it is in a set.
fn mark_of(is_in: bool) -> i64
    ensures { result ≡ mark_of is_in }
{
    if is_in { 1 } else { 0 }
}

/// Writes the marks of a set's nodes into a room for them.
pub(crate) fn put_marks(table: &[bool], marks: &mut [i64])
    requires { length marks.old ≡ length table.now }
    ensures { marks.new ≡ map mark_of table.now }
{
    for i in 0..table.len() {
        marks[i] = mark_of(table[i]);
    }
}

// Returns a node set that blocks an instance.
fn hand_set(
    alloc: Global,
    instance: &Instance,
    answer: &BlockedAnswer,
    marks: &mut [i64],
    told: &mut McfVerdict,
) -> u32
    requires marks { length marks.old ≡ node_count instance.now }
    requires blocks { IsNoFlowProof instance.now answer.now }
    ensures statuses { (result ≡ BLOCKED) ⊎ (result ≡ NO_MEMORY) }
    ensures set { result ≡ BLOCKED → HandsSet instance.now marks.new told.new }
    ensures memory { result ≡ NO_MEMORY → 1 ≤ node_count instance.now }
    ensures marks_stay { result ≡ NO_MEMORY → marks.new ≡ marks.old }
    ensures told_stays { result ≡ NO_MEMORY → told.new ≡ told.old }
{
    let nodes = answer.nodes.as_slice();
    let Ok(table) = table_of(alloc, instance.node_count(), nodes) else {
        return NO_MEMORY;
    };
    put_marks(&table, marks);
    *told = set_numbers(answer.side, nodes.len());
    BLOCKED
}

// Whether the checker accepts a right answer, if it is asked.
fn is_accepted(
    alloc: Global,
    instance: &Instance,
    answer: &FlowAnswer,
    is_asked: bool,
) -> Result<bool, NoMemory>
    requires right { IsRightSolution instance.now answer.now }
    ensures yes { IfOk result (λ yes. yes ≡ true) }
    ensures wants { OnErr result (1 ≤ node_count instance.now) }
{
    if !is_asked {
        return Ok(true);
    }
    let verdict = check_flow(alloc, instance, answer)?;
    Ok(accepts(&verdict))
}

/// Answers an instance in arrays: its flow by arc and its prices by node, or, instead of the
/// prices, the marks of a blocking set.
pub(crate) fn answer_instance(
    alloc: Global,
    instance: &Instance,
    asked: Asked,
    flow: &mut [i64],
    prices: &mut [i64],
    told: &mut McfVerdict,
) -> u32
    requires flow { length flow.old ≡ length instance.now.arcs }
    requires prices { length prices.old ≡ node_count instance.now }
    ensures answers { Answers instance.now (Some asked.choice) result flow.old flow.new prices.old prices.new told.old told.new }
    ensures made { result ≡ FLOW → asked.is_again ≡ false → IsMadeFlow asked.choice instance.now flow.new }
{
    prove!(instance.node_count() <= NODE_LIMIT);
    let is_judged = asked.is_judged;
    let Ok(answer) = answer_asked(alloc, instance, asked, flow, prices) else {
        return NO_MEMORY;
    };
    match &answer {
        Answer::Flow(answer) => match is_accepted(alloc, instance, answer, is_judged) {
            Ok(true) => hand_flow(answer, flow, prices, told),
            Ok(false) => NOT_SHOWN,
            Err(_) => NO_MEMORY,
        },
        Answer::Blocked(answer) => hand_set(alloc, instance, answer, prices, told),
        Answer::Sparse(_) | Answer::Refused(_) => unreachable!(),
    }
}

// The answer to an instance: from nothing, or from the answer to a similar one.
fn answer_asked(
    alloc: Global,
    instance: &Instance,
    asked: Asked,
    flow: &[i64],
    prices: &[i64],
) -> Result<Answer, NoMemory>
    ensures owed { IfOk result (IsOwed (Ok instance.now)) }
    ensures made { asked.is_again ≡ false → IfOk result (HasMadeFlow (IsMadeBy asked.choice) (Ok instance.now)) }
    ensures formed { IfOk result (HasForm Form.One (Ok instance.now)) }
    ensures wants { OnErr result (TakesMemory asked.choice.engine instance.now) }
{
    if asked.is_again {
        return solve_instance_from(alloc, instance, Form::One, flow, prices);
    }
    let choice = Choice {
        form: Form::One,
        ..asked.choice
    };
    solve_instance(alloc, instance, choice)
}
