//! Instance texts solved.
ghost use Rattle.std.specs.Prelude.{◌≡◌, ◌↔◌, ◌≤◌, ◌⊎◌, ℕ, List, IfOk, IfSome, OnErr, OnOk, drop, length, true, vec_capacity, vec_len};
ghost use Rattle.mcf_checker.specs.Correct.{HasNoFlow, flow_given};
ghost use Rattle.mcf_engine.specs.Outcomes.{AreStatePrices, IsLeastState};
ghost use Rattle.mcf_network.specs.Removal.{net_of};
ghost use Rattle.mcf_network.specs.Restoring.{restored};
ghost use Rattle.mcf_checker.specs.Judging.{accepts, verdict};
ghost use Rattle.mcf_solver.specs.Answering.{AppendsAnswer, HasFault, IsOwed, LacksRoom, MayWant, answer_kind};
ghost use Rattle.mcf_solver.specs.Forms.{HasForm};
ghost use Rattle.mcf_solver.specs.Making.{HasMadeFlow, IsMadeBy, IsMadeBySimplex, meant, suited};
ghost use Rattle.mcf_solver.specs.declared.meant.Meant.TheVariants.{BySimplex};
ghost use Rattle.mcf_solver.specs.Private.Shaping.{MadeFlowsAreShaped};
ghost use Rattle.mcf_flows.specs.Limits.{limits};
ghost use Rattle.mcf_flows.specs.Network.{node_count};
ghost use Rattle.mcf_instance.specs.Reading.{reading};
ghost use Rattle.std.specs.Prelude.{Ok};

use crate::flow::flow_answer;
use crate::hint::hint_of;
use crate::kind::Kind;
use crate::meant::Meant;
use crate::set::set_answer;
use crate::sparse::sparse_answer;
use mcf_again::Again;
use mcf_answer::{Answer, write};
use mcf_assign::Sap;
use mcf_cancel::Cancel;
use mcf_checker::correct_answers_are_accepted;
use mcf_choice::{Choice, EngineChoice, Form, PricingChoice};
use mcf_engine::{Engine, Outcome};
use mcf_fast::Fast;
use mcf_instance::{Instance, Problem, Refusal, read};
use mcf_network::{Net, State, restored_tree_solutions_are_tree_solutions};
use mcf_scaling::Scaling;
use mcf_simplex::{Best, Block, First, Simplex, Wide, runs_are_tree_solutions};
use mcf_text::NoMemory;
use std::alloc::Global;

/// Appends the answer to an instance text: the first fault of the text; or a feasible flow that no
/// feasible flow undercuts, with its cost and the greatest prices not above 0 that show it; or a
/// node set that must send or take more than it can, so that no flow is feasible. A flow is written
/// in the form that is chosen: in the second it names exactly the arcs whose flow isn't their low.
///
/// The checker accepts that answer, whatever engine was chosen. Which of several least flows is
/// given, and which of several blocking sets where the supplies sum to 0, depends on the engine: a
/// flow is the one that a least state stands for, made by a new engine that the choice means for
/// the problem at hand. (Optimality by reduced costs: Ahuja, Magnanti and Orlin, Network Flows,
/// chapter 9.)
///
/// # Errors
///
/// `NoMemory` only if the first problem line is good, names nodes and comes before the first fault;
/// or if the network simplex is meant; or if the answer's text doesn't fit the capacity of `out`.
/// `out` then keeps the bytes that it had. Its capacity never shrinks.
pub fn solve_text(
    alloc: Global,
    input: &[u8],
    choice: Choice,
    out: &mut Vec<u8>,
) -> Result<Kind, NoMemory>
    ensures answer { IfOk result (λ kind. AppendsAnswer choice input.now kind out.old.items out.new.items) }
    ensures accepted { OnOk result (accepts (verdict input.now (drop (length out.old.items) out.new.items)) ≡ true) }
    ensures refused { IfOk result (λ kind. (kind ≡ Kind.Refused) ↔ HasFault input.now) }
    ensures none { IfOk result (λ kind. kind ≡ Kind.Blocked → HasNoFlow input.now) }
    ensures err { OnErr result (out.new.items ≡ out.old.items) }
    ensures wants { OnErr result (MayWant choice input.now ⊎ LacksRoom choice input.now (vec_capacity out.old) (vec_len out.old)) }
    ensures capacity { vec_capacity out.old ≤ vec_capacity out.new }
{
    correct_answers_are_accepted();
    made_flows_are_shaped();
    let answer = answer_to(alloc, input, choice)?;
    write(&answer, out)?;
    Ok(answer_kind(&answer))
}

// An answer's flow that was made as a choice means has the shape that the choice means.
fn made_flows_are_shaped()
    ensures { MadeFlowsAreShaped }
{
    runs_are_tree_solutions::<First>();
    runs_are_tree_solutions::<Best>();
    runs_are_tree_solutions::<Block>();
    runs_are_tree_solutions::<Wide>();
    restored_tree_solutions_are_tree_solutions();
}

// The answer to an instance text.
fn answer_to(alloc: Global, input: &[u8], choice: Choice) -> Result<Answer, NoMemory>
    ensures owed { IfOk result (IsOwed (reading limits input.now)) }
    ensures made { IfOk result (HasMadeFlow (IsMadeBy choice) (reading limits input.now)) }
    ensures formed { IfOk result (HasForm choice.form (reading limits input.now)) }
    ensures wants { OnErr result (MayWant choice input.now) }
{
    let outcome = read(alloc, input)?;
    answer_for(alloc, outcome, choice)
}

/// Appends the answer to the result of reading an instance text, as `solve_text` does for a text.
pub(crate) fn solve_outcome(
    alloc: Global,
    outcome: Result<Instance, Refusal>,
    choice: Choice,
    out: &mut Vec<u8>,
) -> Result<Kind, NoMemory>
    ensures { IfOk result (λ kind. (input : List ℕ) → outcome ≡ reading limits input → AppendsAnswer choice input kind out.old.items out.new.items) }
{
    correct_answers_are_accepted();
    made_flows_are_shaped();
    let owed = answer_for(alloc, outcome, choice)?;
    write(&owed, out)?;
    Ok(answer_kind(&owed))
}

// The answer to the result of reading an instance text.
fn answer_for(
    alloc: Global,
    outcome: Result<Instance, Refusal>,
    choice: Choice,
) -> Result<Answer, NoMemory>
    ensures owed { IfOk result (IsOwed outcome) }
    ensures made { IfOk result (HasMadeFlow (IsMadeBy choice) outcome) }
    ensures formed { IfOk result (HasForm choice.form outcome) }
    ensures wants { (input : List ℕ) → outcome ≡ reading limits input → OnErr result (MayWant choice input) }
{
    match outcome {
        Ok(instance) => solve_instance(alloc, &instance, choice),
        Err(refusal) => Ok(Answer::Refused(refusal)),
    }
}

/// The answer to an instance, by the chosen engine: what `solve_text` writes for a text that stands
/// for it.
///
/// # Errors
///
/// `NoMemory` only if there are nodes, or if the network simplex is meant.
pub fn solve_instance(
    alloc: Global,
    instance: &Instance,
    choice: Choice,
) -> Result<Answer, NoMemory>
    ensures owed { IfOk result (IsOwed (Ok instance.now)) }
    ensures made { IfOk result (HasMadeFlow (IsMadeBy choice) (Ok instance.now)) }
    ensures formed { IfOk result (HasForm choice.form (Ok instance.now)) }
    ensures wants { OnErr result ((1 ≤ node_count instance.now) ⊎ (meant choice.engine instance.now.problem ≡ BySimplex)) }
{
    match engine_meant(choice.engine, instance.problem()) {
        Meant::ByCancel => solve_by(alloc, instance, choice.form, &mut Cancel::new()),
        Meant::BySimplex => solve_by_simplex(alloc, instance, choice),
        Meant::ByScaling => solve_by(alloc, instance, choice.form, &mut Scaling::new()),
        Meant::ByFast => solve_by(alloc, instance, choice.form, &mut Fast::new()),
        Meant::BySap => solve_by(alloc, instance, choice.form, &mut Sap::new()),
    }
}

/// The answer to an instance, as by `solve_instance`, from the answer to a similar one: its flow by
/// arc and its prices by node, in order.
///
/// The engine `Again` mends that answer, which may be anything: if it has other lengths, or little
/// in common with the answer to this instance, `Fast` answers from nothing.
///
/// # Errors
///
/// `NoMemory` only if there are nodes.
pub fn solve_instance_from(
    alloc: Global,
    instance: &Instance,
    form: Form,
    flow: &[i64],
    prices: &[i64],
) -> Result<Answer, NoMemory>
    ensures owed { IfOk result (IsOwed (Ok instance.now)) }
    ensures formed { IfOk result (HasForm form (Ok instance.now)) }
    ensures wants { OnErr result (1 ≤ node_count instance.now) }
{
    let hint = hint_of(alloc, instance, flow, prices)?;
    solve_by(alloc, instance, form, &mut Again::new(hint))
}

// The engine that is meant for a problem.
fn engine_meant(engine: EngineChoice, problem: Problem) -> Meant
    ensures { result ≡ meant engine problem }
{
    match engine {
        EngineChoice::Cancel => Meant::ByCancel,
        EngineChoice::Simplex => Meant::BySimplex,
        EngineChoice::Scaling => Meant::ByScaling,
        EngineChoice::Fast => Meant::ByFast,
        EngineChoice::Auto | EngineChoice::Sap => suited(problem),
    }
}

// The engine that suits a problem.
fn suited(problem: Problem) -> Meant
    ensures { result ≡ suited problem }
{
    match problem {
        Problem::Min => Meant::BySimplex,
        Problem::Asn => Meant::BySap,
    }
}

// The answer to an instance, by the network simplex with a new instance of the chosen rule.
fn solve_by_simplex(alloc: Global, instance: &Instance, choice: Choice) -> Result<Answer, NoMemory>
    ensures owed { IfOk result (IsOwed (Ok instance.now)) }
    ensures made { IfOk result (HasMadeFlow (IsMadeBySimplex choice.pricing choice.block) (Ok instance.now)) }
    ensures formed { IfOk result (HasForm choice.form (Ok instance.now)) }
{
    match choice.pricing {
        PricingChoice::First => solve_by(alloc, instance, choice.form, &mut Simplex::new(First)),
        PricingChoice::Best => solve_by(alloc, instance, choice.form, &mut Simplex::new(Best)),
        PricingChoice::Block => {
            let rule = Block::new(choice.block.get());
            solve_by(alloc, instance, choice.form, &mut Simplex::new(rule))
        }
        PricingChoice::Wide => {
            let wide = Wide::suited_to(instance.arc_count());
            solve_by(alloc, instance, choice.form, &mut Simplex::new(wide))
        }
    }
}

// The answer to an instance, by an engine that takes its net.
fn solve_by<E: Engine>(
    alloc: Global,
    instance: &Instance,
    form: Form,
    engine: &mut E,
) -> Result<Answer, NoMemory>
    requires { E.Takes (net_of instance.now) }
    ensures owed { IfOk result (IsOwed (Ok instance.now)) }
    ensures made { IfOk result (HasMadeFlow (λ g s. E.Made engine.old g s engine.new) (Ok instance.now)) }
    ensures formed { IfOk result (HasForm form (Ok instance.now)) }
    ensures wants { OnErr result ((1 ≤ node_count instance.now) ⊎ E.Wants (net_of instance.now)) }
{
    let net = Net::of(alloc, instance)?;
    match engine.solve(alloc, &net)? {
        Outcome::Least(state, prices) => least_answer(alloc, instance, form, &state, prices),
        Outcome::Blocked(set, side) => {
            let set = set_answer(alloc, instance, &net, &set, side)?;
            Ok(Answer::Blocked(set))
        }
    }
}

// The answer in a form for a least state of an instance's net, with its prices.
fn least_answer(
    alloc: Global,
    instance: &Instance,
    form: Form,
    state: &State<'_>,
    prices: Vec<i128>,
) -> Result<Answer, NoMemory>
    requires least { IsLeastState (net_of instance.now) state.now }
    requires shown { AreStatePrices (net_of instance.now) state.now prices.items }
    ensures owed { IfOk result (IsOwed (Ok instance.now)) }
    ensures restores { IfOk result (λ a. IfSome (flow_given instance.now a) (λ flow. flow ≡ restored instance.now.arcs state.now.amounts)) }
    ensures formed { IfOk result (HasForm form (Ok instance.now)) }
    ensures wants { OnErr result (1 ≤ length instance.now.arcs) }
{
    match form {
        Form::One => Ok(Answer::Flow(flow_answer(alloc, instance, state, prices)?)),
        Form::Two => Ok(Answer::Sparse(sparse_answer(alloc, instance, state, prices)?)),
    }
}

// The kind of an answer.
fn answer_kind(answer: &Answer) -> Kind
    ensures { result ≡ answer_kind answer.now }
{
    match answer {
        Answer::Flow(_) | Answer::Sparse(_) => Kind::Flow,
        Answer::Blocked(_) => Kind::Blocked,
        Answer::Refused(_) => Kind::Refused,
    }
}
