//! The engines of the suite as a solver of models' flow problems.
ghost use Rattle.std.specs.Prelude.{◌≡◌, ◌≤◌, ◌⊎◌, IfOk, Ok, OnErr, length};
ghost use Rattle.std.specs.List.{All};
ghost use Rattle.mcf_checker.specs.Correct.{amounts};
ghost use Rattle.mcf_flows.specs.Limits.{limits};
ghost use Rattle.mcf_flows.specs.Network.{Network, node_count};
ghost use Rattle.mcf_flows.specs.WellFormed.{IsUpTo};
ghost use Rattle.mcf_model.specs.Planning.{IsPlanned, IsSolved};
ghost use Rattle.mcf_flows.specs.declared.problem.Problem.TheVariants.{Min};
ghost use Rattle.mcf_solver.specs.Answering.{IsOwed};
ghost use Rattle.mcf_solver.specs.Forms.{HasForm};
ghost use Rattle.mcf_solver.specs.Making.{meant};
ghost use Rattle.mcf_choice.specs.declared.choice.EngineChoice.TheVariants.{Simplex};

use mcf_answer::{Answer, Sent};
use mcf_choice::{Choice, Form};
use mcf_flows::{Instance, Side};
use mcf_model::{Bottleneck, PlanModel, Planned, ShownFlow, Solved, Solves, plan};
use mcf_solver::solve_instance;
use mcf_text::NoMemory;
use std::alloc::Global;

/// A solver by the engine that a choice means, with its pricing rule. The choice's answer form
/// doesn't matter.
#[derive(Clone, Copy, Debug, PartialEq, Eq)]
pub struct Planner {
    pub choice: Choice,
}

// Returns the flow on an arc in 64 bits.
fn carried(sent: Sent) -> i64
    requires { IsUpTo limits.bound sent.flow }
    ensures { result ≡ sent.flow }
{
    sent.flow as i64
}

// Returns the flow on each arc, in order, in 64 bits.
fn flow_of(alloc: Global, sent: &[Sent]) -> Result<Vec<i64>, NoMemory>
    requires { All (IsUpTo limits.bound) (amounts sent.now) }
    ensures value { IfOk result (λ flow. flow.items ≡ amounts sent.now) }
    ensures wants { OnErr result (1 ≤ length sent.now) }
{
    let mut flow = Vec::with_capacity(alloc, sent.len())?;
    for place in 0..sent.len() {
        flow.push(carried(sent[place]))?;
    }
    Ok(flow)
}

// Returns the solver's answer, which is in the first form, as `mcf_model` takes it.
fn taken(alloc: Global, instance: &Instance, answer: Answer) -> Result<Solved, NoMemory>
    requires owed { IsOwed (Ok instance.now) answer }
    requires formed { HasForm Form.One (Ok instance.now) answer }
    ensures solved { IfOk result (IsSolved instance.now) }
    ensures wants { OnErr result (1 ≤ node_count instance.now) }
{
    let _arcs = instance.arc_count();
    match answer {
        Answer::Flow(answer) => {
            let flow = flow_of(alloc, answer.sent.as_slice())?;
            Ok(Solved::Flow(ShownFlow {
                flow,
                prices: answer.prices.into_vec(),
                cost: answer.cost,
            }))
        }
        Answer::Blocked(answer) => Ok(Solved::Blocked(Bottleneck {
            places: answer.nodes.into_vec(),
            side: answer.side,
        })),
        Answer::Sparse(_) | Answer::Refused(_) => Ok(Solved::Blocked(Bottleneck {
            places: Vec::new(alloc),
            side: Side::Send,
        })),
    }
}

impl Solves for Planner {
    ghost use Rattle.mcf_planner.specs.Wanting.{MayWant};

    ghost Wants = { λ p g. MayWant p.choice g };

    fn solve(&mut self, alloc: Global, instance: &Instance) -> Result<Solved, NoMemory> {
        let choice = Choice {
            form: Form::One,
            ..self.choice
        };
        let answer = solve_instance(alloc, instance, choice)?;
        taken(alloc, instance, answer)
    }
}

/// Returns a least plan of a model with its cost, by the chosen engine; or places that must send,
/// or take, more than they can, if the model has no plan; or the first fault of its network: a
/// number beyond the limits, or a route's least amount above its capacity.
///
/// # Errors
/// `NoMemory` if an allocation is refused: only if there are places, or if the choice means the
/// network simplex.
pub fn plan_with(alloc: Global, choice: Choice, model: &PlanModel) -> Result<Planned, NoMemory>
    ensures planned { IfOk result (IsPlanned model.now) }
    ensures wants { OnErr result ((1 ≤ length model.now.supplies) ⊎ (meant choice.engine Min ≡ meant Simplex Min)) }
{
    let mut planner = Planner { choice };
    plan(alloc, &mut planner, model)
}
