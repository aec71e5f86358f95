//! Texts solved and judged.
ghost use Rattle.std.specs.Prelude.{◌≡◌, ◌↔◌, ◌≤◌, ◌⊎◌, IfOk, IsTrue};
ghost use Rattle.mcf_answer.specs.Parsing.{has_item_line};
ghost use Rattle.mcf_c.specs.Calls.{AnswersInto, HandsText, kind_status};
ghost use Rattle.mcf_c.specs.Choices.{choice_of};
ghost use Rattle.mcf_c.specs.Verdicts.{Tells, flow_kind, number, refusal_kind, set_kind};
ghost use Rattle.mcf_checker.specs.Correct.{GivesLeastFlow, HasNoFlow, IsCorrect};
ghost use Rattle.mcf_checker.specs.Judging.{verdict};
ghost use Rattle.mcf_flows.specs.Limits.{limits};
ghost use Rattle.mcf_instance.specs.Memory.{NamesNodes};
ghost use Rattle.mcf_solver.specs.Answering.{HasFault};

use crate::choosing::{McfChoice, choice_of};
use crate::statuses::{
    ACCEPTED, BLOCKED, BUFFER_TOO_SMALL, FLOW, INVALID_CHOICE, INVALID_INPUT, NO_MEMORY, REJECTED,
};
use crate::verdicts::{McfVerdict, numbers};
use mcf_checker::check;
use mcf_solver::{Choice, Kind, solve_text};
use mcf_text::NoMemory;
use std::alloc::Global;

// The status of an answer of a kind.
fn kind_status(kind: Kind) -> u32
    ensures value { result ≡ kind_status kind }
    ensures few { result ≤ INVALID_INPUT }
    ensures blocked { result ≡ BLOCKED → kind ≡ Kind.Blocked }
    ensures refused { (result ≡ INVALID_INPUT) ↔ (kind ≡ Kind.Refused) }
{
    match kind {
        Kind::Flow => FLOW,
        Kind::Blocked => BLOCKED,
        Kind::Refused => INVALID_INPUT,
    }
}

// The answer to a text, with its status.
fn answer_to(alloc: Global, input: &[u8], choice: Choice) -> Result<(u32, Vec<u8>), NoMemory>
    ensures text { IfOk result (λ r. HandsText choice input.now r.0 r.1.items) }
    ensures few { IfOk result (λ r. r.0 ≤ INVALID_INPUT) }
    ensures refused { IfOk result (λ r. (r.0 ≡ INVALID_INPUT) ↔ HasFault input.now) }
    ensures none { IfOk result (λ r. r.0 ≡ BLOCKED → HasNoFlow input.now) }
{
    let mut text = Vec::new(alloc);
    let kind = solve_text(alloc, input, choice, &mut text)?;
    Ok((kind_status(kind), text))
}

/// Solves an instance text, and writes the answer to the beginning of a buffer of the caller's, as
/// `solve_text` writes it.
///
/// The status is 0 for a flow, 1 for a blocking set, 2 for a refusal, 3 if memory runs out, also
/// for the answer before it is copied to the buffer, 4 if the buffer is too short, and 5 if the
/// numbers mean no choice. `used` becomes the length of the answer, also at status 4, and 0 at 3
/// and 5.
#[unsafe(no_mangle)]
pub extern "C" fn mcf_solve(
    alloc: Global,
    input: &[u8],
    choice: &McfChoice,
    room: &mut [u8],
    used: &mut usize,
) -> u32
    ensures answers { AnswersInto (choice_of choice.now) (λ c. HandsText c input.now) result room.old room.new used.new }
    ensures refused { result ≤ INVALID_INPUT → (result ≡ INVALID_INPUT) ↔ HasFault input.now }
    ensures none { result ≡ BLOCKED → HasNoFlow input.now }
{
    *used = 0;
    let Some(choice) = choice_of(choice) else {
        return INVALID_CHOICE;
    };
    let Ok((status, answer)) = answer_to(alloc, input, choice) else {
        return NO_MEMORY;
    };
    *used = answer.len();
    if room.len() < answer.len() {
        return BUFFER_TOO_SMALL;
    }
    room[..answer.len()].copy_from_slice(&answer);
    status
}

/// Judges an answer text for an instance text, as `check` does.
///
/// The status is 0 if the answer is accepted, 1 if it isn't, and 3 if memory runs out: `told` is
/// then unchanged.
#[unsafe(no_mangle)]
pub extern "C" fn mcf_check(
    alloc: Global,
    input: &[u8],
    answer: &[u8],
    told: &mut McfVerdict,
) -> u32
    ensures statuses { (result ≤ REJECTED) ⊎ (result ≡ NO_MEMORY) }
    ensures verdict { result ≤ REJECTED → Tells (verdict input.now answer.now) told.new }
    ensures exact { result ≤ REJECTED → (result ≡ ACCEPTED) ↔ IsCorrect input.now answer.now }
    ensures kinds { result ≤ REJECTED → (result ≡ ACCEPTED) ↔ (told.new.kind ≤ refusal_kind) }
    ensures least { result ≡ ACCEPTED → told.new.kind ≡ flow_kind → GivesLeastFlow input.now answer.now (number told.new) }
    ensures none { result ≡ ACCEPTED → told.new.kind ≡ set_kind → HasNoFlow input.now }
    ensures wants { result ≡ NO_MEMORY → NamesNodes limits input.now ⊎ IsTrue (has_item_line answer.now) }
    ensures untouched { result ≡ NO_MEMORY → told.new ≡ told.old }
{
    let Ok(verdict) = check(alloc, input, answer) else {
        return NO_MEMORY;
    };
    *told = numbers(&verdict);
    if told.kind <= 2 { ACCEPTED } else { REJECTED }
}
