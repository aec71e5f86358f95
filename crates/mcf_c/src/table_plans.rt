//! Tables planned.
ghost use Rattle.std.specs.Prelude.{◌≡◌, ◌≤◌, IfOk};
ghost use Rattle.mcf_c.specs.Calls.{AnswersInto};
ghost use Rattle.mcf_flow_tables.specs.TableAnswers.{bytes_in as flow_bytes_in};
ghost use Rattle.mcf_pair_tables.specs.GroupAnswers.{bytes_in};
ghost use Rattle.mcf_c.specs.TablePlans.{HandsPairText, HandsPlanText, IsAskedText, asked_crossing, asked_each, asked_mark, asked_pairs, asked_penalty, asked_tables, asked_yes, flow_bytes, group_bytes, options_under, pair_options, plan_options, plan_status};

use crate::statuses::{BLOCKED, BUFFER_TOO_SMALL, FLOW, INVALID_CHOICE, INVALID_INPUT, NO_MEMORY};
use mcf_answer_rows::{PlanText, TextKind};
use mcf_choice::{Choice, EngineChoice};
use mcf_decimal::{Decimal, Mark, number};
use mcf_flow_tables::{Options, Texts};
use mcf_pair_tables::{AtCrossing, CostTexts, Each, GroupTexts, Options as PairOptions};
use mcf_pair_text::{group_text, pair_text};
use mcf_planner::Planner;
use mcf_range_text::told_text;
use mcf_text::NoMemory;
use mcf_units::Terms;
use std::alloc::Global;

/// How tables are read, what plans may leave, and whether ranges are told; and the heads of the
/// columns that are filled down, one a line. All zeros, with empty texts, are the defaults.
#[repr(C)]
#[derive(Clone, Copy)]
pub struct McfPlanOptions<'a> {
    pub decimal: u32,
    pub allow_unused: u32,
    pub allow_short: u32,
    pub ranges: u32,
    pub penalty: &'a [u8],
    pub fill_down: &'a [u8],
}

/// What the numbers ask: how tables are read, what plans may leave, and whether ranges are told.
#[derive(Clone, Copy)]
pub struct AskedTables {
    pub options: Options,
    pub ranges: bool,
}

/// How a table of persons and things is read, which choice is the best, the text of a table of
/// groups, and the heads of the columns that are filled down, one a line. All zeros, with empty
/// texts, are the defaults.
#[repr(C)]
#[derive(Clone, Copy)]
pub struct McfPairOptions<'a> {
    pub decimal: u32,
    pub each: u32,
    pub maximise: u32,
    pub crossing: u32,
    pub groups: &'a [u8],
    pub fill_down: &'a [u8],
}

/// What the numbers ask: how a table of persons and things is read, which choice is the best, and
/// what happens to groups that cross others.
#[derive(Clone, Copy)]
pub struct AskedPairs {
    pub options: PairOptions,
    pub crossing: AtCrossing,
}

// The status of an answer of a kind.
fn plan_status(kind: TextKind) -> u32
    ensures value { result ≡ plan_status kind }
    ensures few { result ≤ INVALID_INPUT }
{
    match kind {
        TextKind::Plan => FLOW,
        TextKind::NoPlan => BLOCKED,
        TextKind::Faults => INVALID_INPUT,
    }
}

// The mark before decimals with a number.
fn asked_mark(number: u32) -> Option<Option<Mark>>
    ensures { result ≡ asked_mark number }
{
    match number {
        0 => Some(None),
        1 => Some(Some(Mark::Point)),
        2 => Some(Some(Mark::Comma)),
        _ => None,
    }
}

// No or yes.
fn asked_yes(number: u32) -> Option<bool>
    ensures { result ≡ asked_yes number }
{
    match number {
        0 => Some(false),
        1 => Some(true),
        _ => None,
    }
}

// The penalty that a text names, under a mark or none.
fn asked_penalty(mark: Option<Mark>, text: &[u8]) -> Option<Option<Decimal>>
    ensures { result ≡ asked_penalty mark text.now }
{
    if text.is_empty() {
        return Some(None);
    }
    match number(text, mark) {
        Ok(found) => Some(Some(found)),
        Err(_) => None,
    }
}

// How tables are read under a mark, and what plans may leave.
fn options_under(numbers: &McfPlanOptions<'_>, mark: Option<Mark>) -> Option<Options>
    ensures { result ≡ options_under numbers.now mark }
{
    let unused = asked_yes(numbers.allow_unused)?;
    let short = asked_yes(numbers.allow_short)?;
    let penalty = asked_penalty(mark, numbers.penalty)?;
    Some(Options {
        mark,
        terms: Terms {
            unused,
            short,
            penalty,
        },
    })
}

// How tables are read, and what plans may leave, if the numbers have a meaning.
fn plan_options(numbers: &McfPlanOptions<'_>) -> Option<Options>
    ensures { result ≡ plan_options numbers.now }
{
    let mark = asked_mark(numbers.decimal)?;
    options_under(numbers, mark)
}

// What numbers ask of two tables, if they have a meaning.
fn asked_tables(numbers: &McfPlanOptions<'_>) -> Option<AskedTables>
    ensures { result ≡ asked_tables numbers.now }
{
    let options = plan_options(numbers)?;
    let ranges = asked_yes(numbers.ranges)?;
    Some(AskedTables { options, ranges })
}

// Who gets just one, by a number.
fn asked_each(number: u32) -> Option<Option<Each>>
    ensures { result ≡ asked_each number }
{
    match number {
        0 => Some(None),
        1 => Some(Some(Each::Who)),
        2 => Some(Some(Each::What)),
        3 => Some(Some(Each::Both)),
        _ => None,
    }
}

// What numbers ask of a table of persons and things, if they have a meaning.
fn pair_options(numbers: &McfPairOptions<'_>) -> Option<PairOptions>
    ensures { result ≡ pair_options numbers.now }
{
    let mark = asked_mark(numbers.decimal)?;
    let each = asked_each(numbers.each)?;
    let maximise = asked_yes(numbers.maximise)?;
    Some(PairOptions {
        mark,
        each,
        maximise,
    })
}

// What happens to groups that cross others, by a number.
fn asked_crossing(number: u32) -> Option<AtCrossing>
    ensures { result ≡ asked_crossing number }
{
    match number {
        0 => Some(AtCrossing::Refuse),
        1 => Some(AtCrossing::Check),
        _ => None,
    }
}

// What numbers ask of persons and things, if they have a meaning.
fn asked_pairs(numbers: &McfPairOptions<'_>) -> Option<AskedPairs>
    ensures { result ≡ asked_pairs numbers.now }
{
    let options = pair_options(numbers)?;
    let crossing = asked_crossing(numbers.crossing)?;
    Some(AskedPairs { options, crossing })
}

// What solves the networks of tables.
fn fast_engine() -> Planner {
    Planner {
        choice: Choice {
            engine: EngineChoice::Fast,
            ..Choice::default()
        },
    }
}

// The answer to two tables, with its status.
fn answer_to(
    alloc: Global,
    texts: Texts<'_>,
    asked: AskedTables,
) -> Result<(u32, Vec<u8>), NoMemory>
    ensures text { IfOk result (λ r. HandsPlanText (flow_bytes_in texts.entry) asked r.0 r.1.items) }
    ensures few { IfOk result (λ r. r.0 ≤ INVALID_INPUT) }
{
    let mut engine = fast_engine();
    let told = told_text(alloc, &mut engine, texts, asked.options, asked.ranges)?;
    Ok((plan_status(told.kind), told.text))
}

/// Plans the flow of two tables in UTF-8, and writes the answer, as the text of a table, to the
/// beginning of a buffer of the caller's, as `told_text` writes it.
///
/// The status is 0 for a least plan, 1 if there is none, 2 for faults, 3 if memory runs out, also
/// for the answer before it is copied to the buffer, 4 if the buffer is too short, and 5 if the
/// options have no meaning. `used` becomes the length of the answer, also at status 4, and 0 at 3
/// and 5.
#[unsafe(no_mangle)]
pub extern "C" fn mcf_plan_flow(
    alloc: Global,
    places: &[u8],
    routes: &[u8],
    options: &McfPlanOptions<'_>,
    room: &mut [u8],
    used: &mut usize,
) -> u32
    ensures { AnswersInto (asked_tables options.now) (HandsPlanText (flow_bytes places.now routes.now options.now)) result room.old room.new used.new }
{
    *used = 0;
    let Some(asked) = asked_tables(options) else {
        return INVALID_CHOICE;
    };
    let texts = Texts {
        places,
        routes,
        fill_down: options.fill_down,
    };
    let Ok((status, answer)) = answer_to(alloc, texts, asked) else {
        return NO_MEMORY;
    };
    *used = answer.len();
    if room.len() < answer.len() {
        return BUFFER_TOO_SMALL;
    }
    room[..answer.len()].copy_from_slice(&answer);
    status
}

// The answer to a table of persons and things, and to one of groups, unless that is empty.
fn asked_text(alloc: Global, texts: GroupTexts<'_>, asked: AskedPairs) -> Result<PlanText, NoMemory>
    ensures { IfOk result (IsAskedText (bytes_in texts.entry) asked) }
{
    let mut engine = fast_engine();
    if texts.groups.is_empty() {
        let texts = CostTexts {
            costs: texts.costs,
            fill_down: texts.fill_down,
        };
        pair_text(alloc, &mut engine, texts, asked.options)
    } else {
        group_text(alloc, &mut engine, texts, asked.options, asked.crossing)
    }
}

// The same with its status.
fn pairs_answer(
    alloc: Global,
    texts: GroupTexts<'_>,
    asked: AskedPairs,
) -> Result<(u32, Vec<u8>), NoMemory>
    ensures text { IfOk result (λ r. HandsPairText (bytes_in texts.entry) asked r.0 r.1.items) }
    ensures few { IfOk result (λ r. r.0 ≤ INVALID_INPUT) }
{
    let told = asked_text(alloc, texts, asked)?;
    Ok((plan_status(told.kind), told.text))
}

/// Pairs persons and things by a table in UTF-8, and writes the answer, as the text of a table, to
/// the beginning of a buffer of the caller's, as `pair_text` writes it; or, if the options have a
/// text of groups that isn't empty, as `group_text` does, for choices that keep to these groups.
///
/// The status is 0 for a best choice, 1 if there is none, 2 for faults, 3 if memory runs out, also
/// for the answer before it is copied to the buffer, 4 if the buffer is too short, and 5 if the
/// options have no meaning. `used` becomes the length of the answer, also at status 4, and 0 at 3
/// and 5.
#[unsafe(no_mangle)]
pub extern "C" fn mcf_plan_pairs(
    alloc: Global,
    costs: &[u8],
    options: &McfPairOptions<'_>,
    room: &mut [u8],
    used: &mut usize,
) -> u32
    ensures { AnswersInto (asked_pairs options.now) (HandsPairText (group_bytes costs.now options.now)) result room.old room.new used.new }
{
    *used = 0;
    let Some(asked) = asked_pairs(options) else {
        return INVALID_CHOICE;
    };
    let texts = GroupTexts {
        costs,
        groups: options.groups,
        fill_down: options.fill_down,
    };
    let Ok((status, answer)) = pairs_answer(alloc, texts, asked) else {
        return NO_MEMORY;
    };
    *used = answer.len();
    if room.len() < answer.len() {
        return BUFFER_TOO_SMALL;
    }
    room[..answer.len()].copy_from_slice(&answer);
    status
}
