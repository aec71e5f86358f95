//! What the words of a planner's command line ask.
ghost use Rattle.std.specs.Prelude.{◌≡◌, IfOk, codes, false, map, option_map, true};
ghost use Rattle.clap.specs.Words.{app_of, found_of, rows_of, rule_of, shape_of};
ghost use Rattle.clap.specs.declared.builder.command.Command.TheViews.{out-Command};
ghost use Rattle.mcf_asking.specs.Asking.{Offers, word_rule};
ghost use Rattle.mcf_plan_asking.specs.PlanAsking.{IsAskedBy, IsAskedFlow, IsAskedPairs, IsFlow, IsMcfplan, IsPairs, IsPlanReading, answer_by, answer_names, answer_rule, crossing_by, crossing_names, crossing_rule, each_by, each_names, each_rule, leave_by, leave_names, leave_rule, mark_by, mark_names, mark_rule, text_rule, table_rule};

use clap::{Arg, ArgMatches, Command, Error};
use mcf_asking::word_option;
use mcf_decimal::Mark;
use std::alloc::{AllocError, Global};
use std::convert::AsStr;

/// What a planner's command line asks of two tables, of places and of routes.
#[derive(Clone, Copy, Debug)]
pub struct AskedFlow<'a> {
    /// The mark before decimals, or `None` for the one that cells show.
    pub mark: Option<Mark>,
    /// Whether supplies may stay.
    pub unused: bool,
    /// Whether demands may be missing.
    pub short: bool,
    /// The cost of each missing unit, if it is named.
    pub penalty: Option<&'a str>,
    /// Whether the ranges of the costs of routes are asked.
    pub ranges: bool,
    /// The heads of the columns that are filled down, one a line, if they are named.
    pub fill_down: Option<&'a str>,
    /// The file of the table of places, if it is named.
    pub places: Option<&'a str>,
    /// The file of the table of routes, if it is named.
    pub routes: Option<&'a str>,
}

/// Who gets just one, where no cell says how many.
#[derive(Clone, Copy, Debug, PartialEq, Eq)]
pub enum AskedEach {
    /// Each person takes one thing.
    Who,
    /// Each thing has one person.
    What,
    /// Each person takes one thing, and each thing has one person.
    Both,
}

/// What a planner's command line asks of a table of persons and things.
#[derive(Clone, Copy, Debug)]
pub struct AskedPairs<'a> {
    /// The mark before decimals, or `None` for the one that costs show.
    pub mark: Option<Mark>,
    /// Who gets just one, or `None` for what the table says.
    pub each: Option<AskedEach>,
    /// Whether costs are values.
    pub maximise: bool,
    /// The file of the table of groups, if it is named.
    pub groups: Option<&'a str>,
    /// Whether groups that cross others are checked, and not refused.
    pub check: bool,
    /// The heads of the columns that are filled down, one a line, if they are named.
    pub fill_down: Option<&'a str>,
    /// The file of the table, if it is named.
    pub costs: Option<&'a str>,
}

/// What the words of a planner's command line ask.
#[derive(Clone, Copy, Debug)]
pub enum AskedPlan<'a> {
    /// A plan for two tables, of places and of routes.
    Flow(AskedFlow<'a>),
    /// A choice for a table of persons and things.
    Pairs(AskedPairs<'a>),
}

// The words for the mark before decimals.
static MARKS: [&str; 3] = ["auto", ".", ","];

// The words for what may be left.
static LEAVES: [&str; 2] = ["refuse", "allow"];

// The words for who gets just one.
static EACHES: [&str; 4] = ["auto", "who", "what", "both"];

// The words for groups that cross.
static CROSSINGS: [&str; 2] = ["refuse", "check"];

// The words for no and yes.
static ANSWERS: [&str; 2] = ["no", "yes"];

/// Parses the words of a command line: `mcfplan flow [--decimal auto|.|,] [--unused refuse|allow]
/// [--short refuse|allow] [--penalty N] [--ranges no|yes] [--fill-down HEADS] PLACES ROUTES`, or
/// `mcfplan pairs [--decimal auto|.|,] [--each auto|who|what|both] [--maximise no|yes]
/// [--groups GROUPS] [--crossing refuse|check] [--fill-down HEADS] COSTS`. The defaults are `auto`,
/// `refuse` and `no`; HEADS has a head in each line. PLACES, ROUTES and COSTS may be left out here;
/// it is for the caller to want them, and to read N.
///
/// The words begin with the name of the program, which isn't read.
///
/// # Errors
///
/// The words ask for help, or they aren't a command of `mcfplan`, or memory runs out.
pub fn plan_command<'a, W: AsStr>(alloc: Global, words: &'a [W]) -> Result<AskedPlan<'a>, Error>
    ensures { IsPlanReading (map W.text words.entry.now) result }
{
    let matches = mcfplan(alloc)?.try_get_matches_from(words)?;
    let Some((name, found)) = matches.subcommand() else {
        unreachable!();
    };
    Ok(asked_in(name, found))
}

// What the matches of the subcommand with this name ask.
fn asked_in<'a>(name: &str, found: &ArgMatches<'a>) -> AskedPlan<'a>
    ensures { IsAskedBy name.now (rows_of (found_of found.now)) result }
{
    match name {
        "pairs" => AskedPlan::Pairs(pairs_in(found)),
        _ => AskedPlan::Flow(flow_in(found)),
    }
}

// What the matches of `flow` ask.
fn flow_in<'a>(found: &ArgMatches<'a>) -> AskedFlow<'a>
    ensures { IsAskedFlow (rows_of (found_of found.now)) result }
{
    AskedFlow {
        mark: mark_of(found.get_str("decimal")),
        unused: leave_of(found.get_str("unused")),
        short: leave_of(found.get_str("short")),
        penalty: found.get_str("penalty"),
        ranges: answer_of(found.get_str("ranges")),
        fill_down: found.get_str("fill-down"),
        places: found.get_str("places"),
        routes: found.get_str("routes"),
    }
}

// What the matches of `pairs` ask.
fn pairs_in<'a>(found: &ArgMatches<'a>) -> AskedPairs<'a>
    ensures { IsAskedPairs (rows_of (found_of found.now)) result }
{
    AskedPairs {
        mark: mark_of(found.get_str("decimal")),
        each: each_of(found.get_str("each")),
        maximise: answer_of(found.get_str("maximise")),
        groups: found.get_str("groups"),
        check: crossing_of(found.get_str("crossing")),
        fill_down: found.get_str("fill-down"),
        costs: found.get_str("costs"),
    }
}

// The command `mcfplan` with its two subcommands.
fn mcfplan<'a>(alloc: Global) -> Result<Command<'a>, AllocError>
    ensures app { IfOk result (λ c. IsMcfplan (app_of c)) }
    ensures local { IfOk result (λ c. (out-Command c).has_globals ≡ false) }
{
    let flow = flow(alloc)?;
    let pairs = pairs(alloc)?;
    Command::new(alloc, "mcfplan")
        .about("Plans from tables, with a proved least cost")
        .version("1.0.0")
        .subcommand_required(true)
        .subcommand(flow)?
        .subcommand(pairs)
}

// The subcommand `flow`.
fn flow<'a>(alloc: Global) -> Result<Command<'a>, AllocError>
    ensures shape { IfOk result (λ c. IsFlow (shape_of c)) }
    ensures local { IfOk result (λ c. (out-Command c).has_globals ≡ false) }
{
    Command::new(alloc, "flow")
        .about(
            "Plans the flow between places: the table PLACES has the columns name and supply, ROUTES from, to, most and cost",
        )
        .arg(mark_option(alloc))?
        .arg(leave_option(alloc, "unused", "Whether supplies may stay"))?
        .arg(leave_option(alloc, "short", "Whether demands may be missing"))?
        .arg(penalty_option(alloc))?
        .arg(answer_option(
            alloc,
            "ranges",
            "Whether to tell from what to what the cost of each route may change; two searches each",
        ))?
        .arg(filling_option(alloc))?
        .arg(table_argument(alloc, "places", "PLACES"))?
        .arg(table_argument(alloc, "routes", "ROUTES"))
}

// The subcommand `pairs`.
fn pairs<'a>(alloc: Global) -> Result<Command<'a>, AllocError>
    ensures shape { IfOk result (λ c. IsPairs (shape_of c)) }
    ensures local { IfOk result (λ c. (out-Command c).has_globals ≡ false) }
{
    Command::new(alloc, "pairs")
        .about(
            "Pairs persons and things: the table COSTS has the columns who, what and cost, or a row for each person and a column for each thing",
        )
        .arg(mark_option(alloc))?
        .arg(each_option(alloc))?
        .arg(answer_option(
            alloc,
            "maximise",
            "Whether costs are values, of which the pairs have as much as possible",
        ))?
        .arg(groups_option(alloc))?
        .arg(crossing_option(alloc))?
        .arg(filling_option(alloc))?
        .arg(table_argument(alloc, "costs", "COSTS"))
}

// The option `--decimal`.
fn mark_option<'a>(alloc: Global) -> Arg<'a>
    ensures rule { Offers mark_rule mark_names (rule_of result) }
    ensures local { result.global ≡ false }
{
    word_option(alloc, "decimal", "MARK", MARKS.as_slice(), "auto").help(
        "The mark before decimals, if the tables don't show it",
    )
}

// An option that allows or refuses.
fn leave_option<'a>(alloc: Global, name: &'a str, help: &'a str) -> Arg<'a>
    ensures rule { Offers (leave_rule name.entry.now) leave_names (rule_of result) }
    ensures local { result.global ≡ false }
{
    word_option(alloc, name, "WORD", LEAVES.as_slice(), "refuse").help(help)
}

// The option `--each`.
fn each_option<'a>(alloc: Global) -> Arg<'a>
    ensures rule { Offers each_rule each_names (rule_of result) }
    ensures local { result.global ≡ false }
{
    word_option(alloc, "each", "WORD", EACHES.as_slice(), "auto").help(
        "Who gets just one: each person (who), each thing (what), or both; auto is what the table says",
    )
}

// An option that says no or yes.
fn answer_option<'a>(alloc: Global, name: &'a str, help: &'a str) -> Arg<'a>
    ensures rule { Offers (answer_rule name.entry.now) answer_names (rule_of result) }
    ensures local { result.global ≡ false }
{
    word_option(alloc, name, "WORD", ANSWERS.as_slice(), "no").help(help)
}

// An option with a value.
fn text_option<'a>(alloc: Global, name: &'a str, value: &'a str, help: &'a str) -> Arg<'a>
    ensures rule { rule_of result ≡ text_rule name.entry.now }
    ensures local { result.global ≡ false }
{
    Arg::new(alloc, name)
        .long(name)
        .value_name(value)
        .help(help)
}

// The option `--penalty`.
fn penalty_option<'a>(alloc: Global) -> Arg<'a>
    ensures rule { rule_of result ≡ text_rule (codes "penalty") }
    ensures local { result.global ≡ false }
{
    text_option(
        alloc,
        "penalty",
        "N",
        "The cost of each missing unit; without it, as little as possible is missing",
    )
}

// The option `--groups`.
fn groups_option<'a>(alloc: Global) -> Arg<'a>
    ensures rule { rule_of result ≡ text_rule (codes "groups") }
    ensures local { result.global ≡ false }
{
    text_option(
        alloc,
        "groups",
        "GROUPS",
        "The table of groups: the columns group, who or what, and perhaps least and most",
    )
}

// The option `--fill-down`.
fn filling_option<'a>(alloc: Global) -> Arg<'a>
    ensures rule { rule_of result ≡ text_rule (codes "fill-down") }
    ensures local { result.global ≡ false }
{
    text_option(
        alloc,
        "fill-down",
        "HEADS",
        "The heads of columns in which an empty cell takes the one above, one a line",
    )
}

// The option `--crossing`.
fn crossing_option<'a>(alloc: Global) -> Arg<'a>
    ensures rule { Offers crossing_rule crossing_names (rule_of result) }
    ensures local { result.global ≡ false }
{
    word_option(alloc, "crossing", "WORD", CROSSINGS.as_slice(), "refuse").help(
        "Whether a group that crosses another is a fault, or is left out and checked afterwards",
    )
}

// The argument of a table.
fn table_argument<'a>(alloc: Global, name: &'a str, value: &'a str) -> Arg<'a>
    ensures rule { rule_of result ≡ table_rule name.entry.now }
    ensures local { result.global ≡ false }
{
    Arg::new(alloc, name).value_name(value)
}

// The mark with a name.
fn mark_of(name: Option<&str>) -> Option<Mark>
    ensures { result ≡ mark_by (option_map (λ n. n.now) name.entry) }
{
    match name {
        Some(".") => Some(Mark::Point),
        Some(",") => Some(Mark::Comma),
        _ => None,
    }
}

// Whether a word allows.
fn leave_of(name: Option<&str>) -> bool
    ensures { result ≡ leave_by (option_map (λ n. n.now) name.entry) }
{
    match name {
        Some("allow") => true,
        _ => false,
    }
}

// Who gets just one, by a word.
fn each_of(name: Option<&str>) -> Option<AskedEach>
    ensures { result ≡ each_by (option_map (λ n. n.now) name.entry) }
{
    match name {
        Some("who") => Some(AskedEach::Who),
        Some("what") => Some(AskedEach::What),
        Some("both") => Some(AskedEach::Both),
        _ => None,
    }
}

// Whether a word asks to check groups that cross.
fn crossing_of(name: Option<&str>) -> bool
    ensures { result ≡ crossing_by (option_map (λ n. n.now) name.entry) }
{
    match name {
        Some("check") => true,
        _ => false,
    }
}

// Whether a word says yes.
fn answer_of(name: Option<&str>) -> bool
    ensures { result ≡ answer_by (option_map (λ n. n.now) name.entry) }
{
    match name {
        Some("yes") => true,
        _ => false,
    }
}
