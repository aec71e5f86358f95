//! What the words of a command line ask.
ghost use Rattle.std.specs.Prelude.{◌≡◌, IfOk, false, map, option_map, true};
ghost use Rattle.clap.specs.Words.{app_of, rule_of, shape_of};
ghost use Rattle.clap.specs.declared.builder.command.Command.TheViews.{out-Command};
ghost use Rattle.mcf_asking.specs.Asking.{IsMcf, IsReading, IsSolve, Offers, block_by, block_in, block_rule, engine_by, engine_names, engine_rule, file_rule};
ghost use Rattle.mcf_asking.specs.Asking.{form_by, form_names, form_rule, pricing_by, pricing_names, pricing_rule, word_rule};

use clap::builder::ValueParser;
use clap::{Arg, Command, Error};
use mcf_choice::{BlockSize, Choice, EngineChoice, Form, PricingChoice};
use std::alloc::{AllocError, Global};
use std::convert::AsStr;

/// What the words of a command line ask.
#[derive(Clone, Copy, Debug, PartialEq, Eq)]
pub struct Asked<'a> {
    /// How to solve and answer the instance.
    pub choice: Choice,
    /// The file of the instance; if none is named, standard input.
    pub file: Option<&'a str>,
}

// The names of the engines.
static ENGINES: [&str; 6] = ["auto", "cancel", "simplex", "scaling", "fast", "sap"];

// The names of the pricing rules.
static RULES: [&str; 4] = ["first", "best", "block", "wide"];

// The names of the forms of an answer.
static FORMS: [&str; 4] = ["full", "sparse", "1", "2"];

// When to choose what, for the help.
static WHEN: &str = "\
Engines:
  auto     sap for an assignment, simplex for a flow problem (the default)
  cancel   cycle cancelling: a slow baseline for small instances
  simplex  the network simplex, whose flow is a tree solution
  scaling  cost scaling by push and relabel, for flow problems that need many pivots
  fast     always for flow problems, unless you want a tree solution or one of the four methods
  sap      shortest augmenting paths, for assignments; for a flow problem it means auto

Pricing rules of the simplex:
  first    the first eligible arc: quick picks but many pivots; a baseline
  best     the eligible arc of greatest violation: few pivots, but each scans all arcs
  block    the same within one block of arcs, the blocks in turn (the default)
  wide     the same with blocks that grow with the instance: from about 16,000 nodes on

Forms of a flow:
  full     a line for each arc, with its ends (the default); 1 means the same
  sparse   a line for each arc that doesn't carry its LOW, with its number; 2 means the same";

/// Parses the words of a command line: `mcf solve [--engine auto|cancel|simplex|scaling|fast|sap]
/// [--pricing first|best|block|wide] [--block N] [--form full|sparse|1|2] [FILE]`, where N is 1 to
/// 1,000,000. The defaults are `auto`, `block`, 256 and `full`.
///
/// The words begin with the name of the program, which isn't read.
///
/// # Errors
///
/// The words ask for help, or they aren't a command of `mcf`, or memory runs out.
pub fn command<'a, W: AsStr>(alloc: Global, words: &'a [W]) -> Result<Asked<'a>, Error>
    ensures { IsReading (map W.text words.entry.now) result }
{
    let matches = mcf(alloc)?.try_get_matches_from(words)?;
    let Some((_, solve)) = matches.subcommand() else {
        unreachable!();
    };
    Ok(Asked {
        choice: Choice {
            engine: engine_of(solve.get_str("engine")),
            pricing: pricing_of(solve.get_str("pricing")),
            block: block_of(solve.get_str("block")),
            form: form_of(solve.get_str("form")),
        },
        file: solve.get_str("file"),
    })
}

// The command `mcf` with its one subcommand.
fn mcf<'a>(alloc: Global) -> Result<Command<'a>, AllocError>
    ensures app { IfOk result (λ c. IsMcf (app_of c)) }
    ensures local { IfOk result (λ c. (out-Command c).has_globals ≡ false) }
{
    let solve = solve(alloc)?;
    Command::new(alloc, "mcf")
        .about("Solves minimum-cost flow problems, with evidence for each answer")
        .version("1.0.0")
        .subcommand_required(true)
        .subcommand(solve)
}

// The subcommand `solve`.
fn solve<'a>(alloc: Global) -> Result<Command<'a>, AllocError>
    ensures shape { IfOk result (λ c. IsSolve (shape_of c)) }
    ensures local { IfOk result (λ c. (out-Command c).has_globals ≡ false) }
{
    Command::new(alloc, "solve")
        .about("Answers an instance in a DIMACS format")
        .after_help(WHEN)
        .arg(engine_option(alloc))?
        .arg(pricing_option(alloc))?
        .arg(block_option(alloc))?
        .arg(form_option(alloc))?
        .arg(file_argument(alloc))
}

/// An option with this name, whose value is one of some words, with a default.
pub fn word_option<'a>(
    alloc: Global,
    name: &'a str,
    value: &'a str,
    words: &'a [&'a str],
    without: &'a str,
) -> Arg<'a>
    ensures rule { rule_of result ≡ word_rule name.entry.now words.entry without.entry.now }
    ensures local { result.global ≡ false }
{
    Arg::new(alloc, name)
        .long(name)
        .value_name(value)
        .value_parser(words)
        .default_value(without)
}

// The option `--engine`.
fn engine_option<'a>(alloc: Global) -> Arg<'a>
    ensures rule { Offers engine_rule engine_names (rule_of result) }
    ensures local { result.global ≡ false }
{
    word_option(alloc, "engine", "ENGINE", ENGINES.as_slice(), "auto").help(
        "What solves the instance",
    )
}

// The option `--pricing`.
fn pricing_option<'a>(alloc: Global) -> Arg<'a>
    ensures rule { Offers pricing_rule pricing_names (rule_of result) }
    ensures local { result.global ≡ false }
{
    word_option(alloc, "pricing", "RULE", RULES.as_slice(), "block").help(
        "The rule by which the simplex picks the entering arc",
    )
}

// The option `--form`.
fn form_option<'a>(alloc: Global) -> Arg<'a>
    ensures rule { Offers form_rule form_names (rule_of result) }
    ensures local { result.global ≡ false }
{
    word_option(alloc, "form", "FORM", FORMS.as_slice(), "full").help(
        "The form in which a flow is written",
    )
}

// The option `--block`.
fn block_option<'a>(alloc: Global) -> Arg<'a>
    ensures rule { rule_of result ≡ block_rule }
    ensures local { result.global ≡ false }
{
    Arg::new(alloc, "block")
        .long("block")
        .value_name("N")
        .value_parser(ValueParser::unsigned(1, 1_000_000))
        .default_value("256")
        .help("The number of arcs in a block, for --pricing block: 1 to 1000000")
}

// The argument FILE.
fn file_argument<'a>(alloc: Global) -> Arg<'a>
    ensures rule { rule_of result ≡ file_rule }
    ensures local { result.global ≡ false }
{
    Arg::new(alloc, "file").value_name("FILE").help(
        "The file of the instance; if none is named, standard input",
    )
}

// The engine with a name.
fn engine_of(name: Option<&str>) -> EngineChoice
    ensures { result ≡ engine_by (option_map (λ n. n.now) name.entry) }
{
    match name {
        Some("auto") => EngineChoice::Auto,
        Some("cancel") => EngineChoice::Cancel,
        Some("simplex") => EngineChoice::Simplex,
        Some("scaling") => EngineChoice::Scaling,
        Some("fast") => EngineChoice::Fast,
        Some("sap") => EngineChoice::Sap,
        _ => EngineChoice::Auto,
    }
}

// The pricing rule with a name.
fn pricing_of(name: Option<&str>) -> PricingChoice
    ensures { result ≡ pricing_by (option_map (λ n. n.now) name.entry) }
{
    match name {
        Some("first") => PricingChoice::First,
        Some("best") => PricingChoice::Best,
        Some("block") => PricingChoice::Block,
        Some("wide") => PricingChoice::Wide,
        _ => PricingChoice::Block,
    }
}

// The form of an answer with a name.
fn form_of(name: Option<&str>) -> Form
    ensures { result ≡ form_by (option_map (λ n. n.now) name.entry) }
{
    match name {
        Some("full") => Form::One,
        Some("sparse") => Form::Two,
        Some("1") => Form::One,
        Some("2") => Form::Two,
        _ => Form::One,
    }
}

// The size of blocks in a word, or the default.
fn block_of(word: Option<&str>) -> BlockSize
    ensures { result ≡ block_by (option_map (λ n. n.now) word.entry) }
{
    let size = match word {
        Some(word) => block_in(word),
        None => None,
    };
    size.unwrap_or(BlockSize::standard())
}

// The size of blocks in a word.
fn block_in(word: &str) -> Option<BlockSize>
    ensures { result ≡ block_in word.now }
{
    match word.parse::<u32>() {
        Ok(size) => BlockSize::new(size),
        Err(_) => None,
    }
}
