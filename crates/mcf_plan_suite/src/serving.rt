//! The command `mcfplan`, over a reader of files and two sinks.
ghost use Rattle.std.specs.Prelude.{◌≡◌, ◌≢◌, ◌≤◌, ◌⊎◌, IfOk, Ok, OnOk, map, option_map};
ghost use Rattle.std.specs.Fn.{CalledAt};
ghost use Rattle.clap.specs.Words.{kind_of};
ghost use Rattle.mcf_plan_suite.specs.PlanServing.{IsShownPlan, ServesPlan, Tells, TellsFlow, TellsGroups, TellsOnePairs, TellsPairs, word_bytes, crossing_in, each_in, pair_options_in, penalty_in, status_of};

use crate::version::VERSION;
use clap::Error;
use clap::error::ErrorKind;
use mcf_checker::FileFault;
use mcf_decimal::{Decimal, Mark, number};
use mcf_flow_tables::{Options, Texts};
use mcf_model::Solves;
use mcf_pair_tables::{AtCrossing, CostTexts, Each, GroupTexts, Options as PairOptions};
use mcf_pair_text::{group_text, pair_text};
use mcf_plan_asking::{AskedEach, AskedFlow, AskedPairs, AskedPlan, plan_command};
use mcf_plan_text::{PlanText, TextKind};
use mcf_range_text::told_text;
use mcf_solver::{RunFault, Sink, send};
use mcf_text::NoMemory;
use mcf_units::Terms;
use std::alloc::{AllocError, Global};
use std::convert::AsStr;

// The status if nothing was answered.
const FAILED: u8 = 3;

// Why nothing was answered.
#[derive(Drop)]
enum Failure {
    // The words aren't a command of `mcfplan`, for the reason in this text.
    Usage(String),
    // A table isn't named.
    Tables,
    Table,
    // The penalty isn't a number.
    Penalty,
    // The file of a table can't be read.
    Places,
    Routes,
    Costs,
    Groups,
    // Writing failed.
    Write,
    // Memory ran out.
    NoMemory,
}

impl Failure {
    // The text that reports it.
    fn text(&self) -> &str {
        match self {
            Failure::Usage(text) => text.as_str(),
            Failure::Tables => "mcfplan: name two tables, PLACES and ROUTES\n",
            Failure::Table => "mcfplan: name a table, COSTS\n",
            Failure::Penalty => "mcfplan: the penalty isn't a number\n",
            Failure::Places => "mcfplan: cannot read the table of places\n",
            Failure::Routes => "mcfplan: cannot read the table of routes\n",
            Failure::Costs => "mcfplan: cannot read the table of costs\n",
            Failure::Groups => "mcfplan: cannot read the table of groups\n",
            Failure::Write => "mcfplan: write failed\n",
            Failure::NoMemory => "mcfplan: out of memory\n",
        }
    }
}

impl From<AllocError> for Failure {
    fn from(_error: AllocError) -> Failure {
        Failure::NoMemory
    }
}

impl From<NoMemory> for Failure {
    fn from(_error: NoMemory) -> Failure {
        Failure::NoMemory
    }
}

impl From<RunFault> for Failure {
    fn from(_fault: RunFault) -> Failure {
        Failure::Write
    }
}

// The status for an answer.
fn status_of(kind: TextKind) -> u8
    ensures value { result ≡ status_of kind }
    ensures small { result ≤ 2 }
{
    match kind {
        TextKind::Plan => 0,
        TextKind::NoPlan => 1,
        TextKind::Faults => 2,
    }
}

// The penalty that is named, if one is.
fn penalty_in(mark: Option<Mark>, word: Option<&str>) -> Result<Option<Decimal>, Failure>
    ensures { IfOk result (λ penalty. penalty_in mark (option_map (λ w. w.now) word.entry) ≡ Ok penalty) }
{
    match word {
        None => Ok(None),
        Some(word) => match number(word.as_bytes(), mark) {
            Ok(found) => Ok(Some(found)),
            Err(_) => Err(Failure::Penalty),
        },
    }
}

// The bytes of a text that is named, if one is.
fn word_bytes<'a>(word: Option<&'a str>) -> &'a [u8]
    ensures { result.now ≡ word_bytes (option_map (λ w. w.now) word.entry) }
{
    match word {
        Some(text) => text.as_bytes(),
        None => &[],
    }
}

// The bytes of a file, or why they weren't read.
fn read_file<R: FnMut(&str) -> Result<Vec<u8>, FileFault>>(
    read: &mut R,
    name: &str,
    unreadable: Failure,
) -> Result<Vec<u8>, Failure>
    requires { R.IsAlwaysCallable read.old }
    ensures { IfOk result (λ bytes. CalledAt R.FnMut read.old name.now (Ok bytes) read.new) }
{
    match read(name) {
        Ok(bytes) => Ok(bytes),
        Err(FileFault::NoMemory) => Err(Failure::NoMemory),
        Err(FileFault::Unreadable) => Err(unreadable),
    }
}

// The answer to what is asked of two tables.
fn flow_text<S: Solves, R: FnMut(&str) -> Result<Vec<u8>, FileFault>>(
    alloc: Global,
    solver: &mut S,
    read: &mut R,
    asked: AskedFlow<'_>,
) -> Result<PlanText, Failure>
    requires { R.IsAlwaysCallable read.old }
    ensures { IfOk result (TellsFlow R.FnMut (λ file. file.items) read.old read.new asked.entry) }
{
    let penalty = penalty_in(asked.mark, asked.penalty)?;
    let options = Options {
        mark: asked.mark,
        terms: Terms {
            unused: asked.unused,
            short: asked.short,
            penalty,
        },
    };
    let (Some(place_file), Some(route_file)) = (asked.places, asked.routes) else {
        return Err(Failure::Tables);
    };
    let places = read_file(read, place_file, Failure::Places)?;
    let routes = read_file(read, route_file, Failure::Routes)?;
    let texts = Texts {
        places: &places,
        routes: &routes,
        fill_down: word_bytes(asked.fill_down),
    };
    let text = told_text(alloc, solver, texts, options, asked.ranges)?;
    Ok(text)
}

// Who gets just one.
fn each_in(asked: AskedEach) -> Each
    ensures { result ≡ each_in asked }
{
    match asked {
        AskedEach::Who => Each::Who,
        AskedEach::What => Each::What,
        AskedEach::Both => Each::Both,
    }
}

// Who gets just one, if that is asked.
fn each_of(asked: Option<AskedEach>) -> Option<Each>
    ensures { result ≡ option_map each_in asked }
{
    match asked {
        Some(each) => Some(each_in(each)),
        None => None,
    }
}

// How a table of persons and things is read, and which choice is the best.
fn pair_options(asked: AskedPairs<'_>) -> PairOptions
    ensures { result ≡ pair_options_in asked.entry }
{
    PairOptions {
        mark: asked.mark,
        each: each_of(asked.each),
        maximise: asked.maximise,
    }
}

// What happens to groups that cross others.
fn crossing_in(check: bool) -> AtCrossing
    ensures { result ≡ crossing_in check }
{
    if check {
        AtCrossing::Check
    } else {
        AtCrossing::Refuse
    }
}

// The answer to what is asked of a table of persons and things.
fn one_pairs_text<S: Solves, R: FnMut(&str) -> Result<Vec<u8>, FileFault>>(
    alloc: Global,
    solver: &mut S,
    read: &mut R,
    asked: AskedPairs<'_>,
) -> Result<PlanText, Failure>
    requires { R.IsAlwaysCallable read.old }
    ensures { IfOk result (TellsOnePairs R.FnMut (λ file. file.items) read.old read.new asked.entry) }
{
    let options = pair_options(asked);
    let Some(file) = asked.costs else {
        return Err(Failure::Table);
    };
    let costs = read_file(read, file, Failure::Costs)?;
    let texts = CostTexts {
        costs: &costs,
        fill_down: word_bytes(asked.fill_down),
    };
    let text = pair_text(alloc, solver, texts, options)?;
    Ok(text)
}

// The answer to what is asked of a table of persons and things and a table of groups.
fn groups_text<S: Solves, R: FnMut(&str) -> Result<Vec<u8>, FileFault>>(
    alloc: Global,
    solver: &mut S,
    read: &mut R,
    asked: AskedPairs<'_>,
    group_file: &str,
) -> Result<PlanText, Failure>
    requires { R.IsAlwaysCallable read.old }
    ensures { IfOk result (TellsGroups R.FnMut (λ file. file.items) read.old read.new asked.entry group_file.now) }
{
    let options = pair_options(asked);
    let Some(file) = asked.costs else {
        return Err(Failure::Table);
    };
    let costs = read_file(read, file, Failure::Costs)?;
    let groups = read_file(read, group_file, Failure::Groups)?;
    let texts = GroupTexts {
        costs: &costs,
        groups: &groups,
        fill_down: word_bytes(asked.fill_down),
    };
    let text = group_text(alloc, solver, texts, options, crossing_in(asked.check))?;
    Ok(text)
}

// The answer to what is asked of persons and things.
fn pairs_text<S: Solves, R: FnMut(&str) -> Result<Vec<u8>, FileFault>>(
    alloc: Global,
    solver: &mut S,
    read: &mut R,
    asked: AskedPairs<'_>,
) -> Result<PlanText, Failure>
    requires { R.IsAlwaysCallable read.old }
    ensures { IfOk result (TellsPairs R.FnMut (λ file. file.items) read.old read.new asked.entry) }
{
    match asked.groups {
        Some(file) => groups_text(alloc, solver, read, asked, file),
        None => one_pairs_text(alloc, solver, read, asked),
    }
}

// The answer to what is asked.
fn text_of<S: Solves, R: FnMut(&str) -> Result<Vec<u8>, FileFault>>(
    alloc: Global,
    solver: &mut S,
    read: &mut R,
    asked: AskedPlan<'_>,
) -> Result<PlanText, Failure>
    requires { R.IsAlwaysCallable read.old }
    ensures { IfOk result (Tells R.FnMut (λ file. file.items) read.old read.new asked.entry) }
{
    match asked {
        AskedPlan::Flow(asked) => flow_text(alloc, solver, read, asked),
        AskedPlan::Pairs(asked) => pairs_text(alloc, solver, read, asked),
    }
}

// Prints the help or the version, if the words ask for it, and returns the status.
fn show<O: Sink>(alloc: Global, error: &Error, out: &mut O) -> Result<u8, Failure>
    ensures status { IfOk result (λ status. status ≡ 0) }
    ensures shown { OnOk result (IsShownPlan (kind_of error.now) (O.contents out.old) (O.contents out.new)) }
    ensures finished { OnOk result (O.IsFinished out.new) }
{
    match error.kind() {
        ErrorKind::OutOfMemory => Err(Failure::NoMemory),
        ErrorKind::DisplayHelp => {
            let text = format!(in alloc; "{error}")?;
            send(out, text.as_bytes())?;
            Ok(0)
        }
        ErrorKind::DisplayVersion => {
            send(out, VERSION.as_bytes())?;
            Ok(0)
        }
        _ => {
            let text = format!(in alloc; "{error}")?;
            Err(Failure::Usage(text))
        }
    }
}

// Writes the answer that the words ask for, or the help or the version, and returns the status.
fn answer<W: AsStr, S: Solves, R: FnMut(&str) -> Result<Vec<u8>, FileFault>, O: Sink>(
    alloc: Global,
    words: &[W],
    solver: &mut S,
    read: &mut R,
    out: &mut O,
) -> Result<u8, Failure>
    requires { R.IsAlwaysCallable read.old }
    ensures status { IfOk result (λ status. status ≤ 2) }
    ensures served { IfOk result (λ status.
        ServesPlan R.FnMut (λ file. file.items) read.old read.new (map W.text words.now) status (O.contents out.old) (O.contents out.new)) }
    ensures finished { OnOk result (O.IsFinished out.new) }
{
    let asked = match plan_command(alloc, words) {
        Ok(asked) => asked,
        Err(error) => return show(alloc, &error, out),
    };
    let text = text_of(alloc, solver, read, asked)?;
    send(out, &text.text)?;
    Ok(status_of(text.kind))
}

/// Does what the words of a planner's command line ask, and returns the exit status.
///
/// The words begin with the name of the program: `mcfplan flow [--decimal MARK] [--unused WORD]
/// [--short WORD] [--penalty N] [--ranges WORD] PLACES ROUTES`, or `mcfplan pairs [--decimal MARK]
/// [--each WORD] [--maximise WORD] [--groups GROUPS] [--crossing WORD] COSTS`, as `plan_command`
/// reads them, or `mcfplan --version`. `read` returns the bytes of a file; it is called for PLACES
/// first, and for COSTS before GROUPS. The answer goes to `out`, as the text of a table, which
/// `told_text`, `pair_text` and `group_text` describe. Status 0 means a least plan or
/// choice, or the requested help or version on `out`; 1 that there is none; 2 faults. Status 3,
/// with a line or the text of the usage fault on `err`, means that the words aren't a command of
/// `mcfplan`, a file can't be read, writing fails, or memory runs out.
pub fn serve_plan<
    W: AsStr,
    S: Solves,
    R: FnMut(&str) -> Result<Vec<u8>, FileFault>,
    O: Sink,
    E: Sink,
>(alloc: Global, words: &[W], solver: &mut S, read: &mut R, out: &mut O, err: &mut E) -> u8
    requires { R.IsAlwaysCallable read.old }
    ensures status { result ≤ 3 }
    ensures served { (result ≡ 3)
        ⊎ ServesPlan R.FnMut (λ file. file.items) read.old read.new (map W.text words.now) result (O.contents out.old) (O.contents out.new) }
    ensures finished { result ≢ 3 → O.IsFinished out.new }
    ensures quiet { result ≢ 3 → err.new ≡ err.old }
{
    match answer(alloc, words, solver, read, out) {
        Ok(status) => status,
        Err(failure) => {
            let _ = send(err, failure.text().as_bytes());
            FAILED
        }
    }
}
