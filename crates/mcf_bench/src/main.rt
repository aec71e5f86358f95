#![tactic(auto)]

//! Runs one part of the suite on a file, and prints a summary and the time. `bench/run.py` compares
//! each part with a peer.

ghost use Rattle.std.specs.Prelude.{◌<◌, ◌≤◌, ◌^◌};

mod answering;
mod feasibility;
mod judging;
mod networks;
mod raising;
mod reading;
mod recovering;
mod scaling;
mod simplex;
mod solving;
mod text;
mod trees;

use crate::recovering::Work;
use mcf_text::{Whole, whole};
use std::process::ExitCode;
use std::time::{Duration, Instant};
use std::{env, fs, io};

const USAGE: &str =
    "usage: mcf_bench read|simplex|solve|text INSTANCE, answer ANSWER, check INSTANCE ANSWER, net|feasible|scaling INSTANCE [TIMES], recover|raise INSTANCE ANSWER [TIMES], or tree NODES ROUNDS";

// A part that needs one file.
#[derive(Clone, Copy)]
enum Part {
    Answer,
    Feasible,
    Net,
    Read,
    Scaling,
    Simplex,
    Solve,
    Text,
}

fn main(rt: HostRuntime) -> io::Result<ExitCode> {
    let words = words(&rt)?;
    run(&rt, &words)
}

// The words of the command line, the program's name first.
fn words(rt: &HostRuntime) -> io::Result<Vec<String>> {
    let words = env::args(rt)?.collect(rt.alloc())?;
    Ok(words)
}

// Runs the part that the words name.
fn run(rt: &HostRuntime, words: &[String]) -> io::Result<ExitCode> {
    let Some(part) = words.get(1) else {
        println!(rt; "{USAGE}")?;
        return Ok(ExitCode::SUCCESS);
    };
    let Some(path) = words.get(2) else {
        return refuse(rt);
    };
    let more = words.get(3);
    if let Some(part) = part_of(part.as_str()) {
        run_on_file(rt, part, path.as_str(), times_of(more))?;
        return Ok(ExitCode::SUCCESS);
    }
    let Some(answer) = more else {
        return refuse(rt);
    };
    match part.as_str() {
        "check" => judging::run(rt, path.as_str(), answer.as_str())?,
        "recover" => run_on_files(rt, Work::Recover, path, answer, words.get(4))?,
        "raise" => run_on_files(rt, Work::Raise, path, answer, words.get(4))?,
        "tree" => trees::run(rt, number_of(path.as_str()), number_of(answer.as_str()))?,
        _ => return refuse(rt),
    }
    Ok(ExitCode::SUCCESS)
}

// Does the work on the state of an answer to an instance.
fn run_on_files(
    rt: &HostRuntime,
    work: Work,
    instance: &String,
    answer: &String,
    times: Option<&String>,
) -> io::Result<()> {
    recovering::run(
        rt,
        work,
        instance.as_str(),
        answer.as_str(),
        times_of(times),
    )
}

// Words that name no part.
fn refuse(rt: &HostRuntime) -> io::Result<ExitCode> {
    eprintln!(rt; "{USAGE}")?;
    Ok(ExitCode::FAILURE)
}

// The part with this name that needs one file.
fn part_of(word: &str) -> Option<Part> {
    match word {
        "answer" => Some(Part::Answer),
        "feasible" => Some(Part::Feasible),
        "net" => Some(Part::Net),
        "read" => Some(Part::Read),
        "scaling" => Some(Part::Scaling),
        "simplex" => Some(Part::Simplex),
        "solve" => Some(Part::Solve),
        "text" => Some(Part::Text),
        _ => None,
    }
}

// Reads a file and runs a part on its text.
fn run_on_file(rt: &HostRuntime, part: Part, path: &str, times: u32) -> io::Result<()> {
    let start = Instant::now(rt)?;
    let text = fs::read(rt, path)?;
    let time = start.elapsed(rt)?;
    match part {
        Part::Answer => answering::run(rt, &text),
        Part::Feasible => feasibility::run(rt, &text, times),
        Part::Net => networks::run(rt, &text, times),
        Part::Read => reading::run(rt, &text),
        Part::Scaling => scaling::run(rt, &text, times),
        Part::Simplex => simplex::run(rt, &text),
        Part::Solve => solving::run(rt, &text),
        Part::Text => text::run(rt, &text, time),
    }
}

// How often the work is repeated: the number from 1 to 1,000 in a word, or once.
fn times_of(word: Option<&String>) -> u32 {
    let Some(word) = word else {
        return 1;
    };
    match whole(word.as_bytes(), 1, 1_000) {
        Whole::Value(times) => times as u32,
        _ => 1,
    }
}

// The number from 1 to 10,000,000 in a word, or 1.
fn number_of(word: &str) -> u32
    ensures positive { 0 < result }
    ensures small { result ≤ 10 ^ 7 }
{
    match whole(word.as_bytes(), 1, 10_000_000) {
        Whole::Value(number) => number as u32,
        _ => 1,
    }
}

// Prints a time as seconds, after their name.
fn tell_time(rt: &HostRuntime, name: &str, time: Duration) -> io::Result<()> {
    println!(rt; "{name} {:.6}", time.as_secs_f64())
}
