#![tactic(auto)]

//! The program `mcfplan flow PLACES ROUTES`: it plans the flow of two tables.
//!
//! `mcf_plan_suite` does all that matters; here the words are collected, the files read, the engine
//! and the devices lent, and the status returned.

use mcf_choice::{Choice, EngineChoice};
use mcf_plan_suite::{FileFault, IntoWriter, serve_plan};
use mcf_planner::Planner;
use std::io::{self, ErrorKind};
use std::process::ExitCode;
use std::rt::{Env, Files};
use std::{env, fs};

// The words of the command line, the program's name first.
fn words(rt: &(impl Env + AllocGlobal)) -> io::Result<Vec<String>> {
    let words = env::args(rt)?.collect(rt.alloc())?;
    Ok(words)
}

// The bytes of a file.
fn read_file(rt: &(impl Files + AllocGlobal), path: &str) -> Result<Vec<u8>, FileFault> {
    match fs::read(rt, path) {
        Ok(bytes) => Ok(bytes),
        Err(error) if error.kind() == ErrorKind::OutOfMemory => Err(FileFault::NoMemory),
        Err(_) => Err(FileFault::Unreadable),
    }
}

// The words, or none if one of them isn't text.
fn words_or_none(rt: &(impl Env + AllocGlobal)) -> Result<Vec<String>, FileFault> {
    match words(rt) {
        Ok(words) => Ok(words),
        Err(error) if error.kind() == ErrorKind::OutOfMemory => Err(FileFault::NoMemory),
        Err(_) => Ok(Vec::new(rt.alloc())),
    }
}

fn main(rt: HostRuntime) -> ExitCode {
    let mut engine = Planner {
        choice: Choice {
            engine: EngineChoice::Fast,
            ..Choice::default()
        },
    };
    let status = match words_or_none(&rt) {
        Ok(words) => serve_plan(
            rt.alloc(),
            &words,
            &mut engine,
            &mut |path: &str| read_file(&rt, path),
            &mut IntoWriter::new(rt.stdout()),
            &mut IntoWriter::new(rt.stderr()),
        ),
        Err(fault) => {
            let _ = rt.eprintln(format_args!("mcfplan: {fault}"));
            3
        }
    };
    ExitCode::from(status)
}
