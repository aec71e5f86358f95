#![tactic(auto)]

//! The program `mcf solve`: it answers an instance of a minimum-cost flow problem.
//!
//! `mcf_suite` does all that matters; here the words are collected, the devices lent and the status
//! returned.

use mcf_suite::{FromReader, IntoWriter, RunFault, serve};
use std::io::{self, ErrorKind, Read, Stdin};
use std::process::ExitCode;
use std::rt::{Env, Files};
use std::{env, fs};

// The source of the instance.
#[derive(Drop)]
enum Input<F> {
    Stdin(Stdin),
    File(F),
}

impl<F: Read> Read for Input<F> {
    fn read(&mut self, piece: &mut [u8]) -> io::Result<usize> {
        match self {
            Input::Stdin(stdin) => stdin.read(piece),
            Input::File(file) => file.read(piece),
        }
    }
}

// The words of the command line, the program's name first.
fn words(rt: &(impl Env + AllocGlobal)) -> io::Result<Vec<String>> {
    let words = env::args(rt)?.collect(rt.alloc())?;
    Ok(words)
}

// The words, or none if one of them isn't text.
fn words_or_none(rt: &(impl Env + AllocGlobal)) -> Result<Vec<String>, RunFault> {
    match words(rt) {
        Ok(words) => Ok(words),
        Err(error) if error.kind() == ErrorKind::OutOfMemory => Err(RunFault::NoMemory),
        Err(_) => Ok(Vec::new(rt.alloc())),
    }
}

// The source of a file, or none if it can't be opened.
fn open<R: Files>(rt: &R, path: &str) -> Option<FromReader<Input<R::File>>> {
    match fs::open(rt, path) {
        Ok(file) => Some(FromReader::new(Input::File(file))),
        Err(_) => None,
    }
}

fn main(rt: HostRuntime) -> ExitCode {
    let status = match words_or_none(&rt) {
        Ok(words) => serve(
            rt.alloc(),
            &words,
            &mut FromReader::new(Input::Stdin(rt.stdin())),
            &mut |path: &str| open(&rt, path),
            &mut IntoWriter::new(rt.stdout()),
            &mut IntoWriter::new(rt.stderr()),
        ),
        Err(fault) => {
            let _ = rt.eprintln(fault);
            3
        }
    };
    ExitCode::from(status)
}
