#![tactic(auto)]

//! The program `mcfcheck INSTANCE ANSWER`: it judges the answer in one file for the instance in
//! another.
//!
//! `mcf_checker` does all that matters; here the words are collected, the files read and the status
//! returned.

use mcf_checker::{FileFault, judge};
use std::io::{self, ErrorKind};
use std::process::ExitCode;
use std::rt::{Env, Files};
use std::{env, fs};

// The words of the command line, the program's name first.
fn words(rt: &(impl Env + AllocGlobal)) -> io::Result<Vec<String>> {
    let words = env::args(rt)?.collect(rt.alloc())?;
    Ok(words)
}

// The bytes of a file.
fn read_file(rt: &(impl Files + AllocGlobal), path: &str) -> Result<Vec<u8>, FileFault> {
    match fs::read(rt, path) {
        Ok(bytes) => Ok(bytes),
        Err(error) if error.kind() == ErrorKind::OutOfMemory => Err(FileFault::NoMemory),
        Err(_) => Err(FileFault::Unreadable),
    }
}

// The words, or none if one of them isn't text.
fn words_or_none(rt: &(impl Env + AllocGlobal)) -> Result<Vec<String>, FileFault> {
    match words(rt) {
        Ok(words) => Ok(words),
        Err(error) if error.kind() == ErrorKind::OutOfMemory => Err(FileFault::NoMemory),
        Err(_) => Ok(Vec::new(rt.alloc())),
    }
}

fn main(rt: HostRuntime) -> ExitCode {
    let status = match words_or_none(&rt) {
        Ok(words) => judge(
            rt.alloc(),
            &words,
            |path: &str| read_file(&rt, path),
            &mut rt.stdout(),
            &mut rt.stderr(),
        ),
        Err(fault) => {
            let _ = rt.eprintln(format_args!("mcfcheck: {fault}"));
            3
        }
    };
    ExitCode::from(status)
}
