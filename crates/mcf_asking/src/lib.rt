#![tactic(auto)]

//! The meaning of the words of a command line.
//!
//! It builds on `mcf_choice`, whose choices the words name, and on the library `clap`, which reads
//! words; not on any engine. The definitions in `specs/`: `Asking` says what a command line asks.

mod asking;

pub use asking::{Asked, command, word_option};
