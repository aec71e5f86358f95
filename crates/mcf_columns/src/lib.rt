#![tactic(auto)]

//! Columns of numbers whose reads and writes test the index, and piles of row or column numbers,
//! for the searches whose results a proved judge checks.
//!
//! Nothing is proved about the numbers: each call is safe and ends.
//!
//! It builds on `mcf_text`.

mod columns;
mod pile;

pub use columns::{NOWHERE, at, copy, count_up, narrow, put, sum_up, tail};
pub use pile::Pile;
