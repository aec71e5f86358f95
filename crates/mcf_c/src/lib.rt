#![tactic(auto)]

//! The solver and the checker for C: the header `mcf.h` declares the exports.
//!
//! It builds on `mcf_solver`, `mcf_checker`, `mcf_matrix_solver` and `mcf_double_solver`, and adds
//! nothing but numbers instead of enums, and arrays instead of texts. No export has a `requires`.
//! Clauses name a status as `mcf.h` does, without its prefix; of a judging call, `ACCEPTED` is 0
//! and `REJECTED` is 1. The definitions in `specs/`: `Choices` says what the numbers of a call
//! choose, `Calls` what a call for a text returns, `Problems` which networks arrays stand for,
//! `Verdicts` which numbers a verdict has, `Handing` what a call for arrays returns, `Judged` what
//! is judged of arrays, `Matrices` what a call for a cost matrix returns, `DoubleMatrices` the same
//! for doubles, `Transports` what a call for a transport problem returns, `TablePlans` what a call
//! for tables returns, `CostRanges` what a call for ranges of costs returns.

mod arrays;
mod choosing;
mod cost_ranges;
mod double_matrices;
mod double_transports;
mod handing;
mod judging;
mod matrices;
mod problems;
mod statuses;
mod table_plans;
mod texts;
mod transports;
mod verdicts;
mod wide;
