#![tactic(auto)]

//! Names in tables: which cells are names, and the numbers of names.
//!
//! It builds on `mcf_text`. The definitions are in `specs/`: `NameFaults` says why a cell is no
//! name, `Names` which number a name has and which names differ from all before them.

mod faults;
mod names;
mod sorted;

pub use faults::{NameFault, name_fault};
pub use names::Names;
