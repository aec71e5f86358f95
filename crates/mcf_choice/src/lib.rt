#![tactic(auto)]

//! The choices of a caller: the engine, its pricing rule with the size of its blocks, and the form
//! of the answer.
//!
//! It builds on nothing. The definitions in `specs/`: `BlockSizes` says what a size of blocks is,
//! `Choices` what the defaults are.

mod block_size;
mod choice;

pub use block_size::BlockSize;
pub use choice::{Choice, EngineChoice, Form, PricingChoice};
