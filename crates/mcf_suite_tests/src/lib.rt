#![tactic(auto)]

//! The tests of the command line and of its reading: what no clause says, and each public call with
//! ample memory.
//!
//! They stand in a crate of their own, since a crate with tests is proved twice. It has no other
//! function.

#[cfg(test)]
mod asking;
#[cfg(test)]
mod serving;
