#![tactic(auto)]

//! The tests of the solver, with the checker as judge: what no clause says, and each public call
//! with ample memory.
//!
//! They stand in a crate of their own, since a crate with tests is proved twice. It has no other
//! function.

#[cfg(test)]
mod arrays;
#[cfg(test)]
mod assigning;
#[cfg(test)]
mod cut_instances;
#[cfg(test)]
mod large;
#[cfg(test)]
mod running;
#[cfg(test)]
mod solving;
