#![tactic(auto)]

//! Tests of cost matrices, of their judges and of the searches on them: of what no clause states,
//! and of each public call with ample memory.
//!
//! They are a crate of their own, since a crate with tests is proved twice.

#[cfg(test)]
mod assignments;
#[cfg(test)]
mod columns;
#[cfg(test)]
mod double_solving;
#[cfg(test)]
mod double_transports;
#[cfg(test)]
mod doubles;
#[cfg(test)]
mod matrices;
#[cfg(test)]
mod scattered;
#[cfg(test)]
mod searching;
#[cfg(test)]
mod solving;
#[cfg(test)]
mod transports;
