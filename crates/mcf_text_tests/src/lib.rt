#![tactic(auto)]

//! The tests of texts, tables, their names and numbers, instances, answers and the checker: what no
//! clause says, and each public call with ample memory.
//!
//! They stand in a crate of their own, since a crate with tests is proved twice, and apart from
//! those of the solver, so that their proofs wait for no engine. It has no other function.

#[cfg(test)]
mod amounts;
#[cfg(test)]
mod answers;
#[cfg(test)]
mod arc_lines;
#[cfg(test)]
mod arrays;
#[cfg(test)]
mod checking;
#[cfg(test)]
mod cut_answers;
#[cfg(test)]
mod decimals;
#[cfg(test)]
mod feeding;
#[cfg(test)]
mod head_rows;
#[cfg(test)]
mod instances;
#[cfg(test)]
mod names;
#[cfg(test)]
mod near_heads;
#[cfg(test)]
mod sets;
#[cfg(test)]
mod tables;
#[cfg(test)]
mod text;
