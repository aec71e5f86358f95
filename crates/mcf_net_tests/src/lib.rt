#![tactic(auto)]

//! The tests of nets, feasible states, trees, bases and queues of offers: what no clause says, and
//! each public call with ample memory.
//!
//! They stand in a crate of their own, since a crate with tests is proved twice, and apart from
//! those of engines, so that they are proved while the engines are. It has no other function.

#[cfg(test)]
mod bases;
#[cfg(test)]
mod feasibility;
#[cfg(test)]
mod networks;
#[cfg(test)]
mod offers;
#[cfg(test)]
mod trees;
