#![tactic(auto)]

//! Tests of the reading of tables: one of each kind of fault, and each public call with ample
//! memory.
//!
//! They are a crate of their own, since a crate with tests is proved twice.

#[cfg(test)]
mod entries;
#[cfg(test)]
mod faults;
#[cfg(test)]
mod forms;
#[cfg(test)]
mod groups;
#[cfg(test)]
mod near_heads;
#[cfg(test)]
mod near_period_heads;
#[cfg(test)]
mod period_units;
#[cfg(test)]
mod periods;
#[cfg(test)]
mod rosters;
#[cfg(test)]
mod texts;
#[cfg(test)]
mod units;
