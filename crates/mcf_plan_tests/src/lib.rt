#![tactic(auto)]

//! Tests of models and their plans: of what no clause states, and of each public call with ample
//! memory.
//!
//! They are a crate of their own, since a crate with tests is proved twice.

#[cfg(test)]
mod answer_rows;
#[cfg(test)]
mod both_ways;
#[cfg(test)]
mod chosen;
#[cfg(test)]
mod faults;
#[cfg(test)]
mod figures;
#[cfg(test)]
mod flow_tables;
#[cfg(test)]
mod group_order;
#[cfg(test)]
mod groups;
#[cfg(test)]
mod pair_groups;
#[cfg(test)]
mod pair_tables;
#[cfg(test)]
mod pair_texts;
#[cfg(test)]
mod period_texts;
#[cfg(test)]
mod periods;
#[cfg(test)]
mod places;
#[cfg(test)]
mod places_planned;
#[cfg(test)]
mod plan_texts;
#[cfg(test)]
mod plans;
#[cfg(test)]
mod ranges;
#[cfg(test)]
mod roster;
#[cfg(test)]
mod throughput;
#[cfg(test)]
mod tried;
#[cfg(test)]
mod unit_ranges;
