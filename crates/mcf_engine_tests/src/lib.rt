#![tactic(auto)]

//! The tests of prices and engines: what no clause says, and each public call with ample memory.
//!
//! They stand in a crate of their own, since a crate with tests is proved twice, and apart from the
//! others, so that all are proved at the same time. It has no other function.

#[cfg(test)]
mod again;
#[cfg(test)]
mod asking_again;
#[cfg(test)]
mod assigning;
#[cfg(test)]
mod fast;
#[cfg(test)]
mod fixtures;
#[cfg(test)]
mod leaving;
#[cfg(test)]
mod price_sizes;
#[cfg(test)]
mod prices;
#[cfg(test)]
mod raising;
#[cfg(test)]
mod ranges;
#[cfg(test)]
mod runs;
#[cfg(test)]
mod scaling;
#[cfg(test)]
mod simplex;
