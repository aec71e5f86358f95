//! The numbers that tune the speed of the mending; no clause depends on any.

/// The search may read this many times as many residual arcs as the net has arcs.
pub(crate) const READINGS: u64 = 16;

/// How many more it may read.
pub(crate) const MORE_READINGS: u64 = 1024;

/// The number of places of the heap per node.
pub(crate) const PLACES: usize = 4;

/// How many more places the heap has.
pub(crate) const MORE_PLACES: usize = 64;
