//! Ranges of numbers, and pairs of a person and a thing.

/// How many things a person takes, or how many persons take a thing: `least` to `most`.
#[derive(Clone, Copy, Debug, PartialEq, Eq)]
pub struct Range {
    pub least: u32,
    pub most: u32,
}

/// A pair of a person and a thing that may be chosen. Persons count from 1, and so do things.
#[derive(Clone, Copy, Debug, PartialEq, Eq)]
pub struct Pair {
    /// The person.
    pub who: u32,
    /// The thing.
    pub what: u32,
    /// What it costs to choose the pair; below 0 it earns.
    pub cost: i64,
}
