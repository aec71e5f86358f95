//! Ranges of costs.

/// How far the cost of an arc may fall, and how far it may rise; `None` is no limit.
#[derive(Clone, Copy, Debug, PartialEq, Eq)]
pub struct CostRange {
    pub down: Option<i128>,
    pub up: Option<i128>,
}
