//! The kinds of answers.

/// The kind of an answer.
#[derive(Clone, Copy, Debug, PartialEq, Eq)]
pub enum Kind {
    /// A least-cost flow with prices.
    Flow,
    /// A node set that blocks every flow.
    Blocked,
    /// A refusal that names the first bad line.
    Refused,
}
