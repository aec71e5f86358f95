//! The text of an answer.

/// What kind of answer a text says.
#[derive(Clone, Copy, Debug, PartialEq, Eq)]
pub enum TextKind {
    /// A best plan.
    Plan,
    /// Why there is no plan.
    NoPlan,
    /// Faults of the tables, or a number beyond the limits.
    Faults,
}

/// The text of an answer, and its kind.
#[derive(Drop)]
pub struct PlanText {
    /// The rows, each with a line feed; each cell stands between quotes, with commas between them.
    pub text: Vec<u8>,
    /// The kind.
    pub kind: TextKind,
}
