//! The statuses of the calls.

/// A flow.
pub(crate) const FLOW: u32 = 0;

/// A node set that blocks.
pub(crate) const BLOCKED: u32 = 1;

/// The answer is accepted.
pub(crate) const ACCEPTED: u32 = 0;

/// The answer isn't accepted.
pub(crate) const REJECTED: u32 = 1;

/// The text or the arrays have a fault.
pub(crate) const INVALID_INPUT: u32 = 2;

/// An allocation was refused.
pub(crate) const NO_MEMORY: u32 = 3;

/// A buffer is too short, or an array doesn't have the length of the others.
pub(crate) const BUFFER_TOO_SMALL: u32 = 4;

/// The numbers mean no choice.
pub(crate) const INVALID_CHOICE: u32 = 5;

/// A price doesn't fit 64 bits.
pub(crate) const PRICE_OVERFLOW: u32 = 6;

/// A search found nothing that a judge accepts.
pub(crate) const NOT_SHOWN: u32 = 7;
