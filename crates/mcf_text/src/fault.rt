//! Why a piece of a text is refused.
use thiserror::Error;

/// Why a piece of a text is refused. Its text is `out of memory` or `input too long`.
#[derive(Clone, Copy, Debug, PartialEq, Eq, Error)]
pub enum FeedFault {
    /// An allocation was refused.
    #[error("out of memory")]
    NoMemory,
    /// Together with this piece the text has more than 10^18 bytes.
    #[error("input too long")]
    TooLong,
}
