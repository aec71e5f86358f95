#![tactic(auto)]

//! Numbers as clauses see them: integers in 64 bits or in 128, counts that take no bytes, and
//! columns of entries whose writes are counted.
//!
//! Code for both widths is written once, over `Number<W>`; each net chooses its width. The crate
//! builds on `mcf_flows` for a bound.

mod column;
mod count;
mod number;
mod width;

pub use column::Column;
pub use count::Count;
pub use number::Number;
pub use width::Width;
