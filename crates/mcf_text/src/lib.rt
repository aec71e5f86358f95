#![tactic(auto)]

//! The text layer: the lines of a text, at once or in pieces, the fields of a line, whole numbers,
//! and numbers as text.
//!
//! A text is bytes, in no encoding. A line feed (a line feed) ends a line; spaces, tabs and
//! carriage returns are blanks and separate the fields of a line; no other byte does either. Only
//! `put_number`, `copies` and `LineFeed::feed` allocate, and each call takes time linear in the
//! bytes that it gets.

mod arc;
mod decimal;
mod error;
mod fault;
mod feed;
mod laws;
mod leading;
mod node;
mod number;
mod parts;
mod repeated;
mod split;

pub use arc::ArcId;
pub use decimal::{put_number, whole};
pub use error::NoMemory;
pub use fault::FeedFault;
pub use feed::{BYTE_LIMIT, LineFeed};
pub use laws::ids_are_ordered_by_number;
pub use leading::{LeadingDigits, leading_digits};
pub use node::NodeId;
pub use number::Whole;
pub use parts::{Fields, Line, Lines};
pub use repeated::copies;
pub use split::{fields, is_kept, lines, split_line};
