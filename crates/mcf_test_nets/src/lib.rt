#![tactic(auto)]

//! What tests share: the nets of texts, texts of large assignments, and numbers without a pattern.
//!
//! It builds on `mcf_network` and `mcf_instance`. Nothing that users get stands on it.

mod assignments;
mod nets;
mod random;

pub use assignments::{multiples, put_line, short_rows};
pub use nets::{instance_of, is_set_of, net_of};
pub use random::{below, next};
