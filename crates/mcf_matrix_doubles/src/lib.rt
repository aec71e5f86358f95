#![tactic(auto)]

//! Cost matrices of doubles, which come as their bits and are read exactly.
//!
//! It stands on `mcf_matrix`. A finite double is the whole number of units of 2^-1074 that its bits
//! stand for, -0.0 is 0, and +infinity forbids a pair. Definitions stand in `specs/`: `Doubles`
//! says what bits stand for, `DoubleTables` which costs a list of them states, `DoublePrices` which
//! whole numbers prices of one power of 2 are, `Rounding` what costs are that are rounded down to
//! multiples of such a power, and how far from the least that may lead, `Spans` how many places the
//! bits of costs span.

mod assignment;
mod comparing;
mod cover;
mod cut;
mod double;
mod double_matrix;
mod prices;
mod span;
mod threshold;
mod transport;

pub use assignment::{DoublePrices, judge_assignment};
pub use cover::judge_cover;
pub use cut::judge_transport_cut;
pub use double::{INFINITY, Scaled};
pub use double_matrix::{DoubleFault, DoubleMatrix};
pub use prices::{are_small_prices, none_below};
pub use span::{EXACT_BITS, is_wide};
pub use transport::judge_transport;
