#![tactic(auto)]

//! Cost matrices, their matchings and transport plans, and judges that test whether prices show one
//! of these to be least.
//!
//! It builds on `mcf_flows`. Rows and columns count from 0. The definitions are in `specs/`:
//! `Costs` defines the cost of each pair, `Tables` how a matrix is stored, `Matchings` and `Plans`
//! what a least matching or plan is, `MatrixPrices` which prices show a matching to be least, and
//! `Covers` and `Cuts` what excludes matchings and plans.

mod assignment;
mod cover;
mod cut;
mod laws;
mod matrix;
mod prices;
mod shipment;
mod showing;
mod showing_plans;
mod transport;
mod whole_prices;

pub use assignment::judge_assignment;
pub use cover::{Allows, excludes, judge_cover};
pub use cut::{excludes_plans, judge_transport_cut};
pub use laws::{
    covered_has_no_matching, cut_has_no_plan, shown_matchings_are_least,
    shown_matchings_cost_the_prices, shown_plans_are_least, shown_plans_cost_the_prices,
};
pub use matrix::{FORBIDDEN, Matrix, MatrixFault, is_shaped};
pub use shipment::{Masses, Shipment};
pub use showing::{Priced, shows};
pub use showing_plans::shows_plan;
pub use transport::judge_transport;
