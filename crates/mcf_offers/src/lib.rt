#![tactic(auto)]

//! The queue of offers (tentative distances) of a search, nearest first.
//!
//! Distances are numbers of one width, 64 or 128 bits (`mcf_numbers`). The definition in `specs/`:
//! `Offers` says what is queued.

mod offers;

pub use offers::{Offer, Offers};
