#![tactic(auto)]

//! Matchings of the net of an assignment, extended row by row along shortest augmenting paths.
//!
//! It builds on `mcf_network`, `mcf_offers` and `mcf_columns`. The module `matching` chooses the
//! width of a matching's numbers, by its case of `Core`. The definitions in `specs/`: `Matchings`
//! and `Extending` say what a matching is and what one search does to it; `Labels` what a search
//! finds; `RowLists`, `Scenes`, `Searches`, `Rooms`, `Forests`, `Turning` and `Keeping` what it
//! keeps; `Reaches` how far from 0 its numbers lie; `Updating` how new prices are judged; `Cores`
//! what a matching of either width stands for.

mod augmenting;
mod extended;
mod judging;
mod matching;
mod partial;
mod prices;
mod regime;
mod rows;
mod scene;
mod search;
mod turning;
mod update;

pub use extended::Extended;
pub use matching::Matching;
