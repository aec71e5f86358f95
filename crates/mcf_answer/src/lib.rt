#![tactic(auto)]

//! Answers of minimum-cost flow: what their texts spell, written and parsed.
//!
//! It builds on `mcf_text` and `mcf_flows`. The definitions in `specs/`: `Spelling` says which
//! lines spell an answer, `Token`, `Said` and `Ranges` what one line means, `Written` what is
//! written, `Fits` and `Parsing` what a text stands for, `Solution`, `SparseSolution` and
//! `BlockingSet` what clauses see of answers, `Laws` what holds of answers and their texts.

mod answers;
mod draft;
mod laws;
mod line;
mod lists;
mod parser;
mod shape;
mod writer;

pub use answers::{Answer, BlockedAnswer, FlowAnswer, Sent, SparseAnswer};
pub use laws::{
    no_text_spells_two_answers, texts_stand_for_what_they_spell, what_is_written_is_read_back,
};
pub use lists::{AnswerList, MovedList, NodeList, PriceList, SentList};
pub use parser::parse;
pub use shape::Shape;
pub use writer::write;
