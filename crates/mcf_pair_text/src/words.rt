//! The words by which faults are told.
ghost use Rattle.std.specs.Prelude.{◌≡◌};
ghost use Rattle.mcf_roster_reading.specs.Columns.{head_word};
ghost use Rattle.mcf_pair_text.specs.PairFaultRows.{beyond_word, costs_word, fault_word, improper_word, near_word};

use mcf_answer_rows::{name_word, number_word};
use mcf_flows::Code;
use mcf_instance::ArrayFault;
use mcf_roster::RosterFault;
use mcf_roster_reading::{FaultKind, Head};

// The word of the table.
#[tactic(auto, unfolding(crate::specs::PairFaultRows::costs_word))]
pub(crate) fn costs_word() -> &'static [u8]
    ensures { result.now ≡ costs_word }
{
    b"costs"
}

// The text of a head.
pub(crate) fn head_word(head: Head) -> &'static [u8]
    ensures { result.now ≡ head_word head }
{
    match head {
        Head::Who => b"who",
        Head::What => b"what",
        Head::Cost => b"cost",
        Head::Takes => b"takes",
        Head::Needs => b"needs",
    }
}

// What is wrong with a title that is nearly this head.
fn near_word(head: Head) -> &'static [u8]
    ensures { result.now ≡ near_word head }
{
    match head {
        Head::Who => b"nearly who",
        Head::What => b"nearly what",
        Head::Cost => b"nearly cost",
        Head::Takes => b"nearly takes",
        Head::Needs => b"nearly needs",
    }
}

// What is wrong with a cell, a column or the table.
pub(crate) fn fault_word(kind: FaultKind) -> &'static [u8]
    ensures { result.now ≡ fault_word kind }
{
    match kind {
        FaultKind::NoColumn => b"no such column",
        FaultKind::TwoColumns => b"two such columns",
        FaultKind::NearHead(head) => near_word(head),
        FaultKind::BothMarks => b"both decimal marks",
        FaultKind::Beyond => b"beyond the last head",
        FaultKind::Name(fault) => name_word(fault),
        FaultKind::Twice => b"named twice",
        FaultKind::Number(fault) => number_word(fault),
        FaultKind::NoRange => b"no number or range",
        FaultKind::TwoRanges => b"two different numbers",
        FaultKind::NoThing => b"no thing",
        FaultKind::NoPerson => b"no person",
    }
}

// What is wrong with the roster.
pub(crate) fn improper_word(fault: RosterFault) -> &'static [u8]
    ensures { result.now ≡ improper_word fault }
{
    match fault {
        RosterFault::Size => b"too many persons or things",
        RosterFault::Takes(_) => b"least above most",
        RosterFault::Needs(_) => b"least above most",
        RosterFault::Ends(_) => b"no such person or thing",
    }
}

// What is wrong with a number beyond the limits.
pub(crate) fn beyond_word(fault: &ArrayFault) -> &'static [u8]
    ensures { result.now ≡ beyond_word fault.now }
{
    match fault {
        ArrayFault::Size => b"too many persons, things or pairs",
        ArrayFault::Arc(_, Code::Order) => b"least above most",
        _ => b"beyond the limits",
    }
}
