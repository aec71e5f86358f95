//! The words by which faults of texts and cells are told.
ghost use Rattle.std.specs.Prelude.{◌≡◌};
ghost use Rattle.mcf_answer_rows.specs.FaultWords.{field_word, name_word, number_word, too_great};

use mcf_decimal::NumberFault;
use mcf_names::NameFault;
use mcf_table::FieldFault;

/// Why a field isn't read.
pub fn field_word(fault: FieldFault) -> &'static [u8]
    ensures { result.now ≡ field_word fault }
{
    match fault {
        FieldFault::Unclosed => b"quote not closed",
        FieldFault::AfterQuote => b"text after a quote",
    }
}

/// Why a cell isn't a name.
pub fn name_word(fault: NameFault) -> &'static [u8]
    ensures { result.now ≡ name_word fault }
{
    match fault {
        NameFault::Empty => b"empty name",
        NameFault::Control => b"control character",
    }
}

/// Why a cell isn't a number.
pub fn number_word(fault: NumberFault) -> &'static [u8]
    ensures { result.now ≡ number_word fault }
{
    match fault {
        NumberFault::Empty => b"empty",
        NumberFault::Exponent => b"exponent",
        NumberFault::Either => b"either of two numbers",
        NumberFault::OtherMark => b"other decimal mark",
        NumberFault::NoNumber => b"no number",
        NumberFault::TooLong => b"too many digits",
    }
}

/// What is wrong with a number that is too great.
#[tactic(auto, unfolding(crate::specs::FaultWords::too_great))]
pub fn too_great() -> &'static [u8]
    ensures { result.now ≡ too_great }
{
    b"too great"
}
