//! The words by which faults about periods are told.
ghost use Rattle.std.specs.Prelude.{◌≡◌};
ghost use Rattle.mcf_period_reading.specs.PeriodHeads.{head_text};
ghost use Rattle.mcf_period_text.specs.PeriodFaultRows.{many_places, near_word, period_word, store_column, store_number};

use mcf_answer_rows::{name_word, number_word};
use mcf_flows::Code;
use mcf_instance::ArrayFault;
use mcf_model::RouteFault;
use mcf_period_reading::{PeriodHead, PeriodKind};

// The text of a head.
pub(crate) fn head_text(head: PeriodHead) -> &'static [u8]
    ensures { result.now ≡ head_text head }
{
    match head {
        PeriodHead::Period => b"period",
        PeriodHead::KeepMost => b"keep most",
        PeriodHead::KeepCost => b"keep cost",
        PeriodHead::FirstStock => b"first stock",
        PeriodHead::LastStock => b"last stock",
        PeriodHead::Lead => b"lead",
    }
}

// That a title nearly is this head.
fn near_word(head: PeriodHead) -> &'static [u8]
    ensures { result.now ≡ near_word head }
{
    match head {
        PeriodHead::Period => b"nearly period",
        PeriodHead::KeepMost => b"nearly keep most",
        PeriodHead::KeepCost => b"nearly keep cost",
        PeriodHead::FirstStock => b"nearly first stock",
        PeriodHead::LastStock => b"nearly last stock",
        PeriodHead::Lead => b"nearly lead",
    }
}

// What is wrong with what a cell under a head says of periods.
pub(crate) fn period_word(head: PeriodHead, kind: PeriodKind) -> &'static [u8]
    ensures { result.now ≡ period_word head kind }
{
    match kind {
        PeriodKind::TwoColumns => b"two such columns",
        PeriodKind::NoPeriods => b"not read without period",
        PeriodKind::NearHead(_) => near_word(head),
        PeriodKind::NoneNamed => b"no period named",
        PeriodKind::Name(fault) => name_word(fault),
        PeriodKind::Twice => b"named twice in a period",
        PeriodKind::NoPeriod => b"no such period",
        PeriodKind::Number(fault) => number_word(fault),
        PeriodKind::BelowZero => b"below 0",
        PeriodKind::NoLead => b"no number of periods",
        PeriodKind::NotFirst => b"not in the first period",
        PeriodKind::NotLast => b"not in the last period",
    }
}

// That there are too many places.
#[tactic(auto, unfolding(crate::specs::PeriodFaultRows::many_places))]
pub(crate) fn many_places() -> &'static [u8]
    ensures { result.now ≡ many_places }
{
    b"too many places in all periods"
}

// The column of a store that a fault of a route is about.
pub(crate) fn store_column(fault: RouteFault) -> &'static [u8]
    ensures { result.now ≡ store_column fault }
{
    match fault {
        RouteFault::Place => b"name",
        RouteFault::Steps => head_text(PeriodHead::KeepMost),
        RouteFault::Room => head_text(PeriodHead::KeepMost),
        RouteFault::FallingCost => head_text(PeriodHead::KeepCost),
        RouteFault::BothWays => head_text(PeriodHead::KeepCost),
        RouteFault::NoLimit => head_text(PeriodHead::KeepMost),
    }
}

// The column of a number of a store.
pub(crate) fn store_number(fault: &ArrayFault) -> &'static [u8]
    ensures { result.now ≡ store_number fault.now }
{
    match fault {
        ArrayFault::Size => b"",
        ArrayFault::Supply(_) => head_text(PeriodHead::KeepMost),
        ArrayFault::Arc(_, Code::Bound) => head_text(PeriodHead::KeepMost),
        ArrayFault::Arc(_, Code::Order) => head_text(PeriodHead::KeepMost),
        ArrayFault::Arc(_, _) => head_text(PeriodHead::KeepCost),
    }
}
