//! The periods of the problem: those that are named, one before them for first stock, and one after
//! them for last stock.
ghost use Rattle.std.specs.Prelude.{◌≡◌, ◌≤◌};
ghost use Rattle.std.specs.List.{list_any};
ghost use Rattle.mcf_places.specs.declared.faults.TheConstants.{PLACE_LIMIT};
ghost use Rattle.mcf_period_units.specs.Spans.{has_first, has_last, named, one_if, period_count, span_in, told_in};

use mcf_period_reading::PlaceTime;

// How many periods are named, and whether there is one before them, and one after them.
#[derive(Clone, Copy)]
pub(crate) struct Span {
    // Whether some row names a first stock, which is there before the first named period.
    pub(crate) before: bool,
    // The number of named periods.
    pub(crate) last: usize,
    // Whether some row names a last stock, which must be left after the last named period.
    pub(crate) after: bool,
}

// Whether some row names a first stock.
fn any_first(times: &[PlaceTime]) -> bool
    ensures { result ≡ list_any has_first times.now }
{
    times.iter().any(|time| time.first.mantissa > 0)
}

// Whether some row names a last stock.
fn any_last(times: &[PlaceTime]) -> bool
    ensures { result ≡ list_any has_last times.now }
{
    times.iter().any(|time| time.last.mantissa > 0)
}

// The periods of the problem, by the rows of places and the number of named periods.
pub(crate) fn span_in(times: &[PlaceTime], last: usize) -> Span
    ensures { result ≡ span_in times.now last }
{
    Span {
        before: any_first(times),
        last,
        after: any_last(times),
    }
}

// 1 if the test holds, or else 0.
pub(crate) fn one_if(test: bool) -> usize
    ensures value { result ≡ one_if test }
    ensures few { result ≤ 1 }
{
    if test { 1 } else { 0 }
}

// How many periods the problem has.
pub(crate) fn period_count(span: Span) -> usize
    requires { span.last ≤ PLACE_LIMIT }
    ensures { result ≡ period_count span }
{
    one_if(span.before) + span.last + one_if(span.after)
}

// The number of a period of the problem among the named ones; 0 for the one before them.
pub(crate) fn named(span: Span, period: usize) -> usize
    ensures { result ≡ named span period }
{
    period.saturating_sub(one_if(span.before))
}

// The named period by whose rows a period is told.
pub(crate) fn told_in(last: usize, number: usize) -> usize
    ensures { result ≡ told_in last number }
{
    if number == 0 {
        1
    } else if last < number {
        last
    } else {
        number
    }
}
