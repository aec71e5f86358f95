//! The routes of the models of spans, as rows.
ghost use Rattle.std.specs.Prelude.{◌≡◌, ◌+◌, ◌++◌, ◌∷◌, [], IfOk, length, map, option_map, pos};
ghost use Rattle.std.specs.List.{All};
ghost use Rattle.mcf_figures.specs.Figures.{figure_limit};
ghost use Rattle.mcf_flows.specs.WellFormed.{IsUpTo};
ghost use Rattle.mcf_model.specs.Faults.{AreListed};
ghost use Rattle.mcf_unit_ranges.specs.Private.Rows.{plain};
ghost use Rattle.mcf_unit_ranges.specs.SpanModels.{freed, spare};
ghost use Rattle.mcf_unit_ranges.specs.Spans.{span};
ghost use Rattle.mcf_unit_ranges.specs.Told.{HasSmallSpan};

use crate::spans::span_at;
use mcf_model::{PlanModel, RouteRow};
use mcf_text::NoMemory;
use std::alloc::Global;

/// Two places, between which units move. Places count from 1.
#[derive(Clone, Copy, Debug, PartialEq, Eq)]
pub struct Ends {
    /// The place where units come in.
    pub from: u32,
    /// The place where they are taken out.
    pub to: u32,
}

// Returns the spare route.
fn spare_row(ends: Ends) -> RouteRow
    ensures route { plain result ≡ spare ends.from ends.to }
    ensures plain { (result.first_step + result.step_count) ≡ 0 }
{
    RouteRow {
        tail: ends.from,
        head: ends.to,
        first_step: 0,
        step_count: 0,
        least: 0,
        last_most: None,
        last_cost: 1,
        both: false,
    }
}

// Returns 0 in place of a limit, if there is one.
fn freed_limit(most: Option<i64>) -> Option<i64>
    ensures { result ≡ option_map (λ most. pos 0) most }
{
    match most {
        Some(_) => Some(0),
        None => None,
    }
}

// Returns the route of the amounts by which a route without steps may exceed what it carries.
fn freed_row(row: RouteRow) -> RouteRow
    ensures route { plain result ≡ freed (plain row) }
    ensures same { (result.first_step + result.step_count) ≡ row.first_step + row.step_count }
{
    RouteRow {
        least: 0,
        last_most: freed_limit(row.last_most),
        ..row
    }
}

/// Returns the spans of all routes.
pub(crate) fn span_rows(
    alloc: Global,
    model: &PlanModel,
    prices: &[i128],
) -> Result<Vec<RouteRow>, NoMemory>
    requires prices { All (IsUpTo figure_limit) prices.now }
    requires small { All (HasSmallSpan prices.now) model.now.routes }
    ensures routes { IfOk result (λ made. map plain made.items ≡ map (span prices.now) model.now.routes) }
    ensures listed { IfOk result (λ made. AreListed [] made.items) }
{
    let mut rows = Vec::new(alloc);
    for place in 0..model.route_count() {
        let row = span_at(model, prices, place);
        rows.push(row)?;
    }
    Ok(rows)
}

/// Returns the routes of the amounts by which routes without steps may exceed what they carry.
pub(crate) fn freed_rows(alloc: Global, rows: &[RouteRow]) -> Result<Vec<RouteRow>, NoMemory>
    requires { AreListed [] rows.now }
    ensures routes { IfOk result (λ made. map plain made.items ≡ map freed (map plain rows.now)) }
    ensures listed { IfOk result (λ made. AreListed [] made.items) }
{
    let mut freed = Vec::new(alloc);
    for place in 0..rows.len() {
        let row = freed_row(rows[place]);
        freed.push(row)?;
    }
    Ok(freed)
}

/// Returns routes with the spare route before them.
pub(crate) fn with_spare(
    alloc: Global,
    rows: &[RouteRow],
    ends: Ends,
) -> Result<Vec<RouteRow>, NoMemory>
    requires { AreListed [] rows.now }
    ensures routes { IfOk result (λ made. map plain made.items ≡ spare ends.from ends.to ∷ map plain rows.now) }
    ensures listed { IfOk result (λ made. AreListed [] made.items) }
{
    let mut all = Vec::new(alloc);
    let spare = spare_row(ends);
    all.push(spare)?;
    all.extend_from_slice(rows)?;
    Ok(all)
}
