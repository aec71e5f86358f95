//! The units of two tables over periods.
ghost use Rattle.std.specs.Prelude.{◌≡◌, max};
ghost use Rattle.std.specs.List.{flat_map};
ghost use Rattle.mcf_units.specs.Scales.{given_number, scale_of};
ghost use Rattle.mcf_period_units.specs.PeriodEntries.{entries_over};
ghost use Rattle.mcf_period_units.specs.PeriodScales.{keep_amounts, keep_costs, scales_over, time_amounts, time_costs};

use mcf_decimal::Decimal;
use mcf_period_reading::{KeepEntry, PeriodTables, PlaceTime};
use mcf_reading::Tables;
use mcf_units::{Scales, scales_of};

// The most decimals: those of a limit, or as many as before.
fn with_limit(scale: u32, most: Option<Decimal>) -> u32
    ensures { result ≡ max scale (scale_of (given_number most)) }
{
    match most {
        Some(number) => scale.max(number.places),
        None => scale,
    }
}

// The scales with those of what a place may keep.
fn with_keep(scales: Scales, keep: Option<KeepEntry>) -> Scales
    ensures amounts { result.amounts ≡ max scales.amounts (scale_of (keep_amounts keep)) }
    ensures costs { result.costs ≡ max scales.costs (scale_of (keep_costs keep)) }
{
    match keep {
        Some(keep) => Scales {
            amounts: with_limit(scales.amounts, keep.most),
            costs: scales.costs.max(keep.cost.places),
        },
        None => scales,
    }
}

// The scales with those of what a row of places says about periods.
fn with_time(scales: Scales, time: PlaceTime) -> Scales
    ensures amounts { result.amounts ≡ max scales.amounts (scale_of (time_amounts time)) }
    ensures costs { result.costs ≡ max scales.costs (scale_of (time_costs time)) }
{
    let with = with_keep(scales, time.keep);
    Scales {
        amounts: with.amounts.max(time.first.places).max(time.last.places),
        costs: with.costs,
    }
}

// The scales with those of all rows of places.
fn with_times(scales: Scales, times: &[PlaceTime]) -> Scales
    ensures amounts { result.amounts ≡ max scales.amounts (scale_of (flat_map time_amounts times.now)) }
    ensures costs { result.costs ≡ max scales.costs (scale_of (flat_map time_costs times.now)) }
{
    let mut found = scales;
    for place in 0..times.len() {
        found = with_time(found, times[place]);
    }
    found
}

// The scales of tables over periods and of a penalty.
pub(crate) fn scales_over(
    tables: &Tables,
    times: &PeriodTables<'_>,
    penalty: Option<Decimal>,
) -> Scales
    ensures { result ≡ scales_over (entries_over tables.now times.now) penalty }
{
    with_times(scales_of(tables, penalty), &times.places)
}
