//! Bottlenecks over periods as rows of a table.
ghost use Rattle.std.specs.Prelude.{◌≡◌, ◌<◌, ◌++◌, ◌∷◌, ◌||◌, IfOk, OnOk, [], codes, false, if◌then◌else◌, length, slice_index_or, suc};
ghost use Rattle.std.specs.List.{flat_map, range_with_len};
ghost use Rattle.mcf_answer_rows.specs.Lines.{row_line, rows_text};
ghost use Rattle.mcf_plan_rows.specs.BottleneckRows.{no_place};
ghost use Rattle.mcf_period_text.specs.PeriodBottleneckRows.{departure_led, departure_led_row, departure_led_rows, period_bottleneck_rows, store_led, store_led_row, store_led_rows, timed_set_row, timed_set_rows};
ghost use Rattle.mcf_period_text.specs.TimedTables.{timed_in};

use crate::timed::{
    Timed, arrives_at, departure_origin, leaves_from, period_name, place_name, place_origin,
    store_origin, told_row,
};
use mcf_answer_rows::{line_cell, put_line};
use mcf_places::{Place, PlannerBottleneck};
use mcf_plan_rows::{
    Blocked, Counted, Led, Own, count_cells, is_led, led_at, member_at, own_cells, place_at,
    put_side, through_cells, way_word, yes_or_no,
};
use mcf_text::NoMemory;
use std::alloc::Global;

// The words of a place in a period: its name, whether its entry and its exit are the bottleneck's,
// and the period.
#[derive(Clone, Copy)]
struct SetWords<'t> {
    name: &'t [u8],
    at_entry: &'t [u8],
    at_exit: &'t [u8],
    period: &'t [u8],
}

// Appends the cells of a place in a period.
fn put_set_cells(
    out: &mut Vec<u8>,
    line: &[u8],
    words: SetWords<'_>,
    own: &Own,
    passes: &Counted,
) -> Result<(), NoMemory>
    ensures { OnOk result (out.new.items ≡ out.old.items
        ++ row_line (codes "place" ∷ line.now ∷ words.entry.name.now ∷ words.entry.at_entry.now ∷ words.entry.at_exit.now
        ∷ own.now.gives.items ∷ own.now.wants.items ∷ passes.now.least.items ∷ passes.now.most.items
        ∷ words.entry.period.now ∷ [])) }
{
    put_line(
        out,
        &[
            b"place",
            line,
            words.name,
            words.at_entry,
            words.at_exit,
            &own.gives,
            &own.wants,
            &passes.least,
            &passes.most,
            words.period,
        ],
    )
}

// Appends the place in a period with a number.
fn put_set_row(
    alloc: Global,
    out: &mut Vec<u8>,
    timed: Timed<'_, '_>,
    blocked: Blocked<'_>,
    place: Place,
    number: usize,
) -> Result<(), NoMemory>
    ensures { OnOk result (out.new.items ≡ out.old.items
        ++ row_line (timed_set_row (timed_in timed.entry) blocked.entry.scales blocked.entry.bottleneck.now place number)) }
{
    let origin = place_origin(timed, number.saturating_sub(1));
    let row = told_row(origin);
    let member = member_at(blocked.bottleneck, number.saturating_sub(1));
    let line = line_cell(alloc, timed.two.places, row)?;
    let own = own_cells(alloc, blocked.scales, place, member)?;
    let passes = through_cells(alloc, blocked, place, number)?;
    let words = SetWords {
        name: place_name(timed, row),
        at_entry: yes_or_no(member.entry),
        at_exit: yes_or_no(member.exit),
        period: period_name(timed, origin.period as usize),
    };
    put_set_cells(out, &line, words, &own, &passes)
}

// Whether the entry or the exit of a place is one of the bottleneck's.
fn is_member(found: &PlannerBottleneck, place: usize) -> bool
    ensures { result ≡ (slice_index_or found.now.entries.items place false || slice_index_or found.now.exits.items place false) }
{
    let member = member_at(found, place);
    member.entry || member.exit
}

// Appends the place in a period at a place of the list.
fn put_found(
    alloc: Global,
    out: &mut Vec<u8>,
    timed: Timed<'_, '_>,
    blocked: Blocked<'_>,
    place: usize,
) -> Result<(), NoMemory>
    requires { place < length blocked.bottleneck.now.entries.items }
    ensures { OnOk result (out.new.items ≡ out.old.items
        ++ row_line (timed_set_row (timed_in timed.entry) blocked.entry.scales blocked.entry.bottleneck.now
        (slice_index_or blocked.entry.planner.now.places place no_place) (suc place))) }
{
    let found = place_at(blocked.planner.places(), place);
    put_set_row(alloc, out, timed, blocked, found, place + 1)
}

// Appends the place in a period, if its entry or its exit is one of the bottleneck's.
fn put_member(
    alloc: Global,
    out: &mut Vec<u8>,
    timed: Timed<'_, '_>,
    blocked: Blocked<'_>,
    place: usize,
) -> Result<(), NoMemory>
    requires { place < length blocked.bottleneck.now.entries.items }
    ensures { OnOk result (out.new.items ≡ out.old.items
        ++ rows_text (timed_set_rows (timed_in timed.entry) blocked.entry.planner.now blocked.entry.scales blocked.entry.bottleneck.now place)) }
{
    if is_member(blocked.bottleneck, place) {
        return put_found(alloc, out, timed, blocked, place);
    }
    Ok(())
}

// Appends the places of a bottleneck.
fn put_members(
    alloc: Global,
    out: &mut Vec<u8>,
    timed: Timed<'_, '_>,
    blocked: Blocked<'_>,
) -> Result<(), NoMemory>
    ensures { OnOk result (out.new.items ≡ out.old.items
        ++ rows_text (flat_map (timed_set_rows (timed_in timed.entry) blocked.entry.planner.now blocked.entry.scales blocked.entry.bottleneck.now)
        (range_with_len 0 (length blocked.entry.bottleneck.now.entries.items)))) }
{
    for place in 0..blocked.bottleneck.entries.len() {
        put_member(alloc, out, timed, blocked, place)?;
    }
    Ok(())
}

// A departure as a route between places in periods.
fn departure_led(timed: Timed<'_, '_>, blocked: Blocked<'_>, place: usize) -> Led
    requires { place < length (timed_in timed).origins.departures.items }
    ensures { result ≡ departure_led (timed_in timed.entry) blocked.entry.planner.now blocked.entry.bottleneck.now place }
{
    let departure = departure_origin(timed, place);
    let number = timed.origins.stores.len() + place;
    led_at(blocked, departure.back, departure.row as usize, number)
}

// A store as a route between places in periods.
fn store_led(timed: Timed<'_, '_>, blocked: Blocked<'_>, place: usize) -> Led
    ensures { result ≡ store_led (timed_in timed.entry) blocked.entry.planner.now blocked.entry.bottleneck.now place }
{
    let store = store_origin(timed, place);
    led_at(blocked, false, store.row as usize, place)
}

// The words of a departure: what it is, the names of its ends, and its periods.
#[derive(Clone, Copy)]
struct LedWords<'t> {
    word: &'t [u8],
    tail: &'t [u8],
    head: &'t [u8],
    leaves: &'t [u8],
    arrives: &'t [u8],
}

// Appends the cells of a departure.
fn put_departure_cells(
    out: &mut Vec<u8>,
    line: &[u8],
    words: LedWords<'_>,
    counts: &Counted,
) -> Result<(), NoMemory>
    ensures { OnOk result (out.new.items ≡ out.old.items
        ++ row_line (words.entry.word.now ∷ line.now ∷ words.entry.tail.now ∷ words.entry.head.now
        ∷ counts.now.least.items ∷ counts.now.most.items ∷ words.entry.leaves.now ∷ words.entry.arrives.now ∷ [])) }
{
    put_line(
        out,
        &[
            words.word,
            line,
            words.tail,
            words.head,
            &counts.least,
            &counts.most,
            words.leaves,
            words.arrives,
        ],
    )
}

// Appends a departure.
fn put_departure_row(
    alloc: Global,
    out: &mut Vec<u8>,
    timed: Timed<'_, '_>,
    blocked: Blocked<'_>,
    place: usize,
    led: Led,
) -> Result<(), NoMemory>
    ensures { OnOk result (out.new.items ≡ out.old.items
        ++ row_line (departure_led_row (timed_in timed.entry) blocked.entry.scales place led)) }
{
    let departure = departure_origin(timed, place);
    let line = line_cell(alloc, timed.two.routes, departure.row as usize)?;
    let counts = count_cells(alloc, blocked.scales, led.leads, led.least, led.most)?;
    let words = LedWords {
        word: way_word(departure.back),
        tail: leaves_from(timed, departure),
        head: arrives_at(timed, departure),
        leaves: period_name(timed, departure.period as usize),
        arrives: period_name(timed, departure.arrival as usize),
    };
    put_departure_cells(out, &line, words, &counts)
}

// Appends a departure, if it leads away or here.
fn put_departure(
    alloc: Global,
    out: &mut Vec<u8>,
    timed: Timed<'_, '_>,
    blocked: Blocked<'_>,
    place: usize,
) -> Result<(), NoMemory>
    requires { place < length (timed_in timed).origins.departures.items }
    ensures { OnOk result (out.new.items ≡ out.old.items
        ++ rows_text (departure_led_rows (timed_in timed.entry) blocked.entry.planner.now blocked.entry.scales blocked.entry.bottleneck.now place)) }
{
    let led = departure_led(timed, blocked, place);
    if is_led(led.leads) {
        return put_departure_row(alloc, out, timed, blocked, place, led);
    }
    Ok(())
}

// Appends the departures that lead away or here.
fn put_departures(
    alloc: Global,
    out: &mut Vec<u8>,
    timed: Timed<'_, '_>,
    blocked: Blocked<'_>,
) -> Result<(), NoMemory>
    ensures { OnOk result (out.new.items ≡ out.old.items
        ++ rows_text (flat_map (departure_led_rows (timed_in timed.entry) blocked.entry.planner.now blocked.entry.scales blocked.entry.bottleneck.now)
        (range_with_len 0 (length (timed_in timed.entry).origins.departures.items)))) }
{
    for place in 0..timed.origins.departures.len() {
        put_departure(alloc, out, timed, blocked, place)?;
    }
    Ok(())
}

// The words of a store: the name of its place, and its periods.
#[derive(Clone, Copy)]
struct KeepWords<'t> {
    name: &'t [u8],
    after: &'t [u8],
    next: &'t [u8],
}

// Appends the cells of a store.
fn put_store_cells(
    out: &mut Vec<u8>,
    line: &[u8],
    words: KeepWords<'_>,
    counts: &Counted,
) -> Result<(), NoMemory>
    ensures { OnOk result (out.new.items ≡ out.old.items
        ++ row_line (codes "keep" ∷ line.now ∷ words.entry.name.now ∷ counts.now.least.items ∷ counts.now.most.items
        ∷ words.entry.after.now ∷ words.entry.next.now ∷ [])) }
{
    put_line(
        out,
        &[
            b"keep",
            line,
            words.name,
            &counts.least,
            &counts.most,
            words.after,
            words.next,
        ],
    )
}

// Appends a store.
fn put_store_row(
    alloc: Global,
    out: &mut Vec<u8>,
    timed: Timed<'_, '_>,
    blocked: Blocked<'_>,
    place: usize,
    led: Led,
) -> Result<(), NoMemory>
    ensures { OnOk result (out.new.items ≡ out.old.items
        ++ row_line (store_led_row (timed_in timed.entry) blocked.entry.scales place led)) }
{
    let store = store_origin(timed, place);
    let line = line_cell(alloc, timed.two.places, store.row as usize)?;
    let counts = count_cells(alloc, blocked.scales, led.leads, led.least, led.most)?;
    let words = KeepWords {
        name: place_name(timed, store.row as usize),
        after: period_name(timed, store.period as usize),
        next: period_name(timed, store.period as usize + 1),
    };
    put_store_cells(out, &line, words, &counts)
}

// Appends a store, if it leads away or here.
fn put_store(
    alloc: Global,
    out: &mut Vec<u8>,
    timed: Timed<'_, '_>,
    blocked: Blocked<'_>,
    place: usize,
) -> Result<(), NoMemory>
    ensures { OnOk result (out.new.items ≡ out.old.items
        ++ rows_text (store_led_rows (timed_in timed.entry) blocked.entry.planner.now blocked.entry.scales blocked.entry.bottleneck.now place)) }
{
    let led = store_led(timed, blocked, place);
    if is_led(led.leads) {
        return put_store_row(alloc, out, timed, blocked, place, led);
    }
    Ok(())
}

// Appends the stores that lead away or here.
fn put_stores(
    alloc: Global,
    out: &mut Vec<u8>,
    timed: Timed<'_, '_>,
    blocked: Blocked<'_>,
) -> Result<(), NoMemory>
    ensures { OnOk result (out.new.items ≡ out.old.items
        ++ rows_text (flat_map (store_led_rows (timed_in timed.entry) blocked.entry.planner.now blocked.entry.scales blocked.entry.bottleneck.now)
        (range_with_len 0 (length (timed_in timed.entry).origins.stores.items)))) }
{
    for place in 0..timed.origins.stores.len() {
        put_store(alloc, out, timed, blocked, place)?;
    }
    Ok(())
}

// Appends the departures and the stores that lead away or here.
fn put_leading(
    alloc: Global,
    out: &mut Vec<u8>,
    timed: Timed<'_, '_>,
    blocked: Blocked<'_>,
) -> Result<(), NoMemory>
    ensures { OnOk result (out.new.items ≡ out.old.items
        ++ rows_text (flat_map (departure_led_rows (timed_in timed.entry) blocked.entry.planner.now blocked.entry.scales blocked.entry.bottleneck.now)
        (range_with_len 0 (length (timed_in timed.entry).origins.departures.items))
        ++ flat_map (store_led_rows (timed_in timed.entry) blocked.entry.planner.now blocked.entry.scales blocked.entry.bottleneck.now)
        (range_with_len 0 (length (timed_in timed.entry).origins.stores.items)))) }
{
    put_departures(alloc, out, timed, blocked)?;
    put_stores(alloc, out, timed, blocked)
}

/// Appends a bottleneck over periods: it is one of the problem without periods, whose routes are
/// the stores and then the departures.
///
/// # Errors
///
/// `NoMemory` if an allocation is refused.
pub fn put_period_bottleneck(
    alloc: Global,
    out: &mut Vec<u8>,
    timed: Timed<'_, '_>,
    blocked: Blocked<'_>,
) -> Result<(), NoMemory>
    ensures { OnOk result (out.new.items ≡ out.old.items
        ++ rows_text (period_bottleneck_rows (timed_in timed.entry) blocked.entry.planner.now blocked.entry.scales blocked.entry.bottleneck.now)) }
{
    put_side(alloc, out, blocked)?;
    put_members(alloc, out, timed, blocked)?;
    put_leading(alloc, out, timed, blocked)
}
