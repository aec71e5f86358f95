//! Bottlenecks as rows of a table.
ghost use Rattle.std.specs.Prelude.{◌≡◌, ◌<◌, ◌++◌, ◌∷◌, IfOk, OnOk, [], codes, false, if◌then◌else◌, length, slice_index_or};
ghost use Rattle.std.specs.List.{flat_map, range_with_len};
ghost use Rattle.mcf_model.specs.Bottlenecks.{limit_or_zero, route_room};
ghost use Rattle.mcf_model.specs.Tables.{route_with};
ghost use Rattle.mcf_places.specs.Crossings.{passing};
ghost use Rattle.mcf_places.specs.PlannerBottlenecks.{through_least, through_most};
ghost use Rattle.mcf_places.specs.Planners.{given, wanted};
ghost use Rattle.mcf_plan_rows.specs.BottleneckRows.{amount_if, bottleneck_rows, is_away, is_here, is_led, is_way_back, led_row, led_rows, no_place, other_way, route_at, route_led_rows, row_of, set_row, set_rows, side_rows, side_word, there, way_word};
ghost use Rattle.mcf_plan_rows.specs.FaultRows.{tables_in};
ghost use Rattle.mcf_answer_rows.specs.Lines.{row_line, rows_text};

use crate::cells::{amount_cell, yes_or_no};
use crate::fault_rows::Two;
use crate::plan_rows::put_balance;
use mcf_answer_rows::{cell_under, line_cell, put_answer, put_line, put_number_row};
use mcf_flows::Side;
use mcf_model::{RouteParts, RouteRow, room};
use mcf_places::{Bounds, Crossing, Place, Planner, PlannerBottleneck, given, wanted};
use mcf_table::Records;
use mcf_text::NoMemory;
use mcf_units::Scales;
use std::alloc::Global;

// The word of a side.
fn side_word(side: Side) -> &'static [u8]
    ensures { result.now ≡ side_word side }
{
    match side {
        Side::Send => b"send",
        Side::Take => b"take",
    }
}

// An amount as a cell, if it counts.
fn amount_if(alloc: Global, counts: bool, scales: Scales, amount: i128) -> Result<Vec<u8>, NoMemory>
    ensures { IfOk result (λ made. made.items ≡ amount_if counts scales amount) }
{
    if counts {
        amount_cell(alloc, scales, amount)
    } else {
        Ok(Vec::new(alloc))
    }
}

// Whether something leads away.
fn is_away(crossing: Crossing) -> bool
    ensures { result ≡ is_away crossing }
{
    match crossing {
        Crossing::Away => true,
        _ => false,
    }
}

// Whether something leads here.
fn is_here(crossing: Crossing) -> bool
    ensures { result ≡ is_here crossing }
{
    match crossing {
        Crossing::Here => true,
        _ => false,
    }
}

/// Whether something leads away or here.
pub fn is_led(crossing: Crossing) -> bool
    ensures { result ≡ is_led crossing }
{
    is_away(crossing) || is_here(crossing)
}

// A test of a list; no beyond its end.
fn test_at(tests: &[bool], place: usize) -> bool
    ensures { result ≡ slice_index_or tests.now place false }
{
    match tests.get(place) {
        Some(test) => *test,
        None => false,
    }
}

// The least that has to pass through a place.
fn through_least(through: Option<Bounds>) -> i128
    ensures { result ≡ through_least through }
{
    match through {
        Some(bounds) => i128::from(bounds.least),
        None => 0,
    }
}

// A limit, or 0 if there is none.
fn limit_or_zero(limit: Option<i64>) -> i64
    ensures { result ≡ limit_or_zero limit }
{
    match limit {
        Some(most) => most,
        None => 0,
    }
}

// The most that may pass through a place, if its bounds have a limit.
fn through_most(through: Option<Bounds>) -> i128
    ensures { result ≡ through_most through }
{
    match through {
        Some(bounds) => i128::from(limit_or_zero(bounds.most)),
        None => 0,
    }
}

/// A bottleneck of a problem, and the units of its amounts.
#[derive(Clone, Copy)]
pub struct Blocked<'b> {
    /// The problem.
    pub planner: &'b Planner,
    /// The units.
    pub scales: Scales,
    /// The bottleneck.
    pub bottleneck: &'b PlannerBottleneck,
}

/// What a place gives and wants, as far as it counts.
#[derive(Drop)]
pub struct Own {
    /// What it gives at its entry.
    pub gives: Vec<u8>,
    /// What it wants at its exit.
    pub wants: Vec<u8>,
}

/// Whether the entry and the exit of a place are the bottleneck's.
#[derive(Clone, Copy)]
pub struct Member {
    /// Whether the entry is.
    pub entry: bool,
    /// Whether the exit is.
    pub exit: bool,
}

/// Whether the entry and the exit of a place, counted from 0, are the bottleneck's.
pub fn member_at(found: &PlannerBottleneck, place: usize) -> Member
    ensures entry { result.entry ≡ slice_index_or found.now.entries.items place false }
    ensures exit { result.exit ≡ slice_index_or found.now.exits.items place false }
{
    Member {
        entry: test_at(&found.entries, place),
        exit: test_at(&found.exits, place),
    }
}

/// What a place gives at its entry, and what it wants at its exit, if these are the bottleneck's.
///
/// # Errors
///
/// `NoMemory` if an allocation is refused.
pub fn own_cells(
    alloc: Global,
    scales: Scales,
    place: Place,
    member: Member,
) -> Result<Own, NoMemory>
    ensures gives { IfOk result (λ made. made.gives.items ≡ amount_if member.entry scales (given place)) }
    ensures wants { IfOk result (λ made. made.wants.items ≡ amount_if member.exit scales (wanted place)) }
{
    let gives = amount_if(alloc, member.entry, scales, given(place))?;
    let wants = amount_if(alloc, member.exit, scales, wanted(place))?;
    Ok(Own { gives, wants })
}

/// The least that something has to bring here, or the most that can go away.
#[derive(Drop)]
pub struct Counted {
    /// The least, empty if it doesn't count.
    pub least: Vec<u8>,
    /// The most, empty if it doesn't count.
    pub most: Vec<u8>,
}

/// The least and the most as cells, as far as they count.
///
/// # Errors
///
/// `NoMemory` if an allocation is refused.
pub fn count_cells(
    alloc: Global,
    scales: Scales,
    leads: Crossing,
    least: i128,
    most: i128,
) -> Result<Counted, NoMemory>
    ensures least { IfOk result (λ made. made.least.items ≡ amount_if (is_here leads) scales least) }
    ensures most { IfOk result (λ made. made.most.items ≡ amount_if (is_away leads) scales most) }
{
    let least = amount_if(alloc, is_here(leads), scales, least)?;
    let most = amount_if(alloc, is_away(leads), scales, most)?;
    Ok(Counted { least, most })
}

// Whether the entry and the exit of a place are the bottleneck's, in words.
#[derive(Clone, Copy)]
struct MemberWords<'t> {
    at_entry: &'t [u8],
    at_exit: &'t [u8],
}

// Appends the cells of a place.
fn put_set_cells(
    out: &mut Vec<u8>,
    line: &[u8],
    name: &[u8],
    words: MemberWords<'_>,
    own: &Own,
    passes: &Counted,
) -> Result<(), NoMemory>
    ensures { OnOk result (out.new.items ≡ out.old.items
        ++ row_line (codes "place" ∷ line.now ∷ name.now ∷ words.entry.at_entry.now ∷ words.entry.at_exit.now
        ∷ own.now.gives.items ∷ own.now.wants.items ∷ passes.now.least.items ∷ passes.now.most.items ∷ [])) }
{
    put_line(
        out,
        &[
            b"place",
            line,
            name,
            words.at_entry,
            words.at_exit,
            &own.gives,
            &own.wants,
            &passes.least,
            &passes.most,
        ],
    )
}

/// The least that has to pass through a place with a number, or the most that may, as cells, as far
/// as they count.
///
/// # Errors
///
/// `NoMemory` if an allocation is refused.
pub fn through_cells(
    alloc: Global,
    blocked: Blocked<'_>,
    place: Place,
    number: usize,
) -> Result<Counted, NoMemory>
    ensures least { IfOk result (λ made. made.least.items
        ≡ amount_if (is_here (passing blocked.entry.bottleneck.now number)) blocked.entry.scales (through_least place.through)) }
    ensures most { IfOk result (λ made. made.most.items
        ≡ amount_if (is_away (passing blocked.entry.bottleneck.now number)) blocked.entry.scales (through_most place.through)) }
{
    let least = through_least(place.through);
    let most = through_most(place.through);
    let leads = blocked.bottleneck.passing(number);
    count_cells(alloc, blocked.scales, leads, least, most)
}

// Appends the place of a row.
fn put_set_row(
    alloc: Global,
    out: &mut Vec<u8>,
    places: &Records,
    blocked: Blocked<'_>,
    place: Place,
    row: usize,
) -> Result<(), NoMemory>
    ensures { OnOk result (out.new.items ≡ out.old.items
        ++ row_line (set_row places.now blocked.entry.scales blocked.entry.bottleneck.now place row)) }
{
    let member = member_at(blocked.bottleneck, row.saturating_sub(1));
    let line = line_cell(alloc, places, row)?;
    let name = cell_under(places, b"name", row);
    let own = own_cells(alloc, blocked.scales, place, member)?;
    let passes = through_cells(alloc, blocked, place, row)?;
    let words = MemberWords {
        at_entry: yes_or_no(member.entry),
        at_exit: yes_or_no(member.exit),
    };
    put_set_cells(out, &line, name, words, &own, &passes)
}

/// The place at a place of the list, counted from 0.
pub fn place_at(places: &[Place], place: usize) -> Place
    ensures { result ≡ slice_index_or places.now place no_place }
{
    if place < places.len() {
        places[place]
    } else {
        Place {
            supply: 0,
            through: None,
            penalty: None,
        }
    }
}

// Appends the place of a row, if its entry or its exit is one of the bottleneck's.
fn put_member(
    alloc: Global,
    out: &mut Vec<u8>,
    places: &Records,
    blocked: Blocked<'_>,
    place: usize,
) -> Result<(), NoMemory>
    requires { place < length blocked.bottleneck.now.entries.items }
    ensures { OnOk result (out.new.items ≡ out.old.items
        ++ rows_text (set_rows places.now blocked.entry.planner.now blocked.entry.scales blocked.entry.bottleneck.now place)) }
{
    let found = blocked.bottleneck;
    if !(test_at(&found.entries, place) || test_at(&found.exits, place)) {
        return Ok(());
    }
    let member = place_at(blocked.planner.places(), place);
    put_set_row(alloc, out, places, blocked, member, place + 1)
}

// Appends the places of a bottleneck.
fn put_members(
    alloc: Global,
    out: &mut Vec<u8>,
    places: &Records,
    blocked: Blocked<'_>,
) -> Result<(), NoMemory>
    ensures { OnOk result (out.new.items ≡ out.old.items
        ++ rows_text (flat_map (set_rows places.now blocked.entry.planner.now blocked.entry.scales blocked.entry.bottleneck.now)
        (range_with_len 0 (length blocked.entry.bottleneck.now.entries.items)))) }
{
    for place in 0..blocked.bottleneck.entries.len() {
        put_member(alloc, out, places, blocked, place)?;
    }
    Ok(())
}

/// A route in one of its directions: its row, its ends, where it leads, the least that it has to
/// carry there, and the most that it can.
#[derive(Clone, Copy)]
pub struct Led {
    /// Whether it goes back.
    pub back: bool,
    /// The row.
    pub row: usize,
    /// The place where it begins.
    pub tail: u32,
    /// The place where it ends.
    pub head: u32,
    /// Whether it leads away from the bottleneck, or to it.
    pub leads: Crossing,
    /// The least that it has to carry.
    pub least: i128,
    /// The most that it can carry, if it has a limit.
    pub most: i128,
}

/// The word of a route, and of what goes back on it.
pub fn way_word(back: bool) -> &'static [u8]
    ensures { result.now ≡ way_word back }
{
    if back { b"back" } else { b"route" }
}

// The names of the ends of a route.
#[derive(Clone, Copy)]
struct Ends<'t> {
    tail: &'t [u8],
    head: &'t [u8],
}

// Appends the cells of a route.
fn put_led_cells(
    out: &mut Vec<u8>,
    word: &[u8],
    line: &[u8],
    ends: Ends<'_>,
    counts: &Counted,
) -> Result<(), NoMemory>
    ensures { OnOk result (out.new.items ≡ out.old.items
        ++ row_line (word.now ∷ line.now ∷ ends.entry.tail.now ∷ ends.entry.head.now ∷ counts.now.least.items ∷ counts.now.most.items ∷ [])) }
{
    put_line(
        out,
        &[
            word,
            line,
            ends.tail,
            ends.head,
            &counts.least,
            &counts.most,
        ],
    )
}

// Appends a route in one direction.
fn put_led_row(
    alloc: Global,
    out: &mut Vec<u8>,
    two: Two<'_>,
    scales: Scales,
    led: Led,
) -> Result<(), NoMemory>
    ensures { OnOk result (out.new.items ≡ out.old.items ++ row_line (led_row (tables_in two.entry) scales led)) }
{
    let line = line_cell(alloc, two.routes, led.row)?;
    let ends = Ends {
        tail: cell_under(two.places, b"name", led.tail as usize),
        head: cell_under(two.places, b"name", led.head as usize),
    };
    let counts = count_cells(alloc, scales, led.leads, led.least, led.most)?;
    put_led_cells(out, way_word(led.back), &line, ends, &counts)
}

// Appends a route in one direction, if it leads away or here.
fn put_led(
    alloc: Global,
    out: &mut Vec<u8>,
    two: Two<'_>,
    scales: Scales,
    led: Led,
) -> Result<(), NoMemory>
    ensures { OnOk result (out.new.items ≡ out.old.items ++ rows_text (led_rows (tables_in two.entry) scales led)) }
{
    if is_led(led.leads) {
        return put_led_row(alloc, out, two, scales, led);
    }
    Ok(())
}

// The most that a route carries, if it has a limit.
fn route_room(route: RouteParts<'_>) -> i128
    ensures { result ≡ route_room (route_with route.entry.row route.entry.steps.now) }
{
    room(route.steps, limit_or_zero(route.row.last_most))
}

// A route in its direction.
fn there(found: &PlannerBottleneck, back: bool, row: usize, route: RouteParts<'_>) -> Led
    ensures { result ≡ there found.now back row (route_with route.entry.row route.entry.steps.now) }
{
    let tail = route.row.tail;
    let head = route.row.head;
    Led {
        back,
        row,
        tail,
        head,
        leads: found.crossing(tail, head),
        least: i128::from(route.row.least),
        most: route_room(route),
    }
}

// The route at a place; one between no places beyond the end.
fn route_or_none(planner: &Planner, place: usize) -> RouteParts<'_>
    ensures { route_with result.row result.steps.now ≡ route_at planner.now place }
{
    if place < planner.route_count() {
        return planner.route(place);
    }
    RouteParts {
        row: RouteRow {
            tail: 0,
            head: 0,
            first_step: 0,
            step_count: 0,
            least: 0,
            last_most: Some(0),
            last_cost: 0,
            both: false,
        },
        steps: &[],
    }
}

/// The route at a place of a problem, counted from 0, in its direction: it is that of a row, or
/// goes back on it.
pub fn led_at(blocked: Blocked<'_>, back: bool, row: usize, place: usize) -> Led
    ensures { result ≡ there blocked.entry.bottleneck.now back row (route_at blocked.entry.planner.now place) }
{
    there(
        blocked.bottleneck,
        back,
        row,
        route_or_none(blocked.planner, place),
    )
}

// A route both ways, in the other direction.
fn other_way(found: &PlannerBottleneck, row: usize, route: RouteParts<'_>) -> Led
    ensures { result ≡ other_way found.now row (route_with route.entry.row route.entry.steps.now) }
{
    let tail = route.row.head;
    let head = route.row.tail;
    Led {
        back: true,
        row,
        tail,
        head,
        leads: found.crossing(tail, head),
        least: 0,
        most: route_room(route),
    }
}

// The row of the route at a place.
fn row_of(planner: &Planner, place: usize) -> usize
    requires { place < length planner.now.routes }
    ensures { result ≡ row_of planner.now place }
{
    let rows = planner.row_count();
    if place < rows {
        return place + 1;
    }
    match planner.returning().get(place - rows) {
        Some(row) => *row,
        None => 0,
    }
}

// Appends a route both ways in the other direction, if it leads away or here.
fn put_other_way(
    alloc: Global,
    out: &mut Vec<u8>,
    two: Two<'_>,
    blocked: Blocked<'_>,
    row: usize,
    route: RouteParts<'_>,
) -> Result<(), NoMemory>
    ensures { OnOk result (out.new.items ≡ out.old.items
        ++ rows_text (if route.entry.row.both
        then led_rows (tables_in two.entry) blocked.entry.scales (other_way blocked.entry.bottleneck.now row (route_with route.entry.row route.entry.steps.now))
        else [])) }
{
    if !route.row.both {
        return Ok(());
    }
    let led = other_way(blocked.bottleneck, row, route);
    put_led(alloc, out, two, blocked.scales, led)
}

// Appends the rows of the route at a place.
fn put_route_led(
    alloc: Global,
    out: &mut Vec<u8>,
    two: Two<'_>,
    blocked: Blocked<'_>,
    place: usize,
) -> Result<(), NoMemory>
    requires { place < length blocked.planner.now.routes }
    ensures { OnOk result (out.new.items ≡ out.old.items
        ++ rows_text (route_led_rows (tables_in two.entry) blocked.entry.planner.now blocked.entry.scales blocked.entry.bottleneck.now place)) }
{
    let route = blocked.planner.route(place);
    let row = row_of(blocked.planner, place);
    let back = place >= blocked.planner.row_count();
    let led = there(blocked.bottleneck, back, row, route);
    put_led(alloc, out, two, blocked.scales, led)?;
    put_other_way(alloc, out, two, blocked, row, route)
}

// Appends the routes that lead away or here.
fn put_leading(
    alloc: Global,
    out: &mut Vec<u8>,
    two: Two<'_>,
    blocked: Blocked<'_>,
) -> Result<(), NoMemory>
    ensures { OnOk result (out.new.items ≡ out.old.items
        ++ rows_text (flat_map (route_led_rows (tables_in two.entry) blocked.entry.planner.now blocked.entry.scales blocked.entry.bottleneck.now)
        (range_with_len 0 (length blocked.entry.planner.now.routes)))) }
{
    for place in 0..blocked.planner.route_count() {
        put_route_led(alloc, out, two, blocked, place)?;
    }
    Ok(())
}

/// Appends the kind of the answer, the side, and all supplies and demands.
///
/// # Errors
///
/// `NoMemory` if an allocation is refused.
pub fn put_side(alloc: Global, out: &mut Vec<u8>, blocked: Blocked<'_>) -> Result<(), NoMemory>
    ensures { OnOk result (out.new.items ≡ out.old.items
        ++ rows_text (side_rows blocked.entry.planner.now blocked.entry.scales blocked.entry.bottleneck.now)) }
{
    put_answer(out, b"no plan")?;
    put_number_row(out, b"side", side_word(blocked.bottleneck.side))?;
    put_balance(alloc, out, blocked.planner, blocked.scales)
}

/// Appends a bottleneck.
///
/// # Errors
///
/// `NoMemory` if an allocation is refused.
pub fn put_bottleneck(
    alloc: Global,
    out: &mut Vec<u8>,
    two: Two<'_>,
    blocked: Blocked<'_>,
) -> Result<(), NoMemory>
    ensures { OnOk result (out.new.items ≡ out.old.items
        ++ rows_text (bottleneck_rows (tables_in two.entry) blocked.entry.planner.now blocked.entry.scales blocked.entry.bottleneck.now)) }
{
    put_side(alloc, out, blocked)?;
    put_members(alloc, out, two.places, blocked)?;
    put_leading(alloc, out, two, blocked)
}
