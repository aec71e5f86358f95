//! The answer to a table of persons and things and a table of groups as text.
ghost use Rattle.std.specs.Prelude.{◌≡◌, ◌++◌, ◌∷◌, IfOk, None, OnOk, map};
ghost use Rattle.mcf_answer_rows.specs.Lines.{rows_text};
ghost use Rattle.mcf_group_reading.specs.GroupReading.{read_groups};
ghost use Rattle.mcf_pair_tables.specs.GroupAnswers.{bytes_in};
ghost use Rattle.mcf_pair_tables.specs.GroupedAnswers.{known_in};
ghost use Rattle.mcf_roster_reading.specs.Reading.{read_roster};
ghost use Rattle.mcf_pair_text.specs.GroupRows.{book_in};
ghost use Rattle.mcf_pair_text.specs.GroupFaultRows.{group_row};
ghost use Rattle.mcf_pair_text.specs.GroupTexts.{IsGroupText, answer_kind, answer_rows, book_rows, both_broken, both_done, both_tables, chosen_groups, closing_rows, competing_bounds, competing_groups, crossings_told, group_choice_rows, grouped_kind, grouped_rows, read_both, read_costs, refused_rows, sets_kind, sets_rows, solved_kind, solved_rows, table_kind, table_rows};
ghost use Rattle.mcf_pair_text.specs.PairFaultRows.{cell_fault_row};
ghost use Rattle.mcf_pair_text.specs.PairPlaces.{sheet_in};
ghost use Rattle.mcf_pair_text.specs.PairTexts.{faults_row};

use crate::done::put_done;
use crate::fault_rows::{put_beyond, put_cell_faults, put_greats, put_improper};
use crate::group_faults::{
    groups_word, put_broken, put_crossing_faults, put_group_faults, put_improper_group,
};
use crate::groups::{Tables, put_bounds, put_counts, put_crossings};
use crate::pages::{Page, page_of};
use crate::rows::{Unit, put_choice, put_competition};
use crate::words::costs_word;
use mcf_answer_rows::{
    PlanText, TextKind, put_answer, put_filled, put_lacking, put_mark, put_table,
};
use mcf_decimal::Mark;
use mcf_group_reading::{Fault as GroupFault, Known, read as read_groups};
use mcf_groups::Crossing;
use mcf_model::Solves;
use mcf_pair_tables::{
    AtCrossing, BrokenTexts, ChosenGroups, CompetingGroups, GroupTableAnswer, GroupTexts,
    GroupedChoice, GroupedRoster, GroupsAnswer, Options, SaidGroups, SetsAnswer, SolvedGroups,
    plan_groups,
};
use mcf_roster_reading::{Fault, RosterTable, read};
use mcf_table::Records;
use mcf_text::NoMemory;
use std::alloc::Global;

// Appends the groups that cross, and those that have too few or too many members of them.
fn put_crossing_counts(
    alloc: Global,
    out: &mut Vec<u8>,
    tables: Tables<'_>,
    crossings: &[Crossing],
    found: &ChosenGroups,
) -> Result<(), NoMemory>
    ensures { OnOk result (out.new.items ≡ out.old.items ++ rows_text (crossings_told (book_in tables.entry) crossings.now found.now)) }
{
    put_crossings(alloc, out, tables, crossings)?;
    put_counts(alloc, out, tables, b"broken", &found.broken)
}

// Appends what a choice has of groups.
fn put_group_counts(
    alloc: Global,
    out: &mut Vec<u8>,
    tables: Tables<'_>,
    crossings: &[Crossing],
    found: &ChosenGroups,
) -> Result<(), NoMemory>
    ensures { OnOk result (out.new.items ≡ out.old.items ++ rows_text (chosen_groups (book_in tables.entry) crossings.now found.now)) }
{
    put_counts(alloc, out, tables, b"group", &found.counts)?;
    put_crossing_counts(alloc, out, tables, crossings, found)
}

// Appends a least choice that keeps to groups.
fn put_group_choice(
    alloc: Global,
    out: &mut Vec<u8>,
    tables: Tables<'_>,
    unit: Unit,
    crossings: &[Crossing],
    found: &ChosenGroups,
) -> Result<(), NoMemory>
    ensures { OnOk result (out.new.items ≡ out.old.items
        ++ rows_text (group_choice_rows unit.maximise (book_in tables.entry) unit.scale crossings.now found.now)) }
{
    put_choice(alloc, out, tables.page, tables.said, unit, &found.choice)?;
    put_group_counts(alloc, out, tables, crossings, found)
}

// Appends what counts of groups, and the groups that cross.
fn put_group_bounds(
    alloc: Global,
    out: &mut Vec<u8>,
    tables: Tables<'_>,
    crossings: &[Crossing],
    found: &CompetingGroups,
) -> Result<(), NoMemory>
    ensures { OnOk result (out.new.items ≡ out.old.items ++ rows_text (competing_bounds (book_in tables.entry) crossings.now found.now)) }
{
    put_bounds(alloc, out, tables, &found.bounds)?;
    put_crossings(alloc, out, tables, crossings)
}

// Appends persons and things that compete, and what counts of groups.
fn put_competing_groups(
    alloc: Global,
    out: &mut Vec<u8>,
    tables: Tables<'_>,
    crossings: &[Crossing],
    found: &CompetingGroups,
) -> Result<(), NoMemory>
    ensures { OnOk result (out.new.items ≡ out.old.items ++ rows_text (competing_groups (book_in tables.entry) crossings.now found.now)) }
{
    put_competition(alloc, out, tables.page, tables.said, &found.found)?;
    put_group_bounds(alloc, out, tables, crossings, found)
}

// Appends the answer for a roster with groups.
fn put_solved(
    alloc: Global,
    out: &mut Vec<u8>,
    tables: Tables<'_>,
    unit: Unit,
    crossings: &[Crossing],
    answer: &SolvedGroups,
) -> Result<(), NoMemory>
    ensures { OnOk result (out.new.items ≡ out.old.items
        ++ rows_text (solved_rows unit.maximise (book_in tables.entry) unit.scale crossings.now answer.now)) }
{
    match answer {
        SolvedGroups::Least(found) => {
            put_group_choice(alloc, out, tables, unit, crossings, found)
        }
        SolvedGroups::NoChoice(found) => {
            put_competing_groups(alloc, out, tables, crossings, found)
        }
        SolvedGroups::Beyond(number) => {
            let origin = Some(number.origin);
            put_answer(out, b"faults")?;
            put_beyond(alloc, out, tables.page, tables.said, origin, &number.fault)
        }
    }
}

// Appends that groups cross, where that is refused.
fn put_refused(
    alloc: Global,
    out: &mut Vec<u8>,
    tables: Tables<'_>,
    crossings: &[Crossing],
) -> Result<(), NoMemory>
    ensures { OnOk result (out.new.items ≡ out.old.items ++ rows_text (refused_rows (book_in tables.entry) crossings.now)) }
{
    put_crossing_faults(alloc, out, tables, crossings)?;
    put_crossings(alloc, out, tables, crossings)
}

// Appends the answer to what groups say.
fn put_sets(
    alloc: Global,
    out: &mut Vec<u8>,
    tables: Tables<'_>,
    maximise: bool,
    made: &GroupedRoster,
) -> Result<(), NoMemory>
    ensures { OnOk result (out.new.items ≡ out.old.items
        ++ rows_text (sets_rows maximise (book_in tables.entry) made.now.scale made.now.crossings.items made.now.answer)) }
{
    match &made.answer {
        SetsAnswer::Crossing => {
            put_answer(out, b"faults")?;
            put_refused(alloc, out, tables, &made.crossings)
        }
        SetsAnswer::Improper(fault) => {
            put_answer(out, b"faults")?;
            put_improper_group(alloc, out, tables, *fault)
        }
        SetsAnswer::Solved(solved) => {
            let unit = Unit {
                maximise,
                scale: made.scale,
            };
            put_solved(alloc, out, tables, unit, &made.crossings, solved)
        }
    }
}

// Appends the answer to what two tables say.
fn put_grouped(
    alloc: Global,
    out: &mut Vec<u8>,
    tables: Tables<'_>,
    maximise: bool,
    answer: &GroupedChoice,
) -> Result<(), NoMemory>
    ensures { OnOk result (out.new.items ≡ out.old.items ++ rows_text (grouped_rows maximise (book_in tables.entry) answer.now)) }
{
    match answer {
        GroupedChoice::TooGreat(cells) => {
            put_answer(out, b"faults")?;
            put_greats(alloc, out, tables.page, cells)
        }
        GroupedChoice::Improper(fault) => {
            put_answer(out, b"faults")?;
            put_improper(alloc, out, tables.page, tables.said, *fault)
        }
        GroupedChoice::Grouped(made) => put_sets(alloc, out, tables, maximise, made),
    }
}

// Appends the rows of both tables.
fn put_tables(
    alloc: Global,
    out: &mut Vec<u8>,
    costs: &Records,
    groups: &Records,
) -> Result<(), NoMemory>
    ensures { OnOk result (out.new.items ≡ out.old.items ++ rows_text (both_tables costs.now groups.now)) }
{
    put_table(alloc, out, costs_word(), costs)?;
    put_table(alloc, out, groups_word(), groups)
}

// Appends the mark before decimals, and the rows of both tables.
fn put_closing(
    alloc: Global,
    out: &mut Vec<u8>,
    costs: &Records,
    groups: &Records,
    mark: Option<Mark>,
) -> Result<(), NoMemory>
    ensures { OnOk result (out.new.items ≡ out.old.items ++ rows_text (closing_rows costs.now groups.now mark)) }
{
    put_mark(out, mark)?;
    put_tables(alloc, out, costs, groups)
}

// Appends the answer to what two tables say, and the tables.
fn put_answered(
    alloc: Global,
    out: &mut Vec<u8>,
    tables: Tables<'_>,
    maximise: bool,
    answer: &GroupedChoice,
) -> Result<(), NoMemory>
    ensures { OnOk result (out.new.items ≡ out.old.items ++ rows_text (book_rows maximise (book_in tables.entry) answer.now)) }
{
    put_grouped(alloc, out, tables, maximise, answer)?;
    let costs = tables.page.records;
    put_closing(alloc, out, costs, tables.records, tables.said.mark())
}

// Appends the answer to what two tables say, of which the one of groups is read once more.
fn put_both(
    alloc: Global,
    out: &mut Vec<u8>,
    page: Page<'_>,
    said: &RosterTable<'_>,
    records: &Records,
    told: Told<'_>,
) -> Result<(), NoMemory>
    ensures { OnOk result (out.new.items ≡ out.old.items
        ++ rows_text (read_both told.entry.maximise (sheet_in page.entry) said.now records.now (read_groups (known_in said.now) records.now) told.entry.answer.now)) }
{
    let known = Known {
        persons: said.persons(),
        things: said.things(),
    };
    match read_groups(alloc, records, known)? {
        Ok(groups) => {
            let tables = Tables {
                page,
                said,
                records,
                groups: &groups,
            };
            put_answered(alloc, out, tables, told.maximise, told.answer)
        }
        Err(_) => Ok(()),
    }
}

// What is told, and whether costs are values.
#[derive(Clone, Copy)]
struct Told<'a> {
    maximise: bool,
    answer: &'a GroupedChoice,
}

// Appends the answer to what two tables say, which are read once more.
fn put_read(
    alloc: Global,
    out: &mut Vec<u8>,
    page: Page<'_>,
    records: &Records,
    options: Options,
    answer: &GroupedChoice,
) -> Result<(), NoMemory>
    ensures { OnOk result (out.new.items ≡ out.old.items
        ++ rows_text (read_costs options.maximise (sheet_in page.entry) (read_roster options.mark page.entry.records.now) records.now answer.now)) }
{
    match read(alloc, page.records, options.mark)? {
        Ok(said) => {
            let told = Told {
                maximise: options.maximise,
                answer,
            };
            put_both(alloc, out, page, &said, records, told)
        }
        Err(_) => Ok(()),
    }
}

// Appends faults of heads and cells of persons and things, and the tables.
fn put_faulty_costs(
    alloc: Global,
    out: &mut Vec<u8>,
    page: Page<'_>,
    records: &Records,
    faults: &[Fault],
) -> Result<(), NoMemory>
    ensures { OnOk result (out.new.items ≡ out.old.items
        ++ rows_text ((faults_row ∷ map (cell_fault_row (sheet_in page.entry)) faults.now) ++ closing_rows page.entry.records.now records.now None)) }
{
    put_cost_faults(alloc, out, page, faults)?;
    put_closing(alloc, out, page.records, records, None)
}

// Appends faults of heads and cells of persons and things.
fn put_cost_faults(
    alloc: Global,
    out: &mut Vec<u8>,
    page: Page<'_>,
    faults: &[Fault],
) -> Result<(), NoMemory>
    ensures { OnOk result (out.new.items ≡ out.old.items ++ rows_text (faults_row ∷ map (cell_fault_row (sheet_in page.entry)) faults.now)) }
{
    put_answer(out, b"faults")?;
    put_cell_faults(alloc, out, page, faults)
}

// Appends faults of heads and cells of groups.
fn put_groups_faults(
    alloc: Global,
    out: &mut Vec<u8>,
    records: &Records,
    faults: &[GroupFault],
) -> Result<(), NoMemory>
    ensures { OnOk result (out.new.items ≡ out.old.items ++ rows_text (faults_row ∷ map (group_row records.now) faults.now)) }
{
    put_answer(out, b"faults")?;
    put_group_faults(alloc, out, records, faults)
}

// Appends faults of heads and cells of groups, and the tables.
fn put_faulty_groups(
    alloc: Global,
    out: &mut Vec<u8>,
    costs: &Records,
    records: &Records,
    faults: &[GroupFault],
) -> Result<(), NoMemory>
    ensures { OnOk result (out.new.items ≡ out.old.items
        ++ rows_text ((faults_row ∷ map (group_row records.now) faults.now) ++ closing_rows costs.now records.now None)) }
{
    put_groups_faults(alloc, out, records, faults)?;
    put_closing(alloc, out, costs, records, None)
}

// Appends the answer to the rows of two tables, and these.
fn put_table_answer(
    alloc: Global,
    out: &mut Vec<u8>,
    said: &SaidGroups,
    options: Options,
) -> Result<(), NoMemory>
    ensures { OnOk result (out.new.items ≡ out.old.items
        ++ rows_text (table_rows options said.now.costs said.now.groups said.now.answer)) }
{
    let page = page_of(&said.costs);
    match &said.answer {
        GroupTableAnswer::Faults(faults) => {
            put_faulty_costs(alloc, out, page, &said.groups, faults.list())
        }
        GroupTableAnswer::GroupFaults(faults) => {
            put_faulty_groups(alloc, out, &said.costs, &said.groups, faults.list())
        }
        GroupTableAnswer::Choice(answer) => {
            put_read(alloc, out, page, &said.groups, options, answer)
        }
    }
}

// Appends why texts are no tables.
fn put_broken_both(alloc: Global, out: &mut Vec<u8>, broken: BrokenTexts) -> Result<(), NoMemory>
    ensures { OnOk result (out.new.items ≡ out.old.items ++ rows_text (both_broken broken)) }
{
    put_broken(alloc, out, costs_word(), broken.costs)?;
    put_broken(alloc, out, groups_word(), broken.groups)
}

// Appends that texts are no tables.
fn put_broken_texts(alloc: Global, out: &mut Vec<u8>, broken: BrokenTexts) -> Result<(), NoMemory>
    ensures { OnOk result (out.new.items ≡ out.old.items ++ rows_text (faults_row ∷ both_broken broken)) }
{
    put_answer(out, b"faults")?;
    put_broken_both(alloc, out, broken)
}

// The kind of the answer for a roster with groups.
fn solved_kind(answer: &SolvedGroups) -> TextKind
    ensures { result ≡ solved_kind answer.now }
{
    match answer {
        SolvedGroups::Least(_) => TextKind::Plan,
        SolvedGroups::NoChoice(_) => TextKind::NoPlan,
        SolvedGroups::Beyond(_) => TextKind::Faults,
    }
}

// The kind of the answer to what groups say.
fn sets_kind(answer: &SetsAnswer) -> TextKind
    ensures { result ≡ sets_kind answer.now }
{
    match answer {
        SetsAnswer::Solved(solved) => solved_kind(solved),
        _ => TextKind::Faults,
    }
}

// The kind of the answer to what two tables say.
fn grouped_kind(answer: &GroupedChoice) -> TextKind
    ensures { result ≡ grouped_kind answer.now }
{
    match answer {
        GroupedChoice::Grouped(made) => sets_kind(&made.answer),
        _ => TextKind::Faults,
    }
}

// The kind of the answer to the rows of two tables.
fn table_kind(answer: &GroupTableAnswer) -> TextKind
    ensures { result ≡ table_kind answer.now }
{
    match answer {
        GroupTableAnswer::Choice(answer) => grouped_kind(answer),
        _ => TextKind::Faults,
    }
}

// Appends what was done to two tables.
fn put_both_done(alloc: Global, out: &mut Vec<u8>, said: &SaidGroups) -> Result<(), NoMemory>
    ensures { OnOk result (out.new.items ≡ out.old.items ++ rows_text (both_done said.now)) }
{
    put_done(alloc, out, &said.costs, &said.done)?;
    put_filled(alloc, out, groups_word(), &said.groups, &said.filled)
}

// Appends the answer to the rows of two tables, these, and what was done to the tables.
fn put_said_tables(
    alloc: Global,
    out: &mut Vec<u8>,
    said: &SaidGroups,
    options: Options,
) -> Result<(), NoMemory>
    ensures { OnOk result (out.new.items ≡ out.old.items
        ++ rows_text (table_rows options said.now.costs said.now.groups said.now.answer ++ both_done said.now)) }
{
    put_table_answer(alloc, out, said, options)?;
    put_both_done(alloc, out, said)
}

// The text of an answer.
fn text_of(alloc: Global, options: Options, answer: &GroupsAnswer) -> Result<PlanText, NoMemory>
    ensures text { IfOk result (λ told. told.text.items ≡ rows_text (answer_rows options answer.now)) }
    ensures kind { IfOk result (λ told. told.kind ≡ answer_kind answer.now) }
{
    let mut text = Vec::new(alloc);
    match answer {
        GroupsAnswer::NoTables(broken) => {
            put_broken_texts(alloc, &mut text, *broken)?;
            Ok(PlanText {
                text,
                kind: TextKind::Faults,
            })
        }
        GroupsAnswer::NoColumns(numbers) => {
            put_answer(&mut text, b"faults")?;
            put_lacking(alloc, &mut text, numbers)?;
            Ok(PlanText {
                text,
                kind: TextKind::Faults,
            })
        }
        GroupsAnswer::Tables(said) => {
            put_said_tables(alloc, &mut text, said, options)?;
            Ok(PlanText {
                text,
                kind: table_kind(&said.answer),
            })
        }
    }
}

/// Chooses pairs of persons and things that keep to groups, as `plan_groups` does, and returns the
/// answer as the text of a table, whose rows are those of `pair_text` with further ones. Of a
/// choice, for each group and each person or thing that may have members of it `group`, the line on
/// which the group is named first, its name, `person` or `thing`, the name of that one, and how
/// many members it has; and if groups that cross others were left out, `crossing` for each, its
/// line, its name and the name of the group that it crosses, and `broken`, as `group`, for each
/// person or thing that has fewer or more members of it than its range says. Of persons and things
/// that compete, `group` for each person or thing for which a number of a group's range counts, the
/// same with that number, and `least` or `most`, which number it is; and `crossing`. Faults of the
/// table of groups have `groups` for `costs`; those of groups that cross others have rows
/// `crossing` after them. At the end both tables stand, and then what was done to them before.
///
/// # Errors
///
/// `NoMemory` if an allocation is refused.
pub fn group_text<S: Solves>(
    alloc: Global,
    solver: &mut S,
    texts: GroupTexts<'_>,
    options: Options,
    crossing: AtCrossing,
) -> Result<PlanText, NoMemory>
    ensures { IfOk result (IsGroupText (bytes_in texts.entry) (record { options = options; crossing = crossing })) }
{
    let answer = plan_groups(alloc, solver, texts, options, crossing)?;
    text_of(alloc, options, &answer)
}
