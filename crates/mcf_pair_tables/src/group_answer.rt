//! The answer to two texts: persons and things, and groups of them.
ghost use Rattle.std.specs.Prelude.{IfOk};
ghost use Rattle.mcf_pair_tables.specs.GroupAnswers.{IsGroupsText, IsRowsAnswer, bytes_in};

use crate::group_options::{AtCrossing, GroupTexts};
use crate::grouped::{Asked, GroupTableAnswer, group_table_answer};
use crate::options::Options;
use crate::prepared::{Done, prepared_costs};
use mcf_flow_tables::{lacking_heads, table_of};
use mcf_forms::{Filling, filled_columns};
use mcf_model::Solves;
use mcf_table::{Records, TextFault};
use mcf_text::NoMemory;
use std::alloc::Global;

/// Why texts are no tables; `None` for a text that is one.
#[derive(Clone, Copy, Debug, PartialEq, Eq)]
pub struct BrokenTexts {
    /// The fault of the table of persons and things.
    pub costs: Option<TextFault>,
    /// The fault of the table of groups.
    pub groups: Option<TextFault>,
}

/// The rows of two tables as they are read, from those of their heads on, and the answer to them.
#[derive(Drop)]
pub struct SaidGroups {
    /// The rows of the table of persons and things. Answers count rows from 0, the row of the
    /// heads; a row knows its line.
    pub costs: Records,
    /// What was done to that table before.
    pub done: Done,
    /// The rows of the table of groups.
    pub groups: Records,
    /// The columns of the table of groups that were filled down.
    pub filled: Vec<Filling>,
    /// The answer.
    pub answer: GroupTableAnswer,
}

/// The answer to two texts.
#[derive(Drop)]
pub enum GroupsAnswer {
    /// A text isn't a table, or both aren't.
    NoTables(BrokenTexts),
    /// The numbers, from 1, of the heads of columns to fill down that neither table has.
    NoColumns(Vec<usize>),
    /// The rows of the tables, and the answer to them.
    Tables(SaidGroups),
}

// The answer to the rows of two tables, of which columns are filled down.
fn said_groups<S: Solves>(
    alloc: Global,
    solver: &mut S,
    costs: Records,
    groups: Records,
    fill_down: &[u8],
    asked: Asked,
) -> Result<GroupsAnswer, NoMemory>
    ensures { IfOk result (IsRowsAnswer fill_down.now costs groups asked) }
{
    let costs = prepared_costs(alloc, costs, fill_down)?;
    let groups = filled_columns(alloc, groups, fill_down)?;
    let unknown = lacking_heads(alloc, &costs.rows, &groups.rows, fill_down)?;
    if !unknown.is_empty() {
        return Ok(GroupsAnswer::NoColumns(unknown));
    }
    let answer = group_table_answer(alloc, solver, &costs.rows, &groups.rows, asked)?;
    Ok(GroupsAnswer::Tables(SaidGroups {
        costs: costs.rows,
        done: costs.done,
        groups: groups.rows,
        filled: groups.columns,
        answer,
    }))
}

/// Chooses pairs of persons and things by a table, as `plan_pairs` does, so that the choice keeps
/// to the groups of a second table: each person takes a number within a range of the things of a
/// group, or a number within a range of the persons of a group takes each thing. Where groups
/// cross, that is a fault; or the choice keeps to the greater ones alone, and says which of the
/// others it doesn't keep to. A sheet of wishes is read as a list of pairs here, too.
///
/// # Errors
///
/// `NoMemory` if an allocation is refused.
pub fn plan_groups<S: Solves>(
    alloc: Global,
    solver: &mut S,
    texts: GroupTexts<'_>,
    options: Options,
    crossing: AtCrossing,
) -> Result<GroupsAnswer, NoMemory>
    ensures { IfOk result (IsGroupsText (bytes_in texts.entry) (record { options = options; crossing = crossing })) }
{
    let costs = table_of(alloc, texts.costs, &[b"who", b"what", b"cost"])?;
    let groups = table_of(alloc, texts.groups, &[b"group"])?;
    match (costs, groups) {
        (Ok(costs), Ok(groups)) => {
            let asked = Asked { options, crossing };
            said_groups(alloc, solver, costs, groups, texts.fill_down, asked)
        }
        (costs, groups) => Ok(GroupsAnswer::NoTables(BrokenTexts {
            costs: costs.err(),
            groups: groups.err(),
        })),
    }
}
