//! What a table of groups says.
use crate::kinds::Fault;
use crate::rows::MemberEntry;
use mcf_names::Names;
use std::marker::Model;

/// Faults of a table, in order. Clauses see their list.
#[derive(Drop)]
pub struct Faults {
    found: Vec<Fault>,
}

impl Model for Faults {
    ghost use Rattle.std.specs.Prelude.{List};
    ghost use Rattle.mcf_group_reading.specs.declared.kinds.Fault.{Fault as FoundFault};

    ghost Value = { List FoundFault };

    ghost view = { λ faults. faults.found.items };
}

impl Faults {
    ghost use Rattle.std.specs.Prelude.{◌≡◌};

    // These faults.
    pub(crate) fn of(found: Vec<Fault>) -> Faults
        ensures { result ≡ found.items }
    {
        Faults { found }
    }

    /// The faults, in order.
    pub fn list(&self) -> &[Fault]
        ensures { result.now ≡ self.now }
    {
        &self.found
    }
}

/// A group.
#[derive(Clone, Copy, Debug, PartialEq, Eq)]
pub struct GroupEntry {
    /// The row that names it first; rows are counted from 0, and row 0 has the heads.
    pub row: usize,
    /// Whether its members are things; otherwise they are persons.
    pub things: bool,
    /// The least number of members that anyone has, if a row says it.
    pub least: Option<u64>,
    /// The greatest number of members that anyone has, if a row says it.
    pub most: Option<u64>,
}

/// What a table of groups says. Clauses see the names of the groups, in the order in which they
/// come first; what is said of each group, in the same order; and the members, in the order of the
/// rows.
#[derive(Drop)]
pub struct GroupTable<'t> {
    names: Names<'t>,
    groups: Vec<GroupEntry>,
    members: Vec<MemberEntry>,
}

impl<'t> Model for GroupTable<'t> {
    ghost use Rattle.mcf_group_reading.specs.GroupReading.{Entries};

    ghost Value = { Entries };

    ghost view = { λ table. record {
      names = table.names;
      groups = table.groups.items;
      members = table.members.items;
    } };
}

impl<'t> GroupTable<'t> {
    ghost use Rattle.std.specs.Prelude.{◌≡◌};

    // What was read.
    pub(crate) fn of(
        names: Names<'t>,
        groups: Vec<GroupEntry>,
        members: Vec<MemberEntry>,
    ) -> GroupTable<'t>
        ensures { result ≡ record { names = names.entry; groups = groups.items; members = members.items } }
    {
        GroupTable {
            names,
            groups,
            members,
        }
    }

    /// The names of the groups, in the order in which they come first.
    pub fn names(&self) -> &Names<'t>
        ensures { result.now ≡ self.now.names }
    {
        &self.names
    }

    /// What is said of each group, in the same order.
    pub fn groups(&self) -> &[GroupEntry]
        ensures { result.now ≡ self.now.groups }
    {
        &self.groups
    }

    /// The members of all groups, in the order of the rows.
    pub fn members(&self) -> &[MemberEntry]
        ensures { result.now ≡ self.now.members }
    {
        &self.members
    }
}
