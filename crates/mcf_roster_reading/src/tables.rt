//! What a table of persons and things says.
use crate::kinds::Fault;
use crate::pairs::PairEntry;
use crate::sayings::Saying;
use mcf_decimal::Mark;
use mcf_names::Names;
use std::marker::Model;

/// Faults of a table, in order. Clauses see their list.
#[derive(Drop)]
pub struct Faults {
    found: Vec<Fault>,
}

impl Model for Faults {
    ghost use Rattle.std.specs.Prelude.{List};
    ghost use Rattle.mcf_roster_reading.specs.declared.kinds.Fault.{Fault as FoundFault};

    ghost Value = { List FoundFault };

    ghost view = { λ faults. faults.found.items };
}

impl Faults {
    ghost use Rattle.std.specs.Prelude.{◌≡◌};

    // These faults.
    pub(crate) fn of(found: Vec<Fault>) -> Faults
        ensures { result ≡ found.items }
    {
        Faults { found }
    }

    /// The faults, in order.
    pub fn list(&self) -> &[Fault]
        ensures { result.now ≡ self.now }
    {
        &self.found
    }
}

/// What a table of persons and things says. Clauses see the mark before decimals, if one is named
/// or shown; the names of the persons and of the things, in the order in which they come first;
/// what is said of how many each takes and needs, for each name in order; and the pairs, in order.
#[derive(Drop)]
pub struct RosterTable<'t> {
    mark: Option<Mark>,
    persons: Names<'t>,
    things: Names<'t>,
    takes: Vec<Option<Saying>>,
    needs: Vec<Option<Saying>>,
    pairs: Vec<PairEntry>,
}

// How many each person takes, and each thing needs.
#[derive(Drop)]
pub(crate) struct AllSaid {
    pub(crate) takes: Vec<Option<Saying>>,
    pub(crate) needs: Vec<Option<Saying>>,
}

impl<'t> Model for RosterTable<'t> {
    ghost use Rattle.mcf_roster_reading.specs.Reading.{Entries};

    ghost Value = { Entries };

    ghost view = { λ table. record {
      mark = table.mark;
      persons = table.persons;
      things = table.things;
      takes = table.takes.items;
      needs = table.needs.items;
      pairs = table.pairs.items;
    } };
}

impl<'t> RosterTable<'t> {
    ghost use Rattle.std.specs.Prelude.{◌≡◌};

    // What was read under this mark.
    pub(crate) fn of(
        mark: Option<Mark>,
        persons: Names<'t>,
        things: Names<'t>,
        said: AllSaid,
        pairs: Vec<PairEntry>,
    ) -> RosterTable<'t>
        ensures mark { result.mark ≡ mark }
        ensures persons { result.persons ≡ persons.entry }
        ensures things { result.things ≡ things.entry }
        ensures takes { result.takes ≡ said.takes.items }
        ensures needs { result.needs ≡ said.needs.items }
        ensures pairs { result.pairs ≡ pairs.items }
    {
        RosterTable {
            mark,
            persons,
            things,
            takes: said.takes,
            needs: said.needs,
            pairs,
        }
    }

    /// The mark before decimals; `None` if none is named or shown.
    pub fn mark(&self) -> Option<Mark>
        ensures { result ≡ self.now.mark }
    {
        self.mark
    }

    /// The names of the persons, in the order in which they come first.
    pub fn persons(&self) -> &Names<'t>
        ensures { result.now ≡ self.now.persons }
    {
        &self.persons
    }

    /// The names of the things, in the order in which they come first.
    pub fn things(&self) -> &Names<'t>
        ensures { result.now ≡ self.now.things }
    {
        &self.things
    }

    /// For each person, in order, what the table says on how many things they take.
    pub fn takes(&self) -> &[Option<Saying>]
        ensures { result.now ≡ self.now.takes }
    {
        &self.takes
    }

    /// For each thing, in order, what the table says on how many persons it needs.
    pub fn needs(&self) -> &[Option<Saying>]
        ensures { result.now ≡ self.now.needs }
    {
        &self.needs
    }

    /// The pairs that aren't forbidden, in order.
    pub fn pairs(&self) -> &[PairEntry]
        ensures { result.now ≡ self.now.pairs }
    {
        &self.pairs
    }
}
