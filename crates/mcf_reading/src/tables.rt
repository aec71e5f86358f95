//! What the two tables say.
use crate::kinds::Fault;
use crate::place_rows::PlaceEntry;
use crate::route_rows::Routes;
use crate::steps::StepEntry;
use mcf_decimal::{Decimal, Mark};
use std::marker::Model;

/// Faults of tables, in order. Clauses see their list.
#[derive(Drop)]
pub struct Faults {
    found: Vec<Fault>,
}

impl Model for Faults {
    ghost use Rattle.std.specs.Prelude.{List};
    ghost use Rattle.mcf_reading.specs.declared.kinds.Fault.{Fault as FoundFault};

    ghost Value = { List FoundFault };

    ghost view = { λ faults. faults.found.items };
}

impl Faults {
    ghost use Rattle.std.specs.Prelude.{◌≡◌};

    // These faults.
    pub(crate) fn of(found: Vec<Fault>) -> Faults
        ensures { result ≡ found.items }
    {
        Faults { found }
    }

    /// The faults, in order.
    pub fn list(&self) -> &[Fault]
        ensures { result.now ≡ self.now }
    {
        &self.found
    }
}

/// A route, in the amounts of its table.
#[derive(Clone, Copy, Debug)]
pub struct RouteEntry<'t> {
    /// The number of the place at which it begins; places are counted from 1.
    pub tail: usize,
    /// The number of the place at which it ends.
    pub head: usize,
    /// The least that it carries.
    pub least: Decimal,
    /// Its steps, in order.
    pub steps: &'t [StepEntry],
    /// Whether it is used both ways.
    pub both: bool,
}

/// Places and routes, in the amounts of their tables. Clauses see the mark before decimals, if one
/// is named or shown, the places and the routes.
#[derive(Drop)]
pub struct Tables {
    mark: Option<Mark>,
    places: Vec<PlaceEntry>,
    routes: Routes,
}

impl Model for Tables {
    ghost use Rattle.std.specs.Prelude.{All, map};
    ghost use Rattle.mcf_reading.specs.Reading.{Entries};
    ghost use Rattle.mcf_reading.specs.Private.Found.{IsWithin, route_in};

    ghost Value = { Entries };

    ghost view = { λ tables. record {
      mark = tables.mark;
      places = tables.places.items;
      routes = map (route_in tables.routes.steps.items) tables.routes.rows.items;
    } };

    ghost invariant = { λ tables. All (IsWithin tables.routes.steps.items) tables.routes.rows.items };
}

impl Tables {
    ghost use Rattle.std.specs.Prelude.{◌≡◌, ◌<◌, All, length, map};
    ghost use Rattle.mcf_reading.specs.Private.Found.{IsWithin, route_in};
    ghost use Rattle.mcf_reading.specs.Reading.{route_at};

    // The places and routes that were read under this mark.
    pub(crate) fn of(mark: Option<Mark>, places: Vec<PlaceEntry>, routes: Routes) -> Tables
        requires { All (IsWithin routes.steps.items) routes.rows.items }
        ensures mark { result.mark ≡ mark }
        ensures places { result.places ≡ places.items }
        ensures routes { result.routes ≡ map (route_in routes.steps.items) routes.rows.items }
    {
        Tables {
            mark,
            places,
            routes,
        }
    }

    /// The mark before decimals; `None` if none is named or shown.
    pub fn mark(&self) -> Option<Mark>
        ensures { result ≡ self.now.mark }
    {
        self.mark
    }

    /// The places, in order.
    pub fn places(&self) -> &[PlaceEntry]
        ensures { result.now ≡ self.now.places }
    {
        &self.places
    }

    /// The number of routes.
    pub fn route_count(&self) -> usize
        ensures { result ≡ length self.now.routes }
    {
        self.routes.rows.len()
    }

    /// A route; routes are counted from 0.
    pub fn route(&self, place: usize) -> RouteEntry<'_>
        requires { place < length self.now.routes }
        ensures ends { (result.tail ≡ (route_at self.now place).tail) × (result.head ≡ (route_at self.now place).head) }
        ensures least { result.least ≡ (route_at self.now place).least }
        ensures steps { result.steps.now ≡ (route_at self.now place).steps }
        ensures both { result.both ≡ (route_at self.now place).both }
    {
        let row = self.routes.rows[place];
        RouteEntry {
            tail: row.tail,
            head: row.head,
            least: row.least,
            steps: &self.routes.steps[row.first..row.first + row.count],
            both: row.both,
        }
    }
}
