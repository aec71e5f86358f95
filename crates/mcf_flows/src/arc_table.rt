//! The arcs of an instance in order: 16 bytes each as long as all have lower bound 0 and capacity
//! 1, otherwise 32.

ghost use Rattle.std.specs.Prelude.{◌≡◌, ◌<◌, ◌++◌, ◌∷◌, [], IfOk, IfSome, length, map, OnErr, OnOk, slice_get, Some};
ghost use Rattle.mcf_flows.specs.Private.StoredArcs.{arcs_in, of_unit};

use crate::arc::{Link, PackedArc};
use mcf_text::NoMemory;
use std::alloc::Global;
use std::marker::Model;
use std::rc::Rc;

/// A list of arcs. Clauses see the arcs in order.
///
/// As long as all have lower bound 0 and capacity 1, as in an assignment, they take half the
/// memory.
#[derive(Drop)]
pub struct ArcTable {
    stored: Stored,
}

// The same arcs in one of two sizes; those of the smaller size may have several owners.
#[derive(Drop)]
enum Stored {
    Unit(Vec<Link>),
    Shared(Rc<Vec<Link>>),
    Bounded(Vec<PackedArc>),
}

impl Model for ArcTable {
    ghost use Rattle.std.specs.Prelude.{List};
    ghost use Rattle.mcf_flows.specs.declared.arc.PackedArc.{PackedArc};
    ghost use Rattle.mcf_flows.specs.Private.StoredArcs.{arcs_in};

    ghost Value = { List PackedArc };

    ghost view = { λ t. arcs_in t.stored };
}

impl ArcTable {
    /// No arcs, without any allocation.
    pub fn new(alloc: Global) -> ArcTable
        ensures { result ≡ [] }
    {
        ArcTable {
            stored: Stored::Unit(Vec::new(alloc)),
        }
    }

    /// The number of arcs.
    #[inline(always)]
    pub fn len(&self) -> usize
        ensures { result ≡ length self.now }
    {
        match &self.stored {
            Stored::Unit(links) => links.len(),
            Stored::Shared(links) => links.len(),
            Stored::Bounded(arcs) => arcs.len(),
        }
    }

    /// The arc at this place.
    #[inline(always)]
    pub fn get(&self, place: usize) -> PackedArc
        requires { place < length self.now }
        ensures { slice_get self.now place ≡ Some result }
    {
        match &self.stored {
            Stored::Unit(links) => links[place].with_bounds(),
            Stored::Shared(links) => links[place].with_bounds(),
            Stored::Bounded(arcs) => arcs[place],
        }
    }

    /// Appends an arc.
    ///
    /// # Errors
    ///
    /// `NoMemory` if an allocation is refused. The arcs are then unchanged.
    #[inline(always)]
    pub fn push(&mut self, arc: PackedArc) -> Result<(), NoMemory>
        ensures ok { OnOk result (self.new ≡ self.old ++ arc ∷ []) }
        ensures err { OnErr result (self.new ≡ self.old) }
    {
        push_arc(&mut self.stored, arc)
    }

    /// The same arcs, shareable if all have lower bound 0 and capacity 1, and if the allocation of
    /// a reference count succeeds.
    pub(crate) fn shared(self) -> ArcTable
        ensures { result ≡ self }
    {
        let stored = match self.stored {
            Stored::Unit(units) => {
                let alloc = *units.allocator();
                match Rc::new(alloc, units) {
                    Ok(links) => Stored::Shared(links),
                    Err(refused) => Stored::Unit(refused.value),
                }
            }
            other => other,
        };
        ArcTable { stored }
    }

    /// Another owner of the arcs, if they are shared.
    pub(crate) fn shared_links(&self) -> Option<Rc<Vec<Link>>>
        ensures { IfSome result (λ links. self.now ≡ map of_unit links.value.items) }
    {
        match &self.stored {
            Stored::Shared(links) => links.clone().ok(),
            Stored::Unit(_) | Stored::Bounded(_) => None,
        }
    }
}

impl Link {
    // The arc, if its lower bound is 0 and its capacity 1.
    #[inline(always)]
    fn of(arc: PackedArc) -> Option<Link>
        ensures { IfSome result (λ unit. of_unit unit ≡ arc) }
    {
        if arc.low == 0 && arc.cap == 1 {
            Some(Link {
                src: arc.src,
                dst: arc.dst,
                cost: arc.cost,
            })
        } else {
            None
        }
    }

    // The arc with its bounds.
    #[inline(always)]
    fn with_bounds(self) -> PackedArc
        ensures { result ≡ of_unit self }
    {
        PackedArc {
            src: self.src,
            dst: self.dst,
            low: 0,
            cap: 1,
            cost: self.cost,
        }
    }
}

// Appends an arc.
#[inline(always)]
fn push_arc(stored: &mut Stored, arc: PackedArc) -> Result<(), NoMemory>
    ensures ok { OnOk result (arcs_in stored.new ≡ arcs_in stored.old ++ arc ∷ []) }
    ensures err { OnErr result (arcs_in stored.new ≡ arcs_in stored.old) }
{
    match stored {
        Stored::Unit(units) => match Link::of(arc) {
            Some(unit) => Ok(units.push(unit)?),
            None => push_bounded(stored, arc.src, arc.dst, arc.low, arc.cap, arc.cost),
        },
        Stored::Shared(_) => push_bounded(stored, arc.src, arc.dst, arc.low, arc.cap, arc.cost),
        Stored::Bounded(arcs) => Ok(arcs.push(arc)?),
    }
}

// Appends an arc that has bounds, or any arc to shared ones, after giving all arcs before it their
// bounds. The fields come one by one: an argument of the type itself would be written to memory for
// each arc of the fast path, too.
#[cold]
#[inline(never)]
fn push_bounded(
    stored: &mut Stored,
    src: u32,
    dst: u32,
    low: i64,
    cap: i64,
    cost: i64,
) -> Result<(), NoMemory>
    ensures ok { OnOk result (arcs_in stored.new ≡ arcs_in stored.old ++ record { src = src; dst = dst; low = low; cap = cap; cost = cost } ∷ []) }
    ensures err { OnErr result (arcs_in stored.new ≡ arcs_in stored.old) }
{
    let arc = PackedArc {
        src,
        dst,
        low,
        cap,
        cost,
    };
    let arcs = match stored {
        Stored::Unit(units) => bounded(units, arc)?,
        Stored::Shared(units) => bounded(units, arc)?,
        Stored::Bounded(arcs) => return Ok(arcs.push(arc)?),
    };
    *stored = Stored::Bounded(arcs);
    Ok(())
}

// These arcs with their bounds, and one more arc.
fn bounded(units: &Vec<Link>, arc: PackedArc) -> Result<Vec<PackedArc>, NoMemory>
    ensures { IfOk result (λ arcs. arcs.items ≡ map of_unit units.now.items ++ arc ∷ []) }
{
    let mut arcs = Vec::with_capacity(*units.allocator(), units.len() + 1)?;
    for unit in units {
        arcs.push_reserved(unit.with_bounds());
    }
    arcs.push_reserved(arc);
    Ok(arcs)
}
