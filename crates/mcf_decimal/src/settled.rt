//! Which mark the cells of tables show.
ghost use Rattle.std.specs.Prelude.{◌≡◌, ◌+◌, ◌<◌, ◌^◌, ℕ, List, [], ◌∷◌, ◌++◌};
ghost use Rattle.mcf_decimal.specs.Settled.{first_place, is_the, marks_of, settled};

use crate::mark::Mark;
use crate::numbers::mark_in;

/// The marks that cells show. Cells are counted from 0, in the order in which they are looked at.
#[derive(Clone, Copy, Debug, PartialEq, Eq)]
pub struct Marks {
    /// The number of cells.
    pub seen: u64,
    /// The first cell that shows a point.
    pub point: Option<u64>,
    /// The first cell that shows a comma.
    pub comma: Option<u64>,
}

/// Which mark stands before decimals in some tables.
#[derive(Clone, Copy, Debug, PartialEq, Eq)]
pub enum Settled {
    /// No cell shows a mark, and none is named.
    Open,
    /// This mark.
    One(Mark),
    /// None, since cells show both.
    Both {
        /// The first cell that shows a mark.
        first: u64,
        /// The first cell that shows the other.
        second: u64,
    },
}

impl Marks {
    /// The marks of no cell.
    #[tactic(auto, unfolding(crate::specs::Settled::marks_of))]
    pub fn none() -> Marks
        ensures { result ≡ marks_of [] }
    {
        Marks {
            seen: 0,
            point: None,
            comma: None,
        }
    }

    /// The marks of these cells and of one more.
    pub fn with_cell(self, cell: &[u8]) -> Marks
        requires { self.seen + 1 < 2 ^ 64 }
        ensures { (cells : List (List ℕ)) → self ≡ marks_of cells → result ≡ marks_of (cells ++ cell.now ∷ []) }
    {
        let shown = mark_in(cell);
        let point = first_place(self.point, is_the(Mark::Point, shown), self.seen);
        let comma = first_place(self.comma, is_the(Mark::Comma, shown), self.seen);
        Marks {
            seen: self.seen + 1,
            point,
            comma,
        }
    }

    /// The mark that stands before decimals: the one that is named, or else the one that cells
    /// show, unless they show both.
    pub fn settled(self, named: Option<Mark>) -> Settled
        ensures { result ≡ settled named self }
    {
        if let Some(mark) = named {
            return Settled::One(mark);
        }
        match (self.point, self.comma) {
            (None, None) => Settled::Open,
            (Some(_), None) => Settled::One(Mark::Point),
            (None, Some(_)) => Settled::One(Mark::Comma),
            (Some(point), Some(comma)) => Settled::Both {
                first: point.min(comma),
                second: point.max(comma),
            },
        }
    }
}

// Whether it is this mark.
fn is_the(mark: Mark, shown: Option<Mark>) -> bool
    ensures { result ≡ is_the mark shown }
{
    match (mark, shown) {
        (Mark::Point, Some(Mark::Point)) => true,
        (Mark::Comma, Some(Mark::Comma)) => true,
        _ => false,
    }
}

// The place that was found before, or else this one, if the mark is shown here.
fn first_place(found: Option<u64>, is_shown: bool, place: u64) -> Option<u64>
    ensures { result ≡ first_place found is_shown place }
{
    match found {
        Some(found) => Some(found),
        None if is_shown => Some(place),
        None => None,
    }
}
