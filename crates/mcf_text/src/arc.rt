//! Numbers of arcs.
use std::marker::Model;

/// The number of an arc. An instance numbers its arcs from 1, in the order of their lines. The type
/// holds any `u32`; whether an instance has that arc is for the instance to say. Numbers are
/// ordered and compared as numbers.
#[derive(Clone, Copy, Debug, PartialEq, Eq, PartialOrd, Ord, Hash)]
pub struct ArcId {
    number: u32,
}

impl Model for ArcId {
    ghost use Rattle.std.specs.Prelude.{ℕ};

    ghost Value = { ℕ };

    ghost view = { λ id. id.number };

    ghost inverse = { λ n. record { number = n } };
}

impl ArcId {
    ghost use Rattle.std.specs.Prelude.{◌≡◌, ◌+◌, ◌-◌, ◌<◌, ◌≤◌, ◌^◌};

    /// The arc with this number.
    pub fn new(number: u32) -> ArcId
        ensures { result ≡ number }
    {
        ArcId { number }
    }

    /// The number of the arc, by the order of the lines.
    pub fn get(self) -> u32
        ensures { result ≡ self }
    {
        self.number
    }

    /// The arc at a place of a list of all arcs, counted from 0: its number is one more.
    pub fn at(place: u32) -> ArcId
        requires { place + 1 < 2 ^ 32 }
        ensures { result ≡ place + 1 }
    {
        ArcId::new(place + 1)
    }

    /// Where the arc stands in a list of all arcs, counted from 0: its number, which isn't 0, less
    /// 1.
    pub fn place(self) -> usize
        requires { 1 ≤ self }
        ensures { result ≡ self - 1 }
    {
        self.get() as usize - 1
    }
}
