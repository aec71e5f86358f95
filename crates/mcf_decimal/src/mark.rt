//! The marks before decimals.
ghost use Rattle.std.specs.Prelude.{◌≡◌};
ghost use Rattle.mcf_decimal.specs.Marks.{byte_of, other};

/// The mark that stands before decimals.
#[derive(Clone, Copy, Debug, PartialEq, Eq)]
pub enum Mark {
    /// A point, as in 12.50.
    Point,
    /// A comma, as in 12,50.
    Comma,
}

impl Mark {
    /// The byte that writes the mark.
    pub fn byte(self) -> u8
        ensures { result ≡ byte_of self }
    {
        match self {
            Mark::Point => b'.',
            Mark::Comma => b',',
        }
    }

    /// The mark that then separates thousands.
    pub fn other(self) -> Mark
        ensures { result ≡ other self }
    {
        match self {
            Mark::Point => Mark::Comma,
            Mark::Comma => Mark::Point,
        }
    }
}
