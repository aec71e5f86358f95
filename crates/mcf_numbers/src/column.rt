//! Columns whose writes are counted.

ghost use Rattle.std.specs.Prelude.{◌≡◌, ◌+◌, ◌<◌, length, set, slice_index};

use crate::count::Count;
use std::marker::Model;

/// An entry for each place, and the number of writes since the column was made. Only `write`
/// changes an entry, one at a time, and counts it.
#[derive(Drop)]
pub struct Column<T> {
    entries: Vec<T>,
    written: Count,
}

impl<T> Model for Column<T> {
    ghost use Rattle.mcf_numbers.specs.Columns.{Counted};

    ghost Value = { Counted T };

    ghost view = { λ c. record { entries = c.entries.items; written = c.written.number } };
}

impl<T: Copy> Column<T> {
    /// A column with these entries, which don't count as written.
    pub fn new(entries: Vec<T>) -> Column<T>
        ensures { result ≡ record { entries = entries.items; written = 0 } }
    {
        Column {
            entries,
            written: Count::zero(),
        }
    }

    /// The entries.
    #[inline(always)]
    pub fn entries(&self) -> &[T]
        ensures { result.now ≡ self.now.entries }
    {
        &self.entries
    }

    /// Writes the entry at a place.
    #[inline(always)]
    pub fn write(&mut self, place: usize, entry: T)
        requires { place < length self.old.entries }
        ensures { self.new ≡ record { entries = set self.old.entries place entry; written = self.old.written + 1 } }
    {
        self.entries[place] = entry;
        self.written.add_one();
    }
}
