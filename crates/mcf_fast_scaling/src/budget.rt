//! What a search may read.

/// How many places of arcs a search has read, about, and how many it may read.
#[derive(Drop)]
pub(crate) struct Budget {
    paid: u64,
    most: u64,
}

impl Budget {
    /// A budget from which nothing is paid.
    pub(crate) fn of(most: u64) -> Budget {
        Budget { paid: 0, most }
    }

    /// Pays for a scan of so many places.
    pub(crate) fn pay(&mut self, places: u32) {
        self.paid = self.paid.wrapping_add(u64::from(places)).wrapping_add(1);
    }

    /// Whether more is paid than may be.
    pub(crate) fn is_spent(&self) -> bool {
        self.is_past(self.most)
    }

    /// Whether more is paid than up to an end.
    pub(crate) fn is_past(&self, end: u64) -> bool {
        self.paid > end
    }

    /// The end of a part that may pay an eighth of what is paid so far.
    pub(crate) fn end_of_eighth(&self) -> u64 {
        self.paid.saturating_add(self.paid / 8).min(self.most)
    }
}
