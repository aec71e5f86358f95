//! The links (arcs) of a net in order, which the net of an assignment shares with its instance.
ghost use Rattle.std.specs.Prelude.{◌≡◌, ◌<◌, ◌≤◌, IfOk, OnErr, length, slice_index_or};
ghost use Rattle.mcf_network.specs.Private.StoredLinks.{links_in, no_link};

use mcf_flows::Link;
use mcf_text::NoMemory;
use std::alloc::Global;
use std::rc::Rc;

/// Links in order, shared by their owners, so that they aren't copied. An empty list needs no
/// memory.
#[derive(Drop)]
pub(crate) enum Links {
    Nothing,
    Shared(Rc<Vec<Link>>),
}

impl Links {
    /// These links, with one owner.
    pub(crate) fn of(alloc: Global, links: Vec<Link>) -> Result<Links, NoMemory>
        ensures value { IfOk result (λ made. links_in made ≡ links.items) }
        ensures wants { OnErr result (1 ≤ length links.items) }
    {
        if links.is_empty() {
            return Ok(Links::Nothing);
        }
        let shared = Rc::new(alloc, links)?;
        Ok(Links::Shared(shared))
    }

    /// The links.
    pub(crate) fn as_slice(&self) -> &[Link]
        ensures { result.now ≡ links_in self.now }
    {
        match self {
            Links::Nothing => &[],
            Links::Shared(links) => links.as_slice(),
        }
    }

    /// The link at a place.
    #[inline(always)]
    pub(crate) fn get(&self, place: usize) -> Link
        requires { place < length (links_in self.now) }
        ensures { result ≡ slice_index_or (links_in self.now) place no_link }
    {
        match self {
            Links::Nothing => unreachable!(),
            Links::Shared(links) => links[place],
        }
    }
}
