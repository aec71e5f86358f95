//! The reader's state: the content of the lines so far.
ghost use Rattle.std.specs.Prelude.{◌≡◌, ◌++◌, ◌∷◌, [], List, map, length, slice_get, None, Some, OnOk, OnErr, ◌≤◌, IfOk, IfSome, IsTrue};
ghost use Rattle.mcf_instance.specs.Fault.{faults, header};
ghost use Rattle.mcf_flows.specs.Limits.{limits, line_limit};
ghost use Rattle.mcf_instance.specs.Private.ArrayStates.{CarriesOne, NodesFit, Offered};
ghost use Rattle.mcf_instance.specs.Private.LineReader.{arc_tests};
ghost use Rattle.mcf_instance.specs.Private.ReaderSound.{IsSound, ItemFits};
ghost use Rattle.mcf_instance.specs.Private.ReaderState.{empty, item_of, with_item, item_grows, network_of, outcome_grows, problem_or_min, after_row, refusal_after, finished};
ghost use Rattle.mcf_instance.specs.Private.PlainLines.{SaysArc};
ghost use Rattle.mcf_instance.specs.Private.TakenArcs.{TakesArc, WantsArc};
ghost use Rattle.mcf_instance.specs.ReadOn.{Stands};
ghost use Rattle.mcf_flows.specs.WellFormed.{IsWellFormed};
ghost use Rattle.mcf_text.specs.Fields.{fields_of, is_kept};
ghost use Rattle.mcf_text.specs.Row.{Row, row_of};

use crate::reader::fields::first_fields;
use crate::reader::line::{
    ArcNumbers, Header, Item, arc_line, arc_tests, is_word, node_line, problem_line,
};
use crate::reader::plain::{PlainArc, begins_arc, plain_link, plain_pair};
use mcf_flows::{ArcTable, Code, Instance, PackedArc, Problem, Refusal};
use mcf_text::{NoMemory, copies};
use std::alloc::Global;
use std::marker::Model;

/// The content of the lines so far, with the total of their arcs, or the first fault.
#[derive(Drop)]
pub(crate) struct ReaderState {
    header: Option<Header>,
    listed: Vec<bool>,
    supplies: Vec<i64>,
    arcs: ArcTable,
    total: u128,
    refusal: Option<Refusal>,
}

impl Model for ReaderState {
    ghost use Rattle.mcf_flows.specs.Limits.{limits};
    ghost use Rattle.mcf_instance.specs.Private.ReaderSound.{IsSound};
    ghost use Rattle.mcf_instance.specs.ReadOn.{StateData};

    ghost Value = { StateData };

    ghost view = { λ s. record {
      header = s.header;
      listed = s.listed.items;
      supplies = s.supplies.items;
      arcs = s.arcs;
      total = s.total;
      refusal = s.refusal;
    } };

    ghost invariant = { λ s. IsSound limits s.header s.listed.items s.supplies.items s.arcs s.total };
}

impl ReaderState {
    /// The state before the first line.
    pub(crate) fn new(alloc: Global) -> ReaderState
        ensures { result ≡ empty }
    {
        ReaderState {
            header: None,
            listed: Vec::new(alloc),
            supplies: Vec::new(alloc),
            arcs: ArcTable::new(alloc),
            total: 0,
            refusal: None,
        }
    }

    /// The state before the first arc, with these flags and supplies of the nodes.
    pub(crate) fn of_nodes(
        alloc: Global,
        header: Header,
        listed: Vec<bool>,
        supplies: Vec<i64>,
    ) -> ReaderState
        requires { NodesFit header listed.items supplies.items }
        ensures { result ≡ record { header = Some header; listed = listed.items; supplies = supplies.items; arcs = []; total = 0; refusal = None } }
    {
        ReaderState {
            header: Some(header),
            listed,
            supplies,
            arcs: ArcTable::new(alloc),
            total: 0,
            refusal: None,
        }
    }

    /// The content of a line, or its fault.
    #[tactic(auto, unfolding(crate::specs::Private::ReaderState::item_of))]
    fn item_of(&self, fields: &[&[u8]]) -> Result<Item, Code>
        requires { 1 ≤ length fields.now }
        ensures { result ≡ item_of limits self.now (map (λ f. f.now) fields.now) }
    {
        let word = fields[0];
        if is_word(word, b"p") {
            let header = problem_line(self.header.is_some(), fields)?;
            Ok(Item::Problem(header))
        } else if is_word(word, b"n") {
            let (node, supply) = node_line(self.header, self.arcs.len(), &self.listed, fields)?;
            Ok(Item::Supply(node, supply))
        } else if is_word(word, b"a") {
            let arc = arc_line(
                self.header,
                self.arcs.len(),
                self.total,
                &self.listed,
                fields,
            )?;
            Ok(Item::Link(arc))
        } else {
            Err(Code::Kind)
        }
    }

    // Makes the tables of a problem line; those of no nodes need no memory.
    fn start(&mut self, alloc: Global, header: Header) -> Result<(), NoMemory>
        requires { ItemFits limits self.old (Item.Problem header) }
        ensures ok { OnOk result (self.new ≡ with_item self.old (Item.Problem header)) }
        ensures err { OnErr result (self.new ≡ self.old) }
        ensures grows { OnErr result (IsTrue (item_grows (Item.Problem header))) }
    {
        let supply = match header.problem {
            Problem::Min => 0i64,
            Problem::Asn => -1i64,
        };
        let listed = copies(alloc, header.nodes as usize, false)?;
        let supplies = copies(alloc, header.nodes as usize, supply)?;
        self.header = Some(header);
        self.listed = listed;
        self.supplies = supplies;
        Ok(())
    }

    // Takes the arc of a valid line.
    #[inline(always)]
    fn link(&mut self, arc: PackedArc) -> Result<(), NoMemory>
        requires { ItemFits limits self.old (Item.Link arc) }
        ensures ok { OnOk result (self.new ≡ with_item self.old (Item.Link arc)) }
        ensures err { OnErr result (self.new ≡ self.old) }
    {
        self.arcs.push(arc)?;
        self.total += arc.weight();
        Ok(())
    }

    // The content of the numbers of an arc, or their fault.
    #[inline(always)]
    #[tactic(auto, using(crate::proofs::Signed::signed))]
    fn tested(&self, header: Header, numbers: ArcNumbers) -> Result<PackedArc, Code>
        requires { self.now.header ≡ Some header }
        ensures exact { result ≡ arc_tests limits header (length self.now.arcs) self.now.total self.now.listed numbers }
        ensures sound { IsSound limits self.now.header self.now.listed self.now.supplies self.now.arcs self.now.total }
    {
        arc_tests(header, self.arcs.len(), self.total, &self.listed, numbers)
    }

    /// Takes an arc, unless it has a fault; then the first fault is returned.
    pub(crate) fn offer(
        &mut self,
        header: Header,
        numbers: ArcNumbers,
    ) -> Result<Option<Code>, NoMemory>
        requires header { self.old.header ≡ Some header }
        requires carries_one { CarriesOne header numbers }
        ensures offered { IfOk result (λ fault. Offered self.old header numbers fault self.new) }
        ensures sound { IsSound limits self.old.header self.old.listed self.old.supplies self.old.arcs self.old.total }
        ensures wants { OnErr result (1 ≤ header.nodes) }
    {
        match self.tested(header, numbers) {
            Ok(arc) => {
                self.link(arc)?;
                Ok(None)
            }
            Err(code) => Ok(Some(code)),
        }
    }

    // Takes a valid line.
    fn take(&mut self, alloc: Global, item: Item) -> Result<(), NoMemory>
        requires { ItemFits limits self.old item }
        ensures ok { OnOk result (self.new ≡ with_item self.old item) }
        ensures err { OnErr result (self.new ≡ self.old) }
        ensures grows { OnErr result (IsTrue (item_grows item)) }
    {
        match item {
            Item::Problem(header) => self.start(alloc, header),
            Item::Supply(node, supply) => {
                self.listed[node as usize - 1] = true;
                self.supplies[node as usize - 1] = supply;
                Ok(())
            }
            Item::Link(arc) => self.link(arc),
        }
    }

    // Takes the next significant (kept) line by its fields.
    #[tactic(auto, unfolding(crate::specs::Private::ReaderState::after_row))]
    fn take_fields(&mut self, alloc: Global, number: u128, fields: &[&[u8]]) -> Result<(), NoMemory>
        requires some_field { 1 ≤ length fields.now }
        requires numbered { (1 ≤ number) × (number ≤ line_limit) }
        ensures ok { OnOk result (self.new ≡ after_row limits self.old (record { number = number; fields = map (λ f. f.now) fields.now })) }
        ensures err { OnErr result (self.new ≡ self.old) }
        ensures grows { OnErr result ((self.old.refusal ≡ None) × IsTrue (outcome_grows (item_of limits self.old (map (λ f. f.now) fields.now)))) }
    {
        let is_refused = self.refusal.is_some();
        if is_refused {
            return Ok(());
        }
        match self.item_of(fields) {
            Ok(item) => self.take(alloc, item),
            Err(code) => {
                self.refusal = Some(Refusal { line: number, code });
                Ok(())
            }
        }
    }

    // Takes the next significant (kept) line.
    fn take_any(&mut self, alloc: Global, number: u128, line: &[u8]) -> Result<(), NoMemory>
        requires kept { IsTrue (is_kept line.now) }
        requires numbered { (1 ≤ number) × (number ≤ line_limit) }
        ensures ok { OnOk result (self.new ≡ after_row limits self.old (row_of (number, line.now))) }
        ensures err { OnErr result (self.new ≡ self.old) }
        ensures grows { OnErr result ((self.old.refusal ≡ None) × IsTrue (outcome_grows (item_of limits self.old (fields_of line.now)))) }
    {
        let first = first_fields(line);
        self.take_fields(alloc, number, &first.fields[..first.count])
    }
}

impl ReaderState {
    /// Takes the next significant (kept) line, with this number. An `Err` changes nothing.
    #[inline(never)]
    pub(crate) fn step(&mut self, alloc: Global, number: u128, line: &[u8]) -> Result<(), NoMemory>
        requires kept { IsTrue (is_kept line.now) }
        requires numbered { (1 ≤ number) × (number ≤ line_limit) }
        ensures stands { OnOk result ((lines : List Row) → Stands limits self.old lines
            → Stands limits self.new (lines ++ row_of (number, line.now) ∷ [])) }
        ensures err { OnErr result (self.new ≡ self.old) }
        ensures wants { OnErr result ((lines : List Row) → Stands limits self.old lines
            → (1 ≤ (header (lines ++ row_of (number, line.now) ∷ [])).nodes)
            × (slice_get (faults limits (lines ++ row_of (number, line.now) ∷ [])) 0 ≡ None)) }
    {
        self.take_any(alloc, number, line)
    }

    /// The content of the problem line, after that.
    pub(crate) fn header(&self) -> Option<Header>
        ensures { result ≡ self.now.header }
    {
        self.header
    }

    // Takes the arc at the front of a text, if it was read and has no fault.
    #[inline(always)]
    fn link_plain(
        &mut self,
        header: Header,
        text: &[u8],
        plain: Option<PlainArc>,
    ) -> Result<Option<usize>, NoMemory>
        requires header { self.old.header ≡ Some header }
        requires plain { IfSome plain (λ p. SaysArc header.problem text.now p.numbers p.end) }
        ensures taken { IfOk result (λ len. TakesArc self.old text.now len self.new) }
        ensures wants { OnErr result (WantsArc self.old text.now) }
    {
        let Some(plain) = plain else {
            return Ok(None);
        };
        let Ok(arc) = self.tested(header, plain.numbers) else {
            return Ok(None);
        };
        self.link(arc)?;
        Ok(Some(plain.end + 1))
    }

    /// Takes the first line of a text, if it is a valid and plain arc line, and gives its number of
    /// bytes, with the one that ends it; otherwise nothing changes.
    #[inline(always)]
    pub(crate) fn take_arc(
        &mut self,
        header: Header,
        text: &[u8],
    ) -> Result<Option<usize>, NoMemory>
        requires { self.old.header ≡ Some header }
        ensures taken { IfOk result (λ len. TakesArc self.old text.now len self.new) }
        ensures wants { OnErr result (WantsArc self.old text.now) }
    {
        if !begins_arc(text) {
            return Ok(None);
        }
        // Each arm has its own copy of what follows: lower bound 0 and capacity 1 of an assignment
        // are constants there.
        match header.problem {
            Problem::Min => self.link_plain(header, text, plain_link(text)),
            Problem::Asn => self.link_plain(header, text, plain_pair(text)),
        }
    }

    /// The first fault, if a line so far has one.
    pub(crate) fn refusal(&self) -> Option<Refusal>
        ensures { result ≡ self.now.refusal }
    {
        self.refusal
    }

    /// The refusal after the last line, if the line after it has this number.
    fn refusal_after(&self, line: u128) -> Option<Refusal>
        requires { (1 ≤ line) × (line ≤ line_limit) }
        ensures { result ≡ refusal_after self.now line }
    {
        match (self.refusal, self.header) {
            (Some(refusal), _) => Some(refusal),
            (None, None) => Some(Refusal {
                line,
                code: Code::NoP,
            }),
            (None, Some(header)) => {
                if self.arcs.len() < header.arcs as usize {
                    Some(Refusal {
                        line,
                        code: Code::Missing,
                    })
                } else {
                    None
                }
            }
        }
    }

    /// The instance, or the first fault, if the line after the last has this number.
    pub(crate) fn finish(self, line: u128) -> Result<Instance, Refusal>
        requires { (1 ≤ line) × (line ≤ line_limit) }
        ensures { result ≡ finished self line }
    {
        match self.refusal_after(line) {
            Some(refusal) => Err(refusal),
            None => Ok(self.into_instance()),
        }
    }

    // The problem that the problem line names; `min` before that line.
    fn problem(&self) -> Problem
        ensures { result ≡ problem_or_min self.now.header }
    {
        match self.header {
            Some(header) => header.problem,
            None => Problem::Min,
        }
    }

    /// The instance of the supplies and arcs so far, whether or not all arcs were read.
    pub(crate) fn into_instance(self) -> Instance
        ensures value { result ≡ network_of self }
        ensures sound { IsWellFormed limits result }
    {
        let problem = self.problem();
        let ReaderState {
            header: _,
            listed: _,
            supplies,
            arcs,
            total: _,
            refusal: _,
        } = self;
        Instance::of(problem, arcs, supplies)
    }
}
