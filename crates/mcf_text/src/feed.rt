//! The lines of a text that arrives in pieces (chunks).
use crate::fault::FeedFault;
use crate::parts::Line;
use memchr::memchr;
use std::alloc::Global;
use std::marker::Model;

/// The greatest number of bytes of a text.
pub const BYTE_LIMIT: u64 = 1_000_000_000_000_000_000;

/// The lines of a text that arrives in pieces, which may be cut anywhere: the popped lines are
/// those that `lines` gives for the joined pieces, with the same numbers. Clauses see how many
/// lines were popped and how many bytes fed, the bytes of the lines that weren't popped, and
/// whether `end` was called.
///
/// No byte is scanned twice for the end of its line, and the bytes of popped lines are freed once
/// they are at least half of all: the total time of all calls is linear in the bytes fed.
#[derive(Drop)]
pub struct LineFeed {
    // The pieces, without some of the popped lines.
    bytes: Vec<u8>,
    // Where the first line begins that wasn't popped.
    start: usize,
    // The number of bytes from there on that are known to end no line.
    scanned: usize,
    popped: u128,
    fed: u64,
    has_ended: bool,
}

impl Model for LineFeed {
    ghost use Rattle.std.specs.Prelude.{◌+◌, ◌≤◌, length, drop, take};
    ghost use Rattle.mcf_text.specs.Feed.{Feed, byte_limit};
    ghost use Rattle.mcf_text.specs.Lines.{IsOneLine};

    ghost Value = { Feed };

    ghost view = { λ f. record { popped = f.popped; fed = f.fed; rest = drop f.start f.bytes.items; has_ended = f.has_ended } };

    ghost invariant = { λ f. (f.start ≤ length f.bytes.items) × (f.popped + length (drop f.start f.bytes.items) ≤ f.fed) × (f.fed ≤ byte_limit)
        × (f.start + f.scanned ≤ length f.bytes.items) × IsOneLine (take f.scanned (drop f.start f.bytes.items)) };
}

impl LineFeed {
    ghost use Rattle.std.specs.Prelude.{◌≡◌, ◌+◌, ◌<◌, ◌≤◌, ◌↔◌, [], true, false, length, OnOk, OnErr, IsFalse, MatchOption};
    ghost use Rattle.std.specs.Borrow.{sem};
    ghost use Rattle.std.specs.Io.BufRead.{Rests};
    ghost use Rattle.mcf_text.specs.Feed.{after_lines, after_piece, byte_limit, BeginsWithLines, FirstLineEnds, HasNoLine};
    ghost use Rattle.mcf_text.specs.Pop.{PopsLine};
    ghost use Rattle.mcf_text.specs.contracts.feed.LineFeed.{the_row};

    /// The feed of the empty text, which allocates nothing.
    pub fn new(alloc: Global) -> LineFeed
        ensures { result ≡ record { popped = 0; fed = 0; rest = []; has_ended = false } }
    {
        LineFeed {
            bytes: Vec::new(alloc),
            start: 0,
            scanned: 0,
            popped: 0,
            fed: 0,
            has_ended: false,
        }
    }

    /// Takes the next piece, of any length. After `end` it can't be called.
    ///
    /// # Errors
    ///
    /// `TooLong` exactly if the bytes fed so far and the piece are more than 10^18 together;
    /// `NoMemory` if the allocation for the bytes of the piece is refused. Then nothing of the
    /// piece is taken.
    pub fn feed(&mut self, piece: &[u8]) -> Result<(), FeedFault>
        requires { IsFalse self.old.has_ended }
        ensures ok { OnOk result (self.new ≡ after_piece self.old piece.now) }
        ensures err { OnErr result (self.new ≡ self.old) }
        ensures too_long { (result ≡ Err FeedFault.TooLong) ↔ (byte_limit < self.old.fed + length piece.now) }
        ensures wants { result ≡ Err FeedFault.NoMemory → 1 ≤ length piece.now }
    {
        let len = piece.len() as u64;
        if len > BYTE_LIMIT - self.fed {
            return Err(FeedFault::TooLong);
        }
        self.give_up_popped();
        if self.bytes.extend_from_slice(piece).is_err() {
            return Err(FeedFault::NoMemory);
        }
        self.fed += len;
        Ok(())
    }

    /// Ends the text: the bytes after the last line feed are a finished line, too.
    pub fn end(&mut self)
        ensures { self.new ≡ record self.old { has_ended = true } }
    {
        self.has_ended = true;
    }

    /// The number of popped lines.
    pub fn popped(&self) -> u128
        ensures value { result ≡ self.now.popped }
        ensures few { result ≤ byte_limit }
    {
        self.popped
    }

    /// Pops the first line that wasn't popped, if a line feed ends it or `end` was called; `None`
    /// if no line is finished. Its number is one more than the number of lines popped before.
    pub fn pop(&mut self) -> Option<Line<'_>>
        ensures* { sem 𝓛 (Rests the_row self.entry (PopsLine self.old result)) }
    {
        let Some((len, next)) = self.first_line() else {
            self.scanned = self.bytes.len() - self.start;
            return None;
        };
        let start = self.start;
        let bytes = &self.bytes;
        self.start += next;
        self.scanned = 0;
        self.popped += 1;
        Some(Line {
            number: self.popped,
            bytes: &bytes[start..start + len],
        })
    }

    /// The bytes of the lines that weren't popped.
    pub fn rest(&self) -> &[u8]
        ensures { result.now ≡ self.now.rest }
    {
        &self.bytes[self.start..]
    }

    /// Pops this many lines at once, whose text is the first `len` bytes of `rest`.
    pub fn pop_lines(&mut self, lines: usize, len: usize)
        requires { BeginsWithLines self.old.rest lines len }
        ensures { self.new ≡ after_lines self.old lines len }
    {
        if len == 0 {
            return;
        }
        let LineFeed {
            start,
            scanned,
            popped,
            ..
        } = self;
        *start += len;
        *scanned = 0;
        *popped += lines as u128;
    }

    // Frees the bytes of popped lines, if they are at least half of all.
    fn give_up_popped(&mut self)
        ensures { self.new ≡ self.old }
    {
        let len = self.bytes.len() - self.start;
        if self.start < len {
            return;
        }
        self.bytes.rotate_left(self.start);
        self.bytes.truncate(len);
        self.start = 0;
    }

    // Where the first line ends and where the bytes after it begin, if it is finished.
    fn first_line(&self) -> Option<(usize, usize)>
        ensures { MatchOption result (HasNoLine self.now) (λ ends. FirstLineEnds self.now ends.0 ends.1) }
    {
        let len = self.bytes.len() - self.start;
        let rest = &self.bytes[self.start + self.scanned..];
        match memchr(b'\n', rest) {
            Some(place) => {
                let end = self.scanned + place;
                Some((end, end + 1))
            }
            None if self.has_ended && len > 0 => Some((len, len)),
            None => None,
        }
    }
}
