//! The nineteen kinds of faults of an instance text.

/// What is wrong with a line of an instance text, in the order in which they are looked for; the
/// last two are faults of the whole text.
#[derive(Clone, Copy, Debug, PartialEq, Eq)]
pub enum Code {
    /// The first field isn't `p`, `n` or `a`.
    Kind,
    /// The number of fields isn't right.
    Fields,
    /// The problem is neither `min` nor `asn`.
    Problem,
    /// A field that should be a whole number isn't one.
    Number,
    /// It is a second problem line.
    SecondP,
    /// No problem line comes before it.
    BeforeP,
    /// The number of nodes or of arcs is out of range.
    Size,
    /// A node's number is out of range.
    Node,
    /// It is a node line after an arc line.
    LateN,
    /// An earlier node line names the same node.
    Twice,
    /// A supply is out of range.
    Supply,
    /// A bound of an arc is out of range.
    Bound,
    /// The lower bound of an arc is above the upper one.
    Order,
    /// The cost of an arc is out of range.
    Cost,
    /// There are more arc lines than the problem line says.
    Extra,
    /// An arc of an assignment doesn't go from a node with a node line to one without.
    Side,
    /// The total over the arcs so far, each the absolute value of the cost times the greater
    /// absolute value of the bounds, is above 10^36.
    Total,
    /// The text has no problem line.
    NoP,
    /// There are fewer arc lines than the problem line says.
    Missing,
}

impl Code {
    ghost use Rattle.std.specs.Prelude.{◌≡◌, ◌↔◌, Some, bytes_eq};
    ghost use Rattle.mcf_flows.specs.Codes.{code_of_word, code_word};

    /// The word of the code in refusals. No two codes have the same word.
    pub fn word(self) -> &'static str
        ensures value { result.now ≡ code_word self }
        ensures back { code_of_word (code_word self) ≡ Some self }
    {
        match self {
            Code::Kind => "kind",
            Code::Fields => "fields",
            Code::Problem => "problem",
            Code::Number => "number",
            Code::SecondP => "second-p",
            Code::BeforeP => "before-p",
            Code::Size => "size",
            Code::Node => "node",
            Code::LateN => "late-n",
            Code::Twice => "twice",
            Code::Supply => "supply",
            Code::Bound => "bound",
            Code::Order => "order",
            Code::Cost => "cost",
            Code::Extra => "extra",
            Code::Side => "side",
            Code::Total => "total",
            Code::NoP => "no-p",
            Code::Missing => "missing",
        }
    }

    // Whether the code has this word.
    fn has_word(self, word: &[u8]) -> bool
        ensures { result ≡ bytes_eq (code_word self) word.now }
    {
        self.word().as_bytes() == word
    }

    // The first of the codes that has this word.
    fn first_with(word: &[u8]) -> Option<Code>
        ensures { result ≡ code_of_word word.now }
    {
        ALL.iter().copied().find(|code| code.has_word(word))
    }

    /// The code that has this word, if any.
    pub fn of(word: &[u8]) -> Option<Code>
        ensures value { result ≡ code_of_word word.now }
        ensures known { (code : Code) → (result ≡ Some code) ↔ (code_word code ≡ word.now) }
    {
        Code::first_with(word)
    }
}

// The codes, first those of a line in the order in which they are looked for, then those of the
// whole text.
static ALL: [Code; 19] = [
    Code::Kind,
    Code::Fields,
    Code::Problem,
    Code::Number,
    Code::SecondP,
    Code::BeforeP,
    Code::Size,
    Code::Node,
    Code::LateN,
    Code::Twice,
    Code::Supply,
    Code::Bound,
    Code::Order,
    Code::Cost,
    Code::Extra,
    Code::Side,
    Code::Total,
    Code::NoP,
    Code::Missing,
];
