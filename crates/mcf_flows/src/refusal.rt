//! The refusal of an instance text.
use crate::code::Code;
use std::marker::Model;

/// The first fault of an instance text: the number of the line, from 1 to 10^37, and the kind of
/// the fault.
#[derive(Clone, Copy, Debug, PartialEq, Eq)]
pub struct Refusal {
    pub line: u128,
    pub code: Code,
}

impl Model for Refusal {
    ghost use Rattle.std.specs.Prelude.{◌≤◌};
    ghost use Rattle.mcf_flows.specs.Codes.{Fault};
    ghost use Rattle.mcf_flows.specs.Limits.{line_limit};

    ghost Value = { Fault };

    ghost view = { λ r. record { line = r.line; code = r.code } };

    ghost invariant = { λ r. (1 ≤ r.line) × (r.line ≤ line_limit) };

    ghost inverse = { λ f. record { line = f.line; code = f.code } };
}
