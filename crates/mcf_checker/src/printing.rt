//! Verdicts as text.
use crate::verdict::Verdict;
use std::fmt;

impl fmt::Display for Verdict {
    ghost use Rattle.std.specs.Prelude.{Some};
    ghost use Rattle.mcf_checker.specs.Printed.{printed};

    ghost output = { λ v. Some (printed v) };

    fn fmt<W: fmt::Write>(&self, f: &mut fmt::Formatter<W>) -> fmt::Result {
        match self {
            Verdict::BadShape(line) => write!(f, "rejected shape {line}"),
            Verdict::BadKind => write!(f, "rejected kind"),
            Verdict::BadRefusal => write!(f, "rejected refusal"),
            Verdict::Refused(refusal) => {
                let line = refusal.line;
                let code = refusal.code.word();
                write!(f, "accepted refusal {line} {code}")
            }
            Verdict::BadArc(arc) => write!(f, "rejected arc {arc}"),
            Verdict::BadNode(node) => write!(f, "rejected node {node}"),
            Verdict::BadPrice(arc) => write!(f, "rejected price {arc}"),
            Verdict::BadCost => write!(f, "rejected cost"),
            Verdict::Flow(cost) => write!(f, "accepted flow {cost}"),
            Verdict::BadSet => write!(f, "rejected set"),
            Verdict::Blocked(count) => write!(f, "accepted blocked {count}"),
        }
    }
}
