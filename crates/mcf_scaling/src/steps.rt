//! Counts of the steps of a refinement.
ghost use Rattle.std.specs.Prelude.{◌≡◌, suc};
ghost use Rattle.mcf_scaling.specs.Refinements.{no_steps};

use mcf_numbers::Count;
use std::marker::Model;

/// The numbers of phases, pushes and relabels: only for clauses, in no bytes.
#[derive(Drop)]
pub(crate) struct Steps {
    phases: Count,
    pushes: Count,
    relabels: Count,
}

impl Model for Steps {
    ghost use Rattle.mcf_scaling.specs.Refinements.{StepCounts};

    ghost Value = { StepCounts };

    ghost view = { λ s. record { phases = s.phases.number; pushes = s.pushes.number; relabels = s.relabels.number } };
}

impl Steps {
    /// Before the first step.
    pub(crate) fn none() -> Steps
        ensures { result ≡ no_steps }
    {
        Steps {
            phases: Count::zero(),
            pushes: Count::zero(),
            relabels: Count::zero(),
        }
    }

    /// One more phase was begun.
    pub(crate) fn begin(&mut self)
        ensures { self.new ≡ record self.old { phases = suc self.old.phases } }
    {
        self.phases.add_one();
    }

    /// One more push was made.
    pub(crate) fn push(&mut self)
        ensures { self.new ≡ record self.old { pushes = suc self.old.pushes } }
    {
        self.pushes.add_one();
    }

    /// One more relabel was made.
    pub(crate) fn relabel(&mut self)
        ensures { self.new ≡ record self.old { relabels = suc self.old.relabels } }
    {
        self.relabels.add_one();
    }
}
