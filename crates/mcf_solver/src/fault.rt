//! Why a run ended without an answer.
ghost use Rattle.std.specs.Prelude.{◌≡◌};
ghost use Rattle.mcf_solver.specs.Running.{fault_text};
ghost use Rattle.mcf_solver.specs.declared.fault.RunFault.TheVariants.{NoMemory as OutOfMemory};

use mcf_text::NoMemory;
use std::alloc::{AllocError, AllocFailed};
use std::error::Error;
use std::fmt;

/// Why a run ended without an answer. Its text is the line that `mcf` prints.
#[derive(Clone, Copy, Debug, PartialEq, Eq)]
pub enum RunFault {
    /// The source failed.
    Read,
    /// The sink failed.
    Write,
    /// An allocation was refused.
    NoMemory,
    /// The source gave more than 10^18 bytes.
    TooLong,
}

impl fmt::Display for RunFault {
    ghost use Rattle.std.specs.Prelude.{Some};

    ghost output = { λ f. Some (fault_text f) };

    fn fmt<W: fmt::Write>(&self, f: &mut fmt::Formatter<W>) -> fmt::Result {
        f.write_str(fault_text(*self))
    }
}

// The text of a fault.
fn fault_text(fault: RunFault) -> &'static str
    ensures { result.now ≡ fault_text fault }
{
    match fault {
        RunFault::Read => "mcf: read failed",
        RunFault::Write => "mcf: write failed",
        RunFault::NoMemory => "mcf: out of memory",
        RunFault::TooLong => "mcf: input too long",
    }
}

impl Error for RunFault {}

impl From<NoMemory> for RunFault {
    ghost from_gives = { λ _ fault. fault ≡ OutOfMemory };

    fn from(_error: NoMemory) -> RunFault {
        RunFault::NoMemory
    }
}

impl From<AllocError> for RunFault {
    ghost from_gives = { λ _ fault. fault ≡ OutOfMemory };

    fn from(_error: AllocError) -> RunFault {
        RunFault::NoMemory
    }
}

impl<T: Drop> From<AllocFailed<T>> for RunFault {
    ghost from_gives = { λ _ fault. fault ≡ OutOfMemory };

    fn from(_error: AllocFailed<T>) -> RunFault {
        RunFault::NoMemory
    }
}
