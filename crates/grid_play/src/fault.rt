//! What can be wrong with a script.
ghost use Rattle.std.specs.Prelude.{◌≡◌, Some};
ghost use Rattle.grid_play.specs.Prelude.{fault_status, fault_text};
ghost use Rattle.grid_play.specs.declared.fault.ScriptFault.TheVariants.{Memory};

use std::alloc::{AllocError, AllocFailed};
use std::fmt;

/// Why a script has no output.
#[derive(Debug, PartialEq, Eq, Drop)]
pub enum ScriptFault {
    /// The first line isn't a grid.
    BadGrid,
    /// The line of this index, counted from 1, isn't a command.
    BadCommand(usize),
    /// Allocation failed.
    Memory,
}

impl ScriptFault {
    /// Returns the exit status of a program that ran the script.
    pub fn status(&self) -> u8
        ensures { result ≡ fault_status self.now }
    {
        match self {
            ScriptFault::BadGrid => 2,
            ScriptFault::BadCommand(_) => 2,
            ScriptFault::Memory => 3,
        }
    }
}

impl fmt::Display for ScriptFault {
    ghost output = { λ fault. Some (fault_text fault) };

    fn fmt<W: fmt::Write>(&self, f: &mut fmt::Formatter<W>) -> fmt::Result {
        match self {
            ScriptFault::BadGrid => f.write_str("line 1: bad grid"),
            ScriptFault::BadCommand(line) => write!(f, "line {line}: bad command"),
            ScriptFault::Memory => f.write_str("out of memory"),
        }
    }
}

impl From<AllocError> for ScriptFault {
    ghost from_gives = { λ _ fault. fault ≡ Memory };

    fn from(_error: AllocError) -> ScriptFault {
        ScriptFault::Memory
    }
}

impl<T: Drop> From<AllocFailed<T>> for ScriptFault {
    ghost from_gives = { λ _ fault. fault ≡ Memory };

    fn from(_error: AllocFailed<T>) -> ScriptFault {
        ScriptFault::Memory
    }
}
