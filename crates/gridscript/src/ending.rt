//! How the program ends where it writes no output.
ghost use Rattle.std.specs.Prelude.{◌≡◌, ◌≢◌, ◌↔◌, Some};
ghost use Rattle.std.specs.IoError.{error_kind};
ghost use Rattle.std.specs.declared.io.ErrorKind.TheVariants.{OutOfMemory};
ghost use Rattle.gridscript.specs.Ending.{ending_status, ending_text};
ghost use Rattle.gridscript.specs.declared.ending.Ending.TheVariants.{Script, Transfer};
ghost use Rattle.grid_play.specs.declared.fault.ScriptFault.TheVariants.{Memory};

use grid_play::ScriptFault;
use std::alloc::AllocError;
use std::{fmt, io};

/// Why the program wrote no output.
#[derive(Debug, PartialEq, Eq, Drop)]
pub enum Ending {
    /// The arguments are neither none nor the word `deferred`.
    Usage,
    /// The script is at fault, or allocation failed.
    Script(ScriptFault),
    /// Reading or writing failed.
    Transfer,
}

impl Ending {
    /// Returns the exit status.
    pub fn status(&self) -> u8
        ensures { result ≡ ending_status self.now }
    {
        match self {
            Ending::Usage => 2,
            Ending::Script(fault) => fault.status(),
            Ending::Transfer => 4,
        }
    }
}

impl fmt::Display for Ending {
    ghost output = { λ ending. Some (ending_text ending) };

    fn fmt<W: fmt::Write>(&self, f: &mut fmt::Formatter<W>) -> fmt::Result {
        match self {
            Ending::Usage => f.write_str("usage: gridscript [deferred]"),
            Ending::Script(fault) => write!(f, "{fault}"),
            Ending::Transfer => f.write_str("input or output failed"),
        }
    }
}

impl From<ScriptFault> for Ending {
    ghost from_gives = { λ fault ending. ending ≡ Script fault };

    fn from(fault: ScriptFault) -> Ending {
        Ending::Script(fault)
    }
}

impl From<AllocError> for Ending {
    ghost from_gives = { λ _ ending. ending ≡ Script Memory };

    fn from(_error: AllocError) -> Ending {
        Ending::Script(ScriptFault::Memory)
    }
}

impl From<io::Error> for Ending {
    ghost from_gives = { λ error ending.
        ((ending ≡ Script Memory) ↔ (error_kind error ≡ OutOfMemory))
        × ((ending ≡ Transfer) ↔ (error_kind error ≢ OutOfMemory)) };

    fn from(error: io::Error) -> Ending {
        match error.kind() {
            io::ErrorKind::OutOfMemory => Ending::Script(ScriptFault::Memory),
            _ => Ending::Transfer,
        }
    }
}
