// Why no script is read.
ghost use Rattle.std.specs.Prelude.{◌≡◌};
ghost use Rattle.stop_script.specs.declared.script_fault.ScriptFault.TheVariants.{NoMemory};

use std::alloc::AllocFailed;
use thiserror::Error;

/// Why no script is read.
#[derive(Clone, Copy, Debug, PartialEq, Eq, Error)]
pub enum ScriptFault {
    /// The first line that is none of a script. Lines are counted from 1.
    #[error("script line {line}")]
    Line { line: u32 },
    /// Memory could not be had.
    #[error("memory")]
    NoMemory,
}

impl<T: Drop> From<AllocFailed<T>> for ScriptFault {
    ghost from_gives = { λ _ e. e ≡ NoMemory };

    fn from(_: AllocFailed<T>) -> ScriptFault {
        ScriptFault::NoMemory
    }
}
