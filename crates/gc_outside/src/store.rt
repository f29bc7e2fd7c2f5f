// A store of files by name.
ghost use Rattle.std.specs.Prelude.{◌≡◌, ℕ, ◌≤◌, List, [], Option, Some, None, IsSome, OnOk, OnErr, IfOk, IsErrOf, is_err};
ghost use Rattle.gc_outside.specs.Faults.{Rose, CountsFaultIf};
ghost use Rattle.gc_outside.specs.Told.{Told};

use crate::faults::Failed;
use gc_base::Octets;
use std::alloc::Global;
use thiserror::Error;

/// What a store answers to a `get`.
#[derive(Debug, Drop)]
pub enum Got {
    /// The file's bytes.
    Bytes(Octets),
    /// There is no such file.
    Absent,
    /// The file has more bytes than were asked for at most.
    Longer,
}

/// Why a `get` has no answer.
#[derive(Clone, Copy, Debug, PartialEq, Eq, Error)]
pub enum GetError {
    /// The store failed, and counted a fault.
    #[error("the store failed")]
    Failed,
    /// Memory for the bytes could not be had.
    #[error("memory could not be had")]
    NoMemory,
}

/// Keeps files by name. A file is read whole, and put in pieces: `begin_put`, any number of `piece`s, `end_put`.
///
/// - `files` is the file of each name, where the store tells it.
/// - `open_put` is the name of the file whose put is open. That a put is open is always told; which file it is means something
///   only where `files` is told.
/// - `faults` counts the calls that failed, each once, and nothing else. It never falls, and stands still at 2^64 - 1, its last
///   value.
pub trait Store {
    ghost use Rattle.gc_outside.specs.Store.{Files, Answers, IsWithin, is_failed, Opens, ChangesFile, LeavesOrEmpties, AppendsToOpen, SameFiles, CutsOpen};

    ghost files: { Self → Option Files };

    ghost open_put: { Self → Option (List ℕ) };

    ghost faults: { Self → ℕ };

    /// The file of a name, of at most `most` bytes. It changes no file and no put.
    fn get(&mut self, alloc: Global, name: &str, most: usize) -> Result<Got, GetError>
        ensures answer { IfOk result (Answers most name.now (files self.old)) }
        ensures within { IfOk result (IsWithin most) }
        ensures same_files { files self.new ≡ files self.old }
        ensures same_put { open_put self.new ≡ open_put self.old }
        ensures cause { IsErrOf result GetError.Failed → Rose (faults self.old) (faults self.new) }
        ensures count { faults self.old ≤ faults self.new }
        ensures counted { CountsFaultIf (is_failed result) (faults self.old) (faults self.new) };

    /// Makes the file empty and opens it. Where a put is open, that one ends first, as it is.
    fn begin_put(&mut self, name: &str) -> Result<(), Failed>
        ensures empty { OnOk result (Told (ChangesFile name.now (Some [])) (files self.old) (files self.new)) }
        ensures opened { OnOk result (Opens name.now (files self.new) (open_put self.new)) }

        // After a failure no put is open, and the named file is empty or as it was.
        ensures kept { OnErr result (Told (LeavesOrEmpties name.now) (files self.old) (files self.new)) }
        ensures ended { OnErr result (open_put self.new ≡ None) }
        ensures cause { OnErr result (Rose (faults self.old) (faults self.new)) }
        ensures count { faults self.old ≤ faults self.new }
        ensures counted { CountsFaultIf (is_err result) (faults self.old) (faults self.new) };

    /// Appends to the open file.
    fn piece(&mut self, bytes: &[u8]) -> Result<(), Failed>
        requires { IsSome (open_put self.old) }
        ensures whole { OnOk result (Told (AppendsToOpen (open_put self.old) bytes.now) (files self.old) (files self.new)) }
        ensures same_put { OnOk result (open_put self.new ≡ open_put self.old) }

        // After a failure no put is open, and the file holds a front of what was put.
        ensures front { OnErr result (Told (CutsOpen (open_put self.old) bytes.now) (files self.old) (files self.new)) }
        ensures ended { OnErr result (open_put self.new ≡ None) }
        ensures cause { OnErr result (Rose (faults self.old) (faults self.new)) }
        ensures count { faults self.old ≤ faults self.new }
        ensures counted { CountsFaultIf (is_err result) (faults self.old) (faults self.new) };

    /// Ends the open put.
    fn end_put(&mut self) -> Result<(), Failed>
        requires { IsSome (open_put self.old) }
        ensures whole { OnOk result (Told SameFiles (files self.old) (files self.new)) }
        ensures front { OnErr result (Told (CutsOpen (open_put self.old) []) (files self.old) (files self.new)) }
        ensures ended { open_put self.new ≡ None }
        ensures cause { OnErr result (Rose (faults self.old) (faults self.new)) }
        ensures count { faults self.old ≤ faults self.new }
        ensures counted { CountsFaultIf (is_err result) (faults self.old) (faults self.new) };
}
