// A sink of bytes: the console, the report.
ghost use Rattle.std.specs.Prelude.{ℕ, ◌≤◌, List, Option, OnOk, OnErr, is_err};
ghost use Rattle.gc_outside.specs.Faults.{Rose, CountsFaultIf};
ghost use Rattle.gc_outside.specs.Told.{Told};
ghost use Rattle.gc_outside.specs.Sink.{Appends, AppendsFront};

use crate::faults::Failed;

/// Takes bytes, in order.
///
/// - `taken` is what it has taken since it was made, where it tells that.
/// - `faults` counts the calls that failed, each once, and nothing else. It never falls, and stands still at 2^64 - 1, its last
///   value.
pub trait Sink {
    ghost taken: { Self → Option (List ℕ) };

    ghost faults: { Self → ℕ };

    /// Takes the bytes whole, or fails and has taken a front of them.
    fn emit(&mut self, bytes: &[u8]) -> Result<(), Failed>
        ensures whole { OnOk result (Told (Appends bytes.now) (taken self.old) (taken self.new)) }
        ensures front { OnErr result (Told (AppendsFront bytes.now) (taken self.old) (taken self.new)) }
        ensures cause { OnErr result (Rose (faults self.old) (faults self.new)) }
        ensures count { faults self.old ≤ faults self.new }
        ensures counted { CountsFaultIf (is_err result) (faults self.old) (faults self.new) };
}
