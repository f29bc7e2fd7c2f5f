// The top call.
ghost use Rattle.std.specs.Prelude.{◌≡◌, map, string_bytes};
ghost use Rattle.kernel.specs.Build.{AreBlank};
ghost use Rattle.session.specs.Calls.{EndsAs};
ghost use Rattle.session.specs.Codes.{AnswersCall, code_of};
ghost use Rattle.session.specs.Ending.{StoreCounts, status_of};
ghost use Rattle.session.specs.Outside.{outside, store_seen};
ghost use Rattle.session.specs.Puts.{Puts};
ghost use Rattle.session.specs.Replayed.{ReplaysScript};
ghost use Rattle.session.specs.declared.status.Status.{Status};

use crate::assembly::assembly;
use crate::flat::flat;
use crate::lines::refuse;
use crate::run::run;
use crate::status::{Status, status_of};
use crate::words::{AssemblyWords, FlatWords, RunWords};
use gc_outside::{Sink, Store};
use obj_core::SimObject;
use std::alloc::Global;

/// Does what the words ask for.
fn perform<S: Store, C: Sink, R: Sink>(
    alloc: Global,
    words: &[String],
    bin: Vec<Box<dyn SimObject>>,
    store: &mut S,
    console: &mut C,
    report: &mut R,
) -> Result<(), Status>
    requires { AreBlank (map (λ b. state b) bin.items) }
    ensures ends { EndsAs (status_of result) (map string_bytes words.now) (map (λ b. state b) bin.items)
        (outside S.Store C.Sink R.Sink store.old console.old report.old)
        (outside S.Store C.Sink R.Sink store.new console.new report.new) }
    ensures puts { Puts (status_of result) (map string_bytes words.now)
        (store_seen S.Store store.old) (store_seen S.Store store.new) }
{
    if let Some(words) = FlatWords::read(words) {
        return flat(alloc, &words, store, console, report);
    }
    if let Some(words) = RunWords::read(words) {
        return run(alloc, &words, bin, store, console, report);
    }
    match AssemblyWords::read(words) {
        Some(words) => assembly(alloc, &words, store, report),
        None => Err(refuse(Status::Usage, b"usage\n", report)),
    }
}

/// Does all that the program does: the words after its name, the files, and what it writes. The answer is the status
/// of the process.
///
/// - `flat IMAGE COUNT` runs the image over flat memory, for at most COUNT steps.
/// - `run CONFIG IMAGE SCRIPT` builds the machine of the configuration out of `bin`, loads the image, and carries out the
///   script.
/// - `asm SOURCE IMAGE` assembles the source, and puts the ELF file of its words.
pub fn gemcore<S: Store, C: Sink, R: Sink>(
    alloc: Global,
    words: &[String],
    bin: Vec<Box<dyn SimObject>>,
    store: &mut S,
    console: &mut C,
    report: &mut R,
) -> u8
    requires blank { AreBlank (map (λ b. state b) bin.items) }

    // The answer is the number of a status, and the call has then come to an ending of its words: the steps before it
    // went well by what is in the files, and the sinks took what the ending writes, or, where one failed, a front of it.
    ensures ends { (s : Status) → result ≡ code_of s
        → EndsAs s (map string_bytes words.now) (map (λ b. state b) bin.items)
        (outside S.Store C.Sink R.Sink store.old console.old report.old)
        (outside S.Store C.Sink R.Sink store.new console.new report.new) }
    ensures complete { AnswersCall result (map string_bytes words.now) (map (λ b. state b) bin.items)
        (outside S.Store C.Sink R.Sink store.old console.old report.old)
        (outside S.Store C.Sink R.Sink store.new console.new report.new) }

    // What stands in the store then: as it did, but for the one file that `asm` puts.
    ensures puts { (s : Status) → result ≡ code_of s
        → Puts s (map string_bytes words.now) (store_seen S.Store store.old) (store_seen S.Store store.new) }

    // What the store counted then: no failure of it is passed over, and none comes after another.
    ensures counted { (s : Status) → result ≡ code_of s
        → StoreCounts s (store_seen S.Store store.old) (store_seen S.Store store.new) }

    // Where the call carries out a script, what its events noted is the instruction set's over flat memory, from its
    // machine's start to its end.
    ensures replay { ReplaysScript (map string_bytes words.now) (S.files store.old) (map (λ b. state b) bin.items) }
{
    status_of(perform(alloc, words, bin, store, console, report)).code()
}
