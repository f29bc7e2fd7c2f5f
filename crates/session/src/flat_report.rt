// The report of a run over flat memory.
ghost use Rattle.std.specs.Prelude.{◌≡◌, ◌≤◌, ◌+◌, ◌++◌, List, [], length};
ghost use Rattle.rv_step.specs.Run.{flat_reason};
ghost use Rattle.gc_outside.specs.Emits.{Emits};
ghost use Rattle.session.specs.Run.{state_with};
ghost use Rattle.session.specs.Report.{reason_text, flat_line, flat_report};

use crate::flat_run::FlatRun;
use crate::registers::put_registers;
use gc_text::{LineBuf, put_dec, put_text};

/// Why the run ended.
fn put_reason(text: &mut LineBuf, run: &FlatRun)
    requires { length text.old ≤ 10 }
    ensures reason { text.new ≡ text.old ++ reason_text (flat_reason (state_with run.now [])) }
    ensures room { length text.new ≤ length text.old + 25 }
{
    match run.exit {
        Some(n) => {
            put_text(text, b"exit ");
            put_dec(text, n as u64);
        }
        None if run.arch.asleep => put_text(text, b"idle"),
        None => put_text(text, b"count"),
    }
}

fn put_flat_line(text: &mut LineBuf, run: &FlatRun)
    requires { text.old ≡ [] }
    ensures line { text.new ≡ flat_line (state_with run.now []) }
    ensures room { length text.new ≤ 80 }
{
    let steps = run.steps;
    put_text(text, b"flat ");
    put_reason(text, run);
    put_text(text, b" steps ");
    put_dec(text, steps);
    put_text(text, b"\n");
}

/// The whole report.
pub(crate) fn report_of(run: &FlatRun) -> LineBuf
    ensures { result ≡ flat_report (state_with run.now []) }
{
    let mut text = LineBuf::new();
    put_flat_line(&mut text, run);
    put_registers(&mut text, &run.arch);
    text
}
