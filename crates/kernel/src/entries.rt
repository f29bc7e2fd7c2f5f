// What the entries of an event tell.
ghost use Rattle.std.specs.Prelude.{◌≡◌, ℕ, ◌+◌, ◌-◌, ◌^◌, ◌*◌, ◌<◌, ◌≤◌, ◌++◌, List, [], ◌∷◌, length};
ghost use Rattle.std.specs.Option.{option_to_list};
ghost use Rattle.gm_words.specs.Counts.{count_event, IsCountedUpTo};
ghost use Rattle.gm_words.specs.Entries.{console_of, console_bytes};

use crate::run_end::Fired;
use ev_queue::Due;
use gm_model::Entry;
use gm_model::platform::UART_BASE;
use probe_stats::Counters;

/// The source of a CPU's data accesses.
const DATA: u8 = 1;

/// An event is counted, and each entry that it noted.
pub(crate) fn count(counters: &mut Counters, entries: &[Entry])
    requires counts { IsCountedUpTo (2 ^ 63) counters.old.counts }
    requires events { counters.old.counts.events < 2 ^ 63 }
    requires few { length entries.now ≤ 528 }
    ensures { counters.new ≡ record counters.old { counts = count_event counters.old.counts entries.now } }
{
    for entry in entries.iter() {
        counters.note(entry);
    }
    counters.event();
}

/// The byte that an entry brings to the console: one that the hart writes at the UART's offset 0, unrefused.
fn console_byte(entry: &Entry) -> Option<u8>
    ensures { option_to_list result ≡ console_bytes entry.now }
{
    match entry {
        Entry::Served {
            src: DATA,
            write: true,
            addr: UART_BASE,
            size: 1,
            fault: false,
            bytes,
            ..
        } => Some(bytes[0]),
        _ => None,
    }
}

/// The byte that an event brought to the console: one at most.
fn console(entries: &[Entry]) -> Option<u8>
    requires { length (console_of entries.now) ≤ 1 }
    ensures { option_to_list result ≡ console_of entries.now }
{
    for entry in entries.iter() {
        let byte = console_byte(entry);
        if byte.is_some() {
            return byte;
        }
    }
    None
}

/// What is told of an event that noted these entries.
pub(crate) fn told(due: &Due, entries: &[Entry]) -> Fired
    requires { length (console_of entries.now) ≤ 1 }
    ensures due { result.due ≡ due.now }
    ensures console { option_to_list result.console ≡ console_of entries.now }
{
    Fired {
        due: *due,
        console: console(entries),
    }
}
