// Why a run ends.
ghost use Rattle.std.specs.Prelude.{◌≡◌, ℕ, if◌then◌else◌, nat_lt, nat_le, Option, Some, None};
ghost use Rattle.gm_model.specs.Run.{has_retired, is_late, late_reason};

use gc_base::limits::LAST;
use gm_model::{Goal, Reason, Until};

/// As many instructions have retired as were asked for.
pub(crate) fn has_retired(until: Until, insts: u64) -> bool
    ensures { result ≡ has_retired until insts }
{
    match until {
        Until::Insts(n) => n <= insts,
        Until::Tick(_) | Until::End => false,
    }
}

/// The tick is after the one that was asked for.
fn is_late(until: Until, tick: u64) -> bool
    ensures { result ≡ is_late until tick }
{
    match until {
        Until::Tick(last) => last < tick,
        Until::Insts(_) | Until::End => false,
    }
}

/// Why an event of a tick isn't served, if it isn't, once so many events were.
pub(crate) fn late_reason(g: &Goal, events: u64, tick: u64) -> Option<Reason>
    ensures { result ≡ late_reason g.now events tick }
{
    if tick > LAST {
        Some(Reason::TickLimit)
    } else if is_late(g.until, tick) {
        Some(Reason::Tick)
    } else if events >= g.budget {
        Some(Reason::Limit)
    } else {
        None
    }
}
