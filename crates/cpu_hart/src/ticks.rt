// When a CPU goes on.
ghost use Rattle.std.specs.Prelude.{◌≡◌, ◌≤◌};
ghost use Rattle.gc_base.specs.declared.limits.TheConstants.{PERIOD_MAX};
ghost use Rattle.gm_words.specs.HartLine.{next_multiple};

use gc_base::Tick;
use gc_base::limits::TOP;

/// The next multiple of a period, in ticks.
#[inline(always)]
#[tactic(auto, using(crate::proofs::Next::next_multiple_formula))]
pub fn next_period(now: Tick, period: u32) -> Tick
    requires tick { now ≤ TOP }
    requires least { 1 ≤ period }
    requires most { period ≤ PERIOD_MAX }
    ensures { result ≡ next_multiple period now }
{
    now.next_multiple(period)
}
