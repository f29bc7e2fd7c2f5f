// Calls that are to fail, for the stores and sinks in memory.
ghost use Rattle.std.specs.Prelude.{◌≡◌};
ghost use Rattle.gc_outside.specs.PlannedFaults.{no_plan, is_planned, called, has_free_number, with_failing};

use arrayvec::ArrayVec;
use std::marker::Model;

/// How many numbers of calls that are to fail are kept at most.
const MOST_FAILING: usize = 16;

/// The numbers of the calls that are to fail, counted from 0, and how many calls there were.
#[derive(Drop)]
pub(crate) struct PlannedFaults {
    failing: ArrayVec<u64, MOST_FAILING>,
    calls: u64,
}

impl Model for PlannedFaults {
    ghost use Rattle.gc_outside.specs.PlannedFaults.{Plan};

    ghost Value = { Plan };

    ghost view = { λ p. record { failing = p.failing.items; calls = p.calls } };
}

impl PlannedFaults {
    /// No call is to fail.
    pub(crate) fn new() -> PlannedFaults
        ensures { result ≡ no_plan }
    {
        PlannedFaults {
            failing: ArrayVec::new(),
            calls: 0,
        }
    }

    /// Keeps the number of a call that is to fail, where there is a place for it.
    pub(crate) fn fail_at(&mut self, call: u64) -> bool
        ensures answer { result ≡ has_free_number self.old }
        ensures exact { self.new ≡ with_failing call self.old }
    {
        self.failing.try_push(call).is_ok()
    }

    /// Counts a call, and says whether it is to fail.
    pub(crate) fn next_fails(&mut self) -> bool
        ensures answer { result ≡ is_planned self.old }
        ensures exact { self.new ≡ called self.old }
    {
        let call = self.calls;
        self.calls = call.saturating_add(1);
        self.failing.as_slice().contains(&call)
    }
}
