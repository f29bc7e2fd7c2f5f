// What the definitions of runs say, each as the contract of a function that does nothing.
ghost use Rattle.gm_model.specs.Example.{RunsStoreAndExit, RunsAsTheTimerWakes, RunsInTime, RunsAsTheLineRises};
ghost use Rattle.gm_model.specs.Run.{RunsEnd};

/// A run to a goal ends after the least number of events for which there is a reason, and with the first that holds.
pub fn runs_end()
    ensures { RunsEnd }
{}

/// What the example runs to: computed, and not a law.
pub fn runs_store_and_exit()
    ensures { RunsStoreAndExit }
{}

/// What the example runs to that the timer wakes: computed, and not a law.
pub fn runs_as_the_timer_wakes()
    ensures { RunsAsTheTimerWakes }
{}

/// What the examples run to in the timing mode: computed, and not a law.
pub fn runs_in_time()
    ensures { RunsInTime }
{}

/// What the example runs to whose load is on its way as the timer's line rises: computed, and not a law.
pub fn runs_as_the_line_rises()
    ensures { RunsAsTheLineRises }
{}
