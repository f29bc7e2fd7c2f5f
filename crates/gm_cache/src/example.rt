// What the rule gives in the example, each as the contract of a function that does nothing.
ghost use Rattle.gm_cache.specs.Example.{WakesGiveRows, ReadsWithoutTime};

/// What each wake of the example gives: computed, and not a law.
pub fn wakes_give_rows()
    ensures { WakesGiveRows }
{}

/// What is read without time in the example: computed, and not a law.
pub fn reads_without_time()
    ensures { ReadsWithoutTime }
{}
