// What the rule of a cache owes at its ports, as the contract of a function that does nothing.
ghost use Rattle.gm_cache_laws.specs.Laws.{CacheStartsOk, CacheWakesHold};

/// A cache starts as one, and each wake keeps the laws of parts.
pub fn cache_wakes_keep_laws()
    ensures start { CacheStartsOk }
    ensures wakes { CacheWakesHold }
{}
