// What the rule of a cache does to its lines, as the contract of a function that does nothing.
ghost use Rattle.gm_cache.specs.Lines.{StartsWithTags, WakesKeepTags, WakesMoveLines, WakesMoveWaiting};

/// A cache starts with no line. Each wake keeps what holds of its lines and registers, moves each line as is said of the wake, and
/// so it moves those who wait for a line.
pub fn cache_lines_keep_laws()
    ensures start { StartsWithTags }
    ensures tags { WakesKeepTags }
    ensures lines { WakesMoveLines }
    ensures waiting { WakesMoveWaiting }
{}
