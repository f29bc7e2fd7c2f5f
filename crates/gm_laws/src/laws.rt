// What each part's rules owe, as the contract of a function that does nothing.
ghost use Rattle.gm_laws.specs.Bounds.{RulesAreModest};
ghost use Rattle.gm_laws.specs.Commands.{CommandsHold};
ghost use Rattle.gm_laws.specs.Laws.{WakesHold, PassesHold};

/// Each wake, each packet that is passed at once, and each command keeps the laws of parts.
pub fn parts_keep_laws()
    ensures wakes { WakesHold }
    ensures passes { PassesHold }
    ensures modest { RulesAreModest }
    ensures commands { CommandsHold }
{}
