// The laws of what parts do to their events, each as the contract of a function that does nothing.
ghost use Rattle.gm_words.specs.EventLaws.{KeepsOthersEvents, TellsQueue};

/// Whatever an object changes, the events of the others stay, in the same order, and of its own those are pending that the
/// changes say.
pub fn events_of_others_stay()
    ensures others { KeepsOthersEvents }
    ensures own { TellsQueue }
{}
