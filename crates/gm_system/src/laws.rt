// The theorems on machines, each as the contract of a function that does nothing.
ghost use Rattle.gm_system.specs.Laws.{StartsSound, StaysSound};
ghost use Rattle.gm_system.specs.Runs.{RunsHold};

/// A machine is sound at its start, and once its parts are commanded, get input, or get bytes in RAM.
pub fn machines_start_sound()
    ensures { StartsSound }
{}

/// It stays sound from an event's wake to its last delivery, whichever pending event is served at whatever tick; the event comes to
/// an end, and notes little.
pub fn machines_stay_sound()
    ensures { StaysSound }
{}

/// Over any list of events and commands, in whatever order: what is noted is right over flat memory, no packet is lost or doubled,
/// new packet numbers are drawn in order, and the machine stays wired as it was.
pub fn runs_are_replayed()
    ensures { RunsHold }
{}
