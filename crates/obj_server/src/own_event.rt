// What becomes of a device's own event.
use gc_base::Tick;

/// What becomes of a device's own event, once it has served a request.
#[derive(Clone, Copy, Debug, PartialEq, Eq)]
pub enum OwnEvent {
    /// It stays as it is.
    Stays,
    /// It comes at a tick, in place of one that was pending.
    Comes { at: Tick },
    /// None is pending any more.
    Goes,
}
