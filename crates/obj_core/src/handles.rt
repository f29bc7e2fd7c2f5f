// The handles that a part is configured with.
use ev_queue::EventHandle;

/// The handles of a part's slots, by their classes, and in a class by their slots.
#[derive(Drop)]
pub struct Handles {
    pub response: Vec<EventHandle<0>>,
    pub request: Vec<EventHandle<10>>,
    pub device: Vec<EventHandle<30>>,
    pub cpu: Vec<EventHandle<50>>,
}
