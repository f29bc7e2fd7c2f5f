// How far a run goes, and why it ends.

/// How far a run goes.
#[derive(Clone, Copy, Debug, PartialEq, Eq)]
pub struct Goal {
    pub until: Until,
    /// How many events it serves at most.
    pub budget: u64,
}

/// Until when a run goes.
#[derive(Clone, Copy, Debug, PartialEq, Eq)]
pub enum Until {
    /// No event after this tick is served.
    Tick(u64),
    /// So many instructions have retired in the run.
    Insts(u64),
    /// The guest ends it.
    End,
}

/// Why a run ended. The first that holds decides.
#[derive(Clone, Copy, Debug, PartialEq, Eq)]
pub enum Reason {
    /// The guest has exited with this number.
    Exit(u32),
    /// So many instructions as were asked for have retired.
    Insts,
    /// Nothing is pending.
    Idle,
    /// The next event is after the greatest tick at which a run serves one.
    TickLimit,
    /// The next event is after the tick that was asked for.
    Tick,
    /// So many events as the budget allows were served.
    Limit,
}
