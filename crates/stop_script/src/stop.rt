// What one line of a script asks for.
use gc_base::Octets;
use gm_words::Until;

/// What one line of a script asks for.
#[derive(Debug, Drop)]
pub enum Stop {
    /// The machine runs so far. A tick and a number of instructions are at most 2^62.
    Run(Until),
    /// The registers are shown.
    Regs,
    /// The statistics are shown, a line each.
    Stats,
    /// The statistics are shown as one JSON object.
    StatsJson,
    /// The UART is given bytes, from 1 to 64.
    Input(Octets),
    /// From here on events are traced, or no more.
    Trace(bool),
}
