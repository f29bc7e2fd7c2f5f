// A sink in memory that never fails, for theorems about runs whose outputs all go well.
ghost use Rattle.std.specs.Prelude.{◌≡◌, ℕ, ◌≤◌, [], IfOk, IsOk};
ghost use Rattle.gc_outside.specs.Told.{Told};
ghost use Rattle.gc_outside.specs.Sink.{Appends};
ghost use Rattle.gc_outside.specs.SureSink.{sure_emitted, told_bytes};

use crate::faults::Failed;
use crate::sink::Sink;
use crate::taken_bytes::TakenBytes;
use gc_base::NoMemory;
use std::alloc::Global;
use std::marker::Model;

/// Keeps what fits of all it takes, and counts the rest. It never fails, and tells what it took while nothing was over.
#[derive(Drop)]
pub struct SureSink {
    taken: TakenBytes,
    over: u64,
}

impl Model for SureSink {
    ghost use Rattle.gc_outside.specs.SureSink.{SureSinkState};

    ghost Value = { SureSinkState };

    ghost view = { λ s. record { taken = s.taken; over = s.over } };
}

impl SureSink {
    /// An empty sink. It takes memory for `room` bytes at once.
    pub fn new(alloc: Global, room: usize) -> Result<SureSink, NoMemory>
        ensures { IfOk result (λ s. s ≡ record { taken = record { bytes = []; room = room }; over = 0 }) }
    {
        Ok(SureSink {
            taken: TakenBytes::new(alloc, room)?,
            over: 0,
        })
    }

    /// What was taken, as far as it fitted.
    pub fn bytes(&self) -> &[u8]
        ensures { result.now ≡ self.now.taken.bytes }
    {
        self.taken.bytes()
    }

    /// How many bytes did not fit. It stands still at 2^64 - 1.
    pub fn over(&self) -> u64
        ensures { result ≡ self.now.over }
    {
        self.over
    }
}

impl Sink for SureSink {
    ghost taken = { told_bytes };

    ghost faults = { λ _. 0 };

    fn emit(&mut self, bytes: &[u8]) -> Result<(), Failed>
        ensures answer { IsOk result }
        ensures exact { self.new ≡ sure_emitted bytes.now self.old }

        // As of every sink.
        ensures whole { Told (Appends bytes.now) (told_bytes self.old) (told_bytes self.new) }
    {
        let over = self.taken.append(bytes);
        self.over = self.over.saturating_add(over as u64);
        Ok(())
    }
}
