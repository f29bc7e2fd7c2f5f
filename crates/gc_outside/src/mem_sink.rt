// A sink in memory, for tests.
ghost use Rattle.std.specs.Prelude.{◌≡◌, ℕ, ◌≤◌, [], IfOk, OnOk, OnErr, is_ok, is_err, Some};
ghost use Rattle.gc_outside.specs.Faults.{Rose, CountsFaultIf};
ghost use Rattle.gc_outside.specs.Sink.{Appends, AppendsFront};
ghost use Rattle.gc_outside.specs.PlannedFaults.{no_plan, has_free_number, with_failing};
ghost use Rattle.gc_outside.specs.MemSink.{emits, emitted};

use crate::faults::Failed;
use crate::planned_faults::PlannedFaults;
use crate::sink::Sink;
use crate::taken_bytes::TakenBytes;
use gc_base::NoMemory;
use std::alloc::Global;
use std::marker::Model;

/// Keeps what it takes, and fails where it is told to or has no more room. It tells all.
#[derive(Drop)]
pub struct MemSink {
    taken: TakenBytes,
    plan: PlannedFaults,
    faults: u64,
}

impl Model for MemSink {
    ghost use Rattle.gc_outside.specs.MemSink.{MemSinkState};

    ghost Value = { MemSinkState };

    ghost view = { λ s. record { taken = s.taken; plan = s.plan; faults = s.faults } };
}

impl MemSink {
    /// An empty sink. It takes memory for `room` bytes at once.
    pub fn new(alloc: Global, room: usize) -> Result<MemSink, NoMemory>
        ensures { IfOk result (λ s. s ≡ record { taken = record { bytes = []; room = room }; plan = no_plan; faults = 0 }) }
    {
        Ok(MemSink {
            taken: TakenBytes::new(alloc, room)?,
            plan: PlannedFaults::new(),
            faults: 0,
        })
    }

    /// What was taken.
    pub fn bytes(&self) -> &[u8]
        ensures { result.now ≡ self.now.taken.bytes }
    {
        self.taken.bytes()
    }

    /// The emit of this number, counted from 0, is to fail. False where 16 such numbers are kept already.
    pub fn fail_at(&mut self, call: u64) -> bool
        ensures answer { result ≡ has_free_number self.old.plan }
        ensures exact { self.new ≡ record self.old { plan = with_failing call self.old.plan } }
    {
        self.plan.fail_at(call)
    }
}

impl Sink for MemSink {
    ghost taken = { λ s. Some s.taken.bytes };

    ghost faults = { λ s. s.faults };

    fn emit(&mut self, bytes: &[u8]) -> Result<(), Failed>
        ensures answer { is_ok result ≡ emits bytes.now self.old }
        ensures exact { self.new ≡ emitted bytes.now self.old }

        // As of every sink.
        ensures whole { OnOk result (Appends bytes.now self.old.taken.bytes self.new.taken.bytes) }
        ensures front { OnErr result (AppendsFront bytes.now self.old.taken.bytes self.new.taken.bytes) }
        ensures cause { OnErr result (Rose self.old.faults self.new.faults) }
        ensures count { self.old.faults ≤ self.new.faults }
        ensures counted { CountsFaultIf (is_err result) self.old.faults self.new.faults }
    {
        if self.plan.next_fails() || self.taken.append(bytes) > 0 {
            self.faults = self.faults.saturating_add(1);
            return Err(Failed);
        }
        Ok(())
    }
}
