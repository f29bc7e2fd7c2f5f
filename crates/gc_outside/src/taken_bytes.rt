// Bytes that are taken as far as they fit, for the sinks in memory.
ghost use Rattle.std.specs.Prelude.{◌≡◌, ◌-◌, [], length, IfOk};
ghost use Rattle.gc_outside.specs.TakenBytes.{free_room, with_fitting};

use gc_base::NoMemory;
use std::alloc::Global;
use std::marker::Model;

/// Bytes for which memory was taken at once.
#[derive(Drop)]
pub(crate) struct TakenBytes {
    bytes: Vec<u8>,
    room: usize,
}

impl Model for TakenBytes {
    ghost use Rattle.std.specs.Prelude.{◌≤◌, vec_len, vec_capacity};
    ghost use Rattle.gc_outside.specs.TakenBytes.{Taken};

    ghost Value = { Taken };

    ghost view = { λ t. record { bytes = t.bytes.items; room = t.room } };

    ghost invariant = { λ t. (vec_len t.bytes ≤ t.room) × (t.room ≤ vec_capacity t.bytes) };
}

impl TakenBytes {
    /// No byte, and memory for as many as there is to be room for.
    pub(crate) fn new(alloc: Global, room: usize) -> Result<TakenBytes, NoMemory>
        ensures { IfOk result (λ t. t ≡ record { bytes = []; room = room }) }
    {
        Ok(TakenBytes {
            bytes: Vec::with_capacity(alloc, room)?,
            room,
        })
    }

    /// What was taken.
    pub(crate) fn bytes(&self) -> &[u8]
        ensures { result.now ≡ self.now.bytes }
    {
        self.bytes.as_slice()
    }

    /// Takes the bytes as far as they fit, and says how many did not.
    pub(crate) fn append(&mut self, bytes: &[u8]) -> usize
        ensures over { result ≡ length bytes.now - free_room self.old }
        ensures exact { self.new ≡ with_fitting bytes.now self.old }
    {
        let count = bytes.len().min(self.room - self.bytes.len());
        let _ = self.bytes.extend_from_slice(&bytes[..count]);
        bytes.len() - count
    }
}
