// The packets that wait for one line.
ghost use Rattle.std.specs.Prelude.{◌≡◌, ◌<◌, ◌≤◌, [], ◌∷◌, ◌++◌, length, take, drop, slice_get};

use std::marker::Model;

/// Keys of packets, the one that came first in front. There are places for 16.
#[derive(Drop)]
pub(crate) struct Targets {
    keys: [usize; 16],
    count: usize,
}

impl Model for Targets {
    ghost use Rattle.std.specs.Prelude.{ℕ, List, ◌≤◌, take};

    ghost Value = { List ℕ };

    ghost view = { λ t. take t.count t.keys };

    ghost invariant = { λ t. t.count ≤ 16 };
}

impl Targets {
    /// One packet.
    pub(crate) fn one(packet: usize) -> Targets
        ensures { result ≡ packet ∷ [] }
    {
        let mut keys = [0; 16];
        keys[0] = packet;
        Targets { keys, count: 1 }
    }

    /// How many they are.
    pub(crate) fn len(&self) -> usize
        ensures { result ≡ length self.now }
    {
        self.count
    }

    /// The packet before which n others came, if there is one.
    pub(crate) fn get(&self, n: usize) -> Option<usize>
        ensures { result ≡ slice_get self.now n }
    {
        if n < self.count {
            Some(self.keys[n])
        } else {
            None
        }
    }

    /// A packet more, behind the others.
    pub(crate) fn push(&mut self, packet: usize)
        requires { length self.old < 16 }
        ensures { self.new ≡ self.old ++ packet ∷ [] }
    {
        self.keys[self.count] = packet;
        self.count += 1;
    }

    /// Takes the first packet out, if there is one.
    pub(crate) fn take_first(&mut self) -> Option<usize>
        ensures first { result ≡ slice_get self.old 0 }
        ensures rest { self.new ≡ drop 1 self.old }
    {
        if self.count == 0 {
            return None;
        }
        let first = self.keys[0];
        self.keys.copy_within(1.., 0);
        self.count -= 1;
        Some(first)
    }
}
