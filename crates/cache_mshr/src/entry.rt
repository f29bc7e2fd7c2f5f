// What stands under a register's key: its line, and the packets that wait for it.
ghost use Rattle.std.specs.Prelude.{◌≡◌, ◌<◌, ◌∷◌, ◌++◌, [], length, drop, slice_get, Some, IfSome};
ghost use Rattle.slab.specs.Slab.{get, with_value};
ghost use Rattle.cache_mshr.specs.declared.entry.Entry.{Entry};

use crate::targets::Targets;
use slab::Slab;

/// A line that is on its way, and the packets that wait for it.
#[derive(Drop)]
pub(crate) struct Entry {
    pub(crate) addr: u64,
    pub(crate) targets: Targets,
}

/// A packet more waits in the register of a key, behind the others.
pub(crate) fn push_target(entries: &mut Slab<Entry>, key: usize, packet: usize)
    requires { IfSome (get entries.old key) (λ e. length e.targets < 16) }
    ensures { (e : Entry) → get entries.old key ≡ Some e → entries.new ≡ with_value entries.old key (record e { targets = e.targets ++ packet ∷ [] }) }
{
    if let Some(entry) = entries.get_mut(key) {
        entry.targets.push(packet);
    }
}

/// Takes the first packet out of the register of a key, if one waits there.
pub(crate) fn take_target(entries: &mut Slab<Entry>, key: usize) -> Option<usize>
    ensures first { (e : Entry) → get entries.old key ≡ Some e → result ≡ slice_get e.targets 0 }
    ensures rest { (e : Entry) → get entries.old key ≡ Some e → entries.new ≡ with_value entries.old key (record e { targets = drop 1 e.targets }) }
{
    entries.get_mut(key)?.targets.take_first()
}
