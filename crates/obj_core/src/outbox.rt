// What parts ask for and note while an event is served.
ghost use Rattle.std.specs.Prelude.{◌≡◌, ◌+◌, ◌-◌, ◌^◌, ◌<◌, ◌≤◌, ◌==◌, List, [], ◌∷◌, ◌++◌, length, drop, IfOk, IfSome, IfNone, vec_len, vec_capacity};
ghost use Rattle.gm_model.specs.Deliver.{Sent, Done};
ghost use Rattle.obj_core.specs.Out.{empty_outbox, item_of};

use crate::item::Item;
use gc_base::{NoMemory, ObjId, PktId};
use gm_model::{Act, Entry, Packet};
use std::alloc::Global;
use std::marker::Model;

/// How many items are kept, with those that were taken out already: twice as many as may be left, so that those that are
/// left are moved to the front no more often than as many were taken out.
const KEPT: usize = 544;

/// How many entries there is room for.
const ENTRIES: usize = 528;

/// What is still to be delivered, first in, first out, what the event has noted, and the next packet number. The part that
/// is being called is the sender of what it asks for.
#[derive(Drop)]
pub struct Outbox {
    sender: ObjId,
    items: Vec<Item>,
    /// How many of the items were taken out.
    taken: usize,
    entries: Vec<Entry>,
    next: PktId,
}

impl Model for Outbox {
    ghost use Rattle.std.specs.Prelude.{length, vec_capacity};
    ghost use Rattle.obj_core.specs.Out.{Out, items_from, NeedsNoMemory};

    ghost Value = { Out };

    ghost view = { λ o. record { sender = o.sender.0; items = items_from o.taken o.items.items; entries = o.entries.items; next = o.next.0 } };

    ghost invariant = { λ o. NeedsNoMemory (length o.items.items) o.taken (vec_capacity o.items) (vec_capacity o.entries) };
}

impl Outbox {
    /// An outbox with nothing in it. It has room for 272 items and 528 entries, and takes no memory after this.
    pub fn new(alloc: Global) -> Result<Outbox, NoMemory>
        ensures { IfOk result (λ o. o ≡ empty_outbox) }
    {
        Ok(Outbox {
            sender: ObjId(0),
            items: Vec::with_capacity(alloc, KEPT)?,
            taken: 0,
            entries: Vec::with_capacity(alloc, ENTRIES)?,
            next: PktId(0),
        })
    }

    /// Makes a part the sender: the one that is called next.
    #[inline(always)]
    pub fn for_sender(&mut self, sender: ObjId)
        ensures { self.new ≡ record self.old { sender = sender.0 } }
    {
        self.sender = sender;
    }

    /// Asks for an act, after all that is to be delivered already.
    #[inline(always)]
    pub fn push(&mut self, act: Act)
        requires { length self.old.items < 272 }
        ensures { self.new ≡ record self.old { items = self.old.items ++ Sent self.old.sender act ∷ [] } }
    {
        let sender = self.sender;
        self.append(Item::Sent { sender, act });
    }

    /// Asks that a sender be told of the packet that it passed on, after all that is to be delivered already.
    #[inline(always)]
    pub fn push_done(&mut self, sender: ObjId, pkt: Packet, latency: u64)
        requires { length self.old.items < 272 }
        ensures { self.new ≡ record self.old { items = self.old.items ++ Done sender.0 pkt latency ∷ [] } }
    {
        self.append(Item::Done {
            sender,
            pkt,
            latency,
        });
    }

    /// Keeps an item behind the others.
    #[inline(always)]
    fn append(&mut self, item: Item)
        requires { length self.old.items < 272 }
        ensures { self.new ≡ record self.old { items = self.old.items ++ item_of item ∷ [] } }
    {
        if self.items.len() >= KEPT {
            close_up(&mut self.items, self.taken);
            self.taken = 0;
        }
        self.items.push_reserved(item);
    }

    /// The first item, if one is left, lent.
    #[inline(always)]
    pub fn first(&self) -> Option<&Item>
        ensures some { IfSome result (λ i. self.now.items ≡ item_of i.now ∷ drop 1 self.now.items) }
        ensures none { IfNone result (self.now.items ≡ []) }
    {
        if self.taken < self.items.len() {
            Some(&self.items[self.taken])
        } else {
            None
        }
    }

    /// Takes the first item out, if one is left.
    #[inline(always)]
    pub fn drop_first(&mut self)
        ensures { self.new ≡ record self.old { items = drop 1 self.old.items } }
    {
        if self.taken + 1 < self.items.len() {
            self.taken += 1;
        } else {
            self.items.clear();
            self.taken = 0;
        }
    }

    /// Whether nothing is to be delivered.
    #[inline(always)]
    pub fn is_empty(&self) -> bool
        ensures { result ≡ (length self.now.items == 0) }
    {
        self.taken == self.items.len()
    }

    /// Removes the items.
    #[inline(always)]
    pub fn clear_items(&mut self)
        ensures { self.new ≡ record self.old { items = [] } }
    {
        self.items.clear();
        self.taken = 0;
    }

    /// Notes an entry, after those that were noted before.
    #[inline(always)]
    pub fn note(&mut self, entry: Entry)
        requires { length self.old.entries < 528 }
        ensures { self.new ≡ record self.old { entries = self.old.entries ++ entry ∷ [] } }
    {
        self.entries.push_reserved(entry);
    }

    /// The entries in order, lent.
    #[inline(always)]
    pub fn entries(&self) -> &[Entry]
        ensures { result.now ≡ self.now.entries }
    {
        self.entries.as_slice()
    }

    /// Removes the entries.
    #[inline(always)]
    pub fn clear_entries(&mut self)
        ensures { self.new ≡ record self.old { entries = [] } }
    {
        self.entries.clear();
    }

    /// Draws the next packet number.
    #[inline(always)]
    pub fn fresh(&mut self) -> PktId
        requires { self.old.next < 2 ^ 64 - 1 }
        ensures number { result.0 ≡ self.old.next }
        ensures next { self.new ≡ record self.old { next = self.old.next + 1 } }
    {
        let number = self.next;
        self.next = PktId(number.0 + 1);
        number
    }

    /// Makes 0 the next packet number.
    pub fn restart(&mut self)
        ensures { self.new ≡ record self.old { next = 0 } }
    {
        self.next = PktId(0);
    }
}

/// Moves the items behind so many to the front.
#[cold]
#[inline(never)]
fn close_up(items: &mut Vec<Item>, taken: usize)
    requires { taken ≤ vec_len items.old }
    ensures items { items.new.items ≡ drop taken items.old.items }
    ensures capacity { vec_capacity items.new ≡ vec_capacity items.old }
{
    let left = items.len() - taken;
    items.rotate_left(taken);
    items.truncate(left);
}

#[cfg(test)]
mod tests {
    use super::*;

    fn line(bit: u8) -> Act {
        Act::SetLine { bit, level: true }
    }

    // By the rule: items come out as they went in, each with the part that was called, and each number is drawn once.
    #[test]
    fn items_come_out_in_order(rt: HostRuntime) -> Result<(), std::test::Fail> {
        let mut out = Outbox::new(rt.alloc())?;
        assert!(rt; out.is_empty());
        out.for_sender(ObjId(3));
        out.push(line(7));
        out.push(line(11));
        out.for_sender(ObjId(1));
        out.push(line(3));
        out.note(Entry::Slept);
        assert_eq!(rt;
            out.first(),
            Some(&Item::Sent {
                sender: ObjId(3),
                act: line(7)
            })
        );
        out.drop_first();
        assert_eq!(rt;
            out.first(),
            Some(&Item::Sent {
                sender: ObjId(3),
                act: line(11)
            })
        );
        out.drop_first();
        assert_eq!(rt;
            out.first(),
            Some(&Item::Sent {
                sender: ObjId(1),
                act: line(3)
            })
        );
        assert!(rt; !out.is_empty());
        out.drop_first();
        assert_eq!(rt; out.first(), None);
        assert_eq!(rt; out.entries(), [Entry::Slept].as_slice());
        assert_eq!(rt; out.fresh(), PktId(0));
        assert_eq!(rt; out.fresh(), PktId(1));
        out.push(line(3));
        out.clear_items();
        assert_eq!(rt; out.first(), None);
        out.restart();
        out.clear_entries();
        assert_eq!(rt; out.fresh(), PktId(0));
        assert!(rt; out.entries().is_empty());
        Ok(())
    }

    // With one item always left, each comes out in its turn, however often those that are left are moved to the front.
    #[test]
    fn items_keep_their_order_when_moved(rt: HostRuntime) -> Result<(), std::test::Fail> {
        let mut out = Outbox::new(rt.alloc())?;
        out.push(line(0));
        for n in 0..1200u16 {
            let bit = (n % 64) as u8;
            out.push(line(bit));
            out.drop_first();
            assert_eq!(rt;
                out.first(),
                Some(&Item::Sent {
                    sender: ObjId(0),
                    act: line(bit)
                })
            );
        }
        Ok(())
    }
}
