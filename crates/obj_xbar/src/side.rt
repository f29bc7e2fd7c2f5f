// The layer of a crossbar for addresses of no port, whose packets are refused by fault and then go back.
ghost use Rattle.std.specs.Prelude.{◌≡◌, ◌+◌, ◌<◌, ◌≤◌, length, IsTrue};
ghost use Rattle.gm_words.specs.Allowed.{MayPass};
ghost use Rattle.gm_words.specs.PortUses.{xbar_classes};
ghost use Rattle.gm_words.specs.Slots.{gave_from};
ghost use Rattle.gm_model.specs.Flows.{has_room};
ghost use Rattle.gm_model.specs.ObjState.{Xbar};
ghost use Rattle.gm_model.specs.Xbar.{lane_at, side_event, side_enters};
ghost use Rattle.obj_core.specs.Out.{HasRoom};
ghost use Rattle.obj_core.specs.Step.{Takes};
ghost use Rattle.obj_xbar.specs.Shown.{xbar_state};
ghost use Rattle.obj_xbar.specs.Side.{is_behind, gone_beside, cleared_at};

use crate::layers::Layers;
use ev_queue::EventQueue;
use gc_base::limits::TOP;
use gc_base::{PortNo, Tick};
use gm_model::Packet;
use obj_core::Outbox;

impl Layers {
    /// Its event: its packet becomes a response, and goes to the layer of the port by which it came, or waits for it.
    pub(crate) fn side_event(&mut self, now: Tick, q: &mut EventQueue, out: &mut Outbox)
        requires tick { now ≤ TOP }
        requires room { HasRoom out.old }
        requires handles { IsTrue (gave_from q.old.table self.old.ports.object 0 (xbar_classes self.old.ports.uses)) }
        ensures { let before = xbar_state self.old in
            Takes (side_event before out.old.next now before.side.lane.flow.items before.side.lane.flow.out)
            (Xbar before) (Xbar (xbar_state self.new)) q.old q.new out.old out.new }
    {
        if !self.side.is_due() {
            return;
        }
        let Some(first) = self.side.first() else {
            return;
        };
        if first.is_write_back() {
            self.side.open(out);
            return;
        }
        let mut p = *first;
        let port = self.ports.source_of(&p);
        p.refuse();
        if self.has_room_at(port) {
            self.side_goes(port, p, now, q, out);
        } else {
            self.side.wait_as(&p);
            self.ahead = self.waiting_at(port);
        }
    }

    /// Whether the place of a port's layer is free.
    fn has_room_at(&self, port: usize) -> bool
        requires { port < length self.now.ports.uses }
        ensures { result ≡ has_room 1 (lane_at self.now.lanes.items port) }
    {
        self.lanes[port].has_room()
    }

    /// How many ports wait for a port's layer.
    fn waiting_at(&self, port: usize) -> usize
        requires { port < length self.now.ports.uses }
        ensures { result ≡ length (lane_at self.now.lanes.items port).waiting }
    {
        self.lanes[port].waiting()
    }

    /// Its packet, a response now, goes to the layer of a port, whose place is free.
    fn side_goes(
        &mut self,
        port: usize,
        mut p: Packet,
        now: Tick,
        q: &mut EventQueue,
        out: &mut Outbox,
    )
        requires port { port < length self.old.ports.uses }
        requires room { IsTrue (has_room 1 (lane_at self.old.lanes.items port)) }
        requires size { MayPass p }
        requires tick { now ≤ TOP }
        requires room_out { HasRoom out.old }
        requires handles { IsTrue (gave_from q.old.table self.old.ports.object 0 (xbar_classes self.old.ports.uses)) }
        ensures { let before = xbar_state self.old in
            Takes (gone_beside before out.old.next port p now)
            (Xbar before) (Xbar (xbar_state self.new)) q.old q.new out.old out.new }
    {
        p.pop_port();
        let at = self.offered_at(now);
        self.ports.put(port, &mut self.lanes[port], &p, at, q);
        self.side.open(out);
    }

    /// Whether its packet waits for the layer of a port.
    pub(crate) fn side_waits_for(&self, port: PortNo) -> bool
        ensures { let s = xbar_state self.now in result ≡ is_behind s.ports port.0 s.side.lane.flow.items s.side.lane.flow.out }
    {
        match self.side.first() {
            Some(p) => self.side.waits() && self.ports.source_of(p) == port.0 as usize,
            None => false,
        }
    }

    /// Its packet comes into the layer of a port, whose own is gone.
    pub(crate) fn side_enters(
        &mut self,
        port: PortNo,
        now: Tick,
        q: &mut EventQueue,
        out: &mut Outbox,
    )
        requires port { port.0 < length self.old.ports.uses }
        requires tick { now ≤ TOP }
        requires room { HasRoom out.old }
        requires handles { IsTrue (gave_from q.old.table self.old.ports.object 0 (xbar_classes self.old.ports.uses)) }
        ensures { let before = xbar_state self.old in
            Takes (side_enters before out.old.next port.0 now before.side.lane.flow.items)
            (Xbar before) (Xbar (xbar_state self.new)) q.old q.new out.old out.new }
    {
        let Some(first) = self.side.first() else {
            return;
        };
        let p = *first;
        self.clear_at(port.0 as usize);
        self.side_goes(port.0 as usize, p, now, q, out);
    }

    /// The packet of a port's layer is gone.
    fn clear_at(&mut self, port: usize)
        requires { port < length self.old.ports.uses }
        ensures { xbar_state self.new ≡ cleared_at (xbar_state self.old) port }
    {
        self.lanes[port].clear();
    }
}
