// The cache that is configured: its lines, the lines that are on their way to it, and its two queues.
ghost use Rattle.std.specs.Prelude.{◌≡◌, ℕ, ◌+◌, ◌-◌, ◌%◌, ◌^◌, List, ◌<◌, ◌≤◌, ◌==◌, ◌||◌, [], length, true, false, None, IsTrue, IfOk, Option, is_some, unwrap_or};
ghost use Rattle.std.specs.Option.{option_map};
ghost use Rattle.std.specs.Int.{is_power_of_two};
ghost use Rattle.gc_base.specs.declared.limits.TheConstants.{LATENCY_MAX};
ghost use Rattle.ev_queue.specs.Queue.{Queue};
ghost use Rattle.pkt_pool.specs.declared.packet.Packet.{Packet};
ghost use Rattle.cache_tags.specs.Line.{Line, new_line, padded, victim};
ghost use Rattle.pkt_pool.specs.Packet.{carried_bytes};
ghost use Rattle.gm_words.specs.Allowed.{MayPass, MayCome};
ghost use Rattle.cfg_tree.specs.Valid.{IsValidCache};
ghost use Rattle.gm_words.specs.declared.way.Way.TheVariants.{Pass};
ghost use Rattle.gm_words.specs.Entries.{served_entries};
ghost use Rattle.gm_words.specs.declared.answer.Answer.TheVariants.{Nothing};
ghost use Rattle.gm_cache.specs.State.{cache_start, base_of, line_in, find_register, packets_in};
ghost use Rattle.gm_cache.specs.Rule.{is_blocked, sending_above, sending_below, noting, requesting, evicting, installing, serving, serving_all, calling, access_in, back_in, cached_in, taking, is_cached, is_fill, fits, returning, fill_in, from_above, port_moved, sent_in, later, with_registers, offered, cache_step, cache_functional};
ghost use Rattle.gm_model.specs.Flows.{ask_in, hold_in, again_in};
ghost use Rattle.obj_core.specs.Lines.{line_info, line_bytes};
ghost use Rattle.obj_core.specs.Out.{Out, HasRoom};
ghost use Rattle.obj_cache.specs.Held.{IsTarget, is_full, targets_of, with_targets};
ghost use Rattle.obj_cache.specs.Step.{HasBoth, Goes, Wakes};

use crate::leaving::Leaving;
use crate::lines::Lines;
use crate::registers::Registers;
use cache_tags::Victim;
use ev_queue::{EventHandle, EventQueue};
use gc_base::limits::TOP;
use gc_base::{NoMemory, ObjId, PortNo, Tick};
use gm_model::{Act, Answer, CacheConfig, Cmd, Entry, Packet, Params, Wake, Way};
use obj_core::{Flow, LineInfo, Outbox};
use obj_server::{ServedBy, note_served};
use std::alloc::Global;

/// How many packets each of its two queues has places for.
const PLACES: u32 = 512;

/// The port of the requestor above, and that of what is below.
const ABOVE: PortNo = PortNo(0);

const BELOW: PortNo = PortNo(1);

/// A cache that is configured.
#[derive(Drop)]
pub struct Cache {
    object: ObjId,
    line: u32,
    ram: u32,
    timing: bool,
    draining: bool,
    /// The source of its own requests.
    source: u8,
    /// How many write-backs there are places for.
    writeq: u32,
    /// How long a packet takes through it, in ticks.
    latency: u64,
    lines: Lines,
    registers: Registers,
    answers: Flow,
    leaving: Leaving,
    /// Whether the requestor above was refused, and waits.
    waiter: bool,
    response: EventHandle<0>,
    request: EventHandle<10>,
    ghost short: { latency ≤ LATENCY_MAX },
    ghost sizes: { IsTrue ((line == 16) || (line == 32) || (line == 64)) },
    ghost whole: { lines.line ≡ line },
    ghost held: { registers.line ≡ lines.line },
    ghost above: { answers.places ≡ 512 },
    ghost below: { leaving.places ≡ 512 },
    ghost responses: { response.owner ≡ object.0 },
    ghost first: { response.slot ≡ 0 },
    ghost requests: { request.owner ≡ object.0 },
    ghost second: { request.slot ≡ 1 },
}

impl Cache {
    ghost use Rattle.obj_cache.specs.Shown.{shown, most_held, StaysAs};
    ghost use Rattle.obj_cache.specs.Commands.{with_timing, with_draining, is_cache_drained, cache_invalidated, nth_line};

    // Set-up.

    /// A cache at its start, in the atomic mode, that drains. Its own requests have this source; the handles are those of its two slots.
    pub fn start(
        alloc: Global,
        params: &Params,
        source: u8,
        config: &CacheConfig,
        response: EventHandle<0>,
        request: EventHandle<10>,
    ) -> Result<Cache, NoMemory>
        requires line { IsTrue ((params.now.line == 16) || (params.now.line == 32) || (params.now.line == 64)) }
        requires config { IsValidCache config.now }
        requires response { response.owner ≡ params.now.object.0 }
        requires first { response.slot ≡ 0 }
        requires request { request.owner ≡ params.now.object.0 }
        requires second { request.slot ≡ 1 }
        ensures { IfOk result (λ c. shown c ≡ cache_start params.now source config.now.sets config.now.ways config.now.mshrs config.now.targets
            config.now.writeq config.now.latency) }
    {
        Ok(Cache {
            object: params.object,
            line: params.line,
            ram: params.ram,
            timing: false,
            draining: true,
            source,
            writeq: config.writeq as u32,
            latency: config.latency,
            lines: Lines::new(alloc, config.sets as u32, config.ways as u32, params.line)?,
            registers: Registers::new(
                alloc,
                config.mshrs as u32,
                config.targets as u32,
                params.line,
            )?,
            answers: Flow::new(alloc, PLACES)?,
            leaving: Leaving::new(alloc, PLACES)?,
            waiter: false,
            response,
            request,
        })
    }

    // Queues.

    /// The tick at which a packet may be offered that comes in now.
    fn ready_at(&self, now: Tick) -> Tick
        requires { now ≤ TOP }
        ensures { result ≡ now + self.now.latency }
    {
        match now.after(self.latency) {
            Ok(tick) => tick,
            Err(_) => now,
        }
    }

    /// A response leaves above.
    fn send_above(&mut self, p: &Packet, now: Tick, q: &mut EventQueue)
        requires size { MayPass p.now }
        requires tick { now ≤ TOP }
        requires room { length self.old.answers.flow.items < 512 }
        requires handles { HasBoth q.old.table self.old.object.0 }
        ensures step { (o : Out) → Goes (sending_above p.now now) (shown self.old) (shown self.new) q.old q.new o o }
        ensures handles { q.new.table ≡ q.old.table }
        ensures stays { StaysAs self.old self.new }
        ensures lines { self.new.lines ≡ self.old.lines }
        ensures registers { self.new.registers ≡ self.old.registers }
        ensures leaving { self.new.leaving ≡ self.old.leaving }
        ensures few { length self.new.answers.flow.items ≤ length self.old.answers.flow.items + 1 }
    {
        let at = self.ready_at(now);
        self.answers.put(p, at, &self.response, q);
    }

    /// A request leaves below.
    fn send_below(&mut self, p: &Packet, now: Tick, q: &mut EventQueue)
        requires size { MayPass p.now }
        requires tick { now ≤ TOP }
        requires room { length self.old.leaving.flow.items < 512 }
        requires handles { HasBoth q.old.table self.old.object.0 }
        ensures step { (o : Out) → Goes (sending_below p.now now) (shown self.old) (shown self.new) q.old q.new o o }
        ensures handles { q.new.table ≡ q.old.table }
        ensures stays { StaysAs self.old self.new }
        ensures lines { self.new.lines ≡ self.old.lines }
        ensures registers { self.new.registers ≡ self.old.registers }
        ensures answers { self.new.answers ≡ self.old.answers }
    {
        let at = self.ready_at(now);
        self.leaving.put(p, at, &self.request, q);
    }

    /// A request of its own for a whole line is made, and leaves below.
    fn ask_below(
        &mut self,
        cmd: Cmd,
        addr: u64,
        bytes: &[u8; 64],
        now: Tick,
        q: &mut EventQueue,
        out: &mut Outbox,
    )
        requires tick { now ≤ TOP }
        requires room { length self.old.leaving.flow.items < 512 }
        requires number { out.old.next + 1 < 2 ^ 64 }
        requires handles { HasBoth q.old.table self.old.object.0 }
        ensures step { (front : List ℕ) → padded front ≡ bytes.now
            → Goes (requesting cmd addr front now) (shown self.old) (shown self.new) q.old q.new out.old out.new }
        ensures handles { q.new.table ≡ q.old.table }
        ensures stays { StaysAs self.old self.new }
        ensures lines { self.new.lines ≡ self.old.lines }
        ensures registers { self.new.registers ≡ self.old.registers }
        ensures answers { self.new.answers ≡ self.old.answers }
        ensures items { length out.new.items ≡ length out.old.items }
        ensures entries { length out.new.entries ≡ length out.old.entries }
    {
        let p = Packet {
            id: out.fresh(),
            src: self.source,
            cmd,
            addr,
            size: self.line as u8,
            bytes: *bytes,
            uncached: false,
            fault: false,
            stack: [0; 8],
            depth: 0,
        };
        self.send_below(&p, now, q);
    }

    // Lines.

    /// A line comes, and the one that leaves for it is written back if it is dirty.
    fn install(
        &mut self,
        addr: u64,
        p: &Packet,
        dirty: bool,
        now: Tick,
        q: &mut EventQueue,
        out: &mut Outbox,
    )
        requires aligned { addr % self.old.lines.line ≡ 0 }
        requires whole { length (carried_bytes p.now) ≡ self.old.lines.line }
        requires size { MayPass p.now }
        requires absent { line_in (shown self.old) addr ≡ None }
        requires tick { now ≤ TOP }
        requires room { length self.old.leaving.flow.items < 512 }
        requires number { out.old.next + 1 < 2 ^ 64 }
        requires handles { HasBoth q.old.table self.old.object.0 }
        ensures step { Goes (installing (new_line addr dirty (carried_bytes p.now)) now) (shown self.old) (shown self.new) q.old q.new out.old out.new }
        ensures handles { q.new.table ≡ q.old.table }
        ensures stays { StaysAs self.old self.new }
        ensures registers { self.new.registers ≡ self.old.registers }
        ensures answers { self.new.answers ≡ self.old.answers }
        ensures items { length out.new.items ≡ length out.old.items }
        ensures entries { length out.new.entries ≡ length out.old.entries }
    {
        if let Some(victim) = self.lines.install(addr, &p.bytes[..p.size as usize], dirty) {
            if victim.dirty {
                self.ask_below(Cmd::WriteBack, victim.addr, &victim.bytes, now, q, out);
            }
        }
    }

    /// The line at an address serves a request, if it is there.
    fn serve(&mut self, addr: u64, p: &Packet, now: Tick, q: &mut EventQueue, out: &mut Outbox)
        requires target { IsTarget self.old.lines.line addr p.now }
        requires tick { now ≤ TOP }
        requires room { length self.old.answers.flow.items < 512 }
        requires entries { length out.old.entries < 528 }
        requires handles { HasBoth q.old.table self.old.object.0 }
        ensures step { Goes (serving addr p.now now) (shown self.old) (shown self.new) q.old q.new out.old out.new }
        ensures handles { q.new.table ≡ q.old.table }
        ensures stays { StaysAs self.old self.new }
        ensures registers { self.new.registers ≡ self.old.registers }
        ensures leaving { self.new.leaving ≡ self.old.leaving }
        ensures few { length self.new.answers.flow.items ≤ length self.old.answers.flow.items + 1 }
        ensures items { length out.new.items ≡ length out.old.items }
        ensures entries { length out.new.entries ≤ length out.old.entries + 1 }
        ensures number { out.new.next ≡ out.old.next }
    {
        let mut response = *p;
        if !self.lines.serve(addr, &mut response) {
            return;
        }
        if response.is_response() {
            self.send_above(&response, now, q);
            note_served(p.cmd, &response, ServedBy::Ram, out);
        }
    }

    /// Those who wait for the line at an address are served in order, and nobody waits for it then.
    fn serve_waiting(&mut self, addr: u64, now: Tick, q: &mut EventQueue, out: &mut Outbox)
        requires few { length (targets_of addr self.old.registers.used) ≤ 16 }
        requires tick { now ≤ TOP }
        requires room { length self.old.answers.flow.items + length (targets_of addr self.old.registers.used) ≤ 512 }
        requires entries { length out.old.entries + length (targets_of addr self.old.registers.used) ≤ 528 }
        requires handles { HasBoth q.old.table self.old.object.0 }
        ensures step { Goes (λ m. with_registers (with_targets addr [] m.cache.registers) (serving_all addr (targets_of addr m.cache.registers) now m))
            (shown self.old) (shown self.new) q.old q.new out.old out.new }
        ensures none { targets_of addr self.new.registers.used ≡ [] }
        ensures handles { q.new.table ≡ q.old.table }
        ensures stays { StaysAs self.old self.new }
        ensures leaving { self.new.leaving ≡ self.old.leaving }
        ensures items { length out.new.items ≡ length out.old.items }
    {
        while let Some(p) = self.registers.take_first(addr) {
            self.serve(addr, &p, now, q, out);
        }
    }

    // Requests from above.

    /// Whether a request could need a register, a target or a write place, and there may be none.
    #[tactic(auto, unfolding(gm_cache::specs::Rule::is_blocked))]
    fn is_blocked(&self) -> bool
        ensures { result ≡ is_blocked (shown self.now) }
    {
        self.registers.is_full()
            || self.writeq.saturating_sub(self.leaving.backs()) < self.registers.used() + 1
    }

    /// Whether a packet is of memory, and lies in a line.
    fn is_cached(&self, p: &Packet) -> bool
        requires { MayPass p.now }
        ensures { result ≡ is_cached (shown self.now) p.now }
    {
        !p.uncached && self.lies_in_a_line(p)
    }

    /// Whether a request lies in a line.
    fn lies_in_a_line(&self, p: &Packet) -> bool
        requires { MayPass p.now }
        ensures { result ≡ fits self.now.lines.line p.now p.now.cmd }
    {
        let line = self.line as u64;
        match p.cmd {
            Cmd::Read | Cmd::Write => p.addr % line + p.size as u64 <= line,
            Cmd::WriteBack => p.addr % line == 0 && p.size as u64 == line,
            Cmd::ReadResp | Cmd::WriteResp => false,
        }
    }

    /// An access of a line: it is there; or it is on its way; or it is asked for.
    fn access(&mut self, addr: u64, p: &Packet, now: Tick, q: &mut EventQueue, out: &mut Outbox)
        requires target { IsTarget self.old.lines.line addr p.now }
        requires free { is_full self.old.registers ≡ false }
        requires tick { now ≤ TOP }
        requires above { length self.old.answers.flow.items < 512 }
        requires below { length self.old.leaving.flow.items < 512 }
        requires room { HasRoom out.old }
        requires handles { HasBoth q.old.table self.old.object.0 }
        ensures step { Goes (λ m. access_in addr p.now now (line_in m.cache addr) (find_register addr m.cache.registers) m)
            (shown self.old) (shown self.new) q.old q.new out.old out.new }
        ensures stays { StaysAs self.old self.new }
        ensures items { length out.new.items ≡ length out.old.items }
    {
        if self.lines.has(addr) {
            out.note(Entry::Hit {
                object: self.object,
            });
            self.serve(addr, p, now, q, out);
            return;
        }
        out.note(Entry::Miss {
            object: self.object,
        });
        if self.registers.has(addr) {
            self.registers.join(addr, p);
            return;
        }
        self.registers.start(addr, p);
        self.ask_below(Cmd::Read, addr, &[0; 64], now, q, out);
    }

    /// A write-back: its bytes are the line's; or it waits for the line; or it is the line.
    fn write_back(&mut self, addr: u64, p: &Packet, now: Tick, q: &mut EventQueue, out: &mut Outbox)
        requires target { IsTarget self.old.lines.line addr p.now }
        requires whole { length (carried_bytes p.now) ≡ self.old.lines.line }
        requires free { is_full self.old.registers ≡ false }
        requires tick { now ≤ TOP }
        requires above { length self.old.answers.flow.items < 512 }
        requires below { length self.old.leaving.flow.items < 512 }
        requires room { HasRoom out.old }
        requires handles { HasBoth q.old.table self.old.object.0 }
        ensures step { Goes (λ m. back_in addr p.now now (line_in m.cache addr) (find_register addr m.cache.registers) m)
            (shown self.old) (shown self.new) q.old q.new out.old out.new }
        ensures stays { StaysAs self.old self.new }
        ensures items { length out.new.items ≡ length out.old.items }
    {
        if self.lines.has(addr) {
            self.serve(addr, p, now, q, out);
            return;
        }
        if self.registers.has(addr) {
            self.registers.join(addr, p);
            return;
        }
        self.install(addr, p, true, now, q, out);
    }

    /// A packet that is taken; one that lies in no line passes.
    fn take(&mut self, p: &Packet, now: Tick, q: &mut EventQueue, out: &mut Outbox)
        requires size { MayPass p.now }
        requires free { is_full self.old.registers ≡ false }
        requires tick { now ≤ TOP }
        requires above { length self.old.answers.flow.items < 512 }
        requires below { length self.old.leaving.flow.items < 512 }
        requires room { HasRoom out.old }
        requires handles { HasBoth q.old.table self.old.object.0 }
        ensures step { Goes (λ m. taking p.now now (is_cached m.cache p.now) m) (shown self.old) (shown self.new) q.old q.new out.old out.new }
        ensures stays { StaysAs self.old self.new }
        ensures items { length out.new.items ≡ length out.old.items }
    {
        if !self.is_cached(p) {
            self.send_below(p, now, q);
            return;
        }
        let addr = p.addr - p.addr % self.line as u64;
        if p.is_write_back() {
            self.write_back(addr, p, now, q, out);
        } else {
            self.access(addr, p, now, q, out);
        }
    }

    /// A request that isn't taken: it is noted, and its requestor waits.
    fn refuse(&mut self, out: &mut Outbox) -> Answer
        requires { HasRoom out.old }
        ensures { (p : Packet) (now : ℕ) (q : Queue) → Wakes (from_above (shown self.old) out.old.next p now true) q out.old (shown self.new) q out.new result }
    {
        self.waiter = true;
        out.note(Entry::Refused {
            object: self.object,
        });
        Answer::Refused
    }

    /// Who waits is called where its request could be taken.
    fn call_waiter(&mut self, out: &mut Outbox)
        requires { length out.old.items < 272 }
        ensures { (q : Queue) → Goes calling (shown self.old) (shown self.new) q q out.old out.new }
    {
        if self.waiter && !self.is_blocked() {
            self.waiter = false;
            out.push(Act::CallRetry { port: ABOVE });
        }
    }

    // Responses from below.

    /// Whether a response is a whole line of memory.
    fn is_fill(&self, p: &Packet) -> bool
        requires { MayPass p.now }
        ensures { result ≡ is_fill (shown self.now) p.now }
    {
        let line = self.line as u64;
        !p.uncached && p.size as u64 == line && p.addr % line == 0
    }

    /// A response: a line that was asked for comes, and serves who waits for it; any other goes on above.
    fn returned(&mut self, p: &Packet, now: Tick, q: &mut EventQueue, out: &mut Outbox)
        requires size { MayPass p.now }
        requires tick { now ≤ TOP }
        requires few { length (packets_in (shown self.old)) ≤ most_held }
        requires room { HasRoom out.old }
        requires handles { HasBoth q.old.table self.old.object.0 }
        ensures step { Goes (λ m. returning p.now now (is_fill m.cache p.now) m) (shown self.old) (shown self.new) q.old q.new out.old out.new }
        ensures stays { StaysAs self.old self.new }
        ensures items { length out.new.items ≡ length out.old.items }
    {
        if self.is_fill(p) && self.registers.has(p.addr) {
            self.fill(p, now, q, out);
        } else {
            self.send_above(p, now, q);
        }
    }

    /// A line that was asked for comes, and serves who waits for it.
    fn fill(&mut self, p: &Packet, now: Tick, q: &mut EventQueue, out: &mut Outbox)
        requires fill { is_fill (shown self.old) p.now ≡ true }
        requires there { is_some (find_register p.now.addr self.old.registers.used) ≡ true }
        requires most { length (targets_of p.now.addr self.old.registers.used) ≤ 16 }
        requires size { MayPass p.now }
        requires tick { now ≤ TOP }
        requires few { length (packets_in (shown self.old)) ≤ most_held }
        requires room { HasRoom out.old }
        requires handles { HasBoth q.old.table self.old.object.0 }
        ensures step { Goes (λ m. fill_in p.now now (find_register p.now.addr m.cache.registers) m) (shown self.old) (shown self.new) q.old q.new out.old out.new }
        ensures stays { StaysAs self.old self.new }
        ensures items { length out.new.items ≡ length out.old.items }
    {
        if !self.lines.has(p.addr) {
            self.install(p.addr, p, false, now, q, out);
        }
        self.serve_waiting(p.addr, now, q, out);
        self.registers.close(p.addr);
    }

    // Wakes.

    /// At its event the first packet of a queue is offered.
    fn ask(&mut self, port: u8, out: &mut Outbox)
        requires { length out.old.items < 272 }
        ensures step { (q : Queue) → Goes (port_moved port (ask_in 0) (ask_in 1)) (shown self.old) (shown self.new) q q out.old out.new }
        ensures items { length out.new.items ≤ length out.old.items + 1 }
    {
        if port == 0 {
            self.answers.ask(ABOVE, out);
        } else {
            self.leaving.ask(BELOW, out);
        }
    }

    /// The offer of the first packet of a queue was refused.
    fn hold(&mut self, port: u8)
        ensures { (q : Queue) (o : Out) → Goes (port_moved port hold_in hold_in) (shown self.old) (shown self.new) q q o o }
    {
        if port == 0 {
            self.answers.hold();
        } else {
            self.leaving.hold();
        }
    }

    /// What waits in a queue is offered again.
    fn ask_again(&mut self, port: u8, out: &mut Outbox)
        requires { length out.old.items < 272 }
        ensures step { (q : Queue) → Goes (port_moved port (again_in 0) (again_in 1)) (shown self.old) (shown self.new) q q out.old out.new }
        ensures items { length out.new.items ≤ length out.old.items + 1 }
    {
        if port == 0 {
            self.answers.ask_again(ABOVE, out);
        } else {
            self.leaving.ask_again(BELOW, out);
        }
    }

    /// The first packet of a queue was taken: the next may be offered once it is ready.
    fn sent(&mut self, port: u8, now: Tick, q: &mut EventQueue)
        requires handles { HasBoth q.old.table self.old.object.0 }
        ensures { (o : Out) → Goes (sent_in port now) (shown self.old) (shown self.new) q.old q.new o o }
    {
        if port == 0 {
            let next = later(now, self.answers.next_ready());
            self.answers.drop_first(next, &self.response, q);
        } else {
            let next = later(now, self.leaving.next_ready());
            self.leaving.drop_first(next, &self.request, q);
        }
    }

    /// Its step rule.
    pub fn wake(&mut self, w: &Wake, now: Tick, q: &mut EventQueue, out: &mut Outbox) -> Answer
        requires wake { MayCome w.now }
        requires tick { now ≤ TOP }
        requires few { length (packets_in (shown self.old)) ≤ most_held }
        requires room { HasRoom out.old }
        requires handles { HasBoth q.old.table self.old.object.0 }
        ensures { Wakes (cache_step (shown self.old) out.old.next w.now now) q.old out.old (shown self.new) q.new out.new result }
    {
        match w {
            Wake::Offer { port, pkt } => self.offered(*port, pkt, now, q, out),
            Wake::Event { slot } => {
                self.ask(slot.0, out);
                self.ended(out)
            }
            Wake::Taken { port } => {
                self.sent(port.0, now, q);
                self.ended(out)
            }
            Wake::Refused { port } => {
                self.hold(port.0);
                self.ended(out)
            }
            Wake::Retry { port } => {
                self.ask_again(port.0, out);
                self.ended(out)
            }
            Wake::Line { .. } | Wake::AtomicDone { .. } => Answer::Nothing,
        }
    }

    /// The end of a wake that has no answer: who waits is called.
    fn ended(&mut self, out: &mut Outbox) -> Answer
        requires { length out.old.items < 272 }
        ensures called { (q : Queue) → Goes calling (shown self.old) (shown self.new) q q out.old out.new }
        ensures answer { result ≡ Nothing }
    {
        self.call_waiter(out);
        Answer::Nothing
    }

    /// A packet is offered: a request above, which is refused where the cache is blocked, or a response below.
    fn offered(
        &mut self,
        port: PortNo,
        p: &Packet,
        now: Tick,
        q: &mut EventQueue,
        out: &mut Outbox,
    ) -> Answer
        requires size { MayPass p.now }
        requires tick { now ≤ TOP }
        requires few { length (packets_in (shown self.old)) ≤ most_held }
        requires room { HasRoom out.old }
        requires handles { HasBoth q.old.table self.old.object.0 }
        ensures { Wakes (offered (shown self.old) out.old.next port.0 p.now now) q.old out.old (shown self.new) q.new out.new result }
    {
        if port.0 != 0 {
            self.returned(p, now, q, out);
        } else if self.is_blocked() {
            return self.refuse(out);
        } else {
            self.take(p, now, q, out);
        }
        self.call_waiter(out);
        Answer::Taken
    }

    // Packets without time.

    /// A packet that is passed at once goes on below, and takes no time.
    pub fn pass(&self) -> Way
        ensures { result ≡ Pass (record { 0 = 1 }) 0 }
    {
        Way::Pass {
            port: BELOW,
            latency: 0,
        }
    }

    /// Answers a read without time by the newest bytes that it has of its address, if it has any.
    pub fn read(&self, p: &mut Packet)
        requires { MayPass p.old }
        ensures { p.new ≡ cache_functional (shown self.now) p.old }
    {
        if !self.lines.read(p) && !self.registers.read(p) {
            self.leaving.read(p);
        }
    }

    // Mode, drain and resume.

    /// Sets the mode.
    pub fn set_timing(&mut self, timing: bool)
        ensures { shown self.new ≡ with_timing timing (shown self.old) }
    {
        self.timing = timing;
    }

    /// Asks it to drain, or lets it go on.
    pub fn set_draining(&mut self, draining: bool)
        ensures { shown self.new ≡ with_draining draining (shown self.old) }
    {
        self.draining = draining;
    }

    /// Whether it holds no packet, and nobody waits.
    pub fn is_drained(&self) -> bool
        ensures { result ≡ is_cache_drained (shown self.now) }
    {
        self.answers.is_empty()
            && self.leaving.is_empty()
            && self.registers.is_empty()
            && !self.waiter
    }

    // Lines.

    /// What is told of the n-th line of a set, the most recently used first, and its bytes.
    pub fn line(&self, set: u32, n: u32, bytes: &mut [u8; 64]) -> Option<LineInfo>
        ensures line { result ≡ option_map line_info (nth_line (shown self.now) set n) }
        ensures bytes { bytes.new ≡ line_bytes (nth_line (shown self.now) set n) bytes.old }
    {
        self.lines.line(set, n, bytes)
    }

    /// Forgets all lines, dirty ones too.
    pub fn invalidate(&mut self)
        ensures { shown self.new ≡ cache_invalidated (shown self.old) }
    {
        self.lines.clear();
    }
}

/// The later of two ticks, of which the second may lack.
fn later(now: Tick, ready: Option<Tick>) -> Tick
    ensures { result ≡ later now (unwrap_or ready 0) }
{
    match ready {
        Some(ready) if now < ready => ready,
        _ => now,
    }
}
