// How the UART serves a request.
ghost use Rattle.std.specs.Prelude.{◌≡◌, ◌+◌, ◌-◌, ◌≤◌, true, if◌then◌else◌};
ghost use Rattle.gm_model.specs.ObjState.{Uart as UartPart};
ghost use Rattle.gm_model.specs.Uart.{serve_uart, line_status};
ghost use Rattle.pkt_pool.specs.declared.cmd.Cmd.TheVariants.{Read, Write};
ghost use Rattle.obj_core.specs.Out.{HasRoom, extended};
ghost use Rattle.obj_server.specs.Device.{own_changes};
ghost use Rattle.obj_uart.specs.Registers.{read_value, after_read};
ghost use Rattle.obj_uart.specs.State.{uart_of};
ghost use Rattle.rv_step.specs.Flat.{in_uart, uart_base};

use crate::device::UartDevice;
use gc_base::Tick;
use gc_base::limits::TOP;
use gm_model::Packet;
use gm_model::platform::UART_BASE;
use obj_core::Outbox;
use obj_server::{OwnEvent, ServedBy, answer_read, answer_write, refuse};

/// How many registers there are, of one byte each.
const REGISTERS: u64 = 8;

/// The register of the bytes that are sent and received.
const DATA: u64 = 0;

/// The register of the line status.
const LINE_STATUS: u64 = 5;

/// The bit of the line status that says that input waits.
const INPUT_WAITS: u8 = 1;

/// The bit of the line status that says that a byte can be sent.
const CAN_SEND: u8 = 32;

/// The offset of the register that a packet is for, if it is for one.
fn offset(p: &Packet) -> Option<u64>
    ensures { result ≡ (if in_uart p.now.addr p.now.size then Some (p.now.addr - uart_base) else None) }
{
    if p.size == 1 && UART_BASE <= p.addr && p.addr < UART_BASE + REGISTERS {
        Some(p.addr - UART_BASE)
    } else {
        None
    }
}

impl UartDevice {
    // Reads.

    /// Serves a read.
    pub(crate) fn read(&mut self, p: &mut Packet, out: &mut Outbox)
        requires size { p.old.size ≤ 64 }
        requires read { p.old.cmd ≡ Read }
        requires room { HasRoom out.old }
        ensures device { UartPart (uart_of self.new) ≡ (serve_uart (uart_of self.old) p.old 0 Read (in_uart p.old.addr p.old.size)).device }
        ensures response { p.new ≡ (serve_uart (uart_of self.old) p.old 0 Read (in_uart p.old.addr p.old.size)).response }
        ensures out { out.new ≡ extended out.old (serve_uart (uart_of self.old) p.old 0 Read (in_uart p.old.addr p.old.size)).acts
            (serve_uart (uart_of self.old) p.old 0 Read (in_uart p.old.addr p.old.size)).entries out.old.next }
    {
        match offset(p) {
            Some(offset) => {
                let byte = self.read_register(offset);
                answer_read(p, &[byte], ServedBy::Device, out);
            }
            None => refuse(p, out),
        }
    }

    /// What a register gives that is read.
    fn read_register(&mut self, offset: u64) -> u8
        ensures byte { result ≡ read_value (uart_of self.old) offset }
        ensures device { uart_of self.new ≡ after_read (uart_of self.old) offset }
    {
        match offset {
            DATA => self.input.pop_front().unwrap_or(0),
            LINE_STATUS => self.line_status(),
            _ => 0,
        }
    }

    /// The line status: bit 0 says that input waits, and bit 5 that a byte can be sent.
    fn line_status(&self) -> u8
        ensures { result ≡ line_status (uart_of self.now) }
    {
        let input = if self.input.is_empty() {
            0
        } else {
            INPUT_WAITS
        };
        let free = if self.busy { 0 } else { CAN_SEND };
        input + free
    }

    // Writes.

    /// Serves a write. It answers when the byte is sent, if one is.
    pub(crate) fn write(&mut self, p: &mut Packet, now: Tick, out: &mut Outbox) -> OwnEvent
        requires size { p.old.size ≤ 64 }
        requires write { p.old.cmd ≡ Write }
        requires tick { now ≤ TOP }
        requires room { HasRoom out.old }
        ensures device { UartPart (uart_of self.new) ≡ (serve_uart (uart_of self.old) p.old now Write (in_uart p.old.addr p.old.size)).device }
        ensures response { p.new ≡ (serve_uart (uart_of self.old) p.old now Write (in_uart p.old.addr p.old.size)).response }
        ensures changes { own_changes result ≡ (serve_uart (uart_of self.old) p.old now Write (in_uart p.old.addr p.old.size)).changes }
        ensures out { out.new ≡ extended out.old (serve_uart (uart_of self.old) p.old now Write (in_uart p.old.addr p.old.size)).acts
            (serve_uart (uart_of self.old) p.old now Write (in_uart p.old.addr p.old.size)).entries out.old.next }
    {
        match offset(p) {
            Some(DATA) => {
                answer_write(p, ServedBy::Device, out);
                OwnEvent::Comes { at: self.send(now) }
            }
            Some(_) => {
                answer_write(p, ServedBy::Device, out);
                OwnEvent::Stays
            }
            None => {
                refuse(p, out);
                OwnEvent::Stays
            }
        }
    }

    /// Sends a byte, which keeps the UART busy until the tick that is answered.
    /// What is sent is noted with the request; the kernel hands it to the console.
    fn send(&mut self, now: Tick) -> Tick
        requires { now ≤ TOP }
        ensures tick { result ≡ now + self.old.chartime }
        ensures device { uart_of self.new ≡ record (uart_of self.old) { busy = true } }
    {
        self.busy = true;
        match now.after(self.chartime) {
            Ok(at) => at,
            Err(_) => now,
        }
    }
}
