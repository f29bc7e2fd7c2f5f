// The UART: one byte at a time is sent, and up to 256 bytes of input wait.
// Modelled are the data register and two bits of the line status of the 16550, as its manual names them. How long a byte
// takes is this project's own rule. Not modelled: interrupts, the divisor, and the other registers, which read as 0.
ghost use Rattle.std.specs.Prelude.{◌≡◌, ◌≤◌, refl};
ghost use Rattle.std.specs.VecDeque.{deque_capacity};
ghost use Rattle.gc_base.specs.declared.limits.TheConstants.{LATENCY_MAX};
ghost use Rattle.gm_words.specs.declared.kind.Kind.TheVariants as kinds;

use gc_base::limits::UART_INPUT_MAX;
use gc_base::{NoMemory, Tick};
use gm_model::{Cmd, Kind, Own, Packet, Params};
use obj_core::{Flow, Outbox};
use obj_server::{DEVICE_PLACES, Device, OwnEvent, Served, Start};
use std::alloc::Global;
use std::collections::VecDeque;

/// The UART as a part.
pub type Uart = Served<UartDevice>;

/// The UART: it sends one byte at a time, and keeps up to 256 bytes of input.
#[derive(Drop)]
pub struct UartDevice {
    /// How long it takes to send a byte, in ticks.
    pub(crate) chartime: u64,
    pub(crate) busy: bool,
    pub(crate) input: VecDeque<u8>,
    ghost short: { chartime ≤ LATENCY_MAX },
    ghost room: { 256 ≤ deque_capacity input },
}

impl Device for UartDevice {
    ghost use Rattle.gm_model.specs.ObjState.{Uart as UartPart};
    ghost use Rattle.obj_uart.specs.State.{uart_of};

    ghost shown = { λ u. UartPart (uart_of u) };

    ghost kind = { kinds.Uart };

    fn kind() -> Kind {
        Kind::Uart
    }

    // Set-up.

    fn start(alloc: Global, params: &Params) -> Result<Start<UartDevice>, NoMemory> {
        let Own::Uart { latency, chartime } = params.own else {
            unreachable!()
        };
        let input = VecDeque::with_capacity(alloc, UART_INPUT_MAX)?;
        Ok(Start {
            latency,
            places: DEVICE_PLACES,
            device: UartDevice {
                chartime,
                busy: false,
                input,
            },
        })
    }

    // Requests, responses and own events.

    fn serve(&mut self, p: &mut Packet, now: Tick, out: &mut Outbox) -> OwnEvent {
        match p.cmd {
            Cmd::Read => {
                self.read(p, out);
                OwnEvent::Stays
            }
            Cmd::Write => self.write(p, now, out),
            Cmd::WriteBack | Cmd::ReadResp | Cmd::WriteResp => OwnEvent::Stays,
        }
    }

    /// The byte is sent.
    fn event(&mut self, _out: &mut Outbox) {
        self.busy = false;
    }

    // Functional access and own bytes: it has none.

    fn functional(&self, _p: &mut Packet, _queue: &Flow) {}

    fn own_bytes(&self, _at: u64, _to: &mut [u8]) -> bool {
        false
    }

    fn put_own_bytes(&mut self, _at: u64, _from: &[u8]) -> bool {
        false
    }

    // Exit and input: it has the input.

    fn exit_code(&self) -> Option<u32> {
        None
    }

    fn input(&mut self, byte: u8) -> bool {
        if self.input.len() < UART_INPUT_MAX {
            self.input.push_back_reserved(byte);
            true
        } else {
            false
        }
    }

    ghost shows_kind = { λ u. refl };
}
