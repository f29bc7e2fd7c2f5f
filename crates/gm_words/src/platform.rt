// The platform as one table: the parts of a machine in the order of their paths.
ghost use Rattle.std.specs.Prelude.{◌≡◌, ◌+◌, ◌-◌, ◌≤◌, map, IfOk};
ghost use Rattle.cfg_tree.specs.Valid.{IsValidConfig};
ghost use Rattle.gm_words.specs.Platform.{platform, range_of, port_at, out_to, corebus_ports, membus_ports};
ghost use Rattle.gm_words.specs.Shown.{part_shown, range_shown, end_shown};

use crate::own::Own;
use crate::port_use::PortUse;
use cfg_tree::Config;
use gc_base::{NoMemory, ObjId, PortNo};
use std::alloc::Global;

/// The first address of RAM.
pub const RAM_BASE: u64 = 0x8000_0000;

/// The first address of the UART.
pub const UART_BASE: u64 = 0x1000_0000;

/// The first address of the timer.
pub const TIMER_BASE: u64 = 0x0200_0000;

/// The first address of the exit device.
pub const EXIT_BASE: u64 = 0x0010_0000;

/// How many bytes a device's addresses take.
pub const DEVICE_BYTES: u64 = 0x1000;

/// How many bytes the timer's addresses take.
pub const TIMER_BYTES: u64 = 0x1_0000;

/// How many parts a machine has.
pub const PARTS: usize = 8;

/// The addresses from the first to the last.
#[derive(Clone, Copy, Debug, PartialEq, Eq)]
pub struct Range {
    pub first: u64,
    pub last: u64,
}

/// A port of a part.
#[derive(Clone, Copy, Debug, PartialEq, Eq)]
pub struct End {
    pub part: ObjId,
    pub port: PortNo,
}

/// A part of a machine: its place in the table is its number.
#[derive(Drop)]
pub struct Part {
    pub path: &'static str,
    /// What it is configured with, by its kind.
    pub own: Own,
    /// The addresses that it serves, if it serves any.
    pub range: Option<Range>,
    /// For each of its ports the peer.
    pub peers: Vec<End>,
    /// For each port of a part whose packets are passed at once where they come in.
    pub ways: Vec<End>,
}

/// So many bytes from a first address on.
fn bytes_from(first: u64, bytes: u64) -> Range
    requires least { 1 ≤ bytes }
    requires most { first + bytes ≤ 4294967296 }
    ensures { range_shown result ≡ range_of first bytes }
{
    Range {
        first,
        last: first + bytes - 1,
    }
}

/// Requests to a range go out.
fn out_to(range: Range) -> PortUse
    ensures { result ≡ out_to (range_shown range) }
{
    PortUse::Destination {
        first: range.first,
        last: range.last,
    }
}

/// The ports of `corebus`: fetches, data accesses, a DMA engine's, which there is none yet, and one for all addresses.
fn corebus_ports() -> [PortUse; 8]
    ensures { result ≡ corebus_ports }
{
    let everywhere = PortUse::Destination {
        first: 0,
        last: u64::MAX,
    };
    [
        PortUse::Source,
        PortUse::Source,
        PortUse::Unused,
        everywhere,
        PortUse::Unused,
        PortUse::Unused,
        PortUse::Unused,
        PortUse::Unused,
    ]
}

/// The ports of `membus`: its source, memory, UART, timer, exit device, and a DMA engine's registers, which there are none yet.
fn membus_ports(c: &Config) -> [PortUse; 8]
    requires { IsValidConfig c.now }
    ensures { result ≡ membus_ports c.now }
{
    [
        PortUse::Source,
        out_to(bytes_from(RAM_BASE, c.system_ram)),
        out_to(bytes_from(UART_BASE, DEVICE_BYTES)),
        out_to(bytes_from(TIMER_BASE, TIMER_BYTES)),
        out_to(bytes_from(EXIT_BASE, DEVICE_BYTES)),
        PortUse::Destination { first: 1, last: 0 },
        PortUse::Unused,
        PortUse::Unused,
    ]
}

/// A port of a part, by their numbers.
fn port_at(part: u8, port: u8) -> End
    ensures { end_shown result ≡ port_at part port }
{
    End {
        part: ObjId(part),
        port: PortNo(port),
    }
}

/// The parts of the machine of a configuration, in the order of their paths. A port that has no peer is its own.
pub fn parts(alloc: Global, c: &Config) -> Result<Vec<Part>, NoMemory>
    requires { IsValidConfig c.now }
    ensures { IfOk result (λ ps. map part_shown ps.items ≡ platform c.now) }
{
    let mut parts = Vec::with_capacity(alloc, PARTS)?;
    parts.push_reserved(Part {
        path: "acpu",
        own: Own::AtomicCpu {
            period: c.cpu_period,
        },
        range: None,
        peers: Vec::new(alloc),
        ways: Vec::from_array(alloc, [port_at(1, 0), port_at(1, 1)])?,
    });
    parts.push_reserved(Part {
        path: "corebus",
        own: Own::Xbar {
            latency: c.corebus_latency,
            ports: corebus_ports(),
        },
        range: None,
        peers: Vec::from_array(
            alloc,
            [port_at(5, 0), port_at(5, 1), port_at(1, 2), port_at(4, 0)],
        )?,
        ways: Vec::new(alloc),
    });
    parts.push_reserved(Part {
        path: "exit",
        own: Own::Exit {
            latency: c.exit_latency,
        },
        range: Some(bytes_from(EXIT_BASE, DEVICE_BYTES)),
        peers: Vec::from_array(alloc, [port_at(4, 4)])?,
        ways: Vec::new(alloc),
    });
    parts.push_reserved(Part {
        path: "mem",
        own: Own::Mem {
            latency: c.mem_latency,
            queue: c.mem_queue,
        },
        range: Some(bytes_from(RAM_BASE, c.system_ram)),
        peers: Vec::from_array(alloc, [port_at(4, 1)])?,
        ways: Vec::new(alloc),
    });
    parts.push_reserved(Part {
        path: "membus",
        own: Own::Xbar {
            latency: c.membus_latency,
            ports: membus_ports(c),
        },
        range: None,
        peers: Vec::from_array(
            alloc,
            [
                port_at(1, 3),
                port_at(3, 0),
                port_at(7, 0),
                port_at(6, 0),
                port_at(2, 0),
                port_at(4, 5),
            ],
        )?,
        ways: Vec::new(alloc),
    });
    parts.push_reserved(Part {
        path: "tcpu",
        own: Own::TimingCpu {
            period: c.cpu_period,
        },
        range: None,
        peers: Vec::from_array(alloc, [port_at(1, 0), port_at(1, 1)])?,
        ways: Vec::new(alloc),
    });
    parts.push_reserved(Part {
        path: "timer",
        own: Own::Timer {
            latency: c.timer_latency,
            period: c.timer_period,
        },
        range: Some(bytes_from(TIMER_BASE, TIMER_BYTES)),
        peers: Vec::from_array(alloc, [port_at(4, 3)])?,
        ways: Vec::new(alloc),
    });
    parts.push_reserved(Part {
        path: "uart",
        own: Own::Uart {
            latency: c.uart_latency,
            chartime: c.uart_chartime,
        },
        range: Some(bytes_from(UART_BASE, DEVICE_BYTES)),
        peers: Vec::from_array(alloc, [port_at(4, 2)])?,
        ways: Vec::new(alloc),
    });
    Ok(parts)
}
