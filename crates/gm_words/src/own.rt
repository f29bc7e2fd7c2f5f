// What a part is configured with, by its kind.
ghost use Rattle.std.specs.Prelude.{◌≡◌, IfOk};

use crate::kind::Kind;
use crate::port_use::{PortUse, used, xbar_classes};
use gc_base::NoMemory;
use std::alloc::Global;

/// What a part is configured with, by its kind. Latencies and periods are in ticks.
#[derive(Clone, Copy, Debug, PartialEq, Eq)]
pub enum Own {
    AtomicCpu {
        period: u64,
    },
    TimingCpu {
        period: u64,
    },
    Xbar {
        latency: u64,
        ports: [PortUse; 8],
    },
    Cache {
        /// The source of its own requests: 4, 5 or 6.
        source: u8,
        sets: u64,
        ways: u64,
        mshrs: u64,
        targets: u64,
        writeq: u64,
        latency: u64,
    },
    Mem {
        latency: u64,
        queue: u64,
    },
    Uart {
        latency: u64,
        chartime: u64,
    },
    Timer {
        latency: u64,
        period: u64,
    },
    Exit {
        latency: u64,
    },
    Dma {
        latency: u64,
        period: u64,
        window: u64,
    },
}

impl Own {
    ghost use Rattle.gm_words.specs.Kind.{kind_of_own};
    ghost use Rattle.gm_words.specs.Platform.{own_classes};

    /// The kind that it configures.
    pub fn kind(&self) -> Kind
        ensures { result ≡ kind_of_own self.now }
    {
        match self {
            Own::AtomicCpu { .. } => Kind::AtomicCpu,
            Own::TimingCpu { .. } => Kind::TimingCpu,
            Own::Xbar { .. } => Kind::Xbar,
            Own::Cache { .. } => Kind::Cache,
            Own::Mem { .. } => Kind::Mem,
            Own::Uart { .. } => Kind::Uart,
            Own::Timer { .. } => Kind::Timer,
            Own::Exit { .. } => Kind::Exit,
            Own::Dma { .. } => Kind::Dma,
        }
    }

    /// The classes of a part's slots, from slot 0 on. At one tick the event of a lower class is served first.
    pub fn classes(&self, alloc: Global) -> Result<Vec<u8>, NoMemory>
        ensures { IfOk result (λ cs. cs.items ≡ own_classes self.now) }
    {
        match self {
            Own::AtomicCpu { .. } | Own::TimingCpu { .. } => Ok(Vec::from_array(alloc, [50])?),
            Own::Mem { .. } | Own::Exit { .. } => Ok(Vec::from_array(alloc, [30])?),
            Own::Uart { .. } | Own::Timer { .. } => Ok(Vec::from_array(alloc, [30, 30])?),
            Own::Xbar { ports, .. } => xbar_classes(alloc, used(ports)),
            Own::Cache { .. } | Own::Dma { .. } => Ok(Vec::new(alloc)),
        }
    }
}
