// What kinds of parts there are.
ghost use Rattle.std.specs.Prelude.{◌≡◌};
ghost use Rattle.gm_words.specs.Kind.{kind_name};

use std::fmt::{self, Write};

/// What kinds of parts there are, in the order in which a missing one is reported.
#[derive(Clone, Copy, Debug, PartialEq, Eq, PartialOrd, Ord)]
pub enum Kind {
    AtomicCpu,
    TimingCpu,
    Xbar,
    Cache,
    Mem,
    Uart,
    Timer,
    Exit,
    Dma,
}

impl Kind {
    /// The name that it is reported by.
    pub fn name(self) -> &'static str
        ensures { result.now ≡ kind_name self }
    {
        match self {
            Kind::AtomicCpu => "atomic",
            Kind::TimingCpu => "timing",
            Kind::Xbar => "xbar",
            Kind::Cache => "cache",
            Kind::Mem => "mem",
            Kind::Uart => "uart",
            Kind::Timer => "timer",
            Kind::Exit => "exit",
            Kind::Dma => "dma",
        }
    }
}

impl fmt::Display for Kind {
    fn fmt<W: Write>(&self, f: &mut fmt::Formatter<W>) -> fmt::Result {
        f.write_str(self.name())
    }
}

#[cfg(test)]
mod tests {
    use super::*;

    // By the list of kinds, in which a missing part is reported.
    #[test]
    fn kinds_stand_in_order_with_their_names(rt: HostRuntime) -> Result<(), std::test::Fail> {
        let names = [
            (Kind::AtomicCpu, "atomic"),
            (Kind::TimingCpu, "timing"),
            (Kind::Xbar, "xbar"),
            (Kind::Cache, "cache"),
            (Kind::Mem, "mem"),
            (Kind::Uart, "uart"),
            (Kind::Timer, "timer"),
            (Kind::Exit, "exit"),
            (Kind::Dma, "dma"),
        ];
        let mut before = None;
        for (kind, name) in names {
            assert_eq!(rt; format!(in rt.alloc(); "{kind}")?.as_str(), name);
            assert!(rt; before < Some(kind), "{name} comes later");
            before = Some(kind);
        }
        Ok(())
    }
}
