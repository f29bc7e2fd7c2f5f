// A sink over a stream of the system.
ghost use Rattle.std.specs.Prelude.{◌≡◌, ◌≤◌, None, OnOk, OnErr, is_err};
ghost use Rattle.std.specs.Io.KnownBytes.{Appends};
ghost use Rattle.gc_outside.specs.Faults.{Rose, CountsFaultIf};

use crate::faults::Failed;
use crate::sink::Sink;
use std::io::Write;
use std::marker::Model;

/// Writes to a stream, as standard output or standard error, with no buffer of its own. It tells nothing of what it took.
///
/// This is the trusted edge: what reaches the system is as the system's `write` does it.
#[derive(Drop)]
pub struct StdSink<W: Write + Drop> {
    stream: W,
    faults: u64,
}

impl<W: Write + Drop> Model for StdSink<W> {
    ghost use Rattle.gc_outside.specs.StdSink.{StdSinkState};

    ghost Value = { StdSinkState W };

    ghost view = { λ s. record { stream = s.stream; faults = s.faults } };
}

impl<W: Write + Drop> StdSink<W> {
    /// A sink over the stream, with no fault counted.
    pub fn new(w: W) -> StdSink<W>
        ensures { result ≡ record { stream = w; faults = 0 } }
    {
        StdSink {
            stream: w,
            faults: 0,
        }
    }
}

impl<W: Write + Drop> Sink for StdSink<W> {
    ghost taken = { λ _. None };

    ghost faults = { λ s. s.faults };

    fn emit(&mut self, bytes: &[u8]) -> Result<(), Failed>
        // Where the stream is one whose bytes are known, it gained these.
        ensures written { OnOk result (Appends (W.contents self.old.stream) (W.contents self.new.stream) bytes.now) }

        // As of every sink.
        ensures cause { OnErr result (Rose self.old.faults self.new.faults) }
        ensures count { self.old.faults ≤ self.new.faults }
        ensures counted { CountsFaultIf (is_err result) self.old.faults self.new.faults }
    {
        match self.stream.write_all(bytes) {
            Ok(()) => Ok(()),
            Err(_) => {
                self.faults = self.faults.saturating_add(1);
                Err(Failed)
            }
        }
    }
}

#[cfg(test)]
mod tests {
    use super::*;
    use std::io::{self, Cursor};
    use std::test::Fail;

    // A writer that fails.
    #[derive(Drop)]
    struct Broken;

    impl Write for Broken {
        fn write(&mut self, _: &[u8]) -> io::Result<usize> {
            Err(io::Error::from(io::ErrorKind::Other))
        }

        fn flush(&mut self) -> io::Result<()> {
            Ok(())
        }
    }

    // A writer that takes nothing.
    #[derive(Drop)]
    struct Stuck;

    impl Write for Stuck {
        fn write(&mut self, _: &[u8]) -> io::Result<usize> {
            Ok(0)
        }

        fn flush(&mut self) -> io::Result<()> {
            Ok(())
        }
    }

    #[test]
    fn std_sink_counts_faults(rt: HostRuntime) -> Result<(), Fail> {
        let mut good = StdSink::new(Cursor::new(Vec::new(rt.alloc())));
        assert!(rt; good.emit(b"123").is_ok());
        assert_eq!(rt; good.stream.get_ref().as_slice(), b"123".as_slice());
        assert_eq!(rt; good.faults, 0);
        let mut broken = StdSink::new(Broken);
        assert!(rt; broken.emit(b"123").is_err());
        assert_eq!(rt; broken.faults, 1);
        let mut stuck = StdSink::new(Stuck);
        assert!(rt; stuck.emit(b"123").is_err());
        assert_eq!(rt; stuck.faults, 1);
        Ok(())
    }
}
