// Tables of calls, with what they tell and the orders that the rule gives, worked out by hand.
ghost use Rattle.std.specs.Prelude.{◌≡◌, ◌<◌, ◌≤◌};

use super::*;
use std::alloc::AllocError;
use std::process::Abort;
use std::test::Fail;

/// A cache whose lines have so many bytes.
#[derive(Drop)]
struct Rig {
    tags: Tags,
    line: u32,
    ghost size: { tags.line ≡ line },
    ghost some: { 0 < line },
    ghost small: { line ≤ 64 },
}

/// A call on the line that an address lies in, or on all lines.
#[derive(Clone, Copy, Debug)]
enum Call {
    /// Its place.
    Find(u64),
    /// It is used.
    Use(u64),
    /// Its byte at the address.
    Read(u64),
    /// That byte is written.
    Write(u64, u8),
    /// It comes, with this in each byte.
    Clean(u64, u8),
    Dirty(u64, u8),
    Clear,
}

impl Rig {
    fn new(
        rt: &impl Abort,
        alloc: Global,
        sets: u32,
        ways: u32,
        line: u32,
    ) -> Result<Rig, NoMemory> {
        assert!(rt; sets.is_power_of_two());
        assert!(rt; 0 < ways && ways <= WAYS_MAX);
        assert!(rt; line == 16 || line == 32 || line == 64);
        let tags = Tags::new(alloc, sets, ways, line)?;
        Ok(Rig { tags, line })
    }

    /// What the call tells.
    fn call(&mut self, alloc: Global, call: Call) -> Result<String, AllocError> {
        match call {
            Call::Find(addr) => self.find(alloc, addr),
            Call::Use(addr) => self.touch(alloc, addr),
            Call::Read(addr) => self.read(alloc, addr),
            Call::Write(addr, byte) => self.write(alloc, addr, byte),
            Call::Clean(addr, byte) => told(alloc, self.take(addr, byte, false)),
            Call::Dirty(addr, byte) => told(alloc, self.take(addr, byte, true)),
            Call::Clear => {
                self.tags.clear();
                Ok(String::new(alloc))
            }
        }
    }

    fn find(&self, alloc: Global, addr: u64) -> Result<String, AllocError> {
        let Some(at) = self.tags.find(addr) else {
            return format!(in alloc; "miss");
        };
        let set = at.set;
        let way = at.way;
        format!(in alloc; "{set}.{way}")
    }

    fn touch(&mut self, alloc: Global, addr: u64) -> Result<String, AllocError> {
        let Some(at) = self.tags.find(addr) else {
            return format!(in alloc; "miss");
        };
        self.tags.touch(at);
        format!(in alloc; "used")
    }

    fn read(&self, alloc: Global, addr: u64) -> Result<String, AllocError> {
        let Some(at) = self.tags.find(addr) else {
            return format!(in alloc; "miss");
        };
        let byte = self.tags.bytes(at)[(addr % self.line as u64) as usize];
        format!(in alloc; "{byte}")
    }

    fn write(&mut self, alloc: Global, addr: u64, byte: u8) -> Result<String, AllocError> {
        let Some(at) = self.tags.find(addr) else {
            return format!(in alloc; "miss");
        };
        let offset = (addr % self.line as u64) as u32;
        self.tags.write(at, offset, &[byte]);
        format!(in alloc; "written")
    }

    /// The line that leaves. No line leaves as one comes that is there.
    fn take(&mut self, addr: u64, byte: u8, dirty: bool) -> Option<Victim> {
        let bytes = [byte; 64];
        if addr % self.line as u64 != 0 || self.tags.find(addr).is_some() {
            return None;
        }
        self.tags.install(addr, &bytes[..self.line as usize], dirty)
    }

    /// The lines of a set in their order, each as its address and way, and with a star where it is dirty.
    fn order(&self, alloc: Global, set: u32) -> Result<String, AllocError> {
        let mut text = String::new(alloc);
        for n in 0..17u32 {
            if let Some(line) = self.tags.nth(set, n) {
                let star = if line.dirty { "*" } else { "" };
                write!(text, " {}.{}{}", line.addr, line.at.way, star)?;
            }
        }
        Ok(text)
    }
}

/// A line that left, as its address, a star where it is dirty, its first and fourth byte, and the last of 64.
fn told(alloc: Global, left: Option<Victim>) -> Result<String, AllocError> {
    let Some(left) = left else {
        return format!(in alloc; "free");
    };
    let addr = left.addr;
    let star = if left.dirty { "*" } else { "" };
    let first = left.bytes[0];
    let fourth = left.bytes[3];
    let last = left.bytes[63];
    format!(in alloc; "{addr}{star} {first} {fourth} {last}")
}

// By the rule, with two sets of two ways and 16 bytes in a line.
#[test]
fn keeps_lines_in_the_order_of_their_use(rt: HostRuntime) -> Result<(), Fail> {
    let mut rig = Rig::new(&rt, rt.alloc(), 2, 2, 16)?;
    for (call, want, set, order) in [
        (Call::Find(0), "miss", 0, ""),
        (Call::Clean(0, 1), "free", 0, " 0.0"),
        (Call::Find(5), "0.0", 0, " 0.0"),
        (Call::Find(16), "miss", 1, ""),
        (Call::Clean(16, 2), "free", 1, " 16.0"),
        (Call::Clean(32, 3), "free", 0, " 32.1 0.0"),
        (Call::Use(7), "used", 0, " 0.0 32.1"),
        (Call::Use(64), "miss", 0, " 0.0 32.1"),
        (Call::Clean(64, 4), "32 3 3 0", 0, " 64.1 0.0"),
        (Call::Write(3, 9), "written", 0, " 64.1 0.0*"),
        (Call::Read(3), "9", 0, " 64.1 0.0*"),
        (Call::Read(4), "1", 0, " 64.1 0.0*"),
        (Call::Read(64), "4", 0, " 64.1 0.0*"),
        (Call::Clean(96, 5), "0* 1 9 0", 0, " 96.0 64.1"),
        (Call::Dirty(128, 6), "64 4 4 0", 0, " 128.1* 96.0"),
        (Call::Find(0), "miss", 0, " 128.1* 96.0"),
        (Call::Clean(160, 7), "96 5 5 0", 0, " 160.0 128.1*"),
        (Call::Clean(192, 8), "128* 6 6 0", 0, " 192.1 160.0"),
        (Call::Find(31), "1.0", 1, " 16.0"),
        (Call::Write(16, 7), "written", 1, " 16.0*"),
        (Call::Clear, "", 0, ""),
        (Call::Find(16), "miss", 1, ""),
        (Call::Clean(48, 1), "free", 1, " 48.0"),
        (Call::Find(0), "miss", 2, ""),
    ] {
        assert_eq!(rt; rig.call(rt.alloc(), call)?.as_str(), want, "{call:?}");
        assert_eq!(rt;
            rig.order(rt.alloc(), set)?.as_str(),
            order,
            "after {call:?}"
        );
    }
    Ok(())
}

// By the rule: the last set is filled, its first line is written and used, and one line more comes. It is the second line that leaves, or the
// first where there is one way. The addresses of one set lie a stride apart.
#[test]
fn evicts_the_least_recently_used_line(rt: HostRuntime) -> Result<(), Fail> {
    for (sets, ways, line, start, stride, left) in [
        (1, 1, 16, 0, 16, "0* 9 1 0"),
        (1, 1, 64, 0, 64, "0* 9 1 1"),
        (1, 16, 32, 0, 32, "32 1 1 0"),
        (2, 4, 64, 64, 128, "192 1 1 1"),
        (1024, 1, 32, 32736, 32768, "32736* 9 1 0"),
        (1024, 16, 16, 16368, 16384, "32752 1 1 0"),
        (1024, 16, 64, 65472, 65536, "131008 1 1 1"),
    ] {
        let mut rig = Rig::new(&rt, rt.alloc(), sets, ways, line)?;
        let mut addr: u64 = start;
        for _ in 0..ways {
            assert_eq!(rt; rig.call(rt.alloc(), Call::Find(addr))?.as_str(), "miss");
            assert_eq!(rt;
                rig.call(rt.alloc(), Call::Clean(addr, 1))?.as_str(),
                "free"
            );
            addr = addr.wrapping_add(stride);
        }
        assert_eq!(rt;
            rig.call(rt.alloc(), Call::Write(start, 9))?.as_str(),
            "written"
        );
        assert_eq!(rt; rig.call(rt.alloc(), Call::Use(start))?.as_str(), "used");
        assert_eq!(rt;
            rig.call(rt.alloc(), Call::Dirty(addr, 2))?.as_str(),
            left,
            "{sets} {ways} {line}"
        );
        assert_eq!(rt; rig.call(rt.alloc(), Call::Read(addr))?.as_str(), "2");
    }
    Ok(())
}
