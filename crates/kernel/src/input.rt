// Input for the guest.
ghost use Rattle.std.specs.Prelude.{◌≡◌, if◌then◌else◌};
ghost use Rattle.kernel.specs.Input.{fed, one_takes, input_given, input_taken};
ghost use Rattle.kernel.specs.Shown.{sys_of, entries_of, named_of, IsMachine};

use crate::boxes::input_box;
use crate::machine::Machine;

impl Machine {
    /// Gives the UART bytes in order, and tells how many it took: as many as it had places for.
    pub fn input(&mut self, bytes: &[u8]) -> u32
        requires machine { IsMachine state self.old }
        ensures taken { result ≡ input_taken bytes.now (sys_of state self.old) }
        ensures given { sys_of state self.new ≡ input_given bytes.now (sys_of state self.old) }
        ensures entries { entries_of self.new ≡ entries_of self.old }
        ensures named { named_of self.new ≡ named_of self.old }
        ensures machine { IsMachine state self.new }
    {
        let mut taken = 0;
        for byte in bytes.iter() {
            taken += one_if(self.feed(*byte));
        }
        taken
    }

    /// Gives each part that has a place for it a byte, and tells whether one took it.
    fn feed(&mut self, byte: u8) -> bool
        ensures taken { result ≡ one_takes (sys_of state self.old).objects }
        ensures fed { sys_of state self.new ≡ fed byte (sys_of state self.old) }
        ensures entries { entries_of self.new ≡ entries_of self.old }
        ensures named { named_of self.new ≡ named_of self.old }
        ensures table { self.new.queue.table ≡ self.old.queue.table }
    {
        let mut taken = false;
        for i in 0..self.parts.len() {
            let took = input_box(&mut self.parts[i], byte);
            taken = taken | took;
        }
        taken
    }
}

/// 1 for a byte that was taken, and else 0.
fn one_if(taken: bool) -> u32
    ensures { result ≡ (if taken then 1 else 0) }
{
    if taken { 1 } else { 0 }
}
