// An image is put into a machine.
ghost use Rattle.std.specs.Prelude.{◌≡◌, ◌≤◌, ◌%◌, true, length, All};
ghost use Rattle.cfg_tree.specs.declared.config.Config.{Config};
ghost use Rattle.elf_image.specs.Image.{LiesInRam};
ghost use Rattle.elf_image.specs.Ram.{bytes_of_piece, ram_of};
ghost use Rattle.gc_base.specs.declared.limits.TheConstants.{RAM_MAX};
ghost use Rattle.gm_model.specs.Drained.{is_settled};
ghost use Rattle.gm_model.specs.Start.{start_state, with_raw};
ghost use Rattle.gm_model.specs.View.{own_ram};
ghost use Rattle.kernel.specs.Load.{IsAsBuilt, entered, with_entry};
ghost use Rattle.kernel.specs.Settled.{IsSettled};
ghost use Rattle.kernel.specs.Shown.{sys_of, entries_of, named_of, IsMachine};

use crate::boxes::{arch_box, give_arch_box};
use crate::machine::Machine;
use elf_image::{Blocks, Image};
use obj_core::SimObject;
use rv_step::Arch;

impl Machine {
    /// Loads an image into a machine as it was built: its pieces go into RAM, which is zero, in order, and the hart begins at
    /// its entry.
    pub fn load_image(&mut self, image: &Image)
        requires machine { IsMachine state self.old }
        requires fits { (c : Config) × IsAsBuilt c (sys_of state self.old) × All (LiesInRam c.system_ram) image.now.pieces }
        requires aligned { image.now.entry % 4 ≡ 0 }
        ensures loaded { (c : Config) → IsAsBuilt c (sys_of state self.old) → All (LiesInRam c.system_ram) image.now.pieces
            → sys_of state self.new ≡ start_state c image.now.entry (ram_of image.now c.system_ram) }
        ensures entries { entries_of self.new ≡ entries_of self.old }
        ensures named { named_of self.new ≡ named_of self.old }
        ensures settled { IsSettled (sys_of state self.new) }
        ensures machine { IsMachine state self.new }
    {
        let mut blocks = Blocks::new(image.pieces.items());
        while let Some(block) = blocks.next() {
            self.put_raw(block.addr, block.bytes);
        }
        self.enter(image.entry);
    }

    /// Resets the hart to begin at an entry.
    fn enter(&mut self, entry: u64)
        ensures entered { sys_of state self.new ≡ entered entry (sys_of state self.old) }
        ensures entries { entries_of self.new ≡ entries_of self.old }
        ensures named { named_of self.new ≡ named_of self.old }
        ensures table { self.new.queue.table ≡ self.old.queue.table }
    {
        for i in 0..self.parts.len() {
            enter_part(&mut self.parts[i], entry);
        }
    }
}

/// Resets the hart of a part, where it has one, to begin at an entry.
fn enter_part(part: &mut Box<dyn SimObject>, entry: u64)
    ensures { state part.new ≡ with_entry entry (state part.old) }
{
    if arch_box(part).is_some() {
        give_arch_box(part, Arch::reset(entry));
    }
}
