// A run over flat memory, with a sink as its console.
ghost use Rattle.std.specs.Prelude.{◌≡◌, ◌≤◌, ◌<◌, ◌+◌, ◌-◌, ◌^◌, ℕ, All, List, [], false, fold, length, is_ok, option_to_list, IfOk, OnOk};
ghost use Rattle.elf_image.specs.Image.{LiesInRam};
ghost use Rattle.elf_image.specs.Ram.{with_piece};
ghost use Rattle.rv_step.specs.Flat.{flat_step};
ghost use Rattle.rv_step.specs.FlatMem.{zeroed};
ghost use Rattle.rv_step.specs.Run.{is_over, next_state, flat_run, console_with};
ghost use Rattle.gc_outside.specs.Emits.{Emits};
ghost use Rattle.session.specs.Run.{state_with, flat_start};

use elf_image::{Blocks, Image, Piece};
use gc_base::NoMemory;
use gc_outside::{Failed, Sink};
use rv_step::{Arch, FlatEnd, FlatMem, step_flat};
use std::alloc::Global;

/// The size of flat memory, in bytes.
pub(crate) const FLAT_SIZE: u32 = 16_777_216;

/// A hart over flat memory, the exit number that its guest wrote, and the steps made so far.
#[derive(Drop)]
pub(crate) struct FlatRun {
    pub arch: Arch,
    pub ram: FlatMem,
    pub exit: Option<u32>,
    pub steps: u64,
}

fn exit_number(end: FlatEnd) -> Option<u32>
    ensures { result ≡ Rattle.rv_step.specs.Run.exit_number end }
{
    match end {
        FlatEnd::Exit(n) => Some(n),
        FlatEnd::Retired | FlatEnd::Trapped | FlatEnd::Slept => None,
    }
}

/// Puts pieces into RAM that is zero, in order.
fn load_pieces(ram: &mut FlatMem, pieces: &[Piece])
    requires zero { ram.old ≡ zeroed FLAT_SIZE }
    requires within { All (LiesInRam FLAT_SIZE) pieces.now }
    ensures { ram.new ≡ fold with_piece (zeroed FLAT_SIZE) pieces.now }
{
    let mut blocks = Blocks::new(pieces);
    while let Some(block) = blocks.next() {
        ram.put(block.addr, block.bytes);
    }
}

impl FlatRun {
    /// A run that is about to begin: the image in RAM, all else 0, and the hart at its entry.
    pub fn load(alloc: Global, image: &Image) -> Result<FlatRun, NoMemory>
        requires { All (LiesInRam FLAT_SIZE) image.now.pieces }
        ensures { IfOk result (λ r. state_with r [] ≡ flat_start image.now) }
    {
        let mut ram = FlatMem::new(alloc, FLAT_SIZE)?;
        load_pieces(&mut ram, image.pieces.items());
        Ok(FlatRun {
            arch: Arch::reset(image.entry),
            ram,
            exit: None,
            steps: 0,
        })
    }

    fn is_over(&self) -> bool
        ensures { result ≡ is_over (state_with self.now []) }
    {
        self.exit.is_some() || self.arch.asleep
    }

    /// One step. Its byte for the console, if it has one, is emitted.
    fn step<C: Sink>(&mut self, console: &mut C) -> Result<(), Failed>
        requires on { is_over (state_with self.old []) ≡ false }
        requires room { self.old.steps < 2 ^ 64 - 1 }
        ensures count { self.new.steps ≡ self.old.steps + 1 }
        ensures moved { (bytes : List ℕ) → next_state (state_with self.old bytes)
            ≡ state_with self.new (console_with bytes (flat_step self.old.arch self.old.ram).step.console) }
        ensures emitted { Emits (option_to_list (flat_step self.old.arch self.old.ram).step.console) (is_ok result)
            (C.taken console.old) (C.taken console.new) (C.faults console.old) (C.faults console.new) }
    {
        let step = step_flat(&mut self.arch, &mut self.ram);
        self.steps += 1;
        self.exit = exit_number(step.end);
        match step.console {
            Some(b) => console.emit(&[b]),
            None => Ok(()),
        }
    }

    /// At most so many steps. A failed emit ends the run behind the step whose byte it was.
    pub fn run<C: Sink>(&mut self, console: &mut C, count: u64) -> Result<(), Failed>
        requires { self.old.steps ≡ 0 }
        ensures state { OnOk result (state_with self.new (flat_run (state_with self.old []) count).console
            ≡ flat_run (state_with self.old []) count) }
        ensures emitted { Emits (flat_run (state_with self.old []) count).console (is_ok result)
            (C.taken console.old) (C.taken console.new) (C.faults console.old) (C.faults console.new) }
    {
        while self.steps < count && !self.is_over() {
            self.step(console)?;
        }
        Ok(())
    }
}
