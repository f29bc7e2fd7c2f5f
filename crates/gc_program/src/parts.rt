// The call of the program, with the parts that machines are built of.
ghost use Rattle.std.specs.Prelude.{map, OnOk};
ghost use Rattle.gm_model.specs.ObjState.{IsBlank};
ghost use Rattle.kernel.specs.Build.{AreBlank};

use cpu_atomic::AtomicCpu;
use cpu_timing::TimingCpu;
use gc_base::NoMemory;
use gc_outside::{Sink, Store};
use obj_core::SimObject;
use obj_exit::ExitDev;
use obj_mem::Mem;
use obj_timer::Timer;
use obj_uart::Uart;
use obj_xbar::Xbar;
use session::gemcore;
use std::alloc::Global;

/// A blank part more.
fn add(bin: &mut Vec<Box<dyn SimObject>>, part: Box<dyn SimObject>) -> Result<(), NoMemory>
    requires bin { AreBlank (map (λ b. state b) bin.old.items) }
    requires part { IsBlank (state part) }
    ensures { OnOk result (AreBlank (map (λ b. state b) bin.new.items)) }
{
    bin.push(part)?;
    Ok(())
}

/// Does what the words ask for, and answers the status of the process. Machines are built of two crossbars and
/// one part of each other kind, which stand here in the order of their paths.
pub fn call<S: Store, C: Sink, R: Sink>(
    alloc: Global,
    words: &[String],
    store: &mut S,
    console: &mut C,
    report: &mut R,
) -> Result<u8, NoMemory> {
    let mut bin = Vec::new(alloc);
    add(&mut bin, Box::new(alloc, AtomicCpu::blank())?)?;
    add(&mut bin, Box::new(alloc, Xbar::blank())?)?;
    add(&mut bin, Box::new(alloc, ExitDev::blank())?)?;
    add(&mut bin, Box::new(alloc, Mem::blank())?)?;
    add(&mut bin, Box::new(alloc, Xbar::blank())?)?;
    add(&mut bin, Box::new(alloc, TimingCpu::blank())?)?;
    add(&mut bin, Box::new(alloc, Timer::blank())?)?;
    add(&mut bin, Box::new(alloc, Uart::blank())?)?;
    Ok(gemcore(alloc, words, bin, store, console, report))
}
