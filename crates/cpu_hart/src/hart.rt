// What happens to the hart, and what is noted of it.
ghost use Rattle.std.specs.Prelude.{◌≡◌, ◌^◌, IsTrue, IfSome};
ghost use Rattle.rv_table.specs.Inst.{HasRegisters};
ghost use Rattle.rv_table.specs.Table.{decode_of};
ghost use Rattle.rv_step.specs.Demand.{need as need_of_word, IsFit};
ghost use Rattle.rv_step.specs.Retire.{finish as finished};
ghost use Rattle.rv_step.specs.Trap.{enter_trap as trapped};
ghost use Rattle.gm_model.specs.AtomicCpu.{is_asleep, is_awake};
ghost use Rattle.gm_words.specs.HartLine.{is_line, with_line};
ghost use Rattle.gm_words.specs.declared.entry.Entry.TheVariants as entries;

use gm_model::Entry;
use rv_step::{Arch, Demand, enter_trap, finish_of, need_of};
use rv_table::Inst;

// Causes of traps, by the privileged manual's "Machine Cause Register".
pub const INSTRUCTION_ACCESS: u64 = 1;

const ILLEGAL_INSTRUCTION: u64 = 2;

pub const LOAD_ACCESS: u64 = 5;

pub const STORE_ACCESS: u64 = 7;

// Bits of mip, by the privileged manual's "Machine Interrupt Registers".
const SOFTWARE: u64 = 1 << 3;

const TIMER: u64 = 1 << 7;

const EXTERNAL: u64 = 1 << 11;

/// Whether the hart is there, and asleep.
pub fn is_asleep(arch: &Option<Arch>) -> bool
    ensures { result ≡ is_asleep arch.now }
{
    match arch {
        Some(a) => a.asleep,
        None => false,
    }
}

/// Whether the hart is there, and awake.
pub fn is_awake(arch: &Option<Arch>) -> bool
    ensures { result ≡ is_awake arch.now }
{
    match arch {
        Some(a) => !a.asleep,
        None => false,
    }
}

/// What a word asks for that was decoded.
#[inline(always)]
#[tactic(auto, unfolding(rv_step::specs::Demand::need))]
pub fn demand(a: &Arch, word: u32, inst: &Option<Inst>) -> Demand
    requires decoded { inst.now ≡ decode_of word }
    requires registers { IfSome inst.now HasRegisters }
    ensures value { result ≡ need_of_word a.now word }
    ensures fit { IsFit result }
{
    match inst {
        Some(i) => need_of(a, i, word),
        None => Demand::Trap {
            cause: ILLEGAL_INSTRUCTION,
            tval: word as u64,
        },
    }
}

/// The word at pc retires, with the number that its load got.
#[inline(always)]
#[tactic(auto, unfolding(rv_step::specs::Retire::finish))]
pub fn retire(a: &mut Arch, word: u32, inst: &Option<Inst>, v: u64)
    requires decoded { inst.now ≡ decode_of word }
    requires registers { IfSome inst.now HasRegisters }
    ensures { a.new ≡ finished a.old word v }
{
    if let Some(i) = inst {
        finish_of(a, i, v);
    }
}

/// A trap is entered: what is noted of it.
pub fn trap(a: &mut Arch, cause: u64, tval: u64) -> Entry
    ensures hart { a.new ≡ trapped a.old cause tval }
    ensures entry { result ≡ entries.Trapped cause tval }
{
    enter_trap(a, cause, tval);
    Entry::Trapped { cause, tval }
}

/// The bit of mip that is a line's.
fn mask(bit: u8) -> u64
    requires { IsTrue (is_line bit) }
    ensures { result ≡ 2 ^ bit }
{
    match bit {
        3 => SOFTWARE,
        7 => TIMER,
        _ => EXTERNAL,
    }
}

/// The line gets this level, and a hart that it wakes is asleep no more.
pub fn set_line(a: &mut Arch, bit: u8, level: bool)
    requires { IsTrue (is_line bit) }
    ensures { a.new ≡ with_line a.old bit level }
{
    let mask = mask(bit);
    if level {
        a.mip |= mask;
    } else {
        a.mip -= a.mip & mask;
    }
    let interrupt = a.mie & a.mip != 0;
    a.asleep = a.asleep && !interrupt;
}
