// The words of a generated program.
ghost use Rattle.std.specs.Prelude.{◌≡◌, ◌+◌, ◌≤◌, ◌∷◌, ◌++◌, [], IfOk, vec_len, vec_capacity};
ghost use Rattle.rv_table.specs.Table.{IsEncodable, word_of};
ghost use Rattle.load_gen.specs.Generated.{after, start_words, step_inst, step_words, generated};

use crate::choosing::{base, chosen, exit_base, exit_store, start, word};
use crate::drawing::draw;
use gc_base::NoMemory;
use rv_asm::{Program, Words};
use rv_table::Inst;
use std::alloc::Global;

/// The most blocks of a program.
pub const BLOCKS_MAX: u32 = 2_000;

/// The words that are no steps: one before the registers, one for each of them, and two at the end.
const AROUND: usize = 18;

/// The program of a seed, so many blocks long.
pub fn program(alloc: Global, seed: u64, blocks: u32) -> Result<Program, NoMemory>
    requires some { 1 ≤ blocks }
    requires most { blocks ≤ BLOCKS_MAX }
    ensures { IfOk result (λ p. p.words ≡ generated seed blocks) }
{
    let steps = 8 * blocks;
    let mut state = seed;
    let mut words = Vec::with_capacity(alloc, AROUND + steps as usize)?;
    words.push_reserved(word(base()));
    add_starts(&mut words, &mut state);
    add_steps(&mut words, &mut state, steps);
    words.push_reserved(word(exit_base()));
    words.push_reserved(word(exit_store()));
    Ok(Program {
        words: Words::new(words),
    })
}

/// Appends the words that set x1 to x15.
fn add_starts(words: &mut Vec<u32>, state: &mut u64)
    requires { vec_len words.old + 15 ≤ vec_capacity words.old }
    ensures words { words.new.items ≡ words.old.items ++ start_words 15 1 state.old }
    ensures state { state.new ≡ after 15 state.old }
    ensures len { vec_len words.new ≡ vec_len words.old + 15 }
    ensures capacity { vec_capacity words.new ≡ vec_capacity words.old }
{
    for k in 1..16 {
        words.push_reserved(word(start(k, draw(state))));
    }
}

/// Appends the words of so many steps.
fn add_steps(words: &mut Vec<u32>, state: &mut u64, steps: u32)
    requires { vec_len words.old + steps ≤ vec_capacity words.old }
    ensures words { words.new.items ≡ words.old.items ++ step_words steps state.old }
    ensures len { vec_len words.new ≡ vec_len words.old + steps }
    ensures capacity { vec_capacity words.new ≡ vec_capacity words.old }
{
    for _step in 0..steps {
        words.push_reserved(word(step(state)));
    }
}

/// The instruction of a step, which moves the state by four draws.
#[tactic(auto, unfolding(crate::specs::Generated::after, crate::specs::Generated::step_inst))]
fn step(state: &mut u64) -> Inst
    ensures value { result ≡ step_inst state.old }
    ensures word { IsEncodable result }
    ensures moved { state.new ≡ after 4 state.old }
{
    let a = draw(state);
    let b = draw(state);
    let c = draw(state);
    let e = draw(state);
    chosen(a, b, c, e)
}
