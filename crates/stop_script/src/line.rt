// One line of a script, and the stop that it says.
ghost use Rattle.std.specs.Prelude.{◌≡◌, IfErr, IfOk, IsSome, codes};
ghost use Rattle.stop_script.specs.Stop.{behind, number_of, octets_of, plain_stop_of, stop_of, until_of};

use crate::stop::Stop;
use gc_base::limits::LAST;
use gc_base::{NoMemory, Octets};
use gc_text::read_dec;
use gm_words::Until;
use hex::FromHexError;
use std::alloc::Global;

/// The most bytes of an input line.
const INPUT_MAX: usize = 64;

/// The stop that a line says, or `None` where it has none of the forms.
pub(crate) fn stop_of(alloc: Global, line: &[u8]) -> Result<Option<Stop>, NoMemory>
    ensures stop { IfOk result (λ stop. stop ≡ stop_of line.now) }
    ensures memory { IfErr result (λ _. IsSome (behind (codes "input ") line.now)) }
{
    match line.strip_prefix(b"input ") {
        Some(digits) => Ok(octets_of(alloc, digits)?.map(Stop::Input)),
        None => Ok(plain_stop_of(line)),
    }
}

// The bytes that a text spells in hexadecimal digits of either case.
fn octets_of(alloc: Global, text: &[u8]) -> Result<Option<Octets>, NoMemory>
    ensures { IfOk result (λ bytes. bytes ≡ octets_of text.now) }
{
    if text.len() < 2 || text.len() > 2 * INPUT_MAX {
        return Ok(None);
    }
    match hex::decode(alloc, text) {
        Ok(bytes) => Ok(Some(Octets::new(bytes))),
        Err(FromHexError::OutOfMemory) => Err(NoMemory),
        Err(_) => Ok(None),
    }
}

// The stop that a line says which has no bytes.
fn plain_stop_of(line: &[u8]) -> Option<Stop>
    ensures { result ≡ plain_stop_of line.now }
{
    if line == b"regs".as_slice() {
        return Some(Stop::Regs);
    }
    if line == b"stats".as_slice() {
        return Some(Stop::Stats);
    }
    if line == b"stats json".as_slice() {
        return Some(Stop::StatsJson);
    }
    if line == b"trace on".as_slice() {
        return Some(Stop::Trace(true));
    }
    if line == b"trace off".as_slice() {
        return Some(Stop::Trace(false));
    }
    let words = line.strip_prefix(b"run ")?;
    Some(Stop::Run(until_of(words)?))
}

// How far the words behind `run` say to go.
fn until_of(words: &[u8]) -> Option<Until>
    ensures { result ≡ until_of words.now }
{
    if words == b"end".as_slice() {
        return Some(Until::End);
    }
    if let Some(number) = words.strip_prefix(b"tick ") {
        return Some(Until::Tick(number_of(number)?));
    }
    let number = words.strip_prefix(b"insts ")?;
    Some(Until::Insts(number_of(number)?))
}

// A number of a script, which has one spelling.
fn number_of(text: &[u8]) -> Option<u64>
    ensures { result ≡ number_of text.now }
{
    match read_dec(text) {
        Some(n) if n <= LAST => Some(n),
        _ => None,
    }
}
