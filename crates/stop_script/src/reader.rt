// The lines of a script, one after another.
ghost use Rattle.std.specs.Prelude.{◌≡◌, IfOk, IfErr, MatchResult, Ok, Err, List};
ghost use Rattle.gc_text.specs.LineReader.{first_line, after_line};
ghost use Rattle.stop_script.specs.Lines.{IsCanonical, IsScript, TellsRefused};
ghost use Rattle.stop_script.specs.Script.{NamesLine, TellsLine, is_skipped, line_stop, stops_of};
ghost use Rattle.stop_script.specs.declared.script_fault.ScriptFault.TheVariants.{NoMemory};
ghost use Rattle.stop_script.specs.declared.stop.Stop.{Stop};

use crate::line::stop_of;
use crate::script::Script;
use crate::script_fault::ScriptFault;
use crate::stop::Stop;
use crate::stops::Stops;
use gc_base::limits::SCRIPT_LINES_MAX;
use gc_text::MAX_LINE;
use gm_words::Config;
use memchr::memchr;
use std::alloc::Global;

/// Reads the stops of a script. The configuration is that of the machine which the script is for.
pub fn read(alloc: Global, bytes: &[u8], _c: &Config) -> Result<Script, ScriptFault>
    ensures stops { IfOk result (λ s. stops_of bytes.now ≡ Ok s.stops) }
    ensures line { IfErr result (λ fault. TellsLine fault (stops_of bytes.now)) }

    // Line by line, and of canonical texts.
    ensures lines { IfOk result (λ s. IsScript bytes.now s.stops) }
    ensures refused { IfErr result (λ fault. TellsRefused fault bytes.now) }
    ensures back { (stops : List Stop) → IsCanonical bytes.now stops
        → MatchResult result (λ s. s.stops ≡ stops) (λ fault. fault ≡ NoMemory) }
{
    match stops_in(alloc, bytes) {
        Ok(stops) => Ok(Script {
            stops: Stops::new(stops),
        }),
        Err(fault) => Err(fault),
    }
}

// The stops of a script's lines.
fn stops_in(alloc: Global, bytes: &[u8]) -> Result<Vec<Stop>, ScriptFault>
    ensures stops { IfOk result (λ stops. stops_of bytes.now ≡ Ok stops.items) }
    ensures line { IfErr result (λ fault. TellsLine fault (stops_of bytes.now)) }
{
    let mut stops = Vec::new(alloc);
    let mut rest = bytes;
    let mut number = 0;
    while !rest.is_empty() {
        number += 1;
        let (line, after) = split_line(rest);
        if let Some(stop) = read_line(alloc, line, number)? {
            stops.push(stop)?;
        }
        rest = after;
    }
    Ok(stops)
}

// The first line of a text, and what stands behind its line feed.
fn split_line(text: &[u8]) -> (&[u8], &[u8])
    ensures line { result.0.now ≡ first_line text.now }
    ensures rest { result.1.now ≡ after_line text.now }
{
    match memchr(b'\n', text) {
        Some(end) => (&text[..end], &text[end + 1..]),
        None => (text, &[]),
    }
}

// The stop of the line with this number, which has none where it is empty or a comment.
fn read_line(alloc: Global, line: &[u8], number: u32) -> Result<Option<Stop>, ScriptFault>
    ensures { MatchResult result
        (λ stop. line_stop number line.now ≡ Ok stop)
        (λ fault. NamesLine fault line.now (line_stop number line.now)) }
{
    if number as usize > SCRIPT_LINES_MAX || line.len() > MAX_LINE {
        return Err(ScriptFault::Line { line: number });
    }
    if is_skipped(line) {
        return Ok(None);
    }
    match stop_of(alloc, line) {
        Ok(Some(stop)) => Ok(Some(stop)),
        Ok(None) => Err(ScriptFault::Line { line: number }),
        Err(_) => Err(ScriptFault::NoMemory),
    }
}

// Whether a line says nothing.
fn is_skipped(line: &[u8]) -> bool
    ensures { result ≡ is_skipped line.now }
{
    line.is_empty() || line[0] == b'#'
}
