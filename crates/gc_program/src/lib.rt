//! What the program `gemcore` does in `main`: the top call over the files that its runtime reaches, its standard output as the
//! console, and a stream as the report. It has no rule of its own but for its words: where one isn't UTF-8, there are none.
//!
//! It is a crate of its own, so that a program more can be stored with the words, the status and the output of another run.
#![tactic(auto)]

use gc_outside::{DirStore, StdSink};
use session::Status;
use std::alloc::AllocError;
use std::fs::Files;
use std::io::{ErrorKind, Write};
use std::{env, io};

mod parts;
#[cfg(test)]
mod tests;

pub use parts::call;

/// The words after the program's name. They are none where one isn't UTF-8, so that it is refused as the usage.
fn words_of<R: env::Env + AllocGlobal>(rt: &R) -> Result<Vec<String>, AllocError> {
    match env::args(rt) {
        Ok(mut args) => {
            let _ = args.next();
            args.collect(rt.alloc())
        }
        Err(e) if e.kind() == ErrorKind::OutOfMemory => Err(AllocError),
        Err(_) => Ok(Vec::new(rt.alloc())),
    }
}

/// Does all that the program does, and answers the status of its process.
pub fn program<R: env::Env + Files + Print + AllocGlobal, W: Write + Drop>(
    rt: &R,
    report: W,
) -> u8 {
    let Ok(words) = words_of(rt) else {
        return Status::Memory.code();
    };
    let status = call(
        rt.alloc(),
        words.as_slice(),
        &mut DirStore::new(rt),
        &mut StdSink::new(io::writer(rt)),
        &mut StdSink::new(report),
    );
    status.unwrap_or(Status::Memory.code())
}
