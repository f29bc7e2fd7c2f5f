//! The program once more, for a stored run beside that of `gc_cli`: this one is refused, since a file is absent. Its report goes
//! to standard output, where a stored run sees it.
#![tactic(auto)]

use std::io;
use std::process::ExitCode;

fn main(rt: HostRuntime) -> ExitCode {
    ExitCode::from(gc_program::program(&rt, io::writer(&rt)))
}
