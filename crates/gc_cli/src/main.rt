//! The program `gemcore`: what `gc_program` does, with standard error as the report.
#![tactic(auto)]

use std::process::ExitCode;

#[cfg(test)]
mod call;
#[cfg(test)]
mod machine_tests;

fn main(rt: HostRuntime) -> ExitCode {
    ExitCode::from(gc_program::program(&rt, rt.stderr()))
}
