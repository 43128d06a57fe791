//! The command `assemble`, as the gate runs it on a mesh on standard input.
#![tactic(auto)]

use assemble_core::run_program;
use std::process::ExitCode;

fn main(rt: HostRuntime) -> ExitCode {
    ExitCode::from(run_program(&rt))
}
