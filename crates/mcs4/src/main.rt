//! The program `mcs4`, which runs the bench from the command line: `mcs4 new FILE` or `mcs4 open FILE`.
#![tactic(auto)]

use mcs_shell::program::run_program;
use std::io;
use std::process::ExitCode;

fn main(rt: HostRuntime) -> io::Result<ExitCode> {
    let program_result = run_program(&rt);
    Ok(program_result.status)
}
