//! The program `gix_config_script`: a script of commands on standard input, and one line of answer for each on standard output.
//! docs/scripts.md has the language.
#![tactic(auto)]

pub mod blocks;
mod commands;
mod program;

use program::run;
use std::process::ExitCode;

fn main(rt: HostRuntime) -> ExitCode {
    ExitCode::from(run(rt.alloc(), rt.reader(), rt.stdout()))
}
