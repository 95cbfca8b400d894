//! The program `gixcfg_script`: on standard input what a machine in memory has, and the words of calls that are run on it as `gixcfg` runs
//! them on the system; on standard output one line of answer for each line. rows/README.md has the language.
#![tactic(auto)]

mod answers;
#[cfg(test)]
mod changing;
mod commands;
#[cfg(test)]
mod edits;
#[cfg(test)]
mod failing;
#[cfg(test)]
mod left;
mod loads;
mod machine;
mod program;
#[cfg(test)]
mod reads;
mod refusal;
mod session;
mod streams;
mod tree;
#[cfg(test)]
mod typed;
#[cfg(test)]
mod world;

use program::run;
use std::process::ExitCode;

fn main(rt: HostRuntime) -> ExitCode {
    ExitCode::from(run(rt.alloc(), rt.reader(), rt.stdout()))
}
