//! Replays calls on the folder that it runs in, as an edit of `gixcfg` makes them, and on the folder in memory, and tells what each answers
//! and what a reader finds then, for `tools/folder_replay`, which compares both.
//!
//! A line of standard input is a call; standard output has two lines for each, `real: ..` and `memory: ..`.
#![tactic(auto)]

mod call;
mod crash;
mod in_memory;
mod memory;
mod memory_folder;
mod replay;

use replay::replay;
use std::process::ExitCode;

/// Ends with status 0, otherwise 1 if a line is no call, or a folder or a stream failed.
fn main(rt: HostRuntime) -> ExitCode {
    let (input, out) = (rt.reader(), rt.stdout());
    ExitCode::from(match replay(&rt, input, out) {
        Ok(()) => 0,
        Err(_) => 1,
    })
}

#[cfg(test)]
mod tests;
