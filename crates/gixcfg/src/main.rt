//! The program `gixcfg`: words and standard input in, an answer and an exit status out.
#![tactic(auto)]

use gitconf_sources::Process;
use gix_config::NoMemory;
use gix_config::host::{Env, EnvVar};
use gix_config::refusals::Refusal;
use gixcfg_commands::{Invocation, Terminal, run_words, tell_ill_formed};
use gixcfg_core::trouble::MEMORY;
use std::alloc::Global;
use std::env;
use std::io::{ErrorKind, IsTerminal};
use std::process::ExitCode;

/// The words after the program's name, if all are UTF-8.
fn words_of(rt: &HostRuntime) -> Result<Option<Vec<String>>, NoMemory> {
    match env::args(rt) {
        Ok(words) => Ok(Some(words.skip(1).collect(rt.alloc())?)),
        Err(fault) if fault.kind() == ErrorKind::OutOfMemory => Err(NoMemory),
        Err(_) => Ok(None),
    }
}

/// Borrows each of the words.
fn borrowed(alloc: Global, words: &[String]) -> Result<Vec<&str>, NoMemory> {
    Ok(words.iter().map(|word| word.as_str()).collect(alloc)?)
}

/// What of the streams is a terminal. Standard error then shows colors, unless `NO_COLOR` is set to something.
fn terminal_of(rt: &HostRuntime) -> Result<Terminal, NoMemory> {
    let is_seen = rt.stdout().is_terminal();
    if !rt.stderr().is_terminal() {
        return Ok(Terminal {
            is_seen,
            ..Terminal::none()
        });
    }
    let is_colored = match Process::new(*rt).var("NO_COLOR")? {
        EnvVar::Unset => true,
        EnvVar::Text(text) => text.is_empty(),
        EnvVar::IllFormed => false,
    };
    Ok(Terminal {
        is_colored,
        is_typed: rt.stdin().is_terminal(),
        is_seen,
    })
}

/// Runs the program with the words of the process, its three streams, its variables, and the files of the disk.
fn run_process(rt: &HostRuntime) -> Result<u8, NoMemory> {
    let Some(words) = words_of(rt)? else {
        return Ok(tell_ill_formed(&mut rt.stderr()));
    };
    let args = borrowed(rt.alloc(), &words)?;
    let called = Invocation {
        words: &args,
        terminal: terminal_of(rt)?,
    };
    run_words(rt, called, rt.reader(), &mut rt.stdout(), &mut rt.stderr())
}

fn main(rt: HostRuntime) -> ExitCode {
    match run_process(&rt) {
        Ok(status) => ExitCode::from(status),
        Err(refusal) => {
            let number = refusal.number();
            // A failed write to standard error changes no status.
            let _ = eprintln!(rt; "gixcfg: E{number}");
            ExitCode::from(MEMORY)
        }
    }
}
