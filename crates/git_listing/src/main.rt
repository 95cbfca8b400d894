//! Lists the configuration that is loaded from the disk of this machine, as `git config --list -z --show-origin` lists it, for
//! `tools/against_git`, which compares both.
#![tactic(auto)]

mod fault;
mod listing;
mod loading;

use fault::Fault;
use gix_config::{File, NoMemory};
use listing::listing_of;
use loading::{Repository, of_folder, of_machine, of_repository};
use std::alloc::Global;
use std::env;
use std::io::Write;
use std::process::ExitCode;

/// The words after the program's name.
fn words_of(rt: &HostRuntime) -> Result<Vec<String>, Fault> {
    match env::args(rt) {
        Ok(words) => Ok(words.skip(1).collect(rt.alloc())?),
        Err(_) => Err(Fault::Usage),
    }
}

/// Borrows each of the words.
fn borrowed(alloc: Global, words: &[String]) -> Result<Vec<&str>, NoMemory> {
    Ok(words.iter().map(|word| word.as_str()).collect(alloc)?)
}

/// The file that the words ask for.
fn load(rt: &HostRuntime, words: &[&str]) -> Result<File, Fault> {
    match words {
        [word] if *word == "machine" => of_machine(rt),
        [word, git_dir, real] if *word == "folder" => of_folder(rt, git_dir, real),
        [word, git_dir, real] if *word == "repository" => {
            let repository = Repository {
                git_dir,
                real,
                branch: None,
            };
            of_repository(rt, &repository)
        }
        [word, git_dir, real, branch] if *word == "repository" => {
            let repository = Repository {
                git_dir,
                real,
                branch: Some(branch),
            };
            of_repository(rt, &repository)
        }
        _ => Err(Fault::Usage),
    }
}

/// Writes what the words ask for to standard output.
fn list(rt: &HostRuntime) -> Result<(), Fault> {
    let words = words_of(rt)?;
    let file = load(rt, &borrowed(rt.alloc(), &words)?)?;
    let listing = listing_of(rt.alloc(), &file)?;
    match rt.stdout().write_all(&listing) {
        Ok(()) => Ok(()),
        Err(_) => Err(Fault::Output),
    }
}

/// Ends with status 0, otherwise 2 if the words aren't understood and 1 for any other fault, whose number is on standard error.
fn main(rt: HostRuntime) -> ExitCode {
    let fault = match list(&rt) {
        Ok(()) => return ExitCode::from(0),
        Err(fault) => fault,
    };
    let status = fault.status();
    // A failed write to standard error doesn't change the status.
    let _ = eprintln!(rt; "E{}", fault.number());
    ExitCode::from(status)
}
