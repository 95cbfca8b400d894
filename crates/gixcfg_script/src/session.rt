//! What the lines of a script work on: a machine, and the streams of its next call.

use crate::machine::{Machine, State};
use crate::streams::{Source, Target};
use crate::tree::{Node, Tree};
use gix_config::NoMemory;
use gixcfg_commands::{Invocation, Terminal, run_words, tell_ill_formed};
use std::alloc::{AllocError, Global};
use std::mem::replace;

/// The working directory of each machine.
const FOLDER: &str = "/w";

/// A machine, and the streams of its next call.
#[derive(Drop)]
pub struct Session {
    alloc: Global,
    pub state: State,
    pub input: Source,
    /// How many bytes there is room for on standard output, if not for all.
    pub out: Option<usize>,
    /// The same of standard error.
    pub err: Option<usize>,
}

/// How a call ended.
#[derive(Drop)]
pub struct Done {
    pub status: u8,
    pub out: Target,
    pub err: Target,
    /// How many bytes of standard input were read.
    pub read: usize,
}

impl Session {
    /// An empty working directory, no variable, nothing on standard input and room for all output.
    pub fn new(alloc: Global) -> Result<Session, AllocError> {
        Ok(Session {
            alloc,
            state: machine(alloc)?,
            input: Source::of(Vec::new(alloc)),
            out: None,
            err: None,
        })
    }

    /// Runs a call of these words. It takes what is on standard input.
    ///
    /// # Errors
    ///
    /// [`NoMemory`] when out of memory around the call, also for what it writes: the call itself ends with a status.
    pub fn call(&mut self, words: &[&str]) -> Result<Done, NoMemory> {
        let mut input = replace(&mut self.input, Source::of(Vec::new(self.alloc)));
        let mut out = Target::new(self.alloc, self.out)?;
        let mut err = Target::new(self.alloc, self.err)?;
        let called = Invocation {
            words,
            terminal: Terminal::none(),
        };
        let machine = Machine { state: &self.state };
        let status = run_words(&machine, called, &mut input, &mut out, &mut err)?;
        ended(status, out, err, input.count())
    }

    /// Ends a call of words of which one isn't UTF-8. Nothing is read.
    ///
    /// # Errors
    ///
    /// Those of [`Session::call`].
    pub fn call_ill_formed(&mut self) -> Result<Done, NoMemory> {
        drop(replace(&mut self.input, Source::of(Vec::new(self.alloc))));
        let out = Target::new(self.alloc, self.out)?;
        let mut err = Target::new(self.alloc, self.err)?;
        let status = tell_ill_formed(&mut err);
        ended(status, out, err, 0)
    }
}

/// How a call ended that ran out of no memory around it.
fn ended(status: u8, out: Target, err: Target, read: usize) -> Result<Done, NoMemory> {
    if out.lacks_memory() || err.lacks_memory() {
        return Err(NoMemory);
    }
    Ok(Done {
        status,
        out,
        err,
        read,
    })
}

/// A machine that has its working directory alone.
fn machine(alloc: Global) -> Result<State, AllocError> {
    let mut tree = Tree::new(alloc, FOLDER)?;
    tree.put(FOLDER, Node::Folder)?;
    Ok(State::new(alloc, tree))
}
