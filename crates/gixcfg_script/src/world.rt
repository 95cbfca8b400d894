//! The machine that calls are run on: a working directory below a repository's, the files of the user and of the system, and one file more.

use crate::machine::{Machine, State};
use crate::tree::{Node, Tree};
use gix_config::NoMemory;
use gixcfg_commands::{Invocation, Terminal, run_words};
use std::alloc::{AllocError, AllocGlobal, Global};

/// The rights that files have.
pub const OLD: u32 = 0o644;

static VARIABLES: [(&str, &str); 4] = [
    ("HOME", "/h"),
    ("GIT_CONFIG_COUNT", "1"),
    ("GIT_CONFIG_KEY_0", "v.k"),
    ("GIT_CONFIG_VALUE_0", "1"),
];

static FOLDERS: [&str; 6] = [
    "/etc",
    "/h",
    "/r",
    "/r/.git",
    "/r/.git/objects",
    "/r/.git/refs",
];

static FILES: [(&str, &str); 10] = [
    ("/etc/gitconfig", "[s]\n\tk = 1\n"),
    (
        "/h/.gitconfig",
        "[g]\n\tk = 1\n[includeIf \"gitdir:/r/\"]\n\tpath = here\n[includeIf \"gitdir:/x/\"]\n\tpath = there\n",
    ),
    ("/h/here", "[c]\n\tk = 1\n"),
    ("/h/there", "[c]\n\tk = 2\n"),
    ("/r/.git/HEAD", "ref: refs/heads/main\n"),
    ("/r/.git/config", "[l]\n\tk = 1\n[include]\n\tpath = more\n"),
    ("/r/.git/more", "[m]\n\tk = 1\n"),
    ("/r/sub/held.lock", ""),
    (
        "/proc/sys/kernel/random/boot_id",
        "3b6f0c52-91d4-4e7a-8c15-0d2a6e9f4b71\n",
    ),
    (
        "/proc/sys/kernel/random/uuid",
        "c0ffee00-1234-4abc-9def-0123456789ab\n",
    ),
];

/// Puts a file at a path.
fn put_file(alloc: Global, tree: &mut Tree, path: &str, text: &str) -> Result<(), AllocError> {
    let text = Vec::from_slice(alloc, text.as_bytes())?;
    tree.put(path, Node::File(text, OLD))?;
    Ok(())
}

/// Puts what is always there, but for what is at a path.
fn put_all(alloc: Global, tree: &mut Tree, but: &str) -> Result<(), AllocError> {
    for folder in &FOLDERS {
        tree.put(folder, Node::Folder)?;
    }
    for (path, text) in &FILES {
        if *path != but {
            put_file(alloc, tree, path, text)?;
        }
    }
    tree.put("l", Node::Link(String::from_str(alloc, "m")?))?;
    Ok(())
}

/// The machine with a file at a path, or none.
pub fn machine(alloc: Global, path: &str, text: Option<&str>) -> Result<State, AllocError> {
    let mut tree = Tree::new(alloc, "/r/sub")?;
    tree.put("/r/sub", Node::Folder)?;
    put_all(alloc, &mut tree, path)?;
    if let Some(text) = text {
        put_file(alloc, &mut tree, path, text)?;
    }
    let mut state = State::new(alloc, tree);
    for (name, text) in &VARIABLES {
        state.set(name, text.as_bytes())?;
    }
    Ok(state)
}

/// What a call returned and wrote.
#[derive(Drop)]
pub struct Done {
    pub status: u8,
    out: Vec<u8>,
    err: Vec<u8>,
}

impl Done {
    /// Whether it is this.
    pub fn is(&self, status: u8, out: &str, err: &str) -> bool {
        self.status == status
            && self.out.as_slice() == out.as_bytes()
            && self.err.as_slice() == err.as_bytes()
    }
}

/// Runs a call of these words, with spaces between them, as the program does. No stream is a terminal.
pub fn called(state: &State, words: &str, input: &str) -> Result<Done, NoMemory> {
    called_on(state, Terminal::none(), words, input)
}

/// The same where standard input and standard error are a terminal without colors.
pub fn called_by_hand(state: &State, words: &str, input: &str) -> Result<Done, NoMemory> {
    let terminal = Terminal {
        is_typed: true,
        ..Terminal::none()
    };
    called_on(state, terminal, words, input)
}

/// Runs a call where these streams are a terminal.
fn called_on(
    state: &State,
    terminal: Terminal,
    words: &str,
    input: &str,
) -> Result<Done, NoMemory> {
    let machine = Machine { state };
    let alloc = machine.alloc();
    let words: Vec<&str> = words.split(' ').collect(alloc)?;
    let (mut out, mut err) = (Vec::new(alloc), Vec::new(alloc));
    let called = Invocation {
        words: &words,
        terminal,
    };
    let status = run_words(&machine, called, input.as_bytes(), &mut out, &mut err)?;
    Ok(Done { status, out, err })
}
