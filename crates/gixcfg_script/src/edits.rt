//! Calls that edit: what they leave in a file, and that all else is as it was.

use crate::machine::{Machine, State};
use crate::tree::{NEW, Tree};
use crate::world::{OLD, called, machine};
use gix_config::NoMemory;
use std::alloc::Global;
use std::test::Fail;

/// A call on a file, and what is wanted: the words; the file's path, and its text before, if there is one; the status, and what is
/// written on standard error; and the text after.
type Edit = (
    &'static str,
    &'static str,
    Option<&'static str>,
    u8,
    &'static str,
    Option<&'static str>,
);

static EDITS: [Edit; 20] = [
    (
        "set -f m a.k 2",
        "/r/sub/m",
        Some("# c\n[a]\n\tk = 1 # d\n"),
        0,
        "",
        Some("# c\n[a]\n\tk = 2 # d\n"),
    ),
    (
        "set -f m a.k v",
        "/r/sub/m",
        None,
        0,
        "",
        Some("[a]\n\tk = v\n"),
    ),
    (
        "set -f m --all a.k 3",
        "/r/sub/m",
        Some("[a]\n\tk = 1\n[a]\n\tk = 2\n\tj = 1\n"),
        0,
        "",
        Some("[a]\n[a]\n\tk = 3\n\tj = 1\n"),
    ),
    (
        "set -f m --append a.k 2",
        "/r/sub/m",
        Some("[a]\n\tk = 1\n"),
        0,
        "",
        Some("[a]\n\tk = 1\n\tk = 2\n"),
    ),
    (
        "set -f m --comment=why a.k 2",
        "/r/sub/m",
        Some("[a]\n\tk = 1\n"),
        0,
        "",
        Some("[a]\n\tk = 2 # why\n"),
    ),
    (
        "set -f m a.k 3",
        "/r/sub/m",
        Some("[a]\n\tk = 1\n\tk = 2\n"),
        5,
        "gixcfg: m: the key has multiple values; see --all\n",
        Some("[a]\n\tk = 1\n\tk = 2\n"),
    ),
    (
        "set -f m a.k 1",
        "/r/sub/m",
        Some("[a]\n\tk = 1\n"),
        0,
        "",
        Some("[a]\n\tk = 1\n"),
    ),
    (
        "set -f l a.k 2",
        "/r/sub/m",
        Some("[a]\n\tk = 1\n"),
        0,
        "",
        Some("[a]\n\tk = 2\n"),
    ),
    (
        "set -f held a.k 2",
        "/r/sub/held",
        Some("[a]\n\tk = 1\n"),
        4,
        "gixcfg: held: held.lock exists: another process may be editing the file; if none is, remove it\n",
        Some("[a]\n\tk = 1\n"),
    ),
    (
        "set --global a.k 2",
        "/h/.gitconfig",
        Some("[a]\n\tk = 1\n"),
        0,
        "",
        Some("[a]\n\tk = 2\n"),
    ),
    (
        "set --local a.k 2",
        "/r/.git/config",
        Some("[a]\n\tk = 1\n"),
        0,
        "",
        Some("[a]\n\tk = 2\n"),
    ),
    (
        "set --worktree a.k 2",
        "/r/.git/config",
        Some("[a]\n\tk = 1\n"),
        0,
        "",
        Some("[a]\n\tk = 2\n"),
    ),
    (
        "unset -f m a.k",
        "/r/sub/m",
        Some("[a]\n\tk = 1\n\tj = 2\n"),
        0,
        "",
        Some("[a]\n\tj = 2\n"),
    ),
    (
        "unset -f m --all a.k",
        "/r/sub/m",
        Some("[a]\n\tk = 1\n\tk\n[a]\n\tk = 3\n\tj = 4\n"),
        0,
        "",
        Some("[a]\n[a]\n\tj = 4\n"),
    ),
    ("unset -f m a.k", "/r/sub/m", None, 5, "", None),
    (
        "rename-section -f m a b.c",
        "/r/sub/m",
        Some("[a] ; c\n\tk = 1\n[A]\n\tj = 1\n"),
        0,
        "",
        Some("[b \"c\"] ; c\n\tk = 1\n[b \"c\"]\n\tj = 1\n"),
    ),
    (
        "remove-section -f m a",
        "/r/sub/m",
        Some("[a]\n\tk = 1\n[b]\n\tj = 1\n[a]\n\tl = 1\n"),
        0,
        "",
        Some("[b]\n\tj = 1\n"),
    ),
    (
        "fmt -f m",
        "/r/sub/m",
        Some("[a]\nk=1\n  # c\n"),
        0,
        "",
        Some("[a]\n\tk = 1\n\t# c\n"),
    ),
    (
        "fmt --check -f m",
        "/r/sub/m",
        Some("[a]\nk=1\n"),
        1,
        "gixcfg: m: not laid out\n",
        Some("[a]\nk=1\n"),
    ),
    (
        "fmt -f m",
        "/r/sub/m",
        Some("[]\n"),
        3,
        "gixcfg: m:1:1: not a section header: the name is missing [E1]\n[]\n^\n",
        Some("[]\n"),
    ),
];

/// What an edit is to leave.
#[derive(Clone, Copy)]
struct Wanted {
    path: &'static str,
    text: Option<&'static str>,
    /// The rights of the file.
    mode: u32,
    /// How many things there are.
    count: usize,
}

/// Whether a tree has what is wanted at the path, the link that is always there, and nothing more.
fn is_left(tree: &Tree, wanted: &Wanted) -> bool {
    let is_text = match (tree.file(wanted.path), wanted.text) {
        (Some((text, mode)), Some(new)) => text == new.as_bytes() && mode == wanted.mode,
        (found, new) => found.is_none() && new.is_none(),
    };
    is_text && tree.link_at("l").is_ok() && tree.count() == wanted.count
}

/// What is wanted of an edit on a machine.
fn wanted_of(tree: &Tree, edit: &Edit) -> Wanted {
    let (_, path, before, _, _, text) = *edit;
    let is_new = before.is_none() && text.is_some();
    Wanted {
        path,
        text,
        mode: if is_new { NEW } else { OLD },
        count: tree.count().saturating_add(usize::from(is_new)),
    }
}

/// Whether a text that an edit leaves as it was is not written.
fn is_spared(state: &State, edit: &Edit) -> bool {
    edit.2 != edit.5 || state.changes() == 0
}

/// Whether a machine on which an edit is done has then what is wanted.
fn is_done(state: &State, edit: &Edit) -> Result<bool, NoMemory> {
    let machine = Machine { state };
    let wanted = match machine.tree() {
        Ok(tree) => wanted_of(&tree, edit),
        Err(_) => return Ok(false),
    };
    let done = called(state, edit.0, "")?;
    let Ok(tree) = machine.tree() else {
        return Ok(false);
    };
    Ok(done.is(edit.3, "", edit.4) && is_spared(state, edit) && is_left(&tree, &wanted))
}

fn is_met(alloc: Global, edit: &Edit) -> Result<bool, NoMemory> {
    let state = machine(alloc, edit.1, edit.2)?;
    is_done(&state, edit)
}

/// Each of the edits leaves what is wanted.
#[test]
fn edits_leave_what_is_wanted(rt: HostRuntime) -> Result<(), Fail> {
    for edit in &EDITS {
        assert!(rt; is_met(rt.alloc(), edit)?, "{}", edit.0);
    }
    Ok(())
}
