//! Edits of a file that another process changes meanwhile.

use crate::machine::{Change, Machine, State};
use crate::world::{called, machine};
use gix_config::NoMemory;
use std::alloc::Global;
use std::test::Fail;

/// An edit, and what is wanted: the words; the text before; what the other process does each time before the lock is made, and how often;
/// the status, and what is told; the text after.
type Edit = (
    &'static str,
    Option<&'static str>,
    (Change, usize),
    (u8, &'static str),
    Option<&'static str>,
);

static EDITS: [Edit; 6] = [
    (
        "set -f m a.k 2",
        Some("[a]\n\tk = 1\n"),
        (Change::Grow, 1),
        (0, ""),
        Some("[a]\n\tk = 2\n#\n"),
    ),
    (
        "set -f m a.k 2",
        Some("[a]\n\tk = 1\n"),
        (Change::Grow, 15),
        (0, ""),
        Some("[a]\n\tk = 2\n#\n#\n#\n#\n#\n#\n#\n#\n#\n#\n#\n#\n#\n#\n#\n"),
    ),
    (
        "set -f m a.k 2",
        Some("[a]\n\tk = 1\n"),
        (Change::Grow, 16),
        (4, "gixcfg: m: it keeps changing\n"),
        Some("[a]\n\tk = 1\n#\n#\n#\n#\n#\n#\n#\n#\n#\n#\n#\n#\n#\n#\n#\n#\n"),
    ),
    (
        "set -f m a.k 2",
        Some("[a]\n\tk = 1\n[b]\n"),
        (Change::Remove, 1),
        (0, ""),
        Some("[a]\n\tk = 2\n"),
    ),
    (
        "unset -f m a.k",
        Some("[a]\n\tk = 1\n"),
        (Change::Remove, 1),
        (5, ""),
        None,
    ),
    (
        "set -f m a.k 2",
        None,
        (Change::Make, 1),
        (0, ""),
        Some("[a]\n\tk = 2\n"),
    ),
];

/// Whether the file has a text, or isn't there, and nothing lies beside it.
fn has(state: &State, text: Option<&str>) -> bool {
    let Ok(tree) = (Machine { state }).tree() else {
        return false;
    };
    let is_text = match (tree.file("m"), text) {
        (Some((found, _)), Some(text)) => found == text.as_bytes(),
        (found, text) => found.is_none() && text.is_none(),
    };
    is_text
        && tree.file("m.lock").is_none()
        && tree
            .file("m.gixcfg-3b6f0c52-91d4-4e7a-c0ffee00-1234-4abc")
            .is_none()
}

fn is_met(alloc: Global, edit: &Edit) -> Result<bool, NoMemory> {
    let (words, before, (change, count), (status, err), after) = *edit;
    let mut state = machine(alloc, "/r/sub/m", before)?;
    state.disturb("m", change, count)?;
    let done = called(&state, words, "")?;
    Ok(done.is(status, "", err) && has(&state, after))
}

/// What another process did meanwhile isn't lost.
#[test]
fn changes_of_others_stay(rt: HostRuntime) -> Result<(), Fail> {
    for edit in &EDITS {
        assert!(rt; is_met(rt.alloc(), edit)?, "{}", edit.0);
    }
    Ok(())
}
