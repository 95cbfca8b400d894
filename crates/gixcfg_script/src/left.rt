//! Temporary files beside a file, as edits that were killed leave them.

use crate::machine::{Machine, State};
use crate::tree::Node;
use crate::world::{called, machine};
use gix_config::NoMemory;
use std::alloc::Global;
use std::test::Fail;

static TEXT: &str = "[a]\n\tk = 1\n";

/// What is beside the file before an edit, and whether it is there after it. Another process holds the fourth.
static BESIDE: [(&str, bool); 11] = [
    ("m.gixcfg-3b6f0c52-91d4-4e7a-11111111-2222-4333", false),
    ("m.gixcfg-3b6f0c52-91d4-4e7a-c0ffee00-1234-4abc.lock", false),
    ("m.gixcfg-3b6f0c52-91d4-4e7a-", false),
    (HELD, true),
    ("m.gixcfg-3b6f0c52-91d4-4e7b-11111111-2222-4333", true),
    ("m.gixcfg-11111111-2222-4333", true),
    ("m.gixcfg-20261129", true),
    ("m.gixcfg-7", true),
    ("m.gixcfg-", true),
    ("n.gixcfg-3b6f0c52-91d4-4e7a-11111111-2222-4333", true),
    ("mm.gixcfg-3b6f0c52-91d4-4e7a-11111111-2222-4333", true),
];

const HELD: &str = "m.gixcfg-3b6f0c52-91d4-4e7a-44444444-5555-4666";

static TOLD: &str =
    "gixcfg: m.gixcfg-3b6f0c52-91d4-4e7a-11111111-2222-4333: removed, left by an edit that was stopped\n\
gixcfg: m.gixcfg-3b6f0c52-91d4-4e7a-c0ffee00-1234-4abc.lock: removed, left by an edit that was stopped\n\
gixcfg: m.gixcfg-3b6f0c52-91d4-4e7a-: removed, left by an edit that was stopped\n";

/// The machine with the file, temporary files and other files beside it.
fn machine_with_drafts(alloc: Global) -> Result<State, NoMemory> {
    let mut state = machine(alloc, "/r/sub/m", Some(TEXT))?;
    for (name, _) in &BESIDE {
        state.put(name, Node::File(Vec::new(alloc), 0o600))?;
    }
    state.hold(HELD)?;
    Ok(state)
}

/// Whether what is to be beside the file is there, and what isn't isn't.
fn is_left(state: &State) -> bool {
    match (Machine { state }).tree() {
        Ok(tree) => BESIDE
            .iter()
            .all(|(name, is_kept)| tree.file(name).is_some() == *is_kept),
        Err(_) => false,
    }
}

/// Whether all that was beside the file is there.
fn is_all_there(state: &State) -> bool {
    match (Machine { state }).tree() {
        Ok(tree) => BESIDE.iter().all(|(name, _)| tree.file(name).is_some()),
        Err(_) => false,
    }
}

/// Whether an edit that writes something removes what was left, and tells that.
fn is_removed(alloc: Global) -> Result<bool, NoMemory> {
    let state = machine_with_drafts(alloc)?;
    let done = called(&state, "set -f l a.k 2", "")?;
    Ok(done.is(0, "", TOLD) && is_left(&state))
}

/// Whether an edit that changes nothing leaves all as it is.
fn is_spared(alloc: Global) -> Result<bool, NoMemory> {
    let state = machine_with_drafts(alloc)?;
    let done = called(&state, "set -f l a.k 1", "")?;
    Ok(done.is(0, "", "") && is_all_there(&state))
}

/// Temporary files that nobody holds are removed, and no other file.
#[test]
fn drafts_that_were_left_are_removed(rt: HostRuntime) -> Result<(), Fail> {
    assert!(rt; is_removed(rt.alloc())?);
    assert!(rt; is_spared(rt.alloc())?);
    Ok(())
}
