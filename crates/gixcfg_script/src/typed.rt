//! Calls of somebody who types them: what is told on a terminal.

use crate::world::{called_by_hand, machine};
use gix_config::NoMemory;
use std::alloc::Global;
use std::test::Fail;

/// What is told where standard input is read.
const INPUT: &str =
    "gixcfg: standard input is read; see --effective for what git reads, and -f FILE\n";

/// Calls, each with its status, what it prints, and what it tells. Standard input has one entry, `a.k`.
static CALLS: [(&str, u8, &str, &str); 8] = [
    ("get a.k", 0, "1\n", INPUT),
    ("list -z", 0, "a.k\n1\0", INPUT),
    ("unset --all a.j", 5, "", INPUT),
    ("fmt -f -", 0, "[a]\n\tk = 1\n", INPUT),
    ("get -f m a.j", 0, "2\n", ""),
    ("check -", 0, "", ""),
    (
        "gett a.k",
        2,
        "",
        "gixcfg: not a command: gett; did you mean get? See gixcfg help\n",
    ),
    (
        "get",
        2,
        "",
        "gixcfg: words are missing; see gixcfg help get\n",
    ),
];

/// Whether a call by hand ends as it should.
fn is_told(
    alloc: Global,
    call: &(&'static str, u8, &'static str, &'static str),
) -> Result<bool, NoMemory> {
    let state = machine(alloc, "/r/sub/m", Some("[a]\n\tj = 2\n"))?;
    let (words, status, out, err) = *call;
    Ok(called_by_hand(&state, words, "[a]\n\tk = 1\n")?.is(status, out, err))
}

#[test]
fn what_is_read_is_told_on_a_terminal(rt: HostRuntime) -> Result<(), Fail> {
    for call in &CALLS {
        assert!(rt; is_told(rt.alloc(), call)?, "{}", call.0);
    }
    Ok(())
}
