//! Calls that only read: what they print. The answers are those that git's manual page states for the texts, and rows/program.txt.

use crate::world::{called, machine};
use gix_config::NoMemory;
use std::alloc::Global;
use std::test::Fail;

/// A call on the file `m`, and what is wanted: the words, the file's text, the status, and what is printed.
type Read = (&'static str, &'static str, u8, &'static str, &'static str);

static READS: [Read; 24] = [
    ("get -f m a.k", "[a]\n\tk = 1\n\tk = 2\n", 0, "2\n", ""),
    (
        "get --all -f m a.k",
        "[a]\n\tk = 1\n[a]\n\tk = 2\n",
        0,
        "1\n2\n",
        "",
    ),
    (
        "get --type bool -f m a.k",
        "[a]\n\tk = on\n",
        0,
        "true\n",
        "",
    ),
    (
        "get --type=int -f m a.k",
        "[a]\n\tk = 4k\n",
        0,
        "4096\n",
        "",
    ),
    (
        "get --type=path -f m a.k",
        "[a]\n\tk = ~/x\n",
        0,
        "/h/x\n",
        "",
    ),
    (
        "get --type=bool -f m a.k",
        "[a]\n\tk = x\n",
        3,
        "",
        "gixcfg: bad boolean config value 'x' for 'a.k' [E11]\n",
    ),
    ("get -f m a.j", "[a]\n\tk = 1\n", 1, "", ""),
    ("get --default d -f m a.j", "[a]\n\tk = 1\n", 0, "d\n", ""),
    ("get -f none a.k", "", 1, "", ""),
    ("get -f l a.k", "[a]\n\tk = 1\n", 0, "1\n", ""),
    (
        "list -f m",
        "[a]\n\tk = 1\n\tj\n[A \"B\"]\n\tk = 2\n",
        0,
        "a.k=1\na.j\na.B.k=2\n",
        "",
    ),
    (
        "list --show-origin --show-scope -f m",
        "[a]\n\tk = 1\n",
        0,
        "command\tfile:m\ta.k=1\n",
        "",
    ),
    (
        "list --global --show-origin",
        "",
        0,
        "file:/h/.gitconfig\tg.k=1\n\
file:/h/.gitconfig\tincludeif.gitdir:/r/.path=here\nfile:/h/.gitconfig\tincludeif.gitdir:/x/.path=there\n",
        "",
    ),
    ("get --system s.k", "", 0, "1\n", ""),
    (
        "list --local --show-scope",
        "",
        0,
        "local\tl.k=1\nlocal\tinclude.path=more\n",
        "",
    ),
    (
        "list --worktree --includes --name-only",
        "",
        0,
        "l.k\ninclude.path\nm.k\n",
        "",
    ),
    (
        "list --effective --show-scope",
        "",
        0,
        "system\ts.k=1\nglobal\tg.k=1\n\
global\tincludeif.gitdir:/r/.path=here\nglobal\tc.k=1\nglobal\tincludeif.gitdir:/x/.path=there\n\
local\tl.k=1\nlocal\tinclude.path=more\nlocal\tm.k=1\ncommand\tv.k=1\n",
        "",
    ),
    (
        "check m",
        "[a]\n\tk = \"v\n",
        1,
        "",
        "gixcfg: m:2:6: not a value: the quote is never closed [E1]\n\tk = \"v\n\t    ^\n",
    ),
    ("check -q m", "[a]\n\tk = 1\n", 0, "", ""),
    (
        "diff m /h/here",
        "[c]\n\tk = 2\n",
        1,
        "-c.k=2\n+c.k=1\n",
        "",
    ),
    ("diff m /h/here", "# c\n[C] k=1\n", 0, "", ""),
    ("get a.k", "", 0, "i\n", ""),
    (
        "load m get c.k",
        "[include]\n\tpath = ~/here\n",
        0,
        "1\n",
        "",
    ),
    ("list -f none", "", 4, "", "gixcfg: none: no such file\n"),
];

/// Whether a call prints what is wanted, and changes nothing.
fn is_met(alloc: Global, read: &Read) -> Result<bool, NoMemory> {
    let (words, text, status, out, err) = *read;
    let state = machine(alloc, "/r/sub/m", Some(text))?;
    let done = called(&state, words, "[a]\n\tk = i\n")?;
    Ok(done.is(status, out, err) && state.changes() == 0)
}

/// Each of the calls prints what is wanted.
#[test]
fn reads_print_what_is_there(rt: HostRuntime) -> Result<(), Fail> {
    for read in &READS {
        assert!(rt; is_met(rt.alloc(), read)?, "{}", read.0);
    }
    Ok(())
}
