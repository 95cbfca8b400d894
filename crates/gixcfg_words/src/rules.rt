//! Whose rules a call follows.

/// Whose rules a call follows. All that differs by them, of which tools/manual makes the manual's table:
///
/// | | with options | without |
/// |---|---|---|
/// | `get`, if the key's last entry has no `=` | prints an empty line | passes that entry's section over |
/// | `list` of an entry without `=` | prints the key | prints the key and `=` |
/// | a byte 0 in a value | ends what is printed of it | is printed |
/// | `[a.b "c"]` | has the entries of `a.b.c.k` | hasn't |
/// | booleans and integers | are as git reads them | are as the library reads them |
/// | `set` | changes the key's only entry, or adds one | changes the last entry in the last section of the name, or adds one there |
/// | `unset` | removes the key's only entry | removes the last one in the last section that has one |
/// | a byte order mark, blanks before the first header | stay | go, get a line of their own |
/// | what standard input includes | is read by `get` and `list` | isn't read |
/// | a refusal | is told with its place and reason | is told by its number |
/// | a name that isn't allowed, no entry to remove | status 1, 5 | status 3, 1 |
#[derive(Clone, Copy, PartialEq, Eq)]
pub enum Rules {
    /// git's.
    Git,
    /// Those of the library's calls, with which a program reads and edits a file.
    Library,
}
