//! What the program says about its commands.
ghost use Rattle.std.specs.Prelude.{◌≡◌};
ghost use Rattle.gixcfg_words.specs.Help.{help_text};

use crate::verbs::Verb;

/// What `gixcfg help` prints.
pub const OVERVIEW: &str = "\
usage: gixcfg COMMAND [OPTIONS] [WORDS]

    get             prints the value of a key, or all of them
    set             gives a key a value
    unset           removes a key's entry
    list            prints all entries
    rename-section  gives a section another name
    remove-section  removes a section
    fmt             lays files out
    check           reports the faults of files
    diff            prints what two files mean differently
    explain         tells why a key has its value
    merge           joins what two files made of a third
    help            shows how a command is used

With -f FILE a command works on that file, with --global, --system, --local or --worktree on the file of the user, the
system, the repository or its working tree, and an edit changes it in place. Without them the file is standard input, and
what an edit makes of it is standard output.

Without options there are also: get KEY, all KEY, bool KEY, int KEY, set KEY VALUE, unset KEY, list, print, fmt, and
load FILE get KEY. What a script says to git config is understood too, as --get KEY or KEY VALUE; see gixcfg help forms.

gixcfg help COMMAND says more about a command.
";

const GET: &str = "\
usage: gixcfg get [-f FILE] [--all] [--regexp] [--value PATTERN [--fixed-value]] [--url URL] [--default VALUE]
                  [--type TYPE] [-z] [--show-origin] [--show-scope] [--show-position] [--show-names] [--name-only] KEY

Prints the last value of a key, or with --all each of its values, a line each.

    -f, --file FILE   the file; - is standard input, as without it
    --global          the user's file, in place of -f: ~/.gitconfig
    --system          the system's file: /etc/gitconfig
    --local           the repository's file: .git/config
    --worktree        the file of the working tree, if each has one of its own, else the repository's
    --effective       all that git reads here, with includes: the files of these four, and GIT_CONFIG_COUNT
    --all             all values, in the order of the file
    --regexp          KEY is a pattern, for keys as list prints them
    --value PATTERN   only values in which the pattern is found; those in which it isn't if ! is before it
    --fixed-value     only values that are that text
    --url URL         the entry whose subsection is the URL that matches this one best, as of http.sslVerify; of a
                      section alone, as http, that of each of its variables, with its key
    --default VALUE   this value if the key isn't there
    -t, --type TYPE   the value as bool, int, bool-or-int, bool-or-str, path, expiry-date or color;
                      refused if it is none; also as --bool, --int and so on
    -z, --null        a byte 0 in place of each line feed, and a line feed after each key
    --show-origin     the file before each value
    --show-scope      system, global, local, worktree or command before each value
    --show-position   the file before each value, with line and column
    --includes        what is included too, as with --effective and standard input; or not, by --no-includes
    --show-names      the key before each value
    --name-only       the key without the value

Ends with 1 if the key isn't there.

    $ gixcfg get -f .git/config --type bool core.bare
    false
";

const SET: &str = "\
usage: gixcfg set [-f FILE] [--all] [--append] [--value PATTERN [--fixed-value]] [--type TYPE] [--comment COMMENT]
                  [--no-sync] KEY VALUE

Gives a key a value, in its place if it is there, else in the last section of its name, else in a new one.

    -f, --file FILE   the file, which is changed in place, and made if it isn't there; - is standard input, as without it
    --global          the user's file, in place of -f: ~/.gitconfig
    --system          the system's file: /etc/gitconfig
    --local           the repository's file: .git/config
    --worktree        the file of the working tree, if each has one of its own, else the repository's
    --all             one entry in place of all entries of the key, where the last of them is
    --append          one more entry, at the end of the last section of the name
    --value PATTERN   only of entries in whose value the pattern is found, or isn't if ! is before it; one more if there is none
    --fixed-value     only of entries whose value is that text
    -t, --type TYPE   the value as bool, int, bool-or-int, bool-or-str, path, expiry-date or color;
                      refused if it is none; also as --bool, --int and so on
    --comment COMMENT this comment after the value, in place of one that is there; # is put before it if it has none
    --no-sync         the new file isn't written down to the disk first: faster, but a loss of power may tear it

Ends with 5 if the key has several entries, and neither --all nor --append is given; with 4 if the file can't be
written. The file is the old one or the new one at any time, also after a loss of power: the new one is written beside it,
and renamed over it.

    $ gixcfg set -f .git/config --comment 'for this project' user.name Ada
";

const UNSET: &str = "\
usage: gixcfg unset [-f FILE] [--all] [--value PATTERN [--fixed-value]] [--no-sync] KEY

Removes a key's entry, and with the last one its section's header, if no comment is left there.

    -f, --file FILE   the file, which is changed in place; - is standard input, as without it
    --global          the user's file, in place of -f: ~/.gitconfig
    --system          the system's file: /etc/gitconfig
    --local           the repository's file: .git/config
    --worktree        the file of the working tree, if each has one of its own, else the repository's
    --all             all entries of the key
    --value PATTERN   only entries in whose value the pattern is found, or isn't if ! is before it
    --fixed-value     only entries whose value is that text
    --no-sync         the new file isn't written down to the disk first: faster, but a loss of power may tear it

Ends with 5 if there is no entry, or several of them and --all isn't given.

    $ gixcfg unset -f .git/config user.name
";

const LIST: &str = "\
usage: gixcfg list [-f FILE] [--type TYPE] [-z] [--name-only] [--show-origin] [--show-scope] [--show-position]

Prints all entries, a line each: the key, = and the value.

    -f, --file FILE   the file; - is standard input, as without it
    --global          the user's file, in place of -f: ~/.gitconfig
    --system          the system's file: /etc/gitconfig
    --local           the repository's file: .git/config
    --worktree        the file of the working tree, if each has one of its own, else the repository's
    --effective       all that git reads here, with includes: the files of these four, and GIT_CONFIG_COUNT
    -t, --type TYPE   only values of this type, printed in it: bool, int, bool-or-int, bool-or-str, path, expiry-date or color
    -z, --null        a byte 0 in place of each line feed at the end, and a line feed after each key
    --name-only       keys without values
    --show-origin     the file before each entry
    --show-scope      system, global, local, worktree or command before each entry
    --show-position   the file before each entry, with line and column
    --includes        what is included too, as with --effective and standard input; or not, by --no-includes

    $ gixcfg list -f .git/config
    core.bare=false
";

const RENAME: &str = "\
usage: gixcfg rename-section [-f FILE] [--no-sync] OLD NEW

Gives all sections of a name another one: a name such as core, or a name and a subsection such as remote.origin.

    -f, --file FILE   the file, which is changed in place; - is standard input, as without it
    --global          the user's file, in place of -f: ~/.gitconfig
    --system          the system's file: /etc/gitconfig
    --local           the repository's file: .git/config
    --worktree        the file of the working tree, if each has one of its own, else the repository's
    --no-sync         the new file isn't written down to the disk first: faster, but a loss of power may tear it

Ends with 1 if there is no such section.

    $ gixcfg rename-section -f .git/config remote.origin remote.upstream
";

const REMOVE: &str = "\
usage: gixcfg remove-section [-f FILE] [--no-sync] NAME

Removes all sections of a name, with their entries and comments.

    -f, --file FILE   the file, which is changed in place; - is standard input, as without it
    --global          the user's file, in place of -f: ~/.gitconfig
    --system          the system's file: /etc/gitconfig
    --local           the repository's file: .git/config
    --worktree        the file of the working tree, if each has one of its own, else the repository's
    --no-sync         the new file isn't written down to the disk first: faster, but a loss of power may tear it

Ends with 1 if there is no such section.

    $ gixcfg remove-section -f .git/config remote.origin
";

const FMT: &str = "\
usage: gixcfg fmt [-f FILE] [--check] [--indent tabs:N|spaces:N] [--newline lf|crlf|detect] [--no-sync]
                  [FILE...]

Lays files out: an indent before each entry, one blank on each side of =, one line ending at the end. Each FILE is changed
in place; - is standard input.

    -f, --file FILE   the file, which is changed in place; - is standard input, as without it
    --global          the user's file, in place of -f: ~/.gitconfig
    --system          the system's file: /etc/gitconfig
    --local           the repository's file: .git/config
    --worktree        the file of the working tree, if each has one of its own, else the repository's
    --check           nothing is written, but which files aren't laid out; ends with 1 if one isn't
    --indent INDENT   what comes before an entry: tabs:1 if it isn't given
    --newline ENDING  what lines end with: that of the file if it isn't given
    --no-sync         the new file isn't written down to the disk first: faster, but a loss of power may tear it

    $ gixcfg fmt -f .git/config --indent spaces:4
";

const CHECK: &str = "\
usage: gixcfg check [-q] [--lenient] [--names] FILE...

Reads each file, and reports its first fault: the place, what is wrong, and the line; then each place at which git refuses
what is read here, or reads something else. - is standard input.

    --lenient         what git makes of the file isn't asked
    --names           reported are also names that git doesn't know in its own sections or has given up, values of a wrong
                      type, and settings that the file sets again; on for a repository's own file, unless --no-names
    -q, --quiet       nothing is printed

Ends with 1 if a file has a fault, and with 4 if one can't be read.

    $ gixcfg check .git/config
";

const DIFF: &str = "\
usage: gixcfg diff [-q] [-z] A B

Prints what two files mean differently, a line each: -key=value for an entry of A, +key=value for one of B. It prints all
entries of each key that has other values in B, or the same in another order. Keys are sorted. - is standard input.

    -q, --quiet       no differences are printed
    -z, --null        a byte 0 in place of each line feed at the end, and a line feed after each key

Ends with 0 if they mean the same, and with 1 if not.

    $ gixcfg diff .git/config ~/.gitconfig
    -core.bare=false
    +user.name=Ada
";

const EXPLAIN: &str = "\
usage: gixcfg explain [-f FILE] [--includes] [-z] KEY

Tells why a key has its value: each of its entries in the order in which they are read, with scope, file, line and column,
and which one counts; then each include on the way, whether it was followed, and why not. Without a file it is all that
git reads here.

    -f, --file FILE   the file; - is standard input, with what it includes
    --global          the user's file, in place of -f: ~/.gitconfig
    --system          the system's file: /etc/gitconfig
    --local           the repository's file: .git/config
    --worktree        the file of the working tree, if each has one of its own, else the repository's
    --effective       all that git reads here, as without a file
    --includes        what is included too, as without a file; or not, by --no-includes
    -z, --null        a byte 0 behind each field: scope, file, line, column, key, value, and what is said of it

Ends with 1 if the key isn't there.

    $ gixcfg explain -f .git/config core.bare
    command\tfile:.git/config:3:2\tcore.bare=false\tcounts
";

const MERGE: &str = "\
usage: gixcfg merge [-o FILE] [--ours|--theirs|--union] [-q] BASE OURS THEIRS

Joins what two files made of a third, by meaning: a key that one side left as it was gets the values of the other. Prints
OURS with what THEIRS changed; comments, layout and order of OURS stay. A key that both sides changed, and not alike, is a
conflict: it is reported, and both sides are marked in the text, as git marks them. - is standard input.

    -o, --output FILE the file that gets the result, in place of standard output; it may be OURS
    --ours            in a conflict the values of OURS are taken
    --theirs          in a conflict the values of THEIRS are taken
    --union           in a conflict the values of OURS are taken, and then those that only THEIRS has
    -q, --quiet       conflicts aren't reported

Ends with 1 if there are conflicts. As git's merge driver:

    [merge \"gixcfg\"]
        driver = gixcfg merge -q -o %A %O %A %B

    $ gixcfg merge base.config .git/config theirs.config
    [core]
    \tbare = false
";

const HELP: &str = "\
usage: gixcfg help [COMMAND]

Shows how a command is used, with an example; without a word, lists the commands.

    $ gixcfg help set
";

const FORMS: &str = "\
usage: gixcfg [FILE-OPTION] [ACTION] [OPTIONS] [WORDS]

Calls as those of git config before 2.46, where an option says what is done, or none.

    KEY, --get KEY [PATTERN]          prints the last value
    --get-all KEY [PATTERN]           prints all values
    --get-regexp PATTERN [PATTERN]    prints keys and values of the keys in which a pattern is found
    --get-urlmatch NAME URL           prints what is for a URL, as get --url
    --get-color KEY [DEFAULT]         prints a color as a terminal is told it, without a line ending
    --get-colorbool KEY [IS-TERMINAL] ends with 0 if output is to be colored, else with 1; prints true or false with IS-TERMINAL
    KEY VALUE [PATTERN]               gives a key a value
    --add KEY VALUE                   adds an entry
    --replace-all KEY VALUE [PATTERN] gives a key a value in place of all
    --unset KEY [PATTERN]             removes a key's entry
    --unset-all KEY [PATTERN]         removes all entries of a key
    --rename-section OLD NEW          gives sections another name
    --remove-section NAME             removes sections
    -l, --list                        prints all entries

A PATTERN after a key or a value picks values, with --fixed-value as a text. FILE-OPTION is -f FILE, --global, --system,
--local or --worktree. Without it the file that GIT_CONFIG names is meant; else what only reads reads all that git reads
here, and what edits edits the repository's file. Options come before other words.

    $ gixcfg --get core.editor
    vi
";

/// The help on a command, or without one on all.
pub fn help_on(verb: Option<Verb>) -> &'static str
    ensures { result.now ≡ help_text verb }
{
    match verb {
        None => OVERVIEW,
        Some(Verb::Get) => GET,
        Some(Verb::Set) => SET,
        Some(Verb::Unset) => UNSET,
        Some(Verb::List) => LIST,
        Some(Verb::RenameSection) => RENAME,
        Some(Verb::RemoveSection) => REMOVE,
        Some(Verb::Fmt) => FMT,
        Some(Verb::Check) => CHECK,
        Some(Verb::Diff) => DIFF,
        Some(Verb::Explain) => EXPLAIN,
        Some(Verb::Merge) => MERGE,
        Some(Verb::Help) => HELP,
        Some(Verb::Forms) => FORMS,
    }
}
