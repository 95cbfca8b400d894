//! What a call asks for: each command with just what it can have.

use crate::keys::Names;
use crate::kinds::Kind;
use crate::rules::Rules;
use crate::verbs::Verb;
use gitconf_sources::key::KeyRef;

/// A call, as its words have it.
#[derive(Drop)]
pub struct Call<'a> {
    /// What it asks for.
    pub command: Command<'a>,
    /// Whose rules it follows.
    pub rules: Rules,
}

/// What the words of a call ask for.
#[derive(Drop)]
pub enum Command<'a> {
    /// Prints values.
    Get(Get<'a>),
    /// Prints all entries.
    List(List<'a>),
    /// Prints a color.
    Color(Color<'a>),
    /// Tells whether output is to be colored.
    Colorbool(Colorbool<'a>),
    /// Prints standard input as it is read.
    Print,
    /// Gives a key a value.
    Set(Set<'a>),
    /// Removes entries of a key.
    Unset(Unset<'a>),
    /// Gives the sections of a name another one.
    RenameSection(Renaming<'a>),
    /// Removes the sections of a name.
    RemoveSection(Removal<'a>),
    /// Formats files.
    Fmt(Fmt<'a>),
    /// Tells what is wrong with files.
    Check(Check<'a>),
    /// Tells what two files mean differently.
    Diff(Diff<'a>),
    /// Tells why a key has its value.
    Explain(Explain<'a>),
    /// Joins what two files made of a third.
    Merge(Merge<'a>),
    /// Tells how a command is called, or without one which there are.
    Help(Option<Verb>),
    /// Tells the version of the program.
    Version,
}

/// One of git's files.
#[derive(Clone, Copy, PartialEq, Eq)]
pub enum Place {
    /// The user's file.
    Global,
    /// The system's file.
    System,
    /// The repository's file.
    Local,
    /// The file of the repository's working tree, if it has one of its own; else the repository's.
    Worktree,
}

/// The file that a call is about.
#[derive(Clone, Copy)]
pub enum Target<'a> {
    /// Standard input. What an edit makes of it is printed.
    Input,
    /// The file at a path. An edit changes it in place.
    File(&'a str),
    /// One of git's files, likewise.
    Place(Place),
    /// What `git config` works on where it is told no file: the file that the variable `GIT_CONFIG` names; else an edit changes the
    /// repository's file, and a call that reads reads all that git reads.
    Default,
}

/// What a call reads.
#[derive(Clone, Copy)]
pub enum Source<'a> {
    /// One file.
    Target(Target<'a>),
    /// All of git's files, in git's order, and its variables.
    Effective,
}

/// What a call reads, and whether with what it includes. Where that isn't said, it depends on what is read.
#[derive(Clone, Copy)]
pub struct Reading<'a> {
    /// What is read.
    pub source: Source<'a>,
    /// Whether includes are followed.
    pub includes: Option<bool>,
}

/// Which values of a key are meant.
#[derive(Clone, Copy)]
pub enum Values<'a> {
    /// All.
    Any,
    /// Those that are this text.
    Equal(&'a str),
    /// Those in which this pattern is found; if it begins with `!`, those in which what follows isn't found.
    Matching(&'a str),
}

/// What is looked for.
#[derive(Clone, Copy)]
pub enum Wanted<'a> {
    /// The entries of a key.
    Key(KeyRef<'a>),
    /// The entries of each key in which a pattern is found.
    Keys(&'a str),
    /// The entries for a URL.
    ForUrl(ForUrl<'a>),
}

/// Which entries for a URL are looked for: of each variable the one whose section matches the URL best.
#[derive(Clone, Copy)]
pub struct ForUrl<'a> {
    /// The URL.
    pub url: &'a str,
    /// The name of the sections.
    pub section_name: &'a str,
    /// The variable; all if there is none.
    pub value_name: Option<&'a str>,
}

/// Which of the entries that are found are printed.
#[derive(Clone, Copy)]
pub enum Choice<'a> {
    /// The last one; or what is printed if there is none.
    Last {
        /// What is printed if there is none.
        default: Option<Fallback<'a>>,
    },
    /// All.
    All,
}

/// What is printed in place of an entry that isn't there.
#[derive(Clone, Copy)]
pub struct Fallback<'a> {
    /// What the entry was asked for by, as it was written.
    pub word: &'a str,
    /// The value.
    pub value: &'a str,
}

/// What of an entry is printed.
#[derive(Clone, Copy)]
pub struct Form {
    /// Whether its scope comes first.
    pub has_scope: bool,
    /// Whether its file comes next.
    pub has_origin: bool,
    /// Whether its file comes next, with the line and the column where the entry begins.
    pub has_position: bool,
    /// Whether its key is printed.
    pub has_names: bool,
    /// Whether its value is printed.
    pub has_value: bool,
    /// Whether a byte 0 ends it, in place of a line feed.
    pub is_null: bool,
    /// The type that its value is printed in.
    pub kind: Option<Kind>,
}

/// What `get` prints.
#[derive(Clone, Copy)]
pub struct Get<'a> {
    /// What it reads.
    pub reading: Reading<'a>,
    /// What it looks for.
    pub wanted: Wanted<'a>,
    /// Which values count.
    pub values: Values<'a>,
    /// Which of the entries are printed.
    pub choice: Choice<'a>,
    /// How they are printed.
    pub form: Form,
}

/// What `--get-color` prints, as a terminal is told it.
#[derive(Clone, Copy)]
pub struct Color<'a> {
    /// What is read.
    pub reading: Reading<'a>,
    /// The key that has the color; without one the color is the default.
    pub key: Option<KeyRef<'a>>,
    /// The color if it has none.
    pub default: Option<Fallback<'a>>,
}

/// What `--get-colorbool` tells: whether output is to be colored.
#[derive(Clone, Copy)]
pub struct Colorbool<'a> {
    /// What is read.
    pub reading: Reading<'a>,
    /// The key that says so.
    pub key: KeyRef<'a>,
    /// A boolean: whether the output is a terminal. It is printed then whether output is to be colored.
    pub is_terminal: Option<&'a str>,
}

/// What `list` prints.
#[derive(Clone, Copy)]
pub struct List<'a> {
    /// What it reads.
    pub reading: Reading<'a>,
    /// How entries are printed.
    pub form: Form,
}

/// Which entries a value is given to.
#[derive(Clone, Copy)]
pub enum Placing<'a> {
    /// A new one.
    New,
    /// The only one whose value is meant, or a new one if there is none.
    Only(Values<'a>),
    /// One in place of all whose value is meant, or a new one if there is none.
    All(Values<'a>),
}

/// What `set` does.
#[derive(Clone, Copy)]
pub struct Set<'a> {
    /// The file.
    pub target: Target<'a>,
    /// The key.
    pub key: KeyRef<'a>,
    /// The value.
    pub value: &'a str,
    /// The type that the value is stored in.
    pub kind: Option<Kind>,
    /// Which entries it is given to.
    pub placing: Placing<'a>,
    /// The comment after the value, on one line.
    pub comment: Option<&'a str>,
    /// Whether the new text of a file is written down to the disk.
    pub is_synced: bool,
}

/// What `unset` does.
#[derive(Clone, Copy)]
pub struct Unset<'a> {
    /// The file.
    pub target: Target<'a>,
    /// The key.
    pub key: KeyRef<'a>,
    /// Which of its values are meant.
    pub values: Values<'a>,
    /// Whether there may be several.
    pub is_all: bool,
    /// Whether the new text of a file is written down to the disk.
    pub is_synced: bool,
}

/// What `rename-section` does.
#[derive(Clone, Copy)]
pub struct Renaming<'a> {
    /// The file.
    pub target: Target<'a>,
    /// The names that the sections have.
    pub old: Names<'a>,
    /// The names that they get.
    pub new: Names<'a>,
    /// Whether the new text of a file is written down to the disk.
    pub is_synced: bool,
}

/// What `remove-section` does.
#[derive(Clone, Copy)]
pub struct Removal<'a> {
    /// The file.
    pub target: Target<'a>,
    /// The names of the sections.
    pub names: Names<'a>,
    /// Whether the new text of a file is written down to the disk.
    pub is_synced: bool,
}

/// What comes before a name that begins a line.
#[derive(Clone, Copy)]
pub enum Indent {
    /// So many tabs.
    Tabs(u8),
    /// So many spaces.
    Spaces(u8),
}

/// What lines end with.
#[derive(Clone, Copy)]
pub enum Newline {
    /// A line feed.
    Lf,
    /// A carriage return and a line feed.
    CrLf,
    /// What the file has.
    Detect,
}

/// The files that are formatted.
#[derive(Drop)]
pub enum Files<'a> {
    /// One.
    One(Target<'a>),
    /// Those at paths, one after the other; `-` is standard input.
    Paths(Vec<&'a str>),
}

/// What `fmt` does.
#[derive(Drop)]
pub struct Fmt<'a> {
    /// The files.
    pub files: Files<'a>,
    /// Whether it is only told which aren't formatted.
    pub is_check: bool,
    /// What comes before a name.
    pub indent: Option<Indent>,
    /// What lines end with.
    pub newline: Option<Newline>,
    /// Whether the new text of a file is written down to the disk.
    pub is_synced: bool,
}

/// What `check` does.
#[derive(Drop)]
pub struct Check<'a> {
    /// The paths of the files; `-` is standard input.
    pub files: Vec<&'a str>,
    /// Whether nothing is told.
    pub is_quiet: bool,
    /// Whether what only git refuses is passed over.
    pub is_lenient: bool,
    /// Whether names are compared with those that git knows, if that is said.
    pub names: Option<bool>,
}

/// What `diff` does.
#[derive(Clone, Copy)]
pub struct Diff<'a> {
    /// The path of the first file; `-` is standard input.
    pub one: &'a str,
    /// The path of the second.
    pub other: &'a str,
    /// Whether nothing is printed.
    pub is_quiet: bool,
    /// Whether a byte 0 ends each entry, in place of a line feed.
    pub is_null: bool,
}

/// What `explain` tells about.
#[derive(Clone, Copy)]
pub struct Explain<'a> {
    /// What is read.
    pub reading: Reading<'a>,
    /// The key.
    pub key: KeyRef<'a>,
    /// Whether a byte 0 ends each field, instead of a tab or a line feed.
    pub is_null: bool,
}

/// Whose values a merge takes where both files changed a key.
#[derive(Clone, Copy, PartialEq, Eq)]
pub enum Favor {
    /// Nobody's: it is a conflict.
    Neither,
    /// Those of the first file that was changed.
    Ours,
    /// Those of the second.
    Theirs,
    /// Those of both.
    Union,
}

/// What `merge` does.
#[derive(Clone, Copy)]
pub struct Merge<'a> {
    /// The path of the file that both began with; `-` is standard input.
    pub base: &'a str,
    /// The path of what one made of it.
    pub ours: &'a str,
    /// The path of what the other made of it.
    pub theirs: &'a str,
    /// The file that gets the result; it is printed if there is none.
    pub output: Option<&'a str>,
    /// Whose values are taken where both changed a key.
    pub favor: Favor,
    /// Whether conflicts aren't told.
    pub is_quiet: bool,
}

impl Place {
    /// The option that names it.
    pub fn word(self) -> &'static str {
        match self {
            Place::Global => "--global",
            Place::System => "--system",
            Place::Local => "--local",
            Place::Worktree => "--worktree",
        }
    }
}

impl Command<'_> {
    /// Whether it reads standard input without a `-` among the names of files.
    pub fn reads_input(&self) -> bool {
        match self {
            Command::Print => true,
            Command::Get(get) => get.reading.is_of_input(),
            Command::List(list) => list.reading.is_of_input(),
            Command::Color(color) => color.reading.is_of_input(),
            Command::Colorbool(colorbool) => colorbool.reading.is_of_input(),
            Command::Set(set) => set.target.is_input(),
            Command::Unset(unset) => unset.target.is_input(),
            Command::RenameSection(renaming) => renaming.target.is_input(),
            Command::RemoveSection(removal) => removal.target.is_input(),
            Command::Fmt(fmt) => fmt.files.is_input(),
            Command::Explain(explain) => explain.reading.is_of_input(),
            Command::Check(_)
            | Command::Diff(_)
            | Command::Merge(_)
            | Command::Help(_)
            | Command::Version => false,
        }
    }
}

impl<'a> Target<'a> {
    /// The word that names it, or would.
    pub fn word(self) -> &'a str {
        match self {
            Target::Place(place) => place.word(),
            Target::Default => Place::Local.word(),
            Target::File(path) => path,
            Target::Input => "standard input",
        }
    }

    /// Whether it is standard input.
    fn is_input(&self) -> bool {
        matches!(self, Target::Input)
    }
}

impl<'a> Source<'a> {
    /// The word that names it, or would.
    pub fn word(self) -> &'a str {
        match self {
            Source::Target(target) => target.word(),
            Source::Effective => "--effective",
        }
    }
}

impl Reading<'_> {
    /// Whether standard input is read.
    fn is_of_input(&self) -> bool {
        matches!(self.source, Source::Target(Target::Input))
    }
}

impl Files<'_> {
    /// Whether standard input is formatted.
    fn is_input(&self) -> bool {
        matches!(self, Files::One(Target::Input))
    }
}
