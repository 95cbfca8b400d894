//! The words that calls begin with.
ghost use Rattle.std.specs.Prelude.{◌≡◌, map};
ghost use Rattle.gixcfg_words.specs.Verbs as spec;

/// What a call with options begins with.
#[derive(Clone, Copy, PartialEq, Eq)]
pub enum Verb {
    /// Prints the value of a key, or all of them.
    Get,
    /// Gives a key a value.
    Set,
    /// Removes a key's entry.
    Unset,
    /// Prints all entries.
    List,
    /// Gives the sections of a name another one.
    RenameSection,
    /// Takes the sections of a name out.
    RemoveSection,
    /// Formats files.
    Fmt,
    /// Tells the faults of each file.
    Check,
    /// Tells what two files mean differently.
    Diff,
    /// Tells why a key has its value.
    Explain,
    /// Joins what two files made of a third.
    Merge,
    /// Tells how commands are called.
    Help,
    /// None: an option says what is done, as in `git config` before 2.46. Help has it by this word.
    Forms,
}

/// The words of the commands, in the order in which help has them.
pub static COMMANDS: [(&str, Verb); 12] = [
    ("get", Verb::Get),
    ("set", Verb::Set),
    ("unset", Verb::Unset),
    ("list", Verb::List),
    ("rename-section", Verb::RenameSection),
    ("remove-section", Verb::RemoveSection),
    ("fmt", Verb::Fmt),
    ("check", Verb::Check),
    ("diff", Verb::Diff),
    ("explain", Verb::Explain),
    ("merge", Verb::Merge),
    ("help", Verb::Help),
];

/// The words that are called without options alone, each with how it is called.
static PLAIN: [(&str, &str); 5] = [
    ("all", "all KEY"),
    ("bool", "bool KEY"),
    ("int", "int KEY"),
    ("print", "print"),
    ("load", "load FILE get KEY"),
];

/// How a word is called that takes no options, if it is one of these.
pub fn plain_call(word: &str) -> Option<&'static str> {
    for (name, call) in &PLAIN {
        if *name == word {
            return Some(*call);
        }
    }
    None
}

/// The command of a word.
pub fn verb_named(word: &str) -> Option<Verb>
    ensures { result ≡ spec.verb_named word.now }
{
    first_named(&COMMANDS, word)
}

/// The first of these commands that has a word.
#[tactic(auto, unfolding(crate::specs::Verbs::first_named))]
fn first_named(commands: &[(&'static str, Verb)], word: &str) -> Option<Verb>
    ensures { result ≡ spec.first_named word.now (map spec.named_of commands.now) }
{
    for (name, verb) in commands {
        if *name == word {
            return Some(*verb);
        }
    }
    None
}

/// What help can be asked for by a word.
pub fn topic_named(word: &str) -> Option<Verb>
    ensures { result ≡ spec.topic_named word.now }
{
    match word {
        "forms" => Some(Verb::Forms),
        word => verb_named(word),
    }
}

impl Verb {
    /// Its word.
    pub fn name(self) -> &'static str {
        match self {
            Verb::Get => "get",
            Verb::Set => "set",
            Verb::Unset => "unset",
            Verb::List => "list",
            Verb::RenameSection => "rename-section",
            Verb::RemoveSection => "remove-section",
            Verb::Fmt => "fmt",
            Verb::Check => "check",
            Verb::Diff => "diff",
            Verb::Explain => "explain",
            Verb::Merge => "merge",
            Verb::Help => "help",
            Verb::Forms => "forms",
        }
    }
}
