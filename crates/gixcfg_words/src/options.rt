//! The options: their words, and which command takes which.
ghost use Rattle.std.specs.Prelude.{◌≡◌, ◌==◌, map};
ghost use Rattle.gixcfg_words.specs.Options as spec;

use crate::command::Place;
use crate::kinds::Kind;
use crate::verbs::Verb;

/// What is done where an option says it, as in `git config` before 2.46.
#[derive(Clone, Copy, PartialEq, Eq)]
pub enum Action {
    /// `--get KEY [PATTERN]`, or `KEY` alone
    Get,
    /// `--get-all KEY [PATTERN]`
    GetAll,
    /// `--get-regexp PATTERN [PATTERN]`
    GetRegexp,
    /// `--get-urlmatch NAME URL`
    GetUrlmatch,
    /// `--add KEY VALUE`
    Add,
    /// `KEY VALUE [PATTERN]`
    Set,
    /// `--replace-all KEY VALUE [PATTERN]`
    ReplaceAll,
    /// `--unset KEY [PATTERN]`
    Unset,
    /// `--unset-all KEY [PATTERN]`
    UnsetAll,
    /// `--rename-section OLD NEW`
    RenameSection,
    /// `--remove-section NAME`
    RemoveSection,
    /// `--list`
    List,
    /// `--get-color KEY [DEFAULT]`
    GetColor,
    /// `--get-colorbool KEY [IS-TERMINAL]`
    GetColorbool,
}

/// What only git does.
#[derive(Clone, Copy, PartialEq, Eq)]
pub enum Alone {
    /// It starts an editor.
    Edit,
    /// It reads a blob of the repository.
    Blob,
}

/// An option.
#[derive(Clone, Copy, PartialEq, Eq)]
pub enum Opt {
    /// The file that is worked on.
    File,
    /// One of git's files in its place.
    Place(Place),
    /// All that git sees.
    Effective,
    /// Help on the command.
    Help,
    /// All entries of the key.
    All,
    /// One more entry of the key.
    Append,
    /// The word is a pattern for keys.
    Regexp,
    /// Which values are meant.
    Value,
    /// These are just that text.
    FixedValue,
    /// The URL that entries are for.
    Url,
    /// The value if there is none.
    Default,
    /// The type of a value.
    Type,
    /// This type.
    Kind(Kind),
    /// A comment after the value.
    Comment,
    /// A byte 0 after each value.
    Null,
    /// The file of each value.
    ShowOrigin,
    /// The scope of each value.
    ShowScope,
    /// What is included is read too.
    Includes,
    /// The names of each value.
    ShowNames,
    /// The names without values.
    NameOnly,
    /// Whether the file is formatted, and nothing written.
    Check,
    /// What comes before a name.
    Indent,
    /// What lines end with.
    Newline,
    /// Nothing is printed.
    Quiet,
    /// What only git refuses is passed over.
    Lenient,
    /// What an edit makes of a file is written down to the disk, unless that is taken back.
    Sync,
    /// Names are compared with those that git knows.
    Names,
    /// The file that gets the result.
    Output,
    /// The file, the line and the column of each value.
    ShowPosition,
    /// Where both changed a key, the values of the first are taken.
    Ours,
    /// Those of the second.
    Theirs,
    /// Those of both.
    Union,
    /// What is done.
    Do(Action),
    /// What only git does.
    Alone(Alone),
}

/// How an option is written: its word behind two dashes, its letter behind one, if it has one, and the option.
type Spelling = (&'static str, Option<char>, Opt);

/// The options.
static OPTIONS: [Spelling; 55] = [
    ("file", Some('f'), Opt::File),
    ("global", None, Opt::Place(Place::Global)),
    ("system", None, Opt::Place(Place::System)),
    ("local", None, Opt::Place(Place::Local)),
    ("worktree", None, Opt::Place(Place::Worktree)),
    ("effective", None, Opt::Effective),
    ("help", Some('h'), Opt::Help),
    ("all", None, Opt::All),
    ("append", None, Opt::Append),
    ("regexp", None, Opt::Regexp),
    ("value", None, Opt::Value),
    ("fixed-value", None, Opt::FixedValue),
    ("url", None, Opt::Url),
    ("default", None, Opt::Default),
    ("type", Some('t'), Opt::Type),
    ("bool", None, Opt::Kind(Kind::Bool)),
    ("int", None, Opt::Kind(Kind::Int)),
    ("bool-or-int", None, Opt::Kind(Kind::BoolOrInt)),
    ("bool-or-str", None, Opt::Kind(Kind::BoolOrStr)),
    ("path", None, Opt::Kind(Kind::Path)),
    ("expiry-date", None, Opt::Kind(Kind::ExpiryDate)),
    ("comment", None, Opt::Comment),
    ("null", Some('z'), Opt::Null),
    ("show-origin", None, Opt::ShowOrigin),
    ("show-scope", None, Opt::ShowScope),
    ("show-position", None, Opt::ShowPosition),
    ("includes", None, Opt::Includes),
    ("show-names", None, Opt::ShowNames),
    ("name-only", None, Opt::NameOnly),
    ("check", None, Opt::Check),
    ("indent", None, Opt::Indent),
    ("newline", None, Opt::Newline),
    ("quiet", Some('q'), Opt::Quiet),
    ("lenient", None, Opt::Lenient),
    ("sync", None, Opt::Sync),
    ("names", None, Opt::Names),
    ("output", Some('o'), Opt::Output),
    ("ours", None, Opt::Ours),
    ("theirs", None, Opt::Theirs),
    ("union", None, Opt::Union),
    ("get", None, Opt::Do(Action::Get)),
    ("get-all", None, Opt::Do(Action::GetAll)),
    ("get-regexp", None, Opt::Do(Action::GetRegexp)),
    ("get-urlmatch", None, Opt::Do(Action::GetUrlmatch)),
    ("get-color", None, Opt::Do(Action::GetColor)),
    ("get-colorbool", None, Opt::Do(Action::GetColorbool)),
    ("add", None, Opt::Do(Action::Add)),
    ("replace-all", None, Opt::Do(Action::ReplaceAll)),
    ("unset", None, Opt::Do(Action::Unset)),
    ("unset-all", None, Opt::Do(Action::UnsetAll)),
    ("rename-section", None, Opt::Do(Action::RenameSection)),
    ("remove-section", None, Opt::Do(Action::RemoveSection)),
    ("list", Some('l'), Opt::Do(Action::List)),
    ("edit", Some('e'), Opt::Alone(Alone::Edit)),
    ("blob", None, Opt::Alone(Alone::Blob)),
];

/// Whether an option names the file that is worked on.
fn names_file(option: Opt) -> bool
    ensures { result ≡ spec.names_file option }
{
    matches!(option, Opt::File | Opt::Place(_) | Opt::Alone(Alone::Blob))
}

/// Whether an option says how a file is edited.
fn is_of_editing(option: Opt) -> bool
    ensures { result ≡ spec.is_of_editing option }
{
    names_file(option) || matches!(option, Opt::Sync)
}

/// Whether an option says which values are read, and how they are printed.
fn is_of_reading(option: Opt) -> bool
    ensures { result ≡ spec.is_of_reading option }
{
    names_file(option)
        || is_type(option)
        || matches!(
            option,
            Opt::Null | Opt::ShowOrigin | Opt::ShowScope | Opt::Includes | Opt::NameOnly
        )
}

/// Whether an option says which type a value has.
fn is_type(option: Opt) -> bool
    ensures { result ≡ spec.is_type option }
{
    matches!(option, Opt::Type | Opt::Kind(_))
}

/// Whether an option says which values of a key are meant.
fn is_of_values(option: Opt) -> bool
    ensures { result ≡ spec.is_of_values option }
{
    matches!(option, Opt::All | Opt::Value | Opt::FixedValue)
}

/// Whether `get` takes an option.
fn is_of_get(option: Opt) -> bool
    ensures { result ≡ spec.is_of_get option }
{
    is_of_reading(option)
        || is_of_values(option)
        || matches!(
            option,
            Opt::Effective
                | Opt::Regexp
                | Opt::Url
                | Opt::Default
                | Opt::ShowNames
                | Opt::ShowPosition
        )
}

/// Whether `list` takes an option.
fn is_of_list(option: Opt) -> bool
    ensures { result ≡ spec.is_of_list option }
{
    is_of_reading(option) || matches!(option, Opt::Effective | Opt::ShowNames | Opt::ShowPosition)
}

/// Whether `set` takes an option.
fn is_of_set(option: Opt) -> bool
    ensures { result ≡ spec.is_of_set option }
{
    is_of_editing(option)
        || is_type(option)
        || is_of_values(option)
        || matches!(option, Opt::Append | Opt::Comment)
}

/// Whether `explain` takes an option.
fn is_of_explain(option: Opt) -> bool
    ensures { result ≡ spec.is_of_explain option }
{
    names_file(option) || matches!(option, Opt::Effective | Opt::Includes | Opt::Null)
}

/// Whether `merge` takes an option.
fn is_of_merge(option: Opt) -> bool
    ensures { result ≡ spec.is_of_merge option }
{
    matches!(
        option,
        Opt::Output | Opt::Ours | Opt::Theirs | Opt::Union | Opt::Quiet
    )
}

/// Whether `fmt` takes an option.
fn is_of_fmt(option: Opt) -> bool
    ensures { result ≡ spec.is_of_fmt option }
{
    is_of_editing(option) || matches!(option, Opt::Check | Opt::Indent | Opt::Newline)
}

/// Whether an option may stand in a call in which an option says what is done.
fn is_of_forms(option: Opt) -> bool
    ensures { result ≡ spec.is_of_forms option }
{
    is_of_reading(option)
        || matches!(
            option,
            Opt::Do(_) | Opt::Alone(_) | Opt::Default | Opt::Comment | Opt::FixedValue | Opt::Sync
        )
}

/// Whether a command takes an option.
pub(crate) fn takes(verb: Verb, option: Opt) -> bool
    ensures { result ≡ spec.takes verb option }
{
    match verb {
        _ if matches!(option, Opt::Help) => true,
        Verb::Get => is_of_get(option),
        Verb::List => is_of_list(option),
        Verb::Set => is_of_set(option),
        Verb::Unset => is_of_editing(option) || is_of_values(option),
        Verb::RenameSection | Verb::RemoveSection => is_of_editing(option),
        Verb::Fmt => is_of_fmt(option),
        Verb::Check => matches!(option, Opt::Quiet | Opt::Lenient | Opt::Names),
        Verb::Diff => matches!(option, Opt::Quiet | Opt::Null),
        Verb::Explain => is_of_explain(option),
        Verb::Merge => is_of_merge(option),
        Verb::Help => false,
        Verb::Forms => is_of_forms(option),
    }
}

/// Whether an action takes an option that [`Verb::Forms`] takes.
pub(crate) fn goes_with(action: Action, option: Opt) -> bool
    ensures { result ≡ spec.goes_with action option }
{
    match option {
        Opt::Default => matches!(action, Action::Get),
        Opt::Comment => matches!(action, Action::Add | Action::Set | Action::ReplaceAll),
        Opt::Sync => !matches!(
            action,
            Action::Get
                | Action::GetAll
                | Action::GetRegexp
                | Action::GetUrlmatch
                | Action::GetColor
                | Action::GetColorbool
                | Action::List
        ),
        Opt::Type | Opt::Kind(_) => !matches!(action, Action::GetColor | Action::GetColorbool),
        Opt::NameOnly => matches!(action, Action::List | Action::GetRegexp),
        Opt::ShowOrigin => matches!(
            action,
            Action::Get | Action::GetAll | Action::GetRegexp | Action::List
        ),
        Opt::FixedValue => !matches!(
            action,
            Action::GetUrlmatch
                | Action::GetColor
                | Action::GetColorbool
                | Action::Add
                | Action::RenameSection
                | Action::RemoveSection
                | Action::List
        ),
        _ => true,
    }
}

impl Action {
    /// Whether it is this one.
    pub(crate) fn is(self, other: Action) -> bool
        ensures { result ≡ spec.is_same_action self other }
    {
        self as u8 == other as u8
    }
}

impl Opt {
    /// Its number, by which options are told apart, whatever they name.
    fn number(self) -> u8
        ensures { result ≡ spec.number self }
    {
        match self {
            Opt::File => 0,
            Opt::Place(_) => 1,
            Opt::Effective => 2,
            Opt::Help => 3,
            Opt::All => 4,
            Opt::Append => 5,
            Opt::Regexp => 6,
            Opt::Value => 7,
            Opt::FixedValue => 8,
            Opt::Url => 9,
            Opt::Default => 10,
            Opt::Type => 11,
            Opt::Kind(_) => 12,
            Opt::Comment => 13,
            Opt::Null => 14,
            Opt::ShowOrigin => 15,
            Opt::ShowScope => 16,
            Opt::Includes => 17,
            Opt::ShowNames => 18,
            Opt::NameOnly => 19,
            Opt::Check => 20,
            Opt::Indent => 21,
            Opt::Newline => 22,
            Opt::Quiet => 23,
            Opt::Lenient => 24,
            Opt::Sync => 25,
            Opt::Do(_) => 26,
            Opt::Alone(_) => 27,
            Opt::Names => 28,
            Opt::Output => 29,
            Opt::Ours => 30,
            Opt::Theirs => 31,
            Opt::Union => 32,
            Opt::ShowPosition => 33,
        }
    }

    /// Whether it is this one, whatever both name.
    pub(crate) fn is(self, other: Opt) -> bool
        ensures { result ≡ (spec.number self == spec.number other) }
    {
        self.number() == other.number()
    }
}

/// Whether the option is followed by a word of its own.
pub(crate) fn takes_word(option: Opt) -> bool
    ensures { result ≡ spec.takes_word option }
{
    matches!(
        option,
        Opt::File
            | Opt::Url
            | Opt::Default
            | Opt::Type
            | Opt::Comment
            | Opt::Indent
            | Opt::Newline
            | Opt::Value
            | Opt::Output
    )
}

/// What a word behind dashes names.
#[derive(Clone, Copy)]
pub(crate) enum Named {
    /// This option.
    One(Opt),
    /// None.
    None,
    /// It is the beginning of several, of which these are two.
    Several(&'static str, &'static str),
}

/// The option that a command has by this letter.
pub(crate) fn option_of_letter(verb: Verb, letter: char) -> Option<Opt>
    ensures { result ≡ spec.option_of_letter verb letter }
{
    lettered(&OPTIONS, verb, letter)
}

/// The option that a command has by this word, or by the only one that begins with it.
pub(crate) fn option_named(verb: Verb, word: &str) -> Named
    ensures { spec.named_by result ≡ spec.option_named verb word.now }
{
    match option_spelled(verb, word) {
        Some(option) => Named::One(option),
        None => option_begun(verb, word),
    }
}

/// The option that a command has by this word.
fn option_spelled(verb: Verb, word: &str) -> Option<Opt>
    ensures { result ≡ spec.option_spelled verb word.now }
{
    spelled(&OPTIONS, verb, word)
}

/// The only option that a command has by a word that begins with this one.
fn option_begun(verb: Verb, word: &str) -> Named
    ensures { spec.named_by result ≡ spec.option_begun verb word.now }
{
    begun(&OPTIONS, verb, word)
}

/// Whether an option is written by this letter, if by one at all.
fn is_letter(of: Option<char>, letter: char) -> bool
    ensures { result ≡ spec.is_letter of letter }
{
    match of {
        Some(of) => of == letter,
        None => false,
    }
}

/// The first of these that a command has by this letter.
#[tactic(auto, unfolding(crate::specs::Options::those))]
fn lettered(options: &[Spelling], verb: Verb, letter: char) -> Option<Opt>
    ensures { result ≡ spec.first (spec.those (spec.has_letter verb letter) (map spec.spelling_of options.now)) }
{
    for (_, short, option) in options {
        if is_letter(*short, letter) && takes(verb, *option) {
            return Some(*option);
        }
    }
    None
}

/// The first of these that a command has by this word.
#[tactic(auto, unfolding(crate::specs::Options::those))]
fn spelled(options: &[Spelling], verb: Verb, word: &str) -> Option<Opt>
    ensures { result ≡ spec.first (spec.those (spec.has_word verb word.now) (map spec.spelling_of options.now)) }
{
    for (long, _, option) in options {
        if *long == word && takes(verb, *option) {
            return Some(*option);
        }
    }
    None
}

/// Whether a command has an option by a word that begins with this one.
fn begins(spelling: &Spelling, verb: Verb, word: &str) -> bool
    ensures { result ≡ spec.has_beginning verb word.now (spec.spelling_of spelling.now) }
{
    spelling.0.as_bytes().starts_with(word.as_bytes()) && takes(verb, spelling.2)
}

/// Which of these a command has by a word that begins with this one, if there is only one.
#[tactic(auto, unfolding(crate::specs::Options::those))]
fn begun(options: &[Spelling], verb: Verb, word: &str) -> Named
    ensures { spec.named_by result ≡ spec.only (spec.those (spec.has_beginning verb word.now) (map spec.spelling_of options.now)) }
{
    let mut found: Option<(&'static str, Opt)> = None;
    for spelling in options {
        if begins(spelling, verb, word) {
            match found {
                None => found = Some((spelling.0, spelling.2)),
                Some((first, _)) => return Named::Several(first, spelling.0),
            }
        }
    }
    match found {
        Some((_, option)) => Named::One(option),
        None => Named::None,
    }
}

/// Whether another command has an option by this word.
pub(crate) fn is_known(word: &str) -> bool {
    OPTIONS.iter().any(|spelled| spelled.0 == word)
}
