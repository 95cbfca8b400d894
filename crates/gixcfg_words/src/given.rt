//! What the words after a command give: the file, the type, what is done, and each other option.
ghost use Rattle.std.specs.Prelude.{◌≡◌, map, option_map, true, None};
ghost use Rattle.std.specs.Option.{option_copied};
ghost use Rattle.gixcfg_words.specs.Given as spec;
ghost use Rattle.gixcfg_words.specs.Spelling as spelling;
ghost use Rattle.gixcfg_words.specs.Spelling.{Gives};
ghost use Rattle.gixcfg_words.specs.declared.spelled.Next.TheVariants as next_words;

use crate::command::Place;
use crate::fault::Fault;
use crate::kinds::{Kind, kind_named};
use crate::options::{Action, Opt};
use crate::spelled::{Mention, Spelled, spelled_by};
use crate::verbs::Verb;
use std::alloc::Global;

/// The file that an option names.
#[derive(Clone, Copy)]
pub(crate) enum File<'a> {
    /// The one at a path.
    Path(&'a str),
    /// One of git's.
    OfGit(Place),
    /// All that git reads.
    Effective,
}

/// What the words after a command give.
pub(crate) struct Given<'a> {
    /// What the call begins with.
    pub verb: Verb,
    /// What is said of options, and the other words.
    pub spelled: Spelled<'a>,
    /// The file that is worked on, as far as one is named.
    pub file: Option<File<'a>>,
    /// The type of a value.
    pub kind: Option<Kind>,
    /// What is done, where an option says it.
    pub action: Option<Action>,
}

impl Drop for Given<'_> {
    // By hand, so that each way out of a function is one call: a derived one is proved there part by part.
    fn drop(self) {
        drop(self.into_spelled());
    }
}

/// What words after a command give.
///
/// # Errors
///
/// What is wrong with the first word that isn't understood; then a second file, type, or thing that is done. Out of memory.
pub(crate) fn given_by<'a>(
    alloc: Global,
    verb: Verb,
    words: &[&'a str],
) -> Result<Given<'a>, Fault<'a>>
    ensures { Gives spec.seen (spec.given_by verb (map (λ w. w.now) words.now)) result }
{
    match spelled_by(alloc, verb, words) {
        Ok(spelled) => given_as(verb, spelled),
        Err(fault) => Err(fault),
    }
}

/// What words give that say this.
fn given_as<'a>(verb: Verb, spelled: Spelled<'a>) -> Result<Given<'a>, Fault<'a>>
    ensures { Gives spec.seen (spec.given verb (spelling.seen spelled.entry next_words.Any)) result }
{
    let named = named_by(&spelled.options)?;
    Ok(Given {
        verb,
        spelled,
        file: named.file,
        kind: named.kind,
        action: named.action,
    })
}

/// What options name of which there is one at most.
#[derive(Clone, Copy)]
struct Named<'a> {
    file: Option<File<'a>>,
    kind: Option<Kind>,
    action: Option<Action>,
}

/// What options name of which there is one at most.
fn named_by<'a>(options: &[Mention<'a>]) -> Result<Named<'a>, Fault<'a>>
    ensures { Gives spec.seen_named (spec.named (map spelling.said_by options.now)) result }
{
    let file = file_of(options)?;
    let kind = kind_of(options)?;
    let action = action_of(options)?;
    Ok(Named { file, kind, action })
}

/// The file that an option names, if it names one.
fn file_in<'a>(mention: Mention<'a>) -> Option<File<'a>>
    ensures { option_map spec.file_seen result ≡ spec.file_said (spelling.said_by mention.entry) }
{
    match mention.word {
        Some(path) => match mention.option {
            Opt::File => Some(File::Path(path)),
            _ => None,
        },
        None => match mention.option {
            Opt::Place(place) if mention.is_given => Some(File::OfGit(place)),
            Opt::Effective if mention.is_given => Some(File::Effective),
            _ => None,
        },
    }
}

/// The only file that options name.
#[tactic(auto, unfolding(crate::specs::Given::files))]
fn file_of<'a>(options: &[Mention<'a>]) -> Result<Option<File<'a>>, Fault<'a>>
    ensures { Gives (option_map spec.file_seen) (spec.one_at_most (spec.files (map spelling.said_by options.now))) result }
{
    let mut found = None;
    for mention in options {
        if let Some(file) = file_in(*mention) {
            match found {
                None => found = Some(file),
                Some(_) => return Err(Fault::TwoFiles(second_file(*mention))),
            }
        }
    }
    Ok(found)
}

/// The word by which a second file is named.
fn second_file<'a>(mention: Mention<'a>) -> &'a str {
    match mention.word {
        Some(path) => path,
        None => mention.name,
    }
}

/// The type that options name. It may be named twice.
#[tactic(auto, unfolding(crate::specs::Given::kind_from))]
fn kind_of<'a>(options: &[Mention<'a>]) -> Result<Option<Kind>, Fault<'a>>
    ensures { Gives (λ kind. kind) (spec.kind_from None (map spelling.said_by options.now)) result }
{
    let mut kind = None;
    for mention in options {
        kind = kind_after(kind, *mention)?;
    }
    Ok(kind)
}

/// The type that is named, after one option more.
fn kind_after<'a>(kind: Option<Kind>, mention: Mention<'a>) -> Result<Option<Kind>, Fault<'a>>
    ensures { Gives (λ kind. kind) (spec.kind_after kind (spelling.said_by mention.entry)) result }
{
    match mention.word {
        Some(word) => match mention.option {
            Opt::Type => match kind_named(word) {
                Some(named) => one_kind(kind, named),
                None => Err(Fault::BadWord(Opt::Type, word)),
            },
            _ => Ok(kind),
        },
        None => match mention.option {
            Opt::Kind(named) if mention.is_given => one_kind(kind, named),
            Opt::Type if !mention.is_given => Ok(None),
            _ => Ok(kind),
        },
    }
}

/// A type, beside one that may be there.
fn one_kind<'a>(there: Option<Kind>, kind: Kind) -> Result<Option<Kind>, Fault<'a>>
    ensures { Gives (λ kind. kind) (spec.one_kind there kind) result }
{
    match there {
        Some(other) if !other.is(kind) => Err(Fault::TwoTypes),
        _ => Ok(Some(kind)),
    }
}

/// What is done, where options say it.
#[tactic(auto, unfolding(crate::specs::Given::action_from))]
fn action_of<'a>(options: &[Mention<'a>]) -> Result<Option<Action>, Fault<'a>>
    ensures { Gives (λ action. action) (spec.action_from None (map spelling.said_by options.now)) result }
{
    let mut action = None;
    for mention in options {
        action = action_after(action, *mention)?;
    }
    Ok(action)
}

/// What is done, after one option more.
fn action_after<'a>(
    there: Option<Action>,
    mention: Mention<'a>,
) -> Result<Option<Action>, Fault<'a>>
    ensures { Gives (λ action. action) (spec.action_after there (spelling.said_by mention.entry)) result }
{
    match mention.word {
        Some(_) => Ok(there),
        None => match mention.option {
            Opt::Do(action) if mention.is_given => one_action(there, action, mention.name),
            _ => Ok(there),
        },
    }
}

/// What is done, beside what may be there, by this name.
fn one_action<'a>(
    there: Option<Action>,
    action: Action,
    name: &'a str,
) -> Result<Option<Action>, Fault<'a>>
    ensures { Gives (λ action. action) (spec.one_action there action) result }
{
    match there {
        Some(other) if !other.is(action) => Err(Fault::TwoActions(name)),
        _ => Ok(Some(action)),
    }
}

/// Whether an option is given or taken back, if it is named.
#[tactic(auto, unfolding(crate::specs::Given::state_from))]
fn state_of(options: &[Mention<'_>], option: Opt) -> Option<bool>
    ensures { result ≡ spec.state_of option (map spelling.said_by options.now) }
{
    let mut state = None;
    for mention in options {
        state = state_after(state, option, *mention);
    }
    state
}

/// Whether an option is given or taken back, after one more.
fn state_after(state: Option<bool>, option: Opt, mention: Mention<'_>) -> Option<bool>
    ensures { result ≡ spec.state_after option state (spelling.said_by mention.entry) }
{
    if mention.option.is(option) {
        Some(mention.word.is_some() || mention.is_given)
    } else {
        state
    }
}

/// The word of an option, if it is given.
#[tactic(auto, unfolding(crate::specs::Given::word_from))]
fn word_of<'a>(options: &[Mention<'a>], option: Opt) -> Option<&'a str>
    ensures { option_map (λ w. w.now) result ≡ spec.word_of option (map spelling.said_by options.now) }
{
    let mut word = None;
    for mention in options {
        word = word_after(word, option, *mention);
    }
    word
}

/// The word of an option, after one more.
fn word_after<'a>(word: Option<&'a str>, option: Opt, mention: Mention<'a>) -> Option<&'a str>
    ensures { option_map (λ w. w.now) result ≡ spec.word_after option (option_map (λ w. w.now) word.entry) (spelling.said_by mention.entry) }
{
    if mention.option.is(option) {
        mention.word
    } else {
        word
    }
}

impl<'a> Given<'a> {
    /// What is said of options, and the other words.
    pub fn into_spelled(self) -> Spelled<'a>
        ensures { result ≡ self.entry.spelled }
    {
        let Given {
            verb: _,
            spelled,
            file: _,
            kind: _,
            action: _,
        } = self;
        spelled
    }

    /// The words that are no options.
    pub fn into_words(self) -> Vec<&'a str>
        ensures { result ≡ self.entry.spelled.words }
    {
        self.into_spelled().into_words()
    }

    /// Whether an option is given or taken back, if it is named.
    pub fn state_of(&self, option: Opt) -> Option<bool>
        ensures { result ≡ spec.state_of option (spec.seen self.now).options }
    {
        state_of(&self.spelled.options, option)
    }

    /// Whether an option is given.
    pub fn has(&self, option: Opt) -> bool
        ensures { result ≡ spec.has option (spec.seen self.now).options }
    {
        self.state_of(option).unwrap_or(false)
    }

    /// The word of an option, if it is given.
    pub fn word_of(&self, option: Opt) -> Option<&'a str>
        ensures { option_map (λ w. w.now) result ≡ spec.word_of option (spec.seen self.now).options }
    {
        word_of(&self.spelled.options, option)
    }
}
