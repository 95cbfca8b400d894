//! Calls as they were in `git config` before 2.46, where an option says what is done, or none.
ghost use Rattle.std.specs.Prelude.{◌≡◌, is_none, map, option_map};
ghost use Rattle.gixcfg_words.specs.Asking as asking;
ghost use Rattle.gixcfg_words.specs.Given as spec;
ghost use Rattle.gixcfg_words.specs.Spelling as spelling;
ghost use Rattle.gixcfg_words.specs.Spelling.{Gives};
ghost use Rattle.gixcfg_words.specs.Tasks as tasks;
ghost use Rattle.gixcfg_words.specs.Tasks.{task_of};

use crate::command::{Choice, Color, Colorbool, Command, Fallback, Get, Placing, Wanted};
use crate::fault::Fault;
use crate::given::{Given, given_by};
use crate::keys::{key_if, key_of};
use crate::options::{Action, Opt, goes_with};
use crate::spelled::Mention;
use crate::verbs::Verb;
use crate::words::{for_url, list, removal, renaming, setting, unsetting};
use std::alloc::Global;

/// What words ask for.
///
/// # Errors
///
/// Those of [`crate::read`].
pub(crate) fn read<'a>(alloc: Global, words: &[&'a str]) -> Result<Command<'a>, Fault<'a>>
    ensures { Gives task_of (asking.form_asked (map (λ w. w.now) words.now)) result }
{
    match given_by(alloc, Verb::Forms, words) {
        Ok(given) if given.has(Opt::Help) => Ok(Command::Help(None)),
        Ok(given) => done_by(&given),
        Err(fault) => Err(fault),
    }
}

/// What is given says what is done, by an option or by how many words there are.
fn done_by<'a>(given: &Given<'a>) -> Result<Command<'a>, Fault<'a>>
    ensures { Gives task_of (asking.form_by (spec.seen given.now)) result }
{
    match action_by(given) {
        Some(action) => done(given, action),
        None => Err(Fault::NoCommand),
    }
}

/// What is done, if there is a word, or an option says it.
fn action_by(given: &Given<'_>) -> Option<Action>
    ensures { result ≡ asking.action_by given.now.action (spec.seen given.now).words }
{
    match given.action {
        Some(action) => Some(action),
        None => match given.spelled.words.as_slice() {
            [] => None,
            [_] => Some(Action::Get),
            [_, _, ..] => Some(Action::Set),
        },
    }
}

/// What is done, if each option goes with it.
fn done<'a>(given: &Given<'a>, action: Action) -> Result<Command<'a>, Fault<'a>>
    ensures { Gives task_of (asking.form_done action (spec.seen given.now)) result }
{
    match beside(&given.spelled.options, action) {
        Some(name) => Err(Fault::NotItsOption(Verb::Forms, name)),
        None => command_of(given, action),
    }
}

/// The name of an option that doesn't go with what is done.
#[tactic(auto, unfolding(crate::specs::Asking::all_go))]
fn beside<'a>(options: &[Mention<'a>], action: Action) -> Option<&'a str>
    ensures { is_none result ≡ asking.all_go action (map spelling.said_by options.now) }
{
    for mention in options {
        if !goes_with(action, mention.option) {
            return Some(mention.name);
        }
    }
    None
}

/// The command that an action is.
fn command_of<'a>(given: &Given<'a>, action: Action) -> Result<Command<'a>, Fault<'a>>
    ensures { Gives task_of (asking.form_task action (spec.seen given.now)) result }
{
    match action {
        Action::Get => get(given, false),
        Action::GetAll => get(given, true),
        Action::GetRegexp => get_regexp(given),
        Action::GetUrlmatch => get_urlmatch(given),
        Action::GetColor => get_color(given),
        Action::GetColorbool => get_colorbool(given),
        Action::List => list(given),
        Action::RenameSection => renaming(given),
        Action::RemoveSection => removal(given),
        Action::Add => add(given),
        Action::Unset => unset(given, false),
        Action::UnsetAll => unset(given, true),
        Action::Set => replace(given, false),
        Action::ReplaceAll => replace(given, true),
    }
}

/// A new entry.
fn add<'a>(given: &Given<'a>) -> Result<Command<'a>, Fault<'a>>
    ensures { Gives task_of (asking.form_add (spec.seen given.now)) result }
{
    let (key, value) = given.two_words()?;
    setting(given, key, value, Placing::New)
}

/// A value in place of one, or of all.
fn replace<'a>(given: &Given<'a>, is_all: bool) -> Result<Command<'a>, Fault<'a>>
    ensures { Gives task_of (asking.form_replace (spec.seen given.now) is_all) result }
{
    match given.two_words_and_more() {
        Ok((key, value, pattern)) => replacing(given, key, value, pattern, is_all),
        Err(fault) => Err(fault),
    }
}

/// A value in place of one of such values, or of all.
fn replacing<'a>(
    given: &Given<'a>,
    key: &'a str,
    value: &'a str,
    pattern: Option<&'a str>,
    is_all: bool,
) -> Result<Command<'a>, Fault<'a>>
    ensures { Gives task_of (asking.replacing (spec.seen given.now) key.now value.now (option_map (λ p. p.now) pattern.entry) is_all) result }
{
    match given.values(pattern) {
        Ok(values) if is_all => setting(given, key, value, Placing::All(values)),
        Ok(values) => setting(given, key, value, Placing::Only(values)),
        Err(fault) => Err(fault),
    }
}

/// A key without one of its entries, or without all.
fn unset<'a>(given: &Given<'a>, is_all: bool) -> Result<Command<'a>, Fault<'a>>
    ensures { Gives task_of (asking.form_unset (spec.seen given.now) is_all) result }
{
    let (key, pattern) = given.word_and_more()?;
    unsetting(given, key, pattern, is_all)
}

/// The values of a key: the last one, or all.
fn get<'a>(given: &Given<'a>, is_all: bool) -> Result<Command<'a>, Fault<'a>>
    ensures { Gives task_of (asking.form_get (spec.seen given.now) is_all) result }
{
    let (word, pattern) = given.word_and_more()?;
    let values = given.values(pattern)?;
    let key = key_of(word)?;
    Ok(Command::Get(Get {
        reading: given.reading(),
        wanted: Wanted::Key(key),
        values,
        choice: last_or_all(given, word, is_all),
        form: given.form(given.has(Opt::ShowNames)),
    }))
}

/// The last of the entries that are asked for by a word, or all.
fn last_or_all<'a>(given: &Given<'a>, word: &'a str, is_all: bool) -> Choice<'a>
    ensures { tasks.chosen_of result ≡ asking.last_or_all (spec.seen given.now) word.now is_all }
{
    if is_all {
        Choice::All
    } else {
        given.last(word)
    }
}

/// The entries of keys in which a pattern is found.
fn get_regexp<'a>(given: &Given<'a>) -> Result<Command<'a>, Fault<'a>>
    ensures { Gives task_of (asking.form_get_regexp (spec.seen given.now)) result }
{
    let (keys, pattern) = given.word_and_more()?;
    let values = given.values(pattern)?;
    Ok(Command::Get(Get {
        reading: given.reading(),
        wanted: Wanted::Keys(keys),
        values,
        choice: Choice::All,
        form: given.form(true),
    }))
}

/// The entries for a URL.
fn get_urlmatch<'a>(given: &Given<'a>) -> Result<Command<'a>, Fault<'a>>
    ensures { Gives task_of (asking.form_get_urlmatch (spec.seen given.now)) result }
{
    match given.two_words() {
        Ok((word, url)) => Ok(for_url(given, word, url)),
        Err(fault) => Err(fault),
    }
}

/// The color of a key, or one that is given if it has none.
fn get_color<'a>(given: &Given<'a>) -> Result<Command<'a>, Fault<'a>>
    ensures { Gives task_of (asking.form_get_color (spec.seen given.now)) result }
{
    let (word, default) = given.word_and_more()?;
    let key = key_if(word)?;
    Ok(Command::Color(Color {
        reading: given.reading(),
        key,
        default: match default {
            Some(value) => Some(Fallback { word, value }),
            None => None,
        },
    }))
}

/// Whether output is colored, by a key.
fn get_colorbool<'a>(given: &Given<'a>) -> Result<Command<'a>, Fault<'a>>
    ensures { Gives task_of (asking.form_get_colorbool (spec.seen given.now)) result }
{
    let (word, is_terminal) = given.word_and_more()?;
    let key = key_of(word)?;
    Ok(Command::Colorbool(Colorbool {
        reading: given.reading(),
        key,
        is_terminal,
    }))
}
