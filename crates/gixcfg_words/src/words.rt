//! What the words of a call ask for.
ghost use Rattle.std.specs.Prelude.{◌≡◌, ◌∷◌, is_some, map, option_map, Some, None};
ghost use Rattle.gixcfg_words.specs.Asking as asking;
ghost use Rattle.gixcfg_words.specs.Asking.{task_asked};
ghost use Rattle.gixcfg_words.specs.Given as spec;
ghost use Rattle.gixcfg_words.specs.Plain.{asked, IsCallOf};
ghost use Rattle.gixcfg_words.specs.Spelling.{Gives};
ghost use Rattle.gixcfg_words.specs.Tasks as tasks;
ghost use Rattle.gixcfg_words.specs.Tasks.{task_of};

use crate::command::{
    Call, Check, Choice, Command, Diff, Explain, Favor, Files, Fmt, ForUrl, Get, List, Merge,
    Placing, Removal, Renaming, Set, Target, Unset, Values, Wanted,
};
use crate::fault::Fault;
use crate::given::{Given, given_by};
use crate::keys::{key_of, names_of, new_names_of};
use crate::of_git;
use crate::options::{Alone, Opt};
use crate::plain::plain_command;
use crate::rules::Rules;
use crate::spelled::is_option;
use crate::verbs::{Verb, plain_call, topic_named, verb_named};
use std::alloc::Global;

/// What words ask for.
///
/// # Errors
///
/// What is wrong with the first word that isn't understood, else with how options go together or with the number of words. Out of memory.
pub fn read<'a>(alloc: Global, words: &[&'a str]) -> Result<Call<'a>, Fault<'a>>
    ensures called { IsCallOf (asked (map (λ w. w.now) words.now)) result }
    ensures by_git { asked (map (λ w. w.now) words.now) ≡ None → Gives (λ call. task_of call.command) (task_asked (map (λ w. w.now) words.now)) result }
{
    match plain_command(words) {
        Some(command) => Ok(Call {
            command,
            rules: Rules::Library,
        }),
        None => match read_first(alloc, words) {
            Ok(command) => Ok(Call {
                command,
                rules: Rules::Git,
            }),
            Err(fault) => Err(fault),
        },
    }
}

/// What words ask for that are a call with options.
fn read_first<'a>(alloc: Global, words: &[&'a str]) -> Result<Command<'a>, Fault<'a>>
    ensures { Gives task_of (task_asked (map (λ w. w.now) words.now)) result }
{
    match words {
        [] => Err(Fault::NoCommand),
        [first, others @ ..] => read_call(alloc, first, others, words),
    }
}

/// What a first word asks for, and those behind it.
fn read_call<'a>(
    alloc: Global,
    first: &'a str,
    others: &[&'a str],
    words: &[&'a str],
) -> Result<Command<'a>, Fault<'a>>
    requires { map (λ w. w.now) words.now ≡ first.now ∷ map (λ w. w.now) others.now }
    ensures { Gives task_of (task_asked (first.now ∷ map (λ w. w.now) others.now)) result }
{
    if first == "--version" {
        Ok(Command::Version)
    } else if is_help(first) || first == "help" {
        read_help(others)
    } else if first == "edit" {
        Err(Fault::Alone(Alone::Edit, first))
    } else {
        match verb_named(first) {
            Some(verb) => read_command(alloc, verb, others),
            None if begins_form(first) => of_git::read(alloc, words),
            None => Err(no_command(first)),
        }
    }
}

/// Whether a call may begin with a word that is no command: it is an option, or a key.
fn begins_form(word: &str) -> bool
    ensures { result ≡ asking.begins_form word.now }
{
    is_option(word) || word.as_bytes().contains(&b'.')
}

/// Whether words are a call that says what is wrong with it by name: one with options, or of a command that has no other form. For others
/// there is one line.
pub fn has_options(words: &[&str]) -> bool {
    match words.first() {
        Some(
            &("rename-section"
            | "remove-section"
            | "check"
            | "diff"
            | "explain"
            | "merge"
            | "help"
            | "edit"),
        ) => true,
        _ => words.iter().any(|word| is_option(word)),
    }
}

/// The fault of a word that is no command with options.
fn no_command<'a>(word: &'a str) -> Fault<'a> {
    match plain_call(word) {
        Some(call) => Fault::NoOptions(word, call),
        None => Fault::UnknownCommand(word),
    }
}

/// The help that is asked for.
fn read_help<'a>(words: &[&'a str]) -> Result<Command<'a>, Fault<'a>>
    ensures { Gives task_of (asking.help (map (λ w. w.now) words.now)) result }
{
    match words {
        [] => Ok(Command::Help(None)),
        [word] => read_topic(word),
        [word, other] if is_help(other) => read_topic(word),
        [_, word, ..] => Err(Fault::TooMany(Verb::Help, word)),
    }
}

/// The help that is asked for on a word.
fn read_topic<'a>(word: &'a str) -> Result<Command<'a>, Fault<'a>>
    ensures { Gives task_of (asking.topic word.now) result }
{
    match topic_named(word) {
        Some(verb) => Ok(Command::Help(Some(verb))),
        None if is_help(word) => Ok(Command::Help(Some(Verb::Help))),
        None => Err(no_command(word)),
    }
}

/// Whether a word asks for help.
fn is_help(word: &str) -> bool
    ensures { result ≡ asking.is_help word.now }
{
    word == "-h" || word == "--help"
}

/// What the words after a command ask for.
fn read_command<'a>(alloc: Global, verb: Verb, words: &[&'a str]) -> Result<Command<'a>, Fault<'a>>
    ensures { Gives task_of (asking.asked_of verb (map (λ w. w.now) words.now)) result }
{
    match given_by(alloc, verb, words) {
        Ok(given) if given.has(Opt::Help) => Ok(Command::Help(Some(verb))),
        Ok(given) => command_of(verb, given),
        Err(fault) => Err(fault),
    }
}

/// The command of a word, with what it is given.
fn command_of<'a>(verb: Verb, given: Given<'a>) -> Result<Command<'a>, Fault<'a>>
    ensures { Gives task_of (asking.task verb (spec.seen given.entry)) result }
{
    match verb {
        Verb::Fmt => fmt(given),
        Verb::Check => check(given),
        verb => command_by(verb, &given),
    }
}

/// The command that is none on several files.
fn command_by<'a>(verb: Verb, given: &Given<'a>) -> Result<Command<'a>, Fault<'a>>
    ensures { Gives task_of (asking.task_by verb (spec.seen given.now)) result }
{
    match verb {
        Verb::Get => get(given),
        Verb::Set => set(given),
        Verb::Unset => unset(given),
        Verb::List => list(given),
        Verb::RenameSection => renaming(given),
        Verb::RemoveSection => removal(given),
        Verb::Diff => diff(given),
        Verb::Explain => explain(given),
        Verb::Merge => merge(given),
        Verb::Fmt | Verb::Check | Verb::Help | Verb::Forms => Ok(Command::Help(None)),
    }
}

/// What `get` is asked for.
fn get<'a>(given: &Given<'a>) -> Result<Command<'a>, Fault<'a>>
    ensures { Gives task_of (asking.get (spec.seen given.now)) result }
{
    let word = given.word()?;
    let choice = choice_of(given, word)?;
    let values = given.values(given.word_of(Opt::Value))?;
    got(given, word, values, choice)
}

/// The entries for a URL, or those that have such values.
fn got<'a>(
    given: &Given<'a>,
    word: &'a str,
    values: Values<'a>,
    choice: Choice<'a>,
) -> Result<Command<'a>, Fault<'a>>
    ensures { Gives task_of (asking.got (spec.seen given.now) word.now (tasks.which_of values.entry) (tasks.chosen_of choice.entry)) result }
{
    match given.word_of(Opt::Url) {
        Some(url) => match beside_url(given) {
            Some(option) => Err(Fault::Both(option, "--url")),
            None => Ok(for_url(given, word, url)),
        },
        None => getting(given, word, values, choice),
    }
}

/// The entries of a key, or of all in which a pattern is found, that have such values.
fn getting<'a>(
    given: &Given<'a>,
    word: &'a str,
    values: Values<'a>,
    choice: Choice<'a>,
) -> Result<Command<'a>, Fault<'a>>
    ensures { Gives task_of (asking.getting (spec.seen given.now) word.now (tasks.which_of values.entry) (tasks.chosen_of choice.entry)) result }
{
    let wanted = wanted_by(given, word)?;
    Ok(Command::Get(Get {
        reading: given.reading(),
        wanted,
        values,
        choice,
        form: given.form(given.has(Opt::ShowNames)),
    }))
}

/// An option that doesn't go with `--url`, if one is given.
fn beside_url(given: &Given<'_>) -> Option<&'static str>
    ensures { is_some result ≡ asking.is_beside_url (spec.seen given.now) }
{
    if given.has(Opt::All) {
        Some("--all")
    } else if given.has(Opt::Regexp) {
        Some("--regexp")
    } else if given.has(Opt::Value) {
        Some("--value")
    } else if given.has(Opt::Default) {
        Some("--default")
    } else if given.has(Opt::ShowPosition) {
        Some("--show-position")
    } else {
        None
    }
}

/// The entries for a URL, by a word: a section, all of whose variables are meant, or a section and a variable with a dot between them.
pub(crate) fn for_url<'a>(given: &Given<'a>, word: &'a str, url: &'a str) -> Command<'a>
    ensures { task_of result ≡ asking.for_url (spec.seen given.now) word.now url.now }
{
    match word.split_once('.') {
        Some((section_name, value_name)) => url_asked(given, url, section_name, Some(value_name)),
        None => url_asked(given, url, word, None),
    }
}

/// The entries for a URL of a section, or of a variable of it.
fn url_asked<'a>(
    given: &Given<'a>,
    url: &'a str,
    section_name: &'a str,
    value_name: Option<&'a str>,
) -> Command<'a>
    ensures { task_of result ≡ asking.url_asked (spec.seen given.now) url.now section_name.now (option_map (λ v. v.now) value_name.entry) }
{
    Command::Get(Get {
        reading: given.reading(),
        wanted: Wanted::ForUrl(ForUrl {
            url,
            section_name,
            value_name,
        }),
        values: Values::Any,
        choice: Choice::All,
        form: given.form(value_name.is_none()),
    })
}

/// Which of the entries `get` prints that are asked for by a word.
fn choice_of<'a>(given: &Given<'a>, word: &'a str) -> Result<Choice<'a>, Fault<'a>>
    ensures { Gives tasks.chosen_of (asking.choice (spec.seen given.now) word.now) result }
{
    if given.has(Opt::All) {
        match given.word_of(Opt::Default) {
            Some(_) => Err(Fault::Both("--all", "--default")),
            None => Ok(Choice::All),
        }
    } else {
        Ok(given.last(word))
    }
}

/// What `get` looks for by a word.
fn wanted_by<'a>(given: &Given<'a>, word: &'a str) -> Result<Wanted<'a>, Fault<'a>>
    ensures { Gives tasks.sought_of (asking.sought (spec.seen given.now) word.now) result }
{
    if given.has(Opt::Regexp) {
        Ok(Wanted::Keys(word))
    } else {
        match key_of(word) {
            Ok(key) => Ok(Wanted::Key(key)),
            Err(fault) => Err(fault),
        }
    }
}

/// All entries.
pub(crate) fn list<'a>(given: &Given<'a>) -> Result<Command<'a>, Fault<'a>>
    ensures { Gives task_of (asking.list (spec.seen given.now)) result }
{
    match given.spelled.words.first() {
        None => Ok(Command::List(List {
            reading: given.reading(),
            form: given.form(true),
        })),
        Some(word) => Err(Fault::TooMany(given.verb, word)),
    }
}

/// What `set` is asked for.
fn set<'a>(given: &Given<'a>) -> Result<Command<'a>, Fault<'a>>
    ensures { Gives task_of (asking.set (spec.seen given.now)) result }
{
    let (key, value) = given.two_words()?;
    let placing = placing_of(given)?;
    setting(given, key, value, placing)
}

/// A value for a key.
pub(crate) fn setting<'a>(
    given: &Given<'a>,
    key: &'a str,
    value: &'a str,
    placing: Placing<'a>,
) -> Result<Command<'a>, Fault<'a>>
    ensures { Gives task_of (asking.setting (spec.seen given.now) key.now value.now (tasks.placed_of placing.entry)) result }
{
    let target = given.target()?;
    let key = key_of(key)?;
    Ok(Command::Set(Set {
        target,
        key,
        value,
        kind: given.kind,
        placing,
        comment: given.word_of(Opt::Comment),
        is_synced: given.is_synced(),
    }))
}

/// Which entries `set` gives the value to.
fn placing_of<'a>(given: &Given<'a>) -> Result<Placing<'a>, Fault<'a>>
    ensures { Gives tasks.placed_of (asking.placing (spec.seen given.now)) result }
{
    let values = given.values(given.word_of(Opt::Value))?;
    let (is_new, is_all) = (given.has(Opt::Append), given.has(Opt::All));
    placing_by(is_new, is_all, given.has(Opt::Value), values)
}

/// Which entries are given a value: a new one, or those that have such values.
fn placing_by<'a>(
    is_new: bool,
    is_all: bool,
    has_value: bool,
    values: Values<'a>,
) -> Result<Placing<'a>, Fault<'a>>
    ensures { Gives tasks.placed_of (asking.placing_by is_new is_all has_value (tasks.which_of values.entry)) result }
{
    match (is_new, is_all) {
        (true, true) => Err(Fault::Both("--all", "--append")),
        (true, false) if has_value => Err(Fault::Both("--append", "--value")),
        (true, false) => Ok(Placing::New),
        (false, true) => Ok(Placing::All(values)),
        (false, false) => Ok(Placing::Only(values)),
    }
}

/// What `unset` is asked for.
fn unset<'a>(given: &Given<'a>) -> Result<Command<'a>, Fault<'a>>
    ensures { Gives task_of (asking.unset (spec.seen given.now)) result }
{
    match given.word() {
        Ok(key) => unset_named(given, key),
        Err(fault) => Err(fault),
    }
}

/// A key without its entry, or its entries.
fn unset_named<'a>(given: &Given<'a>, key: &'a str) -> Result<Command<'a>, Fault<'a>>
    ensures { Gives task_of (asking.unset_named (spec.seen given.now) key.now) result }
{
    unsetting(given, key, given.word_of(Opt::Value), given.has(Opt::All))
}

/// A key without its entry, or its entries, if a pattern is given those with such values.
pub(crate) fn unsetting<'a>(
    given: &Given<'a>,
    key: &'a str,
    pattern: Option<&'a str>,
    is_all: bool,
) -> Result<Command<'a>, Fault<'a>>
    ensures { Gives task_of (asking.unsetting (spec.seen given.now) key.now (option_map (λ p. p.now) pattern.entry) is_all) result }
{
    let target = given.target()?;
    let key = key_of(key)?;
    let values = given.values(pattern)?;
    Ok(Command::Unset(Unset {
        target,
        key,
        values,
        is_all,
        is_synced: given.is_synced(),
    }))
}

/// What `rename-section` is asked for.
pub(crate) fn renaming<'a>(given: &Given<'a>) -> Result<Command<'a>, Fault<'a>>
    ensures { Gives task_of (asking.renaming (spec.seen given.now)) result }
{
    let (old, new) = given.two_words()?;
    let target = given.target()?;
    let new = new_names_of(new)?;
    Ok(Command::RenameSection(Renaming {
        target,
        old: names_of(old),
        new,
        is_synced: given.is_synced(),
    }))
}

/// What `remove-section` is asked for.
pub(crate) fn removal<'a>(given: &Given<'a>) -> Result<Command<'a>, Fault<'a>>
    ensures { Gives task_of (asking.removal (spec.seen given.now)) result }
{
    let word = given.word()?;
    let target = given.target()?;
    Ok(Command::RemoveSection(Removal {
        target,
        names: names_of(word),
        is_synced: given.is_synced(),
    }))
}

/// What `diff` is asked for.
fn diff<'a>(given: &Given<'a>) -> Result<Command<'a>, Fault<'a>>
    ensures { Gives task_of (asking.diff (spec.seen given.now)) result }
{
    let (one, other) = given.two_words()?;
    if one == "-" && other == "-" {
        return Err(Fault::TwoInputs);
    }
    Ok(Command::Diff(Diff {
        one,
        other,
        is_quiet: given.has(Opt::Quiet),
        is_null: given.has(Opt::Null),
    }))
}

/// What `explain` is asked for.
fn explain<'a>(given: &Given<'a>) -> Result<Command<'a>, Fault<'a>>
    ensures { Gives task_of (asking.explain (spec.seen given.now)) result }
{
    let word = given.word()?;
    let key = key_of(word)?;
    Ok(Command::Explain(Explain {
        reading: given.reading(),
        key,
        is_null: given.has(Opt::Null),
    }))
}

/// Whose values `merge` takes, by what is asked for.
fn favor_by<'a>(ours: bool, theirs: bool, union: bool) -> Result<Favor, Fault<'a>>
    ensures { Gives (λ favor. favor) (asking.favor_by ours theirs union) result }
{
    match (ours, theirs, union) {
        (true, true, _) => Err(Fault::Both("--ours", "--theirs")),
        (true, false, true) => Err(Fault::Both("--ours", "--union")),
        (false, true, true) => Err(Fault::Both("--theirs", "--union")),
        (true, false, false) => Ok(Favor::Ours),
        (false, true, false) => Ok(Favor::Theirs),
        (false, false, true) => Ok(Favor::Union),
        (false, false, false) => Ok(Favor::Neither),
    }
}

/// What `merge` is asked for.
fn merge<'a>(given: &Given<'a>) -> Result<Command<'a>, Fault<'a>>
    ensures { Gives task_of (asking.merge (spec.seen given.now)) result }
{
    let (base, ours, theirs) = given.three_words()?;
    let favor = favor_by(
        given.has(Opt::Ours),
        given.has(Opt::Theirs),
        given.has(Opt::Union),
    )?;
    if is_input_twice(base, ours, theirs) {
        return Err(Fault::TwoInputs);
    }
    Ok(Command::Merge(Merge {
        base,
        ours,
        theirs,
        output: given.word_of(Opt::Output),
        favor,
        is_quiet: given.has(Opt::Quiet),
    }))
}

/// Whether two of three paths are standard input.
fn is_input_twice(one: &str, other: &str, third: &str) -> bool
    ensures { result ≡ asking.is_input_twice one.now other.now third.now }
{
    if one == "-" {
        other == "-" || third == "-"
    } else {
        other == "-" && third == "-"
    }
}

/// What `fmt` is asked for.
fn fmt<'a>(given: Given<'a>) -> Result<Command<'a>, Fault<'a>>
    ensures { Gives task_of (asking.fmt (spec.seen given.entry)) result }
{
    let target = given.target()?;
    let named = given.file.is_some();
    match given.spelled.words.first() {
        Some(word) if named => Err(Fault::TwoFiles(word)),
        Some(_) => Ok(fmt_of(given, None)),
        None => Ok(fmt_of(given, Some(target))),
    }
}

/// That a file is formatted, or those that the words name.
fn fmt_of<'a>(given: Given<'a>, target: Option<Target<'a>>) -> Command<'a>
    ensures { task_of result ≡ asking.laid_by (spec.seen given.entry) (option_map tasks.where_of target.entry) }
{
    let (is_check, indent, newline) = (given.has(Opt::Check), given.indent(), given.newline());
    let is_synced = given.is_synced();
    let files = match target {
        Some(target) => Files::One(target),
        None => Files::Paths(given.into_words()),
    };
    Command::Fmt(Fmt {
        files,
        is_check,
        indent,
        newline,
        is_synced,
    })
}

/// What `check` is asked for.
fn check<'a>(given: Given<'a>) -> Result<Command<'a>, Fault<'a>>
    ensures { Gives task_of (asking.check (spec.seen given.entry)) result }
{
    if given.spelled.words.is_empty() {
        return Err(Fault::TooFew(Verb::Check));
    }
    let (is_quiet, is_lenient) = (given.has(Opt::Quiet), given.has(Opt::Lenient));
    let names = given.state_of(Opt::Names);
    Ok(Command::Check(Check {
        files: given.into_words(),
        is_quiet,
        is_lenient,
        names,
    }))
}
