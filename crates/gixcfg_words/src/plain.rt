//! What the words of a call without options ask for.
ghost use Rattle.std.specs.Prelude.{◌≡◌, map, option_map, Some};
ghost use Rattle.std.specs.Option.{option_copied};
ghost use Rattle.gitconf_sources.specs.Key as keys;
ghost use Rattle.gixcfg_words.specs.Keys.{is_nameless, is_option_with_value, key_asked};
ghost use Rattle.gixcfg_words.specs.Plain as spec;
ghost use Rattle.gixcfg_words.specs.Plain.{asked, asked_alone, asked_of_key, plain_of, plain_of_fmt, plain_of_get};

use crate::command::{
    Choice, Command, Files, Fmt, Form, Get, List, Placing, Reading, Set, Source, Target, Unset,
    Values, Wanted,
};
use crate::kinds::Kind;
use gitconf_sources::key::KeyRef;

/// The command that the words are, if they are one without options.
pub fn plain_command<'a>(args: &[&'a str]) -> Option<Command<'a>>
    ensures { option_map plain_of result ≡ option_map Some (asked (map (λ w. w.now) args.now)) }
{
    match args {
        [word] => command_alone(word),
        [word, key] => key_command(word, key_of(key)?),
        [word, key, value] if *word == "set" => Some(set(key_of(key)?, value)),
        [word, path, command, key] if *word == "load" && *command == "get" => {
            Some(Command::Get(loaded(path, key_of(key)?)))
        }
        _ => None,
    }
}

/// The command that a word alone is.
fn command_alone<'a>(word: &str) -> Option<Command<'a>>
    ensures { option_map plain_of result ≡ option_map Some (asked_alone word.now) }
{
    match word {
        "list" => Some(Command::List(List {
            reading: input(),
            form: form(true, None),
        })),
        "print" => Some(Command::Print),
        "fmt" => Some(Command::Fmt(layout())),
        _ => None,
    }
}

/// The command that a word and a key are.
fn key_command<'a>(word: &str, key: KeyRef<'a>) -> Option<Command<'a>>
    ensures { option_map plain_of result ≡ option_map Some (asked_of_key word.now (keys.key_of key.entry)) }
{
    let last = Choice::Last { default: None };
    match word {
        "get" => Some(Command::Get(get(key, last, None))),
        "all" => Some(Command::Get(get(key, Choice::All, None))),
        "bool" => Some(Command::Get(get(key, last, Some(Kind::Bool)))),
        "int" => Some(Command::Get(get(key, last, Some(Kind::Int)))),
        "unset" => Some(unset(key)),
        _ => None,
    }
}

/// Standard input, without what it includes.
fn input<'a>() -> Reading<'a>
    ensures { result ≡ spec.input }
{
    Reading {
        source: Source::Target(Target::Input),
        includes: Some(false),
    }
}

/// Values alone, or with their keys, as a type or as they are.
fn form(has_names: bool, kind: Option<Kind>) -> Form
    ensures { result ≡ spec.form has_names kind }
{
    Form {
        has_scope: false,
        has_origin: false,
        has_position: false,
        has_names,
        has_value: true,
        is_null: false,
        kind,
    }
}

/// What is asked of a key's values in standard input.
fn get<'a>(key: KeyRef<'a>, choice: Choice<'a>, kind: Option<Kind>) -> Get<'a>
    ensures { plain_of_get result ≡ spec.values_asked (spec.input).source (spec.input).includes choice.entry kind (keys.key_of key.entry) }
{
    Get {
        reading: input(),
        wanted: Wanted::Key(key),
        values: Values::Any,
        choice,
        form: form(false, kind),
    }
}

/// What is asked of the file at a path, with what it includes: the last value of a key.
fn loaded<'a>(path: &'a str, key: KeyRef<'a>) -> Get<'a>
    ensures { plain_of_get result ≡ Some (spec.Load path.now (keys.key_of key.entry)) }
{
    Get {
        reading: Reading {
            source: Source::Target(Target::File(path)),
            includes: Some(true),
        },
        ..get(key, Choice::Last { default: None }, None)
    }
}

/// That a key gets a value in standard input.
fn set<'a>(key: KeyRef<'a>, value: &'a str) -> Command<'a>
    ensures { plain_of result ≡ Some (spec.Set (keys.key_of key.entry) value.now) }
{
    Command::Set(Set {
        target: Target::Input,
        key,
        value,
        kind: None,
        placing: Placing::Only(Values::Any),
        comment: None,
        is_synced: true,
    })
}

/// That a key loses an entry in standard input.
fn unset<'a>(key: KeyRef<'a>) -> Command<'a>
    ensures { plain_of result ≡ Some (spec.Unset (keys.key_of key.entry)) }
{
    Command::Unset(Unset {
        target: Target::Input,
        key,
        values: Values::Any,
        is_all: false,
        is_synced: true,
    })
}

/// That standard input is formatted as it is by default.
fn layout<'a>() -> Fmt<'a>
    ensures { plain_of_fmt result.files result.is_check result.indent result.newline ≡ Some spec.Fmt }
{
    Fmt {
        files: Files::One(Target::Input),
        is_check: false,
        indent: None,
        newline: None,
        is_synced: true,
    }
}

/// The key that a word is. One without a dot is no key, nor is an option with its value, as `--file=my.conf`.
fn key_of(word: &str) -> Option<KeyRef<'_>>
    ensures { option_map keys.key_of result ≡ key_asked word.now }
{
    match KeyRef::parse_unvalidated(word.as_bytes()) {
        Some(key) if is_option_with_value(key.section_name) => None,
        key => key,
    }
}

/// Whether what stands before the first dot of a word makes it an option with its value. No section has such a name.
fn is_option_with_value(name: &str) -> bool
    ensures { result ≡ is_option_with_value name.now }
{
    name.starts_with("--") && name.as_bytes().contains(&b'=')
}

/// Whether a section of these names has neither a name nor a subsection. Its header would be `[]`, which no file may have.
pub fn is_nameless(name: &str, subsection_name: Option<&[u8]>) -> bool
    ensures { result ≡ is_nameless name.now (option_copied subsection_name.entry) }
{
    name.is_empty() && subsection_name.is_none()
}
