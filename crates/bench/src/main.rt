//! Times what the library does with standard input, as often as asked: `bench WHAT ROUNDS WORD [times]`.
//!
//! WHAT is `events`, `load`, `lossy`, `look-up`, `raw`, `boolean`, `by-name`, `values`, `in-text`, `print`, `set`, `push`, `lay-out`,
//! `decode`, `match` or `include`, or `all` for each of them in turn. WORD is a key, except that for `match` it is a path pattern; what
//! needs neither ignores it. Standard input is a text, for `decode` a raw value, and for `match` what the pattern is matched against.
//! With `times` each round prints its nanoseconds. The files that a text includes for `include` are made by their paths, as `made` says.
#![tactic(auto)]

mod made;

ghost use Rattle.std.specs.Prelude.{◌≡◌};
ghost use Rattle.gix_config.specs.SectionEditors.{lent};

use anyhow::{Context, Result, bail};
use bstr::BString;
use gitconf_parse::lookup::value_in;
use gix_config::file::{Metadata, SectionMut, includes, init};
use gix_config::format::{Options, normalize};
use gix_config::glob::wildmatch;
use gix_config::host::{Host, MemEnv, Places};
use gix_config::parse::Events;
use gix_config::{File, KeyRef, value};
use made::MadeFiles;
use std::alloc::Global;
use std::io::{BufReader, Read};
use std::mem::replace;
use std::rc::Rc;
use std::rt::Clock;
use std::time::Instant;
use std::{env, io};

/// How often a key is looked up in a round.
const LOOKUPS: u32 = 256;

/// How many lines are pushed in a round.
const PUSHES: u32 = 100_000;

/// What a load keeps of a text.
#[derive(Clone, Copy)]
enum Kept {
    /// All of it.
    All,
    /// Sections and entries, without blanks, line endings and comments.
    Entries,
}

/// What is looked up.
#[derive(Clone, Copy)]
enum LookUp {
    /// The last value of a key, or nothing.
    Value,
    /// The same, or a refusal.
    Raw,
    /// The boolean of a key. A value that is none counts as found.
    Boolean,
    /// The first of the sections that have the name of the key's section.
    Section,
}

/// What is timed.
#[derive(Clone, Copy)]
enum Measure {
    /// Reading the events of a text, and counting them.
    Events,
    /// Loading a file, and dropping an earlier one.
    Load(Kept),
    /// Looking up a key.
    LookUp(LookUp),
    /// Looking up all values of a key.
    Values,
    /// Looking up the last value of a key in the text itself, without a file.
    InText,
    /// Printing a file.
    Print,
    /// Setting a value of a file that was not edited before.
    Set,
    /// Pushing a line to a section, with an editor that pushes many.
    Push,
    /// Laying a text out.
    LayOut,
    /// The meaning of a raw value.
    Decode,
    /// Matching a path pattern.
    Match,
    /// Resolving the includes of a file that was not expanded before.
    Include,
}

/// What it is timed with.
#[derive(Clone, Copy)]
struct Task<'a> {
    text: &'a [u8],
    word: &'a str,
    rounds: u32,
    is_timed: bool,
}

/// All of standard input.
fn input<R: Input + AllocGlobal>(rt: &R) -> io::Result<Vec<u8>> {
    let mut bytes = Vec::new(rt.alloc());
    let _read = rt.reader().read_to_end(&mut bytes)?;
    Ok(bytes)
}

/// Prints the nanoseconds of a round, if they are asked for.
fn tell(rt: HostRuntime, task: Task<'_>, nanos: u128) -> io::Result<()> {
    if task.is_timed {
        println!(rt; "{nanos}")?;
    }
    Ok(())
}

/// The key that a word is.
fn key_of(word: &str) -> Result<KeyRef<'_>> {
    KeyRef::parse_unvalidated(word.as_bytes()).context("a key has a dot")
}

/// How many events the text has.
fn count_events(alloc: Global, text: &[u8]) -> Result<usize> {
    let events = Events::from_bytes(alloc, text, None)?;
    let mut n = 0usize;
    for _event in events.iter() {
        n = n.wrapping_add(1);
    }
    Ok(n)
}

/// How many events the text has, and the nanoseconds that it took to read and to count them, and to drop them.
fn events<R: Clock + AllocGlobal>(rt: &R, text: &[u8]) -> Result<(usize, u128)> {
    let start = Instant::now(rt)?;
    let count = count_events(rt.alloc(), text)?;
    Ok((count, start.elapsed(rt)?.as_nanos()))
}

fn time_events(rt: HostRuntime, task: Task<'_>) -> Result<()> {
    let mut read = 0;
    for _ in 0..task.rounds {
        let (count, nanos) = events(&rt, task.text)?;
        tell(rt, task, nanos)?;
        read = count;
    }
    println!(rt; "{read} events read")?;
    Ok(())
}

/// The text as a file.
fn load(alloc: Global, text: &[u8]) -> Result<File> {
    Ok(File::try_from_bytes(alloc, text)?)
}

/// The text as a file, of which this is kept.
fn load_kept(alloc: Global, text: &[u8], kept: Kept) -> Result<File> {
    match kept {
        Kept::All => load(alloc, text),
        Kept::Entries => load_lossy(alloc, text),
    }
}

/// The text as a file without blanks, line endings and comments.
fn load_lossy(alloc: Global, text: &[u8]) -> Result<File> {
    let mut options = init::Options::default();
    options.lossy = true;
    let meta = Rc::new(alloc, Metadata::api())?;
    Ok(File::from_bytes_no_includes(alloc, text, meta, options)?)
}

/// Puts the text in place of a file, and returns the nanoseconds that this took.
fn reload<R: Clock + AllocGlobal>(
    rt: &R,
    file: &mut File,
    text: &[u8],
    kept: Kept,
) -> Result<u128> {
    let start = Instant::now(rt)?;
    let next = load_kept(rt.alloc(), text, kept)?;
    drop(replace(file, next));
    Ok(start.elapsed(rt)?.as_nanos())
}

/// The rounds of loads. The file is borrowed, so that no way out of the loop drops it.
fn reloads(rt: HostRuntime, task: Task<'_>, file: &mut File, kept: Kept) -> Result<()> {
    for _ in 0..task.rounds {
        let nanos = reload(&rt, file, task.text, kept)?;
        tell(rt, task, nanos)?;
    }
    println!(rt; "{} entries loaded", file.num_values())?;
    Ok(())
}

fn time_load(rt: HostRuntime, task: Task<'_>, kept: Kept) -> Result<()> {
    let mut file = load_kept(rt.alloc(), task.text, kept)?;
    reloads(rt, task, &mut file, kept)
}

/// Whether a lookup finds the key.
fn is_found(file: &File, key: KeyRef<'_>, what: LookUp) -> bool {
    match what {
        LookUp::Value => matches!(file.string(key), Ok(Some(_))),
        LookUp::Raw => file.raw_value(key).is_ok(),
        LookUp::Boolean => !matches!(file.boolean(key), Ok(None)),
        LookUp::Section => has_section(file, key.section_name),
    }
}

/// Whether a section has the name.
fn has_section(file: &File, name: &str) -> bool {
    match file.sections_by_name(name) {
        Some(mut sections) => sections.next().is_some(),
        None => false,
    }
}

/// How many of the lookups find the key.
fn found(file: &File, key: KeyRef<'_>, what: LookUp) -> u32 {
    let mut n = 0u32;
    for _ in 0..LOOKUPS {
        if is_found(file, key, what) {
            n = n.wrapping_add(1);
        }
    }
    n
}

/// How many of the lookups find the key, and the nanoseconds that they took.
fn look_up<R: Clock>(rt: &R, file: &File, key: KeyRef<'_>, what: LookUp) -> Result<(u32, u128)> {
    let start = Instant::now(rt)?;
    let hits = found(file, key, what);
    Ok((hits, start.elapsed(rt)?.as_nanos()))
}

/// The rounds of lookups in a file.
fn look_ups(rt: HostRuntime, task: Task<'_>, file: &File, what: LookUp) -> Result<()> {
    let key = key_of(task.word)?;
    let mut hits = 0;
    for _ in 0..task.rounds {
        let (found, nanos) = look_up(&rt, file, key, what)?;
        tell(rt, task, nanos / LOOKUPS as u128)?;
        hits = found;
    }
    println!(rt; "{hits} of {LOOKUPS} found")?;
    Ok(())
}

fn time_look_up(rt: HostRuntime, task: Task<'_>, what: LookUp) -> Result<()> {
    let file = load(rt.alloc(), task.text)?;
    look_ups(rt, task, &file, what)
}

/// How many values the key has, and the nanoseconds that it took to find and to drop them.
fn values<R: Clock>(rt: &R, file: &File, key: KeyRef<'_>) -> Result<(usize, u128)> {
    let start = Instant::now(rt)?;
    let count = count_values(file, key)?;
    Ok((count, start.elapsed(rt)?.as_nanos()))
}

fn count_values(file: &File, key: KeyRef<'_>) -> Result<usize> {
    match file.strings(key)? {
        Some(values) => Ok(values.len()),
        None => Ok(0),
    }
}

/// The rounds of lookups of all values.
fn all_values(rt: HostRuntime, task: Task<'_>, file: &File) -> Result<()> {
    let key = key_of(task.word)?;
    let mut found = 0;
    for _ in 0..task.rounds {
        let (count, nanos) = values(&rt, file, key)?;
        tell(rt, task, nanos)?;
        found = count;
    }
    println!(rt; "{found} values found")?;
    Ok(())
}

fn time_values(rt: HostRuntime, task: Task<'_>) -> Result<()> {
    let file = load(rt.alloc(), task.text)?;
    all_values(rt, task, &file)
}

/// The key's last value in the text, and the nanoseconds that it took to find it.
fn find_in_text<R: Clock + AllocGlobal>(
    rt: &R,
    text: &[u8],
    key: &str,
) -> Result<(Option<BString>, u128)> {
    let start = Instant::now(rt)?;
    let value = value_in(rt.alloc(), text, key)?;
    Ok((value, start.elapsed(rt)?.as_nanos()))
}

fn time_in_text(rt: HostRuntime, task: Task<'_>) -> Result<()> {
    let mut found = None;
    for _ in 0..task.rounds {
        let (value, nanos) = find_in_text(&rt, task.text, task.word)?;
        tell(rt, task, nanos)?;
        found = value;
    }
    match found {
        Some(value) => println!(rt; "{value} is its last value")?,
        None => println!(rt; "it has no value")?,
    }
    Ok(())
}

/// How many bytes the file is printed as, and the nanoseconds that this took.
fn print<R: Clock>(rt: &R, file: &File) -> Result<(usize, u128)> {
    let start = Instant::now(rt)?;
    let bytes = file.to_bstring()?.len();
    Ok((bytes, start.elapsed(rt)?.as_nanos()))
}

/// The rounds of printing a file.
fn prints(rt: HostRuntime, task: Task<'_>, file: &File) -> Result<()> {
    let mut written = 0;
    for _ in 0..task.rounds {
        let (bytes, nanos) = print(&rt, file)?;
        tell(rt, task, nanos)?;
        written = bytes;
    }
    println!(rt; "{written} bytes written")?;
    Ok(())
}

fn time_print(rt: HostRuntime, task: Task<'_>) -> Result<()> {
    let file = load(rt.alloc(), task.text)?;
    prints(rt, task, &file)
}

/// Sets the key's value, and returns the nanoseconds that this took.
fn set<R: Clock>(rt: &R, file: &mut File, key: KeyRef<'_>) -> Result<u128> {
    let start = Instant::now(rt)?;
    // The old value isn't needed.
    let _ = file.set_raw_value(key, b"a new value")?;
    Ok(start.elapsed(rt)?.as_nanos())
}

/// Sets the key's value in the text, and returns the nanoseconds of the edit alone.
fn set_in<R: Clock + AllocGlobal>(rt: &R, text: &[u8], key: KeyRef<'_>) -> Result<u128> {
    let mut file = load(rt.alloc(), text)?;
    set(rt, &mut file, key)
}

fn time_set(rt: HostRuntime, task: Task<'_>) -> Result<()> {
    let key = key_of(task.word)?;
    for _ in 0..task.rounds {
        let nanos = set_in(&rt, task.text, key)?;
        tell(rt, task, nanos)?;
    }
    println!(rt; "{} values set", task.rounds)?;
    Ok(())
}

/// Pushes lines, each with the name and a value.
fn push_all(editor: &mut SectionMut<'_>, name: &str) -> Result<()>
    ensures { lent editor.new ≡ lent editor.old }
{
    for _ in 0..PUSHES {
        editor.push(name, Some(b"a new value"))?;
    }
    Ok(())
}

/// Pushes lines to the key's section.
fn push_to(file: &mut File, key: KeyRef<'_>) -> Result<()> {
    match file.section_mut(key.section_name, key.subsection_name) {
        Ok(mut editor) => push_all(&mut editor, key.value_name),
        Err(missing) => Err(missing.into()),
    }
}

/// Pushes lines to the key's section, and returns the nanoseconds that this took.
fn push<R: Clock>(rt: &R, file: &mut File, key: KeyRef<'_>) -> Result<u128> {
    let start = Instant::now(rt)?;
    push_to(file, key)?;
    Ok(start.elapsed(rt)?.as_nanos())
}

/// Pushes lines to the key's section in the text, and returns the nanoseconds of the edits alone.
fn push_in<R: Clock + AllocGlobal>(rt: &R, text: &[u8], key: KeyRef<'_>) -> Result<u128> {
    let mut file = load(rt.alloc(), text)?;
    push(rt, &mut file, key)
}

fn time_push(rt: HostRuntime, task: Task<'_>) -> Result<()> {
    let key = key_of(task.word)?;
    for _ in 0..task.rounds {
        let nanos = push_in(&rt, task.text, key)?;
        tell(rt, task, nanos / PUSHES as u128)?;
    }
    println!(rt; "{PUSHES} lines pushed")?;
    Ok(())
}

/// How many bytes the layout of the text has, and the nanoseconds that it took.
fn lay_out<R: Clock + AllocGlobal>(rt: &R, text: &[u8]) -> Result<(usize, u128)> {
    let start = Instant::now(rt)?;
    let text = normalize(rt.alloc(), text, Options::default())?;
    Ok((text.len(), start.elapsed(rt)?.as_nanos()))
}

fn time_lay_out(rt: HostRuntime, task: Task<'_>) -> Result<()> {
    let mut written = 0;
    for _ in 0..task.rounds {
        let (bytes, nanos) = lay_out(&rt, task.text)?;
        tell(rt, task, nanos)?;
        written = bytes;
    }
    println!(rt; "{written} bytes laid out")?;
    Ok(())
}

/// How many bytes the raw value's meaning has, and the nanoseconds that it took to find them.
fn decode<R: Clock + AllocGlobal>(rt: &R, text: &[u8]) -> Result<(usize, u128)> {
    let start = Instant::now(rt)?;
    let meaning = value::normalize(rt.alloc(), text)?;
    Ok((meaning.len(), start.elapsed(rt)?.as_nanos()))
}

fn time_decode(rt: HostRuntime, task: Task<'_>) -> Result<()> {
    let mut meant = 0;
    for _ in 0..task.rounds {
        let (bytes, nanos) = decode(&rt, task.text)?;
        tell(rt, task, nanos)?;
        meant = bytes;
    }
    println!(rt; "{meant} bytes meant")?;
    Ok(())
}

/// Whether the pattern matches the text, and the nanoseconds that it took to find out.
fn matched<R: Clock + AllocGlobal>(rt: &R, pattern: &str, text: &[u8]) -> Result<(bool, u128)> {
    let start = Instant::now(rt)?;
    let is_match = wildmatch(rt.alloc(), pattern.as_bytes(), text, false)?;
    Ok((is_match, start.elapsed(rt)?.as_nanos()))
}

fn time_match(rt: HostRuntime, task: Task<'_>) -> Result<()> {
    let mut is_match = false;
    for _ in 0..task.rounds {
        let (matches, nanos) = matched(&rt, task.word, task.text)?;
        tell(rt, task, nanos)?;
        is_match = matches;
    }
    println!(rt; "matches: {is_match}")?;
    Ok(())
}

/// Includes are followed as deep as they may go.
fn followed() -> init::Options<'static> {
    let mut includes = includes::Options::follow(Default::default(), Default::default());
    includes.max_depth = 255;
    includes.err_on_max_depth_exceeded = false;
    init::Options {
        includes,
        lossy: false,
        ignore_io_errors: false,
    }
}

/// How many entries the text has with what it includes, and the nanoseconds of the includes alone.
fn include_in<R: Clock + AllocGlobal>(rt: &R, text: &[u8]) -> Result<(usize, u128)> {
    let alloc = rt.alloc();
    let mut file = load(alloc, text)?;
    let mut host = Host {
        files: Box::new(alloc, MadeFiles::new(alloc))?,
        env: Box::new(alloc, MemEnv::new(alloc))?,
        places: Places {
            installation_config: None,
            system_prefix: String::new(alloc),
            home: None,
            homes: None,
        },
    };
    let start = Instant::now(rt)?;
    file.resolve_includes(followed(), &mut host)?;
    let nanos = start.elapsed(rt)?.as_nanos();
    Ok((file.num_values(), nanos))
}

/// The rounds of resolving includes.
fn time_include(rt: HostRuntime, task: Task<'_>) -> Result<()> {
    let mut entries = 0;
    for _ in 0..task.rounds {
        let (count, nanos) = include_in(&rt, task.text)?;
        tell(rt, task, nanos)?;
        entries = count;
    }
    println!(rt; "{entries} entries with those included")?;
    Ok(())
}

fn time(rt: HostRuntime, measure: Measure, task: Task<'_>) -> Result<()> {
    match measure {
        Measure::Events => time_events(rt, task),
        Measure::Load(kept) => time_load(rt, task, kept),
        Measure::LookUp(what) => time_look_up(rt, task, what),
        Measure::Values => time_values(rt, task),
        Measure::InText => time_in_text(rt, task),
        Measure::Print => time_print(rt, task),
        Measure::Set => time_set(rt, task),
        Measure::Push => time_push(rt, task),
        Measure::LayOut => time_lay_out(rt, task),
        Measure::Decode => time_decode(rt, task),
        Measure::Match => time_match(rt, task),
        Measure::Include => time_include(rt, task),
    }
}

/// Whether the word asks for it.
fn is_asked(word: &str, measure: Measure) -> bool {
    let name = match measure {
        Measure::Events => "events",
        Measure::Load(Kept::All) => "load",
        Measure::Load(Kept::Entries) => "lossy",
        Measure::LookUp(LookUp::Value) => "look-up",
        Measure::LookUp(LookUp::Raw) => "raw",
        Measure::LookUp(LookUp::Boolean) => "boolean",
        Measure::LookUp(LookUp::Section) => "by-name",
        Measure::Values => "values",
        Measure::InText => "in-text",
        Measure::Print => "print",
        Measure::Set => "set",
        Measure::Push => "push",
        Measure::LayOut => "lay-out",
        Measure::Decode => "decode",
        Measure::Match => "match",
        Measure::Include => "include",
    };
    word == name || word == "all"
}

const MEASURES: [Measure; 16] = [
    Measure::Events,
    Measure::Load(Kept::All),
    Measure::Load(Kept::Entries),
    Measure::LookUp(LookUp::Value),
    Measure::LookUp(LookUp::Raw),
    Measure::LookUp(LookUp::Boolean),
    Measure::LookUp(LookUp::Section),
    Measure::Values,
    Measure::InText,
    Measure::Print,
    Measure::Set,
    Measure::Push,
    Measure::LayOut,
    Measure::Decode,
    Measure::Match,
    Measure::Include,
];

/// What the words after the program's name ask for: the word of the measure, and the task.
fn task_of<'a>(words: &'a [String], text: &'a [u8]) -> Result<(&'a str, Task<'a>)> {
    let [_, what, rounds, word, more @ ..] = words else {
        bail!("usage: bench WHAT ROUNDS WORD [times]");
    };
    let task = Task {
        text,
        word,
        rounds: rounds.parse::<u32>().context("how many rounds?")?,
        is_timed: !more.is_empty(),
    };
    Ok((what, task))
}

fn main(rt: HostRuntime) -> Result<()> {
    let words: Vec<String> = env::args(&rt)?.collect(rt.alloc())?;
    let text = input(&rt)?;
    let (what, task) = task_of(&words, &text)?;
    for measure in MEASURES {
        if is_asked(what, measure) {
            time(rt, measure, task)?;
        }
    }
    Ok(())
}
