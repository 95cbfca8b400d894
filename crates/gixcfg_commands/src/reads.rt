//! `get`, `list` and `print`.
ghost use Rattle.std.specs.Prelude.{◌≡◌, IfOk, None, Some, map, true};
ghost use Rattle.gixcfg_words.specs.Plain.{Entries, Plain, Print, plain_of_get};
ghost use Rattle.gixcfg_words.specs.declared.rules.Rules.TheVariants as rules;
ghost use Rattle.gixcfg_core.specs.declared.origins.Located.TheVariants as located;
ghost use Rattle.gixcfg_commands.specs.Plainly.{is_of_input, plain_asked, GivesOfInput, IsOutcome, PutsOfInput};
ghost use Rattle.gixcfg_core.specs.Entries.{plain_found};
ghost use Rattle.gixcfg_commands.specs.Getting.{AreFound, AreMeantLines, IsSought};

use crate::at_once::{key_alone, last_line};
use crate::coloring::{color, colorbool};
use crate::entries::{all_entries, entries_like, entries_meant, entries_of, put_all_lines};
use crate::including::file_read;
use crate::library;
use crate::loads::Loads;
use crate::tracing::{Traceable, trace};
use gix_config::{File, KeyRef};
use gixcfg_core::entries::Found;
use gixcfg_core::for_url::{Variables, entries_for_url};
use gixcfg_core::origins::Located;
use gixcfg_core::outside::Inputs;
use gixcfg_core::showing::put_made;
use gixcfg_core::streams::{put, read_all};
use gixcfg_core::telling::{lines_of_all, lines_of_found};
use gixcfg_core::trouble::Trouble;
use gixcfg_words::command::{Color, Colorbool, Form, Get, List, Reading, Source, Target, Wanted};
use gixcfg_words::rules::Rules;
use std::alloc::{AllocGlobal, Global};
use std::io::{Read, Write};
use std::rt::{Env, Files};

/// What is asked of what a call reads.
#[derive(Clone, Copy)]
pub enum Asked<'a> {
    /// Values.
    Get(&'a Get<'a>),
    /// All entries.
    List(&'a List<'a>),
    /// A color.
    Color(&'a Color<'a>),
    /// Whether output is to be colored.
    Colorbool(&'a Colorbool<'a>),
    /// Standard input.
    Input,
}

impl<'a> Asked<'a> {
    ghost use Rattle.gixcfg_commands.specs.Plainly.{source_of};

    /// What is read for it.
    pub fn source(&self) -> Source<'a>
        ensures { result ≡ source_of self.now }
    {
        match self {
            Asked::Get(get) => get.reading.source,
            Asked::List(list) => list.reading.source,
            Asked::Color(color) => color.reading.source,
            Asked::Colorbool(colorbool) => colorbool.reading.source,
            Asked::Input => Source::Target(Target::Input),
        }
    }
}

/// Writes the lines that answer what is asked.
///
/// # Errors
///
/// Nothing is found that was asked for, or more than one may print; what is read is missing or refused; out of memory; the stream fails.
pub fn put_answer<R: Files + Env + Loads + AllocGlobal + Copy, I: Read + Drop, W: Write>(
    inputs: &mut Inputs<'_, R, I>,
    asked: Asked<'_>,
    read: &Located,
    out: &mut W,
) -> Result<(), Trouble>
    ensures { (plain : Plain) → plain_asked asked.entry ≡ Some plain → is_of_input plain ≡ true → inputs.old.rules ≡ rules.Library → read.now ≡ located.Input
        → PutsOfInput (IsOutcome plain) (I.remaining inputs.old.input) result (W.contents out.old) (W.contents out.new) }
{
    match asked {
        Asked::Get(call) => put_made(get(inputs, call, read), out),
        Asked::List(call) => put_list(inputs, call, read, out),
        Asked::Color(call) => put_made(color(inputs, call, read), out),
        Asked::Colorbool(call) => put_made(colorbool(inputs, call, read), out),
        Asked::Input => put_made(printed(inputs), out),
    }
}

/// What is printed of standard input.
fn printed<R: AllocGlobal, I: Read + Drop>(
    inputs: &mut Inputs<'_, R, I>,
) -> Result<Vec<u8>, Trouble>
    ensures { GivesOfInput (λ lines. lines.items) (IsOutcome Print) (I.remaining inputs.old.input) result }
{
    let alloc = inputs.rt.alloc();
    match read_all(alloc, &mut inputs.input) {
        Ok(text) => library::printed(alloc, text),
        Err(trouble) => Err(trouble),
    }
}

/// What `get` looks for, with its URL read, if it is one.
#[derive(Drop)]
enum Sought<'a> {
    /// The entries of a key.
    Key(KeyRef<'a>),
    /// The entries in whose keys a pattern is found.
    Keys(&'a str),
    /// The entries for a URL.
    ForUrl(Variables<'a>),
}

/// The lines that `get` prints, of a file that may be missing.
fn get<R: Files + Env + Loads + AllocGlobal + Copy, I: Read + Drop>(
    inputs: &mut Inputs<'_, R, I>,
    get: &Get<'_>,
    read: &Located,
) -> Result<Vec<u8>, Trouble>
    ensures { (plain : Plain) → plain_of_get get.now ≡ Some plain → is_of_input plain ≡ true → inputs.old.rules ≡ rules.Library → read.now ≡ located.Input
        → GivesOfInput (λ lines. lines.items) (IsOutcome plain) (I.remaining inputs.old.input) result }
{
    match inputs.rules {
        Rules::Library => match get.wanted {
            Wanted::Key(key) => library::values(inputs, key, get, read),
            Wanted::Keys(_) | Wanted::ForUrl(_) => get_as_git(inputs, get, read),
        },
        Rules::Git => get_as_git(inputs, get, read),
    }
}

/// The same, as git does it.
fn get_as_git<R: Files + Env + Loads + AllocGlobal + Copy, I: Read + Drop>(
    inputs: &mut Inputs<'_, R, I>,
    get: &Get<'_>,
    read: &Located,
) -> Result<Vec<u8>, Trouble> {
    if let Some(key) = key_alone(get, read) {
        return last_line(inputs, key, &get.form, read);
    }
    let (alloc, home) = (inputs.rt.alloc(), inputs.outside.home);
    if get.form.has_position {
        let found = placed(inputs, get, read)?;
        return lines_of_meant(alloc, found, get, home);
    }
    let sought = sought_by(alloc, get.wanted)?;
    let found = match file_read(inputs, &get.reading, read)? {
        Some(file) => found_in(alloc, &file, &sought, &get.form, read)?,
        None => Vec::new(alloc),
    };
    lines_of_meant(alloc, found, get, home)
}

/// The entries that are looked for, each with its place. None are, if there is no such file, as without places.
fn placed<R: Files + Env + Loads + AllocGlobal + Copy, I: Read + Drop>(
    inputs: &mut Inputs<'_, R, I>,
    get: &Get<'_>,
    read: &Located,
) -> Result<Vec<Found>, Trouble> {
    let key = match get.wanted {
        Wanted::Key(key) => Some(key),
        Wanted::Keys(_) | Wanted::ForUrl(_) => None,
    };
    let found = match placed_entries(inputs, key, &get.reading, &get.form, read) {
        Err(Trouble::NoFile) => Vec::new(inputs.rt.alloc()),
        found => found?,
    };
    match get.wanted {
        Wanted::Keys(pattern) => entries_like(inputs.rt.alloc(), found, pattern),
        Wanted::Key(_) | Wanted::ForUrl(_) => Ok(found),
    }
}

/// The entries of a key, or all, of what is read, each with its place.
fn placed_entries<R: Files + Env + Loads + AllocGlobal, I: Read + Drop>(
    inputs: &mut Inputs<'_, R, I>,
    key: Option<KeyRef<'_>>,
    reading: &Reading<'_>,
    form: &Form,
    read: &Located,
) -> Result<Vec<Found>, Trouble> {
    let asked = Traceable {
        key,
        includes: reading.includes,
        is_null: form.is_null,
    };
    let alloc = inputs.rt.alloc();
    let mut found = Vec::new(alloc);
    for row in trace(inputs, asked, read)?.entries {
        found.push(row.into_found(alloc, form)?)?;
    }
    Ok(found)
}

/// What is looked for.
fn sought_by<'a>(alloc: Global, wanted: Wanted<'a>) -> Result<Sought<'a>, Trouble>
    ensures { IfOk result (IsSought wanted.entry) }
{
    match wanted {
        Wanted::Key(key) => Ok(Sought::Key(key)),
        Wanted::Keys(pattern) => Ok(Sought::Keys(pattern)),
        Wanted::ForUrl(wanted) => Ok(Sought::ForUrl(Variables::of(alloc, &wanted)?)),
    }
}

/// The entries of a file that are looked for.
fn found_in(
    alloc: Global,
    file: &File,
    sought: &Sought<'_>,
    form: &Form,
    read: &Located,
) -> Result<Vec<Found>, Trouble>
    ensures { IfOk result (λ found. AreFound sought.now form.now read.now file.now (map plain_found found.items)) }
{
    match sought {
        Sought::Key(key) => entries_of(alloc, file, *key, form, read),
        Sought::Keys(pattern) => {
            entries_like(alloc, all_entries(alloc, file, form, read)?, pattern)
        }
        Sought::ForUrl(variables) => {
            entries_for_url(alloc, file.sections(), variables, form, read)
        }
    }
}

/// The lines of those entries whose values are meant.
fn lines_of_meant(
    alloc: Global,
    found: Vec<Found>,
    get: &Get<'_>,
    home: Option<&str>,
) -> Result<Vec<u8>, Trouble>
    ensures { get.now.form.kind ≡ None → AreMeantLines get.now (map plain_found found.items) result }
{
    match entries_meant(alloc, found, get.values) {
        Ok(meant) => lines_of_found(alloc, &meant, get.choice, &get.form, home),
        Err(trouble) => Err(trouble),
    }
}

/// Writes the lines that `list` prints.
fn put_list<R: Files + Env + Loads + AllocGlobal, I: Read + Drop, W: Write>(
    inputs: &mut Inputs<'_, R, I>,
    list: &List<'_>,
    read: &Located,
    out: &mut W,
) -> Result<(), Trouble>
    ensures { inputs.old.rules ≡ rules.Library
        → PutsOfInput (IsOutcome Entries) (I.remaining inputs.old.input) result (W.contents out.old) (W.contents out.new) }
{
    match inputs.rules {
        Rules::Library => put_made(entries_of_input(inputs), out),
        Rules::Git => put_list_as_git(inputs, list, read, out),
    }
}

/// The lines of the entries of standard input.
fn entries_of_input<R: AllocGlobal, I: Read + Drop>(
    inputs: &mut Inputs<'_, R, I>,
) -> Result<Vec<u8>, Trouble>
    ensures { GivesOfInput (λ lines. lines.items) (IsOutcome Entries) (I.remaining inputs.old.input) result }
{
    let alloc = inputs.rt.alloc();
    match read_all(alloc, &mut inputs.input) {
        Ok(text) => library::entries(alloc, text),
        Err(trouble) => Err(trouble),
    }
}

/// The same, as git does it.
fn put_list_as_git<R: Files + Env + Loads + AllocGlobal, I: Read + Drop, W: Write>(
    inputs: &mut Inputs<'_, R, I>,
    list: &List<'_>,
    read: &Located,
    out: &mut W,
) -> Result<(), Trouble> {
    let (alloc, home) = (inputs.rt.alloc(), inputs.outside.home);
    if list.form.has_position {
        let found = placed_entries(inputs, None, &list.reading, &list.form, read)?;
        return put(&lines_of_all(alloc, &found, &list.form, home)?, out);
    }
    match (file_read(inputs, &list.reading, read)?, list.form.kind) {
        (Some(file), None) => put_all_lines(alloc, &file, &list.form, read, out),
        (Some(file), Some(_)) => {
            let found = all_entries(alloc, &file, &list.form, read)?;
            put(&lines_of_all(alloc, &found, &list.form, home)?, out)
        }
        (None, _) => Err(Trouble::NoFile),
    }
}
