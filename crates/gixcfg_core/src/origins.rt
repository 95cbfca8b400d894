//! Where entries come from.
ghost use Rattle.std.specs.Prelude.{◌≡◌, ◌++◌, IfOk};
ghost use Rattle.gixcfg_core.specs.Origins as origins;

use crate::quoted::add_quoted;
use gitconf_sources::meta::Metadata;
use gitconf_sources::source::Source;
use gitconf_text::NoMemory;
use gixcfg_words::command::{Form, Place};
use std::alloc::Global;

/// What a call is about, once it is found where that is.
#[derive(Drop)]
pub enum Located {
    /// Standard input.
    Input,
    /// The file at a path, and which of git's it is, if it is one.
    File(String, Option<Place>),
    /// All that git reads.
    Effective,
}

impl Located {
    ghost use Rattle.std.specs.Option.{option_copied};
    ghost use Rattle.std.specs.Prelude.{◌≡◌};
    ghost use Rattle.gixcfg_core.specs.Origins.{path_of};

    /// What it is called in messages.
    pub fn name(&self) -> &str {
        match self {
            Located::Input => "standard input",
            Located::File(path, _) => path.as_str(),
            Located::Effective => "--effective",
        }
    }

    /// Whether it is all that git reads.
    pub fn is_effective(&self) -> bool {
        matches!(self, Located::Effective)
    }

    /// Whether what is included is read too: as asked for, else where it isn't one file of its own, as git does it.
    pub fn follows(&self, includes: Option<bool>) -> bool {
        match (includes, self) {
            (Some(follows), _) => follows,
            (None, Located::Input | Located::Effective) => true,
            (None, Located::File(..)) => false,
        }
    }

    /// The path of the file, if it is one.
    pub fn path(&self) -> Option<&str>
        ensures { option_copied result ≡ path_of self.now }
    {
        match self {
            Located::File(path, _) => Some(path.as_str()),
            Located::Input | Located::Effective => None,
        }
    }
}

/// What is printed before the entries of a section with this metadata: their scope and their file, as far as that is asked for.
///
/// # Errors
///
/// Out of memory.
pub fn before_of(
    alloc: Global,
    meta: &Metadata,
    form: &Form,
    read: &Located,
) -> Result<Vec<u8>, NoMemory>
    ensures { IfOk result (λ before. before.items ≡ origins.before_of form.now meta.now read.now) }
{
    let mut before = Vec::new(alloc);
    add_if(&mut before, form.has_scope, form, scope_of(meta, read))?;
    add_origin_if(&mut before, meta, form, read)?;
    Ok(before)
}

/// What is printed before a value that the call itself gives.
///
/// # Errors
///
/// Out of memory.
pub fn before_given(alloc: Global, form: &Form) -> Result<Vec<u8>, NoMemory>
    ensures { IfOk result (λ before. before.items ≡ origins.before_given form.now) }
{
    let mut before = Vec::new(alloc);
    add_if(&mut before, form.has_scope, form, "command")?;
    add_if(&mut before, form.has_origin, form, "command line:")?;
    Ok(before)
}

/// Adds a text and its end, if it is asked for.
fn add_if(before: &mut Vec<u8>, is_asked: bool, form: &Form, text: &str) -> Result<(), NoMemory>
    ensures { IfOk result (λ _. before.new.items ≡ before.old.items ++ origins.ended_if is_asked form.now text.now) }
{
    if is_asked {
        before.extend_from_slice(text.as_bytes())?;
        before.push(end_of(form))?;
    }
    Ok(())
}

/// What ends the scope and what ends the file.
fn end_of(form: &Form) -> u8
    ensures { result ≡ origins.end_of form.now }
{
    if form.is_null { 0 } else { b'\t' }
}

/// Adds what the file is called from which something was read, if that is asked for, and what ends it.
fn add_origin_if(
    before: &mut Vec<u8>,
    meta: &Metadata,
    form: &Form,
    read: &Located,
) -> Result<(), NoMemory>
    ensures { IfOk result (λ _. before.new.items
        ≡ before.old.items ++ origins.ended_if form.now.has_origin form.now (origins.origin_of form.now.is_null meta.now read.now)) }
{
    if form.has_origin {
        add_origin(before, meta, read, form.is_null)?;
        before.push(end_of(form))?;
    }
    Ok(())
}

/// The scope of what was read.
pub fn scope_of(meta: &Metadata, read: &Located) -> &'static str
    ensures { result.now ≡ origins.scope_of meta.now read.now }
{
    match read {
        Located::Effective => scope_of_source(meta.source),
        Located::File(_, Some(Place::System)) => "system",
        Located::File(_, Some(Place::Global)) => "global",
        // So has git for a working tree's file that is named.
        Located::File(_, Some(Place::Local | Place::Worktree)) => "local",
        Located::File(_, None) | Located::Input => "command",
    }
}

/// The scope of a source, by git's word for it.
fn scope_of_source(source: Source) -> &'static str
    ensures { result.now ≡ origins.scope_of_source source }
{
    match source {
        Source::GitInstallation | Source::System => "system",
        Source::Git | Source::User => "global",
        Source::Local => "local",
        Source::Worktree => "worktree",
        Source::Env | Source::Cli | Source::Api | Source::EnvOverride => "command",
    }
}

/// Adds what the file is called from which something was read.
///
/// # Errors
///
/// Out of memory.
pub fn add_origin(
    before: &mut Vec<u8>,
    meta: &Metadata,
    read: &Located,
    is_null: bool,
) -> Result<(), NoMemory>
    ensures { IfOk result (λ _. before.new.items ≡ before.old.items ++ origins.origin_of is_null meta.now read.now) }
{
    match (&meta.path, read) {
        (Some(path), _) => add_file(before, path.as_str(), is_null),
        (None, Located::File(path, _)) => add_file(before, path.as_str(), is_null),
        (None, Located::Input) => Ok(before.extend_from_slice(b"standard input:")?),
        (None, Located::Effective) => Ok(before.extend_from_slice(b"command line:")?),
    }
}

/// Adds what a file is called: its path as it is where bytes 0 end what is printed, else as git quotes it.
fn add_file(before: &mut Vec<u8>, path: &str, is_null: bool) -> Result<(), NoMemory>
    ensures { IfOk result (λ _. before.new.items ≡ before.old.items ++ origins.file_named is_null path.now) }
{
    before.extend_from_slice(b"file:")?;
    if is_null {
        before.extend_from_slice(path.as_bytes())?;
    } else {
        add_quoted(before, path.as_bytes())?;
    }
    Ok(())
}
