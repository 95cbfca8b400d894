//! `merge`: what two files made of a third, joined.
ghost use Rattle.std.specs.Prelude.{◌≡◌, IfErr, IfOk, map};
ghost use Rattle.gitconf_merge.specs.Conflicts.{key_of};
ghost use Rattle.gitconf_merge.specs.Texts.{IsMergeOfTexts};
ghost use Rattle.gixcfg_core.specs.Troubles.{IsStatus};
ghost use Rattle.gixcfg_commands.specs.Merging.{favor_asked};

use crate::checks::tell_all;
use crate::differing::{bytes_of, front_message, has_front};
use crate::named::{entries_or_refused, text_at};
use bstr::BStr;
use gix_config::NoMemory;
use gix_config::merge::{Conflict, Error, Favor, Merged, Texts};
use gixcfg_core::names::add_names;
use gixcfg_core::outside::Inputs;
use gixcfg_core::streams::put;
use gixcfg_core::trouble::{Trouble, report};
use gixcfg_files::{EditFiles, Fault, Place, Replaced, Replacement, System};
use gixcfg_words::command::{self, Merge};
use gixcfg_words::shown::Shown;
use std::alloc::{AllocError, AllocGlobal, Global};
use std::io::{Read, Write};
use std::rt::Files;

/// The status where a conflict stays.
const CONFLICTS: u8 = 1;

/// Joins what two files made of a third, and returns the exit status. Prints the result or gives it to a file. The status is 0 without a
/// conflict that stays, 1 with one; 3 if the text of one is refused, 4 if one can't be read, or the result not written, 5 if out of memory.
/// What failed is reported, and each conflict.
pub fn merge<R: EditFiles + AllocGlobal, I: Read + Drop, W: Write, E: Write>(
    inputs: &mut Inputs<'_, R, I>,
    call: &Merge<'_>,
    out: &mut W,
    err: &mut E,
) -> u8
    ensures { IsStatus result }
{
    match call.output {
        Some(path) => merge_to_file(inputs, call, path, err),
        None => match merge_of(inputs, call, err) {
            Ok(joined) => match put(text_of(&joined.made), out) {
                Ok(()) => joined.tell(err),
                Err(trouble) => report(&trouble, "", inputs.rules, err),
            },
            Err(status) => status,
        },
    }
}

/// The same into a file. Its text is looked at before the others are read, so that a change meanwhile isn't lost.
fn merge_to_file<R: EditFiles + AllocGlobal, I: Read + Drop, E: Write>(
    inputs: &mut Inputs<'_, R, I>,
    call: &Merge<'_>,
    path: &str,
    err: &mut E,
) -> u8
    ensures { IsStatus result }
{
    let rt = inputs.rt;
    let place = match Place::find(rt, System::new(rt), path) {
        Ok(place) => place,
        Err(fault) => return report(&Trouble::from(fault), path, inputs.rules, err),
    };
    let joined = match merge_of(inputs, call, err) {
        Ok(joined) => joined,
        Err(status) => return status,
    };
    let new = Replacement {
        text: text_of(&joined.made),
        is_synced: true,
    };
    let trouble = match place.replace(&new, err) {
        Ok((_, Replaced::Done)) => return joined.tell(err),
        Ok(_) => Trouble::File(Fault::Changing),
        Err(fault) => Trouble::from(fault),
    };
    report(&trouble, path, inputs.rules, err)
}

/// A merge, and what is told of it where its text went out. So of a merge that isn't done only that is told.
#[derive(Drop)]
struct Joined {
    made: Merged,
    messages: Vec<String>,
}

impl Joined {
    ghost use Rattle.gixcfg_core.specs.Troubles.{IsStatus};

    /// Prints the messages, and returns the exit status.
    fn tell<E: Write>(&self, err: &mut E) -> u8
        ensures { IsStatus result }
    {
        tell_all(&self.messages, err);
        status_of(&self.made)
    }
}

/// What is printed of a merge: the text with its conflicts marked, or the text if none stays.
fn text_of(made: &Merged) -> &[u8] {
    match &made.marked {
        Some(marked) => marked,
        None => &made.text,
    }
}

/// The status that a merge has.
fn status_of(made: &Merged) -> u8
    ensures { IsStatus result }
{
    match &made.marked {
        Some(_) => CONFLICTS,
        None => 0,
    }
}

/// The text of one of the three files.
#[derive(Drop)]
struct Given<'a> {
    /// The word that names the file.
    word: &'a str,
    text: Vec<u8>,
    /// Whether it has entries before its first section, which aren't merged.
    has_front: bool,
}

/// The merge that a call asks for; or the exit status, when it was reported why there is none.
fn merge_of<R: Files + AllocGlobal, I: Read + Drop, E: Write>(
    inputs: &mut Inputs<'_, R, I>,
    call: &Merge<'_>,
    err: &mut E,
) -> Result<Joined, u8>
    ensures { IfErr result IsStatus }
{
    let base = given_or_status(inputs, call.base, err)?;
    let ours = given_or_status(inputs, call.ours, err)?;
    let theirs = given_or_status(inputs, call.theirs, err)?;
    match joined_of(inputs.rt.alloc(), &base, &ours, &theirs, call) {
        Ok(joined) => Ok(joined),
        Err(trouble) => Err(report(&trouble, call.ours, inputs.rules, err)),
    }
}

/// The text of the file that a word names, if it is one of git's configuration; or the exit status, when it was reported why it is none.
fn given_or_status<'a, R: Files + AllocGlobal, I: Read + Drop, E: Write>(
    inputs: &mut Inputs<'_, R, I>,
    word: &'a str,
    err: &mut E,
) -> Result<Given<'a>, u8>
    ensures { IfErr result IsStatus }
{
    match read_given(inputs, word) {
        Ok(given) => Ok(given),
        Err(trouble) => Err(report(&trouble, word, inputs.rules, err)),
    }
}

/// The text of the file that a word names.
fn read_given<'a, R: Files + AllocGlobal, I: Read + Drop>(
    inputs: &mut Inputs<'_, R, I>,
    word: &'a str,
) -> Result<Given<'a>, Trouble> {
    let text = text_at(inputs, word)?;
    let file = entries_or_refused(inputs.rt.alloc(), word, &text, inputs.outside)?;
    let has_front = has_front(&file);
    Ok(Given {
        word,
        text,
        has_front,
    })
}

/// The merge of three texts that were read before, and what is told of it: of each that it has entries before its first section, and, unless
/// nothing is to be told of them, each conflict that stays.
fn joined_of<'a>(
    alloc: Global,
    base: &'a Given<'a>,
    ours: &'a Given<'a>,
    theirs: &'a Given<'a>,
    call: &Merge<'_>,
) -> Result<Joined, Trouble> {
    let texts = Texts {
        base: &base.text,
        ours: &ours.text,
        theirs: &theirs.text,
    };
    let made = merged(alloc, &texts, favor_of(call.favor))?;
    let mut messages = Vec::new(alloc);
    for given in [base, ours, theirs] {
        if given.has_front {
            messages.push(front_message(alloc, given.word, "merged")?)?;
        }
    }
    if !call.is_quiet && made.marked.is_some() {
        for conflict in &made.conflicts {
            messages.push(message_of(alloc, conflict, call)?)?;
        }
    }
    Ok(Joined { made, messages })
}

/// The merge of three texts.
fn merged(alloc: Global, texts: &Texts<'_>, favor: Favor) -> Result<Merged, Trouble>
    ensures { IfOk result (λ merged. IsMergeOfTexts favor texts.now.base.now texts.now.ours.now texts.now.theirs.now
        merged.text.items (map key_of merged.conflicts.items)) }
{
    match gix_config::merge::merge(alloc, texts, favor) {
        Ok(made) => Ok(made),
        Err(Error::Memory) => Err(Trouble::Memory),
        Err(Error::Refused(_, refusal)) => Err(Trouble::Refused(refusal.number())),
        // Of no text that is known.
        Err(Error::Unplaced) => Err(Trouble::Different),
    }
}

/// Which side conflicts go to.
fn favor_of(favor: command::Favor) -> Favor
    ensures { result ≡ favor_asked favor }
{
    match favor {
        command::Favor::Neither => Favor::Neither,
        command::Favor::Ours => Favor::Ours,
        command::Favor::Theirs => Favor::Theirs,
        command::Favor::Union => Favor::Union,
    }
}

/// What is told of a conflict: where each side has it, and its key.
fn message_of(alloc: Global, conflict: &Conflict, call: &Merge<'_>) -> Result<String, NoMemory> {
    let names = key_text(alloc, conflict)?;
    let ours = place_text(alloc, call.ours, conflict.lines.ours)?;
    let theirs = place_text(alloc, call.theirs, conflict.lines.theirs)?;
    let key = Shown(BStr::new(&names));
    Ok(format!(in alloc; "gixcfg: {ours}, {theirs}: conflict: {key}\n")?)
}

/// Where a side has an entry.
fn place_text(alloc: Global, name: &str, line: Option<usize>) -> Result<String, AllocError> {
    let name = Shown(name);
    match line {
        Some(line) => format!(in alloc; "{name}:{line}"),
        None => format!(in alloc; "not in {name}"),
    }
}

/// The key of a conflict, as it is printed.
fn key_text(alloc: Global, conflict: &Conflict) -> Result<Vec<u8>, NoMemory> {
    let mut names = Vec::new(alloc);
    add_names(
        &mut names,
        conflict.section_name.as_bytes(),
        bytes_of(&conflict.subsection_name),
        conflict.value_name.as_bytes(),
    )?;
    Ok(names)
}
