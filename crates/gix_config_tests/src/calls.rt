//! The file that calls are made on, and how a call is made with one of its allocations refused.

use bstr::BString;
use gitconf_tests::shim::{Outcome, begin, each_refused, was_refused};
use gix_config::file::{Metadata, init};
use gix_config::refusals::Refusal;
use gix_config::{File, KeyRef, NoMemory, Source};
use std::alloc::Global;
use std::rc::Rc;
use std::test::Fail;

/// Whether a call's result is the expected one. `None` if it reports that memory ran out.
pub type Told = Option<bool>;

/// The key whose values the file has.
pub const KEY: KeyRef<'static> = KeyRef {
    section_name: "a",
    subsection_name: None,
    value_name: "k",
};

/// What the file has: the first section is a program's, the second one the user's.
pub const TEXT: &[u8] = b"[a]\nk = 0\n[A]\nk = 2\n";

/// Whether metadata is that of a program.
pub fn is_api(meta: &Metadata) -> bool {
    meta.source == Source::Api
}

/// Whether metadata is that of the user.
pub fn is_user(meta: &Metadata) -> bool {
    meta.source == Source::User
}

/// Whether metadata is that of a repository; no section of the file has such metadata.
pub fn is_local(meta: &Metadata) -> bool {
    meta.source == Source::Local
}

/// The user's section.
fn file_of_user(alloc: Global) -> Result<File, Fail> {
    let meta = Rc::new(alloc, Metadata::from(Source::User))?;
    Ok(File::from_bytes_no_includes(alloc, b"[A]\nk = 2\n", meta, init::Options::default())?)
}

/// The program's section, and the user's after it.
fn appended(alloc: Global, of_user: File) -> Result<File, Fail> {
    let mut file = File::try_from_bytes(alloc, b"[a]\nk = 0\n")?;
    file.append(of_user)?;
    Ok(file)
}

/// The file with both sections.
pub fn file_of_two(alloc: Global) -> Result<File, Fail> {
    let of_user = file_of_user(alloc)?;
    appended(alloc, of_user)
}

/// Whether all of them are as expected; `None` if one reports that memory ran out.
pub fn all(told: &[Told]) -> Told {
    let mut are_wanted = true;
    for one in told {
        let is_wanted = (*one)?;
        are_wanted = are_wanted && is_wanted;
    }
    Some(are_wanted)
}

/// Whether the error has this number; `None` when out of memory.
pub fn is_refused<E: Refusal>(refusal: &E, number: u8) -> Told {
    match refusal.number() {
        27 => None,
        told => Some(told == number),
    }
}

/// Whether these are the texts.
pub fn are_texts(found: &[BString], wanted: &[&[u8]]) -> bool {
    found.len() == wanted.len()
        && found
            .iter()
            .zip(wanted)
            .all(|(found, wanted)| found.as_bytes() == *wanted)
}

/// Whether the text was found, or nothing if none is expected.
pub fn is_text(found: &Result<Option<BString>, NoMemory>, wanted: Option<&[u8]>) -> Told {
    match (found, wanted) {
        (Ok(Some(text)), Some(wanted)) => Some(text.as_bytes() == wanted),
        (Ok(found), wanted) => Some(found.is_none() && wanted.is_none()),
        (Err(NoMemory), _) => None,
    }
}

/// One lookup of the file.
fn looked<F: Fn(&File) -> Told>(alloc: Global, file: &File, look: &F) -> Result<Outcome, Fail>
    requires { F.IsAlwaysCallable look.now }
{
    begin(alloc)?;
    let told = look(file);
    let refused = was_refused(alloc);
    Ok(Outcome {
        refused,
        fits: told.unwrap_or(refused),
    })
}

/// A lookup of the file, with each of its allocations refused before.
pub fn look_up<F: Fn(&File) -> Told>(alloc: Global, what: &str, look: F) -> Result<(), Fail>
    requires { F.IsAlwaysCallable look }
{
    let file = file_of_two(alloc)?;
    each_refused(alloc, what, |alloc| looked(alloc, &file, &look))
}

fn is_printed(file: &File, text: &[u8]) -> Result<bool, Fail> {
    Ok(file.to_bstring()?.as_bytes() == text)
}

/// Whether an edit was made and this is printed, or it was refused and the file is as it was.
fn is_made<F: Fn(&mut File) -> Told>(
    alloc: Global,
    file: &mut File,
    edit: &F,
    text: &[u8],
) -> Result<Outcome, Fail>
    requires { F.IsAlwaysCallable edit.now }
{
    begin(alloc)?;
    let told = edit(file);
    let refused = was_refused(alloc);
    let printed = if told.is_some() { text } else { TEXT };
    Ok(Outcome {
        refused,
        fits: told.unwrap_or(refused) && is_printed(file, printed)?,
    })
}

/// One edit of the file.
fn edited<F: Fn(&mut File) -> Told>(alloc: Global, edit: &F, text: &[u8]) -> Result<Outcome, Fail>
    requires { F.IsAlwaysCallable edit.now }
{
    let mut file = file_of_two(alloc)?;
    is_made(alloc, &mut file, edit, text)
}

/// An edit of the file, after which this is printed. Each of its allocations is refused before.
pub fn change<F: Fn(&mut File) -> Told>(
    alloc: Global,
    what: &str,
    edit: F,
    text: &[u8],
) -> Result<(), Fail>
    requires { F.IsAlwaysCallable edit }
{
    each_refused(alloc, what, |alloc| edited(alloc, &edit, text))
}
