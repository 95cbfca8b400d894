//! Commands that set what is outside of a file: other files, variables, where a file comes from, and how files that
//! include others are expanded.
ghost use Rattle.std.specs.Prelude.{◌≡◌, OnErr};

use crate::answer::{Answer, Outcome};
use crate::failing::Failure;
use crate::files::file_of;
use crate::gix_config::file::Metadata;
use crate::gix_config::host::Stage;
use crate::refusal::Refusal;
use crate::session::Session;
use crate::surroundings::{Content, Expansion, owned_text};
use script_words::editor_arguments::text_and_bytes;
use script_words::loading::turn_and_name;
use script_words::outside::{expansion_of, level, optional_text, path_and_fault, variable};
use script_words::words::{NotUnderstood, Word, named_in};
use std::alloc::Global;
use std::rc::Rc;

/// `file PATH BYTES`: a file of these bytes is at the path.
pub fn file<'a>(alloc: Global, session: &mut Session, words: &[Word<'_>]) -> Outcome<'a> {
    let (path, bytes) = text_and_bytes(words)?;
    let content = Content::Bytes(Vec::from_slice(alloc, bytes)?);
    put_file(alloc, session, path, content)?;
    Ok(Answer::Done)
}

/// `fault PATH open`, `fault PATH notfound`, `fault PATH read`: the file at the path can't be read.
pub fn fault<'a>(alloc: Global, session: &mut Session, words: &[Word<'_>]) -> Outcome<'a> {
    let (path, fault) = path_and_fault(words)?;
    put_file(alloc, session, path, Content::Fault(fault))?;
    Ok(Answer::Done)
}

fn put_file(
    alloc: Global,
    session: &mut Session,
    path: &str,
    content: Content,
) -> Result<(), Refusal> {
    let path = String::from_str(alloc, path)?;
    session.outside_mut().put_file(path, content)?;
    Ok(())
}

static STAGES: [(&[u8], Stage); 3] = [
    (b"open", Stage::Open),
    (b"read", Stage::Read),
    (b"memory", Stage::Memory),
];

/// N STAGE: which call fails, and at what stage.
fn failure_of(words: &[Word<'_>]) -> Result<Failure, NotUnderstood> {
    let (turns, name) = turn_and_name(words)?;
    match named_in(&STAGES, name) {
        Some(stage) => Ok(Failure::at(turns, stage)),
        None => Err(NotUnderstood),
    }
}

/// `failread N STAGE`: from now on, in each command that reads files, the Nth read fails at that stage.
pub fn failread<'a>(session: &mut Session, words: &[Word<'_>]) -> Outcome<'a> {
    let failure = failure_of(words)?;
    session.outside_mut().fail_read(failure);
    Ok(Answer::Done)
}

/// `failtrust N STAGE`: the same for the Nth question for the trust of a file.
pub fn failtrust<'a>(session: &mut Session, words: &[Word<'_>]) -> Outcome<'a> {
    let failure = failure_of(words)?;
    session.outside_mut().fail_trust(failure);
    Ok(Answer::Done)
}

/// `var BYTES OPT`: a variable is set to a text, or to bytes that aren't UTF-8.
pub fn var<'a>(alloc: Global, session: &mut Session, words: &[Word<'_>]) -> Outcome<'a> {
    let (name, text) = variable(words)?;
    let name = String::from_str(alloc, name)?;
    let text = owned_text(alloc, text)?;
    session.outside_mut().set_variable(name, text)?;
    Ok(Answer::Done)
}

/// `options N B B B B OPT OPT OPT OPT OPT`: how files that include others are expanded.
pub fn options<'a>(alloc: Global, session: &mut Session, words: &[Word<'_>]) -> Outcome<'a> {
    let words = expansion_of(words)?;
    let expansion = Expansion::of(alloc, &words)?;
    session.outside_mut().set_expansion(expansion);
    Ok(Answer::Done)
}

/// `at OPT`: the path that what is loaded or made comes from. What the current file was made of is loaded again.
pub fn at<'a>(alloc: Global, session: &mut Session, words: &[Word<'_>]) -> Outcome<'a> {
    let path = owned_text(alloc, optional_text(words)?)?;
    let level = session.origin().level;
    load_again(alloc, session, path, level)?;
    Ok(Answer::Done)
}

/// `level N`: the same for how many includes led to it.
pub fn set_level<'a>(alloc: Global, session: &mut Session, words: &[Word<'_>]) -> Outcome<'a> {
    let level = level(words)?;
    let path = session.origin().path.clone()?;
    load_again(alloc, session, path, level)?;
    Ok(Answer::Done)
}

/// What is loaded or made comes from there, and so does the current file, which is made again.
fn load_again(
    alloc: Global,
    session: &mut Session,
    path: Option<String>,
    level: u8,
) -> Result<(), Refusal> {
    let meta = Rc::new(
        alloc,
        Metadata {
            path,
            level,
            ..Metadata::api()
        },
    )?;
    if let Some(loaded) = session.loaded() {
        let file = file_of(alloc, loaded, meta.clone()?)?;
        session.put_again(file);
    }
    session.set_meta(meta);
    Ok(())
}
