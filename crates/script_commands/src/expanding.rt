//! Commands that read the files that a file includes, as the script sets them.
//
// A host is made in each call that needs one, and passed to no other function of ours: the check refuses a function that takes one
// and could put another box into it.

use crate::answer::{Answer, Outcome};
use crate::gix_config::File;
use crate::gix_config::file::Metadata;
use crate::gix_config::host::Host;
use crate::refusal::Refusal;
use crate::session::Session;
use crate::surroundings::{Outside, Parts};
use script_words::arguments::{bytes, no_words};
use script_words::words::Word;
use std::alloc::Global;
use std::rc::Rc;

/// `resolve`: puts into the current file what its sections include.
pub fn resolve<'a>(alloc: Global, session: &mut Session, words: &[Word<'_>]) -> Outcome<'a> {
    no_words(words)?;
    let outside = session.replace_outside(Outside::new(alloc));
    let expanded = expand(alloc, session.file_mut(), &outside);
    drop(session.replace_outside(outside));
    match expanded {
        Ok(()) => Ok(Answer::Done),
        Err(refusal) => Err(refusal),
    }
}

/// `owned BYTES`: the current file becomes that text, with what its sections include.
pub fn owned<'a>(alloc: Global, session: &mut Session, words: &[Word<'_>]) -> Outcome<'a> {
    let text = Vec::from_slice(alloc, bytes(words)?)?;
    let file = expanded_text(alloc, text, session.meta()?, session.outside())?;
    session.put(file, None);
    Ok(Answer::Done)
}

/// Puts into a file what its sections include.
fn expand(alloc: Global, file: &mut File, outside: &Outside) -> Result<(), Refusal> {
    let Parts {
        files,
        variables,
        places,
    } = outside.parts(alloc)?;
    let mut host = Host {
        files: Box::new(alloc, files)?,
        env: Box::new(alloc, variables)?,
        places,
    };
    Ok(file.resolve_includes(outside.options(), &mut host)?)
}

/// The file that a text is, with what its sections include.
fn expanded_text(
    alloc: Global,
    text: Vec<u8>,
    meta: Rc<Metadata>,
    outside: &Outside,
) -> Result<File, Refusal> {
    let Parts {
        files,
        variables,
        places,
    } = outside.parts(alloc)?;
    let mut host = Host {
        files: Box::new(alloc, files)?,
        env: Box::new(alloc, variables)?,
        places,
    };
    Ok(File::from_bytes_owned(alloc, text, meta, outside.options(), &mut host)?)
}
