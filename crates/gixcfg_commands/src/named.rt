//! The files that a call names by its words.
ghost use Rattle.std.specs.Prelude.{IfErr, IfOk};
ghost use Rattle.gitconf_text.specs.Document.{Reads};
ghost use Rattle.gitconf_state.specs.State.{document_of};
ghost use Rattle.gitconf_read.specs.EventResult.{IsRefused};

use gix_config::file::{Metadata, includes, init};
use gix_config::parse::Error;
use gix_config::{File, NoMemory};
use gixcfg_core::outside::{Inputs, Outside, accepted};
use gixcfg_core::places::meta_of;
use gixcfg_core::trouble::Trouble;
use std::alloc::{AllocGlobal, Global};
use std::io::Read;
use std::rc::Rc;
use std::rt::Files;

/// A text, and what it is called in messages.
#[derive(Clone, Copy)]
pub struct Text<'a> {
    pub name: &'a str,
    pub text: &'a [u8],
}

/// The text of the file that a word names, or of standard input for `-`.
pub fn text_at<R: Files + AllocGlobal, I: Read + Drop>(
    inputs: &mut Inputs<'_, R, I>,
    word: &str,
) -> Result<Vec<u8>, Trouble> {
    let path = if word == "-" { None } else { Some(word) };
    match inputs.text_of(path)? {
        Some(text) => Ok(text),
        None => Err(Trouble::NoFile),
    }
}

/// The entries of the file that a word names.
pub fn file_at<R: Files + AllocGlobal, I: Read + Drop>(
    inputs: &mut Inputs<'_, R, I>,
    word: &str,
) -> Result<File, Trouble> {
    let text = text_at(inputs, word)?;
    entries_or_refused(inputs.rt.alloc(), word, &text, inputs.outside)
}

/// The entries of a text of this name, or how its error is told.
pub fn entries_or_refused(
    alloc: Global,
    name: &str,
    text: &[u8],
    outside: Outside<'_>,
) -> Result<File, Trouble> {
    let read = entries_of_text(alloc, text, meta_of(alloc, None)?);
    accepted(alloc, name, text, read, outside)
}

/// The entries of a text, as a file without whitespace, line endings and comments. The text is copied, since the message of an error shows
/// a line of it.
///
/// # Errors
///
/// Those of [`File::try_from_bytes`].
pub fn entries_of_text(alloc: Global, text: &[u8], meta: Rc<Metadata>) -> Result<File, Error>
    ensures document { IfOk result (λ file. Reads text.now (document_of file)) }
    ensures refused { IfErr result (IsRefused text.now) }
{
    let options = init::Options {
        includes: includes::Options::no_follow(),
        lossy: true,
        ignore_io_errors: false,
    };
    match File::from_bytes_no_includes(alloc, text, meta, options) {
        Ok(file) => Ok(file),
        Err(init::Error::Parse(refusal)) => Err(refusal),
        // Nothing else is refused where no include is followed.
        Err(_) => Err(Error::from(NoMemory)),
    }
}
