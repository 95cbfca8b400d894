//! Commands on whole files, and on the state of the script.
//!
//! A command that is refused leaves that state as it was, except that `append` takes a file; and one that loads changes no other file.
ghost use Rattle.std.specs.Prelude.{◌≡◌, OnErr};
ghost use Rattle.script_commands.specs.Session.{LoadsFile};

use crate::answer::{Answer, Outcome};
use crate::gix_config::File;
use crate::gix_config::file::{Metadata, init};
use crate::kinds::kept_events;
use crate::refusal::Refusal;
use crate::session::{Loaded, Session};
use script_words::arguments::{bytes, no_words, slot, switch};
use script_words::words::Word;
use std::alloc::Global;
use std::mem::replace;
use std::rc::Rc;

/// `use SLOT`: makes a file the current one.
pub fn select<'a>(session: &mut Session, words: &[Word<'_>]) -> Outcome<'a>
    ensures { OnErr result (session.new ≡ session.old) }
{
    session.select(slot(words)?);
    Ok(Answer::Done)
}

/// `load BYTES`, `lossy BYTES`: the current file becomes that text, all of it, or without blanks, line endings and comments.
pub fn load<'a>(
    alloc: Global,
    session: &mut Session,
    words: &[Word<'_>],
    lossy: bool,
) -> Outcome<'a>
    ensures others { LoadsFile session.old.current session.old session.new }
    ensures err { OnErr result (session.new ≡ session.old) }
{
    let text = Vec::from_slice(alloc, bytes(words)?)?;
    let loaded = Loaded { text, lossy };
    let file = file_of(alloc, &loaded, session.meta()?)?;
    session.put(file, Some(loaded));
    Ok(Answer::Done)
}

/// The file that a text is.
pub fn file_of(alloc: Global, loaded: &Loaded, meta: Rc<Metadata>) -> Result<File, init::Error> {
    let options = init::Options {
        lossy: loaded.lossy,
        ..init::Options::default()
    };
    File::from_bytes_no_includes(alloc, &loaded.text, meta, options)
}

/// `loadkept BYTES LETTERS`: the current file is made of the events of a text without some kinds, if they keep all
/// entries.
pub fn loadkept<'a>(alloc: Global, session: &mut Session, words: &[Word<'_>]) -> Outcome<'a>
    ensures others { LoadsFile session.old.current session.old session.new }
    ensures err { OnErr result (session.new ≡ session.old) }
{
    let events = kept_events(alloc, words)?;
    if !events.keeps_entries() {
        return Err(Refusal::Line);
    }
    let file = File::from_parse_events_no_includes(alloc, events, session.meta()?)?;
    session.put(file, None);
    Ok(Answer::Done)
}

/// `new`: the current file becomes an empty one.
pub fn new<'a>(alloc: Global, session: &mut Session, words: &[Word<'_>]) -> Outcome<'a>
    ensures others { LoadsFile session.old.current session.old session.new }
    ensures err { OnErr result (session.new ≡ session.old) }
{
    no_words(words)?;
    let file = File::new(alloc, session.meta()?);
    session.put(file, Some(Loaded::nothing(alloc)));
    Ok(Answer::Done)
}

/// `clone SLOT`: that file becomes a copy of the current one.
pub fn clone<'a>(session: &mut Session, words: &[Word<'_>]) -> Outcome<'a>
    ensures { OnErr result (session.new ≡ session.old) }
{
    let slot = slot(words)?;
    let copy = session.file().try_clone()?;
    session.put_at(slot, copy);
    Ok(Answer::Done)
}

/// `append SLOT`: appends that file to the current one, and leaves an empty one there, even if the current one refuses it.
pub fn append<'a>(alloc: Global, session: &mut Session, words: &[Word<'_>]) -> Outcome<'a> {
    let slot = slot(words)?;
    let other = session.take(alloc, slot)?;
    session.file_mut().append(other)?;
    Ok(Answer::Done)
}

/// `reset`: everything is as at the start.
pub fn reset<'a>(alloc: Global, session: &mut Session, words: &[Word<'_>]) -> Outcome<'a>
    ensures { OnErr result (session.new ≡ session.old) }
{
    no_words(words)?;
    drop(replace(session, Session::new(alloc)?));
    Ok(Answer::Done)
}

/// `refusals on`, `refusals off`: whether answers report refused growths.
pub fn refusals<'a>(session: &mut Session, words: &[Word<'_>]) -> Outcome<'a>
    ensures { OnErr result (session.new ≡ session.old) }
{
    session.tell_refusals(switch(words)?);
    Ok(Answer::Done)
}
