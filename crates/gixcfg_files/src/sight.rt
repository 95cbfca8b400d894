//! What is found at a path, open: all that is said of a file, and its text, come from the one that was opened, whatever its path leads to then.

ghost use Rattle.std.specs.Prelude.{◌≡◌, IfOk};
ghost use Rattle.gixcfg_files.specs.Acts.{told_after, Grows, Sees, SeesOpened};
ghost use Rattle.gixcfg_files.specs.Acts.Act.{ReadText};

use crate::calls::{EditCalls, Found, Kind, Open};
use crate::rights::Identity;
use std::io;
use std::io::ErrorKind;

/// What is found at a path.
#[derive(Drop)]
pub enum Sight<F: Drop> {
    /// Nothing.
    Nothing,
    /// A regular file.
    File(Open<F>),
    /// What is neither a regular file nor a link.
    Irregular,
    /// A link, or another file than a moment before.
    Changing,
}

/// What is found at a path. A link isn't followed: what is opened has to be what was at the path before.
///
/// # Errors
///
/// It can't be looked at, or a regular file can't be opened.
pub fn sight_of<D: EditCalls>(calls: &mut D, path: &str) -> io::Result<Sight<D::File>>
    ensures sees { IfOk result (Sees (D.told calls.old) (D.told calls.new) path.now) }
    ensures grows { Grows (D.told calls.old) (D.told calls.new) }
{
    match calls.look(path)? {
        None => Ok(Sight::Nothing),
        Some(look) => match look.kind {
            Kind::File => opened(calls, path, look.original.identity),
            Kind::Link => Ok(Sight::Changing),
            Kind::Other => Ok(Sight::Irregular),
        },
    }
}

/// The file at a path, as it was when it was opened and read. None if nothing is there.
///
/// # Errors
///
/// What is there is no regular file, or can't be opened or read, or changes; out of memory.
pub fn find_file<D: EditCalls>(calls: &mut D, path: &str) -> io::Result<Option<Found>> {
    match sight_of(calls, path)? {
        Sight::Nothing => Ok(None),
        Sight::File(file) => Ok(Some(found_in(calls, file)?)),
        Sight::Irregular | Sight::Changing => Err(io::Error::from(ErrorKind::Other)),
    }
}

/// A file that was opened, with its text.
///
/// # Errors
///
/// It can't be read; out of memory.
pub fn found_in<D: EditCalls>(calls: &mut D, file: Open<D::File>) -> io::Result<Found>
    ensures file { IfOk result (λ found. found.original ≡ file.original) }
    ensures read { IfOk result (λ found. D.told calls.new ≡ told_after (D.told calls.old) (ReadText file.original found.text.items)) }
{
    let original = file.original();
    let text = calls.read(file)?;
    Ok(Found { original, text })
}

/// Opens the file at a path, which is to be that one.
fn opened<D: EditCalls>(calls: &mut D, path: &str, identity: Identity) -> io::Result<Sight<D::File>>
    ensures sees { IfOk result (SeesOpened (D.told calls.old) (D.told calls.new) path.now identity) }
    ensures grows { Grows (D.told calls.old) (D.told calls.new) }
{
    match calls.open(path) {
        Ok(file) if file.original().identity == identity => Ok(Sight::File(file)),
        Ok(_) => Ok(Sight::Changing),
        Err(error) if error.kind() == ErrorKind::NotFound => Ok(Sight::Changing),
        Err(error) => Err(error),
    }
}
