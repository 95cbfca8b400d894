//! What the shorthands at the front of a path stand for: `%(prefix)/`, `~/` and `~user/`.
ghost use Rattle.std.specs.Prelude.{◌≡◌, ◌==◌, OnOk, OnErr, ℕ, List, None, Some, cond, position, string_bytes};
ghost use Rattle.std.specs.Option.{option_copied};
ghost use Rattle.std.specs.Str.{bytes_eq};
ghost use Rattle.gitconf_values.specs.Homes.{homes_of, folder_of, with_home};
ghost use Rattle.gitconf_values.specs.Interpolated as spec;
ghost use Rattle.gitconf_values.specs.Interpolated.{Gives, Reads};

use super::join;
use gitconf_text::NoMemory;
use std::alloc::{AllocError, AllocFailed, Global};
use std::collections::BTreeMap;
use std::marker::Model;
use std::str::Utf8Error;
use thiserror::Error;

/// What the shorthands of a path stand for. What is `None` is not known, and a path that needs it is refused.
/// The default has nothing.
#[derive(Clone, Copy, Default)]
pub struct Context<'a> {
    /// The directory where git is installed, for `%(prefix)/`.
    pub git_install_dir: Option<&'a str>,
    /// The home directory of the user who runs the program, for `~/`.
    pub home_dir: Option<&'a str>,
    /// The home directories of users, for `~user/`.
    pub home_for_user: Option<&'a Homes>,
}

/// Why the shorthand of a path can't be replaced.
#[derive(Debug, Drop, Error)]
pub enum Error {
    /// The path is empty, or something that it needs is not known: E12. That is a directory, the table of users or a
    /// user.
    #[error("{what} is missing")]
    Missing { what: &'static str },
    /// The rest of the path isn't UTF-8: E13.
    #[error("Ill-formed UTF-8 in {what}")]
    Utf8Conversion { what: &'static str, err: Utf8Error },
    /// The name of the user isn't UTF-8: E14.
    #[error("Ill-formed UTF-8 in username")]
    UsernameConversion(Utf8Error),
    /// An allocation failed: E27.
    #[error("out of memory")]
    Memory,
}

impl From<NoMemory> for Error {
    ghost use Rattle.gitconf_values.specs.declared.path.interpolate.Error.TheVariants.{Memory};

    ghost from_gives = { λ _ e. e ≡ Memory };

    fn from(_e: NoMemory) -> Error {
        Error::Memory
    }
}

/// A table from users to their home directories.
#[derive(Drop)]
pub struct Homes {
    folders: BTreeMap<String, String>,
}

impl Model for Homes {
    ghost use Rattle.std.specs.Prelude.{ℕ, List};
    ghost use Rattle.gitconf_values.specs.Homes.{homes_of};

    ghost Value = { List (List ℕ × List ℕ) };

    ghost view = { λ h. homes_of h.folders.entries };
}

impl Homes {
    ghost use Rattle.std.specs.Prelude.{◌≡◌, [], OnOk, OnErr, ℕ, List, None, Some, cond, string_bytes};
    ghost use Rattle.std.specs.Option.{option_copied};
    ghost use Rattle.std.specs.Str.{bytes_eq};
    ghost use Rattle.gitconf_values.specs.Homes.{folder_of, with_home};

    /// A table without users. Takes no memory.
    pub fn new(alloc: Global) -> Homes
        ensures { result ≡ [] }
    {
        Homes {
            folders: BTreeMap::new(alloc),
        }
    }

    /// Gives a user this directory, in place of the one that the user had. Takes a walk down a tree of the users.
    ///
    /// # Errors
    ///
    /// Out of memory, only for a new user. The table is then as it was.
    pub fn insert(&mut self, user: String, folder: String) -> Result<(), NoMemory>
        ensures ok { OnOk result (self.new ≡ with_home (string_bytes user) (string_bytes folder) self.old) }
        ensures err { OnErr result (self.new ≡ self.old) }
        ensures absent { OnErr result (folder_of (string_bytes user) self.old ≡ None) }
        // The user has the directory, and each other user what it had.
        ensures last { OnOk result ((asked : List ℕ) → folder_of asked self.new
            ≡ cond (bytes_eq (string_bytes user) asked) (Some (string_bytes folder)) (folder_of asked self.old)) }
    {
        put_home(&mut self.folders, user, folder)
    }

    /// The directory of a user, or `None` if the user has none. Takes no memory, and a walk down a tree of the users.
    pub fn get(&self, user: &str) -> Option<&str>
        ensures { option_copied result ≡ folder_of user.now self.now }
    {
        home_of(&self.folders, user)
    }
}

/// Gives a user a directory in a tree of the users.
fn put_home(
    folders: &mut BTreeMap<String, String>,
    user: String,
    folder: String,
) -> Result<(), NoMemory>
    ensures ok { OnOk result (homes_of folders.new.entries ≡ with_home (string_bytes user) (string_bytes folder) (homes_of folders.old.entries)) }
    ensures err { OnErr result (homes_of folders.new.entries ≡ homes_of folders.old.entries) }
    ensures absent { OnErr result (folder_of (string_bytes user) (homes_of folders.old.entries) ≡ None) }
    ensures last { OnOk result ((asked : List ℕ) → folder_of asked (homes_of folders.new.entries)
        ≡ cond (bytes_eq (string_bytes user) asked) (Some (string_bytes folder)) (folder_of asked (homes_of folders.old.entries))) }
{
    folders.insert(user, folder)?;
    Ok(())
}

/// The directory of a user in a tree of the users.
fn home_of<'a>(folders: &'a BTreeMap<String, String>, user: &str) -> Option<&'a str>
    ensures { option_copied result ≡ folder_of user.now (homes_of folders.now.entries) }
{
    match folders.get(user) {
        Some(folder) => Some(folder.as_str()),
        None => None,
    }
}

/// The bytes as text, if they are UTF-8.
fn text(bytes: &[u8]) -> Result<&str, Utf8Error>
    ensures { Reads result bytes.now }
{
    str::from_utf8(bytes)
}

/// What follows a beginning of a path, if the path begins with it.
fn behind<'a>(beginning: &[u8], path: &'a [u8]) -> Option<&'a [u8]>
    ensures { option_copied result ≡ spec.behind beginning.now path.now }
{
    path.strip_prefix(beginning)
}

/// Where the first slash is.
fn first_slash(text: &[u8]) -> Option<usize>
    ensures { result ≡ position (λ b. b == 47) text.now }
{
    text.iter().position(|b| *b == b'/')
}

/// A path that stands for itself.
fn plain(alloc: Global, path: &[u8]) -> Result<String, Error>
    ensures { Gives result (spec.plain path.now) }
{
    match text(path) {
        Ok(path) => match String::from_str(alloc, path) {
            Ok(path) => Ok(path),
            Err(_) => Err(Error::Memory),
        },
        Err(err) => Err(Error::Utf8Conversion { what: "path", err }),
    }
}

/// The rest of a path, in a directory that must be known; `what` names it in an error.
fn below(
    alloc: Global,
    folder: Option<&str>,
    rest: &[u8],
    what: &'static str,
) -> Result<String, Error>
    ensures { Gives result (spec.below (option_copied folder.entry) rest.now) }
{
    let Some(folder) = folder else {
        return Err(Error::Missing { what });
    };
    match text(rest) {
        Ok(rest) => match join(alloc, folder, rest) {
            Ok(path) => Ok(path),
            Err(_) => Err(Error::Memory),
        },
        Err(err) => Err(Error::Utf8Conversion { what: "path", err }),
    }
}

/// The rest of a path, in the directory of a user.
fn below_user(
    alloc: Global,
    homes: Option<&Homes>,
    user: &[u8],
    rest: &[u8],
) -> Result<String, Error>
    ensures { Gives result (spec.below_user (option_copied homes.entry) user.now rest.now) }
{
    match text(user) {
        Ok(user) => match homes {
            Some(homes) => below(alloc, homes.get(user), rest, "home folder of the user"),
            None => Err(Error::Missing {
                what: "table of users",
            }),
        },
        Err(err) => Err(Error::UsernameConversion(err)),
    }
}

/// A path that begins with `~`: with a slash later on it is in a user's directory.
fn of_user(
    alloc: Global,
    homes: Option<&Homes>,
    behind: &[u8],
    path: &[u8],
) -> Result<String, Error>
    ensures { Gives result (spec.of_user (option_copied homes.entry) behind.now path.now) }
{
    match first_slash(behind) {
        Some(n) => below_user(alloc, homes, &behind[..n], &behind[n + 1..]),
        None => plain(alloc, path),
    }
}

/// A path that begins with none of the directories named so far.
fn of_user_or_plain(alloc: Global, homes: Option<&Homes>, path: &[u8]) -> Result<String, Error>
    ensures { Gives result (spec.of_user_or_plain (option_copied homes.entry) path.now) }
{
    match path {
        [b'~', behind @ ..] => of_user(alloc, homes, behind, path),
        _ => plain(alloc, path),
    }
}

/// What a path stands for.
pub(super) fn interpolated(
    alloc: Global,
    path: &[u8],
    context: Context<'_>,
) -> Result<String, Error>
    ensures { Gives result (spec.interpolated (option_copied context.entry.git_install_dir) (option_copied context.entry.home_dir)
        (option_copied context.entry.home_for_user) path.now) }
{
    if path.is_empty() {
        return Err(Error::Missing { what: "path" });
    }
    if let Some(rest) = behind(b"%(prefix)/".as_slice(), path) {
        return below(alloc, context.git_install_dir, rest, "git install dir");
    }
    if let Some(rest) = behind(b"~/".as_slice(), path) {
        return below(alloc, context.home_dir, rest, "home dir");
    }
    of_user_or_plain(alloc, context.home_for_user, path)
}
