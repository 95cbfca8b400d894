//! Paths as configuration writes them: the directory that one is in, joined paths, and what their shorthands stand for.
ghost use Rattle.std.specs.Prelude.{◌≡◌, ◌<◌, ◌≤◌, ◌&&◌, IfOk, IfSome, length, string_bytes};
ghost use Rattle.std.specs.Option.{option_copied};
ghost use Rattle.gitconf_values.specs.Paths as spec;

pub mod interpolate;

use bstr::BString;
use gitconf_text::NoMemory;
use interpolate::{Context, Error};
use std::alloc::Global;
use std::marker::Model;

/// How many of the first `end` bytes are left without the slashes at their end.
#[tactic(auto, using(crate::proofs::PathLemmas::trimming))]
fn trimmed_length(path: &[u8], end: usize) -> usize
    requires { end ≤ length path.now }
    ensures value { result ≡ spec.trimmed_length end path.now }
    ensures within { result ≤ end }
{
    let mut left = end;
    while left > 0 && path[left - 1] == b'/' {
        left -= 1;
    }
    left
}

/// Where the last slash of the first `end` bytes is.
#[tactic(auto, using(crate::proofs::PathLemmas::finding))]
fn last_slash(path: &[u8], end: usize) -> Option<usize>
    requires { end ≤ length path.now }
    ensures value { result ≡ spec.last_slash end path.now }
    ensures within { IfSome result (λ at. at < end) }
{
    let mut left = end;
    while left > 0 {
        if path[left - 1] == b'/' {
            return Some(left - 1);
        }
        left -= 1;
    }
    None
}

/// How many bytes of a path are the directory that it is in.
fn parent_length(path: &[u8]) -> Option<usize>
    ensures { result ≡ spec.parent_length path.now }
{
    let end = trimmed_length(path, path.len());
    if end == 0 {
        return None;
    }
    let Some(at) = last_slash(path, end) else {
        return Some(0);
    };
    let left = trimmed_length(path, at);
    Some(if left == 0 { 1 } else { left })
}

/// The directory that a path is in, as a part of the path. There is none for an empty path and for slashes alone; it is
/// empty for a name alone. Slashes at the end of either are ignored. It takes no memory.
pub fn parent(path: &str) -> Option<&str>
    ensures { option_copied result ≡ spec.parent path.now }
{
    let length = parent_length(path.as_bytes())?;
    Some(&path[..length])
}

/// Whether a slash comes first.
fn begins_slash(path: &str) -> bool
    ensures { result ≡ spec.begins_slash path.now }
{
    match path.as_bytes() {
        [b, ..] => *b == b'/',
        [] => false,
    }
}

/// Whether a slash comes last.
#[tactic(auto, using(crate::proofs::PathLemmas::ending))]
fn ends_slash(path: &str) -> bool
    ensures { result ≡ spec.ends_slash path.now }
{
    let bytes = path.as_bytes();
    trimmed_length(bytes, bytes.len()) < bytes.len()
}

/// A path in a directory: `rest` itself if it begins with `/` or the directory is empty, otherwise the two with a `/`
/// between, unless the directory ends with one. It asks for memory once.
///
/// # Errors
///
/// Only when out of memory.
pub fn join(alloc: Global, folder: &str, rest: &str) -> Result<String, NoMemory>
    ensures { IfOk result (λ path. string_bytes path ≡ spec.join folder.now rest.now) }
{
    if begins_slash(rest) || folder.is_empty() {
        return Ok(String::from_str(alloc, rest)?);
    }
    let mut path = String::from_str(alloc, folder)?;
    if !ends_slash(folder) {
        path.push_str("/")?;
    }
    path.push_str(rest)?;
    Ok(path)
}

/// A path as configuration writes it.
#[derive(Drop)]
pub struct Path {
    value: Vec<u8>,
}

impl Model for Path {
    ghost use Rattle.std.specs.Prelude.{ℕ, List};

    ghost Value = { List ℕ };

    ghost view = { λ p. p.value.items };
}

impl From<BString> for Path {
    ghost use Rattle.std.specs.Prelude.{◌≡◌};
    ghost use Rattle.bstr.specs.Owned.{bstring_bytes};

    ghost from_gives = { λ bytes path. path ≡ bstring_bytes bytes };

    fn from(value: BString) -> Path {
        Path {
            value: value.into_vec(),
        }
    }
}

impl Path {
    ghost use Rattle.std.specs.Prelude.{◌≡◌};
    ghost use Rattle.std.specs.Option.{option_copied};
    ghost use Rattle.gitconf_values.specs.Interpolated.{interpolated, Gives};

    /// The path as it is written.
    pub fn as_bytes(&self) -> &[u8]
        ensures { result.now ≡ self.now }
    {
        self.value.as_slice()
    }

    /// The path with its shorthand replaced: `%(prefix)/` by the directory where git is installed, `~/` by the home
    /// directory, `~user/` by that of the user. Any other path stands for itself. It reads the path once, and asks for
    /// memory for the result alone.
    ///
    /// # Errors
    ///
    /// E12 if the path is empty or what the shorthand needs is not known, E14 before that if the name of the user isn't
    /// UTF-8, E13 last, if the rest of the path isn't UTF-8, and E27.
    pub fn interpolate(&self, context: Context<'_>) -> Result<String, Error>
        ensures { Gives result (interpolated (option_copied context.entry.git_install_dir) (option_copied context.entry.home_dir)
            (option_copied context.entry.home_for_user) self.now) }
    {
        let alloc = *self.value.allocator();
        interpolate::interpolated(alloc, self.value.as_slice(), context)
    }
}
