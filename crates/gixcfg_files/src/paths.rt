//! Paths that are put together, and what a file of one line names.
ghost use Rattle.std.specs.Prelude.{◌≡◌, ◌==◌, ◌++◌, count_by, IfOk, codes, string_bytes, option_map};
ghost use Rattle.std.specs.Char.{is_ascii_digit};
ghost use Rattle.gixcfg_files.specs.Paths.{after_start, IsNameOf, is_number as is_number_lem, folder_of as folder_of_lem, is_absolute as is_absolute_lem, is_line_end as is_line_end_lem, joined as joined_lem, named, other_file as other_file_lem, shown_folder, without_ends as without_ends_lem};

use std::alloc::{AllocError, Global};

/// The path of the user's own file in the home directory.
///
/// # Errors
///
/// Out of memory.
pub fn home_file(alloc: Global, home: &str) -> Result<String, AllocError>
    ensures { IfOk result (λ s. string_bytes s ≡ home.now ++ codes "/.gitconfig") }
{
    format!(in alloc; "{home}/.gitconfig")
}

/// The path of the user's other file: in the directory that is set, else in the home directory.
///
/// # Errors
///
/// Out of memory.
pub fn other_file(alloc: Global, home: &str, folder: Option<&str>) -> Result<String, AllocError>
    ensures { IfOk result (λ s. string_bytes s ≡ other_file_lem home.now (option_map (λ f. f.now) folder.entry)) }
{
    match folder {
        Some(folder) if !folder.is_empty() => format!(in alloc; "{folder}/git/config"),
        _ => format!(in alloc; "{home}/.config/git/config"),
    }
}

/// The path of a file's directory, with a slash at its end. It is `./` for the working directory.
///
/// # Errors
///
/// Out of memory.
pub fn folder_of(alloc: Global, path: &str) -> Result<String, AllocError>
    ensures { IfOk result (λ s. string_bytes s ≡ shown_folder path.now) }
{
    match path.rsplit_once('/') {
        Some((start, _)) => as_folder(alloc, start),
        None => String::from_str(alloc, "./"),
    }
}

/// The path of what has this name in a directory. The directory's path ends with a slash or is empty.
///
/// # Errors
///
/// Out of memory.
pub fn within(alloc: Global, folder: &str, name: &str) -> Result<String, AllocError>
    ensures { IfOk result (λ s. string_bytes s ≡ folder.now ++ name.now) }
{
    format!(in alloc; "{folder}{name}")
}

/// A path with a slash at its end, as of a directory.
///
/// # Errors
///
/// Out of memory.
pub fn as_folder(alloc: Global, path: &str) -> Result<String, AllocError>
    ensures { IfOk result (λ s. string_bytes s ≡ path.now ++ codes "/") }
{
    format!(in alloc; "{path}/")
}

/// The path of a directory that the file at a path names. A relative one begins in the file's directory.
///
/// # Errors
///
/// Out of memory.
pub fn joined(alloc: Global, path: &str, folder: &str) -> Result<String, AllocError>
    ensures { IfOk result (λ s. string_bytes s ≡ joined_lem path.now folder.now) }
{
    if is_absolute(folder) {
        return as_folder(alloc, folder);
    }
    match path.rsplit_once('/') {
        Some((start, _)) => format!(in alloc; "{start}/{folder}/"),
        None => as_folder(alloc, folder),
    }
}

/// Whether a path is from the root on.
pub fn is_absolute(path: &str) -> bool
    ensures { result ≡ is_absolute_lem path.now }
{
    matches!(path.as_bytes(), [b'/', ..])
}

/// The name of the file at a path.
pub fn name_of(path: &str) -> &str
    ensures { IsNameOf path.now result.now }
{
    match path.rsplit_once('/') {
        Some((_, name)) => name,
        None => path,
    }
}

/// Whether a text is the number of a process: digits, of which the first is no zero.
pub fn is_number(text: &str) -> bool
    ensures { result ≡ is_number_lem text.now }
{
    match text.as_bytes().split_first() {
        Some((first, _)) => *first != b'0' && count_of_digits(text.as_bytes()) == text.len(),
        None => false,
    }
}

/// How many bytes of a text are digits.
fn count_of_digits(text: &[u8]) -> usize
    ensures { result ≡ count_by is_ascii_digit text.now }
{
    text.iter().filter(|byte| byte.is_ascii_digit()).count()
}

/// What a text of one line names after its beginning.
pub fn line_of<'a>(text: &'a [u8], before: &str) -> Option<&'a str>
    ensures { option_map (λ s. s.now) result ≡ named text.entry.now before.now }
{
    after(without_ends(text), before)
}

/// What a line has after its beginning. None if it begins otherwise, or what comes is no UTF-8.
pub fn after<'a>(line: &'a [u8], before: &str) -> Option<&'a str>
    ensures { option_map (λ s. s.now) result ≡ after_start line.entry.now before.now }
{
    if !line.starts_with(before.as_bytes()) {
        return None;
    }
    match str::from_utf8(line.split_at(before.len()).1) {
        Ok(name) => Some(name),
        Err(_) => None,
    }
}

/// A text without the line ends that it ends with.
fn without_ends(text: &[u8]) -> &[u8]
    ensures { result.now ≡ without_ends_lem text.now }
{
    let ends = text
        .iter()
        .rev()
        .take_while(|byte| is_line_end(**byte))
        .count();
    text.split_at(text.len().saturating_sub(ends)).0
}

/// Whether a byte ends a line.
fn is_line_end(byte: u8) -> bool
    ensures { result ≡ is_line_end_lem byte }
{
    byte == b'\n' || byte == b'\r'
}

/// How many directories hold the one at a path from the root on.
pub fn depth_of(path: &[u8]) -> usize
    ensures { result ≡ count_by (λ b. b == 47) path.now }
{
    path.iter().filter(|byte| **byte == b'/').count()
}
