//! The lines of calls.

/// The file that is edited.
pub const FILE: &str = "config";

/// Its lock.
pub const LOCK: &str = "config.lock";

/// Its draft.
pub const DRAFT: &str = "config.gixcfg-7";

/// The line with which an edit begins.
pub const BEGIN: &str = "begin\n";

/// A line.
#[derive(Clone, Copy)]
pub enum Call<'a> {
    /// This text is there before the first call, at a name.
    Given(&'a str, &'a str),
    /// An empty file is to be made.
    Make(&'a str),
    /// The draft is to get the rights of the file.
    ShareRights,
    /// The draft is to get a text.
    Write(&'a str),
    /// The draft is to be written down.
    Sync,
    /// The draft is to be the file.
    Rename,
    /// What is at a name is to be removed.
    Remove(&'a str),
    /// The names are to be written down.
    SyncNames,
}

/// The call of a line, if it is one.
pub fn call_of(line: &str) -> Option<Call<'_>> {
    match line.split_once(' ') {
        Some((word, rest)) => with_words(word, rest),
        None => alone(line),
    }
}

/// The call that is one word.
fn alone(word: &str) -> Option<Call<'_>> {
    match word {
        "share" => Some(Call::ShareRights),
        "sync" => Some(Call::Sync),
        "rename" => Some(Call::Rename),
        "names" => Some(Call::SyncNames),
        _ => None,
    }
}

/// The call of a word with others.
fn with_words<'a>(word: &str, rest: &'a str) -> Option<Call<'a>> {
    match word {
        "given" => {
            let (name, text) = rest.split_once(' ')?;
            Some(Call::Given(name, text))
        }
        "make" => Some(Call::Make(rest)),
        "write" => Some(Call::Write(rest)),
        "remove" => Some(Call::Remove(rest)),
        _ => None,
    }
}
