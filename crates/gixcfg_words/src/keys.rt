//! Keys and the names of sections, as words have them.
ghost use Rattle.std.specs.Prelude.{◌≡◌, option_map};
ghost use Rattle.gitconf_sources.specs.Key as keys;
ghost use Rattle.gixcfg_words.specs.Asking as asking;
ghost use Rattle.gixcfg_words.specs.Keys.{IsKey, key_if, key_meant};
ghost use Rattle.gixcfg_words.specs.Spelling.{Gives};
ghost use Rattle.gixcfg_words.specs.Tasks as tasks;

use crate::fault::Fault;
use crate::plain::is_nameless;
use gitconf_sources::key::KeyRef;

/// The names of a section.
#[derive(Clone, Copy)]
pub struct Names<'a> {
    /// Its name.
    pub name: &'a str,
    /// Its subsection, if it has one.
    pub subsection_name: Option<&'a [u8]>,
}

/// The key that a word is.
///
/// # Errors
///
/// [`Fault::NoKey`] if the word has no dot, [`Fault::Nameless`] if nothing stands before its only one.
pub fn key_of<'a>(word: &'a str) -> Result<KeyRef<'a>, Fault<'a>>
    ensures known { IsKey word.now result }
    ensures meant { Gives keys.key_of (key_meant word.now) result }
{
    match KeyRef::parse_unvalidated(word.as_bytes()) {
        Some(key) if is_nameless(key.section_name, key.subsection_name) => Err(Fault::Nameless),
        Some(key) => Ok(key),
        None => Err(Fault::NoKey(word)),
    }
}

/// The key that a word is, or none if it is empty.
///
/// # Errors
///
/// Those of [`key_of`].
pub(crate) fn key_if<'a>(word: &'a str) -> Result<Option<KeyRef<'a>>, Fault<'a>>
    ensures { Gives (option_map keys.key_of) (key_if word.now) result }
{
    if word.is_empty() {
        return Ok(None);
    }
    match key_of(word) {
        Ok(key) => Ok(Some(key)),
        Err(fault) => Err(fault),
    }
}

/// The names of a section and subsection that an argument has, with a dot between.
pub fn names_of(word: &str) -> Names<'_>
    ensures { tasks.names_of result ≡ asking.names_in word.now }
{
    match word.split_once('.') {
        Some((name, subsection_name)) => Names {
            name,
            subsection_name: Some(subsection_name.as_bytes()),
        },
        None => Names {
            name: word,
            subsection_name: None,
        },
    }
}

/// The names that a word gives sections.
///
/// # Errors
///
/// [`Fault::Nameless`] if it names nothing.
pub fn new_names_of<'a>(word: &'a str) -> Result<Names<'a>, Fault<'a>>
    ensures { Gives tasks.names_of (asking.new_names word.now) result }
{
    let names = names_of(word);
    if is_nameless(names.name, names.subsection_name) {
        Err(Fault::Nameless)
    } else {
        Ok(names)
    }
}
