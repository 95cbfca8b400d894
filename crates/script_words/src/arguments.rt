//! What the words after a command mean, one function for each form of words.

use crate::words::{NotUnderstood, Place, Slot, Word};

/// Refuses further words.
pub fn no_words(words: &[Word<'_>]) -> Result<(), NotUnderstood> {
    match words {
        [] => Ok(()),
        _ => Err(NotUnderstood),
    }
}

/// The only word.
pub(crate) fn one_word<'a, 'b>(words: &'a [Word<'b>]) -> Result<&'a Word<'b>, NotUnderstood> {
    match words {
        [word] => Ok(word),
        _ => Err(NotUnderstood),
    }
}

/// Refuses words that aren't bytes.
pub fn all_bytes(words: &[Word<'_>]) -> Result<(), NotUnderstood> {
    for word in words {
        // Only that it is bytes matters here.
        let _ = word.bytes()?;
    }
    Ok(())
}

/// BYTES.
pub fn bytes<'a>(words: &'a [Word<'_>]) -> Result<&'a [u8], NotUnderstood> {
    one_word(words)?.bytes()
}

/// N.
pub fn number(words: &[Word<'_>]) -> Result<usize, NotUnderstood> {
    one_word(words)?.number()
}

/// N, counted from 1: how many come before it.
pub fn count_before(words: &[Word<'_>]) -> Result<usize, NotUnderstood> {
    match number(words)? {
        0 => Err(NotUnderstood),
        number => Ok(number - 1),
    }
}

/// SLOT.
pub fn slot(words: &[Word<'_>]) -> Result<Slot, NotUnderstood> {
    one_word(words)?.slot()
}

/// `on` or `off`.
pub fn switch(words: &[Word<'_>]) -> Result<bool, NotUnderstood> {
    one_word(words)?.switch()
}

/// BYTES LETTERS: a text and letters; no letters for `-`.
pub fn text_and_letters<'a>(
    words: &'a [Word<'_>],
) -> Result<(&'a [u8], Option<&'a [u8]>), NotUnderstood> {
    let [text, letters] = words else {
        return Err(NotUnderstood);
    };
    let text = text.bytes()?;
    match letters.plain()? {
        b"-" => Ok((text, None)),
        letters => Ok((text, Some(letters))),
    }
}

/// The names of an entry: a section's name, a subsection, and the name of a value.
#[derive(Clone, Copy)]
pub struct EntryNames<'a> {
    pub section: &'a str,
    pub subsection: Option<&'a [u8]>,
    pub value: &'a str,
}

/// The names that three words give.
fn names_of<'a>(
    section: &'a Word<'_>,
    subsection: &'a Word<'_>,
    value: &'a Word<'_>,
) -> Result<EntryNames<'a>, NotUnderstood> {
    Ok(EntryNames {
        section: section.text()?,
        subsection: subsection.optional()?,
        value: value.text()?,
    })
}

/// KEY3.
pub fn names<'a>(words: &'a [Word<'_>]) -> Result<EntryNames<'a>, NotUnderstood> {
    match words {
        [section, subsection, value] => names_of(section, subsection, value),
        _ => Err(NotUnderstood),
    }
}

/// The names of a section: its name, and a subsection.
#[derive(Clone, Copy)]
pub struct SectionNames<'a> {
    pub name: &'a str,
    pub subsection: Option<&'a [u8]>,
}

/// SEC2.
pub fn section_names<'a>(words: &'a [Word<'_>]) -> Result<SectionNames<'a>, NotUnderstood> {
    match words {
        [name, subsection] => Ok(SectionNames {
            name: name.text()?,
            subsection: subsection.optional()?,
        }),
        _ => Err(NotUnderstood),
    }
}

/// SEC2 B: the names of a section, and what a filter answers.
pub fn section_names_and_flag<'a>(
    words: &'a [Word<'_>],
) -> Result<(SectionNames<'a>, bool), NotUnderstood> {
    match words {
        [name, subsection, flag] => {
            let names = SectionNames {
                name: name.text()?,
                subsection: subsection.optional()?,
            };
            Ok((names, flag.flag()?))
        }
        _ => Err(NotUnderstood),
    }
}

/// The names of a section, and the names that it gets.
#[derive(Clone, Copy)]
pub struct OldAndNew<'a> {
    pub old: SectionNames<'a>,
    pub new: SectionNames<'a>,
}

fn renaming_of<'a>(
    name: &'a Word<'_>,
    subsection: &'a Word<'_>,
    new_name: &'a Word<'_>,
    new_subsection: &'a Word<'_>,
) -> Result<OldAndNew<'a>, NotUnderstood> {
    let old = SectionNames {
        name: name.text()?,
        subsection: subsection.optional()?,
    };
    let new = SectionNames {
        name: new_name.text()?,
        subsection: new_subsection.optional()?,
    };
    Ok(OldAndNew { old, new })
}

/// SEC2 SEC2: the names of a section, and others.
pub fn renaming<'a>(words: &'a [Word<'_>]) -> Result<OldAndNew<'a>, NotUnderstood> {
    match words {
        [name, subsection, new_name, new_subsection] => {
            renaming_of(name, subsection, new_name, new_subsection)
        }
        _ => Err(NotUnderstood),
    }
}

/// SEC2 SEC2 B: the same, and what a filter answers.
pub fn renaming_and_flag<'a>(
    words: &'a [Word<'_>],
) -> Result<(OldAndNew<'a>, bool), NotUnderstood> {
    match words {
        [name, subsection, new_name, new_subsection, flag] => {
            let names = renaming_of(name, subsection, new_name, new_subsection)?;
            Ok((names, flag.flag()?))
        }
        _ => Err(NotUnderstood),
    }
}

/// SEC2 PLACE: the names of a section, and where it is put.
pub fn section_names_and_place<'a>(
    words: &'a [Word<'_>],
) -> Result<(SectionNames<'a>, Place), NotUnderstood> {
    match words {
        [name, subsection, place] => {
            let names = SectionNames {
                name: name.text()?,
                subsection: subsection.optional()?,
            };
            Ok((names, place.place()?))
        }
        _ => Err(NotUnderstood),
    }
}

/// SEC2 PLACE B: the same, and what a filter answers.
pub fn section_names_place_and_flag<'a>(
    words: &'a [Word<'_>],
) -> Result<(SectionNames<'a>, Place, bool), NotUnderstood> {
    match words {
        [name, subsection, place, flag] => {
            let names = SectionNames {
                name: name.text()?,
                subsection: subsection.optional()?,
            };
            Ok((names, place.place()?, flag.flag()?))
        }
        _ => Err(NotUnderstood),
    }
}

/// N PLACE: the number of a section, and where it is put.
pub fn number_and_place(words: &[Word<'_>]) -> Result<(usize, Place), NotUnderstood> {
    match words {
        [number, place] => Ok((number.number()?, place.place()?)),
        _ => Err(NotUnderstood),
    }
}

/// BYTES: a name.
pub fn text<'a>(words: &'a [Word<'_>]) -> Result<&'a str, NotUnderstood> {
    one_word(words)?.text()
}

/// BYTES B: a name, and what a filter answers.
pub fn text_and_flag<'a>(words: &'a [Word<'_>]) -> Result<(&'a str, bool), NotUnderstood> {
    match words {
        [text, flag] => Ok((text.text()?, flag.flag()?)),
        _ => Err(NotUnderstood),
    }
}

/// N BYTES: a place, and a name.
pub fn number_and_text<'a>(words: &'a [Word<'_>]) -> Result<(usize, &'a str), NotUnderstood> {
    match words {
        [number, text] => Ok((number.number()?, text.text()?)),
        _ => Err(NotUnderstood),
    }
}

/// KEY3 BYTES: the names of an entry, and bytes.
pub fn names_and_bytes<'a>(
    words: &'a [Word<'_>],
) -> Result<(EntryNames<'a>, &'a [u8]), NotUnderstood> {
    match words {
        [section, subsection, value, bytes] => {
            Ok((names_of(section, subsection, value)?, bytes.bytes()?))
        }
        _ => Err(NotUnderstood),
    }
}

/// KEY3 and words after it: the names of entries, and these words.
pub fn names_and_rest<'a, 'b>(
    words: &'a [Word<'b>],
) -> Result<(EntryNames<'a>, &'a [Word<'b>]), NotUnderstood> {
    if words.len() < 3 {
        return Err(NotUnderstood);
    }
    let (key, rest) = words.split_at(3);
    Ok((names(key)?, rest))
}

/// BYTES BYTES.
pub fn two_texts<'a>(words: &'a [Word<'_>]) -> Result<(&'a [u8], &'a [u8]), NotUnderstood> {
    match words {
        [one, other] => Ok((one.bytes()?, other.bytes()?)),
        _ => Err(NotUnderstood),
    }
}

/// A path pattern and a text.
#[derive(Clone, Copy)]
pub struct Match<'a> {
    pub pattern: &'a [u8],
    pub text: &'a [u8],
    pub ignores_case: bool,
}

/// BYTES BYTES B.
pub fn pattern_match<'a>(words: &'a [Word<'_>]) -> Result<Match<'a>, NotUnderstood> {
    match words {
        [pattern, text, ignores_case] => Ok(Match {
            pattern: pattern.bytes()?,
            text: text.bytes()?,
            ignores_case: ignores_case.flag()?,
        }),
        _ => Err(NotUnderstood),
    }
}

/// A path, and the folders that its shorthands stand for.
#[derive(Clone, Copy)]
pub struct PathWithFolders<'a> {
    pub path: &'a [u8],
    pub git_install_dir: Option<&'a str>,
    pub home_dir: Option<&'a str>,
}

/// BYTES OPT OPT.
pub fn path_with_folders<'a>(words: &'a [Word<'_>]) -> Result<PathWithFolders<'a>, NotUnderstood> {
    match words {
        [path, git_install_dir, home_dir] => Ok(PathWithFolders {
            path: path.bytes()?,
            git_install_dir: git_install_dir.optional_text()?,
            home_dir: home_dir.optional_text()?,
        }),
        _ => Err(NotUnderstood),
    }
}
