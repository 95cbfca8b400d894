//! Which values are of a type, and which are of a list of words.
ghost use Rattle.std.specs.Prelude.{◌≡◌};
ghost use Rattle.std.specs.Option.{option_copied};
ghost use Rattle.gixcfg_names.specs.Values as spec;

use gitconf_text::parse::section::bytes::is_same_name;
use gixcfg_core::colors::is_color;
use gixcfg_core::numbers::{MOST, MOST_OF_32_BITS, boolean, boolean_named, integer};
use gixcfg_core::parts::first_part;
use gixcfg_words::kinds::Kind;

/// Whether git takes a value for one of a type.
///
/// Any text may be a path or a date, since what a date means depends on the present. A missing value, as in an entry without `=`, is a true
/// boolean, and else of no type. One pass over the value, which takes no memory.
pub fn is_of(value: Option<&[u8]>, kind: Kind) -> bool
    ensures { result ≡ spec.is_of (option_copied value.entry) kind }
{
    match value {
        Some(value) => writes(value, kind),
        None => is_of_booleans(kind),
    }
}

/// Whether a text writes a value of a type.
fn writes(text: &[u8], kind: Kind) -> bool
    ensures { result ≡ spec.writes text.now kind }
{
    match kind {
        Kind::Bool => boolean(text).is_some(),
        Kind::Int => integer(text, MOST).is_some(),
        Kind::BoolOrInt => {
            boolean_named(text).is_some() || integer(text, MOST_OF_32_BITS).is_some()
        }
        Kind::Color => is_color(text),
        Kind::BoolOrStr | Kind::Path | Kind::ExpiryDate => true,
    }
}

/// Whether booleans are of a type.
fn is_of_booleans(kind: Kind) -> bool
    ensures { result ≡ spec.is_of_booleans kind }
{
    matches!(kind, Kind::Bool | Kind::BoolOrInt | Kind::BoolOrStr)
}

/// Whether a value is one of a list of words, which has commas between them.
///
/// A word means itself, without ASCII case. `<bool>` stands for all that are booleans, as a missing value is one, and `<int>` for all that are
/// integers. One walk over the list, which takes no memory.
pub fn is_one_of(value: Option<&[u8]>, words: &str) -> bool
    ensures { result ≡ spec.is_one_of (option_copied value.entry) words.now }
{
    let mut left = Some(words.as_bytes());
    while let Some(list) = left {
        let (word, behind) = first_part(list, b",");
        if is_word(value, word) {
            return true;
        }
        left = behind;
    }
    false
}

/// Whether a value is what a word of a list means.
fn is_word(value: Option<&[u8]>, word: &[u8]) -> bool
    ensures { result ≡ spec.is_word (option_copied value.entry) word.now }
{
    if word == b"<bool>".as_slice() {
        return is_of(value, Kind::Bool);
    }
    if word == b"<int>".as_slice() {
        return is_of(value, Kind::Int);
    }
    is_spelled(value, word)
}

/// Whether a value is spelled as a word, without case.
fn is_spelled(value: Option<&[u8]>, word: &[u8]) -> bool
    ensures { result ≡ spec.is_spelled (option_copied value.entry) word.now }
{
    match value {
        Some(value) => is_same_name(value, word),
        None => false,
    }
}
