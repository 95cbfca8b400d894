//! Whether headers and entries have the names of a key.
ghost use Rattle.std.specs.Prelude.{◌≡◌, ◌≤◌, ◌<◌, ◌^◌, false, length, true};
ghost use Rattle.std.specs.Option.{option_copied, option_eq};
ghost use Rattle.std.specs.Str.{bytes_eq};
ghost use Rattle.gitconf_text.specs.Bytes.{fold};
ghost use Rattle.gitconf_text.specs.Header.{subsection_of, unquoted};
ghost use Rattle.gitconf_text.specs.Names as names;
ghost use Rattle.gitconf_items.specs.Events.{bytes_of, header_of, HeaderFits};
ghost use Rattle.gitconf_sources.specs.Key.{key_of};
ghost use Rattle.gitconf_read.specs.Reading.{span};
ghost use Rattle.gitconf_parse.specs.Met as spec;

use gitconf_items::event::{Header, Span};
use gitconf_sources::key::KeyRef;
use gitconf_text::parse::section::bytes::is_same_name;

/// Whether the bytes are, in lower case, the name.
fn is_folded(spelled: &[u8], name: &[u8]) -> bool
    ensures { result ≡ bytes_eq (fold spelled.now) name.now }
{
    let mut left = name;
    for byte in spelled {
        match left.split_first() {
            Some((first, behind)) if *first == byte.to_ascii_lowercase() => left = behind,
            _ => return false,
        }
    }
    left.is_empty()
}

/// Whether the last bytes show that the bytes between the quotes of a header don't spell the name.
fn ends_otherwise(spelling: &[u8], name: &[u8]) -> bool
    ensures { result ≡ true → bytes_eq (unquoted spelling.now) name.now ≡ false }
{
    match (spelling.split_last(), name.split_last()) {
        (Some((last, _)), Some((other, _))) => *last != b'\\' && *last != *other,
        _ => false,
    }
}

/// Whether the bytes between the quotes of a header spell the name.
#[tactic(auto, using(gitconf_items::proofs::Copies::unquoted_same))]
fn is_unquoted(spelling: &[u8], name: &[u8]) -> bool
    ensures { result ≡ bytes_eq (unquoted spelling.now) name.now }
{
    if ends_otherwise(spelling, name) {
        return false;
    }
    // Most are spelled as they are meant.
    if !spelling.contains(&b'\\') {
        return spelling == name;
    }
    let mut left = name;
    let mut escaped = false;
    for byte in spelling {
        if *byte == b'\\' && !escaped {
            escaped = true;
        } else {
            match left.split_first() {
                Some((first, behind)) if *first == *byte => left = behind,
                _ => return false,
            }
            escaped = false;
        }
    }
    left.is_empty()
}

/// Whether the header has this subsection, or none.
fn has_subsection(input: &[u8], header: &Header, subsection: Option<&[u8]>) -> bool
    requires { HeaderFits (length input.now) header.now }
    ensures { result ≡ option_eq bytes_eq (subsection_of (header_of input.now header.now)) (option_copied subsection.entry) }
{
    match (header.separator, header.subsection, subsection) {
        (Some(separator), Some(spelled), Some(name)) => {
            let spelled = spelled.bytes_in(input);
            if separator.bytes_in(input) == b".".as_slice() {
                is_folded(spelled, name)
            } else {
                is_unquoted(spelled, name)
            }
        }
        (Some(_), Some(_), None) => false,
        _ => subsection.is_none(),
    }
}

/// Whether the header is that of the key's section.
pub fn is_meant(input: &[u8], header: &Header, key: &KeyRef<'_>) -> bool
    requires { HeaderFits (length input.now) header.now }
    ensures { result ≡ spec.is_meant (key_of key.now) (header_of input.now header.now) }
{
    // In most files sections differ in their subsections.
    has_subsection(input, header, key.subsection_name)
        && is_same_name(key.section_name.as_bytes(), header.name.bytes_in(input))
}

/// Whether the bytes from one offset up to another are the name, without ASCII case.
#[inline(always)]
pub fn is_named(input: &[u8], at: usize, end: usize, name: &[u8]) -> bool
    requires ordered { at ≤ end }
    requires within { end ≤ length input.now }
    requires fits { length input.now < 2 ^ 32 }
    ensures { result ≡ names.is_same_name name.now (bytes_of input.now (span at end)) }
{
    // Most names that differ do so in length.
    if end - at != name.len() {
        return false;
    }
    is_same_name(name, Span::between(at, end).bytes_in(input))
}
