//! Comments after values: what `set --comment` puts into the text of a file.
ghost use Rattle.std.specs.Prelude.{◌≡◌, ◌≤◌, ◌++◌, ℕ, length, take, drop, IfErr, IfOk, IfSome};
ghost use Rattle.bstr.specs.Owned.{bstring_bytes};
ghost use Rattle.gixcfg_core.specs.Comments as spec;
ghost use Rattle.gixcfg_core.specs.Comments.{AreBefore, IsCommented, IsUncommented, lead_of};

use crate::trouble::Trouble;
use bstr::BString;
use gitconf_items::event_ref::EventRef;
use gitconf_parse::events::Events;
use gitconf_read::error::Error;
use gitconf_sources::key::KeyRef;
use gitconf_text::NoMemory;
use std::alloc::Global;

/// What a walk over a text is in.
#[derive(Clone, Copy)]
enum Part {
    /// What has other names than the key's section.
    Outside,
    /// A section of the key, and there no entry of it.
    Section,
    /// An entry of the key, up to the end of its value.
    Entry,
    /// What follows that value on its line.
    Tail,
}

/// Where the value of an entry ends in a text, and where its line ends.
#[derive(Clone, Copy)]
struct Ends {
    /// The end of the value.
    value: usize,
    /// The end of the line, without the line ending.
    line: usize,
}

/// A text with a comment after the value of a key's last entry. It is in place of the whitespace and the comment that are there. Whether it
/// means the same is for the caller to see. One walk over the text.
///
/// # Errors
///
/// There is no such entry; out of memory.
pub fn with_comment(
    alloc: Global,
    text: &[u8],
    key: KeyRef<'_>,
    comment: &str,
) -> Result<BString, Trouble>
    ensures done { IfOk result (λ new. IsCommented text.now comment.now (bstring_bytes new)) }
    ensures refused { IfErr result IsUncommented }
{
    match ends_in(alloc, text, key)? {
        Some(ends) => Ok(BString::new(spliced(alloc, text, ends, comment)?)),
        None => Err(Trouble::Uncommented),
    }
}

/// The trouble that an error of a text is which was read before.
pub fn trouble_of(refusal: &Error) -> Trouble
    ensures { result ≡ spec.trouble_of refusal.now }
{
    if refusal.is_memory() {
        Trouble::Memory
    } else {
        Trouble::Uncommented
    }
}

/// Where the last entry of a key that has a value ends in a text, if there is one.
fn ends_in(alloc: Global, text: &[u8], key: KeyRef<'_>) -> Result<Option<Ends>, Trouble>
    ensures done { IfOk result (λ ends. IfSome ends (AreBefore (length text.now))) }
    ensures refused { IfErr result IsUncommented }
{
    match Events::from_bytes(alloc, text, None) {
        Ok(events) => Ok(ends_of(&events, text, key)),
        Err(refusal) => Err(trouble_of(&refusal)),
    }
}

/// Where the last entry of a key that has a value ends in the text of these events.
fn ends_of(events: &Events, text: &[u8], key: KeyRef<'_>) -> Option<Ends>
    ensures { IfSome result (AreBefore (length text.now)) }
{
    let (mut part, mut at, mut ends) = (Part::Outside, 0usize, None);
    for event in events.iter() {
        at = at.saturating_add(len_of(&event, after(text, at)));
        let next = next_part(part, &event, key);
        ends = next_ends(part, next, at, ends);
        part = next;
    }
    // The lengths have to add up to the whole text.
    if at == text.len() { ends } else { None }
}

/// The ends after an event that ends at a place: of the entry whose value it ends, or whose line it goes on with.
fn next_ends(part: Part, next: Part, at: usize, ends: Option<Ends>) -> Option<Ends>
    ensures { (from : ℕ) → from ≤ at → IfSome ends (AreBefore from) → IfSome result (AreBefore at) }
{
    match (part, next, ends) {
        (Part::Entry, Part::Tail, _) => Some(Ends {
            value: at,
            line: at,
        }),
        (Part::Tail, Part::Tail, Some(ends)) => Some(Ends { line: at, ..ends }),
        _ => ends,
    }
}

/// What comes after an event.
fn next_part(part: Part, event: &EventRef<'_>, key: KeyRef<'_>) -> Part {
    match *event {
        EventRef::SectionHeader {
            name,
            separator: _,
            subsection_name,
        } => part_of_header(name, subsection_name, key),
        EventRef::SectionValueName(name) => part_of_name(part, name, key),
        EventRef::Value(_) | EventRef::ValueDone(_) => match part {
            Part::Entry => Part::Tail,
            _ => part,
        },
        EventRef::Newline(_) => match part {
            Part::Tail => Part::Section,
            _ => part,
        },
        _ => part,
    }
}

/// What comes after a header.
fn part_of_header(name: &[u8], subsection_name: Option<&[u8]>, key: KeyRef<'_>) -> Part {
    let has_names = name.eq_ignore_ascii_case(key.section_name.as_bytes())
        && subsection_name == key.subsection_name;
    if has_names || is_alike(name, subsection_name, key) {
        Part::Section
    } else {
        Part::Outside
    }
}

/// Whether names as those of `[a.b "c"]` look like those of a key with all dots, so that `get` finds its entries there.
fn is_alike(name: &[u8], subsection_name: Option<&[u8]>, key: KeyRef<'_>) -> bool {
    match (subsection_name, key.subsection_name) {
        (Some(subsection_name), Some(wanted)) => {
            let section_name = key.section_name.as_bytes();
            match behind_dot(name, section_name.len()) {
                Some(rest) => {
                    before(name, section_name.len()).eq_ignore_ascii_case(section_name)
                        && is_in_lower_case(rest, before(wanted, rest.len()))
                        && behind_dot(wanted, rest.len()) == Some(subsection_name)
                }
                None => false,
            }
        }
        _ => false,
    }
}

/// What stands behind a dot at a place, if there is one.
fn behind_dot(text: &[u8], at: usize) -> Option<&[u8]> {
    match after(text, at) {
        [b'.', rest @ ..] => Some(rest),
        _ => None,
    }
}

/// Whether a text is another one in lower case.
fn is_in_lower_case(text: &[u8], other: &[u8]) -> bool {
    text.eq_ignore_ascii_case(other) && !other.iter().any(|byte| byte.is_ascii_uppercase())
}

/// What comes after the name of an entry.
fn part_of_name(part: Part, name: &[u8], key: KeyRef<'_>) -> Part {
    match part {
        Part::Outside => Part::Outside,
        _ if name.eq_ignore_ascii_case(key.value_name.as_bytes()) => Part::Entry,
        _ => Part::Section,
    }
}

/// How many bytes a text that begins with an event has of it.
fn len_of(event: &EventRef<'_>, text: &[u8]) -> usize {
    match *event {
        EventRef::SectionHeader { .. } => header_len(text),
        // The mark of a comment, and the backslash after a piece.
        EventRef::Comment { tag: _, text } | EventRef::ValueNotDone(text) => {
            text.len().saturating_add(1)
        }
        EventRef::KeyValueSeparator => 1,
        EventRef::SectionValueName(bytes)
        | EventRef::Value(bytes)
        | EventRef::Newline(bytes)
        | EventRef::ValueDone(bytes)
        | EventRef::Whitespace(bytes) => bytes.len(),
    }
}

/// How long the header is that a text begins with, up to the bracket outside of quotes.
fn header_len(text: &[u8]) -> usize {
    let (mut is_quoted, mut is_escaped, mut len) = (false, false, 0usize);
    for byte in text {
        len = len.saturating_add(1);
        match *byte {
            _ if is_escaped => is_escaped = false,
            b'\\' => is_escaped = is_quoted,
            b'"' => is_quoted = !is_quoted,
            b']' if !is_quoted => break,
            _ => {}
        }
    }
    len
}

/// A text up to a place.
fn before(text: &[u8], at: usize) -> &[u8]
    ensures { result.now ≡ take at text.now }
{
    text.split_at(at.min(text.len())).0
}

/// A text from a place on.
fn after(text: &[u8], at: usize) -> &[u8]
    ensures { result.now ≡ drop at text.now }
{
    text.split_at(at.min(text.len())).1
}

/// A text with a comment in place of what is between the end of a value and the end of its line.
fn spliced(alloc: Global, text: &[u8], ends: Ends, comment: &str) -> Result<Vec<u8>, NoMemory>
    ensures { IfOk result (λ new. new.items ≡ take ends.value text.now ++ lead_of comment.now ++ comment.now ++ drop ends.line text.now) }
{
    let mut new = Vec::new(alloc);
    new.extend_from_slice(before(text, ends.value))?;
    new.extend_from_slice(lead_of(comment).as_bytes())?;
    new.extend_from_slice(comment.as_bytes())?;
    new.extend_from_slice(after(text, ends.line))?;
    Ok(new)
}

/// What is put before a comment, as git does it: nothing if it begins with whitespace and `#`, a space if it begins with `#`, else both.
#[tactic(auto, unfolding(crate::proofs::CommentLemmas::lead_or))]
fn lead_of(comment: &str) -> &'static str
    ensures { result.now ≡ lead_of comment.now }
{
    let mut lead = " ";
    for byte in comment.as_bytes() {
        match *byte {
            b' ' | b'\t' => lead = "",
            b'#' => return lead,
            _ => return " # ",
        }
    }
    " # "
}
