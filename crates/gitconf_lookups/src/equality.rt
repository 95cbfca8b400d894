//! Whether sections have the same contents. No memory is taken: meanings are compared byte by byte, as they are decoded.
ghost use Rattle.std.specs.Prelude.{◌≡◌, ◌<◌, ◌&&◌, [], ◌∷◌, Bool, true, false, length, MatchOption, IfSome};
ghost use Rattle.std.specs.Option.{option_copied, option_eq};
ghost use Rattle.std.specs.Str.{bytes_eq};
ghost use Rattle.std.specs.Cmp.Lexicographic.{pointwise};
ghost use Rattle.gitconf_text.specs.Document.{document_entry};
ghost use Rattle.gitconf_text.specs.Header.{name_of, subsection_of};
ghost use Rattle.gitconf_text.specs.Names.{is_same_name};
ghost use Rattle.gitconf_text.specs.Value as grammar;
ghost use Rattle.gitconf_text.specs.Value.{plain, raw_of};
ghost use Rattle.gitconf_items.specs.Items.{entry_of, value_of, items_of};
ghost use Rattle.gitconf_state.specs.Lookup as state;
ghost use Rattle.gitconf_state.specs.State.{entries_of};
ghost use Rattle.gitconf_lookups.specs.RawBytes.{raw_left};
ghost use Rattle.gitconf_lookups.specs.Same as spec;
ghost use Rattle.gitconf_views.specs.Views.{sections_left, shown, shown_header};

use gitconf_body::entries::next_entry;
use gitconf_items::entry::{AssignedRef, Entry, Piece, Value};
use gitconf_items::items::Item;
use gitconf_text::parse::section::bytes::is_same_name;
use gitconf_views::section::{SectionRef, Sections};
use gitconf_views::views::HeaderRef;

/// The bytes of a raw text that are left: those of the current piece, of the pieces after it, and of the last piece.
#[derive(Clone, Copy)]
struct RawBytes<'a> {
    buffer: &'a [u8],
    text: &'a [u8],
    pieces: &'a [Piece],
    last: &'a [u8],
}

/// The raw text of a value.
fn value_bytes<'a>(buffer: &'a [u8], value: &'a Value) -> RawBytes<'a>
    ensures { raw_left result ≡ raw_of (value_of buffer.now value.now) }
{
    let last = value.last.bytes_in(buffer);
    RawBytes {
        buffer,
        text: &[],
        pieces: value.pieces.as_slice(),
        last,
    }
}

/// The raw text of an entry; no bytes if it has no value.
fn raw_bytes<'a>(buffer: &'a [u8], entry: &'a Entry) -> RawBytes<'a>
    ensures { plain (raw_left result) ≡ state.meaning (document_entry (entry_of buffer.now entry.now)) }
{
    match entry.assigned() {
        AssignedRef::Nothing => RawBytes {
            buffer,
            text: &[],
            pieces: &[],
            last: &[],
        },
        AssignedRef::Plain { value, .. } => RawBytes {
            buffer,
            text: &[],
            pieces: &[],
            last: value.bytes_in(buffer),
        },
        AssignedRef::Continued(continued) => value_bytes(buffer, &continued.value),
    }
}

/// The next byte of a raw text, and those after it.
fn next_raw(bytes: RawBytes<'_>) -> Option<(u8, RawBytes<'_>)>
    ensures { MatchOption result (raw_left bytes.entry ≡ []) (λ r. raw_left bytes.entry ≡ r.0 ∷ raw_left r.1) }
{
    let mut left = bytes;
    loop {
        if let Some((byte, behind)) = left.text.split_first() {
            left.text = behind;
            return Some((*byte, left));
        }
        if let Some((piece, behind)) = left.pieces.split_first() {
            left.text = piece.text.bytes_in(left.buffer);
            left.pieces = behind;
        } else if left.last.is_empty() {
            return None;
        } else {
            left.text = left.last;
            left.last = &[];
        }
    }
}

/// What the byte after a backslash stands for.
fn escape_meaning(byte: u8) -> u8
    ensures { result ≡ grammar.escape_meaning byte }
{
    match byte {
        b'n' => b'\n',
        b't' => b'\t',
        b'b' => b'\x08',
        _ => byte,
    }
}

/// The next byte of what a raw text means, and the raw bytes after it.
#[tactic(auto, using(crate::proofs::Meanings::byte_by_byte))]
fn next_meaning(bytes: RawBytes<'_>) -> Option<(u8, RawBytes<'_>)>
    ensures { MatchOption result (plain (raw_left bytes.entry) ≡ []) (λ r. plain (raw_left bytes.entry) ≡ r.0 ∷ plain (raw_left r.1)) }
{
    let mut left = bytes;
    while let Some((byte, behind)) = next_raw(left) {
        if byte == b'\\' {
            return match next_raw(behind) {
                Some((escaped, behind)) => Some((escape_meaning(escaped), behind)),
                None => None,
            };
        }
        if byte != b'"' {
            return Some((byte, behind));
        }
        left = behind;
    }
    None
}

/// Whether two raw texts mean the same.
fn same_meaning(one: RawBytes<'_>, other: RawBytes<'_>) -> bool
    ensures { result ≡ bytes_eq (plain (raw_left one.entry)) (plain (raw_left other.entry)) }
{
    let (mut left, mut right) = (one, other);
    loop {
        match (next_meaning(left), next_meaning(right)) {
            (None, None) => return true,
            (Some((x, more)), Some((y, others))) => {
                if x != y {
                    return false;
                }
                left = more;
                right = others;
            }
            _ => return false,
        }
    }
}

/// Whether two entries have the same key, without ASCII case, and mean the same.
fn same_entry(buffer: &[u8], entry: &Entry, other_buffer: &[u8], other: &Entry) -> bool
    ensures { result ≡ spec.same_entry (document_entry (entry_of buffer.now entry.now)) (document_entry (entry_of other_buffer.now other.now)) }
{
    is_same_name(
        entry.name().bytes_in(buffer),
        other.name().bytes_in(other_buffer),
    ) && same_meaning(raw_bytes(buffer, entry), raw_bytes(other_buffer, other))
}

/// Whether two bodies have the same entries, one by one.
fn same_entries(buffer: &[u8], items: &[Item], other_buffer: &[u8], others: &[Item]) -> bool
    ensures { result ≡ pointwise spec.same_entry (entries_of (items_of buffer.now items.now)) (entries_of (items_of other_buffer.now others.now)) }
{
    let (mut left, mut right) = (items, others);
    loop {
        match (next_entry(left), next_entry(right)) {
            (None, None) => return true,
            (Some((entry, more)), Some((other, rest))) => {
                if !same_entry(buffer, entry, other_buffer, other) {
                    return false;
                }
                left = more;
                right = rest;
            }
            _ => return false,
        }
    }
}

/// Whether both are `None`, or the same bytes.
fn same_subsection(one: Option<&[u8]>, other: Option<&[u8]>) -> bool
    ensures { result ≡ option_eq bytes_eq (option_copied one.entry) (option_copied other.entry) }
{
    match (one, other) {
        (None, None) => true,
        (Some(one), Some(other)) => one == other,
        _ => false,
    }
}

/// Whether two headers have the same name, without ASCII case, and the same subsection.
fn same_header(one: &HeaderRef<'_>, other: &HeaderRef<'_>) -> bool
    ensures { result ≡ (is_same_name (name_of (shown_header one.now)) (name_of (shown_header other.now))
        && option_eq bytes_eq (subsection_of (shown_header one.now)) (subsection_of (shown_header other.now))) }
{
    is_same_name(one.name(), other.name())
        && same_subsection(one.subsection_name(), other.subsection_name())
}

/// Whether two sections have the same name, without ASCII case, the same subsection and the same entries.
fn same_section(one: &SectionRef<'_>, other: &SectionRef<'_>) -> bool
    ensures { result ≡ spec.same_section (shown one.now) (shown other.now) }
{
    if !same_header(&one.header(), &other.header()) {
        return false;
    }
    same_entries(one.buffer, one.items, other.buffer, other.items)
}

/// Whether all sections are the same, in order.
pub fn same_sections(one: Sections<'_>, other: Sections<'_>) -> bool
    ensures { result ≡ pointwise spec.same_section (sections_left one.entry) (sections_left other.entry) }
{
    let mut left = one;
    let mut right = other;
    loop {
        match (left.next(), right.next()) {
            (None, None) => return true,
            (Some(section), Some(other)) => {
                if !same_section(&section, &other) {
                    return false;
                }
            }
            _ => return false,
        }
    }
}
