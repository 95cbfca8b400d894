//! Sections that are made.
ghost use Rattle.std.specs.Prelude.{◌≡◌, ◌↔◌, ℕ, ◌+◌, ◌-◌, ◌<◌, ◌≤◌, ◌^◌, min, true, ◌∷◌, [], List, length, Some, None, IfErr, IfOk, OnErr, OnOk, IsErrOf};
ghost use Rattle.std.specs.Option.{option_copied};
ghost use Rattle.gitconf_text.specs.Names.{is_valid_or_none};
ghost use Rattle.gitconf_text.specs.Part as parts;
ghost use Rattle.gitconf_items.specs.declared.event.Event.TheVariants as events;
ghost use Rattle.gitconf_items.specs.EventRef.{escaped_subsection};
ghost use Rattle.gitconf_items.specs.Events.{header_of};
ghost use Rattle.gitconf_items.specs.ItemsFit.{AreItemsWithin};
ghost use Rattle.gitconf_items.specs.ShownEvents.{decoded_or, CopyFits, IsExtended, IsShown};
ghost use Rattle.gitconf_state.specs.Edit.{header_bytes, made_header, new_section_bytes, set_value};
ghost use Rattle.gitconf_items.specs.Items.{items_of};
ghost use Rattle.gitconf_text.specs.LineEnds.{bytes_of_line_end};
ghost use Rattle.gitconf_body.specs.Buffers.{Grows};
ghost use Rattle.gitconf_body.specs.Lines.{QuotedStands};

use crate::buffer::{append, check_room, take_back};
use crate::entry::{entry_len, set_value};
use gitconf_items::event::{Copied, Header, Span};
use gitconf_items::event_ref::{escaped_subsection_len, write_escaped_subsection};
use gitconf_items::items::{Item, Section};
use gitconf_text::NoMemory;
use gitconf_text::line_end::LineEnd;
use gitconf_text::parse::span;
use std::alloc::Global;

/// A subsection as it is spelled in quotes.
fn spelled(alloc: Global, subsection: &[u8]) -> Result<Vec<u8>, NoMemory>
    ensures { IfOk result (λ text. text.items ≡ escaped_subsection subsection.now) }
{
    let mut text = Vec::new(alloc);
    match write_escaped_subsection(&mut text, subsection) {
        Ok(()) => Ok(text),
        Err(_) => Err(NoMemory),
    }
}

/// The decoded copy of a subsection, if that isn't what is spelled.
fn copy_of(
    copies: &mut Vec<u8>,
    spelling: &[u8],
    subsection: &[u8],
) -> Result<Option<Copied>, NoMemory>
    ensures decoded { IfOk result (λ copy. decoded_or copies.new.items copy (Some spelling.now) ≡ Some subsection.now) }
    ensures fits { IfOk result (λ copy. CopyFits (length copies.new.items) copy) }
    ensures extended { IsExtended copies.old.items copies.new.items }
{
    if spelling == subsection {
        return Ok(None);
    }
    let start = copies.len();
    copies.extend_from_slice(subsection)?;
    Ok(Some(Copied::behind(copies, start)?))
}

/// Adds the text of a header without a subsection to the buffer.
#[tactic(auto, using(crate::proofs::Buffers::extending, crate::proofs::Buffers::put_once, crate::proofs::Headers::plain_shown))]
fn append_plain(buffer: &mut Vec<u8>, name: &[u8]) -> Result<Header, span::Error>
    requires room { length buffer.old.items < 2 ^ 32 }
    ensures header { IfOk result (λ h. header_of buffer.new.items h ≡ made_header name.now None) }
    ensures shown { (copies : List ℕ) → IfOk result (λ h. IsShown buffer.new.items copies (events.SectionHeader h)) }
    ensures put { OnOk result (length buffer.new.items ≡ length buffer.old.items + length name.now) }
    ensures grows { Grows result (length name.now) buffer.old.items buffer.new.items }
{
    let name = append(buffer, name)?;
    Ok(Header {
        name,
        separator: None,
        subsection: None,
        decoded: None,
    })
}

/// Where the parts of a header with a quoted subsection are.
#[derive(Clone, Copy)]
struct Quoted {
    name: Span,
    separator: Span,
    subsection: Span,
}

/// Adds the name, the blank and the spelled subsection of a header to the buffer.
#[tactic(auto, using(crate::proofs::Buffers::extending))]
fn append_quoted(buffer: &mut Vec<u8>, name: &[u8], spelling: &[u8]) -> Result<Quoted, span::Error>
    requires room { length buffer.old.items < 2 ^ 32 }
    ensures stands { IfOk result (λ q. QuotedStands buffer.new.items q name.now spelling.now) }
    ensures put { OnOk result (length buffer.new.items ≡ length buffer.old.items + (length name.now + (1 + length spelling.now))) }
    ensures grows { Grows result (length name.now + (1 + length spelling.now)) buffer.old.items buffer.new.items }
{
    let name = append(buffer, name)?;
    let separator = append(buffer, b" ")?;
    let subsection = append(buffer, spelling)?;
    Ok(Quoted {
        name,
        separator,
        subsection,
    })
}

/// Adds the text of a header to the buffer, and a decoded copy of its subsection, if that isn't what is spelled, to the others.
///
/// # Errors
///
/// A [`span::Error`]: E3 if the buffer would be longer than 4294967295 bytes, otherwise E27 when out of memory. The buffer and the
/// copies may have grown.
#[tactic(auto, using(crate::proofs::Buffers::extending))]
pub(crate) fn append_header(
    buffer: &mut Vec<u8>,
    copies: &mut Vec<u8>,
    name: &[u8],
    subsection: Option<&[u8]>,
) -> Result<Header, span::Error>
    requires room { length buffer.old.items < 2 ^ 32 }
    requires valid { is_valid_or_none (option_copied subsection) ≡ true }
    ensures header { IfOk result (λ h. header_of buffer.new.items h ≡ made_header name.now (option_copied subsection.entry)) }
    ensures shown { IfOk result (λ h. IsShown buffer.new.items copies.new.items (events.SectionHeader h)) }
    ensures put { OnOk result (length buffer.new.items ≡ length buffer.old.items + header_bytes name.now (option_copied subsection.entry)) }
    ensures grows { Grows result (header_bytes name.now (option_copied subsection.entry)) buffer.old.items buffer.new.items }
    ensures extended { IsExtended copies.old.items copies.new.items }
{
    let Some(subsection) = subsection else {
        return append_plain(buffer, name);
    };
    let spelling = spelled(*buffer.allocator(), subsection)?;
    let quoted = append_quoted(buffer, name, &spelling)?;
    let decoded = copy_of(copies, &spelling, subsection)?;
    Ok(Header {
        name: quoted.name,
        separator: Some(quoted.separator),
        subsection: Some(quoted.subsection),
        decoded,
    })
}

/// The items of a body that is one line ending, which is added to the buffer; with room for an entry.
#[tactic(auto, using(crate::proofs::Buffers::extending))]
fn one_line(buffer: &mut Vec<u8>, line_end: LineEnd) -> Result<Vec<Item>, span::Error>
    requires room { length buffer.old.items < 2 ^ 32 }
    ensures items { IfOk result (λ is. items_of buffer.new.items is.items ≡ parts.LineEndsItem (bytes_of_line_end line_end) ∷ []) }
    ensures within { IfOk result (λ is. AreItemsWithin (length buffer.new.items) is.items) }
    ensures grows { Grows result (length (bytes_of_line_end line_end)) buffer.old.items buffer.new.items }
{
    let run = append(buffer, line_end.as_bytes())?;
    let mut items = Vec::with_capacity(*buffer.allocator(), 4)?;
    items.push(Item::LineEnds(run))?;
    Ok(items)
}

/// How many bytes the text of a header adds to a buffer, or `usize::MAX` if there are more.
pub(crate) fn header_len(name: &[u8], subsection: Option<&[u8]>) -> usize
    ensures { result ≡ min (header_bytes name.now (option_copied subsection.entry)) (2 ^ 64 - 1) }
{
    match subsection {
        Some(subsection) => name
            .len()
            .saturating_add(1)
            .saturating_add(escaped_subsection_len(subsection)),
        None => name.len(),
    }
}

/// How many bytes [`section_with`] adds to a buffer, or `usize::MAX` if there are more.
fn section_len(
    line_end: LineEnd,
    name: &[u8],
    subsection: Option<&[u8]>,
    key: &[u8],
    value: &[u8],
) -> usize
    ensures { result ≡ min (new_section_bytes (bytes_of_line_end line_end) name.now (option_copied subsection.entry) key.now value.now) (2 ^ 64 - 1) }
{
    // A body of one line ending has no entry, so a tab and a space are added.
    entry_len(2, line_end, key, value)
        .saturating_add(line_end.as_bytes().len())
        .saturating_add(header_len(name, subsection))
}

/// The parts of [`section_with`], added to the buffer and to the copies.
#[tactic(auto, using(crate::proofs::Buffers::extending))]
fn append_section_with(
    buffer: &mut Vec<u8>,
    copies: &mut Vec<u8>,
    line_end: LineEnd,
    name: &[u8],
    subsection: Option<&[u8]>,
    key: &[u8],
    value: &[u8],
) -> Result<Section, span::Error>
    requires room { length buffer.old.items < 2 ^ 32 }
    requires valid { is_valid_or_none (option_copied subsection) ≡ true }
    ensures header { IfOk result (λ s. header_of buffer.new.items s.header ≡ made_header name.now (option_copied subsection.entry)) }
    ensures shown { IfOk result (λ s. IsShown buffer.new.items copies.new.items (events.SectionHeader s.header)) }
    ensures items { IfOk result (λ s. items_of buffer.new.items s.items.items
        ≡ set_value (bytes_of_line_end line_end) key.now value.now (parts.LineEndsItem (bytes_of_line_end line_end) ∷ [])) }
    ensures within { IfOk result (λ s. AreItemsWithin (length buffer.new.items) s.items.items) }
    ensures grows { Grows result (new_section_bytes (bytes_of_line_end line_end) name.now (option_copied subsection.entry) key.now value.now)
        buffer.old.items buffer.new.items }
    ensures extended { IsExtended copies.old.items copies.new.items }
{
    let mut items = one_line(buffer, line_end)?;
    set_value(buffer, &mut items, line_end, key, value)?;
    let header = append_header(buffer, copies, name, subsection)?;
    Ok(Section { header, items })
}

/// A new section: its body is one line ending, and then one entry. Takes memory for what is added to the buffer, and for
/// the items.
///
/// # Errors
///
/// A [`span::Error`]: E3 if and only if the buffer would be longer than 4294967295 bytes, otherwise E27 when out of memory. The buffer is
/// then as it was; the copies may have grown.
pub fn section_with(
    buffer: &mut Vec<u8>,
    copies: &mut Vec<u8>,
    line_end: LineEnd,
    name: &[u8],
    subsection: Option<&[u8]>,
    key: &[u8],
    value: &[u8],
) -> Result<Section, span::Error>
    requires room { length buffer.old.items < 2 ^ 32 }
    requires valid { is_valid_or_none (option_copied subsection) ≡ true }
    ensures header { IfOk result (λ s. header_of buffer.new.items s.header ≡ made_header name.now (option_copied subsection.entry)) }
    ensures shown { IfOk result (λ s. IsShown buffer.new.items copies.new.items (events.SectionHeader s.header)) }
    ensures items { IfOk result (λ s. items_of buffer.new.items s.items.items
        ≡ set_value (bytes_of_line_end line_end) key.now value.now (parts.LineEndsItem (bytes_of_line_end line_end) ∷ [])) }
    ensures within { IfOk result (λ s. AreItemsWithin (length buffer.new.items) s.items.items) }
    ensures grows { Grows result (new_section_bytes (bytes_of_line_end line_end) name.now (option_copied subsection.entry) key.now value.now)
        buffer.old.items buffer.new.items }
    ensures refused { 2 ^ 32 ≤ length buffer.old.items + new_section_bytes (bytes_of_line_end line_end) name.now (option_copied subsection.entry)
        key.now value.now → IsErrOf result 3 }
    ensures err { OnErr result (buffer.new.items ≡ buffer.old.items) }
    ensures extended { IsExtended copies.old.items copies.new.items }
{
    check_room(buffer, section_len(line_end, name, subsection, key, value))?;
    let len = buffer.len();
    let section = append_section_with(buffer, copies, line_end, name, subsection, key, value);
    take_back(section, buffer, len)
}

/// Checks that a buffer has room for what [`new_section`] adds to it. Takes no memory.
///
/// # Errors
///
/// A [`span::Error`] (E3) if the buffer would be longer than 4294967295 bytes.
pub fn check_section(
    buffer: &[u8],
    line_end: LineEnd,
    name: &[u8],
    subsection: Option<&[u8]>,
) -> Result<(), span::Error>
    requires room { length buffer.now < 2 ^ 32 }
    ensures too_large { IsErrOf result 3
        ↔ (2 ^ 32 ≤ length buffer.now + (length (bytes_of_line_end line_end) + header_bytes name.now (option_copied subsection.entry))) }
    ensures only { IfErr result (λ e. e ≡ 3) }
{
    let count = header_len(name, subsection).saturating_add(line_end.as_bytes().len());
    check_room(buffer, count)
}

/// The parts of [`new_section`], added to the buffer and to the copies.
#[tactic(auto, using(crate::proofs::Buffers::extending))]
fn append_section(
    buffer: &mut Vec<u8>,
    copies: &mut Vec<u8>,
    line_end: LineEnd,
    name: &[u8],
    subsection: Option<&[u8]>,
) -> Result<Section, span::Error>
    requires room { length buffer.old.items < 2 ^ 32 }
    requires valid { is_valid_or_none (option_copied subsection) ≡ true }
    ensures header { IfOk result (λ s. header_of buffer.new.items s.header ≡ made_header name.now (option_copied subsection.entry)) }
    ensures shown { IfOk result (λ s. IsShown buffer.new.items copies.new.items (events.SectionHeader s.header)) }
    ensures items { IfOk result (λ s. items_of buffer.new.items s.items.items ≡ parts.LineEndsItem (bytes_of_line_end line_end) ∷ []) }
    ensures within { IfOk result (λ s. AreItemsWithin (length buffer.new.items) s.items.items) }
    ensures grows { Grows result (length (bytes_of_line_end line_end) + header_bytes name.now (option_copied subsection.entry)) buffer.old.items
        buffer.new.items }
    ensures extended { IsExtended copies.old.items copies.new.items }
{
    let items = one_line(buffer, line_end)?;
    let header = append_header(buffer, copies, name, subsection)?;
    Ok(Section { header, items })
}

/// A new section, whose body is one line ending. Takes memory for what is added to the buffer, and for the items.
///
/// # Errors
///
/// Those of [`section_with`].
pub fn new_section(
    buffer: &mut Vec<u8>,
    copies: &mut Vec<u8>,
    line_end: LineEnd,
    name: &[u8],
    subsection: Option<&[u8]>,
) -> Result<Section, span::Error>
    requires room { length buffer.old.items < 2 ^ 32 }
    requires valid { is_valid_or_none (option_copied subsection) ≡ true }
    ensures header { IfOk result (λ s. header_of buffer.new.items s.header ≡ made_header name.now (option_copied subsection.entry)) }
    ensures shown { IfOk result (λ s. IsShown buffer.new.items copies.new.items (events.SectionHeader s.header)) }
    ensures items { IfOk result (λ s. items_of buffer.new.items s.items.items ≡ parts.LineEndsItem (bytes_of_line_end line_end) ∷ []) }
    ensures within { IfOk result (λ s. AreItemsWithin (length buffer.new.items) s.items.items) }
    ensures grows { Grows result (length (bytes_of_line_end line_end) + header_bytes name.now (option_copied subsection.entry)) buffer.old.items
        buffer.new.items }
    ensures refused { 2 ^ 32 ≤ length buffer.old.items + (length (bytes_of_line_end line_end) + header_bytes name.now
        (option_copied subsection.entry)) → IsErrOf result 3 }
    ensures err { OnErr result (buffer.new.items ≡ buffer.old.items) }
    ensures extended { IsExtended copies.old.items copies.new.items }
{
    check_section(buffer, line_end, name, subsection)?;
    let len = buffer.len();
    let section = append_section(buffer, copies, line_end, name, subsection);
    take_back(section, buffer, len)
}
