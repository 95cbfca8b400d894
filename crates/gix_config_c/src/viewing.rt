//! A view of a file made: its sections and entries laid out in arrays.
ghost use Rattle.std.specs.Prelude.{◌≡◌, IfOk};
ghost use Rattle.std.specs.Option.{option_copied, option_map};
ghost use Rattle.bstr.specs.Owned.{bstring_bytes};
ghost use Rattle.gitconf_items.specs.Items.{entry_of};
ghost use Rattle.gitconf_state.specs.State.{entries_of};
ghost use Rattle.gitconf_text.specs.Document.{document_entry};
ghost use Rattle.gitconf_views.specs.Views.{sections_left, shown};
ghost use Rattle.gix_config_c.specs.Answers.{OfFile};
ghost use Rattle.gix_config_c.specs.Laying.{is_part, is_zero, no_rows, origin_at, part_for, part_if, said_last, same_path, says, with_bytes, with_bytes_if, with_entries, with_entry, with_origin, with_section, with_sections};
ghost use Rattle.gix_config_c.specs.Views.{AreRowsOf, IsEmptied, IsView, rows};

use crate::block::room;
use crate::object::Object;
use crate::slot::{Slot, in_handle};
use crate::view::{Arrays, EntryRow, OriginRow, Part, SectionRow, View};
use crate::{DONE, OUT_OF_MEMORY, origin};
use bstr::BString;
use gitconf_body::entries::next_entry;
use gitconf_body::meanings::entry_value;
use gitconf_items::entry::Entry;
use gitconf_sources::meta::Metadata;
use gitconf_views::section::{SectionRef, Sections};
use gix_config::{File, NoMemory};
use std::alloc::Global;

/// Fills in the sections and entries of a file as arrays, in one pass. They stay as they are whatever becomes of the file. What the view had
/// is freed. Entries before the first section are not among them: no key names them.
///
/// 102 if the handle has no file, 27 when out of memory; the view is then as it was.
#[unsafe(no_mangle)]
pub extern "C" fn gix_config_view_file(alloc: Global, file: &mut Slot, view: &mut View) -> u32
    ensures answer { OfFile file.old.it result (λ f. IsView f result view.new) }
    ensures kept { (result ≡ 0 → ⊥) → view.new ≡ view.old }
    ensures same { file.new.it ≡ file.old.it }
{
    in_handle!(alloc, &file, Object::File(f) => put_view(alloc, f, view))
}

/// Frees what a view has; an empty one stays empty.
#[unsafe(no_mangle)]
pub extern "C" fn gix_config_view_free(alloc: Global, view: &mut View)
    ensures { IsEmptied view.new }
{
    view.free(alloc);
}

/// Puts the sections and entries of a file into a view.
fn put_view(alloc: Global, file: &File, view: &mut View) -> u32
    ensures answer { IsView file.now result view.new }
    ensures kept { (result ≡ 0 → ⊥) → view.new ≡ view.old }
{
    let Some(room) = room(alloc) else {
        return OUT_OF_MEMORY;
    };
    let Ok(arrays) = arrays_of(alloc, file) else {
        return OUT_OF_MEMORY;
    };
    view.put(room, arrays);
    DONE
}

/// The sections and entries of a file.
fn arrays_of(alloc: Global, file: &File) -> Result<Arrays, NoMemory>
    ensures { IfOk result (λ arrays. AreRowsOf file.now.sections (rows arrays)) }
{
    lay_out(alloc, file.sections())
}

/// Sections laid out.
#[tactic(auto, unfolding(crate::specs::Laying::with_sections))]
fn lay_out(alloc: Global, sections: Sections<'_>) -> Result<Arrays, NoMemory>
    ensures { IfOk result (λ arrays. rows arrays ≡ with_sections no_rows (sections_left sections.entry)) }
{
    let mut arrays = Arrays {
        text: Vec::new(alloc),
        entries: Vec::new(alloc),
        origins: Vec::new(alloc),
        sections: Vec::new(alloc),
    };
    for section in sections {
        put_section(alloc, &mut arrays, &section)?;
    }
    Ok(arrays)
}

/// Lays out a section after others.
fn put_section(alloc: Global, arrays: &mut Arrays, section: &SectionRef<'_>) -> Result<(), NoMemory>
    ensures { IfOk result (λ _. rows arrays.new ≡ with_section (rows arrays.old) (shown section.now)) }
{
    let origin = put_origin(arrays, section.meta())?;
    let header = section.header();
    let subsection_name = header.subsection_name();
    let row = SectionRow {
        name: put(&mut arrays.text, header.name())?,
        subsection: put_if(&mut arrays.text, subsection_name)?,
        has_subsection: subsection_name.is_some(),
        origin,
        entries_at: arrays.entries.len(),
        entries_len: section.body().num_values(),
        number: section.id().number(),
    };
    put_entries(alloc, arrays, section)?;
    arrays.sections.push(row)?;
    Ok(())
}

/// Lays out the entries of a section after others.
#[tactic(auto, unfolding(crate::specs::Laying::with_entries))]
fn put_entries(alloc: Global, arrays: &mut Arrays, section: &SectionRef<'_>) -> Result<(), NoMemory>
    ensures { IfOk result (λ _. rows arrays.new ≡ with_entries (rows arrays.old) (entries_of (shown section.now).items)) }
{
    let mut rest = section.items;
    while let Some((entry, behind)) = next_entry(rest) {
        put_entry(alloc, arrays, section.buffer, entry)?;
        rest = behind;
    }
    Ok(())
}

/// Lays out an entry after others.
fn put_entry(
    alloc: Global,
    arrays: &mut Arrays,
    buffer: &[u8],
    entry: &Entry,
) -> Result<(), NoMemory>
    ensures { IfOk result (λ _. rows arrays.new ≡ with_entry (rows arrays.old) (document_entry (entry_of buffer.now entry.now))) }
{
    let name = put(&mut arrays.text, entry.name().bytes_in(buffer))?;
    let value = entry_value(alloc, buffer, entry)?;
    let row = EntryRow {
        name,
        value: put_value(&mut arrays.text, &value)?,
        has_value: value.is_some(),
    };
    arrays.entries.push(row)?;
    Ok(())
}

/// The place of the origin that is this metadata; it is laid out unless the last one is it.
fn put_origin(arrays: &mut Arrays, meta: &Metadata) -> Result<usize, NoMemory>
    ensures at { IfOk result (λ at. at ≡ origin_at (rows arrays.old) meta.now) }
    ensures rows { IfOk result (λ _. rows arrays.new ≡ with_origin (rows arrays.old) meta.now) }
{
    if let Some(at) = said_last(arrays, meta) {
        return Ok(at);
    }
    let at = arrays.origins.len();
    let row = OriginRow {
        path: put_path(&mut arrays.text, meta)?,
        has_path: meta.path.is_some(),
        source: origin::source(meta.source),
        level: u32::from(meta.level),
        trust: origin::trust(meta.trust),
    };
    arrays.origins.push(row)?;
    Ok(at)
}

/// The place of the last origin, if that is this metadata.
fn said_last(arrays: &Arrays, meta: &Metadata) -> Option<usize>
    ensures { result ≡ said_last (rows arrays.now) meta.now }
{
    let at = arrays.origins.len().checked_sub(1)?;
    let last = arrays.origins.get(at)?;
    if says(&arrays.text, last, meta) {
        Some(at)
    } else {
        None
    }
}

/// Whether an origin is this metadata.
fn says(text: &[u8], row: &OriginRow, meta: &Metadata) -> bool
    ensures { result ≡ says text.now row.now meta.now }
{
    is_path(text, row, meta)
        && row.source == origin::source(meta.source)
        && row.level == u32::from(meta.level)
        && row.trust == origin::trust(meta.trust)
}

/// Whether an origin has the path of this metadata.
fn is_path(text: &[u8], row: &OriginRow, meta: &Metadata) -> bool
    ensures { result ≡ same_path text.now row.now meta.now.path }
{
    match &meta.path {
        Some(path) => row.has_path && is_part(text, row.path, path.as_bytes()),
        None => !row.has_path,
    }
}

/// Whether these bytes lie at the part of a text, with a zero byte behind them.
fn is_part(text: &[u8], part: Part, bytes: &[u8]) -> bool
    ensures { result ≡ is_part text.now part bytes.now }
{
    match text.get(part.at..) {
        Some(behind) => {
            part.len == bytes.len()
                && behind.starts_with(bytes)
                && is_zero(behind.get(bytes.len()).copied())
        }
        None => false,
    }
}

/// Whether there is a byte, and it is zero.
fn is_zero(byte: Option<u8>) -> bool
    ensures { result ≡ is_zero byte }
{
    match byte {
        Some(byte) => byte == 0,
        None => false,
    }
}

/// Puts bytes behind a text, and a zero byte behind them.
fn put(text: &mut Vec<u8>, bytes: &[u8]) -> Result<Part, NoMemory>
    ensures part { IfOk result (λ part. part ≡ part_for text.old.items bytes.now) }
    ensures text { IfOk result (λ _. text.new.items ≡ with_bytes text.old.items bytes.now) }
{
    let part = Part {
        at: text.len(),
        len: bytes.len(),
    };
    text.extend_from_slice(bytes)?;
    text.push(0)?;
    Ok(part)
}

/// Puts bytes behind a text, if there are some.
fn put_if(text: &mut Vec<u8>, bytes: Option<&[u8]>) -> Result<Part, NoMemory>
    ensures part { IfOk result (λ part. part ≡ part_if text.old.items (option_copied bytes.entry)) }
    ensures text { IfOk result (λ _. text.new.items ≡ with_bytes_if text.old.items (option_copied bytes.entry)) }
{
    match bytes {
        Some(bytes) => put(text, bytes),
        None => Ok(Part { at: 0, len: 0 }),
    }
}

/// Puts what a value means behind a text, if there is one.
fn put_value(text: &mut Vec<u8>, value: &Option<BString>) -> Result<Part, NoMemory>
    ensures part { IfOk result (λ part. part ≡ part_if text.old.items (option_map bstring_bytes value.now)) }
    ensures text { IfOk result (λ _. text.new.items ≡ with_bytes_if text.old.items (option_map bstring_bytes value.now)) }
{
    match value {
        Some(value) => put(text, value),
        None => Ok(Part { at: 0, len: 0 }),
    }
}

/// Puts the path of metadata behind a text, if there is one.
fn put_path(text: &mut Vec<u8>, meta: &Metadata) -> Result<Part, NoMemory>
    ensures part { IfOk result (λ part. part ≡ part_if text.old.items meta.now.path) }
    ensures text { IfOk result (λ _. text.new.items ≡ with_bytes_if text.old.items meta.now.path) }
{
    match &meta.path {
        Some(path) => put(text, path.as_bytes()),
        None => Ok(Part { at: 0, len: 0 }),
    }
}
