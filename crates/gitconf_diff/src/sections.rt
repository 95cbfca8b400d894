//! Sections of two files by their names, and the entries in them.
ghost use Rattle.std.specs.Prelude.{◌≡◌, ◌++◌, ◌&&◌, ℕ, List, [], map, position, unwrap_or, length, not, ◌≤◌, IfOk};
ghost use Rattle.std.specs.Cmp.Lexicographic.{pointwise};
ghost use Rattle.gitconf_text.specs.Document.{document_entry};
ghost use Rattle.gitconf_items.specs.Items.{entry_of, items_of};
ghost use Rattle.gitconf_state.specs.State.{entries_of};
ghost use Rattle.gitconf_diff.specs.PlainSettings.{plain_mention, plain_mentions, same_side};
ghost use Rattle.gitconf_diff.specs.declared.setting.Side.TheVariants.{Other};
ghost use Rattle.gitconf_diff.specs.PlainSections.{heading, heading_cmp, plain_section, plain_sections, same_entry, same_heading, setting_in, settings_in, settings_of_one, sided};
ghost use Rattle.gitconf_views.specs.Views.{sections_left, shown};

use crate::mention::{Mention, folded, value_of};
use crate::setting::Side;
use gitconf_body::entries::next_entry;
use gitconf_items::entry::Entry;
use gitconf_items::items::Item;
use gitconf_sections::id::SectionId;
use gitconf_text::NoMemory;
use gitconf_text::parse::section::bytes::is_same_name;
use gitconf_views::section::{SectionRef, Sections};
use std::alloc::Global;
use std::borrow::CowSlice;
use std::cmp::Ordering;

/// A section of one of two files, with its names.
#[derive(Drop)]
pub struct SideSection<'a> {
    /// Its name, as names are compared.
    pub name: CowSlice<'a, u8>,
    /// The subsection, if there is one.
    pub subsection_name: Option<&'a [u8]>,
    /// The file that has it.
    pub side: Side,
    /// Its number in that file.
    pub section: SectionId,
    /// The buffer that its spans are offsets of.
    pub buffer: &'a [u8],
    /// The items of its body.
    pub items: &'a [Item],
}

/// A section of one of two files.
fn side_section<'a>(section: &SectionRef<'a>, side: Side) -> Result<SideSection<'a>, NoMemory>
    ensures { IfOk result (λ s. plain_section s ≡ sided side (shown section.now)) }
{
    let header = section.header();
    let name = folded(section.alloc, header.name())?;
    Ok(SideSection {
        name,
        subsection_name: header.subsection_name(),
        side,
        section: section.id(),
        buffer: section.buffer,
        items: section.items,
    })
}

/// Adds sections, in order, as those of one of two files.
///
/// # Errors
///
/// Out of memory. Some of them may have been added.
pub fn add_sections<'a>(
    list: &mut Vec<SideSection<'a>>,
    sections: Sections<'a>,
    side: Side,
) -> Result<(), NoMemory>
    ensures { IfOk result (λ _. plain_sections list.new.items ≡ plain_sections list.old.items ++ map (sided side) (sections_left sections.entry)) }
{
    for section in sections {
        list.push(side_section(&section, side)?)?;
    }
    Ok(())
}

/// How the names of two sections are ordered: by the section's own, and then by the subsection, where none is first.
pub fn order(one: &SideSection<'_>, other: &SideSection<'_>) -> Ordering
    ensures { result ≡ heading_cmp (heading one.now) (heading other.now) }
{
    let subsections = one.subsection_name.cmp(&other.subsection_name);
    one.name.cmp(&other.name).then(subsections)
}

/// Whether two sections have the same names.
fn have_same_names(one: &SideSection<'_>, other: &SideSection<'_>) -> bool
    ensures { result ≡ same_heading (heading one.now) (heading other.now) }
{
    order(one, other).is_eq()
}

/// Whether two sections have the same names, and are the first file's and the other's.
pub fn are_of_both(one: &SideSection<'_>, other: &SideSection<'_>) -> bool
    ensures { result ≡ (not (same_side Other one.now.side) && (same_side Other other.now.side && same_heading (heading one.now) (heading other.now))) }
{
    !one.side.is_other() && other.side.is_other() && have_same_names(one, other)
}

/// The place of the first section that has not the names of this one.
fn unlike_place(first: &SideSection<'_>, sections: &[SideSection<'_>]) -> Option<usize>
    ensures { result ≡ position (λ s. not (same_heading (heading first.now) (heading s))) sections.now }
{
    sections.iter().position(|s| !have_same_names(first, s))
}

/// How many sections at the front have the names of the first. That one comes before them.
pub fn alike_count(first: &SideSection<'_>, sections: &[SideSection<'_>]) -> usize
    ensures within { result ≤ length sections.now }
    ensures count { result ≡ unwrap_or (position (λ s. not (same_heading (heading first.now) (heading s))) sections.now) (length sections.now) }
{
    unlike_place(first, sections).unwrap_or(sections.len())
}

/// An entry of a section, by its names.
fn mention<'a>(
    alloc: Global,
    section: &'a SideSection<'a>,
    entry: &'a Entry,
) -> Result<Mention<'a>, NoMemory>
    ensures { IfOk result (λ m. plain_mention m ≡ setting_in (plain_section section.now) (document_entry (entry_of section.now.buffer.now entry.now))) }
{
    let value_name = folded(alloc, entry.name().bytes_in(section.buffer))?;
    let value = value_of(alloc, section.buffer, entry)?;
    Ok(Mention {
        section_name: section.name.as_slice(),
        subsection_name: section.subsection_name,
        value_name,
        side: section.side,
        section: section.section,
        value,
    })
}

/// Whether two entries have the same name, without case, and mean the same. Each has a buffer that its spans are offsets of.
fn mean_the_same(
    alloc: Global,
    buffer: &[u8],
    entry: &Entry,
    other_buffer: &[u8],
    other: &Entry,
) -> Result<bool, NoMemory>
    ensures { IfOk result (λ are. are ≡ same_entry (document_entry (entry_of buffer.now entry.now)) (document_entry (entry_of other_buffer.now other.now))) }
{
    if !is_same_name(
        entry.name().bytes_in(buffer),
        other.name().bytes_in(other_buffer),
    ) {
        return Ok(false);
    }
    let value = value_of(alloc, buffer, entry)?;
    Ok(value == value_of(alloc, other_buffer, other)?)
}

/// Whether items have no entry, so that they say the same as nothing.
fn has_no_entry(items: &[Item]) -> bool
    ensures { (buffer : List ℕ) → result ≡ pointwise same_entry [] (entries_of (items_of buffer items.now)) }
{
    match next_entry(items) {
        Some(_) => false,
        None => true,
    }
}

/// Whether the entries of two sections say the same, one by one. They do if they have the same names, without case, and mean
/// the same. One pass over their items.
///
/// # Errors
///
/// Out of memory.
pub fn say_the_same(
    alloc: Global,
    one: &SideSection<'_>,
    other: &SideSection<'_>,
) -> Result<bool, NoMemory>
    ensures { IfOk result (λ are. are ≡ pointwise same_entry (plain_section one.now).entries (plain_section other.now).entries) }
{
    let (mut rest, mut others) = (one.items, other.items);
    while let Some((entry, behind)) = next_entry(rest) {
        match next_entry(others) {
            Some((of_other, others_behind)) => {
                if !mean_the_same(alloc, one.buffer, entry, other.buffer, of_other)? {
                    return Ok(false);
                }
                rest = behind;
                others = others_behind;
            }
            None => return Ok(false),
        }
    }
    Ok(has_no_entry(others))
}

/// Adds the entries of a section, in order. One pass over its items.
fn add_mentions<'a>(
    alloc: Global,
    mentions: &mut Vec<Mention<'a>>,
    section: &'a SideSection<'a>,
) -> Result<(), NoMemory>
    ensures { IfOk result (λ _. plain_mentions mentions.new.items ≡ plain_mentions mentions.old.items ++ settings_of_one (plain_section section.now)) }
{
    let mut rest = section.items;
    while let Some((entry, behind)) = next_entry(rest) {
        mentions.push(mention(alloc, section, entry)?)?;
        rest = behind;
    }
    Ok(())
}

/// The entries of sections, in order. One pass.
///
/// # Errors
///
/// Out of memory.
pub fn mentions_of<'a>(
    alloc: Global,
    sections: &'a [SideSection<'a>],
) -> Result<Vec<Mention<'a>>, NoMemory>
    ensures { IfOk result (λ mentions. plain_mentions mentions.items ≡ settings_in (plain_sections sections.now)) }
{
    let mut mentions = Vec::new(alloc);
    for section in sections {
        add_mentions(alloc, &mut mentions, section)?;
    }
    Ok(mentions)
}
