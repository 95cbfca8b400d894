//! A text read to its items, section by section.
ghost use Rattle.std.specs.Prelude.{◌≡◌, ◌<◌, ◌≤◌, ◌^◌, ◌++◌, [], List, length, get_or, IfOk, IfErr, OnOk};
ghost use Rattle.gitconf_text.specs.Part.{Part};
ghost use Rattle.gitconf_text.specs.Document.{IsText};
ghost use Rattle.gitconf_text.specs.Token.{tokens_of};
ghost use Rattle.gitconf_read.specs.declared.reading.Expected.{Expected};
ghost use Rattle.gitconf_read.specs.declared.reading.Expected.TheVariants.{SectionHeader};
ghost use Rattle.gitconf_read.specs.EventResult.{IsRefused};
ghost use Rattle.gitconf_items.specs.Items.{tokens_of_items};
ghost use Rattle.gitconf_items.specs.ItemsFit.{AreItemsWithin};
ghost use Rattle.gitconf_read.specs.Parsing.{IsMisread};
ghost use Rattle.gitconf_read.specs.Stretches.{IsBreak, IsReadOn};
ghost use Rattle.gitconf_items.specs.TokenDocument.{tokens_kept};

use crate::input::refusal;
use gitconf_items::few::{FewItems, taken};
use gitconf_items::items::{Item, Keep};
use gitconf_items::section_sink::SectionSink;
use gitconf_read::error::Error;
use gitconf_read::reading::item::{header_first, push_items};
use gitconf_read::reading::{Expected, ReadError, mark_len};
use std::alloc::Global;

/// Hands over the sections from the first header on, each with the items that are kept of it, as soon as it is read. The items of each go
/// through `scratch`.
fn push_sections<S: SectionSink>(
    alloc: Global,
    input: &[u8],
    from: usize,
    keep: Keep,
    scratch: &mut Vec<Item>,
    sections: &mut S,
) -> Result<(), ReadError>
    requires within { from ≤ length input.now }
    requires fits { length input.now < 2 ^ 32 }
    requires headed { from < length input.now → get_or input.now from 0 ≡ 91 }
    requires empty { scratch.old.items ≡ [] }
    requires keeps { (first : S) × S.keeps input.now first sections.old }
    ensures read { OnOk result ((last : Expected)
        × IsReadOn keep input.now from (length input.now) last (S.tokens input.now sections.old) (S.tokens input.now sections.new)) }
    ensures keeps { OnOk result ((first : S) → S.keeps input.now first sections.old → S.keeps input.now first sections.new) }
    ensures broken { IfErr result (IsBreak input.now from SectionHeader) }
{
    let mut at = from;
    let mut wanted = Expected::SectionHeader;
    while at < input.len() {
        let (header, behind) = header_first(input, at, wanted)?;
        at = push_items(alloc, input, behind, Expected::Name, keep, scratch)?;
        sections.take(input, header, scratch)?;
        wanted = Expected::Name;
    }
    Ok(())
}

/// The items that are kept before the first header; the sections are handed over as they are read.
fn read_items<S: SectionSink>(
    alloc: Global,
    input: &[u8],
    keep: Keep,
    sections: &mut S,
) -> Result<FewItems, ReadError>
    requires fits { length input.now < 2 ^ 32 }
    requires keeps { (first : S) × S.keeps input.now first sections.old }
    requires none { S.tokens input.now sections.old ≡ [] }
    ensures found { IfOk result (λ front. (parts : List Part) × IsText input.now parts
        × (tokens_of_items input.now front.items ++ S.tokens input.now sections.new ≡ tokens_kept keep (tokens_of parts))) }
    ensures within { IfOk result (λ front. AreItemsWithin (length input.now) front.items) }
    ensures keeps { OnOk result ((first : S) → S.keeps input.now first sections.old → S.keeps input.now first sections.new) }
    ensures misread { IfErr result (IsMisread input.now) }
{
    let mut scratch = Vec::new(alloc);
    let start = mark_len(input);
    let at = push_items(
        alloc,
        input,
        start,
        Expected::SectionHeader,
        keep,
        &mut scratch,
    )?;
    let front = taken(alloc, &mut scratch);
    push_sections(alloc, input, at, keep, &mut scratch, sections)?;
    Ok(front)
}

/// The items that are kept of a text before its first header. Its sections are handed over in order, each with the items that are kept of
/// it, as soon as it is read. All spans are offsets of the text.
///
/// The text is read once, section by section. Memory is taken for one list that holds the items of a section until they are handed
/// over, so for those of the longest section; for the items before the first header if there are more than four; and for what the
/// sections are handed over to.
///
/// # Errors
///
/// E1 if the text has no document, with the line and the data from where it can't be read on; E27 when out of memory.
/// Some sections may have been handed over.
pub fn read_sections<S: SectionSink>(
    alloc: Global,
    input: &[u8],
    keep: Keep,
    sections: &mut S,
) -> Result<FewItems, Error>
    requires fits { length input.now < 2 ^ 32 }
    requires keeps { (first : S) × S.keeps input.now first sections.old }
    requires none { S.tokens input.now sections.old ≡ [] }
    ensures found { IfOk result (λ front. (parts : List Part) × IsText input.now parts
        × (tokens_of_items input.now front.items ++ S.tokens input.now sections.new ≡ tokens_kept keep (tokens_of parts))) }
    ensures within { IfOk result (λ front. AreItemsWithin (length input.now) front.items) }
    ensures keeps { OnOk result ((first : S) → S.keeps input.now first sections.old → S.keeps input.now first sections.new) }
    ensures refused { IfErr result (IsRefused input.now) }
{
    match read_items(alloc, input, keep, sections) {
        Ok(front) => Ok(front),
        Err(ReadError::Memory) => Err(Error::memory()),
        Err(ReadError::Fault(fault)) => Err(refusal(alloc, input, fault)),
    }
}
