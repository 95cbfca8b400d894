//! Sections as they are loaded.
ghost use Rattle.std.specs.Prelude.{◌≡◌, ◌+◌, [], ◌∷◌, ◌++◌, List, ℕ, flat_map, length, map, OnOk, IfOk};
ghost use Rattle.gitconf_items.specs.Events.{HeaderFits};
ghost use Rattle.gitconf_items.specs.ItemsFit.{AreItemsWithin};
ghost use Rattle.gitconf_state.specs.Loads.{section_tokens};
ghost use Rattle.gitconf_views.specs.Loading.{IsLoading};
ghost use Rattle.gitconf_views.specs.Store.{AllSectionsFit, section_state, loaded_section};

use gitconf_items::decode::decoded_header;
use gitconf_items::event::Header;
use gitconf_items::items::Item;
use gitconf_items::lend::subsection_name;
use gitconf_items::section_sink::SectionSink;
use gitconf_sections::sections::SectionList;
use gitconf_sources::meta::Metadata;
use gitconf_text::NoMemory;
use std::alloc::Global;
use std::rc::Rc;

/// The sections of a text that is being loaded, as far as they were read. All come from the same place.
#[derive(Drop)]
pub struct Loading {
    /// Where each of the sections comes from.
    pub meta: Rc<Metadata>,
    /// The decoded subsections of the headers that need one.
    pub copies: Vec<u8>,
    /// The sections that were read.
    pub sections: SectionList,
}

/// Before sections are read, room is made for at most one section for this many bytes.
const BYTES: usize = 32;

/// The sections of a text are estimated from this many bytes at its front.
const HEAD: usize = 4096;

/// How many sections a text may be expected to have: as many for each byte as its first bytes have brackets, but at most one for
/// each `BYTES` bytes.
fn expected_sections(text: &[u8]) -> usize {
    let head = text.split_at(text.len().min(HEAD)).0;
    let brackets = head.iter().filter(|byte| **byte == b'[').count();
    let most = text.len() / BYTES;
    match brackets.checked_mul(text.len() / HEAD + 1) {
        Some(expected) => expected.min(most),
        None => most,
    }
}

impl Loading {
    /// No sections yet. Takes no memory.
    pub fn new(alloc: Global, meta: Rc<Metadata>) -> Loading
        ensures meta { result.meta.value ≡ meta.value }
        ensures loading { (buffer : List ℕ) → IsLoading buffer meta.value result.copies.items result.sections }
        ensures none { result.sections.entries ≡ [] }
    {
        Loading {
            meta,
            copies: Vec::new(alloc),
            sections: SectionList::new(alloc),
        }
    }

    /// No sections yet, with room for those that the text may be expected to have. There is room for an eighth more, so
    /// that a section put after them copies no table.
    ///
    /// # Errors
    ///
    /// Out of memory.
    pub fn of_text(alloc: Global, text: &[u8], meta: Rc<Metadata>) -> Result<Loading, NoMemory>
        ensures meta { IfOk result (λ l. l.meta.value ≡ meta.value) }
        ensures loading { IfOk result (λ l. (buffer : List ℕ) → IsLoading buffer meta.value l.copies.items l.sections) }
        ensures none { IfOk result (λ l. l.sections.entries ≡ []) }
    {
        let mut loading = Loading::new(alloc, meta);
        let expected = expected_sections(text);
        loading
            .sections
            .reserve(expected.saturating_add(expected / 8))?;
        Ok(loading)
    }
}

/// Adds a section at the end, with nothing held after it.
fn add_section(
    buffer: &[u8],
    copies: &mut Vec<u8>,
    sections: &mut SectionList,
    header: Header,
    meta: Rc<Metadata>,
    items: &mut Vec<Item>,
) -> Result<(), NoMemory>
    requires header { HeaderFits (length buffer.now) header }
    requires items { AreItemsWithin (length buffer.now) items.old.items }
    requires fits { AllSectionsFit buffer.now copies.old.items sections.old }
    ensures fits { OnOk result (AllSectionsFit buffer.now copies.new.items sections.new) }
    ensures sections { OnOk result (map (section_state buffer.now) sections.new.entries
        ≡ map (section_state buffer.now) sections.old.entries ++ loaded_section buffer.now meta.value sections.old.next header items.old.items ∷ []) }
    ensures taken { OnOk result (items.new.items ≡ []) }
    ensures next { OnOk result (sections.new.next ≡ sections.old.next + 1) }
{
    let header = decoded_header(buffer, header, copies)?;
    let name = header.name.bytes_in(buffer);
    let subsection = subsection_name(buffer, copies, &header);
    match sections.push_loaded(name, subsection, header, meta, items) {
        Ok(_) => Ok(()),
        Err(_) => Err(NoMemory),
    }
}

/// Takes each section under the next number, with a decoded copy of its subsection if that isn't what is spelled.
impl SectionSink for Loading {
    ghost tokens = { λ buffer l. flat_map section_tokens (map (section_state buffer) l.sections.entries) };

    ghost keeps = { λ buffer first l. (l.meta.value ≡ first.meta.value) × IsLoading buffer l.meta.value l.copies.items l.sections };

    fn take(
        &mut self,
        buffer: &[u8],
        header: Header,
        items: &mut Vec<Item>,
    ) -> Result<(), NoMemory> {
        let meta = self.meta.clone()?;
        add_section(
            buffer,
            &mut self.copies,
            &mut self.sections,
            header,
            meta,
            items,
        )
    }
}
