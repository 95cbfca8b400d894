//! Sections as a store keeps them, and views of them.
ghost use Rattle.std.specs.Prelude.{◌≡◌, IfOk};
ghost use Rattle.gitconf_sections.specs.Section.{seen_as};
ghost use Rattle.gitconf_sections.specs.Walks as walks;
ghost use Rattle.gitconf_views.specs.Viewed.{AreViewed, AreViewed-prop, IsViewed, IsViewed-prop};

use crate::tables::view_of;
use bstr::BString;
use gitconf_body::blanks::Blanks;
use gitconf_body::meanings::entry_meaning;
use gitconf_items::event::Header;
use gitconf_items::events::ItemEvents;
use gitconf_items::items::Item;
use gitconf_items::sink::{Sink, SinkFault};
use gitconf_print::line_end as items;
use gitconf_print::sections::{write_held, write_section};
use gitconf_sections::id::SectionId;
use gitconf_sections::sections::walks::Iter;
use gitconf_sources::meta::Metadata;
use gitconf_sources::source::Trust;
use gitconf_text::NoMemory;
use gitconf_text::line_end::LineEnd;
use std::alloc::Global;
use std::rc::Rc;

/// A section that has a list of its own for its items: its header, where it comes from, and its body.
#[derive(Clone, Drop)]
pub struct Section {
    /// The section's header.
    pub header: Header,
    /// Where the section comes from.
    pub meta: Rc<Metadata>,
    /// The items of its body.
    pub items: Vec<Item>,
}

/// The same metadata, with one more owner.
///
/// # Errors
///
/// The count of owners is at its limit, which counts as out of memory.
pub fn shared(meta: &Rc<Metadata>) -> Result<Rc<Metadata>, NoMemory>
    ensures { IfOk result (λ owned. owned.value ≡ meta.now.value) }
{
    Ok(meta.clone()?)
}

/// The same metadata with another trust, with one owner.
pub fn trusted(alloc: Global, meta: &Metadata, trust: Trust) -> Result<Rc<Metadata>, NoMemory>
    ensures { IfOk result (λ owned. owned.value ≡ record meta.now { trust = trust }) }
{
    let meta = meta.try_clone()?.with(trust);
    Ok(Rc::new(alloc, meta)?)
}

/// A view of a section.
#[derive(Clone, Copy)]
pub struct SectionRef<'a> {
    /// Where memory for results comes from.
    pub alloc: Global,
    /// The buffer that its spans are offsets of.
    pub buffer: &'a [u8],
    /// The decoded subsections of the headers that need one.
    pub copies: &'a [u8],
    /// The section's number in its file.
    pub id: SectionId,
    /// The section's header.
    pub header: &'a Header,
    /// Where the section comes from.
    pub meta: &'a Rc<Metadata>,
    /// The items of its body.
    pub items: &'a [Item],
    /// The items held after it.
    pub held: &'a [Item],
    ghost viewed: { IsViewed buffer.now copies.now (seen_as header.now meta.now items.now held.now) } by { IsViewed-prop buffer.now copies.now (seen_as header.now meta.now items.now held.now) },
}

impl<'a> SectionRef<'a> {
    ghost use Rattle.std.specs.Prelude.{◌≡◌, [], ◌∷◌, map, IfOk};
    ghost use Rattle.bstr.specs.Owned.{bstring_bytes};
    ghost use Rattle.gitconf_text.specs.Document.{Reads};
    ghost use Rattle.gitconf_items.specs.ShownEvents.{shown_token};
    ghost use Rattle.gitconf_items.specs.Sink.{Writes, Counts};
    ghost use Rattle.gitconf_state.specs.Clean.{IsCleanSection};
    ghost use Rattle.gitconf_state.specs.Edit.{spacing_of};
    ghost use Rattle.gitconf_state.specs.Printing.{printed_section, ends_with_line};
    ghost use Rattle.gitconf_state.specs.State.{SectionState, section_document};
    ghost use Rattle.gitconf_items.specs.Items.{tokens_in};
    ghost use Rattle.gitconf_text.specs.LineEnds.{bytes_of_line_end};
    ghost use Rattle.gitconf_items.specs.ItemEvents.{events_left};
    ghost use Rattle.gitconf_sources.specs.Found.{IsFound};
    ghost use Rattle.gitconf_views.specs.ItemMeanings.{meaning_at};
    ghost use Rattle.gitconf_views.specs.Texts.{whole_text};
    ghost use Rattle.gitconf_views.specs.Views.{shown};

    /// The section's number in its file.
    pub fn id(&self) -> SectionId
        ensures { result ≡ (shown self.now).number }
    {
        self.id
    }

    /// Where the section comes from.
    pub fn meta(&self) -> &'a Metadata
        ensures { result.now ≡ (shown self.now).meta }
    {
        self.meta
    }

    /// The events of its body, in order.
    pub fn events(&self) -> ItemEvents<'a>
        ensures { events_left result ≡ map shown_token (tokens_in (shown self.now).items) }
    {
        ItemEvents::over(self.buffer, self.items)
    }

    /// The events of what is held after it, in order.
    pub fn held_events(&self) -> ItemEvents<'a>
        ensures { events_left result ≡ map shown_token (tokens_in (shown self.now).held) }
    {
        ItemEvents::over(self.buffer, self.held)
    }

    /// The blanks that its body uses, with memory of their own. One walk over its items.
    ///
    /// # Errors
    ///
    /// Out of memory.
    pub fn blanks(&self) -> Result<Blanks, NoMemory>
        ensures { IfOk result (λ blanks. blanks ≡ spacing_of (shown self.now).items) }
    {
        Blanks::of_items(self.alloc, self.buffer, self.items)
    }

    /// What the entry at a place among the items of the body means. The place is counted in items from 0. Without `=`
    /// the meaning is empty. `None` if no entry is there.
    ///
    /// # Errors
    ///
    /// Out of memory for the result, only if there is an entry.
    pub fn meaning_at(&self, place: usize) -> Result<Option<BString>, NoMemory>
        ensures { IsFound bstring_bytes result (meaning_at place (shown self.now).items) }
    {
        let Some(Item::Entry(entry)) = self.items.get(place) else {
            return Ok(None);
        };
        let text = entry_meaning(self.alloc, self.buffer, entry)?;
        Ok(Some(text))
    }

    /// Writes the section alone: its header and its body, with a line ending inserted where two of its parts would otherwise
    /// run together. What is held after it isn't written. One pass, which takes no memory of its own.
    ///
    /// # Errors
    ///
    /// A write failed, or took nothing. It is not tried again, and a beginning of the section may have been written.
    #[tactic(auto, using(crate::proofs::Texts::printed_texts))]
    pub fn write_to<W: Sink>(&self, out: &mut W) -> Result<(), SinkFault>
        ensures written { Writes result (printed_section (shown self.now)) (W.told out.old) (W.told out.new) }
        ensures counted { Counts result (W.faults out.old) (W.faults out.new) }
    {
        write_section(out, self.buffer, self.header, self.items)
    }

    /// The section alone, as [`SectionRef::write_to`] writes it. Takes memory for the text as it grows.
    ///
    /// # Errors
    ///
    /// Out of memory.
    #[tactic(auto, using(crate::proofs::SectionReads::section_text_reads))]
    pub fn to_bstring(&self) -> Result<BString, NoMemory>
        ensures text { IfOk result (λ text. bstring_bytes text ≡ printed_section (shown self.now)) }
        // What is held after it is not part of the text.
        ensures reads { let alone : SectionState = record (shown self.now) { held = [] } in IsCleanSection alone
            → IfOk result (λ text. Reads (bstring_bytes text) (record { front = []; sections = section_document (shown self.now) ∷ [] })) }
    {
        let mut text = Vec::new(self.alloc);
        match self.write_to(&mut text) {
            Ok(()) => Ok(BString::new(text)),
            Err(_) => Err(NoMemory),
        }
    }

    /// Writes the section, and what is held after it.
    #[tactic(auto, using(gitconf_items::proofs::SinkLaws::in_turn, crate::proofs::Texts::printed_texts))]
    pub fn write_whole<W: Sink>(&self, out: &mut W, line_end: LineEnd) -> Result<(), SinkFault>
        ensures written { Writes result (whole_text (bytes_of_line_end line_end) (shown self.now)) (W.told out.old) (W.told out.new) }
        ensures counted { Counts result (W.faults out.old) (W.faults out.new) }
    {
        self.write_to(out)?;
        write_held(out, self.buffer, self.items, self.held, line_end)
    }

    /// Whether the section ends with a line ending, with what is held after it.
    #[tactic(auto, using(crate::proofs::Texts::printed_texts))]
    pub fn ends_with_line(&self, line_end: LineEnd) -> bool
        ensures { result ≡ ends_with_line (bytes_of_line_end line_end) (shown self.now) }
    {
        items::ends_with_line(self.buffer, self.items, self.held, line_end)
    }
}

/// The sections of a file in order: `Store::sections`.
#[derive(Drop)]
pub struct Sections<'a> {
    /// The buffer that all spans are offsets of.
    pub buffer: &'a [u8],
    /// The decoded subsections of the headers that need one.
    pub copies: &'a [u8],
    /// What is left of the walk over the table.
    pub sections: Iter<'a>,
    ghost viewed: { AreViewed buffer.now copies.now (walks.sections_left sections) } by { AreViewed-prop buffer.now copies.now (walks.sections_left sections) },
}

impl<'a> Iterator for Sections<'a> {
    type Item = SectionRef<'a>;

    ghost use Rattle.std.specs.Iterator.{YieldsFirstBy, item_count};
    ghost use Rattle.gitconf_views.specs.Views.{shown, sections_left};

    ghost next_gives = { YieldsFirstBy shown sections_left };

    ghost remaining = { item_count sections_left };

    fn next(&mut self) -> Option<SectionRef<'a>> {
        match self.sections.next() {
            Some((id, section)) => Some(view_of(self.buffer, self.copies, id, section)),
            None => None,
        }
    }
}
