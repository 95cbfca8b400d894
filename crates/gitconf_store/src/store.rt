//! The state of a file over one buffer.
mod append;
mod editing;
mod existing;
mod including;
mod items_edit;
mod leaving_out;
mod look_ups;
mod making;
mod push_section;
mod removing;
mod renaming;
mod reseeding;
mod several;
mod trusting;
mod values_at;
mod views;
mod weaving;

use crate::set_raw_value;
use bstr::BString;
use gitconf_body::buffer::take_back;
use gitconf_body::items_edits::SetInSection;
use gitconf_body::section::section_with;
use gitconf_items::events::ItemEvents;
use gitconf_items::few::FewItems;
use gitconf_items::items::Keep;
use gitconf_items::sink::{Sink, SinkFault};
use gitconf_lookups::filters::last_passing;
use gitconf_lookups::print::{front_is_ended, write_sections};
use gitconf_lookups::tokens;
use gitconf_parse::events::Events;
use gitconf_parse::input::{check_len, copied_with_room};
use gitconf_parse::loading::read_sections;
use gitconf_print::sections::{write_front, write_line_end_unless};
use gitconf_read::error::Error;
use gitconf_sections::sections::SectionList;
use gitconf_sources::meta::Metadata;
use gitconf_text::NoMemory;
use gitconf_text::line_end::LineEnd;
use gitconf_text::parse::section::ValueNameError;
use gitconf_text::parse::section::bytes::is_value_name;
use gitconf_text::parse::section::header::{Error as HeaderError, validate};
use gitconf_text::parse::span;
use gitconf_views::load::Loading;
use gitconf_views::section::{SectionRef, Sections, shared};
use std::alloc::Global;
use std::marker::Model;
use std::rc::Rc;

/// A file: its front, its sections, and the buffer that their spans are offsets of.
pub struct Store {
    buffer: Vec<u8>,
    /// The decoded subsections of the headers that need one.
    copies: Vec<u8>,
    front: FewItems,
    meta: Rc<Metadata>,
    sections: SectionList,
}

impl Drop for Store {
    // By hand, so that each way out of a function is one call: a derived one is proved there part by part.
    fn drop(self) {
        let Store {
            buffer,
            copies,
            front,
            meta,
            sections,
        } = self;
        drop((buffer, copies, front, meta, sections));
    }
}

impl Model for Store {
    ghost use Rattle.gitconf_state.specs.State.{State};
    ghost use Rattle.gitconf_views.specs.Store.{state_of, StoreFits};

    ghost Value = { State };

    ghost view = { λ s. state_of s.buffer.items s.front.items s.meta.value s.sections };

    ghost invariant = { λ s. StoreFits s.buffer.items s.copies.items s.front.items s.meta.value s.sections };
}

impl Store {
    ghost use Rattle.std.specs.Fn.{ComputesKey};
    ghost use Rattle.std.specs.List.{list_any};
    ghost use Rattle.std.specs.Option.{option_copied};
    ghost use Rattle.std.specs.Prelude.{◌≡◌, ◌==◌, ◌+◌, ◌-◌, ◌≤◌, ◌<◌, ◌^◌, ◌↔◌, [], length, min, false, IfOk, IsErrAnd, IsErrOf, IfSome, OnOk, OnErr, option_map, slice_get, true, List, filter, IfErr, map, Bool, ℕ};
    ghost use Rattle.bstr.specs.Owned.{bstring_bytes};
    ghost use Rattle.gitconf_text.specs.Document.{IsText, Reads, unmarked};
    ghost use Rattle.gitconf_text.specs.HeaderErrors.{header_number};
    ghost use Rattle.gitconf_text.specs.Names.{is_made_name, is_valid_or_none, is_value_name};
    ghost use Rattle.gitconf_text.specs.Part.{Part};
    ghost use Rattle.gitconf_text.specs.Token.{tokens_of, spelled_token};
    ghost use Rattle.gitconf_sources.specs.Metadata.{Meta};
    ghost use Rattle.gitconf_items.specs.EventList.{keeps_token, IsSelected, IsWhole};
    ghost use Rattle.gitconf_read.specs.EventResult.{IsRefused};
    ghost use Rattle.gitconf_items.specs.ItemsFit.{AreItemsWithin};
    ghost use Rattle.gitconf_items.specs.ShownEvents.{shown_token};
    ghost use Rattle.gitconf_items.specs.Sink.{Writes, Counts};
    ghost use Rattle.gitconf_items.specs.TokenDocument.{keeps_meaning, tokens_kept};
    ghost use Rattle.gitconf_body.specs.Places.{IsLastPlace};
    ghost use Rattle.gitconf_state.specs.Clean.{IsClean};
    ghost use Rattle.gitconf_state.specs.Comments.{comments, comments_of, comments_of_kept};
    ghost use Rattle.gitconf_state.specs.Edit.{is_target, new_section_bytes, old_value, set_bytes, with_used};
    ghost use Rattle.gitconf_state.specs.Inserted.{Inserted, IsByteForByte};
    ghost use Rattle.gitconf_state.specs.LineEnds.{file_line_end};
    ghost use Rattle.gitconf_state.specs.Lookup.{is_named, listing};
    ghost use Rattle.gitconf_state.specs.Printing.{printed, printed_kept};
    ghost use Rattle.gitconf_state.specs.State.{HasItems, IsState, State, document_of, document_of_kept, entries_of, SectionState};
    ghost use Rattle.gitconf_items.specs.Items.{tokens_in};
    ghost use Rattle.gitconf_text.specs.LineEnds.{bytes_of_line_end};
    ghost use Rattle.gitconf_views.specs.Counts.{are_void, section_entries};
    ghost use Rattle.gitconf_store.specs.Edits as edits;
    ghost use Rattle.gitconf_store.specs.Edits.{UsedGrows};
    ghost use Rattle.gitconf_store.specs.SetSomewhere.{IsSetSomewhere};
    ghost use Rattle.gitconf_store.specs.Edited.{IsEdited, made_causes};
    ghost use Rattle.gitconf_store.specs.SetErrors.{set_refusal};
    ghost use Rattle.gitconf_store.specs.declared.set_raw_value.Error.TheVariants.{ValueName};
    ghost use Rattle.gitconf_state.specs.Edits as states;
    ghost use Rattle.gitconf_state.specs.Edits.{Raw, SetRawValue};
    ghost use Rattle.gitconf_body.specs.Done.{IsRefusedFor, first_cause};
    ghost use Rattle.gitconf_body.specs.Refusals.{header_refusal};
    ghost use Rattle.gitconf_items.specs.ItemEvents.{events_left};
    ghost use Rattle.gitconf_state.specs.Made.{IsMade};
    ghost use Rattle.gitconf_views.specs.Loading.{IsLoading};
    ghost use Rattle.gitconf_views.specs.Store.{state_of};
    ghost use Rattle.gitconf_views.specs.Texts.{IsTextOfSomeSections};
    ghost use Rattle.gitconf_views.specs.Views.{sections_left, shown};

    /// A file without front and sections. Takes no memory.
    pub fn new(alloc: Global, meta: Rc<Metadata>) -> Store
        ensures { result ≡ record { front = []; meta = meta.value; next = 0; used = 0; sections = [] } }
    {
        Store {
            buffer: Vec::new(alloc),
            copies: Vec::new(alloc),
            front: FewItems::new(alloc),
            meta,
            sections: SectionList::new(alloc),
        }
    }

    /// The state of a text that was loaded: what comes before its first header, and its sections.
    fn of_loading(buffer: Vec<u8>, front: FewItems, loading: Loading) -> Store
        requires room { length buffer.items < 2 ^ 32 }
        requires front { AreItemsWithin (length buffer.items) front.items }
        requires loading { IsLoading buffer.items loading.meta.value loading.copies.items loading.sections }
        requires items { HasItems (state_of buffer.items front.items loading.meta.value loading.sections) }
        ensures { result ≡ state_of buffer.items front.items loading.meta.value loading.sections }
    {
        let Loading {
            meta,
            copies,
            sections,
        } = loading;
        Store {
            buffer,
            copies,
            front,
            meta,
            sections,
        }
    }

    /// The state of a text's events, all of them or those a filter kept. It has the text's front, and its sections
    /// numbered from 0, each from `meta`. What the filter dropped is not in it.
    ///
    /// It requires that all names, separators and values were kept ([`Events::keeps_entries`]). One pass; the text becomes the
    /// buffer, and of it only the names and subsections of sections are copied.
    ///
    /// # Errors
    ///
    /// E27 when out of memory.
    pub fn from_events(alloc: Global, events: Events, meta: Rc<Metadata>) -> Result<Store, NoMemory>
        requires { events.keeps_entries ≡ true }
        ensures made { IfOk result (λ s. IsMade events.tokens meta.value events.used s) }
        ensures document { IfOk result (λ s. (text : List ℕ) → IsSelected text events → Reads text (document_of s)) }
        ensures clean { IfOk result (λ s. entries_of s.front ≡ [] → IsClean s) }
        // If nothing was dropped, the state is clean, and its text is the one that was parsed, except for inserted line endings.
        ensures whole_clean { IfOk result (λ s. (text : List ℕ) → IsWhole text events → IsClean s) }
        ensures inserted { IfOk result (λ s. (text : List ℕ) (parts : List Part) → IsWhole text events → IsText text parts
            → Inserted (map spelled_token (tokens_of parts)) (printed s)) }
        ensures byte_for_byte { IfOk result (λ s. (text : List ℕ) (parts : List Part) → IsWhole text events → IsText text parts
            → IsByteForByte parts → printed s ≡ unmarked text) }
    {
        prove!(events.keeps_entries());
        let mut loading = Loading::new(alloc, meta);
        let (buffer, front) = events.into_sections(alloc, &mut loading)?;
        Ok(Store::of_loading(buffer, front, loading))
    }

    /// The state of what is kept of a text: its front, and its sections numbered from 0, each from `meta`. The text becomes
    /// the buffer. One pass, section by section.
    ///
    /// # Errors
    ///
    /// Those of [`Store::from_text`].
    fn of_text(alloc: Global, text: Vec<u8>, keep: Keep, meta: Rc<Metadata>) -> Result<Store, Error>
        ensures made { IfOk result (λ s. (parts : List Part) × IsText text.items parts
            × IsMade (tokens_kept keep (tokens_of parts)) meta.value (length text.items) s) }
        ensures refused { IfErr result (IsRefused text.items) }
    {
        check_len(text.len())?;
        let mut loading = Loading::of_text(alloc, &text, meta)?;
        let front = read_sections(alloc, &text, keep, &mut loading)?;
        Ok(Store::of_loading(text, front, loading))
    }

    /// The state of a text, all of it: its front, and its sections numbered from 0, each from `meta`. The text becomes
    /// the buffer. One pass, section by section.
    ///
    /// # Errors
    ///
    /// E1 if the text has no document, with the line and the data from where it can't be read on; E2 for more than
    /// 4294967295 bytes; E27 when out of memory.
    pub fn from_text(alloc: Global, text: Vec<u8>, meta: Rc<Metadata>) -> Result<Store, Error>
        ensures made { IfOk result (λ s. (parts : List Part) × IsText text.items parts × IsMade (tokens_of parts) meta.value (length text.items) s) }
        ensures document { IfOk result (λ s. Reads text.items (document_of s)) }
        ensures clean { IfOk result IsClean }
        // Printed, it is the text with line endings inserted; and the text itself, apart from its mark, if it needs none.
        ensures inserted { IfOk result (λ s. (parts : List Part) → IsText text.items parts → Inserted (map spelled_token (tokens_of parts)) (printed s)) }
        ensures byte_for_byte { IfOk result (λ s. (parts : List Part) → IsText text.items parts → IsByteForByte parts → printed s ≡ unmarked text.items) }
        ensures refused { IfErr result (IsRefused text.items) }
    {
        Store::of_text(alloc, text, Keep::All, meta)
    }

    /// The state of a text without its blanks, line endings and comments. It has the same document. The text becomes the buffer. One
    /// pass, section by section; no memory is taken for what isn't kept.
    ///
    /// # Errors
    ///
    /// Those of [`Store::from_text`].
    pub fn from_text_lossy(alloc: Global, text: Vec<u8>, meta: Rc<Metadata>) -> Result<Store, Error>
        ensures made { IfOk result (λ s. (parts : List Part) × IsText text.items parts
            × IsMade (filter (keeps_token keeps_meaning) (tokens_of parts)) meta.value (length text.items) s) }
        ensures document { IfOk result (λ s. Reads text.items (document_of s)) }
        ensures clean { IfOk result (λ s. entries_of s.front ≡ [] → IsClean s) }
        ensures refused { IfErr result (IsRefused text.items) }
    {
        Store::of_text(alloc, text, Keep::Meaning, meta)
    }

    /// Like [`Store::from_text`], but of a copy of the text. The copy has some room after the text, so that the first edits
    /// copy nothing.
    ///
    /// # Errors
    ///
    /// Those of [`Store::from_text`].
    pub fn from_bytes(alloc: Global, input: &[u8], meta: Rc<Metadata>) -> Result<Store, Error>
        ensures made { IfOk result (λ s. (parts : List Part) × IsText input.now parts × IsMade (tokens_of parts) meta.value (length input.now) s) }
        ensures document { IfOk result (λ s. Reads input.now (document_of s)) }
        ensures clean { IfOk result IsClean }
        // Printed, it is the text with line endings inserted; and the text itself, apart from its mark, if it needs none.
        ensures inserted { IfOk result (λ s. (parts : List Part) → IsText input.now parts → Inserted (map spelled_token (tokens_of parts)) (printed s)) }
        ensures byte_for_byte { IfOk result (λ s. (parts : List Part) → IsText input.now parts → IsByteForByte parts → printed s ≡ unmarked input.now) }
        ensures refused { IfErr result (IsRefused input.now) }
    {
        check_len(input.len())?;
        let text = copied_with_room(alloc, input)?;
        Store::from_text(alloc, text, meta)
    }

    /// Like [`Store::from_text_lossy`], but of such a copy as [`Store::from_bytes`] makes.
    ///
    /// # Errors
    ///
    /// Those of [`Store::from_text`].
    pub fn from_bytes_lossy(alloc: Global, input: &[u8], meta: Rc<Metadata>) -> Result<Store, Error>
        ensures made { IfOk result (λ s. (parts : List Part) × IsText input.now parts
            × IsMade (filter (keeps_token keeps_meaning) (tokens_of parts)) meta.value (length input.now) s) }
        ensures document { IfOk result (λ s. Reads input.now (document_of s)) }
        ensures clean { IfOk result (λ s. entries_of s.front ≡ [] → IsClean s) }
        ensures refused { IfErr result (IsRefused input.now) }
    {
        check_len(input.len())?;
        let text = copied_with_room(alloc, input)?;
        Store::from_text_lossy(alloc, text, meta)
    }

    /// A copy of the state, with a buffer of its own; metadata is shared. Each byte and each item is copied once.
    ///
    /// # Errors
    ///
    /// E27 when out of memory.
    pub fn try_clone(&self) -> Result<Store, NoMemory>
        ensures { IfOk result (λ s. s ≡ self.now) }
    {
        let buffer = self.buffer.clone()?;
        let copies = self.copies.clone()?;
        let front = self.front.clone()?;
        let meta = self.meta.clone()?;
        let sections = self.sections.try_clone()?;
        Ok(Store {
            buffer,
            copies,
            front,
            meta,
            sections,
        })
    }

    /// Where the file comes from.
    pub fn meta(&self) -> &Metadata
        ensures { result.now ≡ self.now.meta }
    {
        &self.meta
    }

    /// Where memory for what the store keeps comes from.
    pub fn allocator(&self) -> Global {
        *self.buffer.allocator()
    }

    /// `File::meta_owned` of `gix_config` is this call, and says what it does.
    pub fn meta_owned(&self) -> Result<Rc<Metadata>, NoMemory>
        ensures { IfOk result (λ m. m.value ≡ self.now.meta) }
    {
        shared(&self.meta)
    }

    /// Sets where the file, and each section that is made from now on, comes from. Existing sections keep theirs.
    pub fn set_meta(&mut self, meta: Rc<Metadata>)
        ensures { self.new ≡ record self.old { meta = meta.value } }
    {
        self.meta = meta;
    }

    /// The line ending that the file uses: that of the first newline of its front, otherwise of its sections' bodies in
    /// order, including those within values; LF if there is none. What is held after sections doesn't count.
    pub fn line_end(&self) -> LineEnd
        ensures { bytes_of_line_end result ≡ file_line_end self.now }
    {
        tokens::file_line_end(&self.buffer, &self.front, self.sections())
    }

    /// The line ending that the file uses, LF or CR LF: that of the first newline of its front, otherwise of its
    /// sections' bodies in order, including those within values; LF if there is none. Takes no memory.
    pub fn detect_newline_style(&self) -> &'static [u8]
        ensures { result.now ≡ file_line_end self.now }
    {
        self.line_end().as_bytes()
    }

    /// Whether all bodies are empty. Takes no memory.
    pub fn is_void(&self) -> bool
        ensures { result ≡ are_void self.now.sections }
    {
        tokens::are_void(self.sections())
    }

    /// How many entries the sections have, or `usize::MAX` if there are more. Those of the front don't count. Takes no memory,
    /// and a walk over all.
    pub fn num_values(&self) -> usize
        ensures { result ≡ min (length (section_entries self.now.sections)) (2 ^ 64 - 1) }
    {
        tokens::value_count(self.sections())
    }

    /// `File::write_to_filter` of `gix_config` is this call, and says what it does.
    #[tactic(auto, using(gitconf_state::proofs::Printing::ReadsBack::kept_reads_back, gitconf_parse::proofs::CommentLaws::kept_comments))]
    pub fn write_to_filter<W: Sink, F: FnMut(&SectionRef<'_>) -> bool>(
        &self,
        out: &mut W,
        filter: F,
    ) -> Result<(), SinkFault>
        requires { F.IsAlwaysCallable filter }
        // For a filter whose result depends only on what it is shown.
        ensures exact { (keeps : SectionState → Bool) → ComputesKey F.FnMut (λ r. keeps (shown r)) filter
            → Writes result (printed_kept keeps self.now) (W.told out.old) (W.told out.new) }
        ensures reads { (keeps : SectionState → Bool) → IsClean self.now → Reads (printed_kept keeps self.now) (document_of_kept keeps self.now) }
        ensures comments { (keeps : SectionState → Bool) → IsClean self.now
            → (parts : List Part) → IsText (printed_kept keeps self.now) parts → comments_of parts ≡ comments_of_kept keeps self.now }
        // For any filter, even one that changes its mind.
        ensures some { (text : List ℕ) × IsTextOfSomeSections self.now text × Writes result text (W.told out.old) (W.told out.new) }
        ensures counted { Counts result (W.faults out.old) (W.faults out.new) }
    {
        let mut filter = filter;
        let line_end = self.line_end();
        write_front(out, &self.buffer, &self.front, line_end)?;
        let ended = front_is_ended(
            &self.buffer,
            &self.front,
            self.sections(),
            line_end,
            &mut filter,
        );
        write_line_end_unless(out, ended, line_end)?;
        write_sections(out, self.sections(), line_end, &mut filter)
    }

    /// `File::write_to` of `gix_config` is this call, and says what it does.
    #[tactic(auto, using(std::proofs::lemmas::Fn::always_returns_same, gitconf_state::proofs::Printing::ReadsBack::all_reads_back, gitconf_parse::proofs::CommentLaws::all_comments))]
    pub fn write_to<W: Sink>(&self, out: &mut W) -> Result<(), SinkFault>
        ensures written { Writes result (printed self.now) (W.told out.old) (W.told out.new) }
        ensures reads { IsClean self.now → Reads (printed self.now) (document_of self.now) }
        ensures comments { IsClean self.now → (parts : List Part) → IsText (printed self.now) parts → comments_of parts ≡ comments self.now }
        ensures counted { Counts result (W.faults out.old) (W.faults out.new) }
    {
        self.write_to_filter(out, |_| true)
    }

    /// `File::to_bstring` of `gix_config` is this call, and says what it does.
    #[tactic(auto, using(crate::proofs::Texts::ReadBack::text_reads, crate::proofs::Texts::ReadBack::text_comments))]
    pub fn to_bstring(&self) -> Result<BString, NoMemory>
        ensures text { IfOk result (λ text. bstring_bytes text ≡ printed self.now) }
        ensures reads { IsClean self.now → IfOk result (λ text. Reads (bstring_bytes text) (document_of self.now)) }
        ensures comments { IsClean self.now → IfOk result (λ text. (parts : List Part) → IsText (bstring_bytes text) parts
            → comments_of parts ≡ comments self.now) }
    {
        let alloc = *self.buffer.allocator();
        let mut text = Vec::with_capacity(alloc, self.buffer.len())?;
        match self.write_to(&mut text) {
            Ok(()) => Ok(BString::new(text)),
            Err(_) => Err(NoMemory),
        }
    }

    /// The events of what comes before the first section, in order.
    pub fn front(&self) -> ItemEvents<'_>
        ensures { events_left result ≡ map shown_token (tokens_in self.now.front) }
    {
        ItemEvents::over(&self.buffer, &self.front)
    }

    /// The sections in file order.
    #[tactic(auto, using(gitconf_views::proofs::Viewing::sections_viewed))]
    pub fn sections(&self) -> Sections<'_>
        ensures left { sections_left result ≡ self.now.sections }
        // What holds of every file, whatever was done to it.
        ensures state { IsState self.now }
    {
        Sections {
            buffer: &self.buffer,
            copies: &self.copies,
            sections: self.sections.iter(),
        }
    }

    /// The place of the last section of the name and subsection whose metadata passes, if there is one. Takes a walk over the
    /// sections of these names, from the last one up to that one, and no memory.
    fn last_target<F: FnMut(&Metadata) -> bool>(
        &self,
        section_name: &str,
        subsection_name: Option<&[u8]>,
        filter: F,
    ) -> Option<usize>
        requires { F.IsAlwaysCallable filter }
        ensures within { IfSome result (λ at. at < length self.now.sections) }
        ensures named { IfSome result (λ at. option_map (λ s. is_named section_name.now (option_copied subsection_name.entry) (listing s))
            (slice_get self.now.sections at) ≡ Some true) }
        ensures exact { (keeps : Meta → Bool) → ComputesKey F.FnMut keeps filter
            → IsLastPlace (is_target section_name.now (option_copied subsection_name.entry) keeps) self.now.sections result }
    {
        let sections = self.sections_named(section_name, subsection_name);
        let Some(section) = last_passing(sections, filter) else {
            return None;
        };
        self.sections.position(section.id)
    }

    /// Sets the value in the section at a place.
    fn set_at(
        &mut self,
        at: usize,
        key: &[u8],
        value: &[u8],
    ) -> Result<Option<Vec<u8>>, span::Error>
        requires at { at < length self.old.sections }
        requires key { is_value_name key.now ≡ true }
        ensures ok { OnOk result (self.new ≡ with_used self.new.used (edits.set_at at key.now value.now self.old)) }
        ensures old { IfOk result (λ o. IfSome (slice_get self.old.sections at) (λ s. option_map (λ v. v.items) o ≡ old_value key.now s.items)) }
        ensures err { OnErr result (self.new ≡ self.old) }
        ensures used { IfSome (slice_get self.old.sections at) (λ s. UsedGrows result (set_bytes (file_line_end self.old) key.now value.now s.items)
            self.old.used self.new.used) }
    {
        let line_end = self.line_end();
        let value = SetInSection {
            line_end,
            key,
            value,
        };
        self.edit_items_at(at, &value)?
    }

    /// Makes a section with the value, after all others.
    fn set_in_new(
        &mut self,
        section_name: &str,
        subsection_name: Option<&[u8]>,
        key: &[u8],
        value: &[u8],
    ) -> Result<(), HeaderError>
        requires key { is_value_name key.now ≡ true }
        ensures ok { OnOk result (self.new ≡ with_used self.new.used (edits.set_new section_name.now (option_copied subsection_name.entry) key.now
            value.now self.old)) }
        ensures err { OnErr result (self.new ≡ self.old) }
        ensures put { OnOk result (self.new.used ≡ self.old.used
            + new_section_bytes (file_line_end self.old) section_name.now (option_copied subsection_name.entry) key.now value.now) }
        ensures told { IsRefusedFor header_refusal (first_cause (made_causes section_name.now (option_copied subsection_name.entry)
            (new_section_bytes (file_line_end self.old) section_name.now (option_copied subsection_name.entry) key.now value.now) self.old)) result }
    {
        validate(section_name.as_bytes(), subsection_name)?;
        if self.sections.numbers_left() == 0 {
            return Err(HeaderError::Span(span::Error::too_large()));
        }
        let line_end = self.line_end();
        let len = self.buffer.len();
        let section = section_with(
            &mut self.buffer,
            &mut self.copies,
            line_end,
            section_name.as_bytes(),
            subsection_name,
            key,
            value,
        )?;
        let meta = take_back(shared(&self.meta), &mut self.buffer, len)?;
        let pushed = self.sections.push(
            section_name.as_bytes(),
            subsection_name,
            section.header,
            meta,
            section.items,
        );
        take_back(pushed, &mut self.buffer, len)?;
        Ok(())
    }

    /// `File::set_raw_value_filter_by` of `gix_config` is this call, and says what it does.
    pub fn set_raw_value_filter_by<F: FnMut(&Metadata) -> bool>(
        &mut self,
        section_name: &str,
        subsection_name: Option<&[u8]>,
        value_name: &str,
        new_value: &[u8],
        filter: F,
    ) -> Result<Option<BString>, set_raw_value::Error>
        requires { F.IsAlwaysCallable filter }
        // For a filter whose result depends only on what it is shown.
        ensures exact { (keeps : Meta → Bool) → ComputesKey F.FnMut keeps filter
            → IsEdited set_refusal (SetRawValue section_name.now (option_copied subsection_name.entry) value_name.now keeps new_value.now)
            result self.old self.new }
        ensures answer { (keeps : Meta → Bool) → ComputesKey F.FnMut keeps filter
            → IfOk result (λ o. Raw (option_map bstring_bytes o)
            ≡ states.answer (SetRawValue section_name.now (option_copied subsection_name.entry) value_name.now keeps new_value.now) self.old) }
        // For any filter, even one that changes its mind.
        ensures somewhere { IsSetSomewhere section_name.now (option_copied subsection_name.entry) value_name.now new_value.now result self.old self.new }
    {
        let key = value_name.as_bytes();
        if !is_value_name(key) {
            return Err(set_raw_value::Error::ValueName(ValueNameError::invalid()));
        }
        let Some(at) = self.last_target(section_name, subsection_name, filter) else {
            self.set_in_new(section_name, subsection_name, key, new_value)?;
            return Ok(None);
        };
        match self.set_at(at, key, new_value)? {
            Some(old) => Ok(Some(BString::new(old))),
            None => Ok(None),
        }
    }

    /// `File::set_raw_value_by` of `gix_config` is this call, and says what it does.
    #[tactic(auto, using(std::proofs::lemmas::Fn::always_returns_same))]
    pub fn set_raw_value_by(
        &mut self,
        section_name: &str,
        subsection_name: Option<&[u8]>,
        value_name: &str,
        new_value: &[u8],
    ) -> Result<Option<BString>, set_raw_value::Error>
        ensures exact { IsEdited set_refusal (SetRawValue section_name.now (option_copied subsection_name.entry) value_name.now (λ _. true) new_value.now)
            result self.old self.new }
        ensures answer { IfOk result (λ o. Raw (option_map bstring_bytes o)
            ≡ states.answer (SetRawValue section_name.now (option_copied subsection_name.entry) value_name.now (λ _. true) new_value.now) self.old) }
    {
        self.set_raw_value_filter_by(
            section_name,
            subsection_name,
            value_name,
            new_value,
            |_| true,
        )
    }
}
