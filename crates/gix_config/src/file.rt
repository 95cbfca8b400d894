//! A file of git's configuration in memory.
ghost use Rattle.std.specs.Prelude.{◌≡◌, IfOk};

mod all_values;
mod appending;
mod debug;
mod existing;
mod impls;
pub mod init;
mod look_ups;
pub mod multi_value_mut;
mod numbered;
mod removing;
mod renaming;
mod reseeding;
mod resolving;
pub mod section;
pub mod section_mut;
pub mod sections;
mod typed;
pub mod value_mut;
mod values;
mod white_space;

use bstr::BString;
pub use gitconf_includes::includes;
pub use gitconf_items::events::ItemEvents;
use gitconf_items::sink::{Sink, SinkFault};
use gitconf_parse::events::Events;
use gitconf_parse::input::check_len;
use gitconf_read::error::Error;
pub use gitconf_sections::id::SectionId;
use gitconf_sources::key::AsKey;
pub use gitconf_sources::meta::Metadata;
use gitconf_store::store::Store;
pub use gitconf_store::{rename_section, set_raw_value};
use gitconf_text::NoMemory;
pub use gitconf_views::detached::Section;
pub use gitconf_views::detached::editor::DetachedSectionMut;
pub use gitconf_views::section::{SectionRef, Sections};
pub use multi_value_mut::MultiValueMut;
pub use section_mut::SectionMut;
use std::alloc::Global;
use std::marker::Model;
use std::rc::Rc;
pub use value_mut::ValueMut;
pub use white_space::is_whitespace;

/// The metadata with one owner, which may share it.
fn shared(alloc: Global, meta: Metadata) -> Result<Rc<Metadata>, NoMemory>
    ensures { IfOk result (λ owned. owned.value ≡ meta) }
{
    Ok(Rc::new(alloc, meta)?)
}

/// A file of git's configuration: what comes before its first section, and its sections in order.
#[derive(Drop)]
pub struct File {
    store: Store,
}

impl Model for File {
    ghost use Rattle.gitconf_state.specs.State.{State};

    ghost Value = { State };

    ghost view = { λ f. f.store };
}

impl File {
    ghost use Rattle.std.specs.Fn.{ComputesKey};
    ghost use Rattle.std.specs.Option.{option_copied};
    ghost use Rattle.std.specs.Prelude.{◌≡◌, ◌-◌, ◌<◌, ◌^◌, ℕ, Bool, [], List, true, length, map, min, option_map, IfOk, IfErr, IfSome, ◌↔◌, false, IsErrOf, IsNone, IsSome, OnErr, OnOk};
    ghost use Rattle.bstr.specs.Owned.{bstring_bytes};
    ghost use Rattle.gitconf_text.specs.Document.{IsText, Reads, unmarked};
    ghost use Rattle.gitconf_text.specs.Part.{Part};
    ghost use Rattle.gitconf_text.specs.Token.{tokens_of, spelled_token};
    ghost use Rattle.gitconf_text.specs.Names.{is_value_name};
    ghost use Rattle.gitconf_sources.specs.Key.{the_key};
    ghost use Rattle.gitconf_sources.specs.Metadata.{Meta, api_meta};
    ghost use Rattle.gitconf_items.specs.EventList.{IsSelected, IsWhole};
    ghost use Rattle.gitconf_read.specs.EventResult.{IsRefused};
    ghost use Rattle.gitconf_items.specs.ShownEvents.{shown_token};
    ghost use Rattle.gitconf_items.specs.Sink.{Writes, Counts};
    ghost use Rattle.gitconf_state.specs.Clean.{IsClean};
    ghost use Rattle.gitconf_state.specs.Comments.{comments, comments_of, comments_of_kept};
    ghost use Rattle.gitconf_state.specs.Inserted.{Inserted, IsByteForByte};
    ghost use Rattle.gitconf_state.specs.LineEnds.{file_line_end};
    ghost use Rattle.gitconf_state.specs.Printing.{printed, printed_kept};
    ghost use Rattle.gitconf_state.specs.State.{IsState, SectionState, document_of, document_of_kept, entries_of};
    ghost use Rattle.gitconf_state.specs.Edit.{with_used};
    ghost use Rattle.gitconf_views.specs.Counts.{are_void, section_entries};
    ghost use Rattle.gitconf_store.specs.SetSomewhere.{IsSetSomewhere};
    ghost use Rattle.gitconf_store.specs.Edited.{IsEdited};
    ghost use Rattle.gitconf_store.specs.SetErrors.{set_refusal};
    ghost use Rattle.gitconf_store.specs.declared.set_raw_value.Error.TheVariants.{ValueName};
    ghost use Rattle.gitconf_state.specs.Edits as states;
    ghost use Rattle.gitconf_state.specs.Edits.{Raw, SetRawValue};
    ghost use Rattle.gitconf_items.specs.ItemEvents.{events_left};
    ghost use Rattle.gitconf_state.specs.Made.{IsMade};
    ghost use Rattle.gitconf_views.specs.Texts.{IsTextOfSomeSections};
    ghost use Rattle.gitconf_views.specs.Views.{shown, sections_left};
    ghost use Rattle.gitconf_items.specs.Items.{tokens_in};
    ghost use Rattle.gix_config.specs.Keys.{set_by_key, IsSetByKey};
    ghost use Rattle.gix_config.specs.Made.{loaded_tokens};

    /// A file without front and sections. Takes no memory.
    pub fn new(alloc: Global, meta: Rc<Metadata>) -> File
        ensures { result ≡ record { front = []; meta = meta.value; next = 0; used = 0; sections = [] } }
    {
        File {
            store: Store::new(alloc, meta),
        }
    }

    /// A copy of the file, with a buffer of its own; metadata is shared. Each byte and each part is copied once.
    ///
    /// # Errors
    ///
    /// E27 when out of memory.
    pub fn try_clone(&self) -> Result<File, NoMemory>
        ensures { IfOk result (λ f. f ≡ self.now) }
    {
        let store = self.store.try_clone()?;
        Ok(File { store })
    }

    /// The file of a text, all of it, as coming from the calling program ([`Metadata::api`]). One pass, which copies
    /// the text once.
    ///
    /// # Errors
    ///
    /// E1 if the text has no document, with the line and the data from where it can't be read on; E2 for more than 4294967295 bytes; E27
    /// when out of memory.
    pub fn try_from_bytes(alloc: Global, input: &[u8]) -> Result<File, Error>
        ensures made { IfOk result (λ f. (parts : List Part) × IsText input.now parts × IsMade (tokens_of parts) api_meta (length input.now) f) }
        ensures document { IfOk result (λ f. Reads input.now (document_of f)) }
        ensures clean { IfOk result IsClean }
        ensures inserted { IfOk result (λ f. (parts : List Part) → IsText input.now parts → Inserted (map spelled_token (tokens_of parts)) (printed f)) }
        ensures byte_for_byte { IfOk result (λ f. (parts : List Part) → IsText input.now parts → IsByteForByte parts → printed f ≡ unmarked input.now) }
        ensures refused { IfErr result (IsRefused input.now) }
    {
        check_len(input.len())?;
        let meta = shared(alloc, Metadata::api())?;
        let store = Store::from_bytes(alloc, input, meta)?;
        Ok(File { store })
    }

    /// The same file as [`File::try_from_bytes`] makes, of the text itself. The text becomes the buffer, and no byte of it is copied
    /// except the names and subsections of sections. An edit that finds no room after the text makes the buffer larger.
    ///
    /// # Errors
    ///
    /// Those of [`File::try_from_bytes`].
    pub fn try_from_bytes_owned(alloc: Global, text: Vec<u8>) -> Result<File, Error>
        ensures made { IfOk result (λ f. (parts : List Part) × IsText text.items parts × IsMade (tokens_of parts) api_meta (length text.items) f) }
        ensures document { IfOk result (λ f. Reads text.items (document_of f)) }
        ensures clean { IfOk result IsClean }
        ensures inserted { IfOk result (λ f. (parts : List Part) → IsText text.items parts → Inserted (map spelled_token (tokens_of parts)) (printed f)) }
        ensures byte_for_byte { IfOk result (λ f. (parts : List Part) → IsText text.items parts → IsByteForByte parts → printed f ≡ unmarked text.items) }
        ensures refused { IfErr result (IsRefused text.items) }
    {
        check_len(text.len())?;
        let meta = shared(alloc, Metadata::api())?;
        let store = Store::from_text(alloc, text, meta)?;
        Ok(File { store })
    }

    /// A file for lookups. The text becomes the buffer, as in [`File::try_from_bytes_owned`], and its whitespace, line endings and comments
    /// are left out, so that they take no memory. It has the document of the text, and returns for each lookup what the whole file does.
    ///
    /// # Errors
    ///
    /// Those of [`File::try_from_bytes`].
    pub fn try_from_bytes_owned_lossy(alloc: Global, text: Vec<u8>) -> Result<File, Error>
        ensures made { IfOk result (λ f. (parts : List Part) × IsText text.items parts × IsMade (loaded_tokens true parts) api_meta (length text.items) f) }
        ensures document { IfOk result (λ f. Reads text.items (document_of f)) }
        ensures clean { IfOk result (λ f. entries_of f.front ≡ [] → IsClean f) }
        ensures refused { IfErr result (IsRefused text.items) }
    {
        check_len(text.len())?;
        let meta = shared(alloc, Metadata::api())?;
        let store = Store::from_text_lossy(alloc, text, meta)?;
        Ok(File { store })
    }

    /// The file of the events of a text, all or those that a filter kept. It and its sections come from `meta`, and no include is
    /// followed. What the filter dropped is not in it.
    ///
    /// It requires that all names, separators and values were kept ([`Events::keeps_entries`]); so the file has the text's
    /// document, whatever else was dropped. One pass; the text becomes the buffer, and of it only the
    /// names and subsections of sections are copied.
    ///
    /// # Errors
    ///
    /// E27 when out of memory.
    pub fn from_parse_events_no_includes(
        alloc: Global,
        events: Events,
        meta: Rc<Metadata>,
    ) -> Result<File, NoMemory>
        requires { events.keeps_entries ≡ true }
        ensures made { IfOk result (λ f. IsMade events.tokens meta.value events.used f) }
        ensures document { IfOk result (λ f. (text : List ℕ) → IsSelected text events → Reads text (document_of f)) }
        ensures clean { IfOk result (λ f. entries_of f.front ≡ [] → IsClean f) }
        // If nothing was dropped, the file is clean, and its text is the one that was parsed, except for inserted line endings.
        ensures whole_clean { IfOk result (λ f. (text : List ℕ) → IsWhole text events → IsClean f) }
        ensures inserted { IfOk result (λ f. (text : List ℕ) (parts : List Part) → IsWhole text events → IsText text parts
            → Inserted (map spelled_token (tokens_of parts)) (printed f)) }
        ensures byte_for_byte { IfOk result (λ f. (text : List ℕ) (parts : List Part) → IsWhole text events → IsText text parts
            → IsByteForByte parts → printed f ≡ unmarked text) }
    {
        let store = Store::from_events(alloc, events, meta)?;
        Ok(File { store })
    }

    /// Where the file comes from.
    pub fn meta(&self) -> &Metadata
        ensures { result.now ≡ self.now.meta }
    {
        self.store.meta()
    }

    /// The same metadata as [`File::meta`], with one more owner.
    ///
    /// # Errors
    ///
    /// The count of owners is at its limit, which counts as out of memory.
    pub fn meta_owned(&self) -> Result<Rc<Metadata>, NoMemory>
        ensures { IfOk result (λ m. m.value ≡ self.now.meta) }
    {
        self.store.meta_owned()
    }

    /// Sets where the file, and each section that is made from now on, comes from. Existing sections keep theirs.
    pub fn set_meta(&mut self, meta: Rc<Metadata>) -> &mut File
        ensures same { result.ghost_name ≡ self.entry.ghost_name }
        ensures value { result.now ≡ record self.old { meta = meta.value } }
    {
        self.store.set_meta(meta);
        self
    }

    /// The events before the first section, or `None` if there are none. No lookup finds entries among them.
    /// Takes no memory.
    pub fn frontmatter(&self) -> Option<ItemEvents<'_>>
        ensures none { IsNone result ↔ (tokens_in self.now.front ≡ []) }
        ensures events { IfSome result (λ it. events_left it ≡ map shown_token (tokens_in self.now.front)) }
    {
        let events = self.store.front();
        let mut ahead = events;
        match ahead.next() {
            Some(_) => Some(events),
            None => None,
        }
    }

    /// The sections in file order.
    pub fn sections(&self) -> Sections<'_>
        ensures left { sections_left result ≡ self.now.sections }
        // What holds of every file, whatever was done to it, so that laws of states can be used.
        ensures state { IsState self.now }
    {
        self.store.sections()
    }

    /// The line ending that the file uses, LF or CR LF. It is that of the first newline of its front, otherwise of its sections' bodies in
    /// order; LF if there is none. Takes no memory.
    pub fn detect_newline_style(&self) -> &'static [u8]
        ensures { result.now ≡ file_line_end self.now }
    {
        self.store.detect_newline_style()
    }

    /// Whether all bodies are empty. Takes no memory.
    pub fn is_void(&self) -> bool
        ensures { result ≡ are_void self.now.sections }
    {
        self.store.is_void()
    }

    /// How many entries the sections have, without those of the front. It is `usize::MAX` if there are more. Takes no memory, and a walk
    /// over all.
    pub fn num_values(&self) -> usize
        ensures { result ≡ min (length (section_entries self.now.sections)) (2 ^ 64 - 1) }
    {
        self.store.num_values()
    }

    /// Gives a key such as `remote.origin.url` a value. In the last section of the key's name and subsection, the last entry of the name
    /// gets it, as a file spells it; `=` is added if the entry has none. A section without such an entry gets a new one after all others,
    /// with the whitespace that it uses; if there is no section, one is made after all others, with the file's line ending and metadata.
    ///
    /// Returns the raw text of the value that was there: its pieces joined, not decoded; no bytes for an entry without `=`; `None` if
    /// there was no entry. All else stays as it is. The section is found by its names: it takes a walk over the sections of the key's name
    /// and subsection alone, from the last one up to that one, then one over its items and one over the file's up to the first line
    /// ending.
    ///
    /// # Errors
    ///
    /// E6 for an invalid value name, before anything else; E4 and E5 if a section has to be made of a name or a subsection that can't be
    /// one; E3 if the file would take more than 4294967295 bytes, or there is no number for a section; E27 when out of memory. The file is
    /// then as it was.
    pub fn set_raw_value<K: AsKey>(
        &mut self,
        key: K,
        new_value: &[u8],
    ) -> Result<Option<BString>, set_raw_value::Error>
        requires { IsSome (K.key key) }
        ensures exact { IsSetByKey (the_key (K.key key)) (λ _. true) new_value.now result self.old self.new }
        ensures answer { IfOk result (λ o. Raw (option_map bstring_bytes o) ≡ states.answer (set_by_key (the_key (K.key key)) (λ _. true) new_value.now) self.old) }
        ensures err { OnErr result (self.new ≡ self.old) }
    {
        let key = key.as_key();
        self.set_raw_value_by(
            key.section_name,
            key.subsection_name,
            key.value_name,
            new_value,
        )
    }

    /// Like [`File::set_raw_value`], but by the names of the section, the subsection and the value.
    ///
    /// # Errors
    ///
    /// Those of [`File::set_raw_value`].
    pub fn set_raw_value_by(
        &mut self,
        section_name: &str,
        subsection_name: Option<&[u8]>,
        value_name: &str,
        new_value: &[u8],
    ) -> Result<Option<BString>, set_raw_value::Error>
        ensures exact { IsEdited set_refusal (SetRawValue section_name.now (option_copied subsection_name.entry) value_name.now (λ _. true) new_value.now)
            result self.old self.new }
        ensures answer { IfOk result (λ o. Raw (option_map bstring_bytes o)
            ≡ states.answer (SetRawValue section_name.now (option_copied subsection_name.entry) value_name.now (λ _. true) new_value.now) self.old) }
        ensures err { OnErr result (self.new ≡ self.old) }
    {
        self.store
            .set_raw_value_by(section_name, subsection_name, value_name, new_value)
    }

    /// Like [`File::set_raw_value`], but in the last section whose metadata passes the filter.
    ///
    /// # Errors
    ///
    /// Those of [`File::set_raw_value`].
    pub fn set_raw_value_filter<K: AsKey, F: FnMut(&Metadata) -> bool>(
        &mut self,
        key: K,
        new_value: &[u8],
        filter: F,
    ) -> Result<Option<BString>, set_raw_value::Error>
        requires known { IsSome (K.key key) }
        requires callable { F.IsAlwaysCallable filter }
        // For a filter whose result depends only on what it is shown.
        ensures exact { (keeps : Meta → Bool) → ComputesKey F.FnMut keeps filter
            → IsSetByKey (the_key (K.key key)) keeps new_value.now result self.old self.new }
        ensures answer { (keeps : Meta → Bool) → ComputesKey F.FnMut keeps filter
            → IfOk result (λ o. Raw (option_map bstring_bytes o) ≡ states.answer (set_by_key (the_key (K.key key)) keeps new_value.now) self.old) }
        // For any filter, even one that changes its mind.
        ensures somewhere { let k = the_key (K.key key) in IsSetSomewhere k.section k.subsection k.name new_value.now result self.old self.new }
    {
        let key = key.as_key();
        self.set_raw_value_filter_by(
            key.section_name,
            key.subsection_name,
            key.value_name,
            new_value,
            filter,
        )
    }

    /// Like [`File::set_raw_value_filter`], but by the names of the section, the subsection and the value.
    ///
    /// # Errors
    ///
    /// Those of [`File::set_raw_value`].
    pub fn set_raw_value_filter_by<F: FnMut(&Metadata) -> bool>(
        &mut self,
        section_name: &str,
        subsection_name: Option<&[u8]>,
        value_name: &str,
        new_value: &[u8],
        filter: F,
    ) -> Result<Option<BString>, set_raw_value::Error>
        requires { F.IsAlwaysCallable filter }
        // For a filter whose result depends only on what it is shown.
        ensures exact { (keeps : Meta → Bool) → ComputesKey F.FnMut keeps filter
            → IsEdited set_refusal (SetRawValue section_name.now (option_copied subsection_name.entry) value_name.now keeps new_value.now)
            result self.old self.new }
        ensures answer { (keeps : Meta → Bool) → ComputesKey F.FnMut keeps filter
            → IfOk result (λ o. Raw (option_map bstring_bytes o)
            ≡ states.answer (SetRawValue section_name.now (option_copied subsection_name.entry) value_name.now keeps new_value.now) self.old) }
        // For any filter, even one that changes its mind.
        ensures somewhere { IsSetSomewhere section_name.now (option_copied subsection_name.entry) value_name.now new_value.now result self.old self.new }
    {
        self.store.set_raw_value_filter_by(
            section_name,
            subsection_name,
            value_name,
            new_value,
            filter,
        )
    }

    /// Writes the front and the sections that `filter` keeps. Line endings are inserted where parts would otherwise run together. One
    /// pass, which takes no memory of its own.
    ///
    /// # Errors
    ///
    /// A write failed, or took nothing. It is not tried again, and a beginning of the text may have been written.
    pub fn write_to_filter<W: Sink, F: FnMut(&SectionRef<'_>) -> bool>(
        &self,
        out: &mut W,
        filter: F,
    ) -> Result<(), SinkFault>
        requires { F.IsAlwaysCallable filter }
        // For a filter whose result depends only on what it is shown.
        ensures exact { (keeps : SectionState → Bool) → ComputesKey F.FnMut (λ r. keeps (shown r)) filter
            → Writes result (printed_kept keeps self.now) (W.told out.old) (W.told out.new) }
        ensures reads { (keeps : SectionState → Bool) → IsClean self.now → Reads (printed_kept keeps self.now) (document_of_kept keeps self.now) }
        ensures comments { (keeps : SectionState → Bool) → IsClean self.now
            → (parts : List Part) → IsText (printed_kept keeps self.now) parts → comments_of parts ≡ comments_of_kept keeps self.now }
        // For any filter, even one that changes its mind.
        ensures some { (text : List ℕ) × IsTextOfSomeSections self.now text × Writes result text (W.told out.old) (W.told out.new) }
        ensures counted { Counts result (W.faults out.old) (W.faults out.new) }
    {
        self.store.write_to_filter(out, filter)
    }

    /// Writes the whole file.
    ///
    /// # Errors
    ///
    /// Those of [`File::write_to_filter`].
    pub fn write_to<W: Sink>(&self, out: &mut W) -> Result<(), SinkFault>
        ensures written { Writes result (printed self.now) (W.told out.old) (W.told out.new) }
        ensures reads { IsClean self.now → Reads (printed self.now) (document_of self.now) }
        ensures comments { IsClean self.now → (parts : List Part) → IsText (printed self.now) parts → comments_of parts ≡ comments self.now }
        ensures counted { Counts result (W.faults out.old) (W.faults out.new) }
    {
        self.store.write_to(out)
    }

    /// The text of the whole file, as [`File::write_to`] writes it. Memory for as many bytes as the file was loaded
    /// with is taken at once.
    ///
    /// # Errors
    ///
    /// E27 when out of memory.
    pub fn to_bstring(&self) -> Result<BString, NoMemory>
        ensures text { IfOk result (λ text. bstring_bytes text ≡ printed self.now) }
        ensures reads { IsClean self.now → IfOk result (λ text. Reads (bstring_bytes text) (document_of self.now)) }
        ensures comments { IsClean self.now → IfOk result (λ text. (parts : List Part) → IsText (bstring_bytes text) parts
            → comments_of parts ≡ comments self.now) }
    {
        self.store.to_bstring()
    }
}
