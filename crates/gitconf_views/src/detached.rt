//! Sections that are in no file.
ghost use Rattle.std.specs.Prelude.{◌≡◌, ◌+◌, ◌<◌, ◌^◌, ℕ, true, length, IfOk, OnOk};
ghost use Rattle.std.specs.List.{list_all};
ghost use Rattle.std.specs.Option.{option_copied, option_map};
ghost use Rattle.bstr.specs.Owned.{bstring_bytes};
ghost use Rattle.gitconf_text.specs.Names.{is_made_name, is_valid_or_none};
ghost use Rattle.gitconf_text.specs.declared.parse.section.header.Error.TheVariants.{InvalidName, InvalidSubSection, Span};
ghost use Rattle.gitconf_items.specs.Events.{header_of};
ghost use Rattle.gitconf_items.specs.declared.event.Event.TheVariants as kinds;
ghost use Rattle.gitconf_items.specs.ItemsFit.{AreItemsWithin};
ghost use Rattle.gitconf_items.specs.ShownEvents.{IsShown};
ghost use Rattle.gitconf_state.specs.State.{is_header, is_item};
ghost use Rattle.gitconf_items.specs.Items.{items_of};
ghost use Rattle.gitconf_body.specs.Copies.{header_size, items_size, IsCopy, IsLonger};
ghost use Rattle.gitconf_views.specs.Store.{section_under};
ghost use Rattle.gitconf_views.specs.Alone.{alone, section_size, whole, StandsAlone};
ghost use Rattle.gitconf_views.specs.Views.{seen, shown};

mod editing;
pub mod editor;
mod editor_views;
mod writing;

use crate::section;
use crate::section::{SectionRef, shared};
use bstr::BString;
use gitconf_body::copying::{copied_header, copied_items};
use gitconf_body::heading::put_header;
use gitconf_items::decode::decoded_header;
use gitconf_items::event::Header;
use gitconf_items::items::Item;
use gitconf_sections::id::SectionId;
use gitconf_sources::lists::bytes_of;
use gitconf_sources::meta::Metadata;
use gitconf_text::NoMemory;
use gitconf_text::parse::section::header;
use std::alloc::Global;
use std::marker::Model;
use std::rc::Rc;

/// Copies of items, with their bytes added to another buffer. More bytes than it can hold count as out of memory.
fn owned_items(from: &[u8], to: &mut Vec<u8>, items: &[Item]) -> Result<Vec<Item>, NoMemory>
    requires room { length to.old.items < 2 ^ 32 }
    ensures copies { IfOk result (λ is. IsCopy items_of AreItemsWithin from.now to.new.items items.now is.items) }
    ensures longer { OnOk result (IsLonger to.old.items to.new.items) }
    ensures put { OnOk result (length to.new.items ≡ length to.old.items + items_size (items_of from.now items.now)) }
{
    match copied_items(from, to, items) {
        Ok(items) => Ok(items),
        Err(_) => Err(NoMemory),
    }
}

/// A copy of a header, with its bytes added to another buffer, and with a decoded copy of its subsection if it needs one.
#[tactic(auto, using(crate::proofs::Detaching::header_owned))]
fn owned_header(
    from: &[u8],
    to: &mut Vec<u8>,
    copies: &mut Vec<u8>,
    header: Header,
) -> Result<Header, NoMemory>
    requires room { length to.old.items < 2 ^ 32 }
    ensures same { IfOk result (λ h. header_of to.new.items h ≡ header_of from.now header) }
    ensures shown { IfOk result (λ h. IsShown to.new.items copies.new.items (kinds.SectionHeader h)) }
    ensures longer { OnOk result (IsLonger to.old.items to.new.items) }
    ensures put { OnOk result (length to.new.items ≡ length to.old.items + header_size (header_of from.now header)) }
{
    match copied_header(from, to, header) {
        Ok(header) => decoded_header(to, header, copies),
        Err(_) => Err(NoMemory),
    }
}

/// A copy of a section in a buffer of its own, with nothing held after it.
fn owned_section(
    to: &mut Vec<u8>,
    copies: &mut Vec<u8>,
    source: &SectionRef<'_>,
) -> Result<section::Section, NoMemory>
    requires room { length to.old.items < 2 ^ 32 }
    ensures same { IfOk result (λ s. (number : ℕ) → section_under to.new.items number (whole s)
        ≡ alone (section_under source.now.buffer.now number (seen source.now))) }
    ensures stands { IfOk result (λ s. StandsAlone to.new.items copies.new.items s) }
    ensures put { OnOk result (length to.new.items ≡ length to.old.items + section_size (shown source.now)) }
{
    let meta = shared(source.meta)?;
    let items = owned_items(source.buffer, to, source.items)?;
    let header = owned_header(source.buffer, to, copies, *source.header)?;
    Ok(section::Section {
        header,
        meta,
        items,
    })
}

/// A section that is in no file: its header and its body, in a buffer of its own, and the number that it had in a file.
#[derive(Drop)]
pub struct Section {
    /// The buffer that its spans are offsets of.
    pub buffer: Vec<u8>,
    /// The decoded subsection of its header, if it needs one.
    pub copies: Vec<u8>,
    /// The number that it had in a file. If it was in none, the greatest number.
    pub id: SectionId,
    /// Its header, where it comes from, and its items.
    pub section: section::Section,
}

impl Model for Section {
    ghost use Rattle.gitconf_state.specs.Edits.{Detached};
    ghost use Rattle.gitconf_views.specs.Alone.{detached_of, StandsAlone};

    ghost Value = { Detached };

    ghost view = { λ s. detached_of s.buffer.items s.id s.section };

    ghost invariant = { λ s. StandsAlone s.buffer.items s.copies.items s.section };
}

impl SectionRef<'_> {
    ghost use Rattle.std.specs.Prelude.{◌≡◌, IfOk};
    ghost use Rattle.gitconf_views.specs.Alone.{copied_alone};
    ghost use Rattle.gitconf_views.specs.Views.{shown};

    /// A copy of the section with the same number, in a buffer of its own: its header and its body are copied, and what is held after
    /// it is not. Metadata is shared. One pass, which takes memory for the copies alone.
    ///
    /// # Errors
    ///
    /// Out of memory; also if it has more than 4294967295 bytes.
    pub fn to_owned(&self) -> Result<Section, NoMemory>
        ensures { IfOk result (λ s. s ≡ copied_alone (shown self.now)) }
    {
        let alloc = self.alloc;
        let mut buffer = Vec::new(alloc);
        let mut copies = Vec::new(alloc);
        let section = owned_section(&mut buffer, &mut copies, self)?;
        Ok(Section {
            buffer,
            copies,
            id: self.id,
            section,
        })
    }
}

impl Section {
    ghost use Rattle.std.specs.Prelude.{◌≡◌, ◌≤◌, ◌^◌, ◌↔◌, true, false, IfErr, IfOk, IsErrOf};
    ghost use Rattle.gitconf_state.specs.Edit.{header_bytes};
    ghost use Rattle.gitconf_state.specs.State.{HasSectionItems};
    ghost use Rattle.gitconf_views.specs.Alone.{made_alone};
    ghost use Rattle.gitconf_body.specs.Done.{first_cause, heading_causes, IsRefusedFor};
    ghost use Rattle.gitconf_body.specs.Refusals.{header_refusal};
    ghost use Rattle.gitconf_views.specs.Views.{shown};

    /// A section of a name and a subsection: its body is empty, without even a line ending, and its number is the greatest, which no file
    /// gives. The name may be empty. The subsection is written in quotes after a space, with a backslash before each `"` and each
    /// backslash. One pass over both, which takes memory for their text and for a decoded copy of a subsection that is spelled differently.
    ///
    /// # Errors
    ///
    /// `InvalidName` (E4) if a byte of the name is not a letter, digit or dash, otherwise `InvalidSubSection` (E5) if the subsection
    /// holds LF or NUL; otherwise `Span` (E3) if and only if their text is longer than 4294967295 bytes, and `Memory` (E27) when out
    /// of memory.
    pub fn new(
        alloc: Global,
        name: &str,
        subsection: Option<BString>,
        meta: Rc<Metadata>,
    ) -> Result<Section, header::Error>
        ensures made { IfOk result (λ s. s ≡ made_alone name.now (option_map bstring_bytes subsection) meta.value) }
        ensures told { IsRefusedFor header_refusal (first_cause (heading_causes name.now (option_map bstring_bytes subsection) 0)) result }
    {
        let name = name.as_bytes();
        let subsection = bytes_of(&subsection);
        header::validate(name, subsection)?;
        let mut buffer = Vec::new(alloc);
        let mut copies = Vec::new(alloc);
        let header = put_header(&mut buffer, &mut copies, name, subsection)?;
        Ok(Section {
            buffer,
            copies,
            id: SectionId::default(),
            section: section::Section {
                header,
                meta,
                items: Vec::new(alloc),
            },
        })
    }

    /// A view of it, as of a section of a file. Its header and its items are such as a text may have, however it was made. Takes no memory.
    pub fn to_ref(&self) -> SectionRef<'_>
        ensures same { shown result ≡ self.now.section }
        ensures items { HasSectionItems self.now.section }
    {
        SectionRef {
            alloc: *self.buffer.allocator(),
            buffer: &self.buffer,
            copies: &self.copies,
            id: self.id,
            header: &self.section.header,
            meta: &self.section.meta,
            items: &self.section.items,
            held: &[],
        }
    }

    /// A copy of the section, in a buffer of its own; metadata is shared. Each byte and each item is copied once.
    ///
    /// # Errors
    ///
    /// Out of memory.
    pub fn try_clone(&self) -> Result<Section, NoMemory>
        ensures { IfOk result (λ s. s ≡ self.now) }
    {
        let buffer = self.buffer.clone()?;
        let copies = self.copies.clone()?;
        let section = self.section.clone()?;
        Ok(Section {
            buffer,
            copies,
            id: self.id,
            section,
        })
    }
}
