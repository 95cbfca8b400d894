//! Sections whose bytes come after other bytes, and which are added to those of a table.
ghost use Rattle.std.specs.Option.{option_copied};
ghost use Rattle.std.specs.Prelude.{◌≡◌, ◌+◌, ◌-◌, ◌^◌, ◌<◌, ◌≤◌, ◌↔◌, [], ◌∷◌, ◌++◌, length, map, IfErr, IfOk, IsErrOf, OnErr, OnOk};
ghost use Rattle.gitconf_items.specs.declared.event.Event.TheVariants as kinds;
ghost use Rattle.gitconf_items.specs.ItemsFit.{AreItemsWithin};
ghost use Rattle.gitconf_items.specs.Moves.{AreItemsMoved};
ghost use Rattle.gitconf_items.specs.ShownEvents.{IsShown};
ghost use Rattle.gitconf_text.specs.Sections.{no_number};
ghost use Rattle.gitconf_sections.specs.Section.{made};
ghost use Rattle.gitconf_views.specs.Moves.{AreMovable, AreSectionsMoved};
ghost use Rattle.gitconf_views.specs.Store.{AllSectionsFit, section_state, section_under};

use gitconf_items::event::Header;
use gitconf_items::few::FewItems;
use gitconf_items::items::Item;
use gitconf_items::lend::subsection_name;
use gitconf_items::moving::move_items;
use gitconf_sections::id::SectionId;
use gitconf_sections::sections::SectionList;
use gitconf_sources::meta::Metadata;
use gitconf_text::NoMemory;
use gitconf_text::parse::span;
use std::rc::Rc;

/// How many bytes of copies there are, after which the others go.
///
/// # Errors
///
/// All together would be more than 4294967295 bytes, which counts as out of memory.
pub fn copies_before(copies: &[u8], others: &[u8]) -> Result<u32, NoMemory>
    ensures count { IfOk result (λ n. n ≡ length copies.now) }
    ensures room { IfOk result (λ n. length others.now ≤ 2 ^ 32 - 1 - n) }
{
    if copies.len() + others.len() > u32::MAX as usize {
        return Err(NoMemory);
    }
    Ok(copies.len() as u32)
}

/// Items in a list, moved as [`move_items`] does.
pub fn move_list(list: &mut Vec<Item>, by: u32)
    requires { AreItemsWithin (2 ^ 32 - 1 - by) list.old.items }
    ensures { AreItemsMoved by list.old.items list.new.items }
{
    move_items(list.as_mut_slice(), by);
}

/// The items before the first section, moved as [`move_items`] does.
pub fn move_front(front: &mut FewItems, by: u32)
    requires { AreItemsWithin (2 ^ 32 - 1 - by) front.old.items }
    ensures { AreItemsMoved by front.old.items front.new.items }
{
    move_items(front.as_mut_slice(), by);
}

/// All sections, moved as [`SectionList::move_section`] does. One pass over them, which takes no memory.
pub fn move_sections(sections: &mut SectionList, by: u32, copies_by: u32)
    requires { AreMovable by copies_by sections.old }
    ensures { AreSectionsMoved by copies_by sections.old sections.new }
{
    for at in 0..sections.len() {
        sections.move_section(at, by, copies_by);
    }
}

/// Adds a section of the buffer after the others. It gets the next number, which is returned.
///
/// # Errors
///
/// A [`span::Error`]: E3 if no number is left, otherwise E27 when out of memory. The table is then as it was.
pub fn put_last(
    buffer: &[u8],
    copies: &[u8],
    table: &mut SectionList,
    header: Header,
    meta: Rc<Metadata>,
    items: Vec<Item>,
) -> Result<SectionId, span::Error>
    requires header { IsShown buffer.now copies.now (kinds.SectionHeader header) }
    requires items { AreItemsWithin (length buffer.now) items.items }
    requires fits { AllSectionsFit buffer.now copies.now table.old }
    ensures id { IfOk result (λ id. id ≡ table.old.next) }
    ensures fits { OnOk result (AllSectionsFit buffer.now copies.now table.new) }
    ensures sections { OnOk result (map (section_state buffer.now) table.new.entries
        ≡ map (section_state buffer.now) table.old.entries ++ section_under buffer.now table.old.next (made header meta items.items) ∷ []) }
    ensures next { OnOk result (table.new.next ≡ table.old.next + 1) }
    ensures used_up { IsErrOf result 3 ↔ (table.old.next ≡ no_number) }
    ensures memory { IfErr result (λ e. table.old.next < no_number → e ≡ 27) }
    ensures err { OnErr result (table.new ≡ table.old) }
{
    let name = header.name.bytes_in(buffer);
    let subsection = subsection_name(buffer, copies, &header);
    table.push(name, subsection, header, meta, items)
}
