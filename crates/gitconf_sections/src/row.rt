//! A section as the list keeps it, and as it is read.
ghost use Rattle.std.specs.Prelude.{◌≡◌};
ghost use Rattle.gitconf_sections.specs.Section.{read, viewed};

use crate::body::{Body, body_items};
use crate::held::Held;
use crate::id::SectionId;
use crate::letters::Names;
use gitconf_items::event::Header;
use gitconf_items::items::Item;
use gitconf_sources::meta::Metadata;
use std::alloc::Global;
use std::rc::Rc;

/// A section as the list keeps it: its number, where its names are, its header, where it comes from, where its body is, and
/// the items held after it.
#[derive(Clone, Drop)]
pub(crate) struct Row {
    pub(crate) id: SectionId,
    pub(crate) names: Names,
    pub(crate) header: Header,
    pub(crate) meta: Rc<Metadata>,
    pub(crate) body: Body,
    pub(crate) held: Held,
}

/// A view of a section: its header, where it comes from, the items of its body, and those held after it.
#[derive(Clone, Copy)]
pub struct Section<'a> {
    /// Where memory for results comes from.
    pub alloc: Global,
    /// The section's header.
    pub header: &'a Header,
    /// Where the section comes from.
    pub meta: &'a Rc<Metadata>,
    /// The items of its body.
    pub items: &'a [Item],
    /// The items held after it.
    pub held: &'a [Item],
}

/// A view of a section; its items are in the list, or in its own.
pub(crate) fn read<'a>(list: &'a Vec<Item>, row: &'a Row) -> Section<'a>
    ensures { viewed result ≡ read list.now.items row.now }
{
    Section {
        alloc: *list.allocator(),
        header: &row.header,
        meta: &row.meta,
        items: body_items(list, &row.body),
        held: row.held.as_slice(),
    }
}
