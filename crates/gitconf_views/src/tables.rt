//! Views of the sections of a table.
ghost use Rattle.std.specs.Prelude.{◌≡◌};
ghost use Rattle.gitconf_sections.specs.Section.{viewed};
ghost use Rattle.gitconf_views.specs.Store.{section_under};
ghost use Rattle.gitconf_views.specs.Viewed.{IsViewed};
ghost use Rattle.gitconf_views.specs.Views.{shown};

use crate::section::SectionRef;
use gitconf_sections::id::SectionId;
use gitconf_sections::row;

/// A view of a section that a table has under a number. It is over the buffer and the copies that its spans are offsets
/// of.
pub fn view_of<'a>(
    buffer: &'a [u8],
    copies: &'a [u8],
    id: SectionId,
    section: row::Section<'a>,
) -> SectionRef<'a>
    requires { IsViewed buffer.now copies.now (viewed section) }
    ensures { shown result ≡ section_under buffer.now id (viewed section.entry) }
{
    SectionRef {
        alloc: section.alloc,
        buffer,
        copies,
        id,
        header: section.header,
        meta: section.meta,
        items: section.items,
        held: section.held,
    }
}
