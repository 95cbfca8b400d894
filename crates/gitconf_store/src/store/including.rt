//! Another file, put into a file that includes it.
ghost use Rattle.std.specs.Prelude.{◌≡◌, ◌⊎◌, ◌↔◌, ◌+◌, ◌<◌, ◌≤◌, is_some, length, option_map, slice_get, Some, IfErr, IsErrOf, OnErr, OnOk};
ghost use Rattle.gitconf_text.specs.LineEnds.{bytes_of_line_end};
ghost use Rattle.gitconf_items.specs.Items.{tokens_in};
ghost use Rattle.gitconf_print.specs.LineEnds.{first_newline, first_newline_of_bodies};
ghost use Rattle.gitconf_views.specs.Views.{shown};
ghost use Rattle.gitconf_state.specs.Edit.{with_used};
ghost use Rattle.gitconf_store.specs.Appends.{bytes_at, included, HasNoRoomAt};

use crate::store::Store;
use gitconf_lookups::tokens;
use gitconf_print::line_end::first_line_end;
use gitconf_text::line_end::LineEnd;
use gitconf_text::parse::span;
use gitconf_views::section::SectionRef;
use gitconf_views::tables::view_of;

impl Store {
    /// How many sections there are.
    pub fn section_count(&self) -> usize
        ensures { result ≡ length self.now.sections }
    {
        self.sections.len()
    }

    /// The section at a place.
    pub fn section_at(&self, position: usize) -> SectionRef<'_>
        requires { position < length self.now.sections }
        ensures { slice_get self.now.sections position ≡ Some (shown result) }
    {
        let section = self.sections.at(position);
        let id = self.sections.id_at(position);
        view_of(&self.buffer, &self.copies, id, section)
    }

    /// Whether the front has a newline.
    pub fn front_tells(&self) -> bool
        ensures { result ≡ is_some (first_newline (tokens_in self.now.front)) }
    {
        first_line_end(&self.buffer, &self.front).is_some()
    }

    /// The line ending of the first newline of the sections' bodies, if there is one.
    pub fn bodies_line_end(&self) -> Option<LineEnd>
        ensures { option_map bytes_of_line_end result ≡ first_newline_of_bodies self.now.sections }
    {
        tokens::bodies_line_end(self.sections())
    }

    /// Adds another file's sections after all others, and holds its front after a section. The sections stay in their order and get the
    /// next numbers. The front is held after the section at a place; the line ending goes between if items are held there that don't end
    /// with one, and the other's don't begin with one. The time is linear in the other file.
    ///
    /// # Errors
    ///
    /// Those of [`Store::append`].
    pub fn include(
        &mut self,
        position: usize,
        line_end: LineEnd,
        other: Store,
    ) -> Result<(), span::Error>
        requires { position < length self.old.sections }
        ensures ok { OnOk result (self.new ≡ included position (bytes_of_line_end line_end) other self.old) }
        ensures err { OnErr result (self.new ≡ self.old) }
        ensures too_large { IsErrOf result 3 ↔ HasNoRoomAt position (bytes_of_line_end line_end) other self.old }
        ensures known { IfErr result (λ e. (e ≡ 3) ⊎ (e ≡ 27)) }
    {
        self.put_at(position, line_end, other)
    }
}
