//! Another store's sections and items, added to those of a store.
ghost use Rattle.std.specs.Prelude.{◌≡◌, ◌⊎◌, ◌↔◌, ◌+◌, ◌-◌, ◌<◌, ◌≤◌, ◌^◌, ◌++◌, length, IfErr, IfOk, IsErrOf, OnErr, OnOk};
ghost use Rattle.gitconf_text.specs.LineEnds.{bytes_of_line_end};
ghost use Rattle.gitconf_body.specs.Buffers.{Grows};
ghost use Rattle.gitconf_body.specs.Refusals.{span_refusal};
ghost use Rattle.gitconf_state.specs.Edits.{Append};
ghost use Rattle.gitconf_store.specs.Appends.{kept_at, line_at, put_at, HasNoRoomAt, IsLineAt};
ghost use Rattle.gitconf_store.specs.Edited.{IsEdited};

use crate::store::Store;
use gitconf_body::buffer::{append, check_room, take_back};
use gitconf_items::event::Span;
use gitconf_items::items::Item;
use gitconf_sections::sections::SectionList;
use gitconf_text::line_end::LineEnd;
use gitconf_text::parse::span;
use gitconf_views::fronts::{parts_lines, put_behind};
use gitconf_views::shifted_sections::{copies_before, move_front, move_sections};

/// The items that others are put after at a place: what is held after the section there, or the front if there is no section.
fn items_at<'a>(front: &'a [Item], sections: &'a SectionList, at: usize) -> &'a [Item]
    requires { at ≤ length sections.now.entries - 1 }
    ensures { result.now ≡ kept_at at front.now sections.now.entries }
{
    if sections.is_empty() {
        front
    } else {
        sections.at(at).held
    }
}

/// Adds a line ending to a buffer, or nothing if it has no bytes, and returns its span.
///
/// # Errors
///
/// Those of [`append`].
#[tactic(auto, using(gitconf_body::proofs::Buffers::extending))]
fn put_line_end(buffer: &mut Vec<u8>, line_end: &[u8]) -> Result<Option<Span>, span::Error>
    requires room { length buffer.old.items < 2 ^ 32 }
    ensures ok { OnOk result (buffer.new.items ≡ buffer.old.items ++ line_end.now) }
    ensures line { IfOk result (IsLineAt buffer.new.items line_end.now) }
    ensures grows { Grows result (length line_end.now) buffer.old.items buffer.new.items }
{
    if line_end.is_empty() {
        Ok(None)
    } else {
        Ok(Some(append(buffer, line_end)?))
    }
}

/// Adds another text's bytes to a buffer, and its copies to the copies; and returns how many copies there were.
///
/// # Errors
///
/// Those of [`append`], and of [`copies_before`]. The buffer may have grown.
#[tactic(auto, using(gitconf_body::proofs::Buffers::extending))]
pub(crate) fn put_text(
    buffer: &mut Vec<u8>,
    copies: &mut Vec<u8>,
    other: &[u8],
    other_copies: &[u8],
) -> Result<u32, span::Error>
    requires room { length buffer.old.items < 2 ^ 32 }
    ensures ok { OnOk result (buffer.new.items ≡ buffer.old.items ++ other.now) }
    ensures count { IfOk result (λ count. count ≡ length copies.old.items) }
    ensures fits { IfOk result (λ count. length other_copies.now ≤ 2 ^ 32 - 1 - count) }
    ensures grows { Grows result (length other.now) buffer.old.items buffer.new.items }
    ensures copies { OnOk result (copies.new.items ≡ copies.old.items ++ other_copies.now) }
    ensures err { OnErr result (copies.new.items ≡ copies.old.items) }
{
    let count = copies_before(copies, other_copies)?;
    append(buffer, other)?;
    copies.extend_from_slice(other_copies)?;
    Ok(count)
}

/// Like [`put_text`], but with a line ending before the other's bytes, whose span is returned too.
///
/// # Errors
///
/// Those of [`put_text`].
#[tactic(auto, using(gitconf_body::proofs::Buffers::extending))]
fn put_bytes(
    buffer: &mut Vec<u8>,
    copies: &mut Vec<u8>,
    line_end: &[u8],
    other: &[u8],
    other_copies: &[u8],
) -> Result<(Option<Span>, u32), span::Error>
    requires room { length buffer.old.items < 2 ^ 32 }
    ensures ok { OnOk result (buffer.new.items ≡ (buffer.old.items ++ line_end.now) ++ other.now) }
    ensures line { IfOk result (λ p. IsLineAt (buffer.old.items ++ line_end.now) line_end.now p.0) }
    ensures count { IfOk result (λ p. p.1 ≡ length copies.old.items) }
    ensures fits { IfOk result (λ p. length other_copies.now ≤ 2 ^ 32 - 1 - p.1) }
    ensures grows { Grows result (length line_end.now + length other.now) buffer.old.items buffer.new.items }
    ensures copies { OnOk result (copies.new.items ≡ copies.old.items ++ other_copies.now) }
    ensures err { OnErr result (copies.new.items ≡ copies.old.items) }
{
    let line = put_line_end(buffer, line_end)?;
    let copies_by = put_text(buffer, copies, other, other_copies)?;
    Ok((line, copies_by))
}

impl Store {
    /// The line ending that goes between the items at a place and another's front; no bytes if none is needed.
    fn line_at(&self, at: usize, line_end: LineEnd, other: &Store) -> &'static [u8]
        requires { at ≤ length self.now.sections - 1 }
        ensures bytes { result.now ≡ line_at at (bytes_of_line_end line_end) other.now self.now }
        ensures short { length result.now ≤ 2 }
    {
        let items = items_at(&self.front, &self.sections, at);
        if parts_lines(&self.buffer, items, &other.buffer, &other.front, line_end) {
            line_end.as_bytes()
        } else {
            b""
        }
    }

    /// Checks whether [`Store::put_at`] may add another file to ours. Returns the line ending that then goes between; no bytes if none is
    /// needed. Takes no memory.
    ///
    /// # Errors
    ///
    /// A [`span::Error`] (E3) if and only if [`Store::put_at`] returns it.
    pub fn check_put(
        &self,
        at: usize,
        line_end: LineEnd,
        other: &Store,
    ) -> Result<&'static [u8], span::Error>
        requires { at ≤ length self.now.sections - 1 }
        ensures bytes { IfOk result (λ line. line.now ≡ line_at at (bytes_of_line_end line_end) other.now self.now) }
        ensures short { IfOk result (λ line. length line.now ≤ 2) }
        ensures too_large { IsErrOf result 3 ↔ HasNoRoomAt at (bytes_of_line_end line_end) other.now self.now }
        ensures known { IfErr result (λ e. e ≡ 3) }
    {
        if self.sections.numbers_left() < other.sections.len() {
            return Err(span::Error::too_large());
        }
        let line_end = self.line_at(at, line_end, other);
        check_room(&self.buffer, line_end.len() + other.buffer.len())?;
        Ok(line_end)
    }

    /// Adds the sections of another file after all others, in their order and under the next numbers. The other's front is held after the
    /// section at a place, or joins our front if we have no section; the line ending goes between if there are items that don't end with
    /// one, and the other's don't begin with one.
    ///
    /// The other's bytes are added to the buffer, and its spans are moved in one pass: the time is linear in the other file. Takes memory for
    /// the bytes, the names and the places.
    ///
    /// # Errors
    ///
    /// A [`span::Error`]: E3 if and only if the buffer would be longer than 4294967295 bytes or fewer numbers are left than the other has
    /// sections, before any allocation, otherwise E27 when out of memory. The other is then dropped, and the file as it was.
    pub(crate) fn put_at(
        &mut self,
        at: usize,
        line_end: LineEnd,
        other: Store,
    ) -> Result<(), span::Error>
        requires { at ≤ length self.old.sections - 1 }
        ensures ok { OnOk result (self.new ≡ put_at at (bytes_of_line_end line_end) other self.old) }
        ensures err { OnErr result (self.new ≡ self.old) }
        ensures too_large { IsErrOf result 3 ↔ HasNoRoomAt at (bytes_of_line_end line_end) other self.old }
        ensures known { IfErr result (λ e. (e ≡ 3) ⊎ (e ≡ 27)) }
    {
        let line_end = self.check_put(at, line_end, &other)?;
        let len = self.buffer.len();
        let by = (len + line_end.len()) as u32;
        let bytes = put_bytes(
            &mut self.buffer,
            &mut self.copies,
            line_end,
            &other.buffer,
            &other.copies,
        );
        let (line, copies_by) = take_back(bytes, &mut self.buffer, len)?;
        let Store {
            buffer: _,
            copies: _,
            mut front,
            meta: _,
            mut sections,
        } = other;
        move_front(&mut front, by);
        move_sections(&mut sections, by, copies_by);
        let put = put_behind(
            &mut self.front,
            &mut self.sections,
            at,
            line,
            front,
            sections,
        );
        take_back(put, &mut self.buffer, len)?;
        Ok(())
    }

    /// `File::append` of `gix_config` is this call, and says what it does.
    pub fn append(&mut self, other: Store) -> Result<(), span::Error>
        ensures { IsEdited span_refusal (Append other) result self.old self.new }
    {
        let line_end = self.line_end();
        let last = self.sections.len().saturating_sub(1);
        self.put_at(last, line_end, other)
    }
}
