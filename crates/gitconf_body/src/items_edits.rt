//! The edits of a body's items.
ghost use Rattle.std.specs.Prelude.{◌≡◌, ◌+◌, ◌<◌, ◌^◌, length, option_map, None, OnErr};
ghost use Rattle.std.specs.Option.{option_copied};
ghost use Rattle.gitconf_text.specs.LineEnds.{bytes_of_line_end};
ghost use Rattle.gitconf_text.specs.declared.line_end.LineEnd.TheVariants.{Lf};
ghost use Rattle.gitconf_items.specs.Items.{item_of};
ghost use Rattle.gitconf_state.specs.Edit.{is_entry_of, old_value, set_bytes, set_value};
ghost use Rattle.gitconf_state.specs.Editors as states;
ghost use Rattle.gitconf_body.specs.ValuesAt.{instead_of, rewritten_put, written_put};
ghost use Rattle.gitconf_body.specs.Below.{below_put};
ghost use Rattle.gitconf_body.specs.Editors.{line_put, set_put};
ghost use Rattle.gitconf_body.specs.Places.{IsLastAt, IsLastPlace};
ghost use Rattle.gitconf_body.specs.Growth.{UsedGrows};
ghost use Rattle.gitconf_body.specs.Blanks.{given_editor, IsGiven};
ghost use Rattle.gitconf_body.specs.ItemsEdits.{IsEditorOf};

use crate::editor::{Editor, editor_of};
use crate::items_edit::ItemsEdit;
use crate::seeking::last_place;
use crate::value_at::InPlaceOf;
use crate::{marked, push, push_below, set, take_out, value_at};
use gitconf_items::items::Item;
use gitconf_text::NoMemory;
use gitconf_text::line_end::LineEnd;
use gitconf_text::parse::span;

/// A line after all items: [`push::push`].
#[derive(Clone, Copy)]
pub struct PushLine<'a> {
    pub editor: &'a Editor<'a>,
    pub key: &'a [u8],
    pub value: Option<&'a [u8]>,
    pub comment: Option<&'a [u8]>,
}

impl ItemsEdit for PushLine<'_> {
    type Found = ();

    type Answer = ();

    type Error = span::Error;

    ghost can_edit = { λ e. IsGiven e.editor.now };

    ghost changed = { λ e. states.pushed (given_editor e.editor.now) e.key.now (option_copied e.value) (option_copied e.comment) };

    ghost tells = { λ e items answer. Unit {0} };

    ghost grows = { λ e items result. UsedGrows result (line_put e.editor.now e.key.now (option_copied e.value) (option_copied e.comment)) };

    ghost begins = { λ e items used. used + line_put e.editor.now e.key.now (option_copied e.value) (option_copied e.comment) < 2 ^ 32 };

    ghost is_found = { λ e buffer items found. Unit {0} };

    fn unchanged(&self) {}

    fn look(&self, buffer: &[u8], _items: &[Item]) -> Result<Option<()>, span::Error> {
        push::check_push(buffer, self.editor, self.key, self.value, self.comment)?;
        Ok(Some(()))
    }

    #[tactic(auto, using(crate::proofs::ItemsEdits::counting))]
    fn edit(
        &self,
        _found: (),
        buffer: &mut Vec<u8>,
        items: &mut Vec<Item>,
    ) -> Result<(), span::Error> {
        push::push(
            buffer,
            items,
            self.editor,
            self.key,
            self.value,
            self.comment,
        )
    }
}

/// A line below that of the last entry: [`push_below::push_after_last`].
#[derive(Clone, Copy)]
pub struct PushLineBelow<'a> {
    pub editor: &'a Editor<'a>,
    pub key: &'a [u8],
    pub value: Option<&'a [u8]>,
}

impl ItemsEdit for PushLineBelow<'_> {
    type Found = ();

    type Answer = ();

    type Error = span::Error;

    ghost can_edit = { λ e. IsGiven e.editor.now };

    ghost changed = { λ e. states.pushed_after_last (given_editor e.editor.now) e.key.now (option_copied e.value) };

    ghost tells = { λ e items answer. Unit {0} };

    ghost grows = { λ e items result. UsedGrows result (below_put e.editor.now e.key.now (option_copied e.value) items) };

    ghost begins = { λ e items used. used + below_put e.editor.now e.key.now (option_copied e.value) items < 2 ^ 32 };

    ghost is_found = { λ e buffer items found. Unit {0} };

    fn unchanged(&self) {}

    fn look(&self, buffer: &[u8], items: &[Item]) -> Result<Option<()>, span::Error> {
        push_below::check_push_after_last(buffer, items, self.editor, self.key, self.value)?;
        Ok(Some(()))
    }

    #[tactic(auto, using(crate::proofs::ItemsEdits::counting))]
    fn edit(
        &self,
        _found: (),
        buffer: &mut Vec<u8>,
        items: &mut Vec<Item>,
    ) -> Result<(), span::Error> {
        push_below::push_after_last(buffer, items, self.editor, self.key, self.value)
    }
}

/// The editor's line ending after all items: [`push::push_newline`].
#[derive(Clone, Copy)]
pub struct PushNewline<'a> {
    pub editor: &'a Editor<'a>,
}

impl ItemsEdit for PushNewline<'_> {
    type Found = ();

    type Answer = ();

    type Error = span::Error;

    ghost can_edit = { λ e. Unit {0} };

    ghost changed = { λ e. states.line_end_pushed (given_editor e.editor.now) };

    ghost tells = { λ e items answer. Unit {0} };

    ghost grows = { λ e items result. UsedGrows result (length (bytes_of_line_end e.editor.now.line_end)) };

    ghost begins = { λ e items used. used + length (bytes_of_line_end e.editor.now.line_end) < 2 ^ 32 };

    ghost is_found = { λ e buffer items found. Unit {0} };

    fn unchanged(&self) {}

    fn look(&self, buffer: &[u8], _items: &[Item]) -> Result<Option<()>, span::Error> {
        push::check_newline(buffer, self.editor)?;
        Ok(Some(()))
    }

    #[tactic(auto, using(crate::proofs::ItemsEdits::counting))]
    fn edit(
        &self,
        _found: (),
        buffer: &mut Vec<u8>,
        items: &mut Vec<Item>,
    ) -> Result<(), span::Error> {
        push::push_newline(buffer, items, self.editor)
    }
}

/// Another value for the last entry of a key, or a line with it: [`set::set`].
#[derive(Clone, Copy)]
pub struct SetEntry<'a> {
    pub editor: &'a Editor<'a>,
    pub key: &'a [u8],
    pub value: &'a [u8],
}

impl ItemsEdit for SetEntry<'_> {
    /// The place of the last entry of the key.
    type Found = Option<usize>;

    type Answer = Option<Vec<u8>>;

    type Error = span::Error;

    ghost can_edit = { λ e. IsGiven e.editor.now };

    ghost changed = { λ e. states.value_set (given_editor e.editor.now) e.key.now e.value.now };

    ghost tells = { λ e items answer. option_map (λ v. v.items) answer ≡ old_value e.key.now items };

    ghost grows = { λ e items result. UsedGrows result (set_put e.editor.now e.key.now e.value.now items) };

    ghost begins = { λ e items used. used + set_put e.editor.now e.key.now e.value.now items < 2 ^ 32 };

    ghost is_found = { λ e buffer items found. IsLastPlace (λ i. is_entry_of e.key.now (item_of buffer i)) items found };

    fn unchanged(&self) -> Option<Vec<u8>> {
        None
    }

    fn look(&self, buffer: &[u8], items: &[Item]) -> Result<Option<Option<usize>>, span::Error> {
        let place = set::place_to_set(buffer, items, self.editor, self.key, self.value)?;
        Ok(Some(place))
    }

    #[tactic(auto, using(crate::proofs::ItemsEdits::counting))]
    fn edit(
        &self,
        place: Option<usize>,
        buffer: &mut Vec<u8>,
        items: &mut Vec<Item>,
    ) -> Result<Option<Vec<u8>>, span::Error> {
        set::set_at(buffer, items, place, self.editor, self.key, self.value)
    }
}

/// The same, with the blanks that the items use.
#[derive(Clone, Copy)]
pub struct SetInSection<'a> {
    pub line_end: LineEnd,
    pub key: &'a [u8],
    pub value: &'a [u8],
}

/// The blanks that items use, and the place of a key's last entry among them.
#[derive(Drop)]
pub struct SetPlace {
    editor: Editor<'static>,
    place: Option<usize>,
}

impl ItemsEdit for SetInSection<'_> {
    type Found = SetPlace;

    type Answer = Option<Vec<u8>>;

    type Error = span::Error;

    ghost can_edit = { λ e. Unit {0} };

    ghost changed = { λ e. set_value (bytes_of_line_end e.line_end) e.key.now e.value.now };

    ghost tells = { λ e items answer. option_map (λ v. v.items) answer ≡ old_value e.key.now items };

    ghost grows = { λ e items result. UsedGrows result (set_bytes (bytes_of_line_end e.line_end) e.key.now e.value.now items) };

    ghost begins = { λ e items used. used + set_bytes (bytes_of_line_end e.line_end) e.key.now e.value.now items < 2 ^ 32 };

    ghost is_found = { λ e buffer items found. IsEditorOf e.line_end items found.editor × IsLastPlace (λ i. is_entry_of e.key.now (item_of buffer i)) items found.place };

    fn unchanged(&self) -> Option<Vec<u8>> {
        None
    }

    fn look(&self, buffer: &[u8], items: &[Item]) -> Result<Option<SetPlace>, span::Error> {
        let editor = editor_of(items, self.line_end);
        let place = set::place_to_set(buffer, items, &editor, self.key, self.value)?;
        Ok(Some(SetPlace { editor, place }))
    }

    #[tactic(auto, using(crate::proofs::ItemsEdits::counting))]
    fn edit(
        &self,
        found: SetPlace,
        buffer: &mut Vec<u8>,
        items: &mut Vec<Item>,
    ) -> Result<Option<Vec<u8>>, span::Error> {
        set::set_at(
            buffer,
            items,
            found.place,
            &found.editor,
            self.key,
            self.value,
        )
    }
}

/// Without the last entry of a key: [`take_out::remove_at`].
#[derive(Clone, Copy)]
pub struct RemoveEntry<'a> {
    pub key: &'a [u8],
}

impl ItemsEdit for RemoveEntry<'_> {
    /// The place of the last entry of the key.
    type Found = usize;

    type Answer = Option<Vec<u8>>;

    type Error = NoMemory;

    ghost can_edit = { λ e. Unit {0} };

    ghost changed = { λ e. states.removed e.key.now };

    ghost tells = { λ e items answer. option_map (λ v. v.items) answer ≡ old_value e.key.now items };

    ghost grows = { λ e items result old new. (new ≡ old) × OnErr result (old_value e.key.now items ≡ None → ⊥) };

    ghost begins = { λ e items used. old_value e.key.now items ≡ None → ⊥ };

    ghost is_found = { λ e buffer items place. IsLastAt (λ i. is_entry_of e.key.now (item_of buffer i)) items place };

    fn unchanged(&self) -> Option<Vec<u8>> {
        None
    }

    fn look(&self, buffer: &[u8], items: &[Item]) -> Result<Option<usize>, NoMemory> {
        Ok(last_place(buffer, items, self.key))
    }

    fn edit(
        &self,
        place: usize,
        buffer: &mut Vec<u8>,
        items: &mut Vec<Item>,
    ) -> Result<Option<Vec<u8>>, NoMemory> {
        let value = take_out::remove_at(buffer, items, place)?;
        Ok(Some(value))
    }
}

/// Without the marked entries of a key: [`marked::remove_marked`].
#[derive(Clone, Copy)]
pub struct RemoveMarkedEntries<'a> {
    pub key: &'a [u8],
    pub marks: &'a [bool],
}

impl ItemsEdit for RemoveMarkedEntries<'_> {
    type Found = ();

    type Answer = usize;

    type Error = NoMemory;

    ghost can_edit = { λ e. Unit {0} };

    ghost changed = { λ e. states.removed_marked e.key.now e.marks.now };

    ghost tells = { λ e items answer. answer ≡ states.marked_count e.key.now e.marks.now items };

    ghost grows = { λ e items result old new. new ≡ old };

    ghost begins = { λ e items used. Unit {0} };

    ghost is_found = { λ e buffer items found. Unit {0} };

    fn unchanged(&self) -> usize {
        0
    }

    fn look(&self, _buffer: &[u8], _items: &[Item]) -> Result<Option<()>, NoMemory> {
        Ok(Some(()))
    }

    fn edit(
        &self,
        _found: (),
        buffer: &mut Vec<u8>,
        items: &mut Vec<Item>,
    ) -> Result<usize, NoMemory> {
        marked::remove_marked(buffer, items, self.key, self.marks)
    }
}

/// Without the last entry, and what comes after it: [`take_out::pop`].
#[derive(Clone, Copy)]
pub struct PopEntry {}

impl ItemsEdit for PopEntry {
    type Found = ();

    type Answer = Option<(Vec<u8>, Vec<u8>)>;

    type Error = NoMemory;

    ghost can_edit = { λ e. Unit {0} };

    ghost changed = { λ e. states.popped };

    ghost tells = { λ e items answer. option_map (λ t. (t.0.items, t.1.items)) answer ≡ states.popped_entry items };

    ghost grows = { λ e items result old new. (new ≡ old) × OnErr result (states.popped_entry items ≡ None → ⊥) };

    ghost begins = { λ e items used. Unit {0} };

    ghost is_found = { λ e buffer items found. Unit {0} };

    fn unchanged(&self) -> Option<(Vec<u8>, Vec<u8>)> {
        None
    }

    fn look(&self, _buffer: &[u8], _items: &[Item]) -> Result<Option<()>, NoMemory> {
        Ok(Some(()))
    }

    fn edit(
        &self,
        _found: (),
        buffer: &mut Vec<u8>,
        items: &mut Vec<Item>,
    ) -> Result<Option<(Vec<u8>, Vec<u8>)>, NoMemory> {
        take_out::pop(buffer, items)
    }
}

/// An entry written at a place: [`value_at::write_at`].
#[derive(Clone, Copy)]
pub struct WriteEntry<'a> {
    pub editor: &'a Editor<'a>,
    pub place: usize,
    pub in_place_of: InPlaceOf,
    pub key: &'a [u8],
    pub value: &'a [u8],
}

impl ItemsEdit for WriteEntry<'_> {
    type Found = ();

    type Answer = ();

    type Error = span::Error;

    ghost can_edit = { λ e. IsGiven e.editor.now };

    ghost changed = { λ e. states.written_at (given_editor e.editor.now) e.place (instead_of e.in_place_of) e.key.now e.value.now };

    ghost tells = { λ e items answer. Unit {0} };

    ghost grows = { λ e items result. UsedGrows result (written_put e.editor.now e.key.now e.value.now) };

    ghost begins = { λ e items used. used + written_put e.editor.now e.key.now e.value.now < 2 ^ 32 };

    ghost is_found = { λ e buffer items found. Unit {0} };

    fn unchanged(&self) {}

    fn look(&self, buffer: &[u8], _items: &[Item]) -> Result<Option<()>, span::Error> {
        value_at::check_write(buffer, self.editor, self.key, self.value)?;
        Ok(Some(()))
    }

    #[tactic(auto, using(crate::proofs::ItemsEdits::counting))]
    fn edit(
        &self,
        _found: (),
        buffer: &mut Vec<u8>,
        items: &mut Vec<Item>,
    ) -> Result<(), span::Error> {
        value_at::write_at(
            buffer,
            items,
            self.editor,
            self.place,
            self.in_place_of,
            self.key,
            self.value,
        )
    }
}

/// The same, with the blanks around `=` that the items use.
#[derive(Clone, Copy)]
pub struct RewriteEntry<'a> {
    pub place: usize,
    pub in_place_of: InPlaceOf,
    pub key: &'a [u8],
    pub value: &'a [u8],
}

impl ItemsEdit for RewriteEntry<'_> {
    /// The editor with these blanks.
    type Found = Editor<'static>;

    type Answer = ();

    type Error = span::Error;

    ghost can_edit = { λ e. Unit {0} };

    ghost changed = { λ e items. states.written_at (states.editor_of_body (bytes_of_line_end Lf) items) e.place (instead_of e.in_place_of) e.key.now e.value.now items };

    ghost tells = { λ e items answer. Unit {0} };

    ghost grows = { λ e items result. UsedGrows result (rewritten_put e.key.now e.value.now items) };

    ghost begins = { λ e items used. used + rewritten_put e.key.now e.value.now items < 2 ^ 32 };

    ghost is_found = { λ e buffer items editor. IsEditorOf Lf items editor };

    fn unchanged(&self) {}

    fn look(&self, buffer: &[u8], items: &[Item]) -> Result<Option<Editor<'static>>, span::Error> {
        // No line ending is written, so any will do.
        let editor = editor_of(items, LineEnd::Lf);
        value_at::check_write(buffer, &editor, self.key, self.value)?;
        Ok(Some(editor))
    }

    #[tactic(auto, using(crate::proofs::ItemsEdits::counting))]
    fn edit(
        &self,
        editor: Editor<'static>,
        buffer: &mut Vec<u8>,
        items: &mut Vec<Item>,
    ) -> Result<(), span::Error> {
        value_at::write_at(
            buffer,
            items,
            &editor,
            self.place,
            self.in_place_of,
            self.key,
            self.value,
        )
    }
}
