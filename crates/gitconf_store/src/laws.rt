//! What holds of buffers, spans and edits, for all of them: each law is a function that does nothing.
ghost use Rattle.std.specs.Prelude.{◌≡◌, ◌≢◌, ◌+◌, ◌≤◌, ℕ, Bool, List, ◌++◌, Option, Some, flat_map, length, true};
ghost use Rattle.gitconf_text.specs.Header.{spelled_header};
ghost use Rattle.gitconf_text.specs.Part as parts;
ghost use Rattle.gitconf_text.specs.Part.{spelled_item};
ghost use Rattle.std.specs.List.{list_any};
ghost use Rattle.gitconf_sources.specs.Metadata.{Meta};
ghost use Rattle.gitconf_items.specs.declared.event.Header.{Header};
ghost use Rattle.gitconf_items.specs.declared.items.Item.{Item};
ghost use Rattle.gitconf_items.specs.Events.{header_of, HeaderFits};
ghost use Rattle.gitconf_items.specs.ItemsFit.{AreItemsWithin};
ghost use Rattle.gitconf_state.specs.Editors as states;
ghost use Rattle.gitconf_state.specs.Editors.{InsteadOf, written_at};
ghost use Rattle.gitconf_state.specs.Edit.{header_bytes, is_target, set_raw_value_bytes};
ghost use Rattle.gitconf_sources.specs.declared.source.Trust.{Trust};
ghost use Rattle.gitconf_state.specs.Edits.{Append, DeleteAt, Detached, Push, PushSection, Rename, RenameAll, SetRawValue, SetTrust, SetValue, WriteAt, apply, change_items, items_of_numbered, new_bytes, renamed, with_trust};
ghost use Rattle.gitconf_state.specs.State.{AreNumbered, SectionState, State};
ghost use Rattle.gitconf_views.specs.Alone.{section_size, with_items};
ghost use Rattle.gitconf_items.specs.Items.{items_of};
ghost use Rattle.gitconf_body.specs.declared.editor.Editor.{Editor};
ghost use Rattle.gitconf_body.specs.Editors.{line_put, set_put};
ghost use Rattle.gitconf_body.specs.ValuesAt.{rewritten_put, written_put};
ghost use Rattle.gitconf_store.specs.Appends.{appended_bytes};
ghost use Rattle.gitconf_body.specs.Blanks.{given_editor};
ghost use Rattle.gitconf_store.specs.Several.{meaning_of_place, moved_up};
ghost use Rattle.gitconf_lookups.specs.ValuePlaces.{editor_of_numbered, meaning_at};

/// Bytes that are added to a buffer change nothing of what spans within it say. These spans are also within the longer buffer.
pub fn appending_leaves_every_view()
    ensures items { (buffer more : List ℕ) (items : List Item) → AreItemsWithin (length buffer) items
        → items_of (buffer ++ more) items ≡ items_of buffer items }
    ensures headers { (buffer more : List ℕ) (h : Header) → HeaderFits (length buffer) h → header_of (buffer ++ more) h ≡ header_of buffer h }
    ensures within { (buffer more : List ℕ) (items : List Item) → AreItemsWithin (length buffer) items → AreItemsWithin (length (buffer ++ more)) items }
{}

/// What `set_raw_value` adds to the buffer is no longer than the tokens it makes.
pub fn edits_put_no_more_than_their_tokens()
    ensures { (name : List ℕ) (subsection : Option (List ℕ)) (key : List ℕ) (keeps : Meta → Bool) (value : List ℕ) (state : State)
        → set_raw_value_bytes name subsection key keeps value state ≤ new_bytes (SetRawValue name subsection key keeps value) state }
{}

/// Appending a file adds no more bytes than the file's buffer and a line ending. They are added to the buffer of the file that is
/// appended to.
pub fn appended_files_put_no_more_than_their_bytes()
    ensures { (other state : State) → appended_bytes other state ≤ new_bytes (Append other) state }
{}

/// What an editor adds to the buffer is no longer than the tokens it makes. This holds for a line that is pushed, for a value that is
/// set, and for an entry that is written at a place, with blanks of the editor's own or with those that the section has.
pub fn editors_put_no_more_than_their_tokens()
    ensures pushed { (number : ℕ) (editor : Editor) (key : List ℕ) (value comment : Option (List ℕ)) (state : State)
        → line_put editor key value comment ≤ new_bytes (Push number (given_editor editor) key value comment) state }
    ensures set { (number : ℕ) (editor : Editor) (key value : List ℕ) (state : State)
        → set_put editor key value (items_of_numbered number state) ≤ new_bytes (SetValue number (given_editor editor) key value) state }
    ensures written { (number place : ℕ) (editor : Editor) (instead : InsteadOf) (key value : List ℕ) (state : State)
        → written_put editor key value ≤ new_bytes (WriteAt number (given_editor editor) place instead key value) state }
    ensures rewritten { (number place : ℕ) (instead : InsteadOf) (key value : List ℕ) (state : State)
        → rewritten_put key value (items_of_numbered number state)
        ≤ new_bytes (WriteAt number (editor_of_numbered number state) place instead key value) state }
{}

/// An entry that was written at a place then means the value that was given. This holds whatever the value's bytes.
pub fn written_values_are_read()
    ensures { (editor : states.Editor) (place : ℕ) (instead : InsteadOf) (key value : List ℕ) (items : List parts.Item) → place ≤ length items
        → meaning_at place (written_at editor place instead key value items) ≡ Some value }
{}

/// The entries that are left when another one is deleted mean what they did. Each is read at the place where it then is.
pub fn deletions_leave_other_values()
    ensures { (gone place : ℕ × ℕ) (state : State) → place ≢ gone
        → meaning_of_place (apply (DeleteAt gone.0 gone.1) state) (moved_up gone place) ≡ meaning_of_place state place }
{}

/// What a header adds to the buffer is no longer than its tokens. This holds for one section that is renamed and for all that pass.
pub fn headers_put_no_more_than_their_tokens()
    ensures one { (number : ℕ) (name : List ℕ) (subsection : Option (List ℕ)) (state : State)
        → header_bytes name subsection ≤ new_bytes (Rename number name subsection) state }
    ensures all { (name : List ℕ) (subsection : Option (List ℕ)) (keeps : Meta → Bool) (new_name : List ℕ) (new_subsection : Option (List ℕ)) (state : State)
        → list_any (is_target name subsection keeps) state.sections ≡ true
        → header_bytes new_name new_subsection ≤ new_bytes (RenameAll name subsection keeps new_name new_subsection) state }
{}

/// Editing a section before it is put into a file is like editing it there. A section that is edited while it is in no file, and then
/// put into a file, is there as if it had been put there first, and edited by the number that it got: whatever happens to its items,
/// its header or its trust.
pub fn sections_are_edited_alone_as_in_a_file()
    ensures items { (change : List parts.Item → List parts.Item) (detached : Detached) (state : State) → AreNumbered state.next state.sections
        → change_items state.next change (apply (PushSection detached) state)
        ≡ apply (PushSection (record detached { section = with_items change detached.section })) state }
    ensures renamed { (name : List ℕ) (subsection : Option (List ℕ)) (detached : Detached) (state : State) → AreNumbered state.next state.sections
        → apply (Rename state.next name subsection) (apply (PushSection detached) state)
        ≡ apply (PushSection (record detached { section = renamed name subsection detached.section })) state }
    ensures trusted { (trust : Trust) (detached : Detached) (state : State) → AreNumbered state.next state.sections
        → apply (SetTrust state.next trust) (apply (PushSection detached) state)
        ≡ apply (PushSection (record detached { section = with_trust trust detached.section })) state }
{}

/// A section is returned with no more bytes than its text has. The text is that of its header and its body.
pub fn own_bytes_are_no_more_than_the_text()
    ensures { (s : SectionState) → section_size s ≤ length (spelled_header s.header) + length (flat_map spelled_item s.items) }
{}
