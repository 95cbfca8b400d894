//! Edits of the items of one section of a store.
use crate::store::Store;
use gitconf_body::items_edit::{ItemsEdit, edit_or_leave};
use gitconf_sections::id::SectionId;
use gitconf_text::NoMemory;

impl Store {
    ghost use Rattle.std.specs.Prelude.{◌≡◌, ◌<◌, ◌^◌, List, true, length, slice_get, None, IfOk, IfSome, IsOk, OnErr, OnOk};
    ghost use Rattle.std.specs.List.{list_all};
    ghost use Rattle.gitconf_text.specs.Part as parts;
    ghost use Rattle.gitconf_state.specs.Edit.{with_used};
    ghost use Rattle.gitconf_state.specs.Edits.{change_items, items_of_numbered, numbered};
    ghost use Rattle.gitconf_state.specs.State.{is_item};
    ghost use Rattle.gitconf_store.specs.ItemsEdits.{changed_at_place};

    /// Edits the items of the section at a place.
    ///
    /// # Errors
    ///
    /// Out of memory for the items of the section, if it has none of its own. The edit's errors are within. All is then as it was.
    pub(crate) fn edit_items_at<E: ItemsEdit>(
        &mut self,
        at: usize,
        edit: &E,
    ) -> Result<Result<E::Answer, E::Error>, NoMemory>
        requires at { at < length self.old.sections }
        requires edit { E.can_edit edit.now }
        requires keeps { (items : List parts.Item) → list_all is_item items ≡ true → list_all is_item (E.changed edit.now items) ≡ true }
        ensures ok { IfOk result (λ edited. OnOk edited (self.new ≡ with_used self.new.used
            (changed_at_place at (E.changed edit.now) self.old))) }
        ensures err { IfOk result (λ edited. OnErr edited (self.new ≡ self.old)) }
        ensures out { OnErr result (self.new ≡ self.old) }
        ensures tells { IfOk result (λ edited. IfOk edited (λ a. IfSome (slice_get self.old.sections at) (λ s. E.tells edit.now s.items a))) }
        ensures grows { IfOk result (λ edited. IfSome (slice_get self.old.sections at) (λ s. E.grows edit.now s.items edited self.old.used self.new.used)) }
        ensures begun { OnErr result (IfSome (slice_get self.old.sections at) (λ s. E.begins edit.now s.items self.old.used)) }
    {
        let section = self.sections.at(at);
        let found = match edit.look(&self.buffer, section.items) {
            Ok(Some(found)) => found,
            Ok(None) => return Ok(Ok(edit.unchanged())),
            Err(refused) => return Ok(Err(refused)),
        };
        let mut items = self.sections.take_items(at)?;
        let edited = edit_or_leave(edit, found, &mut self.buffer, &mut *items);
        self.sections.put_items(at, items);
        Ok(edited)
    }

    /// Edits the items of the section of a number. If no section has it, nothing is changed.
    ///
    /// The section is found in constant time.
    ///
    /// # Errors
    ///
    /// Those of [`Store::edit_items_at`].
    pub(crate) fn edit_items<E: ItemsEdit>(
        &mut self,
        id: SectionId,
        edit: &E,
    ) -> Result<Result<E::Answer, E::Error>, NoMemory>
        requires edit { E.can_edit edit.now }
        requires keeps { (items : List parts.Item) → list_all is_item items ≡ true → list_all is_item (E.changed edit.now items) ≡ true }
        ensures ok { IfOk result (λ edited. OnOk edited (self.new ≡ with_used self.new.used (change_items id (E.changed edit.now) self.old))) }
        // Of any change that makes the same of the section's items.
        ensures says { (change : List parts.Item → List parts.Item) → change (items_of_numbered id self.old) ≡ E.changed edit.now (items_of_numbered id self.old)
            → IfOk result (λ edited. OnOk edited (self.new ≡ with_used self.new.used (change_items id change self.old))) }
        ensures err { IfOk result (λ edited. OnErr edited (self.new ≡ self.old)) }
        ensures out { OnErr result (self.new ≡ self.old) }
        ensures tells { IfOk result (λ edited. IfOk edited (E.tells edit.now (items_of_numbered id self.old))) }
        ensures grows { IfOk result (λ edited. IfSome (numbered id self.old) (λ s. E.grows edit.now s.items edited self.old.used self.new.used)) }
        ensures missing { numbered id self.old ≡ None → self.new ≡ self.old }
        ensures found { numbered id self.old ≡ None → IsOk result }
        ensures done { numbered id self.old ≡ None → IfOk result IsOk }
        ensures begun { OnErr result (IfSome (numbered id self.old) (λ s. E.begins edit.now s.items self.old.used)) }
        // What holds of every file.
        ensures room { self.old.used < 2 ^ 32 }
    {
        match self.sections.position(id) {
            Some(at) => self.edit_items_at(at, edit),
            None => Ok(Ok(edit.unchanged())),
        }
    }
}
