//! Edits of a list of items, which is lent to the edit with the buffer that its spans are offsets of.
ghost use Rattle.std.specs.Prelude.{◌≡◌, ◌<◌, ◌^◌, length, IfOk, OnErr, OnOk};
ghost use Rattle.gitconf_items.specs.Items.{items_of};
ghost use Rattle.gitconf_items.specs.ItemsFit.{AreItemsWithin};
ghost use Rattle.gitconf_items.specs.ShownEvents.{IsExtended};

use crate::buffer::take_back;
use gitconf_items::items::Item;

/// An edit of a list of items. It works over the buffer that their spans are offsets of.
pub trait ItemsEdit {
    ghost use Rattle.std.specs.Prelude.{◌≡◌, ◌<◌, ◌^◌, ℕ, List, [], Result, Ok, Err, None, length, IfErr, IfOk, IfSome, OnErr, OnOk};
    ghost use Rattle.gitconf_text.specs.Part as parts;
    ghost use Rattle.gitconf_items.specs.declared.items.Item.{Item};
    ghost use Rattle.gitconf_items.specs.Items.{items_of};
    ghost use Rattle.gitconf_items.specs.ItemsFit.{AreItemsWithin};
    ghost use Rattle.gitconf_items.specs.ShownEvents.{IsExtended};

    /// What a look at the items finds: where they are changed, and with which blanks.
    type Found: Drop;
    /// What the edit returns.
    type Answer: Drop;
    /// Why it is refused.
    type Error: Drop;

    /// What has to hold of it: that its blanks are at no spans of the buffer, say.
    ghost can_edit: { Self → Type 0 };

    /// What it makes of the items.
    ghost changed: { Self → List parts.Item → List parts.Item };

    /// What it returns of them.
    ghost tells: { Self → List parts.Item → Self.Answer → Type 0 };

    /// How many bytes the buffer has before it and after it, by how it ends.
    ghost grows: { Self → List parts.Item → Result Self.Answer Self.Error → ℕ → ℕ → Type 0 };

    /// What is known of the items and of the buffer's bytes. It is known once there is something to change.
    ghost begins: { Self → List parts.Item → ℕ → Type 0 };

    /// What is found in the items, as they are stored.
    ghost is_found: { Self → List ℕ → List Item → Self.Found → Type 0 };

    /// What it returns where there is nothing to change, as of no items.
    fn unchanged(&self) -> Self::Answer
        ensures { tells self.now [] result };

    /// Looks for what is to be changed, and whether it may be changed. It is `None` if nothing is to be changed. Nothing has grown then.
    fn look(&self, buffer: &[u8], items: &[Item]) -> Result<Option<Self::Found>, Self::Error>
        requires room { length buffer.now < 2 ^ 32 }
        requires edit { can_edit self.now }
        requires within { AreItemsWithin (length buffer.now) items.now }
        ensures found { IfOk result (λ o. IfSome o (is_found self.now buffer.now items.now)) }
        ensures begun { IfOk result (λ o. IfSome o (λ _. begins self.now (items_of buffer.now items.now) (length buffer.now))) }
        ensures same { IfOk result (λ o. o ≡ None → changed self.now (items_of buffer.now items.now) ≡ items_of buffer.now items.now) }
        ensures tells { IfOk result (λ o. o ≡ None → (a : Self.Answer) → tells self.now [] a → tells self.now (items_of buffer.now items.now) a) }
        ensures stays { IfOk result (λ o. o ≡ None → (a : Self.Answer) → grows self.now (items_of buffer.now items.now) (Ok a) (length buffer.now) (length buffer.now)) }
        ensures refused { IfErr result (λ e. grows self.now (items_of buffer.now items.now) (Err e) (length buffer.now) (length buffer.now)) };

    /// Changes what was found. Refused, it leaves the items as they were; the buffer may have grown, which [`edit_or_leave`] takes back.
    fn edit(
        &self,
        found: Self::Found,
        buffer: &mut Vec<u8>,
        items: &mut Vec<Item>,
    ) -> Result<Self::Answer, Self::Error>
        requires room { length buffer.old.items < 2 ^ 32 }
        requires edit { can_edit self.now }
        requires within { AreItemsWithin (length buffer.old.items) items.old.items }
        requires found { is_found self.now buffer.old.items items.old.items found }
        requires begun { begins self.now (items_of buffer.old.items items.old.items) (length buffer.old.items) }
        ensures ok { OnOk result (items_of buffer.new.items items.new.items ≡ changed self.now (items_of buffer.old.items items.old.items)) }
        ensures err { OnErr result (items.new.items ≡ items.old.items) }
        ensures tells { IfOk result (tells self.now (items_of buffer.old.items items.old.items)) }
        ensures put { OnOk result (grows self.now (items_of buffer.old.items items.old.items) result (length buffer.old.items) (length buffer.new.items)) }
        ensures refused { OnErr result (grows self.now (items_of buffer.old.items items.old.items) result (length buffer.old.items) (length buffer.old.items)) }
        ensures extended { IsExtended buffer.old.items buffer.new.items }
        ensures room { length buffer.new.items < 2 ^ 32 }
        ensures within { AreItemsWithin (length buffer.new.items) items.new.items };
}

/// Changes what was found, as [`ItemsEdit::edit`] does. Refused, it leaves the buffer as it was, too.
pub fn edit_or_leave<E: ItemsEdit>(
    edit: &E,
    found: E::Found,
    buffer: &mut Vec<u8>,
    items: &mut Vec<Item>,
) -> Result<E::Answer, E::Error>
    requires room { length buffer.old.items < 2 ^ 32 }
    requires edit { E.can_edit edit.now }
    requires within { AreItemsWithin (length buffer.old.items) items.old.items }
    requires found { E.is_found edit.now buffer.old.items items.old.items found }
    requires begun { E.begins edit.now (items_of buffer.old.items items.old.items) (length buffer.old.items) }
    ensures ok { OnOk result (items_of buffer.new.items items.new.items ≡ E.changed edit.now (items_of buffer.old.items items.old.items)) }
    ensures err { OnErr result (items.new.items ≡ items.old.items) }
    ensures left { OnErr result (buffer.new.items ≡ buffer.old.items) }
    ensures tells { IfOk result (E.tells edit.now (items_of buffer.old.items items.old.items)) }
    ensures grows { E.grows edit.now (items_of buffer.old.items items.old.items) result (length buffer.old.items) (length buffer.new.items) }
    ensures extended { IsExtended buffer.old.items buffer.new.items }
    ensures room { length buffer.new.items < 2 ^ 32 }
    ensures within { AreItemsWithin (length buffer.new.items) items.new.items }
{
    let len = buffer.len();
    take_back(edit.edit(found, buffer, items), buffer, len)
}
