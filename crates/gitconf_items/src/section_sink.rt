//! What takes the sections of a text as they are read.
ghost use Rattle.std.specs.Prelude.{◌≡◌, ◌++◌, [], List, ℕ, length, flat_map, OnOk};
ghost use Rattle.std.specs.List.{AllByRecursion};
ghost use Rattle.gitconf_text.specs.Token.{Token};
ghost use Rattle.gitconf_items.specs.Events.{HeaderFits};
ghost use Rattle.gitconf_items.specs.Items.{headed_tokens, tokens_of_section};
ghost use Rattle.gitconf_items.specs.ItemsFit.{AreItemsWithin, SectionFits};

use crate::event::Header;
use crate::items::{Item, Section, moved_out};
use gitconf_text::NoMemory;

/// What takes sections one by one, in the order of the text. So they need not be in a list first.
///
/// `tokens` says what it took, in the buffer that the spans of the sections are offsets of, and `keeps` what has held
/// since it took the first of them.
pub trait SectionSink {
    ghost tokens: { List ℕ → Self → List Token };

    ghost keeps: { List ℕ → Self → Self → Type 0 };

    /// Takes the next section of the buffer: its header, and the items of a list, which is then empty and may be filled again.
    ///
    /// # Errors
    ///
    /// Out of memory.
    fn take(&mut self, buffer: &[u8], header: Header, items: &mut Vec<Item>) -> Result<(), NoMemory>
        requires fits { HeaderFits (length buffer.now) header }
        requires within { AreItemsWithin (length buffer.now) items.old.items }
        requires keeps { (first : Self) × keeps buffer.now first self.old }
        ensures keeps { OnOk result ((first : Self) → keeps buffer.now first self.old → keeps buffer.now first self.new) }
        ensures tokens { OnOk result (tokens buffer.now self.new ≡ tokens buffer.now self.old ++ headed_tokens buffer.now header items.old.items) }
        ensures taken { OnOk result (items.new.items ≡ []) };
}

/// Each section becomes the last of the list, with a list of its items.
impl SectionSink for Vec<Section> {
    ghost tokens = { λ buffer v. flat_map (tokens_of_section buffer) v.items };

    ghost keeps = { λ buffer first v. AllByRecursion (SectionFits (length buffer)) v.items };

    fn take(
        &mut self,
        buffer: &[u8],
        header: Header,
        items: &mut Vec<Item>,
    ) -> Result<(), NoMemory> {
        // A list keeps the spans as they are, so it doesn't look at the buffer.
        let _ = buffer;
        let items = moved_out(items)?;
        Ok(self.push(Section { header, items })?)
    }
}
