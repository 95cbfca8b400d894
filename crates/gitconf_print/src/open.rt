//! What the next item would run together with.
ghost use Rattle.std.specs.Prelude.{◌≡◌, ℕ, List};
ghost use Rattle.gitconf_items.specs.Items.{item_of, assigned_of};
ghost use Rattle.gitconf_state.specs.Writing as spec;
ghost use Rattle.gitconf_items.specs.Events.{bytes_of};
ghost use Rattle.gitconf_print.specs.Open.{open_of};

use gitconf_items::entry::{AssignedRef, Entry};
use gitconf_items::event::Span;
use gitconf_items::items::Item;

/// What comes before in the same list, since the last line ending.
#[derive(Clone, Copy)]
pub(crate) enum Open {
    /// Nothing.
    Closed,
    /// A name without `=`, and no byte after it.
    Key,
    /// A name without `=`, and blanks after it.
    KeyAndBlanks,
    /// A value.
    Value,
    /// A comment.
    Comment,
}

impl Open {
    /// Whether a line ending has to come before the item.
    pub(crate) fn breaks(self, in_body: bool, item: &Item) -> bool
        ensures { (buffer : List ℕ) → result ≡ spec.breaks_behind in_body (open_of self) (item_of buffer item.now) }
    {
        match item {
            Item::Blanks(_) | Item::LineEnds(_) => false,
            Item::Comment { .. } => matches!(self, Open::Comment),
            Item::Entry(_) => in_body && !matches!(self, Open::Closed),
        }
    }

    /// What comes before the next item, after this one.
    pub(crate) fn after(self, buffer: &[u8], item: &Item) -> Open
        ensures { open_of result ≡ spec.after (open_of self) (item_of buffer.now item.now) }
    {
        match item {
            Item::Blanks(run) => self.after_blanks(buffer, *run),
            Item::LineEnds(_) => Open::Closed,
            Item::Comment { .. } => Open::Comment,
            Item::Entry(entry) => self.after_entry(buffer, entry),
        }
    }

    /// What comes before the next item, after blanks.
    #[inline(always)]
    pub(crate) fn after_blanks(self, buffer: &[u8], run: Span) -> Open
        ensures { open_of result ≡ spec.after_blanks (bytes_of buffer.now run) (open_of self) }
    {
        match self {
            Open::Key if !run.bytes_in(buffer).is_empty() => Open::KeyAndBlanks,
            _ => self,
        }
    }

    /// The line endings of a value of several pieces close a comment before it, but not the value.
    fn after_entry(self, buffer: &[u8], entry: &Entry) -> Open
        ensures { open_of result ≡ spec.after_entry (open_of self) (bytes_of buffer.now entry.now.blanks) (assigned_of buffer.now entry.now.assigned) }
    {
        if matches!(self, Open::Comment) {
            return after_comment(entry);
        }
        match entry.assigned() {
            AssignedRef::Nothing => Open::Key.after_blanks(buffer, entry.blanks()),
            AssignedRef::Plain { .. } | AssignedRef::Continued(_) => Open::Value,
        }
    }
}

/// What comes before the next item, after an entry after a comment.
fn after_comment(entry: &Entry) -> Open
    ensures { (buffer : List ℕ) → open_of result ≡ spec.after_entry spec.OpenComment (bytes_of buffer entry.now.blanks) (assigned_of buffer entry.now.assigned) }
{
    match entry.assigned() {
        AssignedRef::Continued(continued) if !continued.value.pieces.is_empty() => Open::Value,
        AssignedRef::Nothing | AssignedRef::Plain { .. } | AssignedRef::Continued(_) => {
            Open::Comment
        }
    }
}
