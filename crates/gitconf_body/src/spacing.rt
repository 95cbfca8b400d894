//! The blanks that a body uses.
ghost use Rattle.std.specs.Prelude.{◌≡◌, None};
ghost use Rattle.std.specs.List.{list_any};
ghost use Rattle.gitconf_body.specs.Spacings as spec;

use gitconf_items::entry::AssignedRef;
use gitconf_items::event::Span;
use gitconf_items::items::Item;

/// Whether an item is an entry.
pub fn has_entry(items: &[Item]) -> bool
    ensures { result ≡ list_any spec.is_stored_entry items.now }
{
    items.iter().any(|item| matches!(item, Item::Entry(_)))
}

/// The blanks directly before the first entry.
pub fn leading_blanks(items: &[Item]) -> Option<Span>
    ensures { result ≡ spec.leading_span None items.now }
{
    let mut last = None;
    for item in items {
        match item {
            Item::Blanks(run) => last = Some(*run),
            Item::LineEnds(_) | Item::Comment { .. } => last = None,
            Item::Entry(_) => return last,
        }
    }
    None
}

/// The blanks before and after the first `=`.
pub fn separator_blanks(items: &[Item]) -> (Span, Span)
    ensures { result ≡ spec.separator_spans items.now }
{
    for item in items {
        if let Item::Entry(entry) = item {
            match entry.assigned() {
                AssignedRef::Nothing => {}
                AssignedRef::Plain { blanks, .. } => return (entry.blanks(), blanks),
                AssignedRef::Continued(continued) => return (entry.blanks(), continued.blanks),
            }
        }
    }
    (Span::NOTHING, Span::NOTHING)
}
