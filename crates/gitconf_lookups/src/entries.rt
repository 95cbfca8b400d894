//! The entries of a key among the items of a section.
ghost use Rattle.std.specs.Option.{option_map};
ghost use Rattle.std.specs.Prelude.{◌≡◌, ◌≢◌, ◌++◌, [], map, OnOk, OnErr};
ghost use Rattle.gitconf_text.specs.Document.{document_entry};
ghost use Rattle.gitconf_items.specs.Items.{entry_of};
ghost use Rattle.gitconf_lookups.specs.Finding.{deciding_entry, place_of, places_in};
ghost use Rattle.gitconf_views.specs.Views.{shown};

use crate::found::{Deciding, Found, copied};
use gitconf_body::meanings::last_entry;
use gitconf_body::seeking::is_named;
use gitconf_items::entry::{AssignedRef, Entry};
use gitconf_items::items::Item;
use gitconf_sources::lists::put;
use gitconf_text::NoMemory;
use gitconf_views::section::SectionRef;

/// The last entry of a key in a section, if it decides.
pub fn deciding_entry<'a>(
    section: &SectionRef<'a>,
    key: &[u8],
    deciding: Deciding,
) -> Option<&'a Entry>
    ensures { option_map (λ e. document_entry (entry_of section.now.buffer.now e.now)) result
        ≡ deciding_entry deciding key.now (shown section.now) }
{
    let entry = last_entry(section.buffer, section.items, key)?;
    match deciding {
        Deciding::Value if matches!(entry.assigned(), AssignedRef::Nothing) => None,
        _ => Some(entry),
    }
}

/// Adds a section's entries of a key to those that were found, in order.
pub fn push_entries<'a>(
    found: &mut Vec<Found<'a>>,
    section: &SectionRef<'a>,
    key: &[u8],
) -> Result<(), NoMemory>
    ensures ok { OnOk result (map place_of found.new.items ≡ map place_of found.old.items ++ places_in key.now (shown section.now)) }
    ensures err { OnErr result (places_in key.now (shown section.now) ≢ []) }
{
    let mut rest = section.items;
    while let Some((item, behind)) = rest.split_first() {
        if let Item::Entry(entry) = item {
            if is_named(section.buffer, entry.name(), key) {
                let place = Found {
                    section: copied(section),
                    entry,
                };
                put(found, place)?;
            }
        }
        rest = behind;
    }
    Ok(())
}
