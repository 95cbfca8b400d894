//! All entries of a file, as a list.
ghost use Rattle.std.specs.Prelude.{◌≡◌, map, IfOk};
ghost use Rattle.std.specs.Option.{option_map};
ghost use Rattle.bstr.specs.Owned.{bstring_bytes};
ghost use Rattle.gitconf_diff.specs.PlainSettings.{plain_setting, plain_settings};
ghost use Rattle.gix_config_c.specs.Answers.{OfFile};
ghost use Rattle.gix_config_c.specs.Listed.{AreEntries, AreOf, IsEntryAt, IsEntryIn, listed_setting, listed_entry};

use crate::entry::{Entry, EntryPlace};
use crate::lists::put_list;
use crate::object::Object;
use crate::slot::{Slot, in_handle};
use crate::{DONE, NOTHING_THERE, OUT_OF_MEMORY};
use bstr::BString;
use gitconf_diff::setting::{Setting, Side};
use gitconf_diff::settings::add_settings;
use gix_config::{File, NoMemory};
use std::alloc::Global;

/// Returns all entries of a file, in order, in one pass. What was in the list's handle is closed. Entries before the first section are
/// not among them: no key names them.
///
/// 102 if the handle has no file, 27 when out of memory; the list's handle is then as it was.
#[unsafe(no_mangle)]
pub extern "C" fn gix_config_entries(alloc: Global, file: &mut Slot, list: &mut Slot) -> u32
    ensures answer { OfFile file.old.it result (λ f. AreEntries f result list.new.it) }
    ensures kept { (result ≡ 0 → ⊥) → list.new.it ≡ list.old.it }
    ensures same { file.new.it ≡ file.old.it }
{
    in_handle!(alloc, &file, Object::File(f) => put_entries(alloc, f, list))
}

/// Puts all entries of a file into a list.
fn put_entries(alloc: Global, file: &File, list: &mut Slot) -> u32
    ensures answer { AreEntries file.now result list.new.it }
    ensures kept { (result ≡ 0 → ⊥) → list.new.it ≡ list.old.it }
{
    let Ok(entries) = entries_of(alloc, file) else {
        return OUT_OF_MEMORY;
    };
    put_list(alloc, Object::Entries(entries), list)
}

/// All entries of a file.
fn entries_of(alloc: Global, file: &File) -> Result<Vec<Entry>, NoMemory>
    ensures { IfOk result (AreOf file.now) }
{
    let mut settings = Vec::new(alloc);
    add_settings(&mut settings, file.sections(), Side::One)?;
    entries_for(alloc, settings)
}

/// Settings as entries.
pub(crate) fn entries_for(alloc: Global, settings: Vec<Setting>) -> Result<Vec<Entry>, NoMemory>
    ensures { IfOk result (λ entries. map listed_entry entries.items ≡ map listed_setting (plain_settings settings.items)) }
{
    let mut entries = Vec::new(alloc);
    for setting in settings {
        entries.push(entry_of(setting))?;
    }
    Ok(entries)
}

/// A setting as an entry.
fn entry_of(setting: Setting) -> Entry
    ensures { listed_entry result ≡ listed_setting (plain_setting setting) }
{
    let Setting {
        section_name,
        subsection_name,
        value_name,
        side: _,
        section: _,
        value,
    } = setting;
    Entry {
        section: section_name.into_vec(),
        subsection: vector(subsection_name),
        name: value_name.into_vec(),
        value: vector(value),
    }
}

/// The bytes of a text, if there is one.
pub(crate) fn vector(text: Option<BString>) -> Option<Vec<u8>>
    ensures { option_map (λ bytes. bytes.items) result ≡ option_map bstring_bytes text }
{
    match text {
        Some(text) => Some(text.into_vec()),
        None => None,
    }
}

/// Tells where the parts of an entry of a list lie, counted from 0. They lie there until the list is closed.
///
/// 100 for a number past the end, 102 if the handle has no list of entries; the place is then as it was.
#[unsafe(no_mangle)]
pub extern "C" fn gix_config_list_entry(
    alloc: Global,
    list: &mut Slot,
    index: usize,
    entry: &mut EntryPlace,
) -> u32
    ensures answer { IsEntryIn list.old.it index result entry.new }
    ensures kept { (result ≡ 0 → ⊥) → entry.new ≡ entry.old }
    ensures same { list.new.it ≡ list.old.it }
{
    in_handle!(alloc, &list, Object::Entries(entries) => tell_entry(entries, index, entry))
}

/// Tells where the parts of the entry lie, if there is one.
fn tell_entry(entries: &[Entry], index: usize, entry: &mut EntryPlace) -> u32
    ensures answer { IsEntryAt entries.now index result entry.new }
    ensures kept { (result ≡ 0 → ⊥) → entry.new ≡ entry.old }
{
    match entries.get(index) {
        Some(found) => {
            entry.tell(found);
            DONE
        }
        None => NOTHING_THERE,
    }
}
