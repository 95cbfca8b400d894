//! The settings of sections, in file order.
ghost use Rattle.std.specs.Prelude.{◌≡◌, ◌++◌, ◌∷◌, [], map, IfOk};
ghost use Rattle.bstr.specs.Owned.{bstring_bytes};
ghost use Rattle.gitconf_text.specs.Bytes.{fold};
ghost use Rattle.gitconf_text.specs.Document.{document_entry};
ghost use Rattle.gitconf_items.specs.Items.{entry_of};
ghost use Rattle.gitconf_diff.specs.PlainSettings.{plain_settings, plain_setting};
ghost use Rattle.gitconf_views.specs.Views.{sections_left, shown};
ghost use Rattle.gitconf_diff.specs.Settings.{section_settings, setting_of, settings_of};

use crate::mention::folded;
use crate::owned::owned_if;
use crate::setting::{Setting, Side};
use bstr::BString;
use gitconf_body::entries::next_entry;
use gitconf_body::meanings::entry_value;
use gitconf_items::entry::Entry;
use gitconf_text::NoMemory;
use gitconf_views::section::{SectionRef, Sections};
use std::alloc::Global;

/// A name as names are compared, with memory of its own.
fn owned_name(alloc: Global, name: &[u8]) -> Result<BString, NoMemory>
    ensures { IfOk result (λ text. bstring_bytes text ≡ fold name.now) }
{
    Ok(BString::new(folded(alloc, name)?.into_owned(alloc)?))
}

/// The setting of an entry of a section.
fn setting(section: &SectionRef<'_>, entry: &Entry, side: Side) -> Result<Setting, NoMemory>
    ensures { IfOk result (λ s. plain_setting s ≡ setting_of side (shown section.now) (document_entry (entry_of section.now.buffer.now entry.now))) }
{
    let header = section.header();
    Ok(Setting {
        section_name: owned_name(section.alloc, header.name())?,
        subsection_name: owned_if(section.alloc, header.subsection_name())?,
        value_name: owned_name(section.alloc, entry.name().bytes_in(section.buffer))?,
        side,
        section: section.id(),
        value: entry_value(section.alloc, section.buffer, entry)?,
    })
}

/// Adds the settings of a section, in order, as those of one of two files. One pass over its items.
///
/// # Errors
///
/// Out of memory. Some of the settings may have been added.
pub fn add_section(
    settings: &mut Vec<Setting>,
    section: &SectionRef<'_>,
    side: Side,
) -> Result<(), NoMemory>
    ensures { IfOk result (λ _. plain_settings settings.new.items ≡ plain_settings settings.old.items ++ section_settings side (shown section.now)) }
{
    let mut rest = section.items;
    while let Some((entry, behind)) = next_entry(rest) {
        let setting = setting(section, entry, side)?;
        settings.push(setting)?;
        rest = behind;
    }
    Ok(())
}

/// Adds the settings of sections, in order, as those of one of two files. One pass. What an entry means is decoded once, into
/// memory of its own.
///
/// # Errors
///
/// Out of memory. Some of the settings may have been added.
pub fn add_settings(
    settings: &mut Vec<Setting>,
    sections: Sections<'_>,
    side: Side,
) -> Result<(), NoMemory>
    ensures { IfOk result (λ _. plain_settings settings.new.items ≡ plain_settings settings.old.items ++ settings_of side (sections_left sections.entry)) }
{
    for section in sections {
        add_section(settings, &section, side)?;
    }
    Ok(())
}
