//! The two sides of a merge: their texts, with what stands where.
ghost use Rattle.std.specs.Prelude.{◌≡◌};

use crate::outline::{Outline, Place};
use bstr::BString;
use gitconf_diff::owned::owned_if;
use gitconf_diff::setting::{Setting, Side};
use gitconf_diff::settings::add_settings;
use gitconf_store::store::Store;
use gitconf_text::NoMemory;
use gitconf_views::section::{SectionRef, Sections};
use std::alloc::Global;

/// The name of a section, as names are compared.
#[derive(Drop, PartialEq, Eq, PartialOrd, Ord)]
pub struct SectionName {
    pub name: BString,
    pub subsection: Option<BString>,
}

/// One of the two sides: its text, and its sections and entries in the order of the text.
#[derive(Drop)]
pub struct Sided<'a> {
    pub text: &'a [u8],
    pub outline: Outline,
    /// The names of its sections.
    pub names: Vec<SectionName>,
    /// What its entries give to which keys.
    pub settings: Vec<Setting>,
}

/// The name of a section.
fn name_of(section: &SectionRef<'_>) -> Result<SectionName, NoMemory> {
    let header = section.header();
    let lower: Vec<u8> = header
        .name()
        .iter()
        .map(|b| b.to_ascii_lowercase())
        .collect(section.alloc)?;
    Ok(SectionName {
        name: BString::new(lower),
        subsection: owned_if(section.alloc, header.subsection_name())?,
    })
}

/// The names of sections, in order.
fn names_of(alloc: Global, sections: Sections<'_>) -> Result<Vec<SectionName>, NoMemory> {
    let mut names = Vec::new(alloc);
    for section in sections {
        names.push(name_of(&section)?)?;
    }
    Ok(names)
}

impl<'a> Sided<'a> {
    /// A side, by its text and the sections that were read of it.
    ///
    /// # Errors
    ///
    /// Out of memory.
    pub fn of_text(
        alloc: Global,
        text: &'a [u8],
        store: &Store,
        side: Side,
    ) -> Result<Sided<'a>, NoMemory> {
        let mut settings = Vec::new(alloc);
        add_settings(&mut settings, store.sections(), side)?;
        let names = names_of(alloc, store.sections())?;
        let outline = Outline::of_text(alloc, text, store.sections())?;
        Ok(Sided {
            text,
            outline,
            names,
            settings,
        })
    }

    /// Where an entry stands.
    pub fn entry(&self, index: usize) -> Option<Place> {
        match self.outline.entries.get(index) {
            Some(entry) => Some(entry.place),
            None => None,
        }
    }

    /// What an entry means.
    pub fn value(&self, index: usize) -> Option<&Option<BString>> {
        match self.settings.get(index) {
            Some(setting) => Some(&setting.value),
            None => None,
        }
    }
}
