//! The entries for a URL, as `http.<url>.*` has them: of each variable the one whose section matches the URL best.

use crate::closest::Closest;
use crate::entries::{Found, Sought, add_found};
use crate::origins::{Located, before_of};
use crate::trouble::Trouble;
use crate::urls::{Fault, Specificity, Url, pattern_of, specificity_of, url_of};
use gitconf_views::section::{SectionRef, Sections};
use gixcfg_words::command::{ForUrl, Form};
use std::alloc::Global;

/// Variables of sections, and the URL that they are for.
#[derive(Drop)]
pub struct Variables<'a> {
    url: Url,
    section_name: &'a str,
    /// The only variable that is asked for, if it is one.
    value_name: Option<&'a str>,
}

impl<'a> Variables<'a> {
    /// Those that a call asks for.
    ///
    /// # Errors
    ///
    /// The URL is none; out of memory.
    pub fn of(alloc: Global, wanted: &ForUrl<'a>) -> Result<Variables<'a>, Trouble> {
        Ok(Variables {
            url: url_of(alloc, wanted.url.as_bytes())?,
            section_name: wanted.section_name,
            value_name: wanted.value_name,
        })
    }
}

/// Of each variable the entry whose section matches the URL best. Of several that match alike it is the last one. They are in the order of
/// their names, which are without a subsection.
///
/// # Errors
///
/// Out of memory.
pub fn entries_for_url(
    alloc: Global,
    sections: Sections<'_>,
    variables: &Variables<'_>,
    form: &Form,
    read: &Located,
) -> Result<Vec<Found>, Trouble> {
    let mut closest = Closest::none(alloc);
    for section in sections {
        if let Some(specificity) = specificity_in(alloc, &section, variables)? {
            let before = before_of(alloc, section.meta(), form, read)?;
            let sought = Sought {
                before: &before,
                value_name: variables.value_name,
                has_subsection: false,
            };
            put_found(alloc, &mut closest, &section, &sought, specificity)?;
        }
    }
    Ok(closest.into_entries(alloc)?)
}

/// How closely a section matches, if it has the name that is asked for. One without a subsection matches each URL, but any other more closely.
fn specificity_in(
    alloc: Global,
    section: &SectionRef<'_>,
    variables: &Variables<'_>,
) -> Result<Option<Specificity>, Trouble> {
    let header = section.header();
    let section_name = variables.section_name.as_bytes();
    if !header.name().eq_ignore_ascii_case(section_name) {
        return Ok(None);
    }
    match header.subsection_name() {
        None => Ok(Some(Specificity::LEAST)),
        Some(pattern) => specificity_for(alloc, pattern, &variables.url),
    }
}

/// How closely a subsection matches a URL, if it is one itself.
fn specificity_for(
    alloc: Global,
    pattern: &[u8],
    url: &Url,
) -> Result<Option<Specificity>, Trouble> {
    match pattern_of(alloc, pattern) {
        Ok(pattern) => Ok(specificity_of(&pattern, url)),
        Err(Fault::Refused(_)) => Ok(None),
        Err(Fault::Memory) => Err(Trouble::Memory),
    }
}

/// Puts in the entries of a section that are sought.
fn put_found(
    alloc: Global,
    closest: &mut Closest,
    section: &SectionRef<'_>,
    sought: &Sought<'_>,
    specificity: Specificity,
) -> Result<(), Trouble> {
    let mut found = Vec::new(alloc);
    add_found(&mut found, section, sought)?;
    for entry in found {
        closest.put(entry, specificity)?;
    }
    Ok(())
}
