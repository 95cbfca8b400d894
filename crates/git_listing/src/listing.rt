//! Entries of a file, as `git config --list -z --show-origin` lists them.

use gix_config::file::SectionRef;
use gix_config::{File, NoMemory};
use std::alloc::Global;

/// The entries of all sections, in order: where an entry comes from, NUL, its names, LF, its value, NUL. An entry without a value has an
/// empty one.
pub fn listing_of(alloc: Global, file: &File) -> Result<Vec<u8>, NoMemory> {
    let mut listing = Vec::new(alloc);
    for section in file.sections() {
        add_entries(&mut listing, &section)?;
    }
    Ok(listing)
}

/// Adds the entries of a section.
fn add_entries(listing: &mut Vec<u8>, section: &SectionRef<'_>) -> Result<(), NoMemory> {
    for entry in section.body() {
        let (name, value) = entry?;
        add_origin(listing, section.meta().path.as_deref())?;
        add_names(listing, section, name)?;
        listing.push(b'\n')?;
        listing.extend_from_slice(&value)?;
        listing.push(0)?;
    }
    Ok(())
}

/// Adds where an entry comes from.
fn add_origin(listing: &mut Vec<u8>, path: Option<&str>) -> Result<(), NoMemory> {
    match path {
        Some(path) => {
            listing.extend_from_slice(b"file:")?;
            listing.extend_from_slice(path.as_bytes())?;
        }
        None => listing.extend_from_slice(b"command line:")?,
    }
    Ok(listing.push(0)?)
}

/// Adds the names of an entry, with dots between them. Those of the section and of the entry are in lower case.
fn add_names(listing: &mut Vec<u8>, section: &SectionRef<'_>, name: &str) -> Result<(), NoMemory> {
    let header = section.header();
    add_in_lower_case(listing, header.name())?;
    listing.push(b'.')?;
    if let Some(subsection) = header.subsection_name() {
        listing.extend_from_slice(subsection)?;
        listing.push(b'.')?;
    }
    add_in_lower_case(listing, name.as_bytes())
}

/// Adds bytes, with ASCII letters in lower case.
fn add_in_lower_case(listing: &mut Vec<u8>, bytes: &[u8]) -> Result<(), NoMemory> {
    for byte in bytes {
        listing.push(byte.to_ascii_lowercase())?;
    }
    Ok(())
}
