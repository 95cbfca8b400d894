//! Files that are loaded, and their sections, without what the contracts say of them: a test is proved faster if it
//! doesn't know it.

use gix_config::File;
use gix_config::file::{SectionRef, Sections};
use std::alloc::Global;
use std::test::Fail;

/// The file that the text is.
pub fn loaded(alloc: Global, text: &[u8]) -> Result<File, Fail> {
    Ok(File::try_from_bytes(alloc, text)?)
}

/// The sections of the file, in order.
pub fn sections(file: &File) -> Sections<'_> {
    file.sections()
}

/// How many sections the file has.
pub fn section_count(file: &File) -> usize {
    let mut count = 0usize;
    for _section in sections(file) {
        count = count.saturating_add(1);
    }
    count
}

/// The section at this place.
pub fn section_at(file: &File, place: usize) -> Option<SectionRef<'_>> {
    sections(file).nth(place)
}
