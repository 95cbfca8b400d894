//! What a handle can hold.

use crate::difference::Difference;
use crate::entry::Entry;
use crate::section::Section;
use crate::told::Told;
use crate::view::Arrays;
use gix_config::File;

/// What a handle can hold.
#[derive(Drop)]
pub enum Object {
    /// A file of configuration.
    File(File),
    /// Bytes that a call returned.
    Bytes(Vec<u8>),
    /// Texts that a call returned.
    Texts(Vec<Vec<u8>>),
    /// The entries of a file, as a call returned them.
    Entries(Vec<Entry>),
    /// The sections of a file, as a call returned them.
    Sections(Vec<Section>),
    /// What two files mean differently, as a call returned it.
    Differences(Vec<Difference>),
    /// What a program told of files.
    Told(Told),
    /// The sections and entries of a file, laid out in arrays.
    View(Arrays),
}
