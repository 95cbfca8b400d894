//! Entries of two files, by names and values that are borrowed where they can be.
ghost use Rattle.std.specs.Prelude.{◌≡◌, IfOk};
ghost use Rattle.std.specs.Cow.{cow_slice_items};
ghost use Rattle.std.specs.Option.{option_copied, option_map};
ghost use Rattle.gitconf_text.specs.Bytes.{fold};
ghost use Rattle.gitconf_text.specs.Document.{document_entry};
ghost use Rattle.gitconf_text.specs.Value.{plain};
ghost use Rattle.gitconf_items.specs.Items.{entry_of};
ghost use Rattle.gitconf_diff.specs.PlainSettings.{mention_names, names_cmp, plain_mention, same_names, setting_cmp};

use crate::setting::Side;
use gitconf_body::meanings::entry_value;
use gitconf_items::entry::{AssignedRef, Entry};
use gitconf_sections::id::SectionId;
use gitconf_text::NoMemory;
use gitconf_text::value::normalize;
use std::alloc::Global;
use std::borrow::CowSlice;
use std::cmp::Ordering;

/// An entry of one of two files, by its names, with its value. What has no upper case and no escape is borrowed.
#[derive(Drop)]
pub struct Mention<'a> {
    /// The name of its section, as names are compared.
    pub section_name: &'a [u8],
    /// The subsection, if there is one.
    pub subsection_name: Option<&'a [u8]>,
    /// The name of the value, as names are compared.
    pub value_name: CowSlice<'a, u8>,
    /// The file that has it.
    pub side: Side,
    /// The number of its section in that file.
    pub section: SectionId,
    /// What it means; `None` for an entry without `=`.
    pub value: Option<CowSlice<'a, u8>>,
}

/// A name as names are compared: in lower case. It takes memory only where a letter is in upper case.
///
/// # Errors
///
/// Out of memory.
#[tactic(auto, using(crate::proofs::Folded::as_it_is))]
pub fn folded(alloc: Global, name: &[u8]) -> Result<CowSlice<'_, u8>, NoMemory>
    ensures { IfOk result (λ text. cow_slice_items text ≡ fold name.now) }
{
    if name.iter().any(|b| b.is_ascii_uppercase()) {
        let lower: Vec<u8> = name.iter().map(|b| b.to_ascii_lowercase()).collect(alloc)?;
        return Ok(CowSlice::Owned(lower));
    }
    Ok(CowSlice::Borrowed(name))
}

/// What the value of an entry means, if it has one. It takes memory only for a value that has a quote or a backslash, or goes on
/// over lines.
///
/// # Errors
///
/// Out of memory.
pub fn value_of<'a>(
    alloc: Global,
    buffer: &'a [u8],
    entry: &'a Entry,
) -> Result<Option<CowSlice<'a, u8>>, NoMemory>
    ensures { IfOk result (λ value. option_map cow_slice_items value ≡ option_map plain (document_entry (entry_of buffer.now entry.now)).raw) }
{
    match entry.assigned() {
        AssignedRef::Nothing => Ok(None),
        AssignedRef::Plain { value, .. } => { Ok(Some(normalize(alloc, value.bytes_in(buffer))?)) }
        AssignedRef::Continued(_) => match entry_value(alloc, buffer, entry)? {
            Some(own) => Ok(Some(CowSlice::Owned(own.into_vec()))),
            None => Ok(None),
        },
    }
}

/// The bytes of a value, if there is one.
pub fn bytes_of<'a>(value: &'a Option<CowSlice<'_, u8>>) -> Option<&'a [u8]>
    ensures { option_copied result ≡ option_map cow_slice_items value.now }
{
    match value {
        Some(value) => Some(value.as_slice()),
        None => None,
    }
}

/// How the names of two entries are ordered: by the section's name, then by the subsection, where none is first, and then by
/// the value's own name.
fn names_order(one: &Mention<'_>, other: &Mention<'_>) -> Ordering
    ensures { result ≡ names_cmp (mention_names one.now) (mention_names other.now) }
{
    match one.section_name.cmp(other.section_name) {
        Ordering::Equal => match one.subsection_name.cmp(&other.subsection_name) {
            Ordering::Equal => one.value_name.cmp(&other.value_name),
            unequal => unequal,
        },
        unequal => unequal,
    }
}

/// How two entries are ordered: by their names, and of the same names those of the first file come first.
pub fn order(one: &Mention<'_>, other: &Mention<'_>) -> Ordering
    ensures { result ≡ setting_cmp (plain_mention one.now) (plain_mention other.now) }
{
    match names_order(one, other) {
        Ordering::Equal => one.side.cmp(&other.side),
        unequal => unequal,
    }
}

/// Whether two entries have the same names.
pub fn have_same_names(one: &Mention<'_>, other: &Mention<'_>) -> bool
    ensures { result ≡ same_names (mention_names one.now) (mention_names other.now) }
{
    names_order(one, other).is_eq()
}
