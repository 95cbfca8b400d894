//! Which names git knows.
ghost use Rattle.std.specs.Prelude.{◌≡◌, map};
ghost use Rattle.std.specs.Option.{option_copied, option_map};
ghost use Rattle.gitconf_sources.specs.Key.{key_of};
ghost use Rattle.gixcfg_names.specs.Known as spec;
ghost use Rattle.gixcfg_names.specs.Rows.{plain};

use crate::rows::Row;
use gitconf_sources::key::KeyRef;
use gitconf_text::parse::section::bytes::is_same_name;

/// Whether these rows have a key.
pub fn is_known(rows: &[Row], key: KeyRef<'_>) -> bool
    ensures { result ≡ spec.is_known (map plain rows.now) (key_of key.entry) }
{
    row_of(rows, key).is_some()
}

/// The first row that has a key. One walk over the rows, which takes no memory.
#[tactic(auto, unfolding(crate::specs::Known::row_of))]
pub fn row_of(rows: &[Row], key: KeyRef<'_>) -> Option<Row>
    ensures { option_map plain result ≡ spec.row_of (map plain rows.now) (key_of key.entry) }
{
    for row in rows {
        if fits(row.key, key) {
            return Some(*row);
        }
    }
    None
}

/// Whether these rows have names in a section of this name. One walk over the rows, which takes no memory.
#[tactic(auto, unfolding(crate::specs::Known::has_section))]
pub fn has_section(rows: &[Row], section_name: &str) -> bool
    ensures { result ≡ spec.has_section (map plain rows.now) section_name.now }
{
    for row in rows {
        if is_same_name(row.key.section_name.as_bytes(), section_name.as_bytes()) {
            return true;
        }
    }
    false
}

/// Whether a pattern has a key.
fn fits(pattern: KeyRef<'_>, key: KeyRef<'_>) -> bool
    ensures { result ≡ spec.fits (key_of pattern.entry) (key_of key.entry) }
{
    is_beside(pattern, key) && fits_name(pattern.value_name, key.value_name)
}

/// Whether a pattern is of names in the section of a key.
pub(crate) fn is_beside(pattern: KeyRef<'_>, key: KeyRef<'_>) -> bool
    ensures { result ≡ spec.is_beside (key_of pattern.entry) (key_of key.entry) }
{
    is_same_name(pattern.section_name.as_bytes(), key.section_name.as_bytes())
        && fits_subsection(pattern.subsection_name, key.subsection_name)
}

/// Whether the subsection of a pattern has that of a key.
fn fits_subsection(pattern: Option<&[u8]>, subsection: Option<&[u8]>) -> bool
    ensures { result ≡ spec.fits_subsection (option_copied pattern.entry) (option_copied subsection.entry) }
{
    match (pattern, subsection) {
        (None, None) => true,
        (Some(pattern), Some(subsection)) => is_any(pattern) || pattern == subsection,
        _ => false,
    }
}

/// Whether the name of a pattern has that of a key.
fn fits_name(pattern: &str, name: &str) -> bool
    ensures { result ≡ spec.fits_name pattern.now name.now }
{
    is_any(pattern.as_bytes()) || is_same_name(pattern.as_bytes(), name.as_bytes())
}

/// Whether a part of a pattern stands for whatever somebody names.
pub(crate) fn is_any(part: &[u8]) -> bool
    ensures { result ≡ spec.is_any part.now }
{
    match part {
        [b'<', ..] | [b'*'] => true,
        _ => false,
    }
}
