//! The three names of a value, as a program in C gives them.
ghost use Rattle.std.specs.Option.{option_copied, option_map};
ghost use Rattle.std.specs.Prelude.{◌≡◌};
ghost use Rattle.gitconf_text.specs.SectionKeys.{as_utf8};
ghost use Rattle.gitconf_sources.specs.Key.{key_of};
ghost use Rattle.gitconf_text.specs.SectionKeyRefs.{section_key_of};
ghost use Rattle.gix_config_c.specs.Keys.{names_of, section_names_of};

use gitconf_sources::key::KeyRef;
use gitconf_text::parse::section::unvalidated;
use std::str;

/// The names of a value: its section's, its subsection's if there is one, and its own.
#[repr(C)]
pub struct Key<'a> {
    /// The section's name.
    pub section: &'a [u8],
    /// Whether there is a subsection.
    pub has_subsection: bool,
    /// The subsection's name, if there is one.
    pub subsection: &'a [u8],
    /// The value's name.
    pub name: &'a [u8],
}

/// The names as text, or `None` if the section's or the value's is not UTF-8.
pub fn names<'a>(key: &'a Key<'_>) -> Option<KeyRef<'a>>
    ensures { option_map key_of result ≡ names_of key.now }
{
    let section_name = text(key.section)?;
    let value_name = text(key.name)?;
    let subsection_name = if key.has_subsection {
        Some(key.subsection)
    } else {
        None
    };
    Some(KeyRef {
        section_name,
        subsection_name,
        value_name,
    })
}

/// The names of a section: its own, and its subsection's if there is one.
#[repr(C)]
pub struct SectionKey<'a> {
    /// The section's name.
    pub name: &'a [u8],
    /// Whether there is a subsection.
    pub has_subsection: bool,
    /// The subsection's name, if there is one.
    pub subsection: &'a [u8],
}

/// The names as text, or `None` if the section's is not UTF-8.
pub fn section_names<'a>(key: &'a SectionKey<'_>) -> Option<unvalidated::KeyRef<'a>>
    ensures { option_map section_key_of result ≡ section_names_of key.now }
{
    let section_name = text(key.name)?;
    let subsection_name = if key.has_subsection {
        Some(key.subsection)
    } else {
        None
    };
    Some(unvalidated::KeyRef {
        section_name,
        subsection_name,
    })
}

/// The bytes as text, if they are UTF-8.
pub fn text(bytes: &[u8]) -> Option<&str>
    ensures { option_copied result ≡ as_utf8 bytes.now }
{
    str::from_utf8(bytes).ok()
}
