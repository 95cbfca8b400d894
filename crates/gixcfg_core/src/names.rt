//! The names of an entry, as they are printed.
ghost use Rattle.std.specs.Prelude.{◌≡◌, ◌++◌, IfOk};
ghost use Rattle.std.specs.Option.{option_copied};
ghost use Rattle.gitconf_text.specs.Bytes.{fold};
ghost use Rattle.gixcfg_core.specs.Entries.{key_text, section_names};

use std::alloc::AllocError;

/// Adds an entry's names, with dots between them: that of its section, the subsection if there is one, and its own. The first and the
/// last are printed in lower case.
///
/// # Errors
///
/// Out of memory.
pub fn add_names(
    text: &mut Vec<u8>,
    section_name: &[u8],
    subsection_name: Option<&[u8]>,
    value_name: &[u8],
) -> Result<(), AllocError>
    ensures { IfOk result (λ _. text.new.items ≡ text.old.items ++ key_text section_name.now (option_copied subsection_name.entry) value_name.now) }
{
    add_section_names(text, section_name, subsection_name)?;
    add_in_lower_case(text, value_name)
}

/// Adds the names of an entry's section, each with a dot behind it.
///
/// # Errors
///
/// Out of memory.
pub fn add_section_names(
    text: &mut Vec<u8>,
    section_name: &[u8],
    subsection_name: Option<&[u8]>,
) -> Result<(), AllocError>
    ensures { IfOk result (λ _. text.new.items ≡ text.old.items ++ section_names section_name.now (option_copied subsection_name.entry)) }
{
    add_in_lower_case(text, section_name)?;
    text.push(b'.')?;
    if let Some(subsection_name) = subsection_name {
        text.extend_from_slice(subsection_name)?;
        text.push(b'.')?;
    }
    Ok(())
}

/// Adds bytes, ASCII letters of them in lower case.
///
/// # Errors
///
/// Out of memory.
pub fn add_in_lower_case(text: &mut Vec<u8>, bytes: &[u8]) -> Result<(), AllocError>
    ensures { IfOk result (λ _. text.new.items ≡ text.old.items ++ fold bytes.now) }
{
    let before = text.len();
    text.extend_from_slice(bytes)?;
    let (_, added) = text.as_mut_slice().split_at_mut(before);
    added.make_ascii_lowercase();
    Ok(())
}
