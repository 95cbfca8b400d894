//! Texts with memory of their own.
ghost use Rattle.std.specs.Prelude.{◌≡◌, IfOk};
ghost use Rattle.std.specs.Option.{option_copied, option_map};
ghost use Rattle.bstr.specs.Owned.{bstring_bytes};

use bstr::BString;
use gitconf_text::NoMemory;
use std::alloc::Global;

/// A text with memory of its own.
///
/// # Errors
///
/// Out of memory.
pub fn owned(alloc: Global, text: &[u8]) -> Result<BString, NoMemory>
    ensures { IfOk result (λ own. bstring_bytes own ≡ text.now) }
{
    Ok(BString::new(text.to_vec(alloc)?))
}

/// The same, if there is a text.
///
/// # Errors
///
/// Out of memory.
pub fn owned_if(alloc: Global, text: Option<&[u8]>) -> Result<Option<BString>, NoMemory>
    ensures { IfOk result (λ own. option_map bstring_bytes own ≡ option_copied text.entry) }
{
    match text {
        Some(text) => Ok(Some(owned(alloc, text)?)),
        None => Ok(None),
    }
}
