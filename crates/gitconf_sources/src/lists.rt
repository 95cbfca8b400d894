//! Lists that grow, with one error when out of memory; and bytes, if there are any.
ghost use Rattle.std.specs.Option.{option_copied};
ghost use Rattle.std.specs.Prelude.{◌≡◌, [], ◌∷◌, ◌++◌, option_map, IfOk, OnOk, OnErr};
ghost use Rattle.bstr.specs.Owned.{bstring_bytes};
ghost use Rattle.gitconf_sources.specs.Found as spec;

use bstr::BString;
use gitconf_text::NoMemory;
use std::alloc::Global;

/// An empty list with room for `count` items.
///
/// # Errors
///
/// Out of memory.
pub fn with_room<T>(alloc: Global, count: usize) -> Result<Vec<T>, NoMemory>
    ensures { IfOk result (λ list. list.items ≡ []) }
{
    Ok(Vec::with_capacity(alloc, count)?)
}

/// Adds an item after the others. If that fails, the item is dropped.
///
/// # Errors
///
/// Out of memory. The list is then as it was.
pub fn put<T: Drop>(list: &mut Vec<T>, item: T) -> Result<(), NoMemory>
    ensures ok { OnOk result (list.new.items ≡ list.old.items ++ item ∷ []) }
    ensures err { OnErr result (list.new.items ≡ list.old.items) }
{
    list.push(item)?;
    Ok(())
}

/// Bytes, if there are any.
pub fn if_any(bytes: &[u8]) -> Option<&[u8]>
    ensures { option_copied result ≡ spec.if_any bytes.now }
{
    if bytes.is_empty() { None } else { Some(bytes) }
}

/// The bytes of a text, if there is one.
pub fn bytes_of(text: &Option<BString>) -> Option<&[u8]>
    ensures { option_copied result ≡ option_map bstring_bytes text.now }
{
    match text {
        Some(text) => Some(text.as_bytes()),
        None => None,
    }
}
