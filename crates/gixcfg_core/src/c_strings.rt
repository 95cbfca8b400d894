//! Texts as git hands them on: C strings, which end at their first byte 0.
ghost use Rattle.std.specs.Prelude.{◌≡◌};
ghost use Rattle.gixcfg_core.specs.CStrings.{c_string};

use bstr::ByteSlice;

/// A text up to its first byte 0.
pub fn c_string(text: &[u8]) -> &[u8]
    ensures { result.now ≡ c_string text.now }
{
    match text.find_byte(0) {
        Some(end) => text.split_at(end).0,
        None => text,
    }
}
