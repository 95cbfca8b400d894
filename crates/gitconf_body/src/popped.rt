//! What is returned of an entry that was removed.
ghost use Rattle.std.specs.Prelude.{◌≡◌, ℕ, List, true, option_map, string_bytes, IfSome};
ghost use Rattle.bstr.specs.Owned.{bstring_bytes};
ghost use Rattle.gitconf_text.specs.Names.{is_value_name};

use bstr::BString;

/// The name of a value, as text.
fn text_of_name(name: Vec<u8>) -> String
    requires { is_value_name name.items ≡ true }
    ensures { string_bytes result ≡ name.items }
{
    String::from_utf8(name).unwrap()
}

/// The key of a removed entry and what its value means, as texts. Takes no memory.
pub fn texts_of(popped: Option<(Vec<u8>, Vec<u8>)>) -> Option<(String, BString)>
    requires { IfSome popped (λ t. is_value_name t.0.items ≡ true) }
    ensures { option_map {U = List ℕ × List ℕ} (λ t. (string_bytes t.0, bstring_bytes t.1)) result ≡ option_map (λ t. (t.0.items, t.1.items)) popped }
{
    match popped {
        Some((key, meaning)) => Some((text_of_name(key), BString::new(meaning))),
        None => None,
    }
}
