//! The tests and comparisons of names, on their bytes.
//!
//! They are for the crates above this one, whose calls take names that are not checked yet. None takes memory.
ghost use Rattle.std.specs.Prelude.{◌≡◌, IsTrue, fold as fold_from, string_bytes};
ghost use Rattle.gitconf_text.specs.Names as spec;

use std::cmp::Ordering;
use std::hash::Hasher;

/// Letters, digits and dashes alone, or nothing.
pub fn is_made_name(bytes: &[u8]) -> bool
    ensures { result ≡ spec.is_made_name bytes.now }
{
    bytes
        .iter()
        .all(|b| b.is_ascii_alphanumeric() || *b == b'-')
}

/// The name of a section: one or more letters, digits and dashes.
pub fn is_name(bytes: &[u8]) -> bool
    ensures { result ≡ spec.is_name bytes.now }
{
    !bytes.is_empty() && is_made_name(bytes)
}

/// The name of a value: a letter, and then letters, digits and dashes.
pub fn is_value_name(bytes: &[u8]) -> bool
    ensures { result ≡ spec.is_value_name bytes.now }
{
    match bytes.split_first() {
        Some((first, rest)) => first.is_ascii_alphabetic() && is_made_name(rest),
        None => false,
    }
}

/// The bytes of a name, as text.
pub(super) fn as_text(bytes: &[u8]) -> &str
    requires { IsTrue (spec.is_made_name bytes.now) }
    ensures { result.now ≡ bytes.now }
{
    str::from_utf8(bytes).unwrap()
}

/// The bytes of a name, as text of its own.
pub(super) fn into_text(bytes: Vec<u8>) -> String
    requires { IsTrue (spec.is_made_name bytes.items) }
    ensures { string_bytes result ≡ bytes.items }
{
    String::from_utf8(bytes).unwrap()
}

/// Equality without ASCII case.
pub fn is_same_name(a: &[u8], b: &[u8]) -> bool
    ensures { result ≡ spec.is_same_name a.now b.now }
{
    // Most names are spelled alike, and plain equality looks at many bytes at a time.
    a == b || a.eq_ignore_ascii_case(b)
}

/// The order without ASCII case.
pub fn name_order(a: &[u8], b: &[u8]) -> Ordering
    ensures { result ≡ spec.name_order a.now b.now }
{
    let (mut left, mut right) = (a, b);
    loop {
        match (left.split_first(), right.split_first()) {
            (None, None) => return Ordering::Equal,
            (None, Some(_)) => return Ordering::Less,
            (Some(_), None) => return Ordering::Greater,
            (Some((x, more)), Some((y, others))) => {
                let order = x.to_ascii_lowercase().cmp(&y.to_ascii_lowercase());
                if order != Ordering::Equal {
                    return order;
                }
                left = more;
                right = others;
            }
        }
    }
}

/// Feeds a hasher the bytes without ASCII case, one at a time.
pub fn feed<H: Hasher>(name: &[u8], state: &mut H)
    ensures { state.new ≡ fold_from H.write state.old (spec.name_writes name.now) }
{
    for b in name {
        state.write_u8(b.to_ascii_lowercase());
    }
}
