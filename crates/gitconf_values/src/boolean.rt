//! Values as booleans.
ghost use Rattle.std.specs.Prelude.{◌≡◌, MatchResult, Some, None, codes};
ghost use Rattle.bstr.specs.Owned.{bstring_bytes};
ghost use Rattle.gitconf_text.specs.Typed.{boolean_of};
ghost use Rattle.gitconf_text.specs.ValueErrors.{refused};

use crate::number::number;
use bstr::BString;
use gitconf_text::parse::section::bytes::is_same_name;
use gitconf_text::value::Error;

/// A value as a boolean, by git-config's manual page, "Values": `yes`, `on` and `true` are true, `no`, `off`, `false` and
/// the empty value are false, without ASCII case. A number with an optional sign that fits in 64 bits is true if it is not 0.
///
/// An entry without `=` has no value, so it is not read here: it is true.
#[derive(Clone, Copy, PartialEq, Eq, PartialOrd, Ord, Hash, Debug)]
pub struct Boolean(pub bool);

impl TryFrom<BString> for Boolean {
    type Error = Error;

    ghost try_from_gives = { λ bytes result. MatchResult result (λ b. boolean_of (bstring_bytes bytes) ≡ Some b.0)
        (λ e. (boolean_of (bstring_bytes bytes) ≡ None) × (e ≡ refused (codes "not a boolean") (bstring_bytes bytes))) };

    /// The boolean of a value. One pass, which takes no memory.
    ///
    /// # Errors
    ///
    /// E11, `not a boolean`, with the bytes that were given.
    fn try_from(bytes: BString) -> Result<Boolean, Error> {
        match parse(bytes.as_bytes()) {
            Some(value) => Ok(Boolean(value)),
            None => Err(Error::not_a_boolean(bytes)),
        }
    }
}

impl From<Boolean> for bool {
    ghost from_gives = { λ boolean value. value ≡ boolean.0 };

    /// Whether it is true.
    fn from(boolean: Boolean) -> bool {
        boolean.0
    }
}

/// The boolean of a value, if it is one.
fn parse(bytes: &[u8]) -> Option<bool>
    ensures { result ≡ boolean_of bytes.now }
{
    if is_same_name(bytes, b"yes") || is_same_name(bytes, b"on") || is_same_name(bytes, b"true") {
        return Some(true);
    }
    if is_same_name(bytes, b"no")
        || is_same_name(bytes, b"off")
        || is_same_name(bytes, b"false")
        || is_same_name(bytes, b"")
    {
        return Some(false);
    }
    let value = number(bytes)?;
    Some(value != 0)
}
