//! Values as integers.
ghost use Rattle.std.specs.Prelude.{◌≡◌, [], ◌∷◌, MatchResult, Some, None, codes};
ghost use Rattle.std.specs.Option.{option_map};
ghost use Rattle.bstr.specs.Owned.{bstring_bytes};
ghost use Rattle.gitconf_text.specs.Typed.{decimal_of, factor_of, integer_written, suffix_of};
ghost use Rattle.gitconf_text.specs.ValueErrors.{refused};
ghost use Rattle.gitconf_values.specs.Integers.{integer_read, integer_or_refusal, suffix_read};

use crate::number::number;
use bstr::BString;
use gitconf_text::value::Error;

/// What follows a number and multiplies it, in either case.
#[derive(Clone, Copy, PartialEq, Eq, PartialOrd, Ord, Hash, Debug)]
pub enum Suffix {
    /// `k`: 1024.
    Kibi,
    /// `m`: 1048576.
    Mebi,
    /// `g`: 1073741824.
    Gibi,
}

/// A value as an integer, by git-config's manual page, "Values": an optional sign and one or more digits that fit in 64 bits,
/// and an optional suffix.
#[derive(Clone, Copy, PartialEq, Eq, PartialOrd, Ord, Hash, Debug)]
pub struct Integer {
    /// The number before the suffix.
    pub value: i64,
    /// The suffix after it.
    pub suffix: Option<Suffix>,
}

impl Integer {
    /// The number times its suffix's factor; `None` if that doesn't fit in 64 bits.
    pub fn to_decimal(&self) -> Option<i64>
        ensures { result ≡ decimal_of (integer_read self.now) }
    {
        self.value.checked_mul(factor(self.suffix))
    }
}

impl TryFrom<BString> for Integer {
    type Error = Error;

    ghost try_from_gives = { λ bytes result. MatchResult result (λ i. integer_written (bstring_bytes bytes) ≡ Some (integer_read i))
        (λ e. (integer_written (bstring_bytes bytes) ≡ None) × (e ≡ refused (codes "not an integer") (bstring_bytes bytes))) };

    /// The integer that a value writes. One pass, which takes no memory.
    ///
    /// # Errors
    ///
    /// E11, `not an integer`, with the bytes that were given.
    fn try_from(bytes: BString) -> Result<Integer, Error> {
        match parse(bytes.as_bytes()) {
            Some(integer) => Ok(integer),
            None => Err(Error::not_an_integer(bytes)),
        }
    }
}

/// The integer of a value: what it writes, times its suffix. One pass, which takes no memory.
///
/// # Errors
///
/// E11 with the bytes that were given: `not an integer`, or `Integer overflow` if the product doesn't fit in 64 bits.
pub fn decimal(bytes: BString) -> Result<i64, Error>
    ensures { result ≡ integer_or_refusal (bstring_bytes bytes) }
{
    match parse(bytes.as_bytes()) {
        Some(integer) => match integer.to_decimal() {
            Some(number) => Ok(number),
            None => Err(Error::overflow(bytes)),
        },
        None => Err(Error::not_an_integer(bytes)),
    }
}

/// The factor of a suffix.
fn factor(suffix: Option<Suffix>) -> i64
    ensures { result ≡ factor_of (suffix_read suffix) }
{
    match suffix {
        None => 1,
        Some(Suffix::Kibi) => 1024,
        Some(Suffix::Mebi) => 1_048_576,
        Some(Suffix::Gibi) => 1_073_741_824,
    }
}

/// The suffix that a byte is, if it is one.
fn suffix_at(byte: u8) -> Option<Suffix>
    ensures { suffix_read result ≡ suffix_of (byte ∷ []) }
{
    match byte {
        b'k' | b'K' => Some(Suffix::Kibi),
        b'm' | b'M' => Some(Suffix::Mebi),
        b'g' | b'G' => Some(Suffix::Gibi),
        _ => None,
    }
}

/// The integer that a value writes, if it is one.
fn parse(bytes: &[u8]) -> Option<Integer>
    ensures { option_map integer_read result ≡ integer_written bytes.now }
{
    if let Some((last, digits)) = bytes.split_last() {
        if let Some(suffix) = suffix_at(*last) {
            return Some(Integer {
                value: number(digits)?,
                suffix: Some(suffix),
            });
        }
    }
    Some(Integer {
        value: number(bytes)?,
        suffix: None,
    })
}
