//! Values in git's types.
ghost use Rattle.std.specs.Prelude.{◌≡◌, ◌++◌, Ok};
ghost use Rattle.std.specs.Fmt.{signed_decimal};
ghost use Rattle.std.specs.Option.{option_copied};
ghost use Rattle.gixcfg_core.specs.Numbers.{boolean_named, boolean_of, integer_of};
ghost use Rattle.gixcfg_core.specs.Typed as spec;
ghost use Rattle.gixcfg_core.specs.Typed.{Gives, IsColorKept, IsPrinted, IsStored, IsTyped, RefusedAs, path_of};
ghost use Rattle.gixcfg_core.specs.declared.typed.Fault.TheVariants.{Memory};

use crate::colors::{is_color, sequence_of};
use crate::dates::fixed_date;
use crate::numbers::{MOST, MOST_OF_32_BITS, boolean, boolean_named, integer};
use bstr::BString;
use gixcfg_words::kinds::Kind;
use std::alloc::{AllocError, Global};

/// Why a value is none of a type.
#[derive(Clone, Copy)]
pub enum Refusal {
    /// It is no boolean.
    Boolean,
    /// It is no integer.
    Integer,
    /// It is neither a boolean nor an integer.
    BooleanOrInteger,
    /// It isn't there, so it is no path.
    Path,
    /// It is in the home directory, which isn't known.
    HomeFolder,
    /// It is in the directory of a user, which isn't looked up.
    UserFolder,
    /// It is in the directory where git is installed, which isn't known.
    InstallFolder,
    /// It is no date, or what it means depends on the present or on the local time zone.
    Date,
    /// It is no color.
    Color,
}

impl Refusal {
    /// The error in words.
    pub fn reason(self) -> &'static str {
        match self {
            Refusal::Boolean => "not a boolean",
            Refusal::Integer => "not an integer",
            Refusal::BooleanOrInteger => "neither a boolean nor an integer",
            Refusal::Path => "not a path",
            Refusal::HomeFolder => "failed to expand ~/, since HOME names no folder",
            Refusal::UserFolder => "a path in a user's folder, which isn't looked up",
            Refusal::InstallFolder => "a path in git's own folder, which isn't known",
            Refusal::Date => "not a fixed date: relative dates are git's alone",
            Refusal::Color => "cannot parse color",
        }
    }
}

/// Why a value isn't had in a type.
#[derive(Clone, Copy)]
pub enum Fault {
    /// It is none of the type.
    Refused(Refusal),
    /// Out of memory.
    Memory,
}

impl From<AllocError> for Fault {
    ghost from_gives = { λ _ e. e ≡ Memory };

    fn from(_: AllocError) -> Fault {
        Fault::Memory
    }
}

/// A value in a type, as `git config --type` prints it. A missing value, as in an entry without `=`, is true as a boolean, and refused in
/// any other type.
///
/// # Errors
///
/// It isn't of the type; out of memory.
pub fn typed(
    alloc: Global,
    value: Option<&[u8]>,
    kind: Kind,
    home: Option<&str>,
) -> Result<BString, Fault>
    ensures { IsTyped kind (option_copied home.entry) (option_copied value.entry) result }
{
    match value {
        Some(value) => printed(alloc, value, kind, home),
        None => of_none(alloc, kind),
    }
}

/// A value as `git config --type` stores it: booleans and integers as they are printed, any other as it is given. Of these only a color is
/// looked at.
///
/// # Errors
///
/// It isn't of the type; out of memory.
pub fn stored(alloc: Global, value: &[u8], kind: Kind) -> Result<BString, Fault>
    ensures { IsStored kind value.now result }
{
    match kind {
        Kind::Path | Kind::ExpiryDate => copy_of(alloc, value),
        Kind::Color => color_kept(alloc, value),
        kind => printed(alloc, value, kind, None),
    }
}

/// What is printed in a type where there is no value.
fn of_none(alloc: Global, kind: Kind) -> Result<BString, Fault>
    ensures { Gives result (spec.of_none kind) }
{
    match kind {
        Kind::Bool | Kind::BoolOrInt | Kind::BoolOrStr => bool_text(alloc, true),
        Kind::Int => Err(Fault::Refused(Refusal::Integer)),
        Kind::Path => Err(Fault::Refused(Refusal::Path)),
        Kind::ExpiryDate => Err(Fault::Refused(Refusal::Date)),
        Kind::Color => Err(Fault::Refused(Refusal::Color)),
    }
}

/// What is printed of a value in a type.
fn printed(alloc: Global, value: &[u8], kind: Kind, home: Option<&str>) -> Result<BString, Fault>
    ensures { IsPrinted kind (option_copied home.entry) value.now result }
{
    match kind {
        Kind::Bool => boolean_or(alloc, boolean(value), Refusal::Boolean),
        Kind::Int => number_or(alloc, integer(value, MOST), Refusal::Integer),
        Kind::BoolOrInt => boolean_or_number(alloc, value),
        Kind::BoolOrStr => boolean_or_text(alloc, value),
        Kind::Path => path(alloc, value, home),
        Kind::ExpiryDate => date(alloc, value),
        Kind::Color => color(alloc, value),
    }
}

/// A copy of bytes.
fn copy_of(alloc: Global, bytes: &[u8]) -> Result<BString, Fault>
    ensures { Gives result (Ok bytes.now) }
{
    let bytes = bytes.to_vec(alloc)?;
    Ok(BString::new(bytes))
}

/// A boolean as it is printed.
fn bool_text(alloc: Global, is_true: bool) -> Result<BString, Fault>
    ensures { Gives result (Ok (spec.bool_text is_true)) }
{
    if is_true {
        copy_of(alloc, b"true")
    } else {
        copy_of(alloc, b"false")
    }
}

/// A boolean as it is printed, or the error if there is none.
fn boolean_or(alloc: Global, boolean: Option<bool>, refusal: Refusal) -> Result<BString, Fault>
    ensures { Gives result (spec.boolean_or refusal boolean) }
{
    match boolean {
        Some(is_true) => bool_text(alloc, is_true),
        None => Err(Fault::Refused(refusal)),
    }
}

/// An integer as it is printed, or the error if there is none.
fn number_or(alloc: Global, number: Option<i64>, refusal: Refusal) -> Result<BString, Fault>
    ensures { Gives result (spec.number_or refusal number) }
{
    match number {
        Some(number) => number_text(alloc, number),
        None => Err(Fault::Refused(refusal)),
    }
}

/// An integer as it is printed.
fn number_text(alloc: Global, number: i64) -> Result<BString, Fault>
    ensures { Gives result (Ok (signed_decimal number)) }
{
    let text = format!(in alloc; "{number}")?;
    Ok(BString::new(text.into_bytes()))
}

/// The boolean that a value names as it is printed, else its integer.
fn boolean_or_number(alloc: Global, value: &[u8]) -> Result<BString, Fault>
    ensures { Gives result (spec.boolean_or_number (boolean_named value.now) (integer_of 2147483647 value.now)) }
{
    match boolean_named(value) {
        Some(is_true) => bool_text(alloc, is_true),
        None => number_or(
            alloc,
            integer(value, MOST_OF_32_BITS),
            Refusal::BooleanOrInteger,
        ),
    }
}

/// The boolean of a value as it is printed, else the value.
fn boolean_or_text(alloc: Global, value: &[u8]) -> Result<BString, Fault>
    ensures { Gives result (Ok (spec.boolean_or_text (boolean_of value.now) value.now)) }
{
    match boolean(value) {
        Some(is_true) => bool_text(alloc, is_true),
        None => copy_of(alloc, value),
    }
}

/// The path of a value: with the home directory in place of a tilde before a slash or the end, and nothing else changed.
fn path(alloc: Global, value: &[u8], home: Option<&str>) -> Result<BString, Fault>
    ensures { Gives result (path_of (option_copied home.entry) value.now) }
{
    match value {
        [b'~', rest @ ..] if ends_name(rest) => below_home(alloc, home, rest),
        [b'~', ..] => Err(Fault::Refused(Refusal::UserFolder)),
        _ if value.starts_with(b"%(prefix)/") => Err(Fault::Refused(Refusal::InstallFolder)),
        _ => copy_of(alloc, value),
    }
}

/// Whether a slash comes first, or nothing is left.
pub(crate) fn ends_name(rest: &[u8]) -> bool
    ensures { result ≡ spec.ends_name rest.now }
{
    match rest {
        [] | [b'/', ..] => true,
        _ => false,
    }
}

/// What follows a tilde, behind the home directory.
fn below_home(alloc: Global, home: Option<&str>, rest: &[u8]) -> Result<BString, Fault>
    ensures { Gives result (spec.below_home (option_copied home.entry) rest.now) }
{
    match home {
        Some(home) => joined(alloc, home.as_bytes(), rest),
        None => Err(Fault::Refused(Refusal::HomeFolder)),
    }
}

/// A directory with what follows it.
fn joined(alloc: Global, folder: &[u8], rest: &[u8]) -> Result<BString, Fault>
    ensures { Gives result (Ok (folder.now ++ rest.now)) }
{
    let mut path = folder.to_vec(alloc)?;
    path.extend_from_slice(rest)?;
    Ok(BString::new(path))
}

/// The date of a value, in seconds.
fn date(alloc: Global, value: &[u8]) -> Result<BString, Fault>
    ensures { RefusedAs result Refusal.Date }
{
    match fixed_date(value) {
        Some(seconds) => {
            let text = format!(in alloc; "{seconds}")?;
            Ok(BString::new(text.into_bytes()))
        }
        None => Err(Fault::Refused(Refusal::Date)),
    }
}

/// The color of a value, as terminals are told it.
fn color(alloc: Global, value: &[u8]) -> Result<BString, Fault>
    ensures { RefusedAs result Refusal.Color }
{
    match sequence_of(alloc, value)? {
        Some(sequence) => Ok(BString::new(sequence)),
        None => Err(Fault::Refused(Refusal::Color)),
    }
}

/// A value that is a color, as it is given.
fn color_kept(alloc: Global, value: &[u8]) -> Result<BString, Fault>
    ensures { IsColorKept value.now result }
{
    if is_color(value) {
        copy_of(alloc, value)
    } else {
        Err(Fault::Refused(Refusal::Color))
    }
}
