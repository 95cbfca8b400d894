//! Headers that are made.
ghost use Rattle.std.specs.Prelude.{◌≡◌, ◌↔◌, true, false, IsOk, IsErrOf, option_copied};
ghost use Rattle.gitconf_text.specs.Names as spec;

use super::bytes::is_made_name;
use crate::memory::NoMemory;
use crate::parse::span;
use thiserror::Error;

/// Why a header can't be made.
#[derive(Debug, Drop, PartialEq, Eq, PartialOrd, Error)]
pub enum Error {
    /// The section's name has a byte other than a letter, a digit or a dash: E4.
    #[error("section names can only be ascii, '-'")]
    InvalidName,
    /// The subsection holds LF or NUL: E5.
    #[error("sub-section names must not contain newlines or null bytes")]
    InvalidSubSection,
    /// The text has no room for the header, or there is no section number left: E3.
    #[error(transparent)]
    Span(span::Error),
    /// An allocation failed: E27.
    #[error("out of memory")]
    Memory,
}

impl From<span::Error> for Error {
    ghost use Rattle.gitconf_text.specs.HeaderErrors.{of_span};

    ghost from_gives = { λ span e. e ≡ of_span span };

    fn from(span: span::Error) -> Error {
        if span.is_memory() {
            Error::Memory
        } else {
            Error::Span(span)
        }
    }
}

impl From<NoMemory> for Error {
    ghost use Rattle.gitconf_text.specs.declared.parse.section.header.Error.TheVariants.{Memory};

    ghost from_gives = { λ _ e. e ≡ Memory };

    fn from(_e: NoMemory) -> Error {
        Error::Memory
    }
}

/// Whether `name` may be the subsection of a header that is made: it holds neither LF nor NUL.
///
/// It reads `name` once.
pub fn is_valid_subsection(name: &[u8]) -> bool
    ensures { result ≡ spec.is_valid_subsection name.now }
{
    name.iter().all(|b| !(*b == b'\n' || *b == b'\0'))
}

/// Tests the parts of a header before it is made. The name may be empty.
///
/// It is for the crates above this one. It reads both parts once and takes no memory.
///
/// # Errors
///
/// `InvalidName` (E4) where the name has a byte other than a letter, a digit or a dash, otherwise `InvalidSubSection` (E5)
/// where there is a subsection that `is_valid_subsection` refuses.
pub fn validate(name: &[u8], subsection: Option<&[u8]>) -> Result<(), Error>
    ensures name { IsErrOf result Error.InvalidName ↔ (spec.is_made_name name.now ≡ false) }
    ensures subsection { IsErrOf result Error.InvalidSubSection ↔ ((spec.is_made_name name.now ≡ true)
        × (spec.is_valid_or_none (option_copied subsection.entry) ≡ false)) }
    ensures ok { IsOk result ↔ ((spec.is_made_name name.now ≡ true)
        × (spec.is_valid_or_none (option_copied subsection.entry) ≡ true)) }
{
    if !is_made_name(name) {
        return Err(Error::InvalidName);
    }
    match subsection {
        Some(subsection) if !is_valid_subsection(subsection) => Err(Error::InvalidSubSection),
        _ => Ok(()),
    }
}
