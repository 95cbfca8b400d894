//! Which file is loaded, as a program in C says it.
ghost use Rattle.std.specs.Prelude.{◌≡◌};
ghost use Rattle.std.specs.Result.{result_map_both};
ghost use Rattle.gix_config_c.specs.Loads.{plain_wanted, wanted_of};

use crate::includes::{Includes, followed};
use crate::key::text;
use crate::origin::{source_of, trust_of};
use crate::{NO_SUCH_NUMBER, NOT_UTF8};
use gitconf_includes::includes;
use gitconf_sources::source::{Source, Trust};

/// Which file is loaded, and how includes are followed.
#[repr(C)]
pub struct Load<'a> {
    /// Its path.
    pub path: &'a [u8],
    /// The place that it stands for: one of the sources' numbers.
    pub source: u32,
    /// How far it is trusted: one of the numbers of trust.
    pub trust: u32,
    /// How includes are followed.
    pub includes: Includes<'a>,
}

/// The same for the library.
pub struct Wanted<'a> {
    /// Its path.
    pub path: &'a str,
    /// The place that it stands for.
    pub source: Source,
    /// How far it is trusted.
    pub trust: Trust,
    /// How includes are followed.
    pub includes: includes::Options<'a>,
    /// Whether whitespace, line endings and comments are left out.
    pub lossy: bool,
}

/// What a program wants, or the number that says why that can't be: 101 for what is not UTF-8, else 104.
pub fn want<'a>(load: &'a Load<'_>) -> Result<Wanted<'a>, u32>
    ensures { result_map_both plain_wanted (λ number. number) result ≡ wanted_of load.now }
{
    let Some(path) = text(load.path) else {
        return Err(NOT_UTF8);
    };
    let Some(includes) = followed(&load.includes) else {
        return Err(NOT_UTF8);
    };
    let Some(source) = source_of(load.source) else {
        return Err(NO_SUCH_NUMBER);
    };
    let Some(trust) = trust_of(load.trust) else {
        return Err(NO_SUCH_NUMBER);
    };
    Ok(Wanted {
        path,
        source,
        trust,
        includes,
        lossy: load.includes.lossy,
    })
}
