//! Which file a path of an including section names.
ghost use Rattle.std.specs.Prelude.{◌≡◌, IfOk, string_bytes};
ghost use Rattle.bstr.specs.Owned.{bstring_bytes};
ghost use Rattle.gitconf_values.specs.Paths.{begins_slash as starts_slash};
ghost use Rattle.gitconf_includes.specs.Paths as spec;
ghost use Rattle.gitconf_includes.specs.Paths.{Names, IsFolder};
ghost use Rattle.gitconf_includes.specs.Rules.{rules_of_includes};

use crate::includes::{Error, Options};
use bstr::BString;
use gitconf_sources::meta::Metadata;
use gitconf_text::NoMemory;
use gitconf_values::Path;
use gitconf_values::path::{interpolate, join, parent};
use std::alloc::Global;

/// A path once more, for an error to keep.
///
/// # Errors
///
/// Out of memory.
pub fn copied(alloc: Global, path: &str) -> Result<String, NoMemory>
    ensures { IfOk result (λ copy. string_bytes copy ≡ path.now) }
{
    Ok(String::from_str(alloc, path)?)
}

/// The path with its shorthands replaced, or `None` if one stands for nothing and such paths are left out. It takes
/// memory for the result alone.
///
/// # Errors
///
/// E12 if the options ask for it, E13, E14, E27.
pub(crate) fn replaced(options: &Options<'_>, path: BString) -> Result<Option<String>, Error>
    ensures { Names result (spec.replaced (rules_of_includes options.now) (bstring_bytes path)) }
{
    match Path::from(path).interpolate(options.interpolate) {
        Ok(text) => Ok(Some(text)),
        Err(interpolate::Error::Missing { what }) => {
            if options.err_on_interpolation_failure {
                Err(Error::Interpolate(interpolate::Error::Missing { what }))
            } else {
                Ok(None)
            }
        }
        Err(e) => Err(e.into()),
    }
}

/// The directory of the file that a section comes from, as a part of that file's path; `None` if the file has no path
/// and what needs one is left out. It takes no memory.
///
/// # Errors
///
/// E16 if the file has no path and the options ask for an error, and if its path is in no directory.
pub(crate) fn folder<'a>(
    options: &Options<'_>,
    from: &'a Metadata,
) -> Result<Option<&'a str>, Error>
    ensures { IsFolder result (spec.folder (rules_of_includes options.now) from.now) }
{
    match &from.path {
        Some(path) => match parent(path.as_str()) {
            Some(folder) => Ok(Some(folder)),
            None => Err(Error::MissingConfigPath),
        },
        None => {
            if options.err_on_missing_config_path {
                Err(Error::MissingConfigPath)
            } else {
                Ok(None)
            }
        }
    }
}

/// Whether the first byte is a slash.
pub(crate) fn begins_slash(text: &[u8]) -> bool
    ensures { result ≡ starts_slash text.now }
{
    match text {
        [b, ..] => *b == b'/',
        [] => false,
    }
}

/// The path that a text gives: itself if it begins with `/`, otherwise in the directory of the section's file.
fn placed(
    alloc: Global,
    options: &Options<'_>,
    from: &Metadata,
    text: String,
) -> Result<Option<String>, Error>
    ensures { Names result (spec.placed (rules_of_includes options.now) from.now (string_bytes text)) }
{
    if begins_slash(text.as_bytes()) {
        return Ok(Some(text));
    }
    match folder(options, from)? {
        Some(folder) => Ok(Some(join(alloc, folder, text.as_str())?)),
        None => Ok(None),
    }
}

/// The file that a section's path names; `None` if the path is left out. It goes by the options and by where the
/// section comes from. Shorthands at the path's front are replaced, and if it then doesn't begin with `/`, it is in the
/// directory of the section's file. It asks for memory for the path without shorthands, and for the one in a directory;
/// a path that is left out because of a shorthand takes none.
///
/// # Errors
///
/// E12 if a shorthand stands for nothing and the options ask for an error, E13 and E14 if the path or a user in it isn't
/// UTF-8, each as [`Error::Interpolate`]; E16 ([`Error::MissingConfigPath`]) if the directory of a file without a path
/// is needed and the options ask for an error, or if the file's path is in no directory; E27.
pub fn file_named(
    alloc: Global,
    options: &Options<'_>,
    from: &Metadata,
    path: BString,
) -> Result<Option<String>, Error>
    ensures { Names result (spec.file_named (rules_of_includes options.now) from.now (bstring_bytes path)) }
{
    match replaced(options, path)? {
        Some(text) => placed(alloc, options, from, text),
        None => Ok(None),
    }
}
