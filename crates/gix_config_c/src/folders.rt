//! The directories that the shorthands of paths stand for, as a program in C gives them.
ghost use Rattle.std.specs.Prelude.{◌≡◌};
ghost use Rattle.std.specs.Option.{option_copied, option_map};
ghost use Rattle.gix_config_c.specs.Folders.{folders_of, known_folders, text_if};

use crate::key::text;
use gitconf_values::path::interpolate::Context;

/// The directories that the shorthands of paths stand for. One that is not known refuses the paths that need it.
#[repr(C)]
pub struct Folders<'a> {
    /// Whether it is known where git is installed.
    pub has_installation: bool,
    /// The directory where git is installed, for `%(prefix)/`.
    pub installation: &'a [u8],
    /// Whether the user's home directory is known.
    pub has_home: bool,
    /// The user's home directory, for `~/`.
    pub home: &'a [u8],
}

/// A text, if it is known; `None` for one that is not UTF-8.
pub(crate) fn text_if(is_known: bool, bytes: &[u8]) -> Option<Option<&str>>
    ensures { option_map option_copied result ≡ text_if is_known bytes.now }
{
    if !is_known {
        return Some(None);
    }
    match text(bytes) {
        Some(text) => Some(Some(text)),
        None => None,
    }
}

/// The directories as text, or `None` if one that is known is not UTF-8.
pub fn context<'a>(folders: &'a Folders<'_>) -> Option<Context<'a>>
    ensures { option_map known_folders result ≡ folders_of folders.now }
{
    let git_install_dir = text_if(folders.has_installation, folders.installation)?;
    let home_dir = text_if(folders.has_home, folders.home)?;
    Some(Context {
        git_install_dir,
        home_dir,
        home_for_user: None,
    })
}
