//! The places of configuration that a program knows, as a program in C gives them.
ghost use Rattle.std.specs.Prelude.{◌≡◌, IfOk, string_bytes};
ghost use Rattle.std.specs.Option.{option_copied, option_map};
ghost use Rattle.gix_config_c.specs.KnownPlaces.{places_of, plain_places, plain_texts, repository_of, repository_texts};

use crate::folders::text_if;
use crate::key::text;
use gix_config::NoMemory;
use gix_config::host::Places;
use std::alloc::Global;

/// The places of configuration that a program knows: what variables of the environment say comes before it.
#[repr(C)]
pub struct KnownPlaces<'a> {
    /// Whether there is configuration that was installed with git.
    pub has_installation: bool,
    /// Its path, if there is some.
    pub installation: &'a [u8],
    /// The directory that `etc/gitconfig` is in, the configuration of the whole machine: `/` for most.
    pub system_prefix: &'a [u8],
    /// Whether the user's home directory is known.
    pub has_home: bool,
    /// The user's home directory, for `~/` in the paths of includes.
    pub home: &'a [u8],
}

/// A repository: its directories, and the places of configuration besides.
#[repr(C)]
pub struct Repository<'a> {
    /// The directory of the repository, such as `/home/ada/project/.git`: its configuration is in the file `config` there.
    pub git_folder: &'a [u8],
    /// The same directory, with its symbolic links resolved.
    pub real_git_folder: &'a [u8],
    /// The places of configuration.
    pub places: KnownPlaces<'a>,
}

/// Places as text.
#[derive(Clone, Copy)]
pub struct PlaceTexts<'a> {
    /// The path of the configuration that was installed with git.
    pub installation: Option<&'a str>,
    /// The directory that `etc/gitconfig` is in.
    pub system_prefix: &'a str,
    /// The user's home directory.
    pub home: Option<&'a str>,
}

/// A repository as text.
#[derive(Clone, Copy)]
pub struct RepositoryTexts<'a> {
    /// The directory of the repository.
    pub folder: &'a str,
    /// The same directory, with its symbolic links resolved.
    pub real: &'a str,
    /// The places of configuration.
    pub places: PlaceTexts<'a>,
}

/// The places as text, or `None` if one that is known is not UTF-8.
pub fn texts<'a>(places: &'a KnownPlaces<'_>) -> Option<PlaceTexts<'a>>
    ensures { option_map plain_texts result ≡ places_of places.now }
{
    let installation = text_if(places.has_installation, places.installation)?;
    let system_prefix = text(places.system_prefix)?;
    let home = text_if(places.has_home, places.home)?;
    Some(PlaceTexts {
        installation,
        system_prefix,
        home,
    })
}

/// The repository as text. `None` if a directory or a place that is known is not UTF-8.
pub fn repository_text<'a>(repository: &'a Repository<'_>) -> Option<RepositoryTexts<'a>>
    ensures { option_map repository_texts result ≡ repository_of repository.now }
{
    let folder = text(repository.git_folder)?;
    let real = text(repository.real_git_folder)?;
    let places = texts(&repository.places)?;
    Some(RepositoryTexts {
        folder,
        real,
        places,
    })
}

/// An owned text, if there is one.
pub(crate) fn owned(alloc: Global, text: Option<&str>) -> Result<Option<String>, NoMemory>
    ensures { IfOk result (λ copy. option_map string_bytes copy ≡ option_copied text.entry) }
{
    match text {
        Some(text) => Ok(Some(String::from_str(alloc, text)?)),
        None => Ok(None),
    }
}

/// The same for the library.
pub fn host_places(alloc: Global, texts: &PlaceTexts<'_>) -> Result<Places, NoMemory>
    ensures { IfOk result (λ places. plain_places places ≡ plain_texts texts.now) }
{
    let installation_config = owned(alloc, texts.installation)?;
    let system_prefix = String::from_str(alloc, texts.system_prefix)?;
    let home = owned(alloc, texts.home)?;
    Ok(Places {
        installation_config,
        system_prefix,
        home,
        homes: None,
    })
}
