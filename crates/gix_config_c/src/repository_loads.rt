//! The configuration of a repository, by what a program told.
ghost use Rattle.std.specs.Prelude.{◌≡◌, [], ◌∷◌, ◌++◌, IfErr, IfOk, Ok};
ghost use Rattle.std.specs.Option.{option_copied};
ghost use Rattle.gitconf_loaders.specs.Errors.{git_number, git_says};
ghost use Rattle.gitconf_loaders.specs.Paths.{telling};
ghost use Rattle.gix_config_c.specs.Blocks.{IsKept};
ghost use Rattle.gix_config_c.specs.HostLoads.{IsAnsweredFor, IsKeptBut, IsRefusedRepository, IsRepositoryIn, IsRepositoryLoad, IsRepositoryMade, OfRepository, git_about};
ghost use Rattle.gix_config_c.specs.KnownPlaces.{repository_of, repository_texts};
ghost use Rattle.gix_config_c.specs.Telling.{OfTold};
ghost use Rattle.gix_config_c.specs.Variables.{count_variable, first_untold, place_variables};

use crate::block::Block;
use crate::env_loads::refused_env;
use crate::global_loads::ask_for_variable;
use crate::lists::put_list;
use crate::loading::{boxed, refused_include, refused_load};
use crate::object::Object;
use crate::places::{Repository, RepositoryTexts, host_places, repository_text};
use crate::slot::{Slot, in_handle};
use crate::told::Told;
use crate::variables::untold;
use crate::{NOT_UTF8, OUT_OF_MEMORY};
use gitconf_loaders::from_git_dir;
use gix_config::File;
use gix_config::host::{Host, Places};
use gix_config::refusals::Refusal as _;
use std::alloc::Global;

/// Loads the configuration of a repository. It is loaded from what a program told of files and of variables: that of the machine and of the
/// user (gix_config_load_globals_told), of the repository (`config` in its directory), of its worktree (`config.worktree`, if
/// `extensions.worktreeConfig` is true), and the entries that variables set (gix_config_load_env_told), one after the other, each with what
/// it includes. What was in the file's handle before is closed.
///
/// 105 if nothing was told of a variable that is needed, 103 if nothing was told of a file that is: its name or path is then in the block,
/// whose bytes from before are freed; tell it, and call again. 21 if one of these files, and 19 or 20 if one that is included, was told to have a
/// fault; 1 or 2 if the text of one is refused: its path is then in the block, too. 22 to 26 for the entries of variables, as
/// gix_config_load_env_told has them. 3 to 6 and 12 to 18 if a file, an entry or an include is refused. 101 if a text that has to be UTF-8
/// isn't, 102 if the handle is not one for what is told, 27 when out of memory. The file's handle is as it was after any number but 0, and
/// the block after any but 1, 2, 19 to 26, 103 and 105.
#[unsafe(no_mangle)]
pub extern "C" fn gix_config_load_repository_told(
    alloc: Global,
    told: &mut Slot,
    repository: &Repository<'_>,
    file: &mut Slot,
    asked: &mut Block,
) -> u32
    ensures answer { OfTold told.old.it result (λ t. OfRepository (repository_of repository.now) result
        (λ r. IsRepositoryLoad t r result file.new.it asked.old asked.new)) }
    ensures kept { (result ≡ 0 → ⊥) → file.new.it ≡ file.old.it }
    ensures kept_asked { IsKeptBut result asked.old asked.new }
    ensures same { told.new.it ≡ told.old.it }
{
    in_handle!(alloc, &told, Object::Told(it) => load_repository(alloc, it, repository, file, asked))
}

/// Loads the configuration of a repository.
fn load_repository(
    alloc: Global,
    told: &Told,
    repository: &Repository<'_>,
    file: &mut Slot,
    asked: &mut Block,
) -> u32
    ensures answer { OfRepository (repository_of repository.now) result (λ r. IsRepositoryLoad told.now r result file.new.it asked.old asked.new) }
    ensures kept { (result ≡ 0 → ⊥) → file.new.it ≡ file.old.it }
    ensures kept_asked { IsKeptBut result asked.old asked.new }
{
    match repository_text(repository) {
        Some(texts) => load_repository_at(alloc, told, &texts, file, asked),
        None => NOT_UTF8,
    }
}

/// The same, with its directories and the places as text, once all is told of the variables that it always needs.
fn load_repository_at(
    alloc: Global,
    told: &Told,
    texts: &RepositoryTexts<'_>,
    file: &mut Slot,
    asked: &mut Block,
) -> u32
    ensures answer { IsRepositoryLoad told.now (repository_texts texts.now) result file.new.it asked.old asked.new }
    ensures kept { (result ≡ 0 → ⊥) → file.new.it ≡ file.old.it }
    ensures kept_asked { IsKeptBut result asked.old asked.new }
{
    match untold_for_repository(told) {
        Some(name) => ask_for_variable(alloc, name, asked),
        None => put_repository(alloc, told, texts, file, asked),
    }
}

/// Puts the configuration of a repository into a handle.
fn put_repository(
    alloc: Global,
    told: &Told,
    texts: &RepositoryTexts<'_>,
    file: &mut Slot,
    asked: &mut Block,
) -> u32
    ensures answer { (result ≡ 27 → ⊥) → IsRepositoryMade told.now (repository_texts texts.now) result file.new.it asked.old asked.new }
    ensures kept { (result ≡ 0 → ⊥) → file.new.it ≡ file.old.it }
    ensures kept_asked { IsKeptBut result asked.old asked.new }
{
    let Ok(places) = host_places(alloc, &texts.places) else {
        return OUT_OF_MEMORY;
    };
    match loaded_repository(alloc, told, texts, places, asked) {
        Ok(made) => put_list(alloc, Object::File(made), file),
        Err(number) => number,
    }
}

/// The first variable of which nothing was told, of those that a repository's configuration always needs.
fn untold_for_repository(told: &Told) -> Option<&'static str>
    ensures { option_copied result ≡ first_untold told.now.variables (place_variables ++ count_variable ∷ []) }
{
    untold(
        &told.variables,
        &[
            "GIT_CONFIG_NOSYSTEM",
            "GIT_CONFIG_SYSTEM",
            "GIT_CONFIG_GLOBAL",
            "XDG_CONFIG_HOME",
            "HOME",
            "GIT_CONFIG_COUNT",
        ],
    )
}

/// The configuration of a repository, or the number of the error, with what that is about in the block.
fn loaded_repository(
    alloc: Global,
    told: &Told,
    texts: &RepositoryTexts<'_>,
    places: Places,
    asked: &mut Block,
) -> Result<File, u32>
    ensures ok { IfOk result (λ f. IsRepositoryIn told.now texts.now.folder.now texts.now.real.now places (Ok f)) }
    ensures same { IfOk result (λ f. IsKept asked.old asked.new) }
    ensures err { IfErr result (λ number. (number ≡ 27 → ⊥) → IsRefusedRepository told.now texts.now.folder.now texts.now.real.now places number asked.old asked.new) }
    ensures kept { IfErr result (λ number. IsKeptBut number asked.old asked.new) }
{
    match repository_file(alloc, told, texts, places) {
        Ok(made) => Ok(made),
        Err(refusal) => Err(refused_repository(alloc, told, &refusal, asked)),
    }
}

/// The configuration of a repository.
fn repository_file(
    alloc: Global,
    told: &Told,
    texts: &RepositoryTexts<'_>,
    places: Places,
) -> Result<File, from_git_dir::Error>
    ensures { IsRepositoryIn told.now texts.now.folder.now texts.now.real.now places (telling git_says result) }
{
    let known = told.files.try_clone()?;
    let files = boxed(alloc, known)?;
    let set = told.variables.try_clone()?;
    let env = boxed(alloc, set)?;
    let mut host = Host { files, env, places };
    File::from_git_dir(alloc, texts.folder, Ok(texts.real), &mut host)
}

/// The number of a refused repository. Returns the name of the variable or the path of the file that it is about.
fn refused_repository(
    alloc: Global,
    told: &Told,
    refusal: &from_git_dir::Error,
    asked: &mut Block,
) -> u32
    ensures answer { (result ≡ 27 → ⊥) → IsAnsweredFor told.now (git_about refusal.now) (git_number refusal.now) result asked.old asked.new }
    ensures kept { IsKeptBut result asked.old asked.new }
{
    match refusal {
        from_git_dir::Error::FromPaths(e) => refused_load(alloc, &told.files, e, asked),
        from_git_dir::Error::FromEnv(e) => refused_env(alloc, told, e, asked),
        from_git_dir::Error::Includes(e) => refused_include(alloc, &told.files, e, asked),
        refusal => u32::from(refusal.number()),
    }
}
