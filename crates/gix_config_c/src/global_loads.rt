//! The configuration of the machine and of the user, by what a program told.
ghost use Rattle.std.specs.Option.{option_copied};
ghost use Rattle.std.specs.Prelude.{◌≡◌, ◌⊎◌, Some};
ghost use Rattle.gitconf_loaders.specs.Errors.{paths_says};
ghost use Rattle.gitconf_loaders.specs.Globals.{IsGlobal};
ghost use Rattle.gitconf_loaders.specs.Paths.{telling};
ghost use Rattle.gix_config_c.specs.Blocks.{Holds, IsKept};
ghost use Rattle.gix_config_c.specs.HostLoads.{IsGlobalLoad, IsGlobalLoadAt, IsGlobalMade, IsKeptBut, OfPlaces, files_told, variables_told};
ghost use Rattle.gix_config_c.specs.KnownPlaces.{places_of, plain_texts};
ghost use Rattle.gix_config_c.specs.Telling.{OfTold};
ghost use Rattle.gix_config_c.specs.Variables.{first_untold, place_variables};

use crate::block::{Block, room};
use crate::lists::put_list;
use crate::loading::{boxed, refused_load};
use crate::object::Object;
use crate::places::{KnownPlaces, PlaceTexts, host_places, texts};
use crate::slot::{Slot, in_handle};
use crate::told::Told;
use crate::variables::untold;
use crate::{NOT_UTF8, OUT_OF_MEMORY, VARIABLE_NOT_TOLD};
use gitconf_loaders::from_paths;
use gix_config::File;
use gix_config::host::{Host, Places};
use std::alloc::Global;

/// Returns the name of a variable of which nothing was told.
pub(crate) fn ask_for_variable(alloc: Global, name: &str, asked: &mut Block) -> u32
    ensures answer { (result ≡ 27) ⊎ ((result ≡ 105) × Holds name.now asked.new) }
    ensures kept { result ≡ 27 → IsKept asked.old asked.new }
{
    let Some(room) = room(alloc) else {
        return OUT_OF_MEMORY;
    };
    let Ok(copy) = name.as_bytes().to_vec(alloc) else {
        return OUT_OF_MEMORY;
    };
    asked.put(room, copy);
    VARIABLE_NOT_TOLD
}

/// Loads the configuration of the machine and of the user. It is loaded from what a program told of files and of variables: the files that
/// were installed with git, of the machine, and the user's two, in this order, each with what it includes; an empty file if there is none.
/// What was in the file's handle before is closed.
///
/// 105 if nothing was told of a variable that says where these files are, 103 if nothing was told of a file that is needed: its name or path
/// is then in the block, whose bytes from before are freed; tell it, and call again. 21 if one of these files, and 19 or 20 if one that is
/// included, was told to have a fault; 1 or 2 if the text of one is refused: its path is then in the block, too. 3 and 12 to 18 if a file or its
/// includes are refused. 101 if a place is not UTF-8, 102 if the handle is not one for what is told, 27 when out of memory. The file's handle is
/// as it was after any number but 0, and the block after any but 1, 2, 19 to 21, 103 and 105.
#[unsafe(no_mangle)]
pub extern "C" fn gix_config_load_globals_told(
    alloc: Global,
    told: &mut Slot,
    places: &KnownPlaces<'_>,
    file: &mut Slot,
    asked: &mut Block,
) -> u32
    ensures answer { OfTold told.old.it result (λ t. OfPlaces (places_of places.now) result (λ p. IsGlobalLoadAt t p result file.new.it asked.old asked.new)) }
    ensures kept { (result ≡ 0 → ⊥) → file.new.it ≡ file.old.it }
    ensures kept_asked { IsKeptBut result asked.old asked.new }
    ensures same { told.new.it ≡ told.old.it }
{
    in_handle!(alloc, &told, Object::Told(it) => load_globals(alloc, it, places, file, asked))
}

/// Loads the configuration of the machine and of the user.
fn load_globals(
    alloc: Global,
    told: &Told,
    places: &KnownPlaces<'_>,
    file: &mut Slot,
    asked: &mut Block,
) -> u32
    ensures answer { OfPlaces (places_of places.now) result (λ p. IsGlobalLoadAt told.now p result file.new.it asked.old asked.new) }
    ensures kept { (result ≡ 0 → ⊥) → file.new.it ≡ file.old.it }
    ensures kept_asked { IsKeptBut result asked.old asked.new }
{
    match texts(places) {
        Some(texts) => load_globals_at(alloc, told, &texts, file, asked),
        None => NOT_UTF8,
    }
}

/// The same, with the places as text.
fn load_globals_at(
    alloc: Global,
    told: &Told,
    texts: &PlaceTexts<'_>,
    file: &mut Slot,
    asked: &mut Block,
) -> u32
    ensures answer { IsGlobalLoadAt told.now (plain_texts texts.now) result file.new.it asked.old asked.new }
    ensures kept { (result ≡ 0 → ⊥) → file.new.it ≡ file.old.it }
    ensures kept_asked { IsKeptBut result asked.old asked.new }
{
    match host_places(alloc, texts) {
        Ok(places) => put_globals(alloc, told, places, file, asked),
        Err(_) => OUT_OF_MEMORY,
    }
}

/// The first variable of which nothing was told, of those that say where the configuration of the machine and of the user is.
fn untold_place(told: &Told) -> Option<&'static str>
    ensures { option_copied result ≡ first_untold told.now.variables place_variables }
{
    untold(
        &told.variables,
        &[
            "GIT_CONFIG_NOSYSTEM",
            "GIT_CONFIG_SYSTEM",
            "GIT_CONFIG_GLOBAL",
            "XDG_CONFIG_HOME",
            "HOME",
        ],
    )
}

/// Puts the configuration of the machine and of the user into a handle, once all is told of the variables that it needs.
fn put_globals(
    alloc: Global,
    told: &Told,
    places: Places,
    file: &mut Slot,
    asked: &mut Block,
) -> u32
    ensures answer { (result ≡ 27 → ⊥) → IsGlobalLoad told.now places result file.new.it asked.old asked.new }
    ensures kept { (result ≡ 0 → ⊥) → file.new.it ≡ file.old.it }
    ensures kept_asked { IsKeptBut result asked.old asked.new }
{
    match untold_place(told) {
        Some(name) => ask_for_variable(alloc, name, asked),
        None => put_known(alloc, told, places, file, asked),
    }
}

/// Puts the configuration of the machine and of the user into a handle.
fn put_known(alloc: Global, told: &Told, places: Places, file: &mut Slot, asked: &mut Block) -> u32
    ensures answer { (result ≡ 27 → ⊥) → IsGlobalMade told.now places result file.new.it asked.old asked.new }
    ensures kept { (result ≡ 0 → ⊥) → file.new.it ≡ file.old.it }
    ensures kept_asked { IsKeptBut result asked.old asked.new }
{
    match globals(alloc, told, places) {
        Ok(made) => put_list(alloc, Object::File(made), file),
        Err(refusal) => refused_load(alloc, &told.files, &refusal, asked),
    }
}

/// The configuration of the machine and of the user.
fn globals(alloc: Global, told: &Told, places: Places) -> Result<File, from_paths::Error>
    ensures { IsGlobal (variables_told told.now) places (files_told told.now) (telling paths_says result) }
{
    let known = told.files.try_clone()?;
    let files = boxed(alloc, known)?;
    let set = told.variables.try_clone()?;
    let env = boxed(alloc, set)?;
    let mut host = Host { files, env, places };
    File::from_globals(alloc, &mut host)
}
