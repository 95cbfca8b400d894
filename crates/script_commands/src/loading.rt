//! Commands that make the current file of what is outside, as the script sets it, and the one that asks where configuration
//! is. One that is refused leaves the state of the script as it was, and none changes another file.
//
// A host is made in each call that needs one, and passed to no other function of ours, as in `expanding`.

use crate::answer::{Answer, Outcome};
use crate::gix_config::file::{Metadata, init};
use crate::gix_config::host::{Host, StorageLocation};
use crate::gix_config::{File, Source};
use crate::refusal::Refusal;
use crate::session::Session;
use crate::surroundings::{Outside, Parts, owned_text};
use script_words::arguments::{no_words, text};
use script_words::loading::{name, path_and_name, paths_of};
use script_words::words::{NotUnderstood, Word, named_in};
use std::alloc::Global;
use std::borrow::CowSlice;

static SOURCES: [(&[u8], Source); 10] = [
    (b"installation", Source::GitInstallation),
    (b"system", Source::System),
    (b"git", Source::Git),
    (b"user", Source::User),
    (b"local", Source::Local),
    (b"worktree", Source::Worktree),
    (b"env", Source::Env),
    (b"cli", Source::Cli),
    (b"api", Source::Api),
    (b"override", Source::EnvOverride),
];

/// SOURCE.
fn source_of(word: &[u8]) -> Result<Source, NotUnderstood> {
    match named_in(&SOURCES, word) {
        Some(source) => Ok(source),
        None => Err(NotUnderstood),
    }
}

/// `place SOURCE`: where the configuration of a source is.
pub fn place<'a>(alloc: Global, outside: &Outside, words: &[Word<'_>]) -> Outcome<'a> {
    let source = source_of(name(words)?)?;
    let mut variables = outside.variables(alloc)?;
    let places = outside.places(alloc)?;
    match source.storage_location(alloc, &mut variables, &places)? {
        Some(place) => Ok(Answer::Bytes(CowSlice::Owned(place.into_bytes()))),
        None => Ok(Answer::Absent),
    }
}

/// `frompath BYTES SOURCE`: the current file becomes the file of that path and source, without what its sections include.
pub fn frompath<'a>(alloc: Global, session: &mut Session, words: &[Word<'_>]) -> Outcome<'a> {
    let (path, source) = path_and_name(words)?;
    let source = source_of(source)?;
    let path = String::from_str(alloc, path)?;
    let file = file_of_path(alloc, path, source, session.outside())?;
    session.put(file, None);
    Ok(Answer::Done)
}

fn file_of_path(
    alloc: Global,
    path: String,
    source: Source,
    outside: &Outside,
) -> Result<File, Refusal> {
    let Parts {
        files,
        variables,
        places,
    } = outside.parts(alloc)?;
    let mut host = Host {
        files: Box::new(alloc, files)?,
        env: Box::new(alloc, variables)?,
        places,
    };
    Ok(File::from_path_no_includes(alloc, path, source, &mut host)?)
}

/// `paths B B OPT..`: the current file becomes all files of these paths, with what their sections include.
pub fn paths<'a>(alloc: Global, session: &mut Session, words: &[Word<'_>]) -> Outcome<'a> {
    let paths = paths_of(words)?;
    let metas = metas_of(alloc, paths.paths)?;
    let file = if paths.must_exist {
        file_of_paths(alloc, metas, paths.ignores_faults, session.outside())?
    } else {
        file_of_paths_if_any(alloc, metas, paths.ignores_faults, session.outside())?
    };
    Ok(put_found(session, file))
}

/// If each file must exist.
fn file_of_paths(
    alloc: Global,
    metas: Vec<Metadata>,
    ignores_faults: bool,
    outside: &Outside,
) -> Result<Option<File>, Refusal> {
    let options = options_of(outside, ignores_faults);
    let Parts {
        files,
        variables,
        places,
    } = outside.parts(alloc)?;
    let mut host = Host {
        files: Box::new(alloc, files)?,
        env: Box::new(alloc, variables)?,
        places,
    };
    Ok(File::from_paths_metadata(alloc, metas, options, &mut host)?)
}

/// If a file that isn't there is skipped.
fn file_of_paths_if_any(
    alloc: Global,
    metas: Vec<Metadata>,
    ignores_faults: bool,
    outside: &Outside,
) -> Result<Option<File>, Refusal> {
    let options = options_of(outside, ignores_faults);
    let Parts {
        files,
        variables,
        places,
    } = outside.parts(alloc)?;
    let mut host = Host {
        files: Box::new(alloc, files)?,
        env: Box::new(alloc, variables)?,
        places,
    };
    Ok(File::from_paths_metadata_buf(alloc, metas, false, options, &mut host)?)
}

/// The options that are set, and what happens at faults.
fn options_of<'a>(outside: &'a Outside, ignores_faults: bool) -> init::Options<'a> {
    init::Options {
        ignore_io_errors: ignores_faults,
        ..outside.options()
    }
}

/// Files of these paths, which the calling program names.
fn metas_of(alloc: Global, paths: &[Word<'_>]) -> Result<Vec<Metadata>, Refusal> {
    let mut metas = Vec::with_capacity(alloc, paths.len())?;
    for path in paths {
        metas.push(meta_of(alloc, path)?)?;
    }
    Ok(metas)
}

fn meta_of(alloc: Global, path: &Word<'_>) -> Result<Metadata, Refusal> {
    Ok(Metadata {
        path: owned_text(alloc, path.optional_text()?)?,
        ..Metadata::api()
    })
}

/// Replaces the current file, if a file was found.
fn put_found<'a>(session: &mut Session, file: Option<File>) -> Answer<'a> {
    match file {
        Some(file) => {
            session.put(file, None);
            Answer::Done
        }
        None => Answer::Absent,
    }
}

/// `globals`: the current file becomes the configuration of the machine and of the user.
pub fn globals<'a>(alloc: Global, session: &mut Session, words: &[Word<'_>]) -> Outcome<'a> {
    no_words(words)?;
    let file = file_of_globals(alloc, session.outside())?;
    session.put(file, None);
    Ok(Answer::Done)
}

fn file_of_globals(alloc: Global, outside: &Outside) -> Result<File, Refusal> {
    let Parts {
        files,
        variables,
        places,
    } = outside.parts(alloc)?;
    let mut host = Host {
        files: Box::new(alloc, files)?,
        env: Box::new(alloc, variables)?,
        places,
    };
    Ok(File::from_globals(alloc, &mut host)?)
}

/// `fromenv`: the current file is made of variables, with what its sections include.
pub fn fromenv<'a>(alloc: Global, session: &mut Session, words: &[Word<'_>]) -> Outcome<'a> {
    no_words(words)?;
    let file = file_of_variables(alloc, session.outside())?;
    Ok(put_found(session, file))
}

fn file_of_variables(alloc: Global, outside: &Outside) -> Result<Option<File>, Refusal> {
    let Parts {
        files,
        variables,
        places,
    } = outside.parts(alloc)?;
    let mut host = Host {
        files: Box::new(alloc, files)?,
        env: Box::new(alloc, variables)?,
        places,
    };
    Ok(File::from_env(alloc, outside.options(), &mut host)?)
}

/// `overrides`: the current file is made of variables, as what overrides everything else.
pub fn overrides<'a>(alloc: Global, session: &mut Session, words: &[Word<'_>]) -> Outcome<'a> {
    no_words(words)?;
    let file = file_of_overrides(alloc, session.outside())?;
    session.put(file, None);
    Ok(Answer::Done)
}

fn file_of_overrides(alloc: Global, outside: &Outside) -> Result<File, Refusal> {
    let Parts {
        files,
        variables,
        places,
    } = outside.parts(alloc)?;
    let mut host = Host {
        files: Box::new(alloc, files)?,
        env: Box::new(alloc, variables)?,
        places,
    };
    Ok(File::from_environment_overrides(alloc, &mut host)?)
}

/// `gitdir BYTES`: the current file becomes the configuration of the repository of that folder.
pub fn gitdir<'a>(alloc: Global, session: &mut Session, words: &[Word<'_>]) -> Outcome<'a> {
    let file = file_of_repository(alloc, text(words)?, session.outside())?;
    session.put(file, None);
    Ok(Answer::Done)
}

fn file_of_repository(alloc: Global, dir: &str, outside: &Outside) -> Result<File, Refusal> {
    let Parts {
        files,
        variables,
        places,
    } = outside.parts(alloc)?;
    let mut host = Host {
        files: Box::new(alloc, files)?,
        env: Box::new(alloc, variables)?,
        places,
    };
    Ok(File::from_git_dir(alloc, dir, outside.real_folder(), &mut host)?)
}
