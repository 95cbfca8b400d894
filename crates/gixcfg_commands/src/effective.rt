//! All that git reads, from where the program is called.

use crate::loads::Loads;
use crate::parameters;
use crate::parameters::{Parameter, parameters_of};
use crate::paths::has_worktree_file;
use crate::placing::{refused_includes, refused_paths};
use bstr::BString;
use gix_config::file::Metadata;
use gix_config::file::init::{self, from_env};
use gix_config::refusals::Refusal;
use gix_config::source::Source;
use gix_config::{File, KeyRef, NoMemory};
use gixcfg_core::conditions::{here_from, options_of};
use gixcfg_core::numbers::MOST_OF_32_BITS;
use gixcfg_core::outside::Outside;
use gixcfg_core::places::{add, metas_of_user};
use gixcfg_core::refusals::trouble_of;
use gixcfg_core::trouble::{Trouble, of_number};
use gixcfg_files::{Repository, find_repository, variable};
use gixcfg_words::plain::is_nameless;
use gixcfg_words::shown::Shown;
use std::alloc::{AllocGlobal, Global};
use std::fmt;
use std::fmt::Write;
use std::rc::Rc;
use std::rt::{Env, Files};

/// All that git reads from here, in its order, with what is included or without: the files of the system, of the user, of the
/// repository and of its working tree, then the variables.
pub fn effective<R: Files + Env + Loads + AllocGlobal>(
    rt: &R,
    outside: Outside<'_>,
    follows: bool,
) -> Result<File, Trouble> {
    let home = outside.home;
    let found = find_repository(rt)?;
    let here = here_from(rt, found.as_ref())?;
    let metas = metas_of_here(rt, home, found.as_ref())?;
    load(rt, metas, outside, options_of(home, &here, follows))
}

/// Where all files that git reads are, in a repository or outside of one.
pub fn metas_of_here<R: Files + Env + AllocGlobal>(
    rt: &R,
    home: Option<&str>,
    found: Option<&Repository>,
) -> Result<Vec<Metadata>, Trouble> {
    match found {
        Some(found) => metas_of(rt, home, found),
        None => Ok(metas_of_user(rt, home)?),
    }
}

/// Where all files are that git reads in a repository.
fn metas_of<R: Files + Env + AllocGlobal>(
    rt: &R,
    home: Option<&str>,
    found: &Repository,
) -> Result<Vec<Metadata>, Trouble> {
    let alloc = rt.alloc();
    let mut metas = metas_of_user(rt, home)?;
    let path = found.file(alloc)?;
    let has_more = has_worktree_file(rt, path.as_str())?;
    add(&mut metas, path, Source::Local)?;
    if has_more {
        add(&mut metas, found.worktree_file(alloc)?, Source::Worktree)?;
    }
    Ok(metas)
}

/// The files of these places, and the variables, as the options have it.
fn load<R: Files + Env + Loads + AllocGlobal>(
    rt: &R,
    metas: Vec<Metadata>,
    outside: Outside<'_>,
    options: init::Options<'_>,
) -> Result<File, Trouble> {
    let variables = variables_of(rt, outside, options)?;
    match files_of(rt, metas, outside, options)? {
        Some(file) => joined(file, variables),
        None => Ok(or_empty(rt.alloc(), variables)?),
    }
}

/// The file of the variables, if they have entries: those of `GIT_CONFIG_COUNT`, then those of `git -c`.
fn variables_of<R: Files + Env + Loads + AllocGlobal>(
    rt: &R,
    outside: Outside<'_>,
    options: init::Options<'_>,
) -> Result<Option<File>, Trouble> {
    let counted = if has_count(rt)? {
        counted_of(rt, options)?
    } else {
        None
    };
    let Some(mut given) = parameters_of_here(rt)? else {
        return Ok(counted);
    };
    match rt.follow(&mut given, options) {
        Ok(()) => Ok(Some(joined(or_empty(rt.alloc(), counted)?, Some(given))?)),
        Err(refusal) => Err(refused_includes(rt, &refusal, outside)),
    }
}

/// The file of what `git -c` has given, if it has.
pub fn parameters_of_here<R: Env + AllocGlobal>(rt: &R) -> Result<Option<File>, Trouble> {
    match variable(rt, "GIT_CONFIG_PARAMETERS")? {
        Some(text) => Ok(Some(file_of_parameters(rt.alloc(), text.as_bytes())?)),
        None => Ok(None),
    }
}

/// Whether `GIT_CONFIG_COUNT` is set to something. For git it counts as not set if it is empty, which the library refuses as no number.
pub fn has_count<R: Env + AllocGlobal>(rt: &R) -> Result<bool, Trouble> {
    match variable(rt, "GIT_CONFIG_COUNT")? {
        Some(count) if is_too_many(&count) => {
            Err(told(rt.alloc(), "too many entries in GIT_CONFIG_COUNT"))
        }
        Some(count) => Ok(!count.is_empty()),
        None => Ok(false),
    }
}

/// Whether a count is more than git takes.
fn is_too_many(count: &str) -> bool {
    match count.parse::<u64>() {
        Ok(count) => count > MOST_OF_32_BITS,
        Err(_) => false,
    }
}

/// The file of the entries of `git -c`.
fn file_of_parameters(alloc: Global, text: &[u8]) -> Result<File, Trouble> {
    let parameters = match parameters_of(alloc, text) {
        Ok(parameters) => parameters,
        Err(parameters::Fault::Memory) => return Err(Trouble::Memory),
        Err(parameters::Fault::Malformed) => {
            return Err(told(
                alloc,
                "GIT_CONFIG_PARAMETERS isn't written as git writes it",
            ));
        }
    };
    let mut file = or_empty(alloc, None)?;
    for parameter in &parameters {
        add_parameter(alloc, &mut file, parameter)?;
    }
    Ok(file)
}

/// Adds an entry, in a section of its own, so that the order stays.
fn add_parameter(alloc: Global, file: &mut File, parameter: &Parameter) -> Result<(), Trouble> {
    let key = match KeyRef::parse_unvalidated(&parameter.key) {
        Some(key) if !is_nameless(key.section_name, key.subsection_name) => key,
        _ => return Err(told(alloc, "a key of GIT_CONFIG_PARAMETERS names no section")),
    };
    let subsection_name = match key.subsection_name {
        Some(bytes) => Some(BString::new(bytes.to_vec(alloc)?)),
        None => None,
    };
    match file.new_section(key.section_name, subsection_name) {
        Ok(mut section) => {
            let value = match &parameter.value {
                Some(value) => Some(value.as_bytes()),
                None => None,
            };
            match section.push(key.value_name, value) {
                Ok(()) => Ok(()),
                Err(refusal) => Err(of_number(refusal.number())),
            }
        }
        Err(refusal) => Err(of_number(refusal.number())),
    }
}

/// A trouble with a variable, with the message.
fn told(alloc: Global, what: &str) -> Trouble {
    match format!(in alloc; "gixcfg: {what}\n") {
        Ok(message) => Trouble::Text(message),
        Err(_) => Trouble::Memory,
    }
}

/// The file of the variables of `GIT_CONFIG_COUNT`, if they have entries. The library takes a key that names no section, and git doesn't.
pub fn counted_of<R: Loads + AllocGlobal>(
    rt: &R,
    options: init::Options<'_>,
) -> Result<Option<File>, Trouble> {
    match rt.from_variables(options) {
        Ok(Some(file)) if file.section("", None).is_ok() => {
            Err(told(rt.alloc(), "a key of GIT_CONFIG_KEY_n names no section"))
        },
        Ok(file) => Ok(file),
        Err(refusal) => Err(trouble_of(rt.alloc(), refusal.number(), &InGitsWords(&refusal))),
    }
}

/// An error of the variables of `GIT_CONFIG_COUNT`: in git's words, if the count is none, or what it counts is missing.
#[derive(Clone, Copy)]
struct InGitsWords<'a>(&'a from_env::Error);

impl fmt::Display for InGitsWords<'_> {
    fn fmt<W: fmt::Write>(&self, f: &mut fmt::Formatter<W>) -> fmt::Result {
        match self.0 {
            from_env::Error::InvalidConfigCount { input } => {
                let input = Shown(input);
                write!(f, "bogus count in GIT_CONFIG_COUNT: {input}")
            }
            from_env::Error::InvalidKeyId { key_id } => {
                write!(f, "missing config key GIT_CONFIG_KEY_{key_id}")
            }
            from_env::Error::InvalidValueId { value_id } => {
                write!(f, "missing config value GIT_CONFIG_VALUE_{value_id}")
            }
            refusal => write!(f, "{refusal}"),
        }
    }
}

/// The files of these places as one, if there are some.
fn files_of<R: Files + Loads + AllocGlobal>(
    rt: &R,
    metas: Vec<Metadata>,
    outside: Outside<'_>,
    options: init::Options<'_>,
) -> Result<Option<File>, Trouble> {
    match rt.from_paths(metas, options) {
        Ok(file) => Ok(file),
        Err(refusal) => Err(refused_paths(rt, &refusal, outside)),
    }
}

/// A file, or an empty one.
fn or_empty(alloc: Global, file: Option<File>) -> Result<File, NoMemory> {
    match file {
        Some(file) => Ok(file),
        None => Ok(File::new(alloc, Rc::new(alloc, Metadata::api())?)),
    }
}

/// A file, and another one after it.
fn joined(mut file: File, other: Option<File>) -> Result<File, Trouble> {
    let Some(other) = other else {
        return Ok(file);
    };
    match file.append(other) {
        Ok(()) => Ok(file),
        Err(refusal) if refusal.is_memory() => Err(Trouble::Memory),
        Err(_) => Err(Trouble::Refused(3)),
    }
}
