//! One included file: read and loaded.
ghost use Rattle.std.specs.Prelude.{◌≡◌, ◌⊎◌, ◌<◌, [], Err, IfOk, string_bytes};
ghost use Rattle.gitconf_includes.specs.Errors.{include_of_parse, says};
ghost use Rattle.gitconf_includes.specs.Said.{fault_said, OutOfMemory};
ghost use Rattle.gitconf_state.specs.Including.{whole};
ghost use Rattle.gitconf_includes.specs.Expansion.{included_meta, IsFetched};
ghost use Rattle.gitconf_includes.specs.Outcomes.{asks_of, told, CountsFaults};

use crate::config_file::ConfigFile;
use crate::includes::Error;
use crate::init::Options;
use crate::paths::copied;
use gitconf_read::error as parse;
use gitconf_sources::meta::Metadata;
use gitconf_sources::{FileFault, Files, Stage};
use gitconf_text::NoMemory;
use std::alloc::Global;
use std::rc::Rc;

/// The error for a fault of the file at that path.
fn refusal(fault: FileFault, path: String) -> Error
    ensures { says result ≡ fault_said (string_bytes path) fault }
{
    match fault.stage {
        Stage::Open => Error::Io {
            path,
            source: fault,
        },
        Stage::Read => Error::CopyBuffer {
            path,
            source: fault,
        },
        Stage::Memory => Error::Memory,
    }
}

/// The error for the file at that path because the parser refuses its text.
fn refused(parse: parse::Error, path: String) -> Error
    ensures { result ≡ include_of_parse path parse }
{
    if parse.is_memory() {
        Error::Memory
    } else {
        Error::Parse {
            path,
            source: parse,
        }
    }
}

/// Shares metadata.
///
/// # Errors
///
/// Out of memory.
fn shared(alloc: Global, meta: Metadata) -> Result<Rc<Metadata>, NoMemory>
    ensures { IfOk result (λ shared. shared.value ≡ meta) }
{
    Ok(Rc::new(alloc, meta)?)
}

/// Where the sections of the file at that path come from, if a section from `from` includes it.
fn included_meta(from: &Metadata, path: String) -> Metadata
    requires { from.now.level < 255 }
    ensures { result ≡ included_meta from.now (string_bytes path) }
{
    Metadata {
        path: Some(path),
        source: from.source,
        level: from.level + 1,
        trust: from.trust,
    }
}

/// The file at that path, which a section from `from` includes: it is read, and loaded with the next level.
///
/// # Errors
///
/// E19 if it can't be opened, E20 if it can't be read, E15 if the level is past 255, those of the parser, and E27 when out of
/// memory.
pub(crate) fn fetch<F: Files, S: ConfigFile>(
    alloc: Global,
    files: &mut F,
    options: &Options<'_>,
    from: &Metadata,
    path: String,
) -> Result<S, Error>
    ensures fetched { (told (λ s. whole (S.done s) (S.rest s)) result ≡ Err OutOfMemory)
        ⊎ IsFetched (asks_of options.now (F.table files.old)) from.now (string_bytes path) (told (λ s. whole (S.done s) (S.rest s)) result) }
    ensures fresh { IfOk result (λ s. (S.done s).sections ≡ []) }
    ensures table { F.table files.new ≡ F.table files.old }
    ensures counted { CountsFaults result (F.failures files.old) (F.failures files.new) }
{
    let text = match files.read(&path) {
        Ok(text) => text,
        Err(fault) => return Err(refusal(fault, path)),
    };
    if from.level == u8::MAX {
        return Err(Error::IncludeDepthExceeded {
            max_depth: options.includes.max_depth,
        });
    }
    let at = copied(alloc, &path)?;
    let meta = shared(alloc, included_meta(from, path))?;
    match S::load(alloc, text, options.lossy, meta) {
        Ok(file) => Ok(file),
        Err(parse) => Err(refused(parse, at)),
    }
}
