//! Where the text is for which a load of several files is refused.

use gix_config::file::includes;
use gix_config::file::init::{self, from_paths};
use gix_config::parse::Error;
use gix_config::refusals::Refusal;
use gix_config::{File, NoMemory};
use gixcfg_core::outside::{Outside, refused};
use gixcfg_core::refusals::trouble_of;
use gixcfg_core::texts::text_at;
use gixcfg_core::trouble::Trouble;
use std::alloc::AllocGlobal;
use std::rt::Files;

/// The trouble that an error of a load of files is: with its place, if a text is refused.
pub fn refused_paths<R: Files + AllocGlobal>(
    rt: &R,
    refusal: &from_paths::Error,
    outside: Outside<'_>,
) -> Trouble {
    match refusal {
        from_paths::Error::Init {
            path,
            source: init::Error::Parse(cause),
        } => placed(rt, path, cause, outside),
        from_paths::Error::Init { source, .. } => refused_init(rt, source, outside),
        _ => trouble_of(rt.alloc(), refusal.number(), refusal),
    }
}

/// The trouble that an error of a file with what it includes is: with its place, if an included text is refused.
pub fn refused_init<R: Files + AllocGlobal>(
    rt: &R,
    refusal: &init::Error,
    outside: Outside<'_>,
) -> Trouble {
    match refusal {
        init::Error::Includes(refusal) => refused_includes(rt, refusal, outside),
        _ => trouble_of(rt.alloc(), refusal.number(), refusal),
    }
}

/// The trouble that an error of what a file includes is: with its place, if an included text is refused; in git's words, if files include
/// each other too deep.
pub fn refused_includes<R: Files + AllocGlobal>(
    rt: &R,
    refusal: &includes::Error,
    outside: Outside<'_>,
) -> Trouble {
    let (alloc, number) = (rt.alloc(), refusal.number());
    match refusal {
        includes::Error::Parse { path, source } => placed(rt, path, source, outside),
        includes::Error::IncludeDepthExceeded { max_depth } => {
            match format!(in alloc; "exceeded maximum include depth ({max_depth})") {
                Ok(words) => trouble_of(alloc, number, &words),
                Err(_) => Trouble::Memory,
            }
        }
        _ => trouble_of(alloc, number, refusal),
    }
}

/// The trouble that the parser's error for the file at a path is: with its place, if the file is as it was then.
fn placed<R: Files + AllocGlobal>(
    rt: &R,
    path: &str,
    cause: &Error,
    outside: Outside<'_>,
) -> Trouble {
    match refused_again(rt, path, cause, outside) {
        Ok(Some(trouble)) => trouble,
        Ok(None) => trouble_of(rt.alloc(), cause.number(), cause),
        Err(_) => Trouble::Memory,
    }
}

/// The trouble with its place, which is looked for in the text; none if the file isn't as it was.
fn refused_again<R: Files + AllocGlobal>(
    rt: &R,
    path: &str,
    cause: &Error,
    outside: Outside<'_>,
) -> Result<Option<Trouble>, NoMemory> {
    let Some(text) = text_at(rt, path)? else {
        return Ok(None);
    };
    let Err(refusal) = File::try_from_bytes(rt.alloc(), &text) else {
        return Ok(None);
    };
    if refusal.is_memory() {
        return Err(NoMemory);
    }
    if refusal != *cause {
        return Ok(None);
    }
    Ok(Some(refused(rt.alloc(), path, &text, &refusal, outside)))
}
