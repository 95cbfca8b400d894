//! Commands on path patterns, and on paths.

use crate::answer::{Answer, Outcome};
use crate::gix_config::Path;
use crate::gix_config::glob::wildmatch;
use crate::gix_config::path::interpolate::Context;
use bstr::BString;
use script_words::arguments::{path_with_folders, pattern_match};
use script_words::words::Word;
use std::alloc::Global;

/// `match BYTES BYTES B`: whether a pattern matches a text, without case if the flag says so.
pub fn matches<'a>(alloc: Global, words: &[Word<'_>]) -> Outcome<'a> {
    let asked = pattern_match(words)?;
    Ok(Answer::Flag(wildmatch(alloc, asked.pattern, asked.text, asked.ignores_case)?))
}

/// `interpolate BYTES OPT OPT`: a path with its shorthands replaced, by the folder where git is installed and the home
/// folder. There is no table of users.
pub fn interpolate<'a>(alloc: Global, words: &[Word<'_>]) -> Outcome<'a> {
    let asked = path_with_folders(words)?;
    let context = Context {
        git_install_dir: asked.git_install_dir,
        home_dir: asked.home_dir,
        home_for_user: None,
    };
    let path = Path::from(BString::new(Vec::from_slice(alloc, asked.path)?));
    Ok(Answer::text(BString::new(path.interpolate(context)?.into_bytes())))
}
