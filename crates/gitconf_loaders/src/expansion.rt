//! A store under expansion.
ghost use Rattle.std.specs.Prelude.{◌≡◌, map, IfErr, IfOk};
ghost use Rattle.bstr.specs.Owned.{bstring_bytes};
ghost use Rattle.gitconf_read.specs.EventResult.{IsRefused};
ghost use Rattle.gitconf_views.specs.Views.{shown};
ghost use Rattle.gitconf_includes.specs.Expansion.{IsLoaded};
ghost use Rattle.gitconf_includes.specs.Inclusion.{paths_of};
ghost use Rattle.gitconf_includes.specs.Visits.{TellsInclusion};
ghost use Rattle.gitconf_loaders.specs.Urls.{has_url_in};

use crate::gathering::Gathering;
use bstr::BString;
use gitconf_glob::wildmatch;
use gitconf_includes::config_file::{ConfigFile, Directive, Visited};
use gitconf_read::error as parse;
use gitconf_sources::meta::Metadata;
use gitconf_store::store::Store;
use gitconf_text::NoMemory;
use gitconf_text::parse::span;
use gitconf_views::section::{SectionRef, shared};
use std::alloc::Global;
use std::rc::Rc;

/// A store whose sections are visited, with what they include put in after each.
#[derive(Drop)]
pub(crate) struct Expansion {
    pub(crate) gathering: Gathering,
}

/// A section's directive, under a condition or without one.
///
/// # Errors
///
/// Out of memory.
fn directive(section: &SectionRef<'_>, condition: Option<BString>) -> Result<Directive, NoMemory>
    ensures condition { IfOk result (λ d. d.condition ≡ condition) }
    ensures paths { IfOk result (λ d. map bstring_bytes d.paths.items ≡ paths_of (shown section.now)) }
    ensures meta { IfOk result (λ d. d.meta.value ≡ (shown section.now).meta) }
{
    Ok(Directive {
        condition,
        paths: section.values("path")?,
        meta: shared(section.meta)?,
    })
}

/// What a section includes. Takes no memory if it includes nothing.
///
/// # Errors
///
/// Out of memory.
fn told(section: &SectionRef<'_>) -> Result<Visited, NoMemory>
    ensures { IfOk result (λ told. TellsInclusion told (shown section.now)) }
{
    let header = section.header();
    match header.subsection_name() {
        None if header.name() == b"include".as_slice() => {
            Ok(Visited::Includes(directive(section, None)?))
        }
        Some(condition) if header.name() == b"includeIf".as_slice() => {
            let condition = BString::from_slice(section.alloc, condition)?;
            Ok(Visited::Includes(directive(section, Some(condition))?))
        }
        _ => Ok(Visited::Plain),
    }
}

/// Whether a value of `url` in a section matches a pattern.
///
/// # Errors
///
/// Out of memory.
fn has_url(section: &SectionRef<'_>, pattern: &[u8]) -> Result<bool, NoMemory>
    ensures { IfOk result (λ found. found ≡ has_url_in pattern.now (shown section.now)) }
{
    for url in section.values("url")? {
        if wildmatch(section.alloc, pattern, &url, false)? {
            return Ok(true);
        }
    }
    Ok(false)
}

/// The store of a text, all of it or only what has a meaning. The text becomes the store's buffer.
///
/// # Errors
///
/// Those of the parser.
pub fn load(
    alloc: Global,
    text: Vec<u8>,
    lossy: bool,
    meta: Rc<Metadata>,
) -> Result<Store, parse::Error>
    ensures loaded { IfOk result (IsLoaded lossy text.items meta.value) }
    ensures refused { IfErr result (IsRefused text.items) }
{
    if lossy {
        Store::from_text_lossy(alloc, text, meta)
    } else {
        Store::from_text(alloc, text, meta)
    }
}

impl ConfigFile for Expansion {
    ghost done = { λ e. e.gathering.done };

    ghost rest = { λ e. e.gathering.rest };

    fn load(
        alloc: Global,
        text: Vec<u8>,
        lossy: bool,
        meta: Rc<Metadata>,
    ) -> Result<Expansion, parse::Error> {
        Ok(Expansion {
            gathering: Gathering::of(load(alloc, text, lossy, meta)?),
        })
    }

    fn visit(&mut self) -> Result<Option<Visited>, NoMemory> {
        let visited = match self.gathering.next_section() {
            None => return Ok(None),
            Some(section) => told(&section)?,
        };
        self.gathering.advance();
        Ok(Some(visited))
    }

    fn has_url(&self, pattern: &[u8]) -> Result<bool, NoMemory> {
        let Some(sections) = self.gathering.sections_by_name("remote") else {
            return Ok(false);
        };
        for section in sections {
            if has_url(&section, pattern)? {
                return Ok(true);
            }
        }
        Ok(false)
    }

    fn include(&mut self, other: Expansion) -> Result<(), span::Error> {
        self.gathering.include(other.gathering)
    }
}
