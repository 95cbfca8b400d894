//! What is read for a key, file by file, with what each include led to.
//!
//! Files are read in the order in which all that git reads is loaded, and their includes are judged by what the library judges them by; so the
//! entries are those that `get` finds, and each has its place.

use crate::Loads;
use crate::effective::{counted_of, has_count, metas_of_here, parameters_of_here};
use crate::inclusions::{Judging, directive_of, urls_of};
use crate::named::entries_of_text;
use bstr::BString;
use gitconf_body::entries::next_entry;
use gitconf_body::meanings::entry_value;
use gitconf_items::entry::Entry;
use gitconf_sources::meta::Metadata;
use gitconf_views::section::SectionRef;
use gix_config::{File, KeyRef};
use gixcfg_core::conditions::{Here, here_from, options_of};
use gixcfg_core::entries::{Found, is_listed_under};
use gixcfg_core::names::add_names;
use gixcfg_core::origins::{Located, add_origin, scope_of};
use gixcfg_core::outside::{Inputs, Outside, accepted};
use gixcfg_core::place::{Position, Positions};
use gixcfg_core::places::meta_of;
use gixcfg_core::trouble::Trouble;
use gixcfg_files::{Fault, Repository, find_repository, read};
use gixcfg_words::command::Form;
use gixcfg_words::shown::Shown;
use std::alloc::{AllocError, AllocGlobal, Global};
use std::io::Read;
use std::rc::Rc;
use std::rt::{Env, Files};

/// What is traced of what a call reads.
#[derive(Clone, Copy)]
pub struct Traceable<'a> {
    /// The key whose entries are meant; all entries are, if there is none.
    pub key: Option<KeyRef<'a>>,
    /// Whether includes are followed, if that is said.
    pub includes: Option<bool>,
    /// Whether paths are printed as they are.
    pub is_null: bool,
}

/// An entry that was read.
#[derive(Drop)]
pub struct Row {
    /// Its scope.
    pub scope: &'static str,
    /// What its file is called.
    pub origin: Vec<u8>,
    /// Where it begins in its file, if it is in one.
    pub position: Option<Position>,
    /// Its names.
    pub names: Vec<u8>,
    /// Its value. An entry without `=` has none.
    pub value: Option<BString>,
}

impl Row {
    /// Adds what its file is called. If it is in a file, its line and column follow.
    ///
    /// # Errors
    ///
    /// Out of memory.
    pub fn add_place(&self, text: &mut Vec<u8>) -> Result<(), AllocError> {
        text.extend_from_slice(&self.origin)?;
        if let Some(position) = self.position {
            text.push(b':')?;
            add_number(text, position.line)?;
            text.push(b':')?;
            add_number(text, position.column)?;
        }
        Ok(())
    }

    /// The entry as `get` and `list` print it.
    ///
    /// # Errors
    ///
    /// Out of memory.
    pub fn into_found(self, alloc: Global, form: &Form) -> Result<Found, AllocError> {
        let end = if form.is_null { 0 } else { b'\t' };
        let mut before = Vec::new(alloc);
        if form.has_scope {
            before.extend_from_slice(self.scope.as_bytes())?;
            before.push(end)?;
        }
        self.add_place(&mut before)?;
        before.push(end)?;
        Ok(Found {
            before,
            names: self.names,
            value: self.value,
        })
    }
}

/// Adds a number in decimal.
///
/// # Errors
///
/// Out of memory.
pub fn add_number(text: &mut Vec<u8>, number: usize) -> Result<(), AllocError> {
    let digits = format!(in *text.allocator(); "{number}")?;
    text.extend_from_slice(digits.as_bytes())
}

/// An include, and what it led to.
#[derive(Drop)]
pub struct Include {
    /// The entry that has the path.
    pub row: Row,
    /// What it led to.
    pub led_to: LedTo,
}

/// What an include led to.
#[derive(Drop)]
pub enum LedTo {
    /// The file at this path was read.
    File(String),
    /// None was, for this reason.
    Nothing(String),
}

/// What was read for a key.
#[derive(Drop)]
pub struct Traced {
    /// The entries of the key, in the order in which they were read.
    pub entries: Vec<Row>,
    /// The includes, likewise.
    pub includes: Vec<Include>,
}

/// What was read for a key, or all that was read. It is of what a call reads.
///
/// # Errors
///
/// A file can't be read; a text, a variable or the place of a file is refused; out of memory.
pub fn trace<R: Files + Env + Loads + AllocGlobal, I: Read + Drop>(
    inputs: &mut Inputs<'_, R, I>,
    asked: Traceable<'_>,
    location: &Located,
) -> Result<Traced, Trouble> {
    let (rt, outside) = (inputs.rt, inputs.outside);
    let follows = location.follows(asked.includes);
    let found = if follows || location.is_effective() {
        find_repository(rt)?
    } else {
        None
    };
    let here = here_from(rt, found.as_ref())?;
    let tracing = Tracing {
        rt,
        asked,
        location,
        outside,
        judging: Judging {
            options: options_of(outside.home, &here, true).includes,
            follows,
        },
    };
    let mut traced = Traced {
        entries: Vec::new(rt.alloc()),
        includes: Vec::new(rt.alloc()),
    };
    match location {
        Located::Effective => tracing.add_all(&mut traced, found.as_ref(), &here)?,
        Located::Input | Located::File(..) => match inputs.text_of(location.path())? {
            Some(text) => {
                let meta = meta_of(rt.alloc(), location.path())?;
                tracing.add_text(&mut traced, location.name(), &text, meta)?
            }
            None => return Err(Trouble::NoFile),
        },
    }
    Ok(traced)
}

/// What is traced, and by what.
#[derive(Drop)]
struct Tracing<'a, R> {
    /// The runtime, which has the files and the variables.
    rt: &'a R,
    /// What is asked for.
    asked: Traceable<'a>,
    /// What is read.
    location: &'a Located,
    /// What else lies outside of the call's words.
    outside: Outside<'a>,
    /// What includes are judged by.
    judging: Judging<'a>,
}

impl<R: Files + Env + Loads + AllocGlobal> Tracing<'_, R> {
    /// Adds all that git reads here: its files, and then its variables.
    fn add_all(
        &self,
        traced: &mut Traced,
        found: Option<&Repository>,
        here: &Here,
    ) -> Result<(), Trouble> {
        let (rt, home) = (self.rt, self.outside.home);
        let mut seen: Vec<String> = Vec::new(rt.alloc());
        for meta in metas_of_here(rt, home, found)? {
            if let Some(path) = &meta.path
                && !seen.iter().any(|other| other == path)
                && let Some(text) = text_of(rt, path)?
            {
                let name = String::from_str(rt.alloc(), path)?;
                let meta = Rc::new(rt.alloc(), meta)?;
                self.add_text(traced, name.as_str(), &text, meta)?;
                seen.push(name)?;
            }
        }
        if has_count(rt)?
            && let Some(file) = counted_of(rt, options_of(home, here, false))?
        {
            self.add_file(traced, &file, None, None, self.depth())?;
        }
        if let Some(file) = parameters_of_here(rt)? {
            self.add_file(traced, &file, None, None, self.depth())?;
        }
        Ok(())
    }

    /// How many files deep includes are followed.
    fn depth(&self) -> u8 {
        self.judging.options.max_depth
    }

    /// Adds a text of this name, with what it includes.
    fn add_text(
        &self,
        traced: &mut Traced,
        name: &str,
        text: &[u8],
        meta: Rc<Metadata>,
    ) -> Result<(), Trouble> {
        let file = self.file_of(name, text, meta)?;
        self.add_file(traced, &file, Some(text), None, self.depth())?;
        Ok(())
    }

    /// The entries of a text of this name.
    fn file_of(&self, name: &str, text: &[u8], meta: Rc<Metadata>) -> Result<File, Trouble> {
        let alloc = self.rt.alloc();
        let made = entries_of_text(alloc, text, meta);
        accepted(alloc, name, text, made, self.outside)
    }

    /// Adds a file with what it includes, `left` files deep, and returns the URLs of its remotes with theirs. `text` is what it was read from, if
    /// it was; `above` has the URLs of the file that includes it, if one does, by which its conditions are judged.
    fn add_file(
        &self,
        traced: &mut Traced,
        file: &File,
        text: Option<&[u8]>,
        above: Option<&[BString]>,
        left: u8,
    ) -> Result<Vec<BString>, Trouble> {
        let mut urls = urls_of(self.rt.alloc(), file)?;
        let mut positions = match text {
            Some(text) => Some(Positions::new(text)),
            None => None,
        };
        for section in file.sections() {
            for include in self.add_section(traced, &section, &mut positions)? {
                let judged_by = above.unwrap_or(&urls);
                let Some(less) = left.checked_sub(1) else {
                    return Ok(urls);
                };
                if let Some(inner) = self.included(traced, &section, include, judged_by, less)? {
                    let of_inner = self.add_file(
                        traced,
                        &inner.file,
                        Some(&inner.text),
                        Some(&urls),
                        less,
                    )?;
                    for url in of_inner {
                        urls.push(url)?;
                    }
                }
            }
        }
        Ok(urls)
    }

    /// Adds the entries of a section that have the key, and returns its includes, in order.
    fn add_section(
        &self,
        traced: &mut Traced,
        section: &SectionRef<'_>,
        positions: &mut Option<Positions<'_>>,
    ) -> Result<Vec<Row>, Trouble> {
        let mut includes = Vec::new(self.rt.alloc());
        let is_of_key = self.is_asked(section)?;
        let includes_paths = directive_of(section).is_some();
        let mut rest = section.items;
        while let Some((entry, behind)) = next_entry(rest) {
            let name = entry.name().bytes_in(section.buffer);
            if includes_paths && name.eq_ignore_ascii_case(b"path") {
                includes.push(self.row(section, entry, positions)?)?;
            }
            if is_of_key && self.is_named(name) {
                traced.entries.push(self.row(section, entry, positions)?)?;
            }
            rest = behind;
        }
        Ok(includes)
    }

    /// Whether a section may have entries that are asked for.
    fn is_asked(&self, section: &SectionRef<'_>) -> Result<bool, AllocError> {
        match self.asked.key {
            Some(key) => is_listed_under(section, key),
            None => Ok(true),
        }
    }

    /// Whether an entry of such a section is asked for, by its name.
    fn is_named(&self, name: &[u8]) -> bool {
        match self.asked.key {
            Some(key) => name.eq_ignore_ascii_case(key.value_name.as_bytes()),
            None => true,
        }
    }

    /// The row of an entry.
    fn row(
        &self,
        section: &SectionRef<'_>,
        entry: &Entry,
        positions: &mut Option<Positions<'_>>,
    ) -> Result<Row, Trouble> {
        let alloc = self.rt.alloc();
        let (header, name) = (section.header(), entry.name());
        let mut names = Vec::new(alloc);
        add_names(
            &mut names,
            header.name(),
            header.subsection_name(),
            name.bytes_in(section.buffer),
        )?;
        let mut origin = Vec::new(alloc);
        add_origin(
            &mut origin,
            section.meta(),
            self.location,
            self.asked.is_null,
        )?;
        Ok(Row {
            scope: scope_of(section.meta(), self.location),
            origin,
            position: match positions {
                Some(positions) => Some(positions.at(name.start as usize)),
                None => None,
            },
            names,
            value: entry_value(alloc, section.buffer, entry)?,
        })
    }

    /// The file of an include of a section, if it is followed; adds what it led to. Includes can be followed `left` files deeper.
    fn included(
        &self,
        traced: &mut Traced,
        section: &SectionRef<'_>,
        include: Row,
        urls: &[BString],
        left: u8,
    ) -> Result<Option<Included>, Trouble> {
        let (led_to, included) = match self.fetched(section, &include, urls, left)? {
            Ok((path, included)) => (LedTo::File(path), Some(included)),
            Err(why) => (LedTo::Nothing(why), None),
        };
        traced.includes.push(Include {
            row: include,
            led_to,
        })?;
        Ok(included)
    }

    /// The path of an include and its file, or why it isn't followed.
    fn fetched(
        &self,
        section: &SectionRef<'_>,
        include: &Row,
        urls: &[BString],
        left: u8,
    ) -> Result<Result<(String, Included), String>, Trouble> {
        let (rt, meta) = (self.rt, section.meta());
        let path = match &include.value {
            Some(path) => BString::from_slice(rt.alloc(), path)?,
            None => BString::new(Vec::new(rt.alloc())),
        };
        let path = match self.judging.path_of(rt.alloc(), section, path, urls)? {
            Ok(path) => path,
            Err(why) => return Ok(Err(why)),
        };
        let Some(text) = text_of(rt, &path)? else {
            let path = Shown(&path);
            return Ok(Err(format!(in rt.alloc(); "there is no file {path}")?));
        };
        if left == 0 {
            let depth = self.depth();
            return Ok(Err(format!(in rt.alloc();
                "files include each other more than {depth} deep"
            )?));
        }
        let name = String::from_str(rt.alloc(), path.as_str())?;
        let inner = Metadata {
            path: Some(path),
            source: meta.source,
            level: meta.level.saturating_add(1),
            trust: meta.trust,
        };
        let file = self.file_of(name.as_str(), &text, Rc::new(rt.alloc(), inner)?)?;
        Ok(Ok((name, Included { file, text })))
    }
}

/// A file that is included, and what it was read from.
#[derive(Drop)]
struct Included {
    file: File,
    text: Vec<u8>,
}

/// The text of the file at a path, if there is one.
fn text_of<R: Files + AllocGlobal>(rt: &R, path: &str) -> Result<Option<Vec<u8>>, Trouble> {
    match read(rt, path) {
        Ok(text) => Ok(text),
        Err(Fault::Memory) => Err(Trouble::Memory),
        Err(fault) => {
            let (path, fault) = (Shown(path), Shown(fault));
            Err(Trouble::Unread(format!(in rt.alloc(); "gixcfg: {path}: {fault}\n")?))
        }
    }
}
