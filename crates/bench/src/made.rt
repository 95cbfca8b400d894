//! Files that are made by their paths.

use gix_config::NoMemory;
use gix_config::host::{FileFault, Files, MemFile, MemFiles, Stage};
use gix_config::source::Trust;
use std::alloc::Global;

/// Files that are made by their paths. At `/DEPTH/SECTIONS/NAME` are that many sections with an entry each, and after
/// them, if DEPTH is above 0, one that includes `/DEPTH-1/SECTIONS/NAME`. It reports no table.
#[derive(Drop)]
pub(crate) struct MadeFiles {
    alloc: Global,
    /// What was made, so that each is made once, and copied from then on.
    made: MemFiles,
}

/// What a path asks for.
#[derive(Clone, Copy)]
struct Asked<'a> {
    depth: u32,
    sections: u32,
    name: &'a str,
}

/// What a path asks for, or `None` if it has another form.
fn wanted_by(path: &str) -> Option<Asked<'_>> {
    let (depth, path) = path.strip_prefix('/')?.split_once('/')?;
    let (sections, name) = path.split_once('/')?;
    Some(Asked {
        depth: depth.parse::<u32>().ok()?,
        sections: sections.parse::<u32>().ok()?,
        name,
    })
}

/// That many sections with an entry each.
fn sections_of(alloc: Global, count: u32) -> Result<String, NoMemory> {
    let mut text = String::new(alloc);
    for n in 0..count {
        text.push_str(&format!(in alloc; "[s \"{n}\"]\n\tk = v\n")?)?;
    }
    Ok(text)
}

/// The text that is asked for.
fn text_of(alloc: Global, asked: Asked<'_>) -> Result<Vec<u8>, NoMemory> {
    let Asked {
        depth,
        sections,
        name,
    } = asked;
    let mut text = sections_of(alloc, sections)?;
    if depth > 0 {
        let below = depth - 1;
        text.push_str(&format!(in alloc; "[include]\n\tpath = /{below}/{sections}/{name}\n")?)?;
    }
    Ok(text.into_bytes())
}

impl MadeFiles {
    /// Nothing is made.
    pub(crate) fn new(alloc: Global) -> MadeFiles {
        MadeFiles {
            alloc,
            made: MemFiles::new(alloc),
        }
    }

    /// Makes what is at a path, unless it was made before.
    fn make(&mut self, path: &str) -> Result<(), NoMemory> {
        if self.made.is_file(path) {
            return Ok(());
        }
        if let Some(asked) = wanted_by(path) {
            let text = text_of(self.alloc, asked)?;
            let path = String::from_str(self.alloc, path)?;
            self.made.insert(path, MemFile::Bytes(text, Trust::Full))?;
        }
        Ok(())
    }
}

impl Files for MadeFiles {
    ghost use Rattle.std.specs.Prelude.{None};

    ghost table = { λ m. None };

    ghost failures = { λ m. None };

    fn is_file(&mut self, path: &str) -> bool {
        wanted_by(path).is_some()
    }

    fn read(&mut self, path: &str) -> Result<Vec<u8>, FileFault> {
        match self.make(path) {
            Ok(()) => self.made.read(path),
            Err(NoMemory) => Err(FileFault {
                stage: Stage::Memory,
                not_found: false,
            }),
        }
    }

    fn trust(&mut self, _path: &str) -> Result<Trust, FileFault> {
        Ok(Trust::Full)
    }
}
