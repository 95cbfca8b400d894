//! Files that include others.

use crate::file::File;
use gitconf_includes::includes;
use gitconf_includes::init::{Error, Options};
use gitconf_loaders::resolving::{Resolved, resolve, resolved_text};
use gitconf_sources::meta::Metadata;
use gitconf_sources::{Files, Host};
use gitconf_store::store::Store;
use std::alloc::Global;
use std::mem::replace;
use std::rc::Rc;

impl File {
    ghost use Rattle.std.specs.Prelude.{◌≡◌};
    ghost use Rattle.gitconf_includes.specs.Expansion.{Resolves};
    ghost use Rattle.gitconf_includes.specs.Outcomes.{asks_of, CountsFaults};
    ghost use Rattle.gitconf_includes.specs.Errors.{says};
    ghost use Rattle.gitconf_loaders.specs.Errors.{init_says};
    ghost use Rattle.gitconf_loaders.specs.Resolving.{IsMadeOf, MakesCounted};

    /// Reads the files that the file's sections include, and puts them in. Each, with what it includes itself, is put after the section
    /// that includes it: its sections in their order under the next numbers, and what comes before its first section held after the section
    /// before. For an `include` without a subsection each `path` is followed, in order; for an `includeIf` only if its condition holds. A
    /// path that names no file is skipped. Sections that are put in are visited once, as those of their own file, and so not again.
    ///
    /// A condition `hasconfig` is judged by the file as it then is; below the first level, by the file that includes.
    ///
    /// Each included file is read and parsed once for each time that it is included. Besides that the time is linear in the file and in
    /// what is put in, except for the order of the sections, which is made once, at the end.
    ///
    /// # Errors
    ///
    /// E12 to E18 as the options and [`includes::Error`] say; E19 and E20 if a file can't be opened or read; E1 and E2 if one is refused by
    /// the parser; E3 if there is no room for one; E27 when out of memory. The file then has everything that was put in before the error;
    /// a file that was refused, or that includes a refused one, is left out whole. With `max_depth` 0 nothing is followed, and nothing
    /// refused.
    pub fn resolve_includes(
        &mut self,
        options: Options<'_>,
        host: &mut Host,
    ) -> Result<(), includes::Error>
        ensures expanded { Resolves says (asks_of options.entry (⟦<Box<dyn Files> as Files>⟧.table host.old.files)) self.old result self.new }
        ensures table { ⟦<Box<dyn Files> as Files>⟧.table host.new.files ≡ ⟦<Box<dyn Files> as Files>⟧.table host.old.files }
        ensures counted { CountsFaults result (⟦<Box<dyn Files> as Files>⟧.failures host.old.files) (⟦<Box<dyn Files> as Files>⟧.failures host.new.files) }
        ensures env { host.new.env ≡ host.old.env }
        ensures places { host.new.places ≡ host.old.places }
    {
        if options.includes.max_depth == 0 {
            return Ok(());
        }
        let alloc = self.store.allocator();
        let empty = Store::new(alloc, self.store.meta_owned()?);
        let store = replace(&mut self.store, empty);
        let Resolved { store, result } = resolve(alloc, &mut host.files, &options, store);
        drop(replace(&mut self.store, store));
        result
    }

    /// The file that a text is, with what it includes. It and each of its sections get the metadata, and what it includes is put in as by
    /// [`File::resolve_includes`]. The text becomes the buffer. A lossy load leaves out whitespace, comments and line endings, of included
    /// files too.
    ///
    /// # Errors
    ///
    /// E1 and E2 if the parser refuses the text, and those of [`File::resolve_includes`]; E15 also if `max_depth` is 0 and the options ask
    /// for it, whatever the text has.
    pub fn from_bytes_owned(
        alloc: Global,
        text: Vec<u8>,
        meta: Rc<Metadata>,
        options: Options<'_>,
        host: &mut Host,
    ) -> Result<File, Error>
        ensures made { IsMadeOf init_says (asks_of options.entry (⟦<Box<dyn Files> as Files>⟧.table host.old.files)) text.items meta.value result }
        ensures table { ⟦<Box<dyn Files> as Files>⟧.table host.new.files ≡ ⟦<Box<dyn Files> as Files>⟧.table host.old.files }
        ensures counted { MakesCounted result (⟦<Box<dyn Files> as Files>⟧.failures host.old.files) (⟦<Box<dyn Files> as Files>⟧.failures host.new.files) }
        ensures env { host.new.env ≡ host.old.env }
        ensures places { host.new.places ≡ host.old.places }
    {
        let store = resolved_text(alloc, &mut host.files, &options, text, meta)?;
        Ok(File { store })
    }
}
