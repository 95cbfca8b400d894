//! Files that are loaded by their paths.

use crate::file::File;
use gitconf_includes::init::Options;
use gitconf_loaders::from_paths::Error;
use gitconf_loaders::{globals, paths};
use gitconf_sources::meta::Metadata;
use gitconf_sources::source::Source;
use gitconf_sources::{Env, Files, Host};
use std::alloc::Global;

impl File {
    ghost use Rattle.std.specs.Prelude.{◌≡◌, true, string_bytes};
    ghost use Rattle.gitconf_includes.specs.Outcomes.{asks_of};
    ghost use Rattle.gitconf_loaders.specs.Errors.{paths_number, paths_says};
    ghost use Rattle.gitconf_loaders.specs.Globals.{IsGlobal};
    ghost use Rattle.gitconf_loaders.specs.Paths.{CountsLoad, IsLoadedFrom, IsLoadOfPaths, telling};

    /// The file at a path. It is of that source, at level 0, with the trust that the host reports, which is asked first. No include is
    /// followed. The file is read and parsed once.
    ///
    /// # Errors
    ///
    /// E21 if the trust can't be asked, or the file can't be opened or read; E1 and E2 if the parser refuses it; E27 when out of memory.
    pub fn from_path_no_includes(
        alloc: Global,
        path: String,
        source: Source,
        host: &mut Host,
    ) -> Result<File, Error>
        ensures loaded { IsLoadedFrom (⟦<Box<dyn Files> as Files>⟧.table host.old.files) (string_bytes path) source (telling paths_says result) }
        ensures table { ⟦<Box<dyn Files> as Files>⟧.table host.new.files ≡ ⟦<Box<dyn Files> as Files>⟧.table host.old.files }
        ensures counted { CountsLoad (telling paths_number result) (⟦<Box<dyn Files> as Files>⟧.failures host.old.files)
            (⟦<Box<dyn Files> as Files>⟧.failures host.new.files) }
        ensures env { host.new.env ≡ host.old.env }
        ensures places { host.new.places ≡ host.old.places }
    {
        let store = paths::from_path(alloc, &mut host.files, path, source)?;
        Ok(File { store })
    }

    /// The files of metadata that has a path, each with what it includes. Includes go by the options, and the files come one after the
    /// other as [`File::append`] puts them; `None` if no file was loaded. Metadata without a path is skipped, and of several with one path
    /// the first is taken. The options say whether faults are ignored: then a file that can't be opened is skipped, and one that can't be
    /// read counts as empty.
    ///
    /// Each file is read and parsed once. What is appended is moved once, and the paths are kept in a tree.
    ///
    /// # Errors
    ///
    /// E21 if a file can't be opened (also if there is none) or read, and that isn't ignored; E1, E2 and E12 to E20 if a file or its
    /// includes are refused; E3 if there is no room for one; E27 when out of memory.
    pub fn from_paths_metadata(
        alloc: Global,
        metas: Vec<Metadata>,
        options: Options<'_>,
        host: &mut Host,
    ) -> Result<Option<File>, Error>
        ensures loaded { IsLoadOfPaths true options.entry.ignore_io_errors (asks_of options.entry (⟦<Box<dyn Files> as Files>⟧.table host.old.files))
            metas.items (telling paths_says result) }
        ensures table { ⟦<Box<dyn Files> as Files>⟧.table host.new.files ≡ ⟦<Box<dyn Files> as Files>⟧.table host.old.files }
        ensures counted { CountsLoad (telling paths_number result) (⟦<Box<dyn Files> as Files>⟧.failures host.old.files)
            (⟦<Box<dyn Files> as Files>⟧.failures host.new.files) }
        ensures env { host.new.env ≡ host.old.env }
        ensures places { host.new.places ≡ host.old.places }
    {
        File::from_paths_metadata_buf(alloc, metas, true, options, host)
    }

    /// Like [`File::from_paths_metadata`], but a file that isn't there is skipped unless it must exist. The Rust crate also takes a buffer,
    /// into which texts are read; here each text becomes its file's buffer.
    ///
    /// # Errors
    ///
    /// Those of [`File::from_paths_metadata`].
    pub fn from_paths_metadata_buf(
        alloc: Global,
        metas: Vec<Metadata>,
        err_on_non_existing_paths: bool,
        options: Options<'_>,
        host: &mut Host,
    ) -> Result<Option<File>, Error>
        ensures loaded { IsLoadOfPaths err_on_non_existing_paths options.entry.ignore_io_errors
            (asks_of options.entry (⟦<Box<dyn Files> as Files>⟧.table host.old.files)) metas.items (telling paths_says result) }
        ensures table { ⟦<Box<dyn Files> as Files>⟧.table host.new.files ≡ ⟦<Box<dyn Files> as Files>⟧.table host.old.files }
        ensures counted { CountsLoad (telling paths_number result) (⟦<Box<dyn Files> as Files>⟧.failures host.old.files)
            (⟦<Box<dyn Files> as Files>⟧.failures host.new.files) }
        ensures env { host.new.env ≡ host.old.env }
        ensures places { host.new.places ≡ host.old.places }
    {
        match paths::from_paths(
            alloc,
            &mut host.files,
            metas,
            err_on_non_existing_paths,
            &options,
        ) {
            Ok(Some(store)) => Ok(Some(File { store })),
            Ok(None) => Ok(None),
            Err(refusal) => Err(refusal),
        }
    }

    /// Like [`File::from_paths_metadata`], but for any source of files. It is for a program that is generic over where its files come from.
    ///
    /// # Errors
    ///
    /// Those of [`File::from_paths_metadata`].
    pub fn from_paths_metadata_of<F: Files>(
        alloc: Global,
        metas: Vec<Metadata>,
        options: Options<'_>,
        files: &mut F,
    ) -> Result<Option<File>, Error>
        ensures loaded { IsLoadOfPaths true options.entry.ignore_io_errors (asks_of options.entry (F.table files.old)) metas.items
            (telling paths_says result) }
        ensures table { F.table files.new ≡ F.table files.old }
        ensures counted { CountsLoad (telling paths_number result) (F.failures files.old) (F.failures files.new) }
    {
        match paths::from_paths(alloc, files, metas, true, &options) {
            Ok(Some(store)) => Ok(Some(File { store })),
            Ok(None) => Ok(None),
            Err(refusal) => Err(refusal),
        }
    }

    /// The configuration of the machine and of the user. It is what is at the places of the sources `GitInstallation`, `System`, `Git` and
    /// `User`, in this order, each with what it includes, one after the other; an empty file if there is none. Each is fully trusted, at
    /// level 0. Includes know the home directories of the host's places. Variables are asked again for each place.
    ///
    /// # Errors
    ///
    /// Those of [`File::from_paths_metadata`].
    pub fn from_globals(alloc: Global, host: &mut Host) -> Result<File, Error>
        ensures loaded { IsGlobal (⟦<Box<dyn Env> as Env>⟧.variables host.old.env) host.old.places (⟦<Box<dyn Files> as Files>⟧.table host.old.files)
            (telling paths_says result) }
        ensures table { ⟦<Box<dyn Files> as Files>⟧.table host.new.files ≡ ⟦<Box<dyn Files> as Files>⟧.table host.old.files }
        ensures counted { CountsLoad (telling paths_number result) (⟦<Box<dyn Files> as Files>⟧.failures host.old.files)
            (⟦<Box<dyn Files> as Files>⟧.failures host.new.files) }
        ensures env { ⟦<Box<dyn Env> as Env>⟧.variables host.new.env ≡ ⟦<Box<dyn Env> as Env>⟧.variables host.old.env }
        ensures places { host.new.places ≡ host.old.places }
    {
        let Host { files, env, places } = host;
        let store = globals::from_globals(alloc, files, env, places)?;
        Ok(File { store })
    }
}
