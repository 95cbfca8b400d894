//! The library's loads that ask a host, as a trait of what runs the program.
//!
//! A host is boxed, and a box holds no value of a type parameter and no borrow. So what is generic over its runtime can't make one, and
//! asks for the loads by this trait.

use gix_config::File;
use gix_config::file::init::{self, from_env, from_paths};
use gix_config::file::{Metadata, includes};
use std::rc::Rc;

/// The loads of a runtime's own files and variables.
pub trait Loads {
    /// The file of a text, with what it includes as the options have it.
    ///
    /// # Errors
    ///
    /// Those of [`File::from_bytes_owned`].
    fn from_text(
        &self,
        text: Vec<u8>,
        meta: Rc<Metadata>,
        options: init::Options<'_>,
    ) -> Result<File, init::Error>;

    /// The files at these places, one after the other, with what they include as the options have it. A file that isn't there is skipped.
    /// None without a file.
    ///
    /// # Errors
    ///
    /// Those of [`File::from_paths_metadata_buf`].
    fn from_paths(
        &self,
        metas: Vec<Metadata>,
        options: init::Options<'_>,
    ) -> Result<Option<File>, from_paths::Error>;

    /// The file of the entries that variables set, with what it includes as the options have it. None without entries.
    ///
    /// # Errors
    ///
    /// Those of [`File::from_env`].
    fn from_variables(&self, options: init::Options<'_>) -> Result<Option<File>, from_env::Error>;

    /// Puts into a file what it includes, as the options have it.
    ///
    /// # Errors
    ///
    /// Those of [`File::resolve_includes`].
    fn follow(&self, file: &mut File, options: init::Options<'_>) -> Result<(), includes::Error>;
}
