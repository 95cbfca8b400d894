//! Files that are made of bytes, loaded by their paths, or made of variables or of a repository.

mod environment;
mod loading;
mod repository;

use crate::file::File;
pub use gitconf_includes::init::{Error, Options};
pub use gitconf_loaders::{from_env, from_git_dir, from_paths};
use gitconf_sources::meta::Metadata;
use gitconf_store::store::Store;
use std::alloc::Global;
use std::rc::Rc;

impl File {
    ghost use Rattle.std.specs.Prelude.{◌≡◌, [], List, true, false, length, map, IfOk, IfErr};
    ghost use Rattle.gitconf_text.specs.Document.{IsText, Reads, unmarked};
    ghost use Rattle.gitconf_text.specs.Part.{Part};
    ghost use Rattle.gitconf_text.specs.Token.{tokens_of, spelled_token};
    ghost use Rattle.gitconf_state.specs.Clean.{IsClean};
    ghost use Rattle.gitconf_state.specs.Inserted.{Inserted, IsByteForByte};
    ghost use Rattle.gitconf_state.specs.Printing.{printed};
    ghost use Rattle.gitconf_state.specs.State.{document_of, entries_of};
    ghost use Rattle.gitconf_state.specs.Made.{IsMade};
    ghost use Rattle.gix_config.specs.Made.{loaded_tokens, IsParseRefusal};

    /// The file that a text is. It and each of its sections get the metadata. No include is followed, whatever the options
    /// say about them. A lossy load leaves out whitespace, comments and line endings, and has the document of the whole text.
    /// One pass, which copies the text once.
    ///
    /// # Errors
    ///
    /// `Error::Parse`: E1 if the text has no document, with the line and the data from where it can't be read on; E2
    /// for more than 4294967295 bytes; E27 when out of memory.
    pub fn from_bytes_no_includes(
        alloc: Global,
        input: &[u8],
        meta: Rc<Metadata>,
        options: Options<'_>,
    ) -> Result<File, Error>
        ensures made { IfOk result (λ f. (parts : List Part) × IsText input.now parts
            × IsMade (loaded_tokens options.entry.lossy parts) meta.value (length input.now) f) }
        ensures document { IfOk result (λ f. Reads input.now (document_of f)) }
        ensures clean { IfOk result (λ f. (options.entry.lossy ≡ true → entries_of f.front ≡ []) → IsClean f) }
        ensures inserted { options.entry.lossy ≡ false → IfOk result (λ f. (parts : List Part) → IsText input.now parts
            → Inserted (map spelled_token (tokens_of parts)) (printed f)) }
        ensures byte_for_byte { options.entry.lossy ≡ false → IfOk result
            (λ f. (parts : List Part) → IsText input.now parts → IsByteForByte parts → printed f ≡ unmarked input.now) }
        ensures refused { IfErr result (IsParseRefusal input.now) }
    {
        if options.lossy {
            let store = Store::from_bytes_lossy(alloc, input, meta)?;
            return Ok(File { store });
        }
        let store = Store::from_bytes(alloc, input, meta)?;
        Ok(File { store })
    }
}
