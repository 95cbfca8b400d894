//! Where symbolic links end.
ghost use Rattle.std.specs.Prelude.{◌≡◌};
ghost use Rattle.gixcfg_files.specs.Faults.{is_end as is_end_lem};

use crate::fault::Fault;
use std::alloc::AllocGlobal;
use std::io::ErrorKind;
use std::path::{AsPath, PathBuf};
use std::rt::Files;

/// How many links in a row are followed.
const MOST: usize = 40;

/// The path at which the symbolic links that begin at a path end. What is there need not exist, so an edit may make it.
///
/// # Errors
///
/// Too many links in a row, a link that can't be read; out of memory.
pub fn end_of_links<R: Files + AllocGlobal>(files: &R, path: &str) -> Result<String, Fault> {
    let mut at = PathBuf::from_str(files.alloc(), path)?;
    for _ in 0..MOST {
        match files.read_link(files.alloc(), at.path_text()) {
            Ok(next) => at.set_file_name(next.path_text())?,
            Err(error) if is_end(error.kind()) => return Ok(at.into_string()),
            Err(error) => return Err(Fault::unread(error)),
        }
    }
    Err(Fault::Links)
}

/// Whether an error of that kind says that no link is there.
fn is_end(kind: ErrorKind) -> bool
    ensures { result ≡ is_end_lem kind }
{
    matches!(kind, ErrorKind::InvalidInput | ErrorKind::NotFound)
}
