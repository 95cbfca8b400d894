//! Where files come from.

use crate::fault::FileFault;
use crate::source::Trust;

/// A source of files, by their paths. It is asked instead of the disk, which the Rust crate reads itself.
///
/// A source says in `table` what is at each path, or `None` if it doesn't say; if it does, that decides what each call returns, and
/// no call changes it, whatever its outcome. It says in `failures` how many faults it has returned, or `None` if it
/// keeps no count or the count is past its end, and from then on it stays `None`. A call that returns a fault counts one, and
/// any other call none. So a fault of a source that counts comes from that source alone.
pub trait Files: Drop {
    ghost use Rattle.std.specs.Prelude.{◌≡◌, ℕ, List, Option, IfSome};
    ghost use Rattle.gitconf_sources.specs.Reports.{FileReport, is_there, IsReadOf, IsTrustOf, IsCounted};

    ghost table: { Self → Option (List ℕ → FileReport) };

    ghost failures: { Self → Option ℕ };

    /// Whether a file is at the path, even one that can't be opened or read. A directory, or anything else that is not a file,
    /// doesn't count. It can't fail.
    fn is_file(&mut self, path: &str) -> bool
        ensures told { IfSome (table self.old) (λ files. result ≡ is_there (files path.now)) }
        ensures stays { table self.new ≡ table self.old }
        ensures counted { failures self.new ≡ failures self.old };

    /// The bytes of the file at the path.
    ///
    /// # Errors
    ///
    /// The file can't be opened (also if there is none), it can't be read, or memory runs out.
    fn read(&mut self, path: &str) -> Result<Vec<u8>, FileFault>
        ensures told { IfSome (table self.old) (λ files. IsReadOf result (files path.now)) }
        ensures stays { table self.new ≡ table self.old }
        ensures counted { IsCounted result (failures self.old) (failures self.new) };

    /// How far the file at the path is trusted.
    ///
    /// # Errors
    ///
    /// Those of [`Files::read`].
    fn trust(&mut self, path: &str) -> Result<Trust, FileFault>
        ensures told { IfSome (table self.old) (λ files. IsTrustOf result (files path.now)) }
        ensures stays { table self.new ≡ table self.old }
        ensures counted { IsCounted result (failures self.old) (failures self.new) };
}

/// A boxed source does what the source in the box does.
impl Files for Box<dyn Files> {
    ghost table = { λ b. (Files-box b).table b.value };

    ghost failures = { λ b. (Files-box b).failures b.value };

    fn is_file(&mut self, path: &str) -> bool {
        (**self).is_file(path)
    }

    fn read(&mut self, path: &str) -> Result<Vec<u8>, FileFault> {
        (**self).read(path)
    }

    fn trust(&mut self, path: &str) -> Result<Trust, FileFault> {
        (**self).trust(path)
    }
}
