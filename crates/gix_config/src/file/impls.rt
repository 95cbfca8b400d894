//! Files, compared and shown.
use crate::file::File;
use std::fmt;

impl PartialEq for File {
    ghost use Rattle.std.specs.Prelude.{◌≡◌, ◌↔◌, true};
    ghost use Rattle.gitconf_state.specs.Equality.{AreEqual};
    ghost use Rattle.gitconf_lookups.specs.Same.{same_state};
    ghost use Rattle.gitconf_lookups.specs.SameLaws.{same_state_partial};

    ghost eq = { same_state };

    ghost laws = { same_state_partial };

    /// Whether both have the same headers in order, with names compared without ASCII case, and the same keys, without ASCII case, that mean
    /// the same; an entry without `=` counts as empty. What comes before the first section and where sections come from aren't
    /// compared. One walk over both, up to the first difference, which takes no memory.
    fn eq(&self, other: &File) -> bool
        ensures same { result ≡ same_state self.now other.now }
        ensures equal { (result ≡ true) ↔ AreEqual self.now other.now }
    {
        self.store == other.store
    }
}

impl Eq for File {
    ghost use Rattle.gitconf_lookups.specs.SameLaws.{same_state_equiv};

    ghost laws = { same_state_equiv };
}

/// The text of [`File::to_bstring`], with U+FFFD for what isn't UTF-8. It takes memory for the text; if that is refused,
/// nothing is written, and the result is an error.
impl fmt::Display for File {
    fn fmt<W: fmt::Write>(&self, f: &mut fmt::Formatter<W>) -> fmt::Result {
        match self.to_bstring() {
            Ok(text) => write!(f, "{text}"),
            Err(_) => Err(fmt::Error),
        }
    }
}
