//! How an edit in place ended.

ghost use Rattle.std.specs.Prelude.{◌≡◌, None};

use std::io;

/// How the replacement of a file's text ended.
#[derive(Drop)]
pub enum Ended {
    /// The file has the new text, also after a loss of power.
    Done,
    /// The file has another text than the one that it was to have before. It keeps that.
    Changed,
    /// Its lock is there: somebody else edits it, or was killed while he did. The file is as it was.
    Locked,
    /// A temporary file of this number is there. The file is as it was.
    Drafted,
    /// A call failed before the rename. The file is as it was.
    Failed(io::Error),
    /// The rename failed: the file has the old text or the new one, whole.
    Unsure(io::Error),
    /// The file has the new text, but its name isn't written down: a loss of power may bring the old text back.
    Unsynced(io::Error),
}

/// An edit that ended, and what it couldn't remove.
#[derive(Drop)]
pub struct Edited {
    /// How it ended.
    pub ended: Ended,
    /// Why its temporary file is there still, if it couldn't be removed.
    pub draft: Option<io::Error>,
    /// Why its lock is there still, if it couldn't be removed.
    pub lock: Option<io::Error>,
}

impl Edited {
    /// An edit that made nothing.
    pub fn without(ended: Ended) -> Edited
        ensures { result ≡ record { ended = ended; draft = None; lock = None } }
    {
        Edited {
            ended,
            draft: None,
            lock: None,
        }
    }
}
