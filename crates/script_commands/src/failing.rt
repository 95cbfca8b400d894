//! The files of a script, whose calls may fail by their turns.

use gix_config::host::{FileFault, Files, MemFiles, Stage};
use gix_config::source::Trust;
use script_words::turns::Turns;

/// Which call fails, and at what stage.
#[derive(Clone, Copy)]
pub struct Failure {
    turns: Turns,
    stage: Stage,
}

impl Failure {
    /// No call fails.
    pub fn none() -> Failure {
        Failure {
            turns: Turns::none(),
            stage: Stage::Open,
        }
    }

    /// The call of that turn fails at that stage.
    pub fn at(turns: Turns, stage: Stage) -> Failure {
        Failure { turns, stage }
    }

    /// Counts a call, and refuses it if it is the one that fails.
    fn count(&mut self) -> Result<(), FileFault> {
        if self.turns.take() {
            return Err(FileFault {
                stage: self.stage,
                not_found: false,
            });
        }
        Ok(())
    }
}

/// Files in memory, some of whose calls may fail. These are one read and one question for trust, each by its turn. Since what is
/// at a path doesn't decide how a call ends, it reports no table.
#[derive(Drop)]
pub struct TurnFiles {
    files: MemFiles,
    reads: Failure,
    trusts: Failure,
}

impl TurnFiles {
    /// These files, with what fails.
    pub fn new(files: MemFiles, reads: Failure, trusts: Failure) -> TurnFiles {
        TurnFiles {
            files,
            reads,
            trusts,
        }
    }
}

impl Files for TurnFiles {
    ghost use Rattle.std.specs.Prelude.{None};

    ghost table = { λ _. None };

    ghost failures = { λ _. None };

    fn is_file(&mut self, path: &str) -> bool {
        self.files.is_file(path)
    }

    fn read(&mut self, path: &str) -> Result<Vec<u8>, FileFault> {
        self.reads.count()?;
        self.files.read(path)
    }

    fn trust(&mut self, path: &str) -> Result<Trust, FileFault> {
        self.trusts.count()?;
        self.files.trust(path)
    }
}
