//! A writer that fails once.

use gix_config::parse::{Sink, SinkFault};
use script_words::turns::Turns;
use std::alloc::Global;

/// What happens at the write that fails.
#[derive(Clone, Copy)]
pub enum Failure {
    /// It is refused.
    Refused,
    /// Nothing is taken.
    NothingTaken,
}

/// Takes all of each write but one, which fails. A later write is taken again, so that it would show.
#[derive(Drop)]
pub struct FailingOnce {
    taken: Vec<u8>,
    /// Which write fails.
    turns: Turns,
    failure: Failure,
}

impl FailingOnce {
    /// Fails after that many writes.
    pub fn behind(alloc: Global, writes: usize, failure: Failure) -> FailingOnce {
        FailingOnce {
            taken: Vec::new(alloc),
            turns: Turns::behind(writes),
            failure,
        }
    }

    /// What was taken.
    pub fn into_taken(self) -> Vec<u8> {
        let FailingOnce { taken, .. } = self;
        taken
    }
}

/// It reports the bytes that it took, and no count of its failures.
impl Sink for FailingOnce {
    ghost use Rattle.std.specs.Prelude.{Some, None};

    ghost told = { λ s. Some s.taken.items };

    ghost faults = { λ _. None };

    fn write(&mut self, text: &[u8]) -> Result<usize, SinkFault> {
        if !self.turns.take() {
            return self.taken.write(text);
        }
        match self.failure {
            Failure::Refused => Err(SinkFault),
            Failure::NothingTaken => Ok(0),
        }
    }
}
