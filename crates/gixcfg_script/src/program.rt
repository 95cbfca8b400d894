//! What the program does with its streams, whatever they are.
ghost use Rattle.std.specs.Prelude.{◌≤◌};

use crate::answers::{Refusal, line_of};
use crate::commands::answer_to;
use crate::session::Session;
use script_words::play::{Fault, NO_MEMORY, Player, Streams, play};
use script_words::words::words_of;
use std::alloc::{AllocError, Global};
use std::io::{Read, Write};

/// Plays the script that is read, and returns the exit status.
pub fn run<R: Read + Drop, W: Write + Drop>(alloc: Global, input: R, out: W) -> u8
    ensures { result ≤ 5 }
{
    match Session::new(alloc) {
        Ok(session) => {
            let mut script = Script { alloc, session };
            let status = play(alloc, input, out, &mut script);
            drop(script);
            status
        }
        Err(AllocError) => NO_MEMORY,
    }
}

/// A script after some of its lines.
#[derive(Drop)]
struct Script {
    alloc: Global,
    session: Session,
}

impl Player for Script {
    fn answer<R: Read + Drop, W: Write + Drop>(
        &mut self,
        line: &[u8],
        streams: &mut Streams<R, W>,
    ) -> Result<(), Fault> {
        let words = words_of(self.alloc, line)?;
        match answer_to(self.alloc, &mut self.session, &words) {
            Err(Refusal::Memory) => Err(Fault::Memory),
            answer => streams.tell(line_of(&answer)),
        }
    }
}
