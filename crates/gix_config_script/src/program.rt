//! What the program does with its streams, whatever they are.
ghost use Rattle.std.specs.Prelude.{◌≡◌, ◌≤◌, false};

use crate::blocks::play_block;
use crate::commands::outcome_of;
use script_commands::rendering::line_of;
use script_commands::session::Session;
use script_words::bracket::Bracket;
use script_words::commands::{Command, StateCommand, command_of};
use script_words::editors::opening_of;
use script_words::play::{Fault, NO_MEMORY, Player, Streams, play};
use script_words::words::{Word, words_of};
use std::alloc::{AllocError, Global};
use std::io::{Read, Write};

/// Plays the script that is read, and returns the exit status.
pub fn run<R: Read + Drop, W: Write + Drop>(alloc: Global, input: R, out: W) -> u8
    ensures { result ≤ 5 }
{
    match Session::new(alloc) {
        Ok(session) => {
            let mut script = Script { alloc, session };
            let status = play(alloc, input, out, &mut script);
            drop(script);
            status
        }
        Err(AllocError) => NO_MEMORY,
    }
}

/// A script after some of its lines.
#[derive(Drop)]
struct Script {
    alloc: Global,
    session: Session,
}

impl Player for Script {
    fn answer<R: Read + Drop, W: Write + Drop>(
        &mut self,
        line: &[u8],
        streams: &mut Streams<R, W>,
    ) -> Result<(), Fault> {
        let words = words_of(self.alloc, line)?;
        if let (Some(opening), words) = opening_of(&words) {
            return play_block(self.alloc, &mut self.session, opening, words, streams);
        }
        let answer = answer_to(self.alloc, &mut self.session, &words)?;
        streams.tell(&answer)
    }
}

/// The answer to a line, as a line. Only what the command does is in the bracket.
fn answer_to(
    alloc: Global,
    session: &mut Session,
    words: &[Word<'_>],
) -> Result<String, AllocError> {
    let (command, words) = command_of(words);
    let bracket = Bracket::open(alloc, is_told(session, command))?;
    let outcome = outcome_of(alloc, session, command, words);
    let refused = bracket.close(alloc);
    let answer = line_of(alloc, refused, &outcome);
    drop(outcome);
    answer
}

/// Whether the answer reports if a growth was refused. That of `refusals` itself doesn't.
fn is_told(session: &Session, command: Option<Command>) -> bool
    ensures { session.now.tells_refusals ≡ false → result ≡ false }
{
    session.tells_refusals() && !matches!(command, Some(Command::State(StateCommand::Refusals)))
}
