//! The commands, by what they ask for.

use script_commands::answer::{Answer, Outcome};
use script_commands::changes::{edit_outcome, loader_outcome, outside_outcome, state_outcome};
use script_commands::looks::{
    look_up_outcome, part_outcome, print_outcome, section_outcome, text_outcome, typed_outcome,
    value_outcome, view_outcome,
};
use script_commands::session::Session;
use script_words::commands::Command;
use script_words::words::Word;
use std::alloc::Global;

/// Does a command, with the words after it. Without a command the result is that it is unknown.
pub fn outcome_of<'a>(
    alloc: Global,
    session: &'a mut Session,
    command: Option<Command>,
    words: &'a [Word<'_>],
) -> Outcome<'a> {
    let Some(command) = command else {
        return Ok(Answer::Unknown);
    };
    match command {
        Command::Text(command) => text_outcome(alloc, command, words),
        Command::Value(command) => value_outcome(alloc, command, words),
        Command::LookUp(command) => look_up_outcome(session.file(), command, words),
        Command::Typed(command) => typed_outcome(alloc, session.file(), command, words),
        Command::View(command) => view_outcome(session.file(), command, words),
        Command::Section(command) => section_outcome(alloc, session, command, words),
        Command::Part(command) => part_outcome(alloc, session.file(), command, words),
        Command::Print(command) => print_outcome(alloc, session.file(), command, words),
        Command::Edit(command) => edit_outcome(alloc, session, command, words),
        Command::State(command) => state_outcome(alloc, session, command, words),
        Command::Outside(command) => outside_outcome(alloc, session, command, words),
        Command::Loader(command) => loader_outcome(alloc, session, command, words),
    }
}
