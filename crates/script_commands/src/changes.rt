//! The commands that change a file or make one, by groups.

use crate::answer::Outcome;
use crate::session::Session;
use crate::{edits, expanding, files, loading, outside};
use script_words::commands::{EditCommand, LoaderCommand, OutsideCommand, StateCommand};
use script_words::words::Word;
use std::alloc::Global;

/// Commands that change a file.
pub fn edit_outcome<'a>(
    alloc: Global,
    session: &'a mut Session,
    command: EditCommand,
    words: &[Word<'_>],
) -> Outcome<'a> {
    match command {
        EditCommand::SetRaw => edits::setraw(session.file_mut(), words),
        EditCommand::SetByKey => edits::setkey(session.file_mut(), words),
        EditCommand::Remove => edits::remove(session, words),
        EditCommand::RemovePassing => edits::removeif(session, words),
        EditCommand::RemoveNumbered => edits::removeid(alloc, session, words),
        EditCommand::Rename => edits::rename(alloc, session.file_mut(), words),
        EditCommand::RenamePassing => edits::renameif(alloc, session.file_mut(), words),
        EditCommand::SetExisting => edits::setexisting(session.file_mut(), words),
        EditCommand::SetExistingAll => edits::setmulti(alloc, session.file_mut(), words),
        EditCommand::NewSection => edits::newsection(alloc, session.file_mut(), words),
        EditCommand::NewAlone => edits::detached(alloc, session, words),
        EditCommand::PushSection => edits::pushsection(session, words),
    }
}

/// Commands on whole files, and on the state of the script.
pub fn state_outcome<'a>(
    alloc: Global,
    session: &mut Session,
    command: StateCommand,
    words: &[Word<'_>],
) -> Outcome<'a> {
    match command {
        StateCommand::Select => files::select(session, words),
        StateCommand::Load => files::load(alloc, session, words, false),
        StateCommand::LoadLossy => files::load(alloc, session, words, true),
        StateCommand::LoadKept => files::loadkept(alloc, session, words),
        StateCommand::New => files::new(alloc, session, words),
        StateCommand::Clone => files::clone(session, words),
        StateCommand::Append => files::append(alloc, session, words),
        StateCommand::Reset => files::reset(alloc, session, words),
        StateCommand::Refusals => files::refusals(session, words),
    }
}

/// Commands on what is outside of a file.
pub fn outside_outcome<'a>(
    alloc: Global,
    session: &mut Session,
    command: OutsideCommand,
    words: &[Word<'_>],
) -> Outcome<'a> {
    match command {
        OutsideCommand::File => outside::file(alloc, session, words),
        OutsideCommand::Fault => outside::fault(alloc, session, words),
        OutsideCommand::Variable => outside::var(alloc, session, words),
        OutsideCommand::Path => outside::at(alloc, session, words),
        OutsideCommand::Level => outside::set_level(alloc, session, words),
        OutsideCommand::Expansion => outside::options(alloc, session, words),
        OutsideCommand::Resolve => expanding::resolve(alloc, session, words),
        OutsideCommand::Owned => expanding::owned(alloc, session, words),
        OutsideCommand::FailRead => outside::failread(session, words),
        OutsideCommand::FailTrust => outside::failtrust(session, words),
    }
}

/// Commands that make a file of what is outside. The one that asks for a place of configuration is among them.
pub fn loader_outcome<'a>(
    alloc: Global,
    session: &mut Session,
    command: LoaderCommand,
    words: &[Word<'_>],
) -> Outcome<'a> {
    match command {
        LoaderCommand::Place => loading::place(alloc, session.outside(), words),
        LoaderCommand::FromPath => loading::frompath(alloc, session, words),
        LoaderCommand::FromPaths => loading::paths(alloc, session, words),
        LoaderCommand::Globals => loading::globals(alloc, session, words),
        LoaderCommand::FromVariables => loading::fromenv(alloc, session, words),
        LoaderCommand::Overrides => loading::overrides(alloc, session, words),
        LoaderCommand::FromGitDir => loading::gitdir(alloc, session, words),
    }
}
