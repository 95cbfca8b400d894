//! The commands that change nothing, by groups.

use crate::answer::Outcome;
use crate::gix_config::File;
use crate::session::Session;
use crate::writers::Failure;
use crate::{layout, lookups, parsing, paths, printing, sections, typed, values, views};
use script_words::commands::{
    LookUpCommand, PartCommand, PrintCommand, SectionCommand, TextCommand, TypedCommand,
    ValueCommand, ViewCommand,
};
use script_words::words::Word;
use std::alloc::Global;

/// Commands on texts and names, which need no file.
pub fn text_outcome<'a>(alloc: Global, command: TextCommand, words: &[Word<'_>]) -> Outcome<'a> {
    match command {
        TextCommand::Events => parsing::events(alloc, words),
        TextCommand::ErrorText => parsing::errtext(alloc, words),
        TextCommand::Keeps => parsing::keeps(alloc, words),
        TextCommand::Name => parsing::name(alloc, words),
        TextCommand::ValueName => parsing::valuename(alloc, words),
        TextCommand::Layout => layout::fmt(alloc, words),
    }
}

/// Commands on values and paths, which need no file.
pub fn value_outcome<'a>(
    alloc: Global,
    command: ValueCommand,
    words: &'a [Word<'_>],
) -> Outcome<'a> {
    match command {
        ValueCommand::Decode => values::decode(alloc, words),
        ValueCommand::Escape => values::escape(alloc, words),
        ValueCommand::Boolean => values::boolean(alloc, words),
        ValueCommand::Integer => values::integer(alloc, words),
        ValueCommand::Match => paths::matches(alloc, words),
        ValueCommand::Interpolate => paths::interpolate(alloc, words),
    }
}

/// Commands that look up values of a key.
pub fn look_up_outcome<'a>(file: &File, command: LookUpCommand, words: &[Word<'_>]) -> Outcome<'a> {
    match command {
        LookUpCommand::Text => lookups::string(file, words),
        LookUpCommand::TextOfKey => lookups::stringkey(file, words),
        LookUpCommand::Texts => lookups::strings(file, words),
        LookUpCommand::Raw => lookups::raw(file, words),
        LookUpCommand::RawAll => lookups::raws(file, words),
        LookUpCommand::Path => lookups::path(file, words),
        LookUpCommand::Boolean => lookups::boolean(file, words),
        LookUpCommand::Integer => lookups::integer(file, words),
        LookUpCommand::Integers => lookups::integers(file, words),
    }
}

/// Commands that look up values of a key with their sections, or in a type. The caller names the type.
pub fn typed_outcome<'a>(
    alloc: Global,
    file: &File,
    command: TypedCommand,
    words: &[Word<'_>],
) -> Outcome<'a> {
    match command {
        TypedCommand::RawWithSection => typed::rawwith(alloc, file, words),
        TypedCommand::RawAllWithSections => typed::rawswith(alloc, file, words),
        TypedCommand::Flag => typed::flag(file, words),
        TypedCommand::FlagIfAny => typed::tryflag(file, words),
        TypedCommand::Flags => typed::flags(alloc, file, words),
        TypedCommand::FlagWithSection => typed::flagwith(alloc, file, words),
        TypedCommand::FlagsWithSections => typed::flagswith(alloc, file, words),
    }
}

/// Commands that look at a file.
pub fn view_outcome<'a>(file: &'a File, command: ViewCommand, words: &[Word<'_>]) -> Outcome<'a> {
    match command {
        ViewCommand::Dump => sections::dump(file, words),
        ViewCommand::PrintSection => sections::printsec(file, words),
        ViewCommand::Front => sections::front(file, words),
        ViewCommand::Body => sections::body(file, words),
        ViewCommand::Held => sections::post(file, words),
        ViewCommand::Count => sections::count(file, words),
        ViewCommand::Void => sections::void(file, words),
        ViewCommand::LineEnd => sections::newline(file, words),
        ViewCommand::Origin => sections::metaof(file, words),
    }
}

/// Commands that look up sections, or compare files.
pub fn section_outcome<'a>(
    alloc: Global,
    session: &'a Session,
    command: SectionCommand,
    words: &[Word<'_>],
) -> Outcome<'a> {
    let file = session.file();
    match command {
        SectionCommand::Last => views::section(file, words),
        SectionCommand::LastOfKey => views::sectionkey(file, words),
        SectionCommand::LastPassing => views::sectionif(file, words),
        SectionCommand::Numbers => views::ids(alloc, file, words),
        SectionCommand::ByName => views::byname(alloc, file, words),
        SectionCommand::ByNamePassing => views::bynameif(alloc, file, words),
        SectionCommand::Equal => views::equal(session, words),
        SectionCommand::Display => views::display(alloc, file, words),
    }
}

/// Commands that look at one section, by its place.
pub fn part_outcome<'a>(
    alloc: Global,
    file: &'a File,
    command: PartCommand,
    words: &[Word<'_>],
) -> Outcome<'a> {
    match command {
        PartCommand::Header => views::headerof(file, words),
        PartCommand::Value => views::valueof(file, words),
        PartCommand::Implicit => views::implicitof(file, words),
        PartCommand::Values => views::valuesof(file, words),
        PartCommand::Names => views::namesof(file, words),
        PartCommand::HasName => views::hasname(file, words),
        PartCommand::Entries => views::entriesof(alloc, file, words),
        PartCommand::Count => views::countof(file, words),
    }
}

/// Commands that write a file.
pub fn print_outcome<'a>(
    alloc: Global,
    file: &File,
    command: PrintCommand,
    words: &[Word<'_>],
) -> Outcome<'a> {
    match command {
        PrintCommand::All => printing::print(file, words),
        PrintCommand::Kept => printing::printif(alloc, file, words),
        PrintCommand::Refused => printing::print_failing(alloc, file, words, Failure::Refused),
        PrintCommand::NothingTaken => printing::print_failing(
            alloc,
            file,
            words,
            Failure::NothingTaken,
        ),
    }
}
