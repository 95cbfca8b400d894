//! The commands of a script, by their words.

use crate::words::{Word, named_in};

/// A command, by what it asks for.
#[derive(Clone, Copy)]
pub enum Command {
    Text(TextCommand),
    Value(ValueCommand),
    LookUp(LookUpCommand),
    Typed(TypedCommand),
    View(ViewCommand),
    Section(SectionCommand),
    Part(PartCommand),
    Print(PrintCommand),
    Edit(EditCommand),
    State(StateCommand),
    Outside(OutsideCommand),
    Loader(LoaderCommand),
}

/// Commands on texts and names, which need no file.
#[derive(Clone, Copy)]
pub enum TextCommand {
    /// `events`
    Events,
    /// `errtext`
    ErrorText,
    /// `keeps`
    Keeps,
    /// `name`
    Name,
    /// `valuename`
    ValueName,
    /// `fmt`
    Layout,
}

/// Commands on values and paths, which need no file.
#[derive(Clone, Copy)]
pub enum ValueCommand {
    /// `decode`
    Decode,
    /// `escape`
    Escape,
    /// `boolean`
    Boolean,
    /// `integer`
    Integer,
    /// `match`
    Match,
    /// `interpolate`
    Interpolate,
}

/// Commands that look up values of a key.
#[derive(Clone, Copy)]
pub enum LookUpCommand {
    /// `string`
    Text,
    /// `stringkey`
    TextOfKey,
    /// `strings`
    Texts,
    /// `raw`
    Raw,
    /// `raws`
    RawAll,
    /// `path`
    Path,
    /// `bool`
    Boolean,
    /// `int`
    Integer,
    /// `ints`
    Integers,
}

/// Commands that look up values of a key with their sections, or in a type. The caller names the type.
#[derive(Clone, Copy)]
pub enum TypedCommand {
    /// `rawwith`
    RawWithSection,
    /// `rawswith`
    RawAllWithSections,
    /// `flag`
    Flag,
    /// `tryflag`
    FlagIfAny,
    /// `flags`
    Flags,
    /// `flagwith`
    FlagWithSection,
    /// `flagswith`
    FlagsWithSections,
}

/// Commands that look at a file.
#[derive(Clone, Copy)]
pub enum ViewCommand {
    /// `dump`
    Dump,
    /// `printsec`
    PrintSection,
    /// `front`
    Front,
    /// `body`
    Body,
    /// `post`
    Held,
    /// `count`
    Count,
    /// `void`
    Void,
    /// `newline`
    LineEnd,
    /// `metaof`
    Origin,
}

/// Commands that look up sections, or compare files.
#[derive(Clone, Copy)]
pub enum SectionCommand {
    /// `section`
    Last,
    /// `sectionkey`
    LastOfKey,
    /// `sectionif`
    LastPassing,
    /// `ids`
    Numbers,
    /// `byname`
    ByName,
    /// `bynameif`
    ByNamePassing,
    /// `equal`
    Equal,
    /// `display`
    Display,
}

/// Commands that look at one section, by its place.
#[derive(Clone, Copy)]
pub enum PartCommand {
    /// `headerof`
    Header,
    /// `valueof`
    Value,
    /// `implicitof`
    Implicit,
    /// `valuesof`
    Values,
    /// `namesof`
    Names,
    /// `hasname`
    HasName,
    /// `entriesof`
    Entries,
    /// `countof`
    Count,
}

/// Commands that write a file.
#[derive(Clone, Copy)]
pub enum PrintCommand {
    /// `print`
    All,
    /// `printif`
    Kept,
    /// `printfail`
    Refused,
    /// `printnone`
    NothingTaken,
}

/// Commands that change a file.
#[derive(Clone, Copy)]
pub enum EditCommand {
    /// `setraw`
    SetRaw,
    /// `setkey`
    SetByKey,
    /// `remove`
    Remove,
    /// `removeif`
    RemovePassing,
    /// `removeid`
    RemoveNumbered,
    /// `rename`
    Rename,
    /// `renameif`
    RenamePassing,
    /// `setexisting`
    SetExisting,
    /// `setmulti`
    SetExistingAll,
    /// `newsection`
    NewSection,
    /// `detached`
    NewAlone,
    /// `pushsection`
    PushSection,
}

/// Commands on whole files, and on the state of the script.
#[derive(Clone, Copy)]
pub enum StateCommand {
    /// `use`
    Select,
    /// `load`
    Load,
    /// `lossy`
    LoadLossy,
    /// `loadkept`
    LoadKept,
    /// `new`
    New,
    /// `clone`
    Clone,
    /// `append`
    Append,
    /// `reset`
    Reset,
    /// `refusals`
    Refusals,
}

/// Commands that set what is outside of a file, and those that use it.
#[derive(Clone, Copy)]
pub enum OutsideCommand {
    /// `file`
    File,
    /// `fault`
    Fault,
    /// `var`
    Variable,
    /// `at`
    Path,
    /// `level`
    Level,
    /// `options`
    Expansion,
    /// `resolve`
    Resolve,
    /// `owned`
    Owned,
    /// `failread`
    FailRead,
    /// `failtrust`
    FailTrust,
}

/// Commands that make a file of what is outside. The one that shows a place of configuration is among them.
#[derive(Clone, Copy)]
pub enum LoaderCommand {
    /// `place`
    Place,
    /// `frompath`
    FromPath,
    /// `paths`
    FromPaths,
    /// `globals`
    Globals,
    /// `fromenv`
    FromVariables,
    /// `overrides`
    Overrides,
    /// `gitdir`
    FromGitDir,
}

/// The command that the first word names, and the words after it. `None`, and all words, if it names none.
pub fn command_of<'a, 'b>(words: &'a [Word<'b>]) -> (Option<Command>, &'a [Word<'b>]) {
    match words.split_first() {
        Some((Word::Plain(word), rest)) => (named(word), rest),
        _ => (None, words),
    }
}

fn named(word: &[u8]) -> Option<Command> {
    if let Some(command) = named_in(&TEXT_COMMANDS, word) {
        return Some(Command::Text(command));
    }
    if let Some(command) = named_in(&VALUE_COMMANDS, word) {
        return Some(Command::Value(command));
    }
    if let Some(command) = named_in(&LOOK_UP_COMMANDS, word) {
        return Some(Command::LookUp(command));
    }
    if let Some(command) = named_in(&TYPED_COMMANDS, word) {
        return Some(Command::Typed(command));
    }
    if let Some(command) = named_in(&VIEW_COMMANDS, word) {
        return Some(Command::View(command));
    }
    if let Some(command) = named_in(&SECTION_COMMANDS, word) {
        return Some(Command::Section(command));
    }
    if let Some(command) = named_in(&PART_COMMANDS, word) {
        return Some(Command::Part(command));
    }
    if let Some(command) = named_in(&PRINT_COMMANDS, word) {
        return Some(Command::Print(command));
    }
    if let Some(command) = named_in(&EDIT_COMMANDS, word) {
        return Some(Command::Edit(command));
    }
    if let Some(command) = named_in(&STATE_COMMANDS, word) {
        return Some(Command::State(command));
    }
    if let Some(command) = named_in(&OUTSIDE_COMMANDS, word) {
        return Some(Command::Outside(command));
    }
    match named_in(&LOADER_COMMANDS, word) {
        Some(command) => Some(Command::Loader(command)),
        None => None,
    }
}

static TEXT_COMMANDS: [(&[u8], TextCommand); 6] = [
    (b"events", TextCommand::Events),
    (b"errtext", TextCommand::ErrorText),
    (b"keeps", TextCommand::Keeps),
    (b"name", TextCommand::Name),
    (b"valuename", TextCommand::ValueName),
    (b"fmt", TextCommand::Layout),
];

static VALUE_COMMANDS: [(&[u8], ValueCommand); 6] = [
    (b"decode", ValueCommand::Decode),
    (b"escape", ValueCommand::Escape),
    (b"boolean", ValueCommand::Boolean),
    (b"integer", ValueCommand::Integer),
    (b"match", ValueCommand::Match),
    (b"interpolate", ValueCommand::Interpolate),
];

static LOOK_UP_COMMANDS: [(&[u8], LookUpCommand); 9] = [
    (b"string", LookUpCommand::Text),
    (b"stringkey", LookUpCommand::TextOfKey),
    (b"strings", LookUpCommand::Texts),
    (b"raw", LookUpCommand::Raw),
    (b"raws", LookUpCommand::RawAll),
    (b"path", LookUpCommand::Path),
    (b"bool", LookUpCommand::Boolean),
    (b"int", LookUpCommand::Integer),
    (b"ints", LookUpCommand::Integers),
];

static TYPED_COMMANDS: [(&[u8], TypedCommand); 7] = [
    (b"rawwith", TypedCommand::RawWithSection),
    (b"rawswith", TypedCommand::RawAllWithSections),
    (b"flag", TypedCommand::Flag),
    (b"tryflag", TypedCommand::FlagIfAny),
    (b"flags", TypedCommand::Flags),
    (b"flagwith", TypedCommand::FlagWithSection),
    (b"flagswith", TypedCommand::FlagsWithSections),
];

static VIEW_COMMANDS: [(&[u8], ViewCommand); 9] = [
    (b"dump", ViewCommand::Dump),
    (b"printsec", ViewCommand::PrintSection),
    (b"front", ViewCommand::Front),
    (b"body", ViewCommand::Body),
    (b"post", ViewCommand::Held),
    (b"count", ViewCommand::Count),
    (b"void", ViewCommand::Void),
    (b"newline", ViewCommand::LineEnd),
    (b"metaof", ViewCommand::Origin),
];

static SECTION_COMMANDS: [(&[u8], SectionCommand); 8] = [
    (b"section", SectionCommand::Last),
    (b"sectionkey", SectionCommand::LastOfKey),
    (b"sectionif", SectionCommand::LastPassing),
    (b"ids", SectionCommand::Numbers),
    (b"byname", SectionCommand::ByName),
    (b"bynameif", SectionCommand::ByNamePassing),
    (b"equal", SectionCommand::Equal),
    (b"display", SectionCommand::Display),
];

static PART_COMMANDS: [(&[u8], PartCommand); 8] = [
    (b"headerof", PartCommand::Header),
    (b"valueof", PartCommand::Value),
    (b"implicitof", PartCommand::Implicit),
    (b"valuesof", PartCommand::Values),
    (b"namesof", PartCommand::Names),
    (b"hasname", PartCommand::HasName),
    (b"entriesof", PartCommand::Entries),
    (b"countof", PartCommand::Count),
];

static PRINT_COMMANDS: [(&[u8], PrintCommand); 4] = [
    (b"print", PrintCommand::All),
    (b"printif", PrintCommand::Kept),
    (b"printfail", PrintCommand::Refused),
    (b"printnone", PrintCommand::NothingTaken),
];

static EDIT_COMMANDS: [(&[u8], EditCommand); 12] = [
    (b"setraw", EditCommand::SetRaw),
    (b"setkey", EditCommand::SetByKey),
    (b"remove", EditCommand::Remove),
    (b"removeif", EditCommand::RemovePassing),
    (b"removeid", EditCommand::RemoveNumbered),
    (b"rename", EditCommand::Rename),
    (b"renameif", EditCommand::RenamePassing),
    (b"setexisting", EditCommand::SetExisting),
    (b"setmulti", EditCommand::SetExistingAll),
    (b"newsection", EditCommand::NewSection),
    (b"detached", EditCommand::NewAlone),
    (b"pushsection", EditCommand::PushSection),
];

static STATE_COMMANDS: [(&[u8], StateCommand); 9] = [
    (b"use", StateCommand::Select),
    (b"load", StateCommand::Load),
    (b"lossy", StateCommand::LoadLossy),
    (b"loadkept", StateCommand::LoadKept),
    (b"new", StateCommand::New),
    (b"clone", StateCommand::Clone),
    (b"append", StateCommand::Append),
    (b"reset", StateCommand::Reset),
    (b"refusals", StateCommand::Refusals),
];

static OUTSIDE_COMMANDS: [(&[u8], OutsideCommand); 10] = [
    (b"file", OutsideCommand::File),
    (b"fault", OutsideCommand::Fault),
    (b"var", OutsideCommand::Variable),
    (b"at", OutsideCommand::Path),
    (b"level", OutsideCommand::Level),
    (b"options", OutsideCommand::Expansion),
    (b"resolve", OutsideCommand::Resolve),
    (b"owned", OutsideCommand::Owned),
    (b"failread", OutsideCommand::FailRead),
    (b"failtrust", OutsideCommand::FailTrust),
];

static LOADER_COMMANDS: [(&[u8], LoaderCommand); 7] = [
    (b"place", LoaderCommand::Place),
    (b"frompath", LoaderCommand::FromPath),
    (b"paths", LoaderCommand::FromPaths),
    (b"globals", LoaderCommand::Globals),
    (b"fromenv", LoaderCommand::FromVariables),
    (b"overrides", LoaderCommand::Overrides),
    (b"gitdir", LoaderCommand::FromGitDir),
];
