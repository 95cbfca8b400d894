//! Calls, by their words.
ghost use Rattle.std.specs.Prelude.{◌≡◌, ◌⊎◌, map, true, IfOk, None, Some};
ghost use Rattle.gixcfg_words.specs.Plain.{asked, plain_of, Plain};
ghost use Rattle.gixcfg_words.specs.declared.command.Target.TheVariants as targets;
ghost use Rattle.gixcfg_words.specs.declared.fault.Fault.TheVariants as faults;
ghost use Rattle.gixcfg_words.specs.declared.rules.Rules.TheVariants as rules;
ghost use Rattle.gixcfg_core.specs.Troubles.{IsStatus};
ghost use Rattle.gixcfg_commands.specs.ByWords.{is_told, EndsBy, EndsByWords, EndsEditing};
ghost use Rattle.gixcfg_commands.specs.Edits.{command_of};
ghost use Rattle.gixcfg_commands.specs.Plainly.{Prints, Shows, is_of_input, plain_asked, plain_edit, EndsPlainly};

use crate::checks::check;
use crate::differing::diff;
use crate::edits::{Edit, carry_out};
use crate::explaining::explain;
use crate::layouts::fmt;
use crate::merging::merge;
use crate::{Asked, Loads, located, located_target, put_answer};
use gitconf_sources::Process;
use gitconf_text::NoMemory;
use gixcfg_core::outside::{Inputs, Outside};
use gixcfg_core::places::home_of;
use gixcfg_core::showing::{Told, end};
use gixcfg_core::streams::put;
use gixcfg_core::trouble::{Trouble, report};
use gixcfg_files::EditFiles;
use gixcfg_words::command::{Call, Command, Target};
use gixcfg_words::fault::{self, Fault};
use gixcfg_words::help::help_on;
use gixcfg_words::rules::Rules;
use gixcfg_words::{VERSION, has_options, read};
use std::alloc::{AllocGlobal, Global};
use std::io::{Read, Write};
use std::rt::{Env, Files};

/// The status of words that aren't understood.
const USAGE: u8 = 2;

/// What the program is called with.
#[derive(Clone, Copy)]
pub struct Invocation<'a> {
    /// The words after its name.
    pub words: &'a [&'a str],
    /// What of the streams is a terminal.
    pub terminal: Terminal,
}

/// What of the streams is a terminal.
#[derive(Clone, Copy)]
pub struct Terminal {
    /// Whether standard error shows colors.
    pub is_colored: bool,
    /// Whether standard input is typed by somebody who sees standard error.
    pub is_typed: bool,
    /// Whether standard output is a terminal.
    pub is_seen: bool,
}

impl Terminal {
    /// None is one.
    pub fn none() -> Terminal {
        Terminal {
            is_colored: false,
            is_typed: false,
            is_seen: false,
        }
    }
}

/// Runs the program on its three streams, and returns its exit status: 0 done, 1 missing, 2 usage, 3 refused, 4 input, output or a
/// file, 5 several entries or none, or out of memory, 128 no repository or no home directory to look in.
///
/// # Errors
///
/// Out of memory before the call is begun, of which nothing is told.
pub fn run_words<
    R: EditFiles + Env + Loads + AllocGlobal + Copy,
    I: Read + Drop,
    W: Write,
    E: Write,
>(rt: &R, called: Invocation<'_>, input: I, out: &mut W, err: &mut E) -> Result<u8, NoMemory>
    ensures known { IfOk result IsStatus }
    ensures plain { (plain : Plain) → asked (map (λ w. w.now) called.entry.words.now) ≡ Some plain → is_of_input plain ≡ true
        → IfOk result (EndsPlainly plain (I.remaining input) (W.contents out.old) (W.contents out.new)) }
    ensures by_git { asked (map (λ w. w.now) called.entry.words.now) ≡ None
        → IfOk result (EndsByWords (map (λ w. w.now) called.entry.words.now) called.entry.terminal.is_colored (I.remaining input) (W.contents out.old) (W.contents out.new)) }
{
    let terminal = called.terminal;
    let call = match read(rt.alloc(), called.words) {
        Ok(call) => call,
        Err(fault) => return Ok(tell_fault(rt.alloc(), called, fault, err)),
    };
    if terminal.is_typed && call.command.reads_input() {
        tell_input(err);
    }
    let home = home_of(&mut Process::new(*rt))?;
    let outside = Outside {
        is_colored: terminal.is_colored,
        is_seen: terminal.is_seen,
        home: home.as_deref(),
    };
    Ok(do_call(rt, outside, input, call, out, err))
}

/// Does a call with what lies around it, and returns the status.
fn do_call<'a, R: EditFiles + Env + Loads + AllocGlobal + Copy, I: Read + Drop, W: Write, E: Write>(
    rt: &'a R,
    outside: Outside<'a>,
    input: I,
    call: Call<'_>,
    out: &mut W,
    err: &mut E,
) -> u8
    ensures known { IsStatus result }
    ensures plain { (plain : Plain) → plain_of call.entry.command ≡ Some plain → is_of_input plain ≡ true → call.entry.rules ≡ rules.Library
        → EndsPlainly plain (I.remaining input) (W.contents out.old) (W.contents out.new) result }
    ensures by_git { is_told call.entry.command ≡ true → call.entry.rules ≡ rules.Git
        → EndsBy call.entry.command outside.entry.is_colored (I.remaining input) (W.contents out.old) (W.contents out.new) result }
{
    let Call { command, rules } = call;
    let mut inputs = Inputs {
        rt,
        input,
        outside,
        rules,
    };
    do_command(&mut inputs, command, out, err)
}

/// Tells somebody who types that standard input is read. A failed write isn't reported.
fn tell_input<E: Write>(err: &mut E) {
    let _ = err.write_all(
        b"gixcfg: standard input is read; see --effective for what git reads, and -f FILE\n",
    );
}

/// Tells that an argument of the call isn't UTF-8, and returns the status. It also tells how calls are written.
pub fn tell_ill_formed<E: Write>(err: &mut E) -> u8
    ensures { IsStatus result }
{
    // A failed write changes no status.
    let _ = err.write_all(b"gixcfg: a word isn't UTF-8\n");
    usage(err)
}

/// Tells how calls are written, and returns the status.
fn usage<E: Write>(err: &mut E) -> u8
    ensures { result ≡ 2 }
{
    // A failed write changes no status.
    let _ = err.write_all(b"usage: gixcfg COMMAND [ARGS]\n");
    USAGE
}

/// Tells what is wrong with the words, and returns the status.
fn tell_fault<E: Write>(alloc: Global, called: Invocation<'_>, fault: Fault<'_>, err: &mut E) -> u8
    ensures memory { fault.entry ≡ faults.Memory → result ≡ 5 }
    ensures usage { (result ≡ 2) ⊎ (result ≡ 5) }
{
    if let Fault::Memory = fault {
        return report(&Trouble::Memory, "", Rules::Git, err);
    }
    if !has_options(called.words) && !called.terminal.is_typed {
        return tell_without_options(alloc, fault, err);
    }
    match fault::tell(alloc, fault, err) {
        Ok(()) => USAGE,
        Err(_) => report(&Trouble::Memory, "", Rules::Git, err),
    }
}

/// Tells a program that reads standard error how calls are written, in the last line, and returns the status. Above it stands but that the first
/// word is no command.
fn tell_without_options<E: Write>(alloc: Global, fault: Fault<'_>, err: &mut E) -> u8
    ensures { (result ≡ 2) ⊎ (result ≡ 5) }
{
    if let Fault::UnknownCommand(_) = fault {
        if fault::tell(alloc, fault, err).is_err() {
            return report(&Trouble::Memory, "", Rules::Git, err);
        }
    }
    usage(err)
}

/// Does a command, and returns the status.
fn do_command<R: EditFiles + Env + Loads + AllocGlobal + Copy, I: Read + Drop, W: Write, E: Write>(
    inputs: &mut Inputs<'_, R, I>,
    command: Command<'_>,
    out: &mut W,
    err: &mut E,
) -> u8
    ensures known { IsStatus result }
    ensures plain { (plain : Plain) → plain_of command.entry ≡ Some plain → is_of_input plain ≡ true → inputs.old.rules ≡ rules.Library
        → EndsPlainly plain (I.remaining inputs.old.input) (W.contents out.old) (W.contents out.new) result }
    ensures by_git { is_told command.entry ≡ true → inputs.old.rules ≡ rules.Git
        → EndsBy command.entry inputs.old.outside.is_colored (I.remaining inputs.old.input) (W.contents out.old) (W.contents out.new) result }
{
    match command {
        Command::Help(verb) => print(help_on(verb), out, err),
        Command::Version => print(VERSION, out, err),
        Command::Check(call) => check(inputs, &call, err),
        Command::Diff(call) => diff(inputs, &call, out, err),
        Command::Explain(call) => explain(inputs, &call, out, err),
        Command::Merge(call) => merge(inputs, &call, out, err),
        Command::Fmt(call) => fmt(inputs, &call, out, err),
        Command::Get(call) => do_reading(inputs, Asked::Get(&call), out, err),
        Command::List(call) => do_reading(inputs, Asked::List(&call), out, err),
        Command::Color(call) => do_reading(inputs, Asked::Color(&call), out, err),
        Command::Colorbool(call) => do_reading(inputs, Asked::Colorbool(&call), out, err),
        Command::Print => do_reading(inputs, Asked::Input, out, err),
        Command::Set(call) => do_edit(inputs, call.target, Edit::Set(&call), out, err),
        Command::Unset(call) => do_edit(inputs, call.target, Edit::Unset(&call), out, err),
        Command::RenameSection(call) => {
            do_edit(inputs, call.target, Edit::RenameSection(&call), out, err)
        }
        Command::RemoveSection(call) => {
            do_edit(inputs, call.target, Edit::RemoveSection(&call), out, err)
        }
    }
}

/// Prints a text that ends with a line feed or not.
fn print<W: Write, E: Write>(text: &str, out: &mut W, err: &mut E) -> u8
    ensures { Shows (Prints text.now) (W.contents out.old) (W.contents out.new) result }
{
    match put(text.as_bytes(), out) {
        Ok(()) => 0,
        Err(trouble) => report(&trouble, "", Rules::Git, err),
    }
}

/// Prints what is asked of what is read.
fn do_reading<R: Files + Env + Loads + AllocGlobal + Copy, I: Read + Drop, W: Write, E: Write>(
    inputs: &mut Inputs<'_, R, I>,
    asked: Asked<'_>,
    out: &mut W,
    err: &mut E,
) -> u8
    ensures known { IsStatus result }
    ensures plain { (plain : Plain) → plain_asked asked.entry ≡ Some plain → is_of_input plain ≡ true → inputs.old.rules ≡ rules.Library
        → EndsPlainly plain (I.remaining inputs.old.input) (W.contents out.old) (W.contents out.new) result }
{
    let rules = inputs.rules;
    match located(inputs.rt, asked.source()) {
        Ok(read) => {
            let done = put_answer(inputs, asked, &read, out);
            end(
                done,
                &Told {
                    name: read.name(),
                    rules,
                },
                err,
            )
        }
        Err(trouble) => report(&trouble, asked.source().word(), rules, err),
    }
}

/// Does an edit.
fn do_edit<R: EditFiles + Env + AllocGlobal, I: Read + Drop, W: Write, E: Write>(
    inputs: &mut Inputs<'_, R, I>,
    target: Target<'_>,
    call: Edit<'_>,
    out: &mut W,
    err: &mut E,
) -> u8
    ensures known { IsStatus result }
    ensures plain { (plain : Plain) → target.entry ≡ targets.Input → plain_edit call.entry ≡ Some plain → inputs.old.rules ≡ rules.Library
        → EndsPlainly plain (I.remaining inputs.old.input) (W.contents out.old) (W.contents out.new) result }
    ensures by_git { target.entry ≡ targets.Input → inputs.old.rules ≡ rules.Git
        → EndsEditing (command_of call.entry) inputs.old.outside.is_colored (I.remaining inputs.old.input) (W.contents out.old) (W.contents out.new) result }
{
    match located_target(inputs.rt, target) {
        Ok(place) => carry_out(inputs, &place, call, out, err),
        Err(trouble) => report(&trouble, target.word(), inputs.rules, err),
    }
}
