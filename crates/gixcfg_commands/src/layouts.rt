//! `fmt`.
ghost use Rattle.std.specs.Prelude.{◌≡◌, true, false, IfErr, IfOk, Some};
ghost use Rattle.gixcfg_words.specs.Plain.{Plain};
ghost use Rattle.gixcfg_words.specs.declared.command.Target.TheVariants as targets;
ghost use Rattle.gixcfg_words.specs.declared.rules.Rules.TheVariants as rules;
ghost use Rattle.gixcfg_core.specs.declared.origins.Located.TheVariants as located;
ghost use Rattle.gixcfg_words.specs.declared.command.Command.TheVariants as commands;
ghost use Rattle.gixcfg_commands.specs.ByWords.{edits_input, EndsEditing};
ghost use Rattle.gixcfg_commands.specs.Plainly.{plain_edit, EndsPlainly};
ghost use Rattle.gixcfg_commands.specs.declared.edits.Edit.TheVariants as edits;
ghost use Rattle.bstr.specs.Owned.{bstring_bytes};
ghost use Rattle.gitconf_layout.specs.Layout.{IsLayout};
ghost use Rattle.gixcfg_core.specs.Answers.{IsRefusedText};
ghost use Rattle.gixcfg_core.specs.Troubles.{IsStatus};
ghost use Rattle.gixcfg_commands.specs.Layouts.{layout_asked};

use crate::edits::{Edit, carry_out};
use crate::located_target;
use bstr::BString;
use gix_config::format::{self, normalize};
use gixcfg_core::origins::Located;
use gixcfg_core::outside::{Inputs, Outside, accepted};
use gixcfg_core::trouble::{MEMORY, Trouble, report};
use gixcfg_files::EditFiles;
use gixcfg_words::command::{Files, Fmt, Indent, Newline, Target};
use std::alloc::{AllocGlobal, Global};
use std::io::{Read, Write};
use std::rt::Env;

/// Formats files, or tells which aren't formatted, and returns the exit status: the gravest that one of them has.
pub fn fmt<R: EditFiles + Env + AllocGlobal, I: Read + Drop, W: Write, E: Write>(
    inputs: &mut Inputs<'_, R, I>,
    fmt: &Fmt<'_>,
    out: &mut W,
    err: &mut E,
) -> u8
    ensures known { IsStatus result }
    ensures plain { (plain : Plain) → plain_edit (edits.Fmt fmt.entry) ≡ Some plain → inputs.old.rules ≡ rules.Library
        → EndsPlainly plain (I.remaining inputs.old.input) (W.contents out.old) (W.contents out.new) result }
    ensures by_git { edits_input (commands.Fmt fmt.now) ≡ true → inputs.old.rules ≡ rules.Git
        → EndsEditing (commands.Fmt fmt.now) inputs.old.outside.is_colored (I.remaining inputs.old.input) (W.contents out.old) (W.contents out.new) result }
{
    match &fmt.files {
        Files::One(target) => fmt_target(inputs, *target, fmt, out, err),
        Files::Paths(paths) => {
            let mut status = 0;
            for path in paths {
                status = status.max(fmt_target(inputs, target_of(path), fmt, out, err));
                if status >= MEMORY {
                    return MEMORY;
                }
            }
            status.min(MEMORY)
        }
    }
}

/// The file that a word names.
fn target_of(word: &str) -> Target<'_> {
    match word {
        "-" => Target::Input,
        path => Target::File(path),
    }
}

/// Formats a file, reports why not, and returns the status.
fn fmt_target<R: EditFiles + Env + AllocGlobal, I: Read + Drop, W: Write, E: Write>(
    inputs: &mut Inputs<'_, R, I>,
    target: Target<'_>,
    fmt: &Fmt<'_>,
    out: &mut W,
    err: &mut E,
) -> u8
    ensures known { IsStatus result }
    ensures plain { (plain : Plain) → target.entry ≡ targets.Input → plain_edit (edits.Fmt fmt.entry) ≡ Some plain → inputs.old.rules ≡ rules.Library
        → EndsPlainly plain (I.remaining inputs.old.input) (W.contents out.old) (W.contents out.new) result }
    ensures by_git { target.entry ≡ targets.Input → fmt.now.is_check ≡ false → inputs.old.rules ≡ rules.Git
        → EndsEditing (commands.Fmt fmt.now) inputs.old.outside.is_colored (I.remaining inputs.old.input) (W.contents out.old) (W.contents out.new) result }
{
    match located_target(inputs.rt, target) {
        Ok(place) => lay_out(inputs, &place, fmt, out, err),
        Err(trouble) => report(&trouble, target.word(), inputs.rules, err),
    }
}

/// Formats a file in place, standard input to standard output; or finds whether it is formatted.
fn lay_out<R: EditFiles + AllocGlobal, I: Read + Drop, W: Write, E: Write>(
    inputs: &mut Inputs<'_, R, I>,
    place: &Located,
    fmt: &Fmt<'_>,
    out: &mut W,
    err: &mut E,
) -> u8
    ensures known { IsStatus result }
    ensures plain { (plain : Plain) → place.now ≡ located.Input → plain_edit (edits.Fmt fmt.entry) ≡ Some plain → inputs.old.rules ≡ rules.Library
        → EndsPlainly plain (I.remaining inputs.old.input) (W.contents out.old) (W.contents out.new) result }
    ensures by_git { place.now ≡ located.Input → fmt.now.is_check ≡ false → inputs.old.rules ≡ rules.Git
        → EndsEditing (commands.Fmt fmt.now) inputs.old.outside.is_colored (I.remaining inputs.old.input) (W.contents out.old) (W.contents out.new) result }
{
    if fmt.is_check {
        match check_layout(inputs, place, fmt) {
            Ok(()) => 0,
            Err(trouble) => report(&trouble, place.name(), inputs.rules, err),
        }
    } else {
        carry_out(inputs, place, Edit::Fmt(fmt), out, err)
    }
}

/// Finds whether a file is formatted.
fn check_layout<R: EditFiles + AllocGlobal, I: Read + Drop>(
    inputs: &mut Inputs<'_, R, I>,
    place: &Located,
    fmt: &Fmt<'_>,
) -> Result<(), Trouble> {
    let Some(text) = inputs.text_of(place.path())? else {
        return Err(Trouble::NoFile);
    };
    let laid_out = laid_out(inputs.rt.alloc(), place.name(), &text, fmt, inputs.outside)?;
    if laid_out.as_bytes() == text.as_slice() {
        Ok(())
    } else {
        Err(Trouble::Different)
    }
}

/// A text of this name, formatted.
pub fn laid_out(
    alloc: Global,
    name: &str,
    text: &[u8],
    fmt: &Fmt<'_>,
    outside: Outside<'_>,
) -> Result<BString, Trouble>
    ensures laid_out { IfOk result (λ laid_out. IsLayout (layout_asked fmt.now) text.now (bstring_bytes laid_out)) }
    ensures refused { IfErr result (IsRefusedText text.now outside.entry.is_colored) }
{
    accepted(
        alloc,
        name,
        text,
        normalize(alloc, text, layout_of(fmt)),
        outside,
    )
}

/// The format that is asked for.
pub fn layout_of(fmt: &Fmt<'_>) -> format::Options
    ensures { result ≡ layout_asked fmt.now }
{
    let mut layout = format::Options::default();
    match fmt.indent {
        Some(Indent::Tabs(count)) => layout.key_value_indent = format::Indent::Tabs(count as usize),
        Some(Indent::Spaces(count)) => {
            layout.key_value_indent = format::Indent::Spaces(count as usize)
        }
        None => {}
    }
    match fmt.newline {
        Some(Newline::Lf) => layout.newline = format::Newline::Lf,
        Some(Newline::CrLf) => layout.newline = format::Newline::CrLf,
        Some(Newline::Detect) | None => {}
    }
    layout
}
