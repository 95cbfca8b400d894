//! The lines of the editor of a section.
ghost use Rattle.std.specs.Prelude.{◌≡◌};

use super::section_editor::SectionEditor;
use super::tell;
use bstr::BString;
use script_commands::answer::{Answer, Outcome};
use script_commands::arguments::{flags_of_all, owned};
use script_commands::gix_config::file::is_whitespace;
use script_commands::refusal::Refusal;
use script_commands::rendering::line_of;
use script_words::answers::{put_bytes, put_optional};
use script_words::arguments::{no_words, section_names, text};
use script_words::blocks::next_asked;
use script_words::bracket::Bracket;
use script_words::editor_arguments::{
    PushedLine, commented_line, flag, optional, pushed_line, text_and_bytes,
};
use script_words::editors::{
    SectionChange, SectionLine, SectionStyle, SectionView, section_line_of,
};
use script_words::play::{Fault, Streams};
use script_words::words::{Word, words_of};
use std::alloc::{AllocError, Global};
use std::io::{Read, Write};

/// Writes that there is an editor, and answers its lines.
pub fn play<R: Read + Drop, W: Write + Drop, E: SectionEditor>(
    alloc: Global,
    bracket: Bracket,
    editor: &mut E,
    streams: &mut Streams<R, W>,
    tells: &mut bool,
) -> Result<(), Fault>
    ensures { E.held editor.new ≡ E.held editor.old }
{
    tell(alloc, bracket, &Ok(Answer::Done), streams)?;
    for _ in 0..u64::MAX {
        let Some(line) = next_asked(alloc, streams, tells)? else {
            break;
        };
        let answer = answer_to(alloc, editor, &line, *tells)?;
        streams.tell(&answer)?;
    }
    Ok(())
}

/// The answer to a line, as a line. Only what the editor does is in the bracket.
fn answer_to<E: SectionEditor>(
    alloc: Global,
    editor: &mut E,
    line: &[u8],
    tells: bool,
) -> Result<String, AllocError>
    ensures { E.held editor.new ≡ E.held editor.old }
{
    let words = words_of(alloc, line)?;
    let (line, words) = section_line_of(&words);
    let bracket = Bracket::open(alloc, tells)?;
    let outcome = outcome_of(alloc, editor, line, words);
    let refused = bracket.close(alloc);
    let answer = line_of(alloc, refused, &outcome);
    drop(outcome);
    answer
}

fn outcome_of<'a, E: SectionEditor>(
    alloc: Global,
    editor: &mut E,
    line: Option<SectionLine>,
    words: &[Word<'_>],
) -> Outcome<'a>
    ensures { E.held editor.new ≡ E.held editor.old }
{
    match line {
        None => Ok(Answer::Unknown),
        Some(SectionLine::Change(change)) => change_outcome(alloc, editor, change, words),
        Some(SectionLine::Style(style)) => style_outcome(alloc, editor, style, words),
        Some(SectionLine::View(view)) => view_outcome(alloc, editor, view, words),
        // `end` must have no words after it, and here it has some.
        Some(SectionLine::End) => Err(Refusal::Line),
    }
}

fn change_outcome<'a, E: SectionEditor>(
    alloc: Global,
    editor: &mut E,
    change: SectionChange,
    words: &[Word<'_>],
) -> Outcome<'a>
    ensures { E.held editor.new ≡ E.held editor.old }
{
    match change {
        SectionChange::Push => push(editor, pushed_line(words)?),
        SectionChange::PushWithComment => push(editor, commented_line(words)?),
        SectionChange::PushAfterLast => pushlast(editor, words),
        SectionChange::Set => set(editor, words),
        SectionChange::Remove => remove(editor, words),
        SectionChange::RemoveMarked => removemarked(alloc, editor, words),
        SectionChange::LineEnd => nl(editor, words),
        SectionChange::Pop => pop(editor, words),
        SectionChange::Header => header(alloc, editor, words),
    }
}

fn style_outcome<'a, E: SectionEditor>(
    alloc: Global,
    editor: &mut E,
    style: SectionStyle,
    words: &[Word<'_>],
) -> Outcome<'a>
    ensures { E.held editor.new ≡ E.held editor.old }
{
    match style {
        SectionStyle::ImplicitLineEnd => implicit(editor, words),
        SectionStyle::LeadingBlanks => leading(alloc, editor, words),
    }
}

fn view_outcome<'a, E: SectionEditor>(
    alloc: Global,
    editor: &E,
    view: SectionView,
    words: &[Word<'_>],
) -> Outcome<'a> {
    match view {
        SectionView::Blanks => blanks(alloc, editor, words),
        SectionView::Value => Ok(Answer::found(editor.value(text(words)?)?)),
        SectionView::ImplicitValue => implicitvalue(editor, words),
        SectionView::Values => Ok(Answer::Texts(editor.values(text(words)?)?)),
        SectionView::Text => {
            no_words(words)?;
            Ok(Answer::text(editor.text()?))
        }
    }
}

/// `push BYTES OPT`, `pushc BYTES OPT BYTES`: a line after the others, with a comment or without one.
fn push<'a, E: SectionEditor>(editor: &mut E, line: PushedLine<'_>) -> Outcome<'a>
    ensures { E.held editor.new ≡ E.held editor.old }
{
    editor.push_line(line)?;
    Ok(Answer::Done)
}

/// `pushlast BYTES OPT`: a line below the last entry.
fn pushlast<'a, E: SectionEditor>(editor: &mut E, words: &[Word<'_>]) -> Outcome<'a>
    ensures { E.held editor.new ≡ E.held editor.old }
{
    let line = pushed_line(words)?;
    editor.push_after_last(line.name, line.value)?;
    Ok(Answer::Done)
}

/// `set BYTES BYTES`: gives the last entry of the name a value, or pushes one; the old raw value.
fn set<'a, E: SectionEditor>(editor: &mut E, words: &[Word<'_>]) -> Outcome<'a>
    ensures { E.held editor.new ≡ E.held editor.old }
{
    let (name, value) = text_and_bytes(words)?;
    Ok(Answer::found(editor.set(name, value)?))
}

/// `remove BYTES`: removes the last entry of the name; its raw value.
fn remove<'a, E: SectionEditor>(editor: &mut E, words: &[Word<'_>]) -> Outcome<'a>
    ensures { E.held editor.new ≡ E.held editor.old }
{
    let name = text(words)?;
    Ok(Answer::found(editor.remove(name)?))
}

/// `removemarked BYTES B..`: removes the entries of the name whose mark is `true`; how many.
fn removemarked<'a, E: SectionEditor>(
    alloc: Global,
    editor: &mut E,
    words: &[Word<'_>],
) -> Outcome<'a>
    ensures { E.held editor.new ≡ E.held editor.old }
{
    let Some((name, marks)) = words.split_first() else {
        return Err(Refusal::Line);
    };
    let marks = flags_of_all(alloc, marks)?;
    Ok(Answer::Number(editor.remove_marked(name.text()?, &marks)?))
}

/// `pop`: removes the last entry and everything after it; its name and what it means.
fn pop<'a, E: SectionEditor>(editor: &mut E, words: &[Word<'_>]) -> Outcome<'a>
    ensures { E.held editor.new ≡ E.held editor.old }
{
    no_words(words)?;
    match editor.pop()? {
        Some((name, meaning)) => Ok(Answer::Entry(name, meaning)),
        None => Ok(Answer::Absent),
    }
}

/// `header SEC2`: gives the section another name and subsection.
fn header<'a, E: SectionEditor>(alloc: Global, editor: &mut E, words: &[Word<'_>]) -> Outcome<'a>
    ensures { E.held editor.new ≡ E.held editor.old }
{
    let names = section_names(words)?;
    let subsection = owned(alloc, names.subsection)?;
    editor.rename(names.name, subsection)?;
    Ok(Answer::Done)
}

/// `nl`: a line ending after all.
fn nl<'a, E: SectionEditor>(editor: &mut E, words: &[Word<'_>]) -> Outcome<'a>
    ensures { E.held editor.new ≡ E.held editor.old }
{
    no_words(words)?;
    editor.push_newline()?;
    Ok(Answer::Done)
}

/// `implicit B`: whether a line ending is added after what is pushed.
fn implicit<'a, E: SectionEditor>(editor: &mut E, words: &[Word<'_>]) -> Outcome<'a>
    ensures { E.held editor.new ≡ E.held editor.old }
{
    editor.end_lines(flag(words)?);
    Ok(Answer::Done)
}

/// `leading OPT`: the blanks before names, of white space alone.
fn leading<'a, E: SectionEditor>(alloc: Global, editor: &mut E, words: &[Word<'_>]) -> Outcome<'a>
    ensures { E.held editor.new ≡ E.held editor.old }
{
    match optional(words)? {
        None => editor.set_leading(None)?,
        Some(run) => {
            if !is_whitespace(run) {
                return Err(Refusal::Line);
            }
            let run = BString::from_slice(alloc, run)?;
            editor.set_leading(Some(run))?;
        }
    }
    Ok(Answer::Done)
}

/// `blanks`: what the editor writes before a name, before and after `=`, and as a line ending.
fn blanks<'a, E: SectionEditor>(alloc: Global, editor: &E, words: &[Word<'_>]) -> Outcome<'a> {
    no_words(words)?;
    let (before, behind) = editor.around();
    let mut told = String::new(alloc);
    put_optional(alloc, &mut told, editor.leading())?;
    put_optional(alloc, &mut told, before)?;
    put_optional(alloc, &mut told, behind)?;
    put_bytes(alloc, &mut told, editor.line_end())?;
    Ok(Answer::Words(told))
}

/// `implicitvalue BYTES`: the meaning of the last entry of the name; an entry without `=` is distinguished.
fn implicitvalue<'a, E: SectionEditor>(editor: &E, words: &[Word<'_>]) -> Outcome<'a> {
    match editor.value_implicit(text(words)?)? {
        Some(value) => Ok(Answer::Optional(value)),
        None => Ok(Answer::Absent),
    }
}
