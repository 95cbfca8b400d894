//! The lines of the editor of one value.
ghost use Rattle.std.specs.Prelude.{◌≡◌};
ghost use Rattle.script_commands.specs.ValueEditors.{lent};

use super::tell;
use script_commands::answer::{Answer, Outcome};
use script_commands::gix_config::file::ValueMut;
use script_commands::refusal::Refusal;
use script_commands::rendering::line_of;
use script_words::arguments::{bytes, no_words};
use script_words::blocks::next_asked;
use script_words::bracket::Bracket;
use script_words::editors::{ValueLine, value_line_of};
use script_words::play::{Fault, Streams};
use script_words::words::{Word, words_of};
use std::alloc::{AllocError, Global};
use std::io::{Read, Write};

/// Writes that there is an editor, and answers its lines.
pub fn play<R: Read + Drop, W: Write + Drop>(
    alloc: Global,
    bracket: Bracket,
    editor: &mut ValueMut<'_>,
    streams: &mut Streams<R, W>,
    tells: &mut bool,
) -> Result<(), Fault>
    ensures { lent editor.new ≡ lent editor.old }
{
    tell(alloc, bracket, &Ok(Answer::Done), streams)?;
    for _ in 0..u64::MAX {
        let Some(line) = next_asked(alloc, streams, tells)? else {
            break;
        };
        let answer = answer_to(alloc, editor, &line, *tells)?;
        streams.tell(&answer)?;
    }
    Ok(())
}

/// The answer to a line, as a line. Only what the editor does is in the bracket.
fn answer_to(
    alloc: Global,
    editor: &mut ValueMut<'_>,
    line: &[u8],
    tells: bool,
) -> Result<String, AllocError>
    ensures { lent editor.new ≡ lent editor.old }
{
    let words = words_of(alloc, line)?;
    let (line, words) = value_line_of(&words);
    let bracket = Bracket::open(alloc, tells)?;
    let outcome = outcome_of(editor, line, words);
    let refused = bracket.close(alloc);
    let answer = line_of(alloc, refused, &outcome);
    drop(outcome);
    answer
}

fn outcome_of<'a>(
    editor: &mut ValueMut<'_>,
    line: Option<ValueLine>,
    words: &[Word<'_>],
) -> Outcome<'a>
    ensures { lent editor.new ≡ lent editor.old }
{
    match line {
        None => Ok(Answer::Unknown),
        Some(ValueLine::Get) => get(editor, words),
        Some(ValueLine::Set) => set(editor, words),
        Some(ValueLine::Delete) => delete(editor, words),
        // `end` must have no words after it, and here it has some.
        Some(ValueLine::End) => Err(Refusal::Line),
    }
}

/// `get`: what the value means.
fn get<'a>(editor: &ValueMut<'_>, words: &[Word<'_>]) -> Outcome<'a> {
    no_words(words)?;
    Ok(Answer::text(editor.get()?))
}

/// `set BYTES`: gives the entry another value.
fn set<'a>(editor: &mut ValueMut<'_>, words: &[Word<'_>]) -> Outcome<'a>
    ensures { lent editor.new ≡ lent editor.old }
{
    editor.set(bytes(words)?)?;
    Ok(Answer::Done)
}

/// `delete`: deletes the entry.
fn delete<'a>(editor: &mut ValueMut<'_>, words: &[Word<'_>]) -> Outcome<'a>
    ensures { lent editor.new ≡ lent editor.old }
{
    no_words(words)?;
    editor.delete();
    Ok(Answer::Done)
}
