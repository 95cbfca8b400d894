//! The lines of the editor of all values of a key.
ghost use Rattle.std.specs.Prelude.{◌≡◌};
ghost use Rattle.script_commands.specs.MultiValueEditors.{lent};

use super::tell;
use script_commands::answer::{Answer, Outcome};
use script_commands::arguments::bytes_of_all;
use script_commands::gix_config::file::MultiValueMut;
use script_commands::refusal::Refusal;
use script_commands::rendering::line_of;
use script_words::arguments::{bytes, no_words, number};
use script_words::blocks::next_asked;
use script_words::bracket::Bracket;
use script_words::editor_arguments::number_and_bytes;
use script_words::editors::{ValuesLine, values_line_of};
use script_words::play::{Fault, Streams};
use script_words::words::{Word, words_of};
use std::alloc::{AllocError, Global};
use std::io::{Read, Write};

/// Writes that there is an editor, and answers its lines.
pub fn play<R: Read + Drop, W: Write + Drop>(
    alloc: Global,
    bracket: Bracket,
    editor: &mut MultiValueMut<'_>,
    streams: &mut Streams<R, W>,
    tells: &mut bool,
) -> Result<(), Fault>
    ensures { lent editor.new ≡ lent editor.old }
{
    tell(alloc, bracket, &Ok(Answer::Done), streams)?;
    for _ in 0..u64::MAX {
        let Some(line) = next_asked(alloc, streams, tells)? else {
            break;
        };
        let answer = answer_to(alloc, editor, &line, *tells)?;
        streams.tell(&answer)?;
    }
    Ok(())
}

/// The answer to a line, as a line. Only what the editor does is in the bracket.
fn answer_to(
    alloc: Global,
    editor: &mut MultiValueMut<'_>,
    line: &[u8],
    tells: bool,
) -> Result<String, AllocError>
    ensures { lent editor.new ≡ lent editor.old }
{
    let words = words_of(alloc, line)?;
    let (line, words) = values_line_of(&words);
    let bracket = Bracket::open(alloc, tells)?;
    let outcome = outcome_of(alloc, editor, line, words);
    let refused = bracket.close(alloc);
    let answer = line_of(alloc, refused, &outcome);
    drop(outcome);
    answer
}

fn outcome_of<'a>(
    alloc: Global,
    editor: &mut MultiValueMut<'_>,
    line: Option<ValuesLine>,
    words: &[Word<'_>],
) -> Outcome<'a>
    ensures { lent editor.new ≡ lent editor.old }
{
    match line {
        None => Ok(Answer::Unknown),
        Some(ValuesLine::Get) => get(editor, words),
        Some(ValuesLine::Count) => len(editor, words),
        Some(ValuesLine::SetAt) => setat(editor, words),
        Some(ValuesLine::SetEach) => setvalues(alloc, editor, words),
        Some(ValuesLine::SetAll) => setall(editor, words),
        Some(ValuesLine::DeleteAt) => delete(editor, words),
        Some(ValuesLine::DeleteAll) => deleteall(editor, words),
        // `end` must have no words after it, and here it has some.
        Some(ValuesLine::End) => Err(Refusal::Line),
    }
}

/// `get`: what the values mean.
fn get<'a>(editor: &MultiValueMut<'_>, words: &[Word<'_>]) -> Outcome<'a> {
    no_words(words)?;
    Ok(Answer::Texts(editor.get()?))
}

/// `len`: how many entries are left.
fn len<'a>(editor: &MultiValueMut<'_>, words: &[Word<'_>]) -> Outcome<'a> {
    no_words(words)?;
    Ok(Answer::Number(editor.len()))
}

/// `setat N BYTES`: gives an entry another value.
fn setat<'a>(editor: &mut MultiValueMut<'_>, words: &[Word<'_>]) -> Outcome<'a>
    ensures { lent editor.new ≡ lent editor.old }
{
    let (index, value) = number_and_bytes(words)?;
    if index >= editor.len() {
        return Err(Refusal::Line);
    }
    editor.set_at(index, value)?;
    Ok(Answer::Done)
}

/// `setvalues BYTES..`: gives the entries other values.
fn setvalues<'a>(alloc: Global, editor: &mut MultiValueMut<'_>, words: &[Word<'_>]) -> Outcome<'a>
    ensures { lent editor.new ≡ lent editor.old }
{
    let values = bytes_of_all(alloc, words)?;
    editor.set_values(&values)?;
    Ok(Answer::Done)
}

/// `setall BYTES`: gives all entries the same value.
fn setall<'a>(editor: &mut MultiValueMut<'_>, words: &[Word<'_>]) -> Outcome<'a>
    ensures { lent editor.new ≡ lent editor.old }
{
    editor.set_all(bytes(words)?)?;
    Ok(Answer::Done)
}

/// `delete N`: deletes an entry.
fn delete<'a>(editor: &mut MultiValueMut<'_>, words: &[Word<'_>]) -> Outcome<'a>
    ensures { lent editor.new ≡ lent editor.old }
{
    let index = number(words)?;
    if index >= editor.len() {
        return Err(Refusal::Line);
    }
    editor.delete(index);
    Ok(Answer::Done)
}

/// `deleteall`: deletes all entries.
fn deleteall<'a>(editor: &mut MultiValueMut<'_>, words: &[Word<'_>]) -> Outcome<'a>
    ensures { lent editor.new ≡ lent editor.old }
{
    no_words(words)?;
    editor.delete_all();
    Ok(Answer::Done)
}
