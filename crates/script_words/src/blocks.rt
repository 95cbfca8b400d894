//! What all blocks share of lines that work on one editor, whatever it edits.

use crate::answers::put_refused;
use crate::play::{Fault, Streams};
use std::alloc::{AllocError, Global};
use std::io::{Read, Write};

/// What a line of a block is for.
#[derive(Clone, Copy)]
enum Turn {
    /// It is for the editor.
    Asked,
    /// It says whether answers report refused growths.
    Switch(bool),
    /// It ends the block.
    End,
}

fn turn_of(line: &[u8]) -> Turn {
    match line {
        b"end" => Turn::End,
        b"refusals on" => Turn::Switch(true),
        b"refusals off" => Turn::Switch(false),
        _ => Turn::Asked,
    }
}

/// The next line of a block that is for its editor. `None` after the block, and after the last line of the script. The lines before
/// it, and the one that ends the block, are answered here.
pub fn next_asked<R: Read + Drop, W: Write + Drop>(
    alloc: Global,
    streams: &mut Streams<R, W>,
    tells_refusals: &mut bool,
) -> Result<Option<Vec<u8>>, Fault> {
    for _ in 0..u64::MAX {
        let Some(line) = streams.next_line()? else {
            break;
        };
        match turn_of(&line) {
            Turn::Asked => return Ok(Some(line)),
            Turn::Switch(on) => {
                *tells_refusals = on;
                streams.tell("ok\n")?;
            }
            Turn::End => {
                streams.tell(&without_growths(alloc, *tells_refusals, "ok\n")?)?;
                break;
            }
        }
    }
    Ok(None)
}

/// Answers the lines of a block that has no editor.
pub fn play_none<R: Read + Drop, W: Write + Drop>(
    alloc: Global,
    streams: &mut Streams<R, W>,
    tells_refusals: &mut bool,
) -> Result<(), Fault> {
    for _ in 0..u64::MAX {
        if next_asked(alloc, streams, tells_refusals)?.is_none() {
            break;
        }
        streams.tell(&without_growths(alloc, *tells_refusals, "none\n")?)?;
    }
    Ok(())
}

/// An answer to a line in which nothing grew.
fn without_growths(alloc: Global, tells_refusals: bool, words: &str) -> Result<String, AllocError> {
    let mut line = String::new(alloc);
    put_refused(&mut line, if tells_refusals { Some(false) } else { None })?;
    line.push_str(words)?;
    Ok(line)
}
