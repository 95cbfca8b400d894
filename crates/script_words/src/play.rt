//! Playing a script: what the program does with its streams, whatever they are.
ghost use Rattle.std.specs.Prelude.{◌≤◌};

use bstr::io::{BufReadExt, ByteLines};
use std::alloc::{AllocError, Global};
use std::io::{BufReader, ErrorKind, Read, Write};

/// What answers the lines of a script.
pub trait Player {
    /// Answers a line. If the line begins a block, such as the lines of an editor, it reads and answers these too, since what a block
    /// works on lives no longer than the call.
    fn answer<R: Read + Drop, W: Write + Drop>(
        &mut self,
        line: &[u8],
        streams: &mut Streams<R, W>,
    ) -> Result<(), Fault>;
}

/// Why the program ended before its script did.
#[derive(Drop)]
pub enum Fault {
    /// Standard input can't be read.
    Input,
    /// Standard output failed.
    Output,
    /// Memory ran out outside of the calls that commands make.
    Memory,
}

impl From<AllocError> for Fault {
    fn from(_: AllocError) -> Fault {
        Fault::Memory
    }
}

/// The exit status when memory ran out outside of any command.
pub const NO_MEMORY: u8 = 5;

/// Answers the script that is read, a line for each that isn't empty. Each is answered at once. Returns the exit status: 0 after the
/// last line, 4 if a stream failed, 5 when memory ran out outside of any command.
pub fn play<R: Read + Drop, W: Write + Drop, P: Player>(
    alloc: Global,
    input: R,
    out: W,
    player: &mut P,
) -> u8
    ensures { result ≤ 5 }
{
    match answer_all(alloc, input, out, player) {
        Ok(()) => 0,
        Err(Fault::Input | Fault::Output) => 4,
        Err(Fault::Memory) => NO_MEMORY,
    }
}

/// What is read, and what is written.
#[derive(Drop)]
pub struct Streams<R: Read + Drop, W: Write + Drop> {
    lines: ByteLines<BufReader<R>>,
    out: W,
}

impl<R: Read + Drop, W: Write + Drop> Streams<R, W> {
    fn new(alloc: Global, input: R, out: W) -> Result<Streams<R, W>, Fault> {
        match BufReader::new(alloc, input) {
            Ok(reader) => Ok(Streams {
                lines: reader.byte_lines(alloc),
                out,
            }),
            Err(_) => Err(Fault::Memory),
        }
    }

    /// The next line that isn't empty, without its end; `None` after the last one.
    pub fn next_line(&mut self) -> Result<Option<Vec<u8>>, Fault> {
        for _ in 0..u64::MAX {
            let Some(line) = self.read_line()? else {
                break;
            };
            if !line.is_empty() {
                return Ok(Some(line));
            }
        }
        Ok(None)
    }

    /// The next line, even an empty one.
    fn read_line(&mut self) -> Result<Option<Vec<u8>>, Fault> {
        match self.lines.next() {
            None => Ok(None),
            Some(Ok(line)) => Ok(Some(line)),
            Some(Err(fault)) if fault.kind() == ErrorKind::OutOfMemory => Err(Fault::Memory),
            Some(Err(_)) => Err(Fault::Input),
        }
    }

    /// Writes a line at once.
    pub fn tell(&mut self, line: &str) -> Result<(), Fault> {
        if self.out.write_all(line.as_bytes()).is_err() || self.out.flush().is_err() {
            return Err(Fault::Output);
        }
        Ok(())
    }
}

/// Answers each line in turn.
fn answer_all<R: Read + Drop, W: Write + Drop, P: Player>(
    alloc: Global,
    input: R,
    out: W,
    player: &mut P,
) -> Result<(), Fault> {
    let mut streams = Streams::new(alloc, input, out)?;
    for _ in 0..u64::MAX {
        let Some(line) = streams.next_line()? else {
            break;
        };
        player.answer(&line, &mut streams)?;
    }
    Ok(())
}
