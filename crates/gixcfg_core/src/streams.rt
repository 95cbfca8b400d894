//! Standard input and standard output.
ghost use Rattle.std.specs.Prelude.{◌≡◌, ◌⊎◌, IfErr, IfOk, IfSome};
ghost use Rattle.gixcfg_core.specs.Pieces.{IsGiven, IsGivenBut};
ghost use Rattle.gixcfg_core.specs.declared.trouble.Trouble.TheVariants.{Closed, Input, Memory, Output};

use crate::trouble::Trouble;
use std::alloc::Global;
use std::io::{ErrorKind, Read, Write};

/// How many bytes an answer that is written by pieces has in one of them, or more, if its last line is longer.
const PIECE: usize = 65536;

/// All of standard input.
///
/// # Errors
///
/// [`Trouble::Input`] if it can't be read; out of memory.
pub fn read_all<R: Read>(alloc: Global, input: &mut R) -> Result<Vec<u8>, Trouble>
    ensures all { IfOk result (λ text. IfSome (R.remaining input.old) (λ all. text.items ≡ all)) }
    ensures refused { IfErr result (λ trouble. (trouble ≡ Memory) ⊎ (trouble ≡ Input)) }
{
    let mut text = Vec::new(alloc);
    match input.read_to_end(&mut text) {
        Ok(_) => Ok(text),
        Err(fault) if fault.kind() == ErrorKind::OutOfMemory => Err(Trouble::Memory),
        Err(_) => Err(Trouble::Input),
    }
}

/// Writes a text that is in memory. A write that a signal broke off is tried again.
///
/// # Errors
///
/// [`Trouble::Output`] if the stream fails, [`Trouble::Closed`] if that is since nobody reads it any more.
pub fn put<W: Write>(text: &[u8], out: &mut W) -> Result<(), Trouble>
    ensures given { IsGiven text.now result (W.contents out.old) (W.contents out.new) }
    ensures refused { IfErr result (λ trouble. (trouble ≡ Closed) ⊎ (trouble ≡ Output)) }
{
    let mut rest = text;
    for _ in 0..u64::MAX {
        if rest.is_empty() {
            return Ok(());
        }
        match out.write(rest) {
            Ok(0) => return Err(Trouble::Output),
            Ok(count) => rest = rest.split_at(count).1,
            Err(fault) if fault.kind() == ErrorKind::Interrupted => {}
            Err(fault) if fault.kind() == ErrorKind::BrokenPipe => return Err(Trouble::Closed),
            Err(_) => return Err(Trouble::Output),
        }
    }
    Err(Trouble::Output)
}

/// Writes what is held back of an answer if it is a whole piece.
///
/// # Errors
///
/// Those of [`put`].
pub fn put_if_whole<W: Write>(held: &mut Vec<u8>, out: &mut W) -> Result<(), Trouble>
    ensures given { IsGivenBut held.old.items held.new.items result (W.contents out.old) (W.contents out.new) }
    ensures refused { IfErr result (λ trouble. (trouble ≡ Closed) ⊎ (trouble ≡ Output)) }
{
    if held.len() < PIECE {
        return Ok(());
    }
    put(held, out)?;
    held.clear();
    Ok(())
}
