//! A text that is given to be read: how long it may be, its copies, and how it is refused.
ghost use Rattle.std.specs.Prelude.{◌≡◌, ◌↔◌, ◌≤◌, ◌<◌, ◌^◌, length, IfOk, IfErr, IsOk};
ghost use Rattle.gitconf_read.specs.ParseError.{too_large_input};
ghost use Rattle.gitconf_read.specs.EventResult.{IsRefusal};

use gitconf_read::error::Error;
use gitconf_read::reading::Fault;
use gitconf_text::NoMemory;
use std::alloc::Global;

/// Refuses an input of more than 4294967295 bytes.
///
/// # Errors
///
/// E2, with that length.
pub fn check_len(len: usize) -> Result<(), Error>
    ensures large { IfErr result (λ e. e ≡ too_large_input len) }
    ensures fits { IsOk result ↔ (len < 2 ^ 32) }
{
    if len > u32::MAX as usize {
        return Err(Error::too_large(len));
    }
    Ok(())
}

/// The error for a text that can't be read on at a fault.
pub fn refusal(alloc: Global, input: &[u8], fault: Fault) -> Error
    requires { fault.at ≤ length input.now }
    ensures { IsRefusal input.now fault result }
{
    let (before, remaining) = input.split_at(fault.at);
    let line_feeds = before.iter().filter(|byte| **byte == b'\n').count();
    match copied(alloc, remaining) {
        Ok(remaining) => Error::unexpected(line_feeds + 1, fault.expected, remaining),
        Err(_) => Error::memory(),
    }
}

/// A copy of a text.
///
/// # Errors
///
/// Out of memory.
pub fn copied(alloc: Global, input: &[u8]) -> Result<Vec<u8>, NoMemory>
    ensures items { IfOk result (λ copy. copy.items ≡ input.now) }
{
    Ok(Vec::from_slice(alloc, input)?)
}

/// How much room, in bytes, a copy has for more: enough for some edits of the text.
const ROOM: usize = 4096;

/// A copy of a text with room after it. So the first edits copy nothing.
///
/// # Errors
///
/// Out of memory.
pub fn copied_with_room(alloc: Global, input: &[u8]) -> Result<Vec<u8>, NoMemory>
    ensures items { IfOk result (λ copy. copy.items ≡ input.now) }
{
    let mut copy = Vec::with_capacity(alloc, input.len().saturating_add(ROOM))?;
    copy.extend_from_slice(input)?;
    Ok(copy)
}
