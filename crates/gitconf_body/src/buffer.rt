//! Bytes added to a buffer.
ghost use Rattle.std.specs.Prelude.{◌≡◌, ◌↔◌, ℕ, List, ◌+◌, ◌<◌, ◌≤◌, ◌^◌, ◌++◌, length, IfOk, IfErr, OnOk, OnErr, IsErrOf};
ghost use Rattle.gitconf_items.specs.ShownEvents.{IsExtended};
ghost use Rattle.gitconf_body.specs.Buffers.{Grows, StandsAt};

use gitconf_items::event::Span;
use gitconf_text::parse::span;

/// Adds bytes to a buffer, and returns their span. Takes memory for them alone.
///
/// # Errors
///
/// A [`span::Error`]: E3 if the buffer would be longer than 4294967295 bytes, otherwise E27 when out of memory. The
/// buffer is then as it was.
#[tactic(auto, using(crate::proofs::Buffers::appending))]
pub fn append(buffer: &mut Vec<u8>, bytes: &[u8]) -> Result<Span, span::Error>
    requires room { length buffer.old.items < 2 ^ 32 }
    ensures ok { OnOk result (buffer.new.items ≡ buffer.old.items ++ bytes.now) }
    ensures stands { IfOk result (λ s. StandsAt buffer.new.items s bytes.now) }
    ensures grows { Grows result (length bytes.now) buffer.old.items buffer.new.items }
    ensures too_large { 2 ^ 32 ≤ length buffer.old.items + length bytes.now → IsErrOf result 3 }
    ensures err { OnErr result (buffer.new.items ≡ buffer.old.items) }
{
    let start = buffer.len();
    if bytes.len() > u32::MAX as usize - start {
        return Err(span::Error::too_large());
    }
    buffer.extend_from_slice(bytes)?;
    Ok(Span::between(start, start + bytes.len()))
}

/// Returns what an addition to a buffer returned. If that is an error, what it added behind the first `len` bytes is
/// taken back.
pub fn take_back<T: Drop, E: Drop>(
    added: Result<T, E>,
    buffer: &mut Vec<u8>,
    len: usize,
) -> Result<T, E>
    ensures same { result ≡ added }
    ensures ok { OnOk result (buffer.new.items ≡ buffer.old.items) }
    ensures err { (old : List ℕ) → length old ≡ len → IsExtended old buffer.old.items → OnErr result (buffer.new.items ≡ old) }
{
    if added.is_err() {
        buffer.truncate(len);
    }
    added
}

/// Checks that a buffer has room for that many more bytes. Takes no memory.
///
/// # Errors
///
/// A [`span::Error`] (E3) if the buffer would be longer than 4294967295 bytes.
pub fn check_room(buffer: &[u8], count: usize) -> Result<(), span::Error>
    requires room { length buffer.now < 2 ^ 32 }
    ensures too_large { IsErrOf result 3 ↔ (2 ^ 32 ≤ length buffer.now + count) }
    ensures only { IfErr result (λ e. e ≡ 3) }
{
    if count > u32::MAX as usize - buffer.len() {
        return Err(span::Error::too_large());
    }
    Ok(())
}
