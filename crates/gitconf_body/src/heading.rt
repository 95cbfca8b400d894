//! Headers that are made, in a buffer.
ghost use Rattle.std.specs.Prelude.{◌≡◌, ◌↔◌, ◌+◌, ◌<◌, ◌≤◌, ◌^◌, true, length, IfErr, IfOk, IsErrOf, OnErr, OnOk};
ghost use Rattle.std.specs.Option.{option_copied};
ghost use Rattle.gitconf_text.specs.Names.{is_valid_or_none};
ghost use Rattle.gitconf_items.specs.declared.event.Event.TheVariants as events;
ghost use Rattle.gitconf_items.specs.Events.{header_of};
ghost use Rattle.gitconf_items.specs.ShownEvents.{IsExtended, IsShown};
ghost use Rattle.gitconf_state.specs.Edit.{header_bytes, made_header};
ghost use Rattle.gitconf_body.specs.Buffers.{Grows};

use crate::buffer::{check_room, take_back};
use crate::section::{append_header, header_len};
use gitconf_items::event::Header;
use gitconf_text::parse::span;

/// Checks that a buffer has room for the text of a header. Takes no memory.
///
/// # Errors
///
/// A [`span::Error`] (E3) if the buffer would be longer than 4294967295 bytes.
pub fn check_header(
    buffer: &[u8],
    name: &[u8],
    subsection: Option<&[u8]>,
) -> Result<(), span::Error>
    requires room { length buffer.now < 2 ^ 32 }
    ensures too_large { IsErrOf result 3 ↔ (2 ^ 32 ≤ length buffer.now + header_bytes name.now (option_copied subsection.entry)) }
    ensures only { IfErr result (λ e. e ≡ 3) }
{
    check_room(buffer, header_len(name, subsection))
}

/// Adds the text of a header to a buffer. A decoded copy of its subsection, if that isn't what is spelled, is added to the other copies.
///
/// # Errors
///
/// A [`span::Error`]: E3 if and only if the buffer would be longer than 4294967295 bytes, otherwise E27 when out of memory. The buffer is
/// then as it was; the copies may have grown.
pub fn put_header(
    buffer: &mut Vec<u8>,
    copies: &mut Vec<u8>,
    name: &[u8],
    subsection: Option<&[u8]>,
) -> Result<Header, span::Error>
    requires room { length buffer.old.items < 2 ^ 32 }
    requires valid { is_valid_or_none (option_copied subsection) ≡ true }
    ensures header { IfOk result (λ h. header_of buffer.new.items h ≡ made_header name.now (option_copied subsection.entry)) }
    ensures shown { IfOk result (λ h. IsShown buffer.new.items copies.new.items (events.SectionHeader h)) }
    ensures put { OnOk result (length buffer.new.items ≡ length buffer.old.items + header_bytes name.now (option_copied subsection.entry)) }
    ensures grows { Grows result (header_bytes name.now (option_copied subsection.entry)) buffer.old.items buffer.new.items }
    ensures refused { 2 ^ 32 ≤ length buffer.old.items + header_bytes name.now (option_copied subsection.entry) → IsErrOf result 3 }
    ensures err { OnErr result (buffer.new.items ≡ buffer.old.items) }
    ensures extended { IsExtended copies.old.items copies.new.items }
{
    check_header(buffer, name, subsection)?;
    let len = buffer.len();
    take_back(append_header(buffer, copies, name, subsection), buffer, len)
}
