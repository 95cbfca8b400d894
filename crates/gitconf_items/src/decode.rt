//! Decoded subsections, where they differ from what is spelled.
ghost use Rattle.std.specs.Prelude.{◌≡◌, ◌++◌, Some, length, OnOk, IfOk};
ghost use Rattle.std.specs.List.{list_any};
ghost use Rattle.std.specs.Char.{is_ascii_uppercase};
ghost use Rattle.gitconf_text.specs.Bytes.{fold};
ghost use Rattle.gitconf_text.specs.Header.{unquoted};
ghost use Rattle.gitconf_text.specs.Token.{HeaderToken};
ghost use Rattle.gitconf_items.specs.Events.{header_of, HeaderFits};
ghost use Rattle.gitconf_items.specs.ShownEvents.{decoded_or, shown_header, shown_token, CopyFits, IsExtended};

use crate::event::{Copied, Header};
use gitconf_text::NoMemory;

/// Adds the bytes with their letters in lower case.
fn append_lower(copies: &mut Vec<u8>, bytes: &[u8]) -> Result<(), NoMemory>
    ensures { OnOk result (copies.new.items ≡ copies.old.items ++ fold bytes.now) }
{
    for byte in bytes {
        copies.push(byte.to_ascii_lowercase())?;
    }
    Ok(())
}

/// Adds the subsection that this spelling in quotes stands for.
fn append_unquoted(copies: &mut Vec<u8>, spelling: &[u8]) -> Result<(), NoMemory>
    ensures { OnOk result (copies.new.items ≡ copies.old.items ++ unquoted spelling.now) }
{
    let mut escaped = false;
    for byte in spelling {
        if *byte == b'\\' && !escaped {
            escaped = true;
        } else {
            copies.push(*byte)?;
            escaped = false;
        }
    }
    Ok(())
}

/// Whether there is a letter in upper case.
fn has_upper(bytes: &[u8]) -> bool
    ensures { result ≡ list_any is_ascii_uppercase bytes.now }
{
    bytes.iter().any(|byte| byte.is_ascii_uppercase())
}

/// The copy of a dotted subsection in lower case, if that isn't what is spelled.
#[tactic(auto, using(crate::proofs::Copies::fold_same))]
fn lower_copy(copies: &mut Vec<u8>, spelled: &[u8]) -> Result<Option<Copied>, NoMemory>
    ensures decoded { IfOk result (λ copy. decoded_or copies.new.items copy (Some spelled.now) ≡ Some (fold spelled.now)) }
    ensures fits { IfOk result (λ copy. CopyFits (length copies.new.items) copy) }
    ensures extended { OnOk result (IsExtended copies.old.items copies.new.items) }
{
    if !has_upper(spelled) {
        return Ok(None);
    }
    let start = copies.len();
    append_lower(copies, spelled)?;
    Ok(Some(Copied::behind(copies, start)?))
}

/// The copy of a quoted subsection without its backslashes, if that isn't what is spelled.
#[tactic(auto, using(crate::proofs::Copies::unquoted_same))]
fn unquoted_copy(copies: &mut Vec<u8>, spelled: &[u8]) -> Result<Option<Copied>, NoMemory>
    ensures decoded { IfOk result (λ copy. decoded_or copies.new.items copy (Some spelled.now) ≡ Some (unquoted spelled.now)) }
    ensures fits { IfOk result (λ copy. CopyFits (length copies.new.items) copy) }
    ensures extended { OnOk result (IsExtended copies.old.items copies.new.items) }
{
    if !spelled.contains(&b'\\') {
        return Ok(None);
    }
    let start = copies.len();
    append_unquoted(copies, spelled)?;
    Ok(Some(Copied::behind(copies, start)?))
}

/// The copy of a header's subsection, if it has one that isn't what is spelled.
fn header_copy(
    buffer: &[u8],
    header: Header,
    copies: &mut Vec<u8>,
) -> Result<Option<Copied>, NoMemory>
    requires { HeaderFits (length buffer.now) header }
    ensures shown { IfOk result (λ copy. shown_header buffer.now copies.new.items (record header { decoded = copy })
        ≡ shown_token (HeaderToken (header_of buffer.now header))) }
    ensures fits { IfOk result (λ copy. CopyFits (length copies.new.items) copy) }
    ensures extended { OnOk result (IsExtended copies.old.items copies.new.items) }
{
    match (header.separator, header.subsection) {
        (Some(separator), Some(subsection)) => {
            let spelled = subsection.bytes_in(buffer);
            if separator.bytes_in(buffer) == b".".as_slice() {
                lower_copy(copies, spelled)
            } else {
                unquoted_copy(copies, spelled)
            }
        }
        _ => Ok(None),
    }
}

/// The header, with a decoded copy of its subsection if that isn't what is spelled. Copies are added at the end of `copies`.
///
/// # Errors
///
/// Out of memory for the copy.
pub fn decoded_header(
    buffer: &[u8],
    header: Header,
    copies: &mut Vec<u8>,
) -> Result<Header, NoMemory>
    requires { HeaderFits (length buffer.now) header }
    ensures same { IfOk result (λ h. header_of buffer.now h ≡ header_of buffer.now header) }
    ensures fits { IfOk result (HeaderFits (length buffer.now)) }
    ensures copy_fits { IfOk result (λ h. CopyFits (length copies.new.items) h.decoded) }
    ensures shown { IfOk result (λ h. shown_header buffer.now copies.new.items h ≡ shown_token (HeaderToken (header_of buffer.now header))) }
    ensures extended { OnOk result (IsExtended copies.old.items copies.new.items) }
{
    let decoded = header_copy(buffer, header, copies)?;
    Ok(Header { decoded, ..header })
}
