//! The headers of a text, each with the copy of its subsection.
ghost use Rattle.std.specs.Prelude.{◌≡◌, ◌==◌, ℕ, List, ◌<◌, get_or, length, IfSome, OnOk};
ghost use Rattle.std.specs.List.{list_any};
ghost use Rattle.gitconf_text.specs.Token.{HeaderToken};
ghost use Rattle.gitconf_items.specs.Events.{header_of, HeaderFits};
ghost use Rattle.gitconf_items.specs.ShownEvents.{shown_header, shown_token, CopyFits};
ghost use Rattle.gitconf_read.specs.Compact.{no_header, AreDecoded, IsDecodedAt};

use gitconf_items::decode::decoded_header;
use gitconf_items::event::Header;
use gitconf_text::NoMemory;

/// Whether there is a backslash.
fn has_backslash(bytes: &[u8]) -> bool
    ensures { result ≡ list_any (λ b. b == 92) bytes.now }
{
    bytes.iter().any(|byte| *byte == b'\\')
}

/// The header without a copy, if its subsection is between quotes and has no backslash, so that it is what is spelled.
#[tactic(auto, using(gitconf_items::proofs::Copies::unquoted_same))]
fn plain_header(buffer: &[u8], header: Header) -> Option<Header>
    requires { HeaderFits (length buffer.now) header }
    ensures same { IfSome result (λ h. header_of buffer.now h ≡ header_of buffer.now header) }
    ensures fits { IfSome result (HeaderFits (length buffer.now)) }
    ensures no_copy { (limit : ℕ) → IfSome result (λ h. CopyFits limit h.decoded) }
    ensures shown { (copies : List ℕ) → IfSome result (λ h. shown_header buffer.now copies h ≡ shown_token (HeaderToken (header_of buffer.now header))) }
{
    match (header.separator, header.subsection) {
        (Some(separator), Some(subsection)) => {
            if separator.bytes_in(buffer) == b".".as_slice()
                || has_backslash(subsection.bytes_in(buffer))
            {
                return None;
            }
            Some(Header {
                decoded: None,
                ..header
            })
        }
        _ => None,
    }
}

/// Gives the header at a place the decoded copy of its subsection, if that isn't what is spelled.
fn decode_at(
    buffer: &[u8],
    headers: &mut Vec<Header>,
    place: usize,
    copies: &mut Vec<u8>,
) -> Result<(), NoMemory>
    requires within { place < length headers.old.items }
    requires fits { HeaderFits (length buffer.now) (get_or headers.old.items place no_header) }
    ensures { OnOk result (IsDecodedAt buffer.now copies.old.items copies.new.items place headers.old.items headers.new.items) }
{
    // Most subsections are spelled as they are meant.
    if let Some(header) = plain_header(buffer, headers[place]) {
        headers[place] = header;
        return Ok(());
    }
    let header = decoded_header(buffer, headers[place], copies)?;
    headers[place] = header;
    Ok(())
}

/// Gives each header the decoded copy of its subsection, if that isn't what is spelled.
pub fn decode_headers(
    buffer: &[u8],
    headers: &mut Vec<Header>,
    copies: &mut Vec<u8>,
) -> Result<(), NoMemory>
    requires { (k : ℕ) → k < length headers.old.items → HeaderFits (length buffer.now) (get_or headers.old.items k no_header) }
    ensures { OnOk result (AreDecoded buffer.now copies.new.items (length headers.old.items) headers.old.items headers.new.items) }
{
    for place in 0..headers.len() {
        decode_at(buffer, headers, place, copies)?;
    }
    Ok(())
}
