//! Where values end.
ghost use Rattle.std.specs.Prelude.{◌≡◌, ◌≤◌, ◌<◌, ◌^◌, length, IfSome, IfNone};
ghost use Rattle.gitconf_text.specs.Token.{value_tokens};
ghost use Rattle.gitconf_text.specs.Value.{Value};
ghost use Rattle.gitconf_read.specs.ItemReading.{IsValueRead};
ghost use Rattle.gitconf_parse.specs.Places.{IsNoValue};

use gitconf_read::reading::value::{PieceEnd, piece_end};

/// Where the value ends that begins at an offset; `None` if no value is there.
#[inline(always)]
pub fn value_end(input: &[u8], first: usize) -> Option<usize>
    requires within { first ≤ length input.now }
    requires fits { length input.now < 2 ^ 32 }
    ensures found { IfSome result (λ end. (v : Value) × IsValueRead input.now first end (value_tokens v.pieces v.last)) }
    ensures behind { IfSome result (λ end. first ≤ end) }
    ensures inside { IfSome result (λ end. end ≤ length input.now) }
    ensures refused { IfNone result (IsNoValue input.now first) }
{
    let mut from = first;
    let mut quoted = false;
    loop {
        match piece_end(input, from, quoted) {
            PieceEnd::Last(end) => return Some(end),
            PieceEnd::GoesOn {
                at,
                line_end,
                quoted: open,
            } => {
                from = at + 1 + line_end;
                quoted = open;
            }
            PieceEnd::Unended(at) => return Some(at + 1),
            PieceEnd::Refused => return None,
        }
    }
}
