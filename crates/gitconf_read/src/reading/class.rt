//! The classes of bytes, by a table.
ghost use Rattle.std.specs.Prelude.{◌≡◌};
ghost use Rattle.gitconf_text.specs.Bytes as text_bytes;
ghost use Rattle.gitconf_read.specs.Reading as spec;

/// Letters, digits and the dash.
const NAME: u8 = 1;

/// Bytes that stand for themselves in a value, quotes or not: all but LF, `;`, `#`, a quote, a backslash and whitespace.
const PLAIN: u8 = 2;

/// Space and tab.
const BLANK: u8 = 4;

/// Letters, digits, the dash and the dot.
const HEADER: u8 = 8;

/// Bytes that stand for themselves in a quoted subsection: all but LF, a quote and a backslash.
const SPELLED: u8 = 16;

// For each byte the sum of the flags above.
static CLASS: [u8; 256] = [
    18, 18, 18, 18, 18, 18, 18, 18, 18, 20, 0, 18, 16, 16, 18, 18, 18, 18, 18, 18, 18, 18, 18, 18,
    18, 18, 18, 18, 18, 18, 18, 18, 20, 18, 0, 16, 18, 18, 18, 18, 18, 18, 18, 18, 18, 27, 26, 18,
    27, 27, 27, 27, 27, 27, 27, 27, 27, 27, 18, 16, 18, 18, 18, 18, 18, 27, 27, 27, 27, 27, 27, 27,
    27, 27, 27, 27, 27, 27, 27, 27, 27, 27, 27, 27, 27, 27, 27, 27, 27, 27, 27, 18, 0, 18, 18, 18,
    18, 27, 27, 27, 27, 27, 27, 27, 27, 27, 27, 27, 27, 27, 27, 27, 27, 27, 27, 27, 27, 27, 27, 27,
    27, 27, 27, 18, 18, 18, 18, 18, 18, 18, 18, 18, 18, 18, 18, 18, 18, 18, 18, 18, 18, 18, 18, 18,
    18, 18, 18, 18, 18, 18, 18, 18, 18, 18, 18, 18, 18, 18, 18, 18, 18, 18, 18, 18, 18, 18, 18, 18,
    18, 18, 18, 18, 18, 18, 18, 18, 18, 18, 18, 18, 18, 18, 18, 18, 18, 18, 18, 18, 18, 18, 18, 18,
    18, 18, 18, 18, 18, 18, 18, 18, 18, 18, 18, 18, 18, 18, 18, 18, 18, 18, 18, 18, 18, 18, 18, 18,
    18, 18, 18, 18, 18, 18, 18, 18, 18, 18, 18, 18, 18, 18, 18, 18, 18, 18, 18, 18, 18, 18, 18, 18,
    18, 18, 18, 18, 18, 18, 18, 18, 18, 18, 18, 18, 18, 18, 18, 18,
];

/// Whether the byte is a letter, a digit or a dash.
#[inline(always)]
pub fn is_name_byte(byte: u8) -> bool
    ensures { result ≡ text_bytes.is_name_byte byte }
{
    CLASS[byte as usize] & NAME != 0
}

/// Whether the byte is a space or a tab.
#[inline(always)]
pub fn is_blank(byte: u8) -> bool
    ensures { result ≡ text_bytes.is_blank byte }
{
    CLASS[byte as usize] & BLANK != 0
}

/// Whether the byte is a letter, a digit, a dash or a dot.
#[inline(always)]
pub fn is_header_byte(byte: u8) -> bool
    ensures { result ≡ text_bytes.is_header_byte byte }
{
    CLASS[byte as usize] & HEADER != 0
}

/// Whether the byte stands for itself between the quotes of a header.
#[inline(always)]
pub fn is_spelled(byte: u8) -> bool
    ensures { result ≡ spec.is_spelled byte }
{
    CLASS[byte as usize] & SPELLED != 0
}

/// Whether the byte stands for itself in a value, quotes or not.
#[inline(always)]
pub fn is_plain(byte: u8) -> bool
    ensures { result ≡ spec.is_plain byte }
{
    CLASS[byte as usize] & PLAIN != 0
}
