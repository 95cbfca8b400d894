//! Integers and booleans as git reads them, by its manual page `git-config`, "Values", and by what `git config --type` does.
ghost use Rattle.std.specs.Prelude.{◌≡◌, ◌≤◌, ◌<◌, ◌^◌, ◌+◌, ◌*◌, ◌⊎◌, IsTrue, IfSome, MatchOption, length, position, take, drop};
ghost use Rattle.std.specs.Char.{digit_value};
ghost use Rattle.std.specs.Option.{option_and_then};
ghost use Rattle.std.specs.Str.Parse.{digits_value, starts_with_minus, without_leading_sign};
ghost use Rattle.gixcfg_core.specs.Numbers as spec;
ghost use Rattle.gixcfg_core.specs.Numbers.{at_most, boolean_of, integer_of, is_no_blank, is_no_digit};

use gitconf_text::parse::section::bytes::is_same_name;

/// The largest size of an integer with 64 bits.
pub const MOST: u64 = 9_223_372_036_854_775_807;

/// The largest size of an integer with 32 bits. In such integers git keeps booleans that are written as numbers.
pub const MOST_OF_32_BITS: u64 = 2_147_483_647;

/// The integer that a text writes: whitespace, a sign if it has one, digits, and `k`, `m` or `g` or nothing. The digits are hexadecimal
/// behind `0x`, octal if the first is 0, else decimal, as `strtoimax` of C takes them. `None` if it writes none, or one whose size,
/// times 1024 for each step of its unit, is more than `most`. One pass, which takes no memory.
pub fn integer(text: &[u8], most: u64) -> Option<i64>
    requires { most < 2 ^ 63 }
    ensures { result ≡ integer_of most text.now }
{
    let (is_negative, digits) = after_sign(after_blanks(text));
    match unsigned(digits, most) {
        Some(size) => Some(signed(is_negative, size)),
        None => None,
    }
}

/// The boolean that a word names, without ASCII case: `true`, `yes` or `on`; `false`, `no`, `off` or the empty text.
pub fn boolean_named(text: &[u8]) -> Option<bool>
    ensures { result ≡ spec.boolean_named text.now }
{
    if is_same_name(text, b"true") || is_same_name(text, b"yes") || is_same_name(text, b"on") {
        return Some(true);
    }
    if is_same_name(text, b"false")
        || is_same_name(text, b"no")
        || is_same_name(text, b"off")
        || is_same_name(text, b"")
    {
        return Some(false);
    }
    None
}

/// The boolean that a text writes: a word, or an integer of 32 bits, which is true if it isn't 0.
pub fn boolean(text: &[u8]) -> Option<bool>
    ensures { result ≡ boolean_of text.now }
{
    match boolean_named(text) {
        Some(is_true) => Some(is_true),
        None => Some(integer(text, MOST_OF_32_BITS)? != 0),
    }
}

/// Whether C takes a byte as whitespace: the space, and the five controls from HT to CR.
fn is_blank(byte: u8) -> bool
    ensures { result ≡ spec.is_blank byte }
{
    matches!(byte, b' ' | 9..=13)
}

/// A text without the whitespace at its front.
pub fn after_blanks(text: &[u8]) -> &[u8]
    ensures { result.now ≡ spec.after_blanks text.now }
{
    &text[blanks_len(text)..]
}

/// How many bytes of whitespace a text begins with.
fn blanks_len(text: &[u8]) -> usize
    ensures count { result ≡ spec.blanks_len text.now }
    ensures within { result ≤ length text.now }
{
    match first_no_blank(text) {
        Some(count) => count,
        None => text.len(),
    }
}

/// The place of the first byte that is no whitespace.
fn first_no_blank(text: &[u8]) -> Option<usize>
    ensures place { result ≡ position is_no_blank text.now }
    ensures within { IfSome result (λ n. n < length text.now) }
{
    text.iter().position(|byte| !is_blank(*byte))
}

/// Whether a minus comes first, and what follows the sign.
pub fn after_sign(text: &[u8]) -> (bool, &[u8])
    ensures sign { result.0 ≡ starts_with_minus text.now }
    ensures rest { result.1.now ≡ without_leading_sign text.now }
{
    match text {
        [b'-', digits @ ..] => (true, digits),
        [b'+', digits @ ..] => (false, digits),
        digits => (false, digits),
    }
}

/// The integer of this sign and size.
fn signed(is_negative: bool, size: u64) -> i64
    requires { size < 2 ^ 63 }
    ensures { result ≡ spec.signed is_negative size }
{
    let size = size as i64;
    if is_negative { -size } else { size }
}

/// The number that digits and a unit write, in the base that they begin with, if it is no more than `most`.
fn unsigned(text: &[u8], most: u64) -> Option<u64>
    ensures number { result ≡ option_and_then (at_most most) (spec.unsigned text.now) }
    ensures within { IfSome result (λ n. n ≤ most) }
{
    if begins_hexadecimal(text) {
        with_unit(&text[2..], 16, most)
    } else if begins_octal(text) {
        with_unit(text, 8, most)
    } else {
        with_unit(text, 10, most)
    }
}

/// Whether `0x` comes first, in either case.
fn begins_hexadecimal(text: &[u8]) -> bool
    ensures test { result ≡ spec.begins_hexadecimal text.now }
    ensures within { IsTrue result → 2 ≤ length text.now }
{
    match text {
        [b'0', b'x' | b'X', ..] => true,
        _ => false,
    }
}

/// Whether a `0` comes first.
fn begins_octal(text: &[u8]) -> bool
    ensures { result ≡ spec.begins_octal text.now }
{
    match text {
        [b'0', ..] => true,
        _ => false,
    }
}

/// The number that digits of a base and a unit write, if it is no more than `most`.
fn with_unit(text: &[u8], base: u64, most: u64) -> Option<u64>
    requires low { 2 ≤ base }
    requires high { base ≤ 36 }
    ensures number { result ≡ option_and_then (at_most most) (spec.with_unit base text.now) }
    ensures within { IfSome result (λ n. n ≤ most) }
{
    let (digits, unit) = text.split_at(digits_len(text, base));
    if digits.is_empty() {
        return None;
    }
    match (number_of(digits, base), factor_of(unit)) {
        (Some(number), Some(factor)) => product(number, factor, most),
        _ => None,
    }
}

/// A number times a factor, if that is no more than `most`.
fn product(number: u64, factor: u64, most: u64) -> Option<u64>
    ensures number { result ≡ at_most most (number * factor) }
    ensures within { IfSome result (λ n. n ≤ most) }
{
    match number.checked_mul(factor) {
        Some(product) if product <= most => Some(product),
        _ => None,
    }
}

/// What a unit multiplies by, if it is one.
fn factor_of(unit: &[u8]) -> Option<u64>
    ensures factor { result ≡ spec.factor_of unit.now }
    ensures some { IfSome result (λ f. 1 ≤ f) }
{
    match unit {
        [] => Some(1),
        [b'k' | b'K'] => Some(1024),
        [b'm' | b'M'] => Some(1_048_576),
        [b'g' | b'G'] => Some(1_073_741_824),
        _ => None,
    }
}

/// The number that digits of a base write at a text's front, and what follows. `None` if there is no digit, or 64 bits don't hold the
/// number.
pub fn digits_at_front(text: &[u8], base: u64) -> Option<(u64, &[u8])>
    requires low { 2 ≤ base }
    requires high { base ≤ 36 }
    ensures { let n = spec.digits_len base text.now in
        MatchOption result ((n ≡ 0) ⊎ (2 ^ 64 ≤ digits_value base (take n text.now)))
        (λ p. (0 < n) × (p.0 ≡ digits_value base (take n text.now)) × (p.1.now ≡ drop n text.now)) }
{
    let (digits, rest) = text.split_at(digits_len(text, base));
    if digits.is_empty() {
        return None;
    }
    match number_of(digits, base) {
        Some(number) => Some((number, rest)),
        None => None,
    }
}

/// How many digits of a base a text begins with.
fn digits_len(text: &[u8], base: u64) -> usize
    ensures count { result ≡ spec.digits_len base text.now }
    ensures within { result ≤ length text.now }
{
    match first_no_digit(text, base) {
        Some(count) => count,
        None => text.len(),
    }
}

/// The place of the first byte that is no digit of a base.
fn first_no_digit(text: &[u8], base: u64) -> Option<usize>
    ensures place { result ≡ position (is_no_digit base) text.now }
    ensures within { IfSome result (λ n. n < length text.now) }
{
    text.iter().position(|byte| digit_of(*byte) >= base)
}

/// The number that digits of a base write, if 64 bits hold it.
fn number_of(digits: &[u8], base: u64) -> Option<u64>
    requires low { 2 ≤ base }
    requires high { base ≤ 36 }
    ensures { MatchOption result (2 ^ 64 ≤ digits_value base digits.now) (λ n. n ≡ digits_value base digits.now) }
{
    let mut number = 0u64;
    for digit in digits {
        match next_number(number, base, digit_of(*digit)) {
            Some(next) => number = next,
            None => return None,
        }
    }
    Some(number)
}

/// A number with one more digit, if 64 bits hold it.
fn next_number(number: u64, base: u64, digit: u64) -> Option<u64>
    ensures { MatchOption result (2 ^ 64 ≤ number * base + digit) (λ n. n ≡ number * base + digit) }
{
    number.checked_mul(base)?.checked_add(digit)
}

/// The number that a digit stands for; 36 for a byte that is none. From 10 on a digit is a letter, in either case.
pub fn digit_of(byte: u8) -> u64
    ensures { result ≡ digit_value byte }
{
    match byte {
        b'0'..=b'9' => (byte - b'0') as u64,
        b'a'..=b'z' => (byte - b'a') as u64 + 10,
        b'A'..=b'Z' => (byte - b'A') as u64 + 10,
        _ => 36,
    }
}

/// The byte of two hexadecimal digits, in either case.
pub fn byte_of(high: u8, low: u8) -> Option<u8>
    ensures { result ≡ spec.byte_of high low }
{
    let (high, low) = (digit_of(high), digit_of(low));
    if high < 16 && low < 16 {
        Some((high * 16 + low) as u8)
    } else {
        None
    }
}
