//! Colors as git reads them, by its manual page `git-config`, "Values", and as `git config --type=color` prints them: the sequence
//! of bytes that tells a terminal.
ghost use Rattle.std.specs.Prelude.{◌≡◌, ◌≤◌, ◌<◌, ◌++◌, ◌&&◌, leb, ◌∷◌, length, map, position, if◌then◌else◌, IfOk, OnOk, IfSome, string_bytes};
ghost use Rattle.std.specs.Option.{is_some, option_copied};
ghost use Rattle.gixcfg_core.specs.Colors as spec;

use crate::numbers::{after_blanks, after_sign, byte_of, digits_at_front};
use crate::parts::first_part;
use gitconf_text::parse::section::bytes::is_same_name;
use std::alloc::{AllocError, Global};

/// A color.
#[derive(Clone, Copy)]
enum Color {
    /// The one that is there.
    Normal,
    /// One that terminals have a number for, as it is for text.
    Named(u8),
    /// One of 256.
    Palette(u8),
    /// Its red, green and blue.
    Mixed(u8, u8, u8),
}

/// The numbers that turn an attribute of text on and off.
#[derive(Clone, Copy)]
struct Attribute {
    on: u8,
    off: u8,
}

static NAMES: [&[u8]; 8] = [
    b"black", b"red", b"green", b"yellow", b"blue", b"magenta", b"cyan", b"white",
];

/// The bytes between words.
const BETWEEN: &[u8] = b" \t\n\r";

/// The number of black text.
const DARK: u8 = 30;

/// The number of bright black text.
const BRIGHT: u8 = 90;

/// The number of text in the terminal's own color.
const OWN: u8 = 39;

/// What words ask for.
#[derive(Clone, Copy)]
struct Style {
    /// Whether all is taken back first.
    has_reset: bool,
    /// Whether each attribute is asked for, by its number, of which 29 is the last.
    attributes: [bool; 30],
    /// The color of text.
    foreground: Option<Color>,
    /// The color behind text.
    background: Option<Color>,
}

impl Style {
    ghost use Rattle.std.specs.Prelude.{◌≡◌, ◌+◌, ◌&&◌, true, leb, ltb, IsTrue};
    ghost use Rattle.gixcfg_core.specs.Colors.{is_word, color_count, colors_in, is_in_order};

    /// Nothing is asked for.
    fn none() -> Style
        ensures colors { colors_in result ≡ 0 }
        ensures order { is_in_order result ≡ true }
    {
        Style {
            has_reset: false,
            attributes: [false; 30],
            foreground: None,
            background: None,
        }
    }

    /// Adds what a word asks for; whether that is left to ask for.
    fn add(&mut self, word: &[u8]) -> bool
        requires { is_in_order self.old ≡ true }
        ensures added { result ≡ (is_word word.now && leb (colors_in self.old + color_count word.now) 2) }
        ensures colors { IsTrue result → colors_in self.new ≡ colors_in self.old + color_count word.now }
        ensures order { is_in_order self.new ≡ true }
    {
        if word.is_empty() {
            return true;
        }
        if is_reset(word) {
            self.has_reset = true;
            return true;
        }
        match (color_of(word), attribute_of(word)) {
            (Some(color), _) => self.add_color(color),
            (None, Some(code)) => {
                self.attributes[code as usize] = true;
                true
            }
            (None, None) => false,
        }
    }

    /// Adds the color of text, or else the one behind it; whether one of them was left.
    fn add_color(&mut self, color: Color) -> bool
        requires { is_in_order self.old ≡ true }
        ensures added { result ≡ ltb (colors_in self.old) 2 }
        ensures colors { IsTrue result → colors_in self.new ≡ colors_in self.old + 1 }
        ensures order { is_in_order self.new ≡ true }
    {
        if self.foreground.is_none() {
            self.foreground = Some(color);
        } else if self.background.is_none() {
            self.background = Some(color);
        } else {
            return false;
        }
        true
    }
}

/// Whether a text is a color with attributes. One pass, which takes no memory.
pub fn is_color(text: &[u8]) -> bool
    ensures { result ≡ spec.is_color text.now }
{
    style_of(text).is_some()
}

/// The sequence that tells a terminal the color and the attributes of a text: nothing if it asks for nothing, and `None` if it is no color.
///
/// # Errors
///
/// Out of memory.
pub fn sequence_of(alloc: Global, text: &[u8]) -> Result<Option<Vec<u8>>, AllocError> {
    match style_of(text) {
        Some(style) => Ok(Some(sequence(alloc, &style)?)),
        None => Ok(None),
    }
}

/// What the words of a text ask for; `None` if it is no color.
fn style_of(text: &[u8]) -> Option<Style>
    ensures { is_some result ≡ spec.is_color text.now }
{
    let mut style = Style::none();
    let mut left = Some(text);
    while let Some(rest) = left {
        let (word, behind) = first_part(rest, BETWEEN);
        if !style.add(word) {
            return None;
        }
        left = behind;
    }
    Some(style)
}

/// Whether a word takes all back.
#[tactic(auto, unfolding(crate::specs::Colors::is_reset))]
fn is_reset(word: &[u8]) -> bool
    ensures { result ≡ spec.is_reset word.now }
{
    is_same_name(word, b"reset")
}

/// The sequence of a style.
fn sequence(alloc: Global, style: &Style) -> Result<Vec<u8>, AllocError>
    ensures { IfOk result (λ v. v.items ≡ spec.sequence style.now) }
{
    let codes = codes_of(alloc, style)?;
    match codes.as_bytes() {
        codes if style.has_reset => enclosed(alloc, codes),
        [] => Ok(Vec::new(alloc)),
        [_, codes @ ..] => enclosed(alloc, codes),
    }
}

/// Numbers as terminals are told them.
fn enclosed(alloc: Global, codes: &[u8]) -> Result<Vec<u8>, AllocError>
    ensures { IfOk result (λ v. v.items ≡ spec.enclosed codes.now) }
{
    let mut text = b"\x1b[".to_vec(alloc)?;
    text.extend_from_slice(codes)?;
    text.push(b'm')?;
    Ok(text)
}

/// The numbers of a style, a `;` before each.
fn codes_of(alloc: Global, style: &Style) -> Result<String, AllocError>
    ensures { IfOk result (λ s. string_bytes s ≡ spec.style_codes style.now) }
{
    let mut codes = attribute_codes(alloc, &style.attributes)?;
    add_codes(&mut codes, style.foreground, 0)?;
    add_codes(&mut codes, style.background, 10)?;
    Ok(codes)
}

/// The numbers of the attributes that are on.
fn attribute_codes(alloc: Global, attributes: &[bool]) -> Result<String, AllocError>
    ensures { IfOk result (λ s. string_bytes s ≡ spec.attribute_codes 0 attributes.now) }
{
    let mut codes = String::new(alloc);
    for (code, is_on) in attributes.iter().enumerate() {
        if *is_on {
            write!(codes, ";{code}")?;
        }
    }
    Ok(codes)
}

/// Adds the numbers of a color, which are larger by so much if it is behind text.
fn add_codes(codes: &mut String, color: Option<Color>, more: u16) -> Result<(), AllocError>
    requires { more ≤ 10 }
    ensures { OnOk result (string_bytes codes.new ≡ string_bytes codes.old ++ spec.color_codes more color) }
{
    match color {
        Some(Color::Named(code)) => {
            let code = code as u16 + more;
            write!(codes, ";{code}")
        }
        Some(Color::Palette(place)) => {
            let code = 38 + more;
            write!(codes, ";{code};5;{place}")
        }
        Some(Color::Mixed(red, green, blue)) => {
            let code = 38 + more;
            write!(codes, ";{code};2;{red};{green};{blue}")
        }
        Some(Color::Normal) | None => Ok(()),
    }
}

/// The color of a word.
#[tactic(auto, unfolding(crate::specs::Colors::is_color_word))]
fn color_of(word: &[u8]) -> Option<Color>
    ensures { is_some result ≡ spec.is_color_word word.now }
{
    if is_same_name(word, b"normal") {
        return Some(Color::Normal);
    }
    if is_same_name(word, b"default") {
        return Some(Color::Named(OWN));
    }
    mixed(word).or(named(word)).or(numbered(word))
}

/// The color of the hexadecimal digits behind `#`.
fn mixed(word: &[u8]) -> Option<Color>
    ensures { is_some result ≡ spec.is_mixed word.now }
{
    match word {
        [b'#', digits @ ..] => mixed_of(digits),
        _ => None,
    }
}

/// The color of three hexadecimal numbers, of two digits each, or of one that counts twice.
fn mixed_of(digits: &[u8]) -> Option<Color>
    ensures { is_some result ≡ spec.are_of_three digits.now }
{
    match digits {
        [r, g, b] => mix(share_of(*r, *r), share_of(*g, *g), share_of(*b, *b)),
        [r, s, g, h, b, c] => mix(share_of(*r, *s), share_of(*g, *h), share_of(*b, *c)),
        _ => None,
    }
}

/// How much of one color two hexadecimal digits ask for.
#[tactic(auto, unfolding(crate::specs::Colors::is_hexadecimal))]
fn share_of(high: u8, low: u8) -> Option<u8>
    ensures { is_some result ≡ (spec.is_hexadecimal high && spec.is_hexadecimal low) }
{
    byte_of(high, low)
}

/// The color of so much red, green and blue.
fn mix(red: Option<u8>, green: Option<u8>, blue: Option<u8>) -> Option<Color>
    ensures { is_some result ≡ (is_some red && is_some green && is_some blue) }
{
    Some(Color::Mixed(red?, green?, blue?))
}

/// The color of this name, bright if `bright` comes first.
fn named(word: &[u8]) -> Option<Color>
    ensures { is_some result ≡ spec.is_named word.now }
{
    let (front, rest) = word.split_at_checked(6).unwrap_or((b"", word));
    if is_same_name(front, b"bright") {
        named_from(rest, BRIGHT)
    } else {
        named_from(word, DARK)
    }
}

/// The color of this name, the numbers of colors beginning with that of black.
fn named_from(word: &[u8], black: u8) -> Option<Color>
    requires { black ≤ 90 }
    ensures { is_some result ≡ spec.is_one_of spec.color_names word.now }
{
    match place_of(&NAMES, word) {
        Some(place) => Some(Color::Named(black + place as u8)),
        None => None,
    }
}

/// The place of the first of the names that a word is.
#[tactic(auto, unfolding(crate::specs::Colors::is_one_of))]
fn place_of(names: &[&[u8]], word: &[u8]) -> Option<usize>
    ensures named { is_some result ≡ spec.is_one_of (map (λ name. name.now) names.now) word.now }
    ensures within { IfSome result (λ n. n < length names.now) }
{
    for (place, name) in names.iter().enumerate() {
        if is_same_name(name, word) {
            return Some(place);
        }
    }
    None
}

/// The color of a decimal number, as `strtol` of C takes it: -1 for the one that is there, the first 16 by their names' numbers.
fn numbered(word: &[u8]) -> Option<Color>
    ensures { is_some result ≡ spec.is_numbered word.now }
{
    let (is_negative, digits) = after_sign(after_blanks(word));
    match digits_at_front(digits, 10) {
        Some((number, [])) => color_numbered(is_negative, number),
        _ => None,
    }
}

/// The color of this number.
fn color_numbered(is_negative: bool, number: u64) -> Option<Color>
    ensures { is_some result ≡ leb number (if is_negative then 1 else 255) }
{
    match number {
        0 => Some(Color::Named(DARK)),
        1 if is_negative => Some(Color::Normal),
        _ if is_negative => None,
        1..=7 => Some(Color::Named(DARK + number as u8)),
        8..=15 => Some(Color::Named(BRIGHT - 8 + number as u8)),
        16..=255 => Some(Color::Palette(number as u8)),
        _ => None,
    }
}

/// The number of an attribute, or behind `no` or `no-` that of its end.
#[tactic(auto, unfolding(crate::specs::Colors::is_attribute))]
fn attribute_of(word: &[u8]) -> Option<u8>
    ensures asks { is_some result ≡ spec.is_attribute word.now }
    ensures within { IfSome result (λ code. code < 30) }
{
    match after_no(word) {
        Some(name) => Some(attribute_named(name)?.off),
        None => Some(attribute_named(word)?.on),
    }
}

/// What follows `no` or `no-`, if a word begins so.
fn after_no(word: &[u8]) -> Option<&[u8]>
    ensures { option_copied result ≡ spec.after_no word.now }
{
    match word {
        [b'n', b'o', b'-', name @ ..] | [b'n', b'o', name @ ..] => Some(name),
        _ => None,
    }
}

/// The attribute of this name, in this very case.
#[tactic(auto, unfolding(crate::specs::Colors::is_attribute_name))]
fn attribute_named(word: &[u8]) -> Option<Attribute>
    ensures named { is_some result ≡ spec.is_attribute_name word.now }
    ensures within { IfSome result (λ a. (a.on < 30) × (a.off < 30)) }
{
    match word {
        b"bold" => Some(Attribute { on: 1, off: 22 }),
        b"dim" => Some(Attribute { on: 2, off: 22 }),
        b"italic" => Some(Attribute { on: 3, off: 23 }),
        b"ul" => Some(Attribute { on: 4, off: 24 }),
        b"blink" => Some(Attribute { on: 5, off: 25 }),
        b"reverse" => Some(Attribute { on: 7, off: 27 }),
        b"strike" => Some(Attribute { on: 9, off: 29 }),
        _ => None,
    }
}
