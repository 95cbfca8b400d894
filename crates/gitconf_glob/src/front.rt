//! What is at a pattern's front.
ghost use Rattle.std.specs.Prelude.{◌≡◌, ◌+◌, ◌≤◌, ◌==◌, false, length, IfSome};
ghost use Rattle.gitconf_glob.specs.Cursor as cursor;
ghost use Rattle.gitconf_glob.specs.Shapes.{element_of, front_of, FitsIn};

use crate::bracket::bracket_passed;

/// What takes one byte of the text. Brackets are separate (`bracket`, `places`).
#[derive(Clone, Copy)]
pub enum Element {
    Literal(u8),
    /// Any byte except `/`.
    AnyByte,
}

/// What is at a pattern's front. A number counts the bytes after the first one that belong to it.
#[derive(Clone, Copy)]
pub enum Front {
    /// What no text matches.
    Nothing,
    One(Element, usize),
    /// Stars that take a run of bytes, with `/` or without.
    Run(bool, usize),
    /// Stars at the pattern's end that take any text.
    Rest,
    /// Stars before a `/`. They take a run of bytes, or nothing together with that `/`.
    Folders(usize),
}

impl Element {
    ghost use Rattle.std.specs.Prelude.{◌≡◌};
    ghost use Rattle.gitconf_glob.specs.Pattern as spec;
    ghost use Rattle.gitconf_glob.specs.Shapes.{element_of};

    /// Whether the byte is taken.
    pub fn takes(self, ignore_case: bool, b: u8) -> bool
        ensures { result ≡ spec.takes ignore_case (element_of self) b }
    {
        match self {
            Element::Literal(byte) => {
                if ignore_case {
                    byte.to_ascii_lowercase() == b.to_ascii_lowercase()
                } else {
                    byte == b
                }
            }
            Element::AnyByte => b != b'/',
        }
    }
}

/// How many stars come first.
#[tactic(auto, unfolding(crate::specs::Cursor::stars_from))]
fn count_stars(text: &[u8]) -> usize
    ensures value { result ≡ cursor.stars_from 0 text.now }
    ensures within { result ≤ length text.now }
{
    let mut i = 0;
    while i < text.len() && text[i] == b'*' {
        i += 1;
    }
    i
}

/// Several stars at the pattern's start or after `/`, with `more` of them after the first one, before `text`.
fn wide(more: usize, text: &[u8]) -> Front
    ensures { front_of result ≡ cursor.wide more text.now }
{
    match text {
        [] => Front::Rest,
        [b'/', ..] => Front::Folders(more),
        [b'\\', b'/', ..] => Front::Run(true, more),
        _ => Front::Run(false, more),
    }
}

/// Stars, with `text` after the first one.
fn stars(fresh: bool, text: &[u8]) -> Front
    ensures value { front_of result ≡ cursor.stars fresh text.now }
    ensures within { FitsIn (length text.now + 1) (front_of result) }
{
    let more = count_stars(text);
    if fresh && more > 0 {
        wide(more, &text[more..])
    } else {
        Front::Run(false, more)
    }
}

/// What a backslash makes of the text after it: the next byte stands for itself.
fn escape(text: &[u8]) -> Front
    ensures value { front_of result ≡ cursor.escape text.now }
    ensures within { FitsIn (length text.now + 1) (front_of result) }
{
    match text {
        [b, ..] => Front::One(Element::Literal(*b), 1),
        [] => Front::Nothing,
    }
}

/// What is at the front of a pattern, unless that is a bracket. The pattern is its first byte and the rest; `fresh` says that it is at the
/// start of the whole pattern or after `/`.
#[tactic(auto, unfolding(crate::specs::Cursor::front))]
pub fn read_front(fresh: bool, first: u8, rest: &[u8]) -> Front
    requires { (first == 91) ≡ false }
    ensures value { front_of result ≡ cursor.front fresh first rest.now }
    ensures within { FitsIn (length rest.now + 1) (front_of result) }
{
    match first {
        b'*' => stars(fresh, rest),
        b'?' => Front::One(Element::AnyByte, 0),
        b'\\' => escape(rest),
        _ => Front::One(Element::Literal(first), 0),
    }
}

/// How many bytes a pattern's front has after its first, if it takes the byte. The byte is one of the text. It takes no
/// memory.
#[tactic(auto, unfolding(crate::specs::Cursor::front))]
pub fn front_passed(ignore_case: bool, first: u8, rest: &[u8], b: u8) -> Option<usize>
    ensures value { result ≡ cursor.passed ignore_case (cursor.front false first rest.now) b }
    ensures within { IfSome result (λ n. n ≤ length rest.now) }
{
    if first == b'[' {
        return bracket_passed(ignore_case, rest, b);
    }
    match read_front(false, first, rest) {
        Front::One(element, more) if element.takes(ignore_case, b) => Some(more),
        _ => None,
    }
}
