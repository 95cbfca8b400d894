//! Patterns of POSIX, which git reads, in the syntax of the kit's `regex`.
//!
//! What differs is mostly in brackets, where a backslash and a further `[` stand for themselves, and what stands behind a backslash. The C
//! library refuses a repetition of nothing, as behind an anchor or in `(?i)`; a `?` behind another repetition is one itself.
ghost use Rattle.std.specs.Prelude.{◌≡◌, ◌++◌, chars, option_map, IfOk, None, OnOk, Some, if◌then◌else◌, string_bytes};
ghost use Rattle.gixcfg_core.specs.Posix as spec;

use std::alloc::{AllocError, Global};

/// What stands before a place in a pattern.
#[derive(Clone, Copy)]
pub enum Place {
    /// Nothing that could be repeated: the pattern's start, `(`, `|` or an anchor.
    Start,
    /// What may be repeated.
    Item,
    /// How often something is repeated.
    Repetition,
    /// A backslash.
    Backslash,
    /// `{`.
    Brace,
    /// `{` and some of the count.
    Count,
    /// `[`.
    Bracket,
    /// `[^`.
    Negated,
    /// In brackets: nothing that begins a range.
    Apart,
    /// In brackets: a character, which may begin a range.
    Member,
    /// In brackets: the dash of a range.
    Dash,
    /// In brackets: another `[`.
    Nested,
    /// In brackets: `[:`.
    Class,
    /// In brackets: `[:` and some of a class's name.
    ClassName,
    /// In brackets: `[:`, a class's name and `:`.
    ClassEnd,
    /// What no pattern has.
    Wrong,
}

/// A pattern in the syntax of the kit's `regex`. In it a dot stands for a line feed too. None if POSIX has no such pattern, as far as the
/// kit doesn't refuse it itself.
///
/// # Errors
///
/// Out of memory.
pub fn translated(alloc: Global, pattern: &str) -> Result<Option<String>, AllocError>
    ensures { IfOk result (λ source. option_map string_bytes source ≡ spec.translated (chars pattern.now)) }
{
    let mut source = String::new(alloc);
    source.push_str("(?s)")?;
    let mut place = Place::Start;
    for c in pattern.chars() {
        add(&mut source, place, c)?;
        place = next(place, c);
    }
    Ok(whole(source, place))
}

/// A source, if a pattern may end at a place.
fn whole(source: String, place: Place) -> Option<String>
    ensures { option_map string_bytes result ≡ (if spec.is_end place then Some (string_bytes source) else None) }
{
    if is_end(place) { Some(source) } else { None }
}

/// Adds what a character at a place comes to.
fn add(source: &mut String, place: Place, c: char) -> Result<(), AllocError>
    ensures { OnOk result (string_bytes source.new ≡ string_bytes source.old ++ spec.told place c) }
{
    source.push_str(front(place, c))?;
    if stays(place, c) {
        source.push(c)?;
    }
    Ok(())
}

/// The place behind a character at a place.
fn next(place: Place, c: char) -> Place
    ensures { result ≡ spec.next place c }
{
    match place {
        Place::Start => {
            if is_repeating(c) {
                Place::Wrong
            } else {
                behind(c)
            }
        }
        Place::Item | Place::Repetition => behind(c),
        Place::Backslash => behind_escape(c),
        Place::Brace | Place::Count => behind_count(c),
        Place::Bracket => {
            if c == '^' {
                Place::Negated
            } else {
                behind_first(c)
            }
        }
        Place::Negated => behind_first(c),
        Place::Apart => in_brackets(c, Place::Member),
        Place::Member => in_brackets(c, member_or_dash(c)),
        Place::Dash => in_brackets(c, Place::Apart),
        Place::Nested => behind_nested(c),
        Place::Class | Place::ClassName => {
            if c == ':' {
                Place::ClassEnd
            } else {
                Place::ClassName
            }
        }
        Place::ClassEnd => {
            if c == ']' {
                Place::Apart
            } else {
                Place::ClassName
            }
        }
        Place::Wrong => Place::Wrong,
    }
}

/// Whether a character begins a repetition.
fn is_repeating(c: char) -> bool
    ensures { result ≡ spec.is_repeating c }
{
    matches!(c, '*' | '+' | '?' | '{')
}

/// The place behind a character that isn't in brackets.
fn behind(c: char) -> Place
    ensures { result ≡ spec.behind c }
{
    match c {
        '\\' => Place::Backslash,
        '[' => Place::Bracket,
        '(' | '|' | '^' | '$' => Place::Start,
        '*' | '+' | '?' => Place::Repetition,
        '{' => Place::Brace,
        _ => Place::Item,
    }
}

/// The place behind a character after a backslash: an anchor is never repeated, and a digit would name a group, which the kit hasn't.
fn behind_escape(c: char) -> Place
    ensures { result ≡ spec.behind_escape c }
{
    match c {
        'b' | 'B' | '<' | '>' | '`' | '\'' => Place::Start,
        '1'..='9' => Place::Wrong,
        _ => Place::Item,
    }
}

/// The place behind a character of a count.
fn behind_count(c: char) -> Place
    ensures { result ≡ spec.behind_count c }
{
    match c {
        '}' => Place::Repetition,
        '0'..='9' | ',' => Place::Count,
        _ => Place::Wrong,
    }
}

/// The place behind the first character in brackets, where `]` stands for itself.
fn behind_first(c: char) -> Place
    ensures { result ≡ spec.behind_first c }
{
    if c == '[' {
        Place::Nested
    } else {
        Place::Member
    }
}

/// The place behind another character in brackets, `other` if it neither ends them nor may begin a class.
fn in_brackets(c: char, other: Place) -> Place
    ensures { result ≡ spec.in_brackets c other }
{
    match c {
        ']' => Place::Item,
        '[' => Place::Nested,
        _ => other,
    }
}

/// The place behind a character from which or after which a range may go.
fn member_or_dash(c: char) -> Place
    ensures { result ≡ spec.member_or_dash c }
{
    if c == '-' { Place::Dash } else { Place::Member }
}

/// The place behind a character after `[` in brackets. Collating elements aren't known.
fn behind_nested(c: char) -> Place
    ensures { result ≡ spec.behind_nested c }
{
    match c {
        ':' => Place::Class,
        '.' | '=' => Place::Wrong,
        _ => in_brackets(c, member_or_dash(c)),
    }
}

/// Whether a pattern may end at a place.
fn is_end(place: Place) -> bool
    ensures { result ≡ spec.is_end place }
{
    match place {
        Place::Start | Place::Item | Place::Repetition => true,
        Place::Backslash
        | Place::Brace
        | Place::Count
        | Place::Bracket
        | Place::Negated
        | Place::Apart
        | Place::Member
        | Place::Dash
        | Place::Nested
        | Place::Class
        | Place::ClassName
        | Place::ClassEnd
        | Place::Wrong => false,
    }
}

/// What is put before a character at a place, or in its stead.
fn front(place: Place, c: char) -> &'static str
    ensures { result.now ≡ spec.front place c }
{
    match place {
        Place::Start | Place::Item => escape_if(c == '}'),
        Place::Repetition => front_of_repetition(c),
        Place::Backslash => front_of_escape(c),
        Place::Brace => { if c == ',' { "0" } else { "" } }
        Place::Bracket => escape_if(c == ']' || c == '-' || is_special(c)),
        Place::Negated => escape_if(c == ']' || c == '-' || c == '^' || is_special(c)),
        Place::Apart | Place::Dash => escape_if(c == '-' || c == '^' || is_special(c)),
        Place::Member => escape_if(c == '^' || is_special(c)),
        Place::Nested => front_of_nested(c),
        Place::Class => front_of_class(c),
        Place::Count | Place::ClassName | Place::ClassEnd | Place::Wrong => "",
    }
}

/// A backslash, or nothing.
fn escape_if(is_escaped: bool) -> &'static str
    ensures { result.now ≡ spec.escape_if is_escaped }
{
    if is_escaped { "\\" } else { "" }
}

/// Whether a character has a meaning of its own in brackets of the kit's, but for those of POSIX.
fn is_special(c: char) -> bool
    ensures { result ≡ spec.is_special c }
{
    matches!(c, '\\' | '&' | '~')
}

/// What is put before a character behind a repetition. A `?` there would ask for the shortest match.
fn front_of_repetition(c: char) -> &'static str
    ensures { result.now ≡ spec.front_of_repetition c }
{
    match c {
        '?' => "{0,1}",
        '}' => "\\",
        _ => "",
    }
}

/// What is put before a character behind a backslash: another one where both mean the same by it, or the character is none of its own.
fn front_of_escape(c: char) -> &'static str
    ensures { result.now ≡ spec.front_of_escape c }
{
    match c {
        '`' => "\\A",
        '\'' => "\\z",
        _ => escape_if(is_escaped(c)),
    }
}

/// Whether a character stays behind its backslash.
fn is_escaped(c: char) -> bool
    ensures { result ≡ spec.is_escaped c }
{
    is_mark(c) || matches!(c, 'w' | 'W' | 's' | 'S' | 'b' | 'B' | '<' | '>')
}

/// Whether a character has a meaning outside of brackets.
fn is_mark(c: char) -> bool
    ensures { result ≡ spec.is_mark c }
{
    matches!(
        c,
        '\\' | '.' | '[' | ']' | '(' | ')' | '|' | '^' | '$' | '*' | '+' | '?' | '{' | '}'
    )
}

/// What is put before a character after `[` in brackets, which is a character like others unless it begins a class.
fn front_of_nested(c: char) -> &'static str
    ensures { result.now ≡ spec.front_of_nested c }
{
    match c {
        ':' => "",
        '\\' | '&' | '~' | '^' => "\\[\\",
        _ => "\\[",
    }
}

/// What is put before the first letter of a class's name: what alpha and alnum, lower, space and upper have beyond ASCII, since the kit's
/// classes have none of it.
fn front_of_class(c: char) -> &'static str
    ensures { result.now ≡ spec.front_of_class c }
{
    match c {
        'a' => "\\p{Alphabetic}[\\p{Nd}--0-9][:",
        'l' => "\\p{Lowercase}[:",
        's' => "[\\p{White_Space}--\\x85\\xA0\\u2007\\u202F][:",
        'u' => "\\p{Uppercase}[:",
        _ => "[:",
    }
}

/// Whether a character is put itself.
fn stays(place: Place, c: char) -> bool
    ensures { result ≡ spec.stays place c }
{
    match place {
        Place::Start | Place::Item => c != '\\',
        Place::Repetition => c != '\\' && c != '?',
        Place::Backslash => c != '`' && c != '\'',
        Place::Bracket | Place::Negated | Place::Apart | Place::Member | Place::Dash => c != '[',
        Place::Nested => c != '[' && c != ':',
        Place::Brace
        | Place::Count
        | Place::Class
        | Place::ClassName
        | Place::ClassEnd
        | Place::Wrong => true,
    }
}
