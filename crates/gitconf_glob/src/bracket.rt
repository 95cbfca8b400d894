//! Brackets of patterns: members up to a `]`.
ghost use Rattle.std.specs.Prelude.{◌≡◌, ◌+◌, ◌<◌, ◌≤◌, ◌==◌, ◌&&◌, ◌||◌, ◌∷◌, not, true, length, drop, IfSome};
ghost use Rattle.gitconf_glob.specs.Bracket as spec;
ghost use Rattle.gitconf_glob.specs.Counted as counted;
ghost use Rattle.gitconf_glob.specs.Counted.{among};
ghost use Rattle.gitconf_glob.specs.Cursor.{passed, one_of};

/// A class of bytes that a bracket names, such as `[:alpha:]`.
#[derive(Clone, Copy)]
pub enum Class {
    Alnum,
    Alpha,
    Blank,
    Cntrl,
    Digit,
    Graph,
    Lower,
    Print,
    Punct,
    Space,
    Upper,
    Xdigit,
}

/// A member of a bracket: a byte, the bytes from one to another, or a class.
#[derive(Clone, Copy)]
pub enum Member {
    Byte(u8),
    Range(u8, u8),
    Named(Class),
}

impl Class {
    ghost use Rattle.std.specs.Prelude.{◌≡◌};
    ghost use Rattle.gitconf_glob.specs.Bracket as spec;

    /// Whether the byte is of the class.
    fn has(self, b: u8) -> bool
        ensures { result ≡ spec.is_in_class self b }
    {
        match self {
            Class::Alnum => b.is_ascii_alphanumeric(),
            Class::Alpha => b.is_ascii_alphabetic(),
            Class::Blank => b == b' ' || b == b'\t',
            Class::Cntrl => b.is_ascii_control(),
            Class::Digit => b.is_ascii_digit(),
            Class::Graph => b.is_ascii_graphic(),
            Class::Lower => b.is_ascii_lowercase(),
            Class::Print => b == b' ' || b.is_ascii_graphic(),
            Class::Punct => b.is_ascii_punctuation(),
            Class::Space => is_between(b'\t', b'\r', b) || b == b' ',
            Class::Upper => b.is_ascii_uppercase(),
            Class::Xdigit => b.is_ascii_hexdigit(),
        }
    }

    /// The class of that name.
    fn named(name: &[u8]) -> Option<Class>
        ensures { result ≡ spec.class_named name.now }
    {
        if name == b"alnum".as_slice() {
            Some(Class::Alnum)
        } else if name == b"alpha".as_slice() {
            Some(Class::Alpha)
        } else if name == b"blank".as_slice() {
            Some(Class::Blank)
        } else if name == b"cntrl".as_slice() {
            Some(Class::Cntrl)
        } else if name == b"digit".as_slice() {
            Some(Class::Digit)
        } else if name == b"graph".as_slice() {
            Some(Class::Graph)
        } else if name == b"lower".as_slice() {
            Some(Class::Lower)
        } else if name == b"print".as_slice() {
            Some(Class::Print)
        } else if name == b"punct".as_slice() {
            Some(Class::Punct)
        } else if name == b"space".as_slice() {
            Some(Class::Space)
        } else if name == b"upper".as_slice() {
            Some(Class::Upper)
        } else if name == b"xdigit".as_slice() {
            Some(Class::Xdigit)
        } else {
            None
        }
    }
}

/// Whether at least one of two is true.
pub(crate) fn either(a: bool, b: bool) -> bool
    ensures { result ≡ (a || b) }
{
    a || b
}

/// Whether the byte is from one to another, both included.
fn is_between(low: u8, high: u8, b: u8) -> bool
    ensures { result ≡ spec.is_between low high b }
{
    low <= b && b <= high
}

impl Member {
    ghost use Rattle.std.specs.Prelude.{◌≡◌};
    ghost use Rattle.gitconf_glob.specs.Bracket as spec;

    /// Whether the byte is the member, or in its range or class.
    fn is_of(self, b: u8) -> bool
        ensures { result ≡ spec.is_of b self }
    {
        match self {
            Member::Byte(byte) => b == byte,
            Member::Range(low, high) => is_between(low, high, b),
            Member::Named(class) => class.has(b),
        }
    }

    /// Whether the member takes the byte. If case is ignored, it may take the byte's lower or upper form instead.
    pub fn has(self, ignore_case: bool, b: u8) -> bool
        ensures { result ≡ spec.has ignore_case self b }
    {
        if ignore_case {
            self.is_of(b.to_ascii_lowercase()) || self.is_of(b.to_ascii_uppercase())
        } else {
            self.is_of(b)
        }
    }
}

/// Whether a bracket takes the byte. `among` says whether the byte is one of its members.
pub fn lets_in(negated: bool, among: bool, b: u8) -> bool
    ensures { result ≡ spec.lets_in negated among b }
{
    b != b'/' && if negated { !among } else { among }
}

/// The offset of the first `]`.
#[tactic(auto, unfolding(crate::specs::Counted::close_from))]
fn find_close(text: &[u8]) -> Option<usize>
    ensures { result ≡ counted.close_from 0 text.now }
{
    let mut i = 0;
    while i < text.len() {
        if text[i] == b']' {
            return Some(i);
        }
        i += 1;
    }
    None
}

/// The offset of the first `]`, given its offset when `passed` bytes come before the text.
fn count_anew(passed: usize, text: &[u8], close: Option<usize>) -> Option<usize>
    requires { close ≡ counted.close_from passed text.now }
    ensures { result ≡ counted.close_from 0 text.now }
{
    match close {
        Some(n) => Some(n - passed),
        None => None,
    }
}

/// The offset of the first `]` of a byte and a text. `behind` is its offset in the text alone.
pub fn close_with(first: u8, rest: &[u8], behind: Option<usize>) -> Option<usize>
    requires { behind ≡ counted.close_from 0 rest.now }
    ensures { result ≡ counted.close_from 0 (first ∷ rest.now) }
{
    if first == b']' {
        return Some(0);
    }
    match behind {
        Some(n) => Some(n + 1),
        None => None,
    }
}

/// The offset of the first `]` after the first `more` bytes, given the offset of the first one of all. It searches
/// only if that one is among those bytes.
fn close_past(text: &[u8], more: usize, close: Option<usize>) -> Option<usize>
    requires within { more ≤ length text.now }
    requires close { close ≡ counted.close_from 0 text.now }
    ensures { result ≡ counted.close_from 0 (drop more text.now) }
{
    let rest = &text[more..];
    match close {
        Some(n) => {
            if n < more {
                find_close(rest)
            } else {
                count_anew(more, rest, close)
            }
        }
        None => None,
    }
}

/// How many bytes the name between `[:` and `:]` has, read after `[:`; a `:` directly before the first `]` is needed.
fn name_length(text: &[u8], close: Option<usize>) -> Option<usize>
    requires { close ≡ counted.close_from 0 text.now }
    ensures value { result ≡ counted.name_length text.now }
    ensures within { IfSome result (λ n. n + 2 ≤ length text.now) }
{
    match close {
        Some(n) => {
            if n > 0 && text[n - 1] == b':' {
                Some(n - 1)
            } else {
                None
            }
        }
        None => None,
    }
}

/// The byte that comes first, or the one after a backslash; and how many bytes it has after its first one.
fn literal(text: &[u8]) -> Option<(u8, usize)>
    ensures value { result ≡ counted.literal text.now }
    ensures within { IfSome result (λ r. r.1 < length text.now) }
{
    match text {
        [b'\\', b, ..] => Some((*b, 1)),
        [b'\\'] | [] => None,
        [b, ..] => Some((*b, 0)),
    }
}

/// Whether a `-` comes first, and after it a byte other than `]`.
fn goes_on(text: &[u8]) -> bool
    ensures value { result ≡ counted.goes_on text.now }
{
    match text {
        [b'-', b, ..] => *b != b']',
        _ => false,
    }
}

/// A byte or a range, and how many bytes it has after its first one.
fn byte_or_range(text: &[u8]) -> Option<(Member, usize)>
    ensures value { result ≡ counted.byte_or_range text.now }
    ensures within { IfSome result (λ r. r.1 < length text.now) }
{
    let (low, more) = literal(text)?;
    if !goes_on(&text[more + 1..]) {
        return Some((Member::Byte(low), more));
    }
    let (high, rest) = literal(&text[more + 2..])?;
    Some((Member::Range(low, high), more + 2 + rest))
}

/// How many bytes the name of a class has, if a class comes first.
fn class_length(text: &[u8], close: Option<usize>) -> Option<usize>
    requires { close ≡ counted.close_from 0 text.now }
    ensures value { result ≡ counted.class_length text.now }
    ensures within { IfSome result (λ n. n + 4 ≤ length text.now) }
{
    match text {
        [b'[', b':', rest @ ..] => name_length(rest, count_anew(2, rest, close)),
        _ => None,
    }
}

/// The member that comes first, and how many bytes it has after its first one. There is none if a byte is missing, or
/// for an unknown class. `close` is the offset of the first `]`. It takes a step for each byte of the member.
#[tactic(auto, unfolding(crate::specs::Counted::member))]
pub fn read_member(text: &[u8], close: Option<usize>) -> Option<(Member, usize)>
    requires { close ≡ counted.close_from 0 text.now }
    ensures value { result ≡ counted.member text.now }
    ensures within { IfSome result (λ r. r.1 < length text.now) }
{
    match class_length(text, close) {
        Some(n) => {
            let class = Class::named(&text[2..n + 2])?;
            Some((Member::Named(class), n + 3))
        }
        None => byte_or_range(text),
    }
}

/// Whether `]` comes first.
pub fn begins_close(text: &[u8]) -> bool
    ensures { result ≡ counted.begins_close text.now }
{
    match text {
        [b, ..] => *b == b']',
        [] => false,
    }
}

/// Whether a byte ends the bracket: a `]` that is not its first member.
fn closes(b: u8, first: bool) -> bool
    ensures { result ≡ (b == 93 && not first) }
{
    b == b']' && !first
}

/// Whether the byte is one of the members that come first, and how many bytes they have with their `]`. There are none
/// if the bracket takes nothing. Each byte is read once, and once more in the search for the `]` after a class.
#[tactic(auto, unfolding(crate::specs::Counted::members))]
fn find_among(ignore_case: bool, text: &[u8], b: u8) -> Option<(bool, usize)>
    ensures value { result ≡ among ignore_case b (counted.members true 0 text.now) }
    ensures within { IfSome result (λ r. r.1 ≤ length text.now) }
{
    let mut close = find_close(text);
    let mut has = false;
    let mut i = 0;
    while i < text.len() {
        if closes(text[i], i == 0) {
            return Some((has, i + 1));
        }
        let rest = &text[i..];
        let (member, more) = read_member(rest, close)?;
        has = either(has, member.has(ignore_case, b));
        close = close_past(rest, more + 1, close);
        i += more + 1;
    }
    None
}

/// Whether `!` or `^` comes first.
pub fn negates(text: &[u8]) -> bool
    ensures { result ≡ spec.negates text.now }
{
    match text {
        [b, ..] => *b == b'!' || *b == b'^',
        [] => false,
    }
}

/// How many bytes come before the members of a bracket: 1 after `!` or `^`, otherwise 0.
pub fn members_begin(text: &[u8]) -> usize
    ensures value { result ≡ counted.members_begin text.now }
    ensures within { result ≤ length text.now }
{
    if negates(text) { 1 } else { 0 }
}

/// How many bytes a bracket has after its `[`, if it takes the byte. It takes no memory, and a few steps for each
/// of its bytes.
pub fn bracket_passed(ignore_case: bool, text: &[u8], b: u8) -> Option<usize>
    ensures value { result ≡ passed ignore_case (one_of text.now) b }
    ensures within { IfSome result (λ n. n ≤ length text.now) }
{
    let begin = members_begin(text);
    let (among, length) = find_among(ignore_case, &text[begin..], b)?;
    if lets_in(negates(text), among, b) {
        Some(begin + length)
    } else {
        None
    }
}
