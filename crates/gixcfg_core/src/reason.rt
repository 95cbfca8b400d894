//! What is wrong where the parser stopped.
ghost use Rattle.std.specs.Prelude.{◌≡◌, ◌≤◌, length};
ghost use Rattle.gixcfg_core.specs.Line.{first_line as first_line_lem};
ghost use Rattle.gixcfg_core.specs.Reason.{bytes_before_fault as bytes_before_fault_lem, ended as ended_lem, escape_len as escape_len_lem, opened_at as opened_at_lem, stop_at as stop_at_lem, stopped as stopped_lem, wrong_from, name_of as name_of_lem, next_of as next_of_lem, of_brackets as of_brackets_lem, of_header as of_header_lem, of_name as of_name_lem, of_value as of_value_lem, reason_of as reason_of_lem, told_by as told_by_lem, wanted as wanted_lem, words_of as words_of_lem};
ghost use Rattle.gixcfg_core.specs.declared.reason.State.TheVariants.{Escape, Plain, Quoted};

use bstr::ByteSlice;

/// What was looked for where reading stopped.
#[derive(Clone, Copy)]
pub enum Wanted {
    /// The header of a section.
    Header,
    /// The name of a value.
    Name,
    /// A value.
    Value,
}

/// Why it isn't there.
#[derive(Clone, Copy)]
pub enum Reason {
    /// A carriage return stands without a line feed.
    LoneReturn,
    /// A name has another byte than it may, or something else than `=` after it.
    NoNameByte,
    /// A name is missing: that of a value, or a header's.
    NoName,
    /// A header has its bracket, and isn't one all the same.
    NoHeader,
    /// A line begins as no line may.
    NoLine,
    /// A header's quote or bracket stays open.
    OpenHeader,
    /// A header's bracket stays open.
    OpenBracket,
    /// A value's quote stays open.
    OpenQuote,
    /// A backslash in a value comes before what can't follow it.
    NoEscape,
}

impl Reason {
    /// The reason in words.
    pub fn words(self) -> &'static str
        ensures { result.now ≡ words_of_lem self }
    {
        match self {
            Reason::LoneReturn => "a carriage return without a line feed",
            Reason::NoNameByte => {
                "a name begins with a letter, has letters, digits and - alone, and = or the end of the line after it"
            }
            Reason::NoName => "the name is missing",
            Reason::NoHeader => {
                "it is [NAME] or [NAME \"SUBSECTION\"], the name of letters, digits, - and ."
            }
            Reason::NoLine => "a line begins with a letter, [, # or ;",
            Reason::OpenHeader => "the quote or the bracket is never closed",
            Reason::OpenBracket => "the bracket is never closed",
            Reason::OpenQuote => "the quote is never closed",
            Reason::NoEscape => {
                "a backslash may only come before n, t, b, \\, \" and the end of a line"
            }
        }
    }
}

/// What was looked for: what the parser says, but a header if a bracket is there.
pub fn wanted_of(kind: &str, rest: &[u8]) -> Wanted
    ensures { result ≡ wanted_lem kind.now rest.now }
{
    match kind {
        "value" => Wanted::Value,
        "name" if !rest.starts_with(b"[") => Wanted::Name,
        _ => Wanted::Header,
    }
}

/// What it is called.
pub fn name_of(wanted: Wanted) -> &'static str
    ensures { result.now ≡ name_of_lem wanted }
{
    match wanted {
        Wanted::Header => "not a section header",
        Wanted::Name => "not a name",
        Wanted::Value => "not a value",
    }
}

/// What is wrong with it, if that can be said.
pub fn reason_of(wanted: Wanted, rest: &[u8]) -> Option<Reason>
    ensures { result ≡ reason_of_lem wanted rest.now }
{
    match wanted {
        Wanted::Header => reason_of_header(rest),
        Wanted::Name => Some(reason_of_name(rest)),
        Wanted::Value => reason_of_value(rest),
    }
}

/// What is wrong with a name: what stands where it can't go on.
fn reason_of_name(rest: &[u8]) -> Reason
    ensures { result ≡ of_name_lem rest.now }
{
    match rest {
        [b'\r', ..] => Reason::LoneReturn,
        [b'=', ..] => Reason::NoName,
        _ => Reason::NoNameByte,
    }
}

/// What is wrong with a header: how it begins, or how its line ends.
fn reason_of_header(rest: &[u8]) -> Option<Reason>
    ensures { result ≡ of_header_lem rest.now }
{
    match rest {
        [b'[', b']', ..] => Some(Reason::NoName),
        [b'[', ..] => Some(reason_of_brackets(rest)),
        [b'\r', ..] => Some(Reason::LoneReturn),
        _ => Some(Reason::NoLine),
    }
}

/// What is wrong with a header that begins with a bracket.
fn reason_of_brackets(rest: &[u8]) -> Reason
    ensures { result ≡ of_brackets_lem rest.now }
{
    let line = first_line(rest);
    if line.contains(&b']') {
        Reason::NoHeader
    } else if line.contains(&b'"') {
        Reason::OpenHeader
    } else {
        Reason::OpenBracket
    }
}

/// A text up to its first line feed.
fn first_line(text: &[u8]) -> &[u8]
    ensures { result.now ≡ first_line_lem text.now }
{
    match text.find_byte(b'\n') {
        Some(end) => text.split_at(end).0,
        None => text,
    }
}

/// Where a value is read.
#[derive(Clone, Copy)]
enum State {
    /// Outside of quotes.
    Plain,
    /// Between quotes.
    Quoted,
    /// Behind a backslash, in quotes or not.
    Escape(bool),
    /// After a carriage return that follows a backslash.
    Return(bool),
    /// At the end, for this reason.
    Stopped(Reason),
}

/// What is wrong with a value.
fn reason_of_value(rest: &[u8]) -> Option<Reason>
    ensures { result ≡ of_value_lem rest.now }
{
    told_by(
        rest.iter()
            .fold(State::Plain, |state, byte| next_of(state, *byte)),
    )
}

/// How many bytes come before what is wrong with what was looked for: of a value the backslash that nothing may follow, or the quote
/// that is never closed. Anything else is wrong as a whole.
pub fn bytes_before_fault(wanted: Wanted, rest: &[u8]) -> usize
    ensures count { result ≡ bytes_before_fault_lem wanted rest.now }
    ensures within { result ≤ length rest.now }
{
    match wanted {
        Wanted::Value if reason_of_value(rest).is_some() => place_of_fault(rest),
        _ => 0,
    }
}

/// Where that stands in a value which is wrong with it.
#[tactic(auto, unfolding(crate::specs::Reason::wrong_from))]
fn place_of_fault(value: &[u8]) -> usize
    ensures place { result ≡ wrong_from 0 0 Plain value.now }
    ensures within { result ≤ length value.now }
{
    let (mut state, mut opened, mut here) = (State::Plain, 0usize, 0usize);
    while here < value.len() {
        let byte = value[here];
        let next = next_of(state, byte);
        if let Some(reason) = stopped(next) {
            return stop_at(reason, escape_len(state), here, opened);
        }
        opened = opened_at(state, byte, here, opened);
        state = next;
        here += 1;
    }
    opened
}

/// Why reading stops, if it does.
fn stopped(state: State) -> Option<Reason>
    ensures { result ≡ stopped_lem state }
{
    match state {
        State::Stopped(reason) => Some(reason),
        _ => None,
    }
}

/// How many bytes an escape has that is being read.
fn escape_len(state: State) -> usize
    ensures { result ≡ escape_len_lem state }
{
    match state {
        State::Escape(_) => 1,
        State::Return(_) => 2,
        _ => 0,
    }
}

/// Where the quote stands that was opened last: here, if this byte opens one.
fn opened_at(state: State, byte: u8, here: usize, opened: usize) -> usize
    ensures place { result ≡ opened_at_lem state byte here opened }
{
    match state {
        State::Plain if byte == b'"' => here,
        _ => opened,
    }
}

/// Where that stands for which reading stops: an escape that is none begins with its backslash.
fn stop_at(reason: Reason, escape: usize, here: usize, opened: usize) -> usize
    ensures place { result ≡ stop_at_lem reason escape here opened }
{
    match reason {
        Reason::NoEscape => here.saturating_sub(escape),
        _ => opened,
    }
}

/// Why a value isn't one, from where its reading is at its end.
fn told_by(state: State) -> Option<Reason>
    ensures { result ≡ told_by_lem state }
{
    match state {
        State::Stopped(reason) => Some(reason),
        State::Quoted | State::Escape(true) | State::Return(true) => Some(Reason::OpenQuote),
        State::Plain | State::Escape(false) | State::Return(false) => None,
    }
}

/// Where reading of a value is after one more byte.
fn next_of(state: State, byte: u8) -> State
    ensures { result ≡ next_of_lem state byte }
{
    match state {
        State::Plain => next_of_plain(byte),
        State::Quoted => next_of_quoted(byte),
        State::Escape(quoted) => next_of_escape(quoted, byte),
        State::Return(quoted) if byte == b'\n' => ended(quoted),
        State::Return(_) => State::Stopped(Reason::NoEscape),
        State::Stopped(_) => state,
    }
}

/// Where reading of a value is after a byte outside of quotes.
fn next_of_plain(byte: u8) -> State
    ensures { result ≡ next_of_lem Plain byte }
{
    match byte {
        b'"' => State::Quoted,
        b'\\' => State::Escape(false),
        _ => State::Plain,
    }
}

/// Where reading of a value is after a byte between quotes.
fn next_of_quoted(byte: u8) -> State
    ensures { result ≡ next_of_lem Quoted byte }
{
    match byte {
        b'"' => State::Plain,
        b'\\' => State::Escape(true),
        b'\n' => State::Stopped(Reason::OpenQuote),
        _ => State::Quoted,
    }
}

/// Where reading of a value is after a backslash and a byte.
fn next_of_escape(quoted: bool, byte: u8) -> State
    ensures { result ≡ next_of_lem (Escape quoted) byte }
{
    match byte {
        b'n' | b't' | b'b' | b'\\' | b'"' | b'\n' => ended(quoted),
        b'\r' => State::Return(quoted),
        _ => State::Stopped(Reason::NoEscape),
    }
}

/// Where reading of a value is after an escape.
fn ended(quoted: bool) -> State
    ensures { result ≡ ended_lem quoted }
{
    if quoted { State::Quoted } else { State::Plain }
}
