//! Tokens that borrow their bytes.
ghost use Rattle.std.specs.Prelude.{◌≡◌, ◌-◌, ◌<◌, ◌^◌, min, length, option_copied, IfOk};
ghost use Rattle.bstr.specs.Owned.{bstring_bytes};
ghost use Rattle.gitconf_items.specs.EventRef as spec;
ghost use Rattle.gitconf_items.specs.Sink.{Writes, Counts};
ghost use Rattle.gitconf_items.specs.EventRef.{ShownHeader, shown, lossy_text, written, escaped_subsection, written_subsection};

use crate::sink::{Sink, SinkFault, write_all};
use bstr::{BStr, BString, ByteSlice};
use gitconf_text::NoMemory;
use std::alloc::Global;
use std::fmt;
use std::fmt::Write;

/// A token of a text, with its bytes.
#[derive(Clone, Copy, Debug, PartialEq, Eq, PartialOrd, Ord, Hash)]
pub enum EventRef<'a> {
    /// A comment: `;` or `#`, and the text after it.
    Comment {
        tag: u8,
        text: &'a [u8],
    },
    /// A section's header.
    SectionHeader {
        /// The section's name, as spelled.
        name: &'a [u8],
        /// What is between name and subsection: a dot, or whitespace.
        separator: Option<&'a [u8]>,
        /// The subsection, without quotes and backslashes.
        subsection_name: Option<&'a [u8]>,
    },
    /// The name of a value.
    SectionValueName(&'a [u8]),
    /// A value on one line, with its quotes and backslashes.
    Value(&'a [u8]),
    /// One or more line endings.
    Newline(&'a [u8]),
    /// A piece of a value other than the last one, without the backslash after it.
    ValueNotDone(&'a [u8]),
    /// The last piece of a value of several pieces.
    ValueDone(&'a [u8]),
    /// Spaces and tabs.
    Whitespace(&'a [u8]),
    /// The `=` between a name and its value.
    KeyValueSeparator,
}

impl<'a> EventRef<'a> {
    /// The one text that stands for the token: a header's name, a comment without its mark, `=`, otherwise the bytes.
    pub fn to_bstr_lossy(&self) -> &'a [u8]
        ensures { result.now ≡ lossy_text (shown self.now) }
    {
        match *self {
            EventRef::Comment { tag: _, text } => text,
            EventRef::SectionHeader {
                name,
                separator: _,
                subsection_name: _,
            } => name,
            EventRef::SectionValueName(bytes)
            | EventRef::Value(bytes)
            | EventRef::Newline(bytes)
            | EventRef::ValueNotDone(bytes)
            | EventRef::ValueDone(bytes)
            | EventRef::Whitespace(bytes) => bytes,
            EventRef::KeyValueSeparator => b"=",
        }
    }

    /// Writes the token as a text has it.
    ///
    /// After an unfinished piece of a value its backslash is written. A header's subsection is written with its separator:
    /// after a dot as it is, otherwise in quotes, with a backslash before each `"` and `\`.
    ///
    /// It takes no memory of its own.
    ///
    /// # Errors
    ///
    /// A write failed, or took nothing. It is not tried again, and a beginning of the token may have been written.
    #[tactic(auto, using(crate::proofs::SinkLaws::in_turn))]
    pub fn write_to<W: Sink>(&self, out: &mut W) -> Result<(), SinkFault>
        ensures written { Writes result (written (shown self.now)) (W.told out.old) (W.told out.new) }
        ensures counted { Counts result (W.faults out.old) (W.faults out.new) }
    {
        match *self {
            EventRef::Comment { tag, text } => {
                write_all(out, &[tag])?;
                write_all(out, text)
            }
            EventRef::SectionHeader {
                name,
                separator,
                subsection_name,
            } => write_header(out, name, separator, subsection_name),
            EventRef::ValueNotDone(bytes) => {
                write_all(out, bytes)?;
                write_all(out, b"\\")
            }
            EventRef::SectionValueName(bytes)
            | EventRef::Value(bytes)
            | EventRef::Newline(bytes)
            | EventRef::ValueDone(bytes)
            | EventRef::Whitespace(bytes) => write_all(out, bytes),
            EventRef::KeyValueSeparator => write_all(out, b"="),
        }
    }

    /// The token as a text has it, as `write_to` writes it.
    ///
    /// It reserves memory once.
    ///
    /// # Errors
    ///
    /// Out of memory.
    pub fn to_bstring(&self, alloc: Global) -> Result<BString, NoMemory>
        ensures { IfOk result (λ text. bstring_bytes text ≡ written (shown self.now)) }
    {
        let mut text = Vec::with_capacity(alloc, self.written_len())?;
        match self.write_to(&mut text) {
            Ok(()) => Ok(BString::new(text)),
            Err(_) => Err(NoMemory),
        }
    }

    /// How many bytes `write_to` writes, or `usize::MAX` if there are more.
    #[tactic(auto, using(crate::proofs::Subsections::lengths))]
    fn written_len(&self) -> usize
        ensures { let len = length (written (shown self.now)) in len < 2 ^ 64 → result ≡ len }
    {
        match *self {
            EventRef::Comment { tag: _, text } => text.len().saturating_add(1),
            EventRef::SectionHeader {
                name,
                separator,
                subsection_name,
            } => header_len(name, separator, subsection_name),
            EventRef::ValueNotDone(bytes) => bytes.len().saturating_add(1),
            EventRef::SectionValueName(bytes)
            | EventRef::Value(bytes)
            | EventRef::Newline(bytes)
            | EventRef::ValueDone(bytes)
            | EventRef::Whitespace(bytes) => bytes.len(),
            EventRef::KeyValueSeparator => 1,
        }
    }
}

/// The text of `write_to`, with U+FFFD for what isn't UTF-8.
///
/// A comment's mark and its text, and a header's name, separator and subsection, are decoded one by one.
impl fmt::Display for EventRef<'_> {
    fn fmt<W: fmt::Write>(&self, f: &mut fmt::Formatter<W>) -> fmt::Result {
        match *self {
            EventRef::Comment { tag, text } => {
                show(&[tag], f)?;
                show(text, f)
            }
            EventRef::SectionHeader {
                name,
                separator,
                subsection_name,
            } => show_header(name, separator, subsection_name, f),
            EventRef::ValueNotDone(bytes) => {
                show(bytes, f)?;
                f.write_char('\\')
            }
            EventRef::SectionValueName(bytes)
            | EventRef::Value(bytes)
            | EventRef::Newline(bytes)
            | EventRef::ValueDone(bytes)
            | EventRef::Whitespace(bytes) => show(bytes, f),
            EventRef::KeyValueSeparator => f.write_char('='),
        }
    }
}

fn show<W: fmt::Write>(bytes: &[u8], f: &mut fmt::Formatter<W>) -> fmt::Result {
    let text = BStr::new(bytes);
    write!(f, "{text}")
}

fn show_header<W: fmt::Write>(
    name: &[u8],
    separator: Option<&[u8]>,
    subsection: Option<&[u8]>,
    f: &mut fmt::Formatter<W>,
) -> fmt::Result {
    f.write_char('[')?;
    show(name, f)?;
    if let (Some(separator), Some(subsection)) = (separator, subsection) {
        show_subsection(separator, subsection, f)?;
    }
    f.write_char(']')
}

fn show_subsection<W: fmt::Write>(
    separator: &[u8],
    subsection: &[u8],
    f: &mut fmt::Formatter<W>,
) -> fmt::Result {
    show(separator, f)?;
    if separator == b".".as_slice() {
        return show(subsection, f);
    }
    f.write_char('"')?;
    for ch in subsection.chars() {
        if ch == '"' || ch == '\\' {
            f.write_char('\\')?;
        }
        f.write_char(ch)?;
    }
    f.write_char('"')
}

/// How many bytes `write_header` writes, or `usize::MAX` if there are more.
#[tactic(auto, using(crate::proofs::Subsections::lengths))]
fn header_len(name: &[u8], separator: Option<&[u8]>, subsection: Option<&[u8]>) -> usize
    ensures { let len = length (written (ShownHeader name.now (option_copied separator.entry) (option_copied subsection.entry))) in
        len < 2 ^ 64 → result ≡ len }
{
    let brackets_and_name = name.len().saturating_add(2);
    match (separator, subsection) {
        (Some(separator), Some(subsection)) => {
            brackets_and_name.saturating_add(subsection_len(separator, subsection))
        }
        _ => brackets_and_name,
    }
}

/// How many bytes `write_subsection` writes, or `usize::MAX` if there are more.
#[tactic(auto, using(crate::proofs::Subsections::lengths))]
fn subsection_len(separator: &[u8], subsection: &[u8]) -> usize
    ensures { let len = length (written_subsection separator.now subsection.now) in len < 2 ^ 64 → result ≡ len }
{
    if separator == b".".as_slice() {
        return separator.len().saturating_add(subsection.len());
    }
    let quotes_and_separator = separator.len().saturating_add(2);
    quotes_and_separator.saturating_add(escaped_subsection_len(subsection))
}

/// How many bytes a subsection has when it is spelled in quotes. The quotes don't count. It is `usize::MAX` if there are
/// more.
///
/// It reads the subsection once and takes no memory.
#[tactic(auto, using(crate::proofs::Subsections::lengths))]
pub fn escaped_subsection_len(subsection: &[u8]) -> usize
    ensures { result ≡ min (length (escaped_subsection subsection.now)) (2 ^ 64 - 1) }
{
    let backslashes = subsection.iter().filter(|b| needs_backslash(**b)).count();
    subsection.len().saturating_add(backslashes)
}

/// Whether the byte is written after a backslash in a quoted subsection.
fn needs_backslash(b: u8) -> bool
    ensures { result ≡ spec.needs_backslash b }
{
    b == b'"' || b == b'\\'
}

/// Writes a header in its brackets.
#[tactic(auto, using(crate::proofs::SinkLaws::in_turn))]
fn write_header<W: Sink>(
    out: &mut W,
    name: &[u8],
    separator: Option<&[u8]>,
    subsection: Option<&[u8]>,
) -> Result<(), SinkFault>
    ensures written { Writes result (written (ShownHeader name.now (option_copied separator.entry) (option_copied subsection.entry)))
        (W.told out.old) (W.told out.new) }
    ensures counted { Counts result (W.faults out.old) (W.faults out.new) }
{
    write_all(out, b"[")?;
    write_all(out, name)?;
    if let (Some(separator), Some(subsection)) = (separator, subsection) {
        write_subsection(out, separator, subsection)?;
    }
    write_all(out, b"]")
}

/// Writes a subsection after its separator: after a dot as it is, otherwise in quotes.
#[tactic(auto, using(crate::proofs::SinkLaws::in_turn))]
fn write_subsection<W: Sink>(
    out: &mut W,
    separator: &[u8],
    subsection: &[u8],
) -> Result<(), SinkFault>
    ensures written { Writes result (written_subsection separator.now subsection.now) (W.told out.old) (W.told out.new) }
    ensures counted { Counts result (W.faults out.old) (W.faults out.new) }
{
    write_all(out, separator)?;
    if separator == b".".as_slice() {
        return write_all(out, subsection);
    }
    write_all(out, b"\"")?;
    write_escaped_subsection(out, subsection)?;
    write_all(out, b"\"")
}

/// Writes a subsection as it is spelled in quotes: a backslash before each `"` and `\`.
///
/// It takes no memory of its own and reads the subsection once.
///
/// # Errors
///
/// A write failed, or took nothing. It is not tried again, and a beginning of the spelling may have been written.
pub fn write_escaped_subsection<W: Sink>(out: &mut W, subsection: &[u8]) -> Result<(), SinkFault>
    ensures written { Writes result (escaped_subsection subsection.now) (W.told out.old) (W.told out.new) }
    ensures counted { Counts result (W.faults out.old) (W.faults out.new) }
{
    // The bytes before `done` are written.
    let mut done = 0;
    for (i, b) in subsection.iter().enumerate() {
        if needs_backslash(*b) {
            write_all(out, &subsection[done..i])?;
            write_all(out, &[b'\\', *b])?;
            done = i + 1;
        }
    }
    write_all(out, &subsection[done..])
}
