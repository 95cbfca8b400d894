//! Events as the parser makes them: kinds with spans of the text.
ghost use Rattle.std.specs.Prelude.{◌≡◌, ◌≤◌, ◌<◌, ◌-◌, ◌^◌};
ghost use Rattle.gitconf_items.specs.Sections.{is_header_event};

use gitconf_text::NoMemory;
use gitconf_text::parse::span;

/// A part of a buffer: where it begins, and how many bytes it has.
#[derive(Clone, Copy, Debug, Default, PartialEq, Eq)]
pub struct Span {
    /// The offset of its first byte.
    pub start: u32,
    /// Its length in bytes.
    pub len: u32,
}

impl Span {
    /// No bytes.
    pub const NOTHING: Span = Span { start: 0, len: 0 };

    /// The bytes from one offset up to another.
    pub fn between(from: usize, end: usize) -> Span
        requires ordered { from ≤ end }
        requires fits { end < 2 ^ 32 }
        ensures start { result.start ≡ from }
        ensures len { result.len ≡ end - from }
    {
        Span {
            start: from as u32,
            len: (end - from) as u32,
        }
    }
}

impl Span {
    ghost use Rattle.std.specs.Prelude.{◌≡◌, ◌↔◌, ◌+◌, ◌<◌, ◌^◌, IsOk, IfOk, IfErr};

    /// The span that begins at `start` and has `len` bytes.
    ///
    /// # Errors
    ///
    /// E3 if the offset or the length is past 4294967295.
    pub fn try_new(start: usize, len: usize) -> Result<Span, span::Error>
        ensures same { IfOk result (λ s. (s.start ≡ start) × (s.len ≡ len)) }
        ensures fits { IsOk result ↔ ((start < 2 ^ 32) × (len < 2 ^ 32)) }
        ensures too_large { IfErr result (λ e. e ≡ 3) }
    {
        if start > u32::MAX as usize || len > u32::MAX as usize {
            return Err(span::Error::too_large());
        }
        Ok(Span {
            start: start as u32,
            len: len as u32,
        })
    }

    /// The same bytes, after `by` others were put before them.
    ///
    /// # Errors
    ///
    /// E3 if the offset would be past 4294967295.
    pub fn moved(self, by: usize) -> Result<Span, span::Error>
        ensures same { IfOk result (λ s. (s.start ≡ self.start + by) × (s.len ≡ self.len)) }
        ensures fits { IsOk result ↔ (self.start + by < 2 ^ 32) }
        ensures too_large { IfErr result (λ e. e ≡ 3) }
    {
        match (self.start as usize).checked_add(by) {
            Some(start) => Span::try_new(start, self.len as usize),
            None => Err(span::Error::too_large()),
        }
    }
}

impl Span {
    ghost use Rattle.gitconf_items.specs.Events.{bytes_of};

    /// Its bytes in the buffer, as far as the buffer has them.
    #[inline(always)]
    #[tactic(auto, using(std::proofs::lemmas::List::take_min, std::proofs::lemmas::List::drop_all))]
    pub fn bytes_in(self, buffer: &[u8]) -> &[u8]
        ensures { result.now ≡ bytes_of buffer.now self }
    {
        let start = (self.start as usize).min(buffer.len());
        let behind = buffer.split_at(start).1;
        let len = (self.len as usize).min(behind.len());
        behind.split_at(len).0
    }
}

/// Where the decoded copy of a subsection is, in a buffer of such copies.
#[derive(Clone, Copy, Debug)]
pub struct Copied {
    /// The offset of its first byte.
    pub start: u32,
    /// Its length in bytes.
    pub len: u32,
}

impl Copied {
    ghost use Rattle.std.specs.Prelude.{◌≡◌, ◌≤◌, ◌-◌, length, IfOk};

    /// The copy that goes from an offset to the end.
    ///
    /// # Errors
    ///
    /// The end is past 4294967295, which counts as out of memory.
    pub fn behind(copies: &[u8], start: usize) -> Result<Copied, NoMemory>
        requires { start ≤ length copies.now }
        ensures start { IfOk result (λ c. c.start ≡ start) }
        ensures len { IfOk result (λ c. c.len ≡ length copies.now - start) }
    {
        if copies.len() > u32::MAX as usize {
            return Err(NoMemory);
        }
        Ok(Copied {
            start: start as u32,
            len: (copies.len() - start) as u32,
        })
    }
}

/// A section's header, by spans of its text.
#[derive(Clone, Copy, Debug)]
pub struct Header {
    /// The section's name, as spelled.
    pub name: Span,
    /// The dot, or the whitespace before the quote.
    pub separator: Option<Span>,
    /// What is after the dot, or between the quotes, as spelled.
    pub subsection: Option<Span>,
    /// The decoded subsection, if it isn't what is spelled.
    pub decoded: Option<Copied>,
}

/// A token of a text.
#[derive(Clone, Copy)]
pub enum Event {
    Comment { tag: u8, text: Span },
    SectionHeader(Header),
    SectionValueName(Span),
    Value(Span),
    Newline(Span),
    /// A piece of a value other than the last one, without the backslash after it.
    ValueNotDone(Span),
    ValueDone(Span),
    Whitespace(Span),
    KeyValueSeparator,
}

/// Whether the event is a header.
pub fn is_header(event: &Event) -> bool
    ensures { result ≡ is_header_event event.now }
{
    matches!(event, Event::SectionHeader(_))
}
