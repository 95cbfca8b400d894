//! Runs of a buffer's bytes, so that bytes that are side by side there are written at once.
ghost use Rattle.gitconf_text.specs.Part.{EntryItem, spelled_item};
ghost use Rattle.gitconf_text.specs.Header.{spelled_header};
ghost use Rattle.gitconf_items.specs.Items.{entry_of, item_of};
ghost use Rattle.gitconf_items.specs.Events.{header_of};
ghost use Rattle.gitconf_state.specs.Printing.{closed_item};
ghost use Rattle.gitconf_print.specs.Runs.{behind_name, run_of};
ghost use Rattle.std.specs.Prelude.{◌≡◌, ◌≤◌, List, ℕ, ◌++◌, ◌∷◌, [], IfSome};

use gitconf_items::entry::{AssignedRef, Entry};
use gitconf_items::event::{Header, Span};
use gitconf_items::items::Item;

/// A run of bytes: where it begins, and where it ends, one past its last byte.
#[derive(Clone, Copy)]
pub(crate) struct Run {
    start: usize,
    end: usize,
}

impl Run {
    ghost use Rattle.std.specs.Prelude.{◌≡◌, ◌≤◌, List, ℕ, ◌++◌, ◌∷◌, [], IfSome};
    ghost use Rattle.gitconf_items.specs.Events.{bytes_of};
    ghost use Rattle.gitconf_print.specs.Runs.{run_of};

    /// No bytes.
    pub(crate) fn none() -> Run
        ensures value { (buffer : List ℕ) → run_of buffer result ≡ [] }
        ensures ordered { result.start ≤ result.end }
    {
        Run { start: 0, end: 0 }
    }

    /// The bytes of a span.
    #[inline(always)]
    pub(crate) fn of(span: Span) -> Run
        ensures value { (buffer : List ℕ) → run_of buffer result ≡ bytes_of buffer span }
        ensures ordered { result.start ≤ result.end }
    {
        let start = span.start as usize;
        Run {
            start,
            end: start + span.len as usize,
        }
    }

    /// Its bytes in the buffer, as far as the buffer has them.
    pub(crate) fn bytes_in(self, buffer: &[u8]) -> &[u8]
        ensures { result.now ≡ run_of buffer.now self }
    {
        let start = self.start.min(buffer.len());
        let behind = buffer.split_at(start).1;
        let len = self.end.saturating_sub(self.start).min(behind.len());
        behind.split_at(len).0
    }

    /// Both runs as one, if the other directly follows this one.
    #[inline(always)]
    pub(crate) fn joined(self, other: Run) -> Option<Run>
        requires mine { self.start ≤ self.end }
        requires others { other.start ≤ other.end }
        ensures value { IfSome result (λ r. (buffer : List ℕ) → run_of buffer r ≡ run_of buffer self ++ run_of buffer other) }
        ensures ordered { IfSome result (λ r. r.start ≤ r.end) }
    {
        if self.end != other.start {
            return None;
        }
        Some(Run {
            start: self.start,
            end: other.end,
        })
    }

    /// The run and a span as one, if the span directly follows it or has no bytes.
    #[inline(always)]
    fn with(self, span: Span) -> Option<Run>
        requires { self.start ≤ self.end }
        ensures value { IfSome result (λ r. (buffer : List ℕ) → run_of buffer r ≡ run_of buffer self ++ bytes_of buffer span) }
        ensures ordered { IfSome result (λ r. r.start ≤ r.end) }
    {
        if span.len == 0 {
            return Some(self);
        }
        self.joined(Run::of(span))
    }

    /// The run and the byte directly after it, if that is this byte.
    #[inline(always)]
    fn with_byte(self, buffer: &[u8], byte: u8) -> Option<Run>
        requires { self.start ≤ self.end }
        ensures value { IfSome result (λ r. run_of buffer.now r ≡ run_of buffer.now self ++ byte ∷ []) }
        ensures ordered { IfSome result (λ r. r.start ≤ r.end) }
    {
        if buffer.get(self.end).copied() != Some(byte) {
            return None;
        }
        Some(Run {
            start: self.start,
            end: self.end + 1,
        })
    }

    /// A byte and the span after it, if this byte is directly before the span.
    #[inline(always)]
    fn byte_before(buffer: &[u8], byte: u8, span: Span) -> Option<Run>
        ensures value { IfSome result (λ r. run_of buffer.now r ≡ byte ∷ bytes_of buffer.now span) }
        ensures ordered { IfSome result (λ r. r.start ≤ r.end) }
    {
        let start = (span.start as usize).checked_sub(1)?;
        Run { start, end: start }
            .with_byte(buffer, byte)?
            .joined(Run::of(span))
    }
}

/// A header as one run, if all its parts are side by side.
pub(crate) fn header_run(buffer: &[u8], header: &Header) -> Option<Run>
    ensures value { IfSome result (λ r. run_of buffer.now r ≡ spelled_header (header_of buffer.now header.now)) }
    ensures ordered { IfSome result (λ r. r.start ≤ r.end) }
{
    let name = Run::byte_before(buffer, b'[', header.name)?;
    subsection_run(buffer, name, header.separator, header.subsection)?.with_byte(buffer, b']')
}

/// The run and the subsection after it as one, if all parts are side by side.
fn subsection_run(
    buffer: &[u8],
    name: Run,
    separator: Option<Span>,
    subsection: Option<Span>,
) -> Option<Run>
    requires { name.start ≤ name.end }
    ensures value { IfSome result (λ r. run_of buffer.now r ≡ run_of buffer.now name ++ behind_name buffer.now separator subsection) }
    ensures ordered { IfSome result (λ r. r.start ≤ r.end) }
{
    match (separator, subsection) {
        (Some(separator), Some(subsection)) => {
            let run = name.with(separator)?;
            if separator.bytes_in(buffer) == b".".as_slice() {
                return run.with(subsection);
            }
            run.with_byte(buffer, b'"')?
                .with(subsection)?
                .with_byte(buffer, b'"')
        }
        _ => Some(name),
    }
}

/// An entry as one run, if its value has one piece and all its parts are side by side.
fn entry_run(buffer: &[u8], entry: &Entry) -> Option<Run>
    ensures value { IfSome result (λ r. (line_end : List ℕ) → run_of buffer.now r
        ≡ spelled_item (closed_item line_end (EntryItem (entry_of buffer.now entry.now)))) }
    ensures ordered { IfSome result (λ r. r.start ≤ r.end) }
{
    let key = Run::of(entry.name()).with(entry.blanks())?;
    match entry.assigned() {
        AssignedRef::Nothing => Some(key),
        AssignedRef::Plain { blanks, value } => key
            .with_byte(buffer, b'=')?
            .with(blanks)?
            .with(value),
        AssignedRef::Continued(_) => None,
    }
}

/// An item as one run, if it is printed as it is and all its parts are side by side.
pub(crate) fn item_run(buffer: &[u8], item: &Item) -> Option<Run>
    ensures value { IfSome result (λ r. (line_end : List ℕ) → run_of buffer.now r ≡ spelled_item (closed_item line_end (item_of buffer.now item.now))) }
    ensures ordered { IfSome result (λ r. r.start ≤ r.end) }
{
    match item {
        Item::Blanks(run) | Item::LineEnds(run) => Some(Run::of(*run)),
        Item::Comment { tag, text } => Run::byte_before(buffer, *tag, *text),
        Item::Entry(entry) => entry_run(buffer, entry),
    }
}
