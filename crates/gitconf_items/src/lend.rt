//! Events with their bytes, borrowed from the buffers that their spans are offsets of.
ghost use Rattle.std.specs.Prelude.{◌≡◌, ◌+◌, ◌≤◌, length};
ghost use Rattle.gitconf_items.specs.EventRef.{shown};
ghost use Rattle.std.specs.Option.{option_copied, option_map};
ghost use Rattle.gitconf_items.specs.Events.{bytes_of, EventFits, HeaderFits};
ghost use Rattle.gitconf_items.specs.ShownEvents as spec;
ghost use Rattle.gitconf_items.specs.ShownEvents.{decoded_or, shown_event, shown_header, CopyFits, EventCopyFits};

use crate::event::{Copied, Event, Header};
use crate::event_ref::EventRef;

fn copy(copies: &[u8], copied: Copied) -> &[u8]
    requires { copied.start + copied.len ≤ length copies.now }
    ensures { result.now ≡ spec.copied copies.now copied }
{
    copies
        .split_at(copied.start as usize)
        .1
        .split_at(copied.len as usize)
        .0
}

/// The decoded subsection of a header, if it has one; `copies` has the decoded subsections.
pub fn subsection_name<'a>(buffer: &'a [u8], copies: &'a [u8], header: &Header) -> Option<&'a [u8]>
    requires { CopyFits (length copies.now) header.now.decoded }
    ensures { option_copied result ≡ decoded_or copies.now header.now.decoded (option_map (bytes_of buffer.now) header.now.subsection) }
{
    match (header.decoded, header.subsection) {
        (Some(copied), _) => Some(copy(copies, copied)),
        (None, Some(span)) => Some(span.bytes_in(buffer)),
        (None, None) => None,
    }
}

#[inline(never)]
fn header_ref<'a>(buffer: &'a [u8], copies: &'a [u8], header: Header) -> EventRef<'a>
    requires fits { HeaderFits (length buffer.now) header }
    requires copy_fits { CopyFits (length copies.now) header.decoded }
    ensures { shown result ≡ shown_header buffer.now copies.now header }
{
    let separator = match header.separator {
        Some(span) => Some(span.bytes_in(buffer)),
        None => None,
    };
    let subsection_name = subsection_name(buffer, copies, &header);
    EventRef::SectionHeader {
        name: header.name.bytes_in(buffer),
        separator,
        subsection_name,
    }
}

/// An event with its bytes; `copies` has the decoded subsections.
#[inline(always)]
pub fn event_ref<'a>(buffer: &'a [u8], copies: &'a [u8], event: &Event) -> EventRef<'a>
    requires fits { EventFits (length buffer.now) event.now }
    requires copy_fits { EventCopyFits (length copies.now) event.now }
    ensures { shown result ≡ shown_event buffer.now copies.now event.now }
{
    match *event {
        Event::Comment { tag, text } => EventRef::Comment {
            tag,
            text: text.bytes_in(buffer),
        },
        Event::SectionHeader(header) => header_ref(buffer, copies, header),
        Event::SectionValueName(span) => EventRef::SectionValueName(span.bytes_in(buffer)),
        Event::Value(span) => EventRef::Value(span.bytes_in(buffer)),
        Event::Newline(span) => EventRef::Newline(span.bytes_in(buffer)),
        Event::ValueNotDone(span) => EventRef::ValueNotDone(span.bytes_in(buffer)),
        Event::ValueDone(span) => EventRef::ValueDone(span.bytes_in(buffer)),
        Event::Whitespace(span) => EventRef::Whitespace(span.bytes_in(buffer)),
        Event::KeyValueSeparator => EventRef::KeyValueSeparator,
    }
}
