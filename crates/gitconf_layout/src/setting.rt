//! One pass over the events of a text, which writes each.
ghost use Rattle.std.specs.Prelude.{◌≡◌, ◌++◌, Bool, OnOk, IfOk};
ghost use Rattle.gitconf_items.specs.EventRef.{shown, written};
ghost use Rattle.gitconf_parse.specs.EventIters.{events_left};
ghost use Rattle.gitconf_layout.specs.Layout as spec;
ghost use Rattle.gitconf_layout.specs.Setting as setting;

use crate::format::{Indent, Newline, Options};
use crate::place::{Before, Place};
use crate::trimming::without_cr;
use gitconf_items::event_ref::EventRef;
use gitconf_parse::events::EventIter;
use gitconf_text::NoMemory;
use std::alloc::Global;

/// The line ending of the first newline: CR and LF if it holds a CR, otherwise LF.
fn detected(events: EventIter<'_>) -> &'static [u8]
    ensures { result.now ≡ spec.detected (events_left events.entry) }
{
    let mut rest = events;
    while let Some(event) = rest.next() {
        if let EventRef::Newline(run) = event {
            return if run.contains(&b'\r') { b"\r\n" } else { b"\n" };
        }
    }
    b"\n"
}

/// The line ending of a layout: the one that is asked for, or that of the text.
pub fn line_end_of(newline: Newline, events: EventIter<'_>) -> &'static [u8]
    ensures { result.now ≡ spec.line_end_of newline (events_left events.entry) }
{
    match newline {
        Newline::Detect => detected(events),
        Newline::Lf => b"\n",
        Newline::CrLf => b"\r\n",
    }
}

fn begins_comment(rest: EventIter<'_>) -> bool
    ensures { result ≡ spec.begins_comment (events_left rest.entry) }
{
    let mut ahead = rest;
    matches!(ahead.next(), Some(EventRef::Comment { .. }))
}

fn begins_newline(rest: EventIter<'_>) -> bool
    ensures { result ≡ spec.begins_newline (events_left rest.entry) }
{
    let mut ahead = rest;
    matches!(ahead.next(), Some(EventRef::Newline(_)))
}

fn append(text: &mut Vec<u8>, bytes: &[u8]) -> Result<(), NoMemory>
    ensures { OnOk result (text.new.items ≡ text.old.items ++ bytes.now) }
{
    text.extend_from_slice(bytes)?;
    Ok(())
}

/// Writes a line ending, which is mostly one byte.
#[inline(always)]
fn append_line_end(text: &mut Vec<u8>, line_end: &[u8]) -> Result<(), NoMemory>
    ensures { OnOk result (text.new.items ≡ text.old.items ++ line_end.now) }
{
    match line_end {
        [byte] => text.push(*byte)?,
        _ => text.extend_from_slice(line_end)?,
    }
    Ok(())
}

fn append_times(text: &mut Vec<u8>, count: usize, byte: u8) -> Result<(), NoMemory>
    ensures { OnOk result (text.new.items ≡ text.old.items ++ setting.replicate count byte) }
{
    if count == 1 {
        text.push(byte)?;
        return Ok(());
    }
    match text.len().checked_add(count) {
        Some(len) => {
            text.resize(len, byte)?;
            Ok(())
        }
        None => Err(NoMemory),
    }
}

fn append_indent(text: &mut Vec<u8>, indent: Indent) -> Result<(), NoMemory>
    ensures { OnOk result (text.new.items ≡ text.old.items ++ spec.indent_text indent) }
{
    match indent {
        Indent::Tabs(count) => append_times(text, count, b'\t'),
        Indent::Spaces(count) => append_times(text, count, b' '),
    }
}

/// Writes what comes before a name.
fn begin_name(text: &mut Vec<u8>, place: Place, options: &Options) -> Result<(), NoMemory>
    ensures { OnOk result (text.new.items ≡ text.old.items ++ spec.before_name options.now place.in_section place.before) }
{
    match place.before {
        Before::Nothing if place.in_section => append_indent(text, options.key_value_indent),
        Before::Value => append(text, b" "),
        Before::Nothing | Before::Other => Ok(()),
    }
}

/// Writes what comes before a comment.
fn begin_comment(text: &mut Vec<u8>, place: Place, options: &Options) -> Result<(), NoMemory>
    ensures { OnOk result (text.new.items ≡ text.old.items ++ spec.before_comment options.now place.in_section place.before) }
{
    match place.before {
        Before::Nothing if place.in_section => append_indent(text, options.key_value_indent),
        Before::Nothing => match options.root_comment_indent {
            Some(indent) => append_indent(text, indent),
            None => Ok(()),
        },
        Before::Value | Before::Other => append(text, b" "),
    }
}

/// Whether blanks stay: at the start of a line, directly before a comment before the first header, if comments there keep their blanks.
fn keeps_blanks(rest: EventIter<'_>, place: Place, options: &Options) -> bool
    ensures { result ≡ spec.keeps_blanks options.now place.in_section place.before (events_left rest.entry) }
{
    options.root_comment_indent.is_none()
        && !place.in_section
        && matches!(place.before, Before::Nothing)
        && begins_comment(rest)
}

fn append_event(text: &mut Vec<u8>, event: &EventRef<'_>) -> Result<(), NoMemory>
    ensures { OnOk result (text.new.items ≡ text.old.items ++ written (shown event.now)) }
{
    match event.write_to(text) {
        Ok(()) => Ok(()),
        Err(_) => Err(NoMemory),
    }
}

/// Writes one token, which comes before `rest`. For a newline nothing is written.
fn set_token(
    text: &mut Vec<u8>,
    event: &EventRef<'_>,
    rest: EventIter<'_>,
    place: Place,
    options: &Options,
) -> Result<(), NoMemory>
    ensures { OnOk result (text.new.items ≡ text.old.items ++ spec.set_token options.now place.in_section place.before (shown event.now)
        (events_left rest.entry)) }
{
    match *event {
        EventRef::Newline(_) => Ok(()),
        EventRef::Whitespace(run) => {
            if keeps_blanks(rest, place, options) {
                append(text, run)?;
            }
            Ok(())
        }
        EventRef::SectionValueName(name) => {
            begin_name(text, place, options)?;
            append(text, name)
        }
        EventRef::KeyValueSeparator => {
            if options.spaces_around_separator {
                append(text, b" = ")
            } else {
                append(text, b"=")
            }
        }
        EventRef::Comment { tag, text: words } => {
            begin_comment(text, place, options)?;
            append(text, &[tag])?;
            if begins_newline(rest) {
                append(text, without_cr(words))
            } else {
                append(text, words)
            }
        }
        EventRef::SectionHeader { .. }
        | EventRef::Value(_)
        | EventRef::ValueNotDone(_)
        | EventRef::ValueDone(_) => append_event(text, event),
    }
}

impl Place {
    ghost use Rattle.std.specs.Prelude.{◌≡◌};
    ghost use Rattle.gitconf_items.specs.EventRef.{shown};
    ghost use Rattle.gitconf_layout.specs.Setting as setting;

    /// The place before the first token.
    fn first(options: &Options) -> Place
        ensures { result ≡ setting.first options.now }
    {
        Place {
            in_section: false,
            before: Before::Nothing,
            room: options.max_leading_blank_lines,
        }
    }

    /// The place after a token, before the lines that it ends.
    fn behind(self, event: &EventRef<'_>) -> Place
        ensures { result ≡ setting.behind_token self (shown event.now) }
    {
        Place {
            in_section: self.in_section || matches!(event, EventRef::SectionHeader { .. }),
            before: self.before.behind(event),
            room: self.room,
        }
    }

    /// Whether the line is blank and may not stay.
    fn is_dropped(self) -> bool
        ensures { result ≡ setting.is_dropped self }
    {
        matches!(self.before, Before::Nothing) && self.room == Some(0)
    }

    /// The place after the end of the line.
    fn on_next_line(self, options: &Options) -> Place
        ensures { result ≡ setting.on_next_line options.now self }
    {
        let room = match self.before {
            Before::Nothing => self.room.map(|left| left.saturating_sub(1)),
            Before::Value | Before::Other => options.max_consecutive_blank_lines,
        };
        Place {
            in_section: self.in_section,
            before: Before::Nothing,
            room,
        }
    }
}

/// The bytes of a newline; none for any other token.
fn line_ends_in<'a>(event: &EventRef<'a>) -> &'a [u8]
    ensures { result.now ≡ spec.line_ends_in (shown event.now) }
{
    match *event {
        EventRef::Newline(run) => run,
        EventRef::Comment { .. }
        | EventRef::SectionHeader { .. }
        | EventRef::SectionValueName(_)
        | EventRef::Value(_)
        | EventRef::ValueNotDone(_)
        | EventRef::ValueDone(_)
        | EventRef::Whitespace(_)
        | EventRef::KeyValueSeparator => b"",
    }
}

/// Ends a line for each LF of a run, and returns the place of the next token.
#[tactic(auto, unfolding(crate::specs::Setting::ends_text, crate::specs::Setting::ends_place))]
fn end_lines(
    text: &mut Vec<u8>,
    run: &[u8],
    start: Place,
    options: &Options,
    line_end: &[u8],
) -> Result<Place, NoMemory>
    ensures text { IfOk result (λ _. text.new.items ≡ text.old.items ++ setting.ends_text options.now line_end.now start run.now) }
    ensures place { IfOk result (λ place. place ≡ setting.ends_place options.now start run.now) }
{
    let mut place = start;
    for b in run {
        if *b == b'\n' {
            if !place.is_dropped() {
                append_line_end(text, line_end)?;
            }
            place = place.on_next_line(options);
        }
    }
    Ok(place)
}

/// The text of all events, one after the other.
#[tactic(auto, unfolding(crate::specs::Setting::set_tokens))]
pub fn set_tokens(
    alloc: Global,
    events: EventIter<'_>,
    options: &Options,
    line_end: &[u8],
) -> Result<Vec<u8>, NoMemory>
    ensures { IfOk result (λ text. text.items ≡ setting.set_tokens options.now line_end.now (setting.first options.now) (events_left events.entry)) }
{
    let mut text = Vec::new(alloc);
    let mut place = Place::first(options);
    let mut rest = events;
    while let Some(event) = rest.next() {
        set_token(&mut text, &event, rest, place, options)?;
        place = place.behind(&event);
        place = end_lines(&mut text, line_ends_in(&event), place, options, line_end)?;
    }
    Ok(text)
}
