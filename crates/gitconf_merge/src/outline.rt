//! Where the sections and entries of a text stand in it, by lines.
use gitconf_body::entries::next_entry;
use gitconf_items::entry::{AssignedRef, Entry};
use gitconf_items::event::{Header, Span};
use gitconf_read::reading::mark_len;
use gitconf_text::NoMemory;
use gitconf_views::section::{SectionRef, Sections};
use std::alloc::Global;

/// A part of a text: the offset of its first byte, and the one behind its last.
#[derive(Clone, Copy)]
pub struct Stretch {
    pub start: usize,
    pub end: usize,
}

/// Where a header or an entry stands.
#[derive(Clone, Copy)]
pub struct Place {
    /// Its lines. Of a line that it shares with others, its part.
    pub lines: Stretch,
    /// Where the comment lines directly above it begin.
    pub lead: usize,
    /// The number of its first line, counted from 1.
    pub line_number: usize,
    /// Whether its first line begins with it.
    pub begins_line: bool,
}

/// Where an entry stands, and in which section, counted from 0.
#[derive(Clone, Copy)]
pub struct EntryPlace {
    pub section: usize,
    pub place: Place,
}

/// Where the headers and entries of a text stand, in the order of the text.
#[derive(Drop)]
pub struct Outline {
    pub headings: Vec<Place>,
    pub entries: Vec<EntryPlace>,
}

/// A header or an entry: where its own bytes stand.
#[derive(Clone, Copy)]
struct Token {
    is_heading: bool,
    own: Stretch,
}

/// A line of a text: where it begins, or a place in it, and its number.
#[derive(Clone, Copy)]
struct Row {
    at: usize,
    number: usize,
}

impl Stretch {
    /// Its bytes, if it is a part of the text; else none.
    pub fn of_text(self, text: &[u8]) -> &[u8] {
        if self.start <= self.end && self.end <= text.len() {
            &text[self.start..self.end]
        } else {
            b""
        }
    }
}

/// Whether the byte is a blank.
pub fn is_blank(byte: u8) -> bool {
    byte == b' ' || byte == b'\t'
}

/// A part of a text; none if there is no such part.
pub fn part(text: &[u8], start: usize, end: usize) -> &[u8] {
    Stretch { start, end }.of_text(text)
}

/// Where the blanks begin that end at an offset; no further back than a floor.
fn start_of_blanks(text: &[u8], from: usize, floor: usize) -> usize {
    let blanks = part(text, floor, from)
        .iter()
        .rev()
        .take_while(|byte| is_blank(**byte))
        .count();
    from.saturating_sub(blanks)
}

/// The offset behind the first byte of this value from an offset on, or that of the text's end.
fn behind_byte(text: &[u8], from: usize, wanted: u8) -> usize {
    let place = part(text, from, text.len())
        .iter()
        .position(|byte| *byte == wanted);
    match place {
        Some(place) => from.saturating_add(place).saturating_add(1),
        None => text.len(),
    }
}

/// The offset behind the line in which an offset is.
pub fn end_of_line(text: &[u8], from: usize) -> usize {
    behind_byte(text, from, b'\n')
}

/// Where the line begins that ends directly before an offset; no further back than a floor.
fn start_of_line_before(text: &[u8], end: usize, floor: usize) -> usize {
    let last = end.saturating_sub(1);
    let length = part(text, floor, last)
        .iter()
        .rev()
        .take_while(|byte| **byte != b'\n')
        .count();
    last.saturating_sub(length)
}

/// Whether a line is a comment alone.
fn is_comment(line: &[u8]) -> bool {
    match line.iter().find(|byte| !is_blank(**byte)) {
        Some(byte) => *byte == b'#' || *byte == b';',
        None => false,
    }
}

/// Whether the byte is a blank or ends lines.
pub fn is_space(byte: u8) -> bool {
    is_blank(byte) || byte == b'\n' || byte == b'\r'
}

/// Whether bytes are blanks and line endings alone.
pub fn is_empty_space(bytes: &[u8]) -> bool {
    bytes.iter().all(|byte| is_space(*byte))
}

/// Where the comment lines begin that stand directly above an offset, at which a line begins.
fn start_of_lead(text: &[u8], from: usize, floor: usize) -> usize {
    let mut lead = from;
    while lead > floor {
        let start = start_of_line_before(text, lead, floor);
        if start >= lead || !is_comment(part(text, start, lead)) {
            return lead;
        }
        lead = start;
    }
    lead
}

/// The same place or a later one, with the number of its line.
fn row_at(text: &[u8], row: Row, at: usize) -> Row {
    let count = part(text, row.at, at)
        .iter()
        .filter(|byte| **byte == b'\n')
        .count();
    Row {
        at,
        number: row.number.saturating_add(count),
    }
}

/// Where a header stands, from its bracket to its bracket.
fn header_stretch(text: &[u8], header: &Header) -> Stretch {
    let last = header.subsection.unwrap_or(header.name);
    Stretch {
        start: (header.name.start as usize).saturating_sub(1),
        end: behind_byte(text, end_of(last), b']'),
    }
}

/// The offset behind a part of a text.
fn end_of(span: Span) -> usize {
    (span.start as usize).saturating_add(span.len as usize)
}

/// Where an entry stands, from its name to its value.
fn entry_stretch(entry: &Entry) -> Stretch {
    let last = match entry.assigned() {
        AssignedRef::Nothing => entry.name(),
        AssignedRef::Plain { value, .. } => value,
        AssignedRef::Continued(continued) => continued.value.last,
    };
    Stretch {
        start: entry.name().start as usize,
        end: end_of(last).max(end_of(entry.name())),
    }
}

/// Adds the tokens of a section: its header, and its entries.
fn add_tokens(
    tokens: &mut Vec<Token>,
    text: &[u8],
    section: &SectionRef<'_>,
) -> Result<(), NoMemory> {
    tokens.push(Token {
        is_heading: true,
        own: header_stretch(text, section.header),
    })?;
    let mut rest = section.items;
    while let Some((entry, behind)) = next_entry(rest) {
        tokens.push(Token {
            is_heading: false,
            own: entry_stretch(entry),
        })?;
        rest = behind;
    }
    Ok(())
}

/// The headers and entries of a text, in order.
fn tokens_of(alloc: Global, text: &[u8], sections: Sections<'_>) -> Result<Vec<Token>, NoMemory> {
    let mut tokens = Vec::new(alloc);
    for section in sections {
        add_tokens(&mut tokens, text, &section)?;
    }
    Ok(tokens)
}

/// Where the lines of a token end that ends at an offset: behind its line, or with it if the next token is on that line.
fn end_of_lines(text: &[u8], end: usize, next: usize) -> usize {
    let place = part(text, end, next).iter().position(|byte| *byte == b'\n');
    match place {
        Some(place) => end.saturating_add(place).saturating_add(1),
        None if next >= text.len() => text.len(),
        None => end,
    }
}

/// Where a token stands, behind a floor and before the next token.
fn place_of(text: &[u8], own: Stretch, floor: usize, next: usize) -> Place {
    let start = start_of_blanks(text, own.start, floor);
    let end = end_of_lines(text, own.end, next);
    let begins_line = start == 0 || start == mark_len(text) || is_line_end_before(text, start);
    Place {
        lines: Stretch { start, end },
        lead: if begins_line {
            start_of_lead(text, start, floor)
        } else {
            start
        },
        line_number: 1,
        begins_line,
    }
}

/// Whether a line ends directly before an offset.
fn is_line_end_before(text: &[u8], at: usize) -> bool {
    if at == 0 {
        return false;
    }
    text.get(at - 1).copied() == Some(b'\n')
}

impl Outline {
    /// Where the sections of a text and their entries stand in it. A few passes over the text, and one over the sections.
    ///
    /// # Errors
    ///
    /// Out of memory.
    pub fn of_text(
        alloc: Global,
        text: &[u8],
        sections: Sections<'_>,
    ) -> Result<Outline, NoMemory> {
        let tokens = tokens_of(alloc, text, sections)?;
        let mut outline = Outline {
            headings: Vec::new(alloc),
            entries: Vec::new(alloc),
        };
        outline.add_all(text, &tokens)?;
        Ok(outline)
    }

    /// Adds tokens, each behind the one before it.
    fn add_all(&mut self, text: &[u8], tokens: &[Token]) -> Result<(), NoMemory> {
        let mut floor = mark_len(text);
        let mut row = Row { at: 0, number: 1 };
        let mut following = tokens.iter().skip(1);
        for token in tokens {
            let next = match following.next() {
                Some(next) => next.own.start,
                None => text.len(),
            };
            let mut place = place_of(text, token.own, floor, next);
            row = row_at(text, row, token.own.start);
            place.line_number = row.number;
            floor = place.lines.end;
            self.add(token.is_heading, place)?;
        }
        Ok(())
    }

    /// Adds a header, or an entry of the last section.
    fn add(&mut self, is_heading: bool, place: Place) -> Result<(), NoMemory> {
        if is_heading {
            self.headings.push(place)?;
        } else {
            let section = self.headings.len().saturating_sub(1);
            self.entries.push(EntryPlace { section, place })?;
        }
        Ok(())
    }
}
