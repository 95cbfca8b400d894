//! The text of OURS with what is changed in it.
use crate::outline::{Place, Stretch, end_of_line, is_blank, is_empty_space, part};
use crate::placing::{Home, Homes, at};
use crate::plan::{Block, Marks, OurFate, Plan, TheirFate, Work};
use crate::sides::Sided;
use gitconf_text::NoMemory;
use std::alloc::Global;

/// What is put in.
#[derive(Clone, Copy)]
enum Put {
    Nothing,
    /// An entry of THEIRS that takes a place.
    Entry(usize),
    /// An entry of THEIRS with the comments directly above it.
    Commented(usize),
    /// A header of THEIRS with the comments and empty lines directly above it.
    Heading(usize),
    /// A marked conflict.
    Block(usize),
}

/// In which order changes at the same place come.
#[derive(Clone, Copy, PartialEq, Eq, PartialOrd, Ord)]
enum Rank {
    /// What is put into a section that is there.
    Within,
    /// What is put in with a section of its own.
    Between,
    /// What is put at the end.
    Apart,
    /// What is put in the place of something.
    Over,
}

/// A change: from one offset up to another something else is put.
#[derive(Clone, Copy)]
struct Patch {
    at: usize,
    end: usize,
    rank: Rank,
    put: Put,
}

/// Where in OURS the next entry of a section of THEIRS is put.
#[derive(Clone, Copy)]
struct Cursor {
    /// The section of THEIRS.
    section: usize,
    /// The place behind the last entry of it that stands in the result.
    behind: Option<(usize, Rank)>,
    /// The section of OURS that the section before it has in common with OURS.
    before: Option<usize>,
}

/// The end of lines without the line ending there.
fn before_line_end(text: &[u8], lines: Stretch) -> usize {
    let mut end = lines.end;
    if end > lines.start && text.get(end - 1).copied() == Some(b'\n') {
        end -= 1;
        if end > lines.start && text.get(end - 1).copied() == Some(b'\r') {
            end -= 1;
        }
    }
    end
}

/// The change of an entry of OURS.
fn own_patch(text: &[u8], place: &Place, fate: OurFate) -> Option<Patch> {
    let lines = place.lines;
    let (end, put) = match fate {
        OurFate::Stays => return None,
        OurFate::Goes if !place.begins_line => (before_line_end(text, lines), Put::Nothing),
        OurFate::Goes => (lines.end, Put::Nothing),
        OurFate::Becomes(their) => (lines.end, Put::Entry(their)),
        OurFate::Block(number) => (lines.end, Put::Block(number)),
    };
    Some(Patch {
        at: lines.start,
        end,
        rank: Rank::Over,
        put,
    })
}

/// Adds the changes of entries of OURS.
fn add_own(patches: &mut Vec<Patch>, ours: &Sided<'_>, plan: &Plan) -> Result<(), NoMemory> {
    for (entry, fate) in ours.outline.entries.iter().zip(&plan.ours) {
        if let Some(patch) = own_patch(ours.text, &entry.place, *fate) {
            patches.push(patch)?;
        }
    }
    Ok(())
}

/// The sections of OURS that have entries, all of which go, and that THEIRS hasn't.
fn emptied(
    alloc: Global,
    ours: &Sided<'_>,
    plan: &Plan,
    homes: &Homes,
) -> Result<Vec<bool>, NoMemory> {
    let mut emptied = vec![in alloc; false; ours.names.len()]?;
    for entry in &ours.outline.entries {
        if at(&homes.is_shared, entry.section) == Some(false) {
            if let Some(is_emptied) = emptied.get_mut(entry.section) {
                *is_emptied = true;
            }
        }
    }
    for (entry, fate) in ours.outline.entries.iter().zip(&plan.ours) {
        if !matches!(fate, OurFate::Goes) {
            if let Some(is_emptied) = emptied.get_mut(entry.section) {
                *is_emptied = false;
            }
        }
    }
    Ok(emptied)
}

/// Takes back that a section is emptied if anything but its entries is in it.
fn keep_commented(emptied: &mut [bool], ours: &Sided<'_>, homes: &Homes) {
    let mut floor = 0;
    let mut last = None;
    for entry in &ours.outline.entries {
        if last != Some(entry.section) {
            floor = match at(&ours.outline.headings, entry.section) {
                Some(heading) => heading.lines.end,
                None => 0,
            };
            last = Some(entry.section);
        }
        if !is_empty_space(part(ours.text, floor, entry.place.lines.start)) {
            keep(emptied, entry.section);
        }
        floor = entry.place.lines.end;
    }
    for (index, (end, tail)) in homes.ends.iter().zip(&homes.tails).enumerate() {
        if end != tail {
            keep(emptied, index);
        }
    }
}

/// Takes back that a section is emptied.
fn keep(emptied: &mut [bool], section: usize) {
    if let Some(is_emptied) = emptied.get_mut(section) {
        *is_emptied = false;
    }
}

/// Adds that the headers of emptied sections go, with the empty lines behind their entries.
fn add_emptied(
    patches: &mut Vec<Patch>,
    ours: &Sided<'_>,
    emptied: &[bool],
    homes: &Homes,
) -> Result<(), NoMemory> {
    for (index, heading) in ours.outline.headings.iter().enumerate() {
        if at(emptied, index) == Some(true) {
            patches.push(over(heading.lines.start, heading.lines.end))?;
            if let (Some(end), Some(next)) = (at(&homes.ends, index), next_lead(ours, index)) {
                patches.push(over(end, next))?;
            }
        }
    }
    Ok(())
}

/// Where the comments above the next header begin.
fn next_lead(ours: &Sided<'_>, index: usize) -> Option<usize> {
    let next = at(&ours.outline.headings, index.checked_add(1)?)?;
    Some(next.lead)
}

/// A change that takes something out.
fn over(at: usize, end: usize) -> Patch {
    Patch {
        at,
        end,
        rank: Rank::Over,
        put: Put::Nothing,
    }
}

/// A change that only puts something in.
fn within(place: (usize, Rank), put: Put) -> Patch {
    Patch {
        at: place.0,
        end: place.0,
        rank: place.1,
        put,
    }
}

/// Where a section of THEIRS that OURS hasn't is put: behind the section that it followed and what OURS has added there; else at the end.
fn new_place(ours: &Sided<'_>, homes: &Homes, before: Option<usize>) -> usize {
    match before {
        Some(section) => match at(&homes.lasts, section) {
            Some(last) => at(&homes.tails, last).unwrap_or(ours.text.len()),
            None => ours.text.len(),
        },
        None => ours.text.len(),
    }
}

/// Where a section of THEIRS belongs.
fn home_of(homes: &Homes, section: usize) -> Option<Home> {
    at(&homes.homes, section).unwrap_or(None)
}

/// Where an entry is put that followed the header of its section: behind that of OURS; or at the end, if THEIRS has several such sections.
fn place_in(ours: &Sided<'_>, homes: &Homes, home: Home) -> usize {
    if home.is_first {
        if let Some(heading) = at(&ours.outline.headings, home.section) {
            return heading.lines.end;
        }
    }
    at(&homes.ends, home.section).unwrap_or(ours.text.len())
}

/// Where the next entry of a section of THEIRS is put. If OURS has no such section, its header is put there.
fn place_for(
    patches: &mut Vec<Patch>,
    ours: &Sided<'_>,
    homes: &Homes,
    cursor: Cursor,
) -> Result<(usize, Rank), NoMemory> {
    if let Some(place) = cursor.behind {
        return Ok(place);
    }
    if let Some(home) = home_of(homes, cursor.section) {
        return Ok((place_in(ours, homes, home), Rank::Within));
    }
    let place = (new_place(ours, homes, cursor.before), Rank::Between);
    patches.push(within(place, Put::Heading(cursor.section)))?;
    Ok(place)
}

/// The place behind an entry of OURS.
fn behind(ours: &Sided<'_>, index: usize) -> Option<(usize, Rank)> {
    let place = ours.entry(index)?;
    Some((place.lines.end, Rank::Within))
}

/// The later one of two places.
fn later(one: (usize, Rank), other: Option<(usize, Rank)>) -> (usize, Rank) {
    match other {
        Some(other) if one.0 < other.0 => other,
        _ => one,
    }
}

/// Moves on to a section of THEIRS.
fn moved_to(cursor: Cursor, homes: &Homes, section: usize) -> Cursor {
    if section == cursor.section {
        return cursor;
    }
    let before = match home_of(homes, cursor.section) {
        Some(home) => Some(home.section),
        None => cursor.before,
    };
    Cursor {
        section,
        behind: None,
        before,
    }
}

/// Adds what comes from THEIRS, each behind what it followed there.
fn add_theirs(
    patches: &mut Vec<Patch>,
    work: &Work<'_>,
    plan: &Plan,
    homes: &Homes,
) -> Result<(), NoMemory> {
    let mut cursor = Cursor {
        section: 0,
        behind: None,
        before: None,
    };
    let entries = &work.theirs.outline.entries;
    for (index, (entry, fate)) in entries.iter().zip(&plan.theirs).enumerate() {
        cursor = moved_to(cursor, homes, entry.section);
        let (after, put) = match *fate {
            TheirFate::Absent | TheirFate::Apart => continue,
            TheirFate::Stands(our) => {
                cursor.behind = behind(work.ours, our);
                continue;
            }
            TheirFate::Comes(after) => (after, Put::Commented(index)),
            TheirFate::Block(number) => (None, Put::Block(number)),
        };
        let place = place_for(patches, work.ours, homes, cursor)?;
        let place = match after {
            Some(our) => later(place, behind(work.ours, our)),
            None => place,
        };
        patches.push(within(place, put))?;
        cursor.behind = Some(place);
    }
    Ok(())
}

/// Adds what is put at the end, in sections as THEIRS has them.
fn add_apart(patches: &mut Vec<Patch>, work: &Work<'_>, plan: &Plan) -> Result<(), NoMemory> {
    let end = (work.ours.text.len(), Rank::Apart);
    let mut last = None;
    let entries = &work.theirs.outline.entries;
    for (index, (entry, fate)) in entries.iter().zip(&plan.theirs).enumerate() {
        if !matches!(fate, TheirFate::Apart) {
            continue;
        }
        if last != Some(entry.section) {
            patches.push(within(end, Put::Heading(entry.section)))?;
            last = Some(entry.section);
        }
        patches.push(within(end, Put::Commented(index)))?;
    }
    Ok(())
}

/// All changes, in the order of the text.
fn patches_of(work: &Work<'_>, plan: &Plan) -> Result<Vec<Patch>, NoMemory> {
    let alloc = work.alloc;
    let homes = Homes::of_sides(alloc, work.ours, work.theirs)?;
    let mut emptied = emptied(alloc, work.ours, plan, &homes)?;
    keep_commented(&mut emptied, work.ours, &homes);
    let mut patches = Vec::new(alloc);
    add_own(&mut patches, work.ours, plan)?;
    add_emptied(&mut patches, work.ours, &emptied, &homes)?;
    add_theirs(&mut patches, work, plan, &homes)?;
    add_apart(&mut patches, work, plan)?;
    patches.sort_by(|one, other| (one.at, one.rank).cmp(&(other.at, other.rank)))?;
    Ok(patches)
}

/// Ends the line that a text ends with, unless it is ended. A backslash there would take the line ending with it.
fn end_line(out: &mut Vec<u8>) -> Result<(), NoMemory> {
    match out.last() {
        None | Some(b'\n') => {}
        Some(b'\\') => out.extend_from_slice(b"\n\n")?,
        Some(_) => out.push(b'\n')?,
    }
    Ok(())
}

/// Adds a part of a text as lines of their own.
fn add_lines(out: &mut Vec<u8>, text: &[u8], place: &Place, from: usize) -> Result<(), NoMemory> {
    end_line(out)?;
    if place.begins_line {
        out.extend_from_slice(part(text, from, place.lines.end))?;
    } else {
        out.push(b'\t')?;
        out.extend_from_slice(without_blanks(place.lines.of_text(text)))?;
    }
    end_line(out)
}

/// Where the empty lines begin that stand directly above the comments above a header.
fn start_of_space(text: &[u8], lead: usize) -> usize {
    let space = part(text, 0, lead)
        .iter()
        .rev()
        .take_while(|byte| is_line_end(**byte))
        .count();
    let start = lead.saturating_sub(space);
    // The first line ending is that of the line above.
    if start == 0 {
        0
    } else {
        end_of_line(text, start).min(lead)
    }
}

/// Whether a byte ends lines.
fn is_line_end(byte: u8) -> bool {
    byte == b'\n' || byte == b'\r'
}

/// Bytes without the blanks at their front.
fn without_blanks(bytes: &[u8]) -> &[u8] {
    let blanks = bytes.iter().take_while(|byte| is_blank(**byte)).count();
    part(bytes, blanks, bytes.len())
}

/// Adds entries of a side as lines of their own.
fn add_entries(out: &mut Vec<u8>, side: &Sided<'_>, indices: &[usize]) -> Result<(), NoMemory> {
    for index in indices {
        if let Some(place) = side.entry(*index) {
            add_lines(out, side.text, &place, place.lines.start)?;
        }
    }
    Ok(())
}

/// Adds a conflict, or what is left of it without marks.
fn add_block(out: &mut Vec<u8>, work: &Work<'_>, block: &Block) -> Result<(), NoMemory> {
    if work.manner.marks == Marks::Left {
        return add_entries(out, work.ours, &block.ours);
    }
    end_line(out)?;
    out.extend_from_slice(b"<<<<<<< OURS\n")?;
    add_entries(out, work.ours, &block.ours)?;
    out.extend_from_slice(b"=======\n")?;
    add_entries(out, work.theirs, &block.theirs)?;
    out.extend_from_slice(b">>>>>>> THEIRS\n")?;
    Ok(())
}

/// Adds what a change puts in.
fn add_put(out: &mut Vec<u8>, work: &Work<'_>, plan: &Plan, put: Put) -> Result<(), NoMemory> {
    let theirs = work.theirs;
    match put {
        Put::Nothing => Ok(()),
        Put::Entry(index) => match theirs.entry(index) {
            Some(place) => add_lines(out, theirs.text, &place, place.lines.start),
            None => Ok(()),
        },
        Put::Commented(index) => match theirs.entry(index) {
            Some(place) => add_lines(out, theirs.text, &place, place.lead),
            None => Ok(()),
        },
        Put::Heading(index) => match at(&theirs.outline.headings, index) {
            Some(place) => add_lines(
                out,
                theirs.text,
                &place,
                start_of_space(theirs.text, place.lead),
            ),
            None => Ok(()),
        },
        Put::Block(number) => match plan.blocks.get(number) {
            Some(block) => add_block(out, work, block),
            None => Ok(()),
        },
    }
}

/// The text of OURS with what a plan changes in it. A pass over the text, after the changes were sorted.
///
/// # Errors
///
/// Out of memory.
pub fn patched(work: &Work<'_>, plan: &Plan) -> Result<Vec<u8>, NoMemory> {
    let patches = patches_of(work, plan)?;
    let text = work.ours.text;
    let mut out = Vec::with_capacity(work.alloc, text.len())?;
    let mut done = 0;
    for patch in &patches {
        out.extend_from_slice(part(text, done, patch.at))?;
        done = done.max(patch.end);
        add_put(&mut out, work, plan, patch.put)?;
    }
    out.extend_from_slice(part(text, done, text.len()))?;
    Ok(out)
}
