//! Where what comes from THEIRS is put into the text of OURS.
ghost use Rattle.std.specs.Prelude.{◌≡◌, ◌≤◌, ◌<◌, ◌+◌, length};

use crate::groups::{Grouped, group_at, ours_count};
use crate::outline::{end_of_line, is_space, part};
use crate::sides::{SectionName, Sided};
use gitconf_text::NoMemory;
use std::alloc::Global;
use std::cmp::Ordering;

/// The section of OURS that a section of THEIRS belongs to.
#[derive(Clone, Copy)]
pub struct Home {
    /// The last section of OURS that has its name.
    pub section: usize,
    /// Whether it is the first section of THEIRS that has this name.
    pub is_first: bool,
}

/// Where the sections of OURS end, and which of them THEIRS has, too.
#[derive(Drop)]
pub struct Homes {
    /// For each section of THEIRS where it belongs, if OURS has one of its name.
    pub homes: Vec<Option<Home>>,
    /// For each section of OURS whether THEIRS has one of its name.
    pub is_shared: Vec<bool>,
    /// For each section of OURS where its last entry ends, or its header.
    pub ends: Vec<usize>,
    /// For each section of OURS where its last line ends that isn't empty.
    pub tails: Vec<usize>,
    /// For each section of OURS the last of those behind it that THEIRS hasn't. These are directly behind it; if there is none, it is
    /// the section itself.
    pub lasts: Vec<usize>,
}

/// A section of one of the sides.
#[derive(Clone, Copy)]
struct Row<'a> {
    name: &'a SectionName,
    is_theirs: bool,
    index: usize,
}

impl Grouped for Row<'_> {
    /// Whether both are sections of the same name.
    fn is_alike(&self, other: &Self) -> bool {
        self.name == other.name
    }

    fn is_theirs(&self) -> bool {
        self.is_theirs
    }
}

/// How rows are ordered: by name, and of the same name those of OURS come first.
fn order(one: &Row<'_>, other: &Row<'_>) -> Ordering {
    match one.name.cmp(other.name) {
        Ordering::Equal => one.is_theirs.cmp(&other.is_theirs),
        unequal => unequal,
    }
}

/// Adds the sections of a side.
fn add_rows<'a>(
    rows: &mut Vec<Row<'a>>,
    names: &'a [SectionName],
    is_theirs: bool,
) -> Result<(), NoMemory> {
    for (index, name) in names.iter().enumerate() {
        rows.push(Row {
            name,
            is_theirs,
            index,
        })?;
    }
    Ok(())
}

/// The sections of both sides, sorted by name; of each name those of OURS come first, in the order of the text.
fn rows_of<'a>(
    alloc: Global,
    ours: &'a [SectionName],
    theirs: &'a [SectionName],
) -> Result<Vec<Row<'a>>, NoMemory> {
    let mut rows = Vec::new(alloc);
    add_rows(&mut rows, ours, false)?;
    add_rows(&mut rows, theirs, true)?;
    rows.sort_by(order)?;
    Ok(rows)
}

/// Where the last line ends between two offsets that isn't empty; the first offset if there is none.
fn tail_of(text: &[u8], from: usize, to: usize) -> usize {
    let between = part(text, from, to);
    let space = between
        .iter()
        .rev()
        .take_while(|byte| is_space(**byte))
        .count();
    if space >= between.len() {
        return from;
    }
    end_of_line(text, to.saturating_sub(space).saturating_sub(1)).min(to)
}

/// The value at a place.
pub fn at<T: Copy>(list: &[T], index: usize) -> Option<T> {
    list.get(index).copied()
}

impl Homes {
    /// Where the sections of OURS end, and which of them THEIRS has. It sorts the names of the sections, and goes over the text once.
    ///
    /// # Errors
    ///
    /// Out of memory.
    pub fn of_sides(
        alloc: Global,
        ours: &Sided<'_>,
        theirs: &Sided<'_>,
    ) -> Result<Homes, NoMemory> {
        let count = ours.names.len();
        let mut homes = Homes {
            homes: vec![in alloc; None; theirs.names.len()]?,
            is_shared: vec![in alloc; false; count]?,
            ends: Vec::with_capacity(alloc, count)?,
            tails: Vec::with_capacity(alloc, count)?,
            lasts: vec![in alloc; 0; count]?,
        };
        let rows = rows_of(alloc, &ours.names, &theirs.names)?;
        homes.share_all(&rows);
        homes.end_all(ours)?;
        homes.follow_all();
        Ok(homes)
    }

    /// Finds which names both sides have.
    fn share_all(&mut self, rows: &[Row<'_>]) {
        let mut at = 0;
        while at < rows.len() {
            let group = group_at(rows, at);
            let (ours, theirs) = group.split_at(ours_count(group));
            self.share(ours, theirs);
            at += group.len();
        }
    }

    /// Keeps that these sections have the same name.
    fn share(&mut self, ours: &[Row<'_>], theirs: &[Row<'_>]) {
        let Some(last) = ours.last() else {
            return;
        };
        let mut is_first = true;
        for row in theirs {
            if let Some(home) = self.homes.get_mut(row.index) {
                *home = Some(Home {
                    section: last.index,
                    is_first,
                });
            }
            is_first = false;
        }
        if theirs.is_empty() {
            return;
        }
        for row in ours {
            if let Some(is_shared) = self.is_shared.get_mut(row.index) {
                *is_shared = true;
            }
        }
    }

    /// Finds where the sections of OURS end.
    fn end_all(&mut self, ours: &Sided<'_>) -> Result<(), NoMemory> {
        for heading in &ours.outline.headings {
            self.ends.push(heading.lines.end)?;
        }
        for entry in &ours.outline.entries {
            if let Some(end) = self.ends.get_mut(entry.section) {
                *end = entry.place.lines.end;
            }
        }
        let mut leads = ours.outline.headings.iter().skip(1);
        for end in &self.ends {
            let next = match leads.next() {
                Some(heading) => heading.lead,
                None => ours.text.len(),
            };
            self.tails.push(tail_of(ours.text, *end, next))?;
        }
        Ok(())
    }

    /// Finds, from the last section to the first, which are directly behind each that THEIRS hasn't.
    fn follow_all(&mut self) {
        let mut last = None;
        for at in (0..self.lasts.len()).rev() {
            let own = match last {
                Some(last) => last,
                None => at,
            };
            if let Some(place) = self.lasts.get_mut(at) {
                *place = own;
            }
            last = match self.is_shared.get(at) {
                Some(false) => Some(own),
                _ => None,
            };
        }
    }
}
