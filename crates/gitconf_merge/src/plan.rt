//! What becomes of each entry of the two sides.
ghost use Rattle.std.specs.Prelude.{◌≡◌, ◌≤◌, ◌<◌, ◌+◌, length};

use crate::changes::Changes;
use crate::conflicts::Spot;
use crate::deciding::{Verdict, verdict_of};
use crate::favor::Favor;
use crate::groups::{Grouped, group_at, ours_count};
use crate::key::{are_same, names_of_setting, order};
use crate::sides::Sided;
use gitconf_diff::setting::{Setting, Side};
use gitconf_text::NoMemory;
use std::alloc::Global;
use std::cmp::Ordering;

/// What becomes of an entry of OURS.
#[derive(Clone, Copy)]
pub enum OurFate {
    /// It stays.
    Stays,
    /// It goes.
    Goes,
    /// An entry of THEIRS takes its place.
    Becomes(usize),
    /// A conflict is marked in its place.
    Block(usize),
}

/// What becomes of an entry of THEIRS.
#[derive(Clone, Copy)]
pub enum TheirFate {
    /// It isn't in the result.
    Absent,
    /// It stands where this entry of OURS stood.
    Stands(usize),
    /// It is put in, behind this entry of OURS if there is one.
    Comes(Option<usize>),
    /// It is put at the end.
    Apart,
    /// A conflict is marked where it would be put in.
    Block(usize),
}

/// How conflicts that stay are shown.
#[derive(Clone, Copy, PartialEq, Eq)]
pub enum Marks {
    /// They aren't: what OURS has of such a key stays where it stands.
    Absent,
    /// What OURS has of the key stands together, as between marks. The marks and what THEIRS has are left out.
    Left,
    /// What both sides have of the key stands between marks.
    Shown,
}

/// How the two sides are put together.
#[derive(Clone, Copy)]
pub struct Manner {
    /// Which side conflicts go to.
    pub favor: Favor,
    /// Whether what comes from THEIRS is put at the end, in sections of its own.
    pub is_apart: bool,
    /// How conflicts that stay are shown.
    pub marks: Marks,
}

impl Manner {
    /// The same with what comes from THEIRS at the end.
    pub fn apart(self) -> Manner {
        Manner {
            favor: self.favor,
            is_apart: true,
            marks: self.marks,
        }
    }

    /// The same with conflicts shown otherwise.
    pub fn with_marks(self, marks: Marks) -> Manner {
        Manner {
            favor: self.favor,
            is_apart: self.is_apart,
            marks,
        }
    }
}

/// The entries of a key that is marked as a conflict.
#[derive(Drop)]
pub struct Block {
    pub ours: Vec<usize>,
    pub theirs: Vec<usize>,
}

/// What becomes of each entry, and where conflicts are, sorted by key.
#[derive(Drop)]
pub struct Plan {
    pub ours: Vec<OurFate>,
    pub theirs: Vec<TheirFate>,
    pub blocks: Vec<Block>,
    pub spots: Vec<Spot>,
}

/// What is merged, and how.
#[derive(Clone, Copy)]
pub struct Work<'a> {
    pub alloc: Global,
    pub ours: &'a Sided<'a>,
    pub theirs: &'a Sided<'a>,
    pub changes: &'a Changes,
    pub manner: Manner,
}

impl<'a> Work<'a> {
    ghost use Rattle.std.specs.Prelude.{◌≡◌};

    /// The same in another manner.
    pub fn in_manner(&self, manner: Manner) -> Work<'a>
        ensures { result.changes.now ≡ self.now.changes.now }
    {
        Work {
            alloc: self.alloc,
            ours: self.ours,
            theirs: self.theirs,
            changes: self.changes,
            manner,
        }
    }
}

/// An entry of one of the sides.
#[derive(Clone, Copy)]
struct Row<'a> {
    setting: &'a Setting,
    index: usize,
}

/// How rows are ordered: by key, and of the same key those of OURS come first.
fn order_rows(one: &Row<'_>, other: &Row<'_>) -> Ordering {
    match order(
        names_of_setting(one.setting),
        names_of_setting(other.setting),
    ) {
        Ordering::Equal => one.setting.side.cmp(&other.setting.side),
        unequal => unequal,
    }
}

impl Grouped for Row<'_> {
    /// Whether both are entries of the same key.
    fn is_alike(&self, other: &Self) -> bool {
        are_same(
            names_of_setting(self.setting),
            names_of_setting(other.setting),
        )
    }

    fn is_theirs(&self) -> bool {
        matches!(self.setting.side, Side::Other)
    }
}

/// Adds the entries of a side.
fn add_rows<'a>(rows: &mut Vec<Row<'a>>, settings: &'a [Setting]) -> Result<(), NoMemory> {
    for (index, setting) in settings.iter().enumerate() {
        rows.push(Row { setting, index })?;
    }
    Ok(())
}

/// The entries of both sides, sorted by key; of each key those of OURS come first, in the order of the text.
fn rows_of<'a>(
    alloc: Global,
    ours: &'a [Setting],
    theirs: &'a [Setting],
) -> Result<Vec<Row<'a>>, NoMemory> {
    let mut rows = Vec::new(alloc);
    add_rows(&mut rows, ours)?;
    add_rows(&mut rows, theirs)?;
    rows.sort_by(order_rows)?;
    Ok(rows)
}

/// Whether two entries mean the same.
fn have_same_value(one: &Row<'_>, other: &Row<'_>) -> bool {
    one.setting.value == other.setting.value
}

/// How many rows at the front have the same values.
fn front_count(ours: &[Row<'_>], theirs: &[Row<'_>]) -> usize {
    ours.iter()
        .zip(theirs)
        .take_while(|(our, their)| have_same_value(our, their))
        .count()
}

/// How many rows at the end have the same values.
fn back_count(ours: &[Row<'_>], theirs: &[Row<'_>]) -> usize {
    ours.iter()
        .rev()
        .zip(theirs.iter().rev())
        .take_while(|(our, their)| have_same_value(our, their))
        .count()
}

/// A list cut at a place, or at its end if it is shorter.
fn cut<'a, 'b>(rows: &'a [Row<'b>], at: usize) -> (&'a [Row<'b>], &'a [Row<'b>]) {
    rows.split_at(at.min(rows.len()))
}

/// The lines of the last row's entry.
fn last_line(side: &Sided<'_>, rows: &[Row<'_>]) -> Option<usize> {
    let last = rows.last()?;
    let place = side.entry(last.index)?;
    Some(place.line_number)
}

/// The entries that rows are.
fn indices(alloc: Global, rows: &[Row<'_>]) -> Result<Vec<usize>, NoMemory> {
    let mut indices = Vec::with_capacity(alloc, rows.len())?;
    for row in rows {
        indices.push(row.index)?;
    }
    Ok(indices)
}

impl Plan {
    ghost use Rattle.gitconf_merge.specs.Changes.{AreSorted, plain_changes};

    /// What becomes of each entry. It sorts the entries by key, and then goes over them.
    ///
    /// # Errors
    ///
    /// Out of memory.
    pub fn of_work(work: &Work<'_>) -> Result<Plan, NoMemory>
        requires { AreSorted (plain_changes work.now.changes.now) }
    {
        let alloc = work.alloc;
        let mut plan = Plan {
            ours: vec![in alloc; OurFate::Stays; work.ours.settings.len()]?,
            theirs: vec![in alloc; TheirFate::Absent; work.theirs.settings.len()]?,
            blocks: Vec::new(alloc),
            spots: Vec::new(alloc),
        };
        let rows = rows_of(alloc, &work.ours.settings, &work.theirs.settings)?;
        plan.decide_all(work, &rows)?;
        Ok(plan)
    }

    /// Decides what becomes of the entries of each key.
    fn decide_all(&mut self, work: &Work<'_>, rows: &[Row<'_>]) -> Result<(), NoMemory>
        requires { AreSorted (plain_changes work.now.changes.now) }
    {
        let mut at = 0;
        while at < rows.len() {
            let group = group_at(rows, at);
            self.decide(work, group)?;
            at += group.len();
        }
        Ok(())
    }

    /// Decides what becomes of the entries of a key.
    fn decide(&mut self, work: &Work<'_>, group: &[Row<'_>]) -> Result<(), NoMemory>
        requires { AreSorted (plain_changes work.now.changes.now) }
    {
        let Some(first) = group.first() else {
            return Ok(());
        };
        let (ours, theirs) = group.split_at(ours_count(group));
        match verdict_of(work.changes, names_of_setting(first.setting)) {
            Verdict::Ours => {
                self.pair(ours, theirs);
                Ok(())
            }
            Verdict::Theirs => {
                self.take(work, ours, theirs);
                Ok(())
            }
            Verdict::Conflict => self.settle(work, ours, theirs),
        }
    }

    /// Settles a conflict, or marks it.
    fn settle(
        &mut self,
        work: &Work<'_>,
        ours: &[Row<'_>],
        theirs: &[Row<'_>],
    ) -> Result<(), NoMemory> {
        self.spots.push(Spot {
            ours: last_line(work.ours, ours),
            theirs: last_line(work.theirs, theirs),
        })?;
        match work.manner.favor {
            Favor::Neither if work.manner.marks != Marks::Absent => {
                return self.mark(work.alloc, ours, theirs);
            }
            Favor::Neither | Favor::Ours => self.pair(ours, theirs),
            Favor::Theirs => self.take(work, ours, theirs),
            Favor::Union => self.unite(work.alloc, ours, theirs)?,
        }
        Ok(())
    }

    /// Marks a conflict at the first entry that OURS has of the key, or where that of THEIRS would come.
    fn mark(
        &mut self,
        alloc: Global,
        ours: &[Row<'_>],
        theirs: &[Row<'_>],
    ) -> Result<(), NoMemory> {
        let number = self.blocks.len();
        self.blocks.push(Block {
            ours: indices(alloc, ours)?,
            theirs: indices(alloc, theirs)?,
        })?;
        match ours.split_first() {
            Some((first, others)) => {
                self.set_ours(first.index, OurFate::Block(number));
                self.drop_all(others);
                for row in theirs {
                    self.set_theirs(row.index, TheirFate::Stands(first.index));
                }
            }
            None => {
                if let Some(first) = theirs.first() {
                    self.set_theirs(first.index, TheirFate::Block(number));
                }
            }
        }
        Ok(())
    }

    /// Leaves the entries of OURS. Those of THEIRS stand where they stand, one by one.
    fn pair(&mut self, ours: &[Row<'_>], theirs: &[Row<'_>]) {
        for (our, their) in ours.iter().zip(theirs) {
            self.set_theirs(their.index, TheirFate::Stands(our.index));
        }
    }

    /// Puts the entries of THEIRS in the places of those of OURS, as far as they go; what is the same at the front and at the end stays.
    fn take(&mut self, work: &Work<'_>, ours: &[Row<'_>], theirs: &[Row<'_>]) {
        if work.manner.is_apart {
            self.drop_all(ours);
            for row in theirs {
                self.set_theirs(row.index, TheirFate::Apart);
            }
            return;
        }
        let front = front_count(ours, theirs);
        let (our_front, our_rest) = cut(ours, front);
        let (their_front, their_rest) = cut(theirs, front);
        let back = back_count(our_rest, their_rest);
        let (our_middle, our_back) = cut(our_rest, our_rest.len().saturating_sub(back));
        let (their_middle, their_back) = cut(their_rest, their_rest.len().saturating_sub(back));
        self.pair(our_front, their_front);
        self.pair(our_back, their_back);
        self.replace(our_front.last(), our_middle, their_middle);
    }

    /// Puts entries of THEIRS in the places of these of OURS, one by one. Of OURS the others go; of THEIRS the others come behind.
    fn replace(&mut self, before: Option<&Row<'_>>, ours: &[Row<'_>], theirs: &[Row<'_>]) {
        for (our, their) in ours.iter().zip(theirs) {
            self.set_ours(our.index, OurFate::Becomes(their.index));
            self.set_theirs(their.index, TheirFate::Stands(our.index));
        }
        let last = index_of(ours.last().or(before));
        self.drop_all(cut(ours, theirs.len()).1);
        for row in cut(theirs, ours.len()).1 {
            self.set_theirs(row.index, TheirFate::Comes(last));
        }
    }

    /// Puts those entries of THEIRS at the end whose values OURS hasn't, so that they come behind those of OURS, in their order.
    fn unite(
        &mut self,
        alloc: Global,
        ours: &[Row<'_>],
        theirs: &[Row<'_>],
    ) -> Result<(), NoMemory> {
        let sorted = sorted_by_value(alloc, ours)?;
        for row in theirs {
            let fate = match place_of_value(&sorted, row) {
                Some(index) => TheirFate::Stands(index),
                None => TheirFate::Apart,
            };
            self.set_theirs(row.index, fate);
        }
        Ok(())
    }

    /// Lets entries of OURS go.
    fn drop_all(&mut self, ours: &[Row<'_>]) {
        for row in ours {
            self.set_ours(row.index, OurFate::Goes);
        }
    }

    fn set_ours(&mut self, index: usize, fate: OurFate) {
        if let Some(place) = self.ours.get_mut(index) {
            *place = fate;
        }
    }

    fn set_theirs(&mut self, index: usize, fate: TheirFate) {
        if let Some(place) = self.theirs.get_mut(index) {
            *place = fate;
        }
    }
}

/// Rows sorted by their values.
fn sorted_by_value<'a>(alloc: Global, rows: &[Row<'a>]) -> Result<Vec<Row<'a>>, NoMemory> {
    let mut sorted = rows.to_vec(alloc)?;
    sorted.sort_by(|one, other| one.setting.value.cmp(&other.setting.value))?;
    Ok(sorted)
}

/// The entry with the value of another one, among rows that are sorted by their values.
fn place_of_value(sorted: &[Row<'_>], other: &Row<'_>) -> Option<usize> {
    match sorted.binary_search_by(|row| row.setting.value.cmp(&other.setting.value)) {
        Ok(place) => index_of(sorted.get(place)),
        Err(_) => None,
    }
}

/// The entry that a row is.
fn index_of(row: Option<&Row<'_>>) -> Option<usize> {
    match row {
        Some(row) => Some(row.index),
        None => None,
    }
}
