//! The table of a matcher: for each suffix of a pattern and each suffix of a text, whether the one matches the other.
ghost use Rattle.std.specs.Prelude.{◌≡◌, ◌+◌, ◌≤◌, ◌<◌, ◌==◌, ◌&&◌, ◌||◌, not, false, [], ◌∷◌, length, replicate, map, vec_items, get_or, IfOk};
ghost use Rattle.gitconf_glob.specs.Pattern as spec;
ghost use Rattle.gitconf_glob.specs.Cursor as cursor;
ghost use Rattle.gitconf_glob.specs.Rows.{cells, rows_of, is_fresh_at, IsTable};
ghost use Rattle.gitconf_glob.specs.Bracket.{lets_in};
ghost use Rattle.gitconf_glob.specs.Places.{all_known, shown};
ghost use Rattle.gitconf_glob.specs.Cells.{one_cells, taken_cells, run_cells, folder_cells, cells_at, last_cells, AreLong};
ghost use Rattle.gitconf_glob.specs.Shapes.{element_of, front_of, FitsIn};

use crate::bracket::{either, lets_in, members_begin, negates};
use crate::front::{Element, Front, read_front};
use crate::places::{Place, place_at, tell_places};
use gitconf_text::NoMemory;
use std::alloc::Global;
use std::marker::Model;

/// The cell of an element, which takes one byte, from the cell after it.
fn one_cell(behind: bool, element: Element, ignore_case: bool, b: u8) -> bool
    ensures { result ≡ (behind && spec.takes ignore_case (element_of element) b) }
{
    behind && element.takes(ignore_case, b)
}

/// The cell of a run, from the cell of what follows the run, and the run's own for the text after the byte.
fn run_cell(below: bool, slashes: bool, b: u8, later: bool) -> bool
    ensures { result ≡ (below || (slashes || not (b == 47)) && later) }
{
    below || (slashes || b != b'/') && later
}

/// Fills the row of an element, which takes one byte, from the row after it.
#[tactic(auto, unfolding(crate::specs::Cells::one_cells))]
fn fill_one(row: &mut [bool], text: &[u8], below: &[bool], element: Element, ignore_case: bool)
    requires row { length row.old ≡ length text.now + 1 }
    requires below { length below.now ≡ length text.now + 1 }
    ensures { row.new ≡ one_cells (spec.takes ignore_case (element_of element)) text.now below.now }
{
    let mut j = text.len();
    row[j] = false;
    while j > 0 {
        j -= 1;
        row[j] = one_cell(below[j + 1], element, ignore_case, text[j]);
    }
}

/// The cell of a bracket, from the cell after it, and whether the byte is among its members.
fn taken_cell(behind: bool, negated: bool, among: bool, b: u8) -> bool
    ensures { result ≡ (behind && lets_in negated among b) }
{
    behind && lets_in(negated, among, b)
}

/// Fills the row of a bracket, from the row after it, and which bytes of the text are among its members.
#[tactic(auto, unfolding(crate::specs::Cells::taken_cells))]
fn fill_taken(row: &mut [bool], text: &[u8], negated: bool, among: &[bool], below: &[bool])
    requires row { length row.old ≡ length text.now + 1 }
    requires among { length among.now ≡ length text.now }
    requires below { length below.now ≡ length text.now + 1 }
    ensures { row.new ≡ taken_cells negated text.now among.now below.now }
{
    let mut j = text.len();
    row[j] = false;
    while j > 0 {
        j -= 1;
        row[j] = taken_cell(below[j + 1], negated, among[j], text[j]);
    }
}

/// Fills the row of a run, from the row after it.
#[tactic(auto, unfolding(crate::specs::Cells::run_cells))]
fn fill_run(row: &mut [bool], text: &[u8], below: &[bool], slashes: bool)
    requires row { length row.old ≡ length text.now + 1 }
    requires below { length below.now ≡ length text.now + 1 }
    ensures { row.new ≡ run_cells slashes text.now below.now }
{
    let mut j = text.len();
    row[j] = below[j];
    while j > 0 {
        j -= 1;
        row[j] = run_cell(below[j], slashes, text[j], row[j + 1]);
    }
}

/// Fills the row of a run before a `/`, from the row of the `/` and the one after it.
#[tactic(auto, unfolding(crate::specs::Cells::run_cells, crate::specs::Cells::folder_cells))]
fn fill_folders(row: &mut [bool], text: &[u8], below: &[bool], behind: &[bool])
    requires row { length row.old ≡ length text.now + 1 }
    requires below { length below.now ≡ length text.now + 1 }
    requires behind { length behind.now ≡ length text.now + 1 }
    ensures { row.new ≡ folder_cells text.now below.now behind.now }
{
    let mut j = text.len();
    let mut reached = below[j];
    row[j] = either(reached, behind[j]);
    while j > 0 {
        j -= 1;
        reached = run_cell(below[j], true, text[j], reached);
        row[j] = either(reached, behind[j]);
    }
}

/// The row `k` of those below.
fn row_at(rows: &[Vec<bool>], k: usize) -> &[bool]
    requires { k < length rows.now }
    ensures { result.now ≡ get_or (map vec_items rows.now) k [] }
{
    &rows[k]
}

/// The first cell of the first row.
pub(crate) fn first_cell(rows: &[Vec<bool>]) -> bool
    requires some { 0 < length rows.now }
    requires long { 0 < length (get_or (map vec_items rows.now) 0 []) }
    ensures { result ≡ get_or (get_or (map vec_items rows.now) 0 []) 0 false }
{
    row_at(rows, 0)[0]
}

/// The row of a front, from the rows below it, the next one first.
#[tactic(auto, using(crate::proofs::RowLemmas::long_row))]
fn row_of(
    alloc: Global,
    shape: Front,
    text: &[u8],
    ignore_case: bool,
    below: &[Vec<bool>],
) -> Result<Vec<bool>, NoMemory>
    requires fits { FitsIn (length below.now) (front_of shape) }
    requires long { AreLong text.now (map vec_items below.now) }
    ensures { IfOk result (λ row. row.items ≡ cells_at ignore_case (front_of shape) text.now (map vec_items below.now)) }
{
    let mut row = vec![in alloc; matches!(shape, Front::Rest); text.len() + 1]?;
    match shape {
        Front::One(element, more) => fill_one(
            &mut row,
            text,
            row_at(below, more),
            element,
            ignore_case,
        ),
        Front::Run(slashes, more) => fill_run(&mut row, text, row_at(below, more), slashes),
        Front::Folders(more) => {
            fill_folders(&mut row, text, row_at(below, more), row_at(below, more + 1))
        }
        Front::Nothing | Front::Rest => {}
    }
    Ok(row)
}

/// The row after the whole pattern, which matches only the empty text.
#[tactic(auto, using(crate::proofs::Filling::last_is))]
fn last_row(alloc: Global, text: &[u8]) -> Result<Vec<bool>, NoMemory>
    ensures { IfOk result (λ row. row.items ≡ last_cells text.now) }
{
    let mut row = vec![in alloc; false; text.len() + 1]?;
    row[text.len()] = true;
    Ok(row)
}

/// The row of a front that no text matches.
fn no_cells(alloc: Global, text: &[u8]) -> Result<Vec<bool>, NoMemory>
    ensures { IfOk result (λ row. row.items ≡ replicate (length text.now + 1) false) }
{
    Ok(vec![in alloc; false; text.len() + 1]?)
}

/// The row of a bracket, from the row after it, and which bytes of the text are among its members.
fn taken_row(
    alloc: Global,
    text: &[u8],
    negated: bool,
    among: &[bool],
    below: &[bool],
) -> Result<Vec<bool>, NoMemory>
    requires among { length among.now ≡ length text.now }
    requires below { length below.now ≡ length text.now + 1 }
    ensures { IfOk result (λ row. row.items ≡ taken_cells negated text.now among.now below.now) }
{
    let mut row = vec![in alloc; false; text.len() + 1]?;
    fill_taken(&mut row, text, negated, among, below);
    Ok(row)
}

/// The row of a bracket, from what is known of the places after its `[`, and the rows there.
fn bracket_row(
    alloc: Global,
    ignore_case: bool,
    rest: &[u8],
    text: &[u8],
    places: &[Option<Place>],
    below: &[Vec<bool>],
) -> Result<Vec<bool>, NoMemory>
    requires places { map shown places.now ≡ all_known ignore_case text.now rest.now }
    requires count { length below.now ≡ length rest.now + 1 }
    requires long { AreLong text.now (map vec_items below.now) }
    ensures { IfOk result (λ row. row.items ≡ cells_at ignore_case (cursor.one_of rest.now) text.now (map vec_items below.now)) }
{
    let begin = members_begin(rest);
    match place_at(places, begin) {
        Some(place) => {
            let behind = row_at(below, begin + place.length);
            taken_row(alloc, text, negates(rest), &place.among, behind)
        }
        None => no_cells(alloc, text),
    }
}

/// The row of a pattern. The pattern is its first byte and the rest; `fresh` says that it is at the start of the whole pattern or after `/`.
fn pattern_row(
    alloc: Global,
    ignore_case: bool,
    fresh: bool,
    first: u8,
    rest: &[u8],
    text: &[u8],
    places: &[Option<Place>],
    below: &[Vec<bool>],
) -> Result<Vec<bool>, NoMemory>
    requires places { map shown places.now ≡ all_known ignore_case text.now rest.now }
    requires below { map vec_items below.now ≡ rows_of ignore_case (first == 47) rest.now text.now }
    ensures { IfOk result (λ row. row.items ≡ cells ignore_case fresh (first ∷ rest.now) text.now) }
{
    if first == b'[' {
        bracket_row(alloc, ignore_case, rest, text, places, below)
    } else {
        let shape = read_front(fresh, first, rest);
        row_of(alloc, shape, text, ignore_case, below)
    }
}

/// Whether a place of a pattern follows `/`; for its start, `fresh` says it.
pub(crate) fn is_fresh_at(fresh: bool, i: usize, pattern: &[u8]) -> bool
    requires { i ≤ length pattern.now }
    ensures { result ≡ is_fresh_at fresh i pattern.now }
{
    if i == 0 {
        fresh
    } else {
        pattern[i - 1] == b'/'
    }
}

/// As many rows as asked for, all of them empty.
fn empty_rows(alloc: Global, count: usize) -> Result<Vec<Vec<bool>>, NoMemory>
    ensures { IfOk result (λ rows. length rows.items ≡ count) }
{
    let mut rows = Vec::with_capacity(alloc, count)?;
    while rows.len() < count {
        rows.push(Vec::new(alloc))?;
    }
    Ok(rows)
}

/// Fills the rows of a pattern's suffixes, from the last one to the first.
fn fill_rows(
    alloc: Global,
    fresh: bool,
    pattern: &[u8],
    text: &[u8],
    ignore_case: bool,
    places: &[Option<Place>],
) -> Result<Vec<Vec<bool>>, NoMemory>
    requires places { map shown places.now ≡ all_known ignore_case text.now pattern.now }
    requires count { length places.now ≡ length pattern.now + 1 }
    ensures { IfOk result (λ rows. map vec_items rows.items ≡ rows_of ignore_case fresh pattern.now text.now) }
{
    let mut rows = empty_rows(alloc, pattern.len() + 1)?;
    let mut i = pattern.len();
    rows[i] = last_row(alloc, text)?;
    while i > 0 {
        i -= 1;
        let fresh_here = is_fresh_at(fresh, i, pattern);
        let rest = &pattern[i + 1..];
        rows[i] = pattern_row(
            alloc,
            ignore_case,
            fresh_here,
            pattern[i],
            rest,
            text,
            &places[i + 1..],
            &rows[i + 1..],
        )?;
    }
    Ok(rows)
}

/// The rows of a pattern's suffixes, the whole pattern's first.
pub(crate) fn rows_of(
    alloc: Global,
    fresh: bool,
    pattern: &[u8],
    text: &[u8],
    ignore_case: bool,
) -> Result<Vec<Vec<bool>>, NoMemory>
    ensures { IfOk result (λ rows. map vec_items rows.items ≡ rows_of ignore_case fresh pattern.now text.now) }
{
    let places = tell_places(alloc, ignore_case, text, pattern)?;
    fill_rows(alloc, fresh, pattern, text, ignore_case, &places)
}

/// The table of a pattern and a text: a row for each place of the pattern and one for its end, each with a cell for
/// each place of the text and one for its end. A cell says whether the pattern from its place on matches the text
/// from its place on.
#[derive(Drop)]
pub struct Table {
    rows: Vec<Vec<bool>>,
}

impl Model for Table {
    ghost use Rattle.std.specs.Prelude.{Bool, List, map, vec_items};

    ghost Value = { List (List Bool) };

    ghost view = { λ t. map vec_items t.rows.items };
}

impl Table {
    ghost use Rattle.std.specs.Prelude.{◌≡◌, IfOk, map, vec_items};
    ghost use Rattle.gitconf_glob.specs.Rows.{IsTable};

    /// The table of a pattern and a text. Letters are compared without ASCII case if `ignore_case` is set.
    ///
    /// It takes memory for `pattern.len() + 1` rows of `text.len() + 1` cells, with one allocation for each row, and for a
    /// few words for each place of the pattern; for each place with members that a `]` ends, also for `text.len()` cells
    /// of what they take, while the rows are filled. The product of the two lengths is never computed.
    ///
    /// The time is a few steps for each cell, even for nested brackets: what the members take
    /// that begin at a place is computed once for each place, from those after it.
    ///
    /// # Errors
    ///
    /// Only when out of memory.
    pub fn fill(
        alloc: Global,
        pattern: &[u8],
        text: &[u8],
        ignore_case: bool,
    ) -> Result<Table, NoMemory>
        ensures { IfOk result (λ table. IsTable ignore_case pattern.now text.now table) }
    {
        let rows = rows_of(alloc, true, pattern, text, ignore_case)?;
        Ok(Table { rows })
    }

    /// The rows, the whole pattern's first.
    pub fn rows(&self) -> &[Vec<bool>]
        ensures { map vec_items result.now ≡ self.now }
    {
        &self.rows
    }
}
