//! What brackets take of a text, for each place of a pattern, from the last place to the first.
ghost use Rattle.std.specs.Prelude.{◌≡◌, ◌+◌, ◌<◌, ◌^◌, ℕ, Bool, List, false, None, length, drop, get_or, map, replicate, IfOk, IfSome};
ghost use Rattle.gitconf_glob.specs.Counted as counted;
ghost use Rattle.gitconf_glob.specs.Places.{told, all_known, told_behind, with_member, joined, shown, lent};

use crate::bracket::{Member, begins_close, close_with, either, read_member};
use gitconf_text::NoMemory;
use std::alloc::Global;

/// What members take that begin at a place of a pattern, up to their `]`.
#[derive(Drop)]
pub struct Place {
    /// For each byte of the text, whether it is one of them.
    pub(crate) among: Vec<bool>,
    /// How many bytes of the pattern they have, including the `]`.
    pub(crate) length: usize,
}

/// Whether there is such a cell, and it is set.
fn is_set(cells: &[bool], j: usize) -> bool
    ensures { result ≡ get_or (drop j cells.now) 0 false }
{
    match cells.get(j) {
        Some(cell) => *cell,
        None => false,
    }
}

/// Which bytes of the text a member takes, or the members after it.
#[tactic(auto, unfolding(crate::specs::Places::joined))]
fn join(
    alloc: Global,
    ignore_case: bool,
    member: Member,
    text: &[u8],
    behind: &[bool],
) -> Result<Vec<bool>, NoMemory>
    ensures { IfOk result (λ cells. cells.items ≡ joined ignore_case member text.now behind.now) }
{
    let mut cells = Vec::with_capacity(alloc, text.len())?;
    let mut j = 0;
    while j < text.len() {
        cells.push(either(member.has(ignore_case, text[j]), is_set(behind, j)))?;
        j += 1;
    }
    Ok(cells)
}

/// What is known after a member, from what is known of the place there: if `]` is there, the bracket ends and takes nothing more.
fn told_behind<'a>(pattern: &[u8], place: &'a Option<Place>) -> Option<(&'a [bool], usize)>
    ensures { (ignore_case : Bool) (text : List ℕ) → shown place.now ≡ told ignore_case text pattern.now
        → lent result ≡ told_behind ignore_case text pattern.now }
{
    if begins_close(pattern) {
        return Some((&[], 1));
    }
    match place {
        Some(place) => Some((&place.among, place.length)),
        None => None,
    }
}

/// What is known of a place.
pub(crate) fn place_at(places: &[Option<Place>], k: usize) -> &Option<Place>
    requires { k < length places.now }
    ensures { shown result.now ≡ get_or (map shown places.now) k None }
{
    &places[k]
}

/// What is known at a member that has `more` bytes after its first one, from what is known after it.
fn with_member(
    alloc: Global,
    ignore_case: bool,
    text: &[u8],
    member: Member,
    more: usize,
    behind: Option<(&[bool], usize)>,
) -> Result<Option<Place>, NoMemory>
    requires { IfSome behind (λ b. b.1 + (more + 1) < 2 ^ 63) }
    ensures { IfOk result (λ place. shown place ≡ with_member ignore_case text.now member more (lent behind.entry)) }
{
    match behind {
        Some((behind, length)) => {
            let among = join(alloc, ignore_case, member, text, behind)?;
            let length = length + (more + 1);
            Ok(Some(Place { among, length }))
        }
        None => Ok(None),
    }
}

/// What is known of a pattern's first place, from what is known of those after it. It takes a step for each byte of the
/// text, and memory for a cell for each.
fn tell_place(
    alloc: Global,
    ignore_case: bool,
    text: &[u8],
    pattern: &[u8],
    close: Option<usize>,
    below: &[Option<Place>],
) -> Result<Option<Place>, NoMemory>
    requires close { close ≡ counted.close_from 0 pattern.now }
    requires below { map shown below.now ≡ all_known ignore_case text.now (drop 1 pattern.now) }
    ensures { IfOk result (λ place. shown place ≡ told ignore_case text.now pattern.now) }
{
    match read_member(pattern, close) {
        Some((member, more)) => {
            let behind = told_behind(&pattern[more + 1..], place_at(below, more));
            with_member(alloc, ignore_case, text, member, more, behind)
        }
        None => Ok(None),
    }
}

/// As many places as asked for, with nothing known of them.
fn untold(alloc: Global, count: usize) -> Result<Vec<Option<Place>>, NoMemory>
    ensures { IfOk result (λ places. places.items ≡ replicate count None) }
{
    let mut places = Vec::with_capacity(alloc, count)?;
    while places.len() < count {
        places.push(None)?;
    }
    Ok(places)
}

/// What is known of each place of a pattern, and of its end. It is found from the last place to the first, each from
/// those after it: if a `]` comes later, a step for each byte of the text, and memory for a cell for each.
pub fn tell_places(
    alloc: Global,
    ignore_case: bool,
    text: &[u8],
    pattern: &[u8],
) -> Result<Vec<Option<Place>>, NoMemory>
    ensures { IfOk result (λ places. map shown places.items ≡ all_known ignore_case text.now pattern.now) }
{
    let mut places = untold(alloc, pattern.len() + 1)?;
    let mut close = None;
    let mut i = pattern.len();
    while i > 0 {
        i -= 1;
        close = close_with(pattern[i], &pattern[i + 1..], close);
        places[i] = tell_place(
            alloc,
            ignore_case,
            text,
            &pattern[i..],
            close,
            &places[i + 1..],
        )?;
    }
    Ok(places)
}
