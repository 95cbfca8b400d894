//! Items that are changed in place: in the list that the sections share, or in a list of their own.
ghost use Rattle.std.specs.Prelude.{◌≡◌, ◌+◌, ◌-◌, ◌^◌, ◌≤◌, length, drop, take, IfOk, OnErr, OnOk};
ghost use Rattle.gitconf_items.specs.ItemsFit.{AreItemsWithin};
ghost use Rattle.gitconf_items.specs.Moves.{AreItemsMoved};
ghost use Rattle.gitconf_sections.specs.declared.body.Body.TheVariants.{Nothing};
ghost use Rattle.gitconf_sections.specs.LeavingOut.{is_next, without_all, Ascend};
ghost use Rattle.gitconf_sections.specs.Section.{body_items, end_behind, IsSameBut, IsSameButIn, NeedsNoMore};

use crate::body::Body;
use crate::id::SectionId;
use gitconf_items::event::Span;
use gitconf_items::items::Item;
use gitconf_items::moving::move_items;
use gitconf_text::NoMemory;
use std::alloc::{AllocError, Global};
use std::mem::replace;

/// Whether the next item to be removed is at a place.
fn is_at(places: &[(SectionId, usize)], at: usize) -> bool
    ensures { result ≡ is_next at places.now }
{
    match places.first() {
        Some(place) => place.1 == at,
        None => false,
    }
}

/// Puts the items that stay before those at these places, and returns how many stay. One walk over the items, with at most
/// one swap for each that stays. Takes no memory.
fn leave_out(items: &mut [Item], places: &[(SectionId, usize)]) -> usize
    requires { Ascend 0 places.now }
    ensures left { take result items.new ≡ without_all places.now items.old }
    ensures fewer { result ≤ length items.old }
    ensures long { length items.new ≡ length items.old }
{
    let mut left = places;
    let mut kept = 0;
    for at in 0..items.len() {
        if is_at(left, at) {
            left = left.split_at(1).1;
        } else {
            items.swap(at, kept);
            kept += 1;
        }
    }
    kept
}

/// [`leave_out`], for `len` items of a list after the first `from`.
fn leave_out_part(
    list: &mut [Item],
    from: usize,
    len: usize,
    places: &[(SectionId, usize)],
) -> usize
    requires within { from + len ≤ length list.old }
    requires ascend { Ascend 0 places.now }
    ensures left { take result (drop from list.new) ≡ without_all places.now (take len (drop from list.old)) }
    ensures fewer { result ≤ len }
    ensures same { IsSameBut from len list.old list.new }
{
    let (_, behind) = list.split_at_mut(from);
    let (part, _) = behind.split_at_mut(len);
    leave_out(part, places)
}

/// Moves `len` items of a list after the first `from`, as [`move_items`] does.
fn move_part(list: &mut [Item], from: usize, len: usize, by: u32)
    requires within { from + len ≤ length list.old }
    requires items { AreItemsWithin (2 ^ 32 - 1 - by) (take len (drop from list.old)) }
    ensures moved { AreItemsMoved by (take len (drop from list.old)) (take len (drop from list.new)) }
    ensures same { IsSameBut from len list.old list.new }
{
    let (_, behind) = list.split_at_mut(from);
    let (part, _) = behind.split_at_mut(len);
    move_items(part, by);
}

/// Moves items to a list of their own, and leaves line endings of no bytes in their places.
///
/// # Errors
///
/// Out of memory. The items are then as they were.
fn taken(alloc: Global, items: &mut [Item]) -> Result<Vec<Item>, AllocError>
    ensures ok { IfOk result (λ taken. taken.items ≡ items.old) }
    ensures err { OnErr result (items.new ≡ items.old) }
    ensures long { length items.new ≡ length items.old }
{
    let mut taken = Vec::with_capacity(alloc, items.len())?;
    for at in 0..items.len() {
        taken.push_reserved(replace(&mut items[at], Item::LineEnds(Span::NOTHING)));
    }
    Ok(taken)
}

/// [`taken`], for `len` items of a list after the first `from`.
fn take_part(
    alloc: Global,
    list: &mut [Item],
    from: usize,
    len: usize,
) -> Result<Vec<Item>, AllocError>
    requires { from + len ≤ length list.old }
    ensures ok { IfOk result (λ taken. taken.items ≡ take len (drop from list.old)) }
    ensures err { OnErr result (list.new ≡ list.old) }
    ensures same { IsSameBut from len list.old list.new }
{
    let (_, behind) = list.split_at_mut(from);
    let (part, _) = behind.split_at_mut(len);
    taken(alloc, part)
}

/// Removes the items at these places from a body. Takes no memory.
pub(crate) fn leave_out_of(list: &mut Vec<Item>, body: Body, places: &[(SectionId, usize)]) -> Body
    requires within { end_behind 0 body ≤ length list.old.items }
    requires ascend { Ascend 0 places.now }
    ensures left { body_items list.new.items result ≡ without_all places.now (body_items list.old.items body) }
    ensures less { NeedsNoMore body result }
    ensures same { IsSameButIn list.old.items list.new.items body }
{
    match body {
        Body::Listed { from, len } => {
            let kept = leave_out_part(list.as_mut_slice(), from as usize, len as usize, places);
            Body::Listed {
                from,
                len: kept as u32,
            }
        }
        Body::Own(mut own) => {
            let kept = leave_out(own.as_mut_slice(), places);
            own.truncate(kept);
            Body::Own(own)
        }
        Body::Nothing => Body::Nothing,
    }
}

/// Moves the items of a body, as [`move_items`] does.
pub(crate) fn move_body(list: &mut Vec<Item>, body: Body, by: u32) -> Body
    requires within { end_behind 0 body ≤ length list.old.items }
    requires items { AreItemsWithin (2 ^ 32 - 1 - by) (body_items list.old.items body) }
    ensures moved { AreItemsMoved by (body_items list.old.items body) (body_items list.new.items result) }
    ensures less { NeedsNoMore body result }
    ensures same { IsSameButIn list.old.items list.new.items body }
{
    match body {
        Body::Listed { from, len } => {
            move_part(list.as_mut_slice(), from as usize, len as usize, by);
            Body::Listed { from, len }
        }
        Body::Own(mut own) => {
            move_items(own.as_mut_slice(), by);
            Body::Own(own)
        }
        Body::Nothing => Body::Nothing,
    }
}

/// [`take_part`], into a box.
///
/// # Errors
///
/// Out of memory. The list is then as it was.
fn take_boxed(
    alloc: Global,
    list: &mut Vec<Item>,
    from: usize,
    len: usize,
) -> Result<Box<Vec<Item>>, NoMemory>
    requires { from + len ≤ length list.old.items }
    ensures ok { IfOk result (λ own. own.value.items ≡ take len (drop from list.old.items)) }
    ensures err { OnErr result (list.new.items ≡ list.old.items) }
    ensures same { IsSameBut from len list.old.items list.new.items }
{
    let mut own = Box::new(alloc, Vec::new(alloc))?;
    *own = take_part(alloc, list.as_mut_slice(), from, len)?;
    Ok(own)
}

/// Moves the items of a body to a box; the body then has none.
///
/// # Errors
///
/// Out of memory, only if the body has no list of its own. All is then as it was.
pub(crate) fn take_out(
    alloc: Global,
    list: &mut Vec<Item>,
    body: &mut Body,
) -> Result<Box<Vec<Item>>, NoMemory>
    requires { end_behind 0 body.old ≤ length list.old.items }
    ensures ok { IfOk result (λ own. own.value.items ≡ body_items list.old.items body.old) }
    ensures nothing { OnOk result (body.new ≡ Nothing) }
    ensures less { NeedsNoMore body.old body.new }
    ensures same { IsSameButIn list.old.items list.new.items body.old }
    ensures err { OnErr result (body.new ≡ body.old) }
    ensures err_list { OnErr result (list.new.items ≡ list.old.items) }
{
    match replace(body, Body::Nothing) {
        Body::Own(own) => Ok(own),
        Body::Nothing => Ok(Box::new(alloc, Vec::new(alloc))?),
        Body::Listed { from, len } => {
            let own = take_boxed(alloc, list, from as usize, len as usize);
            if own.is_err() {
                *body = Body::Listed { from, len };
            }
            own
        }
    }
}
