//! The name that a name was meant to be.
ghost use Rattle.std.specs.Prelude.{◌≡◌, IfOk, length, map, string_bytes};
ghost use Rattle.std.specs.Option.{option_map};
ghost use Rattle.gitconf_sources.specs.Key.{key_of};
ghost use Rattle.gitconf_text.specs.Bytes.{fold};
ghost use Rattle.gixcfg_names.specs.Nearest as spec;
ghost use Rattle.gixcfg_names.specs.Rows.{plain};

use crate::known::{is_any, is_beside};
use crate::rows::Row;
use gitconf_sources::key::KeyRef;
use std::alloc::{AllocError, Global};
use strsim::osa_distance;

/// A row, and how many letters its name has to be changed by.
#[derive(Clone, Copy)]
struct Near {
    row: Row,
    distance: usize,
}

/// The row of a key's section whose name is spelled most like the key's.
///
/// Of a name of up to five letters one may be put in, left out, changed or swapped, of one of up to eight two, of a longer one three. Of
/// several rows that are as near it is the first. One walk over the rows; for each that is in the section, the product of both names' lengths.
///
/// # Errors
///
/// Out of memory.
pub fn nearest(alloc: Global, rows: &[Row], key: KeyRef<'_>) -> Result<Option<Row>, AllocError>
    ensures { IfOk result (λ row. option_map plain row ≡ spec.nearest (map plain rows.now) (key_of key.entry)) }
{
    let beside = all_beside(alloc, rows, key)?;
    let most = most_for(key.value_name);
    let fewest = fewest(&beside, most + 1);
    if fewest > most {
        return Ok(None);
    }
    Ok(first_at(&beside, fewest))
}

/// The rows in the section of a key that have a name of their own, each with how far that is from the key's.
#[tactic(auto, unfolding(crate::specs::Nearest::all_beside))]
fn all_beside(alloc: Global, rows: &[Row], key: KeyRef<'_>) -> Result<Vec<Near>, AllocError>
    ensures { IfOk result (λ all. map spec.near all.items ≡ spec.all_beside (map plain rows.now) (key_of key.entry)) }
{
    let mut all = Vec::new(alloc);
    for row in rows {
        if is_beside(row.key, key) && !is_any(row.key.value_name.as_bytes()) {
            let distance = distance(alloc, key.value_name, row.key.value_name)?;
            all.push(Near {
                row: *row,
                distance,
            })?;
        }
    }
    Ok(all)
}

/// How many letters have to be put in, left out, changed or swapped to make a name another one; their case counts for nothing.
fn distance(alloc: Global, name: &str, other: &str) -> Result<usize, AllocError>
    ensures { IfOk result (λ count. count ≡ spec.distance name.now other.now) }
{
    osa_distance(
        alloc,
        &in_lower_case(alloc, name)?,
        &in_lower_case(alloc, other)?,
    )
}

/// A name in lower case.
fn in_lower_case(alloc: Global, name: &str) -> Result<String, AllocError>
    ensures { IfOk result (λ lower. string_bytes lower ≡ fold name.now) }
{
    let mut lower = String::from_str(alloc, name)?;
    lower.make_ascii_lowercase();
    Ok(lower)
}

/// How many letters of a name may be wrong.
fn most_for(name: &str) -> usize
    ensures { result ≡ spec.most_for (length name.now) }
{
    match name.len() {
        0..=5 => 1,
        6..=8 => 2,
        _ => 3,
    }
}

/// The least distance of these, if it is less than that.
#[tactic(auto, unfolding(crate::specs::Nearest::fewest))]
fn fewest(all: &[Near], from: usize) -> usize
    ensures { result ≡ spec.fewest from (map spec.near all.now) }
{
    let mut fewest = from;
    for near in all {
        if near.distance < fewest {
            fewest = near.distance;
        }
    }
    fewest
}

/// The first row at a distance.
#[tactic(auto, unfolding(crate::specs::Nearest::first_at))]
fn first_at(all: &[Near], distance: usize) -> Option<Row>
    ensures { option_map plain result ≡ spec.first_at distance (map spec.near all.now) }
{
    for near in all {
        if near.distance == distance {
            return Some(near.row);
        }
    }
    None
}
