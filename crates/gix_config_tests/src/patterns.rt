//! The table of the matcher: one more row than the pattern has bytes, each one cell longer than the text.

use crate::calls::Told;
use gitconf_tests::shim::{Outcome, begin, each_refused, was_refused};
use gix_config::NoMemory;
use gix_config::glob::Table;
use std::alloc::Global;
use std::test::Fail;

/// 64 times `*a`, then `b`.
const PATTERN: &[u8] =
    b"*a*a*a*a*a*a*a*a*a*a*a*a*a*a*a*a*a*a*a*a*a*a*a*a*a*a*a*a*a*a*a*a*a*a*a*a*a*a*a*a*a*a*a*a*a*a*a*a*a*a*a*a*a*a*a*a*a*a*a*a*a*a*a*ab";

/// Whether there are 130 rows of 201 cells, and the pattern doesn't match the text.
fn is_whole(rows: &[Vec<bool>]) -> bool {
    let is_matched = rows.first().and_then(|row| row.first().copied());
    rows.len() == 130 && rows.iter().all(|row| row.len() == 201) && is_matched == Some(false)
}

fn filled(alloc: Global) -> Told {
    match Table::fill(alloc, PATTERN, &[b'a'; 200], false) {
        Ok(table) => Some(is_whole(table.rows())),
        Err(NoMemory) => None,
    }
}

fn a_table_filled(alloc: Global) -> Result<Outcome, Fail> {
    begin(alloc)?;
    let told = filled(alloc);
    let refused = was_refused(alloc);
    Ok(Outcome {
        refused,
        fits: told.unwrap_or(refused),
    })
}

#[test]
fn rows_of_a_table(rt: HostRuntime) -> Result<(), Fail> {
    each_refused(rt.alloc(), "a table of a pattern", a_table_filled)
}
