//! Whether a text matches a pattern.
ghost use Rattle.std.specs.Prelude.{◌≡◌, true, IfOk};
ghost use Rattle.gitconf_glob.specs.Pattern.{matches};
ghost use Rattle.gitconf_glob.specs.Cursor.{matches_after};

use crate::front::front_passed;
use crate::table::{first_cell, is_fresh_at, rows_of};
use gitconf_text::NoMemory;
use std::alloc::Global;

/// Whether the text matches the rest of a pattern, by a table of both.
fn matches_by_rows(
    alloc: Global,
    fresh: bool,
    pattern: &[u8],
    text: &[u8],
    ignore_case: bool,
) -> Result<bool, NoMemory>
    ensures { IfOk result (λ it. it ≡ matches_after ignore_case 0 fresh pattern.now text.now) }
{
    let rows = rows_of(alloc, fresh, pattern, text, ignore_case)?;
    Ok(first_cell(&rows))
}

/// Whether the path pattern matches the text. Letters are compared without ASCII case if `ignore_case` is set.
///
/// What is before the pattern's first `*` is compared front by front, each with one byte of the text: a few steps
/// for each byte of the pattern, and no memory. So a pattern without `*` takes time linear in what is compared of both,
/// and never fails. From the first `*` on, the whole table of what is left of both is filled, at the cost of
/// `Table::fill`: a row may need any row below it, so keeping two rows at a time would not be enough.
///
/// # Errors
///
/// Only when out of memory.
pub fn wildmatch(
    alloc: Global,
    pattern: &[u8],
    text: &[u8],
    ignore_case: bool,
) -> Result<bool, NoMemory>
    ensures { IfOk result (λ it. it ≡ matches ignore_case pattern.now text.now) }
{
    let mut i = 0;
    let mut j = 0;
    while i < pattern.len() {
        if pattern[i] == b'*' {
            let fresh = is_fresh_at(true, i, pattern);
            return matches_by_rows(alloc, fresh, &pattern[i..], &text[j..], ignore_case);
        }
        if j == text.len() {
            return Ok(false);
        }
        match front_passed(ignore_case, pattern[i], &pattern[i + 1..], text[j]) {
            Some(more) => {
                i += 1 + more;
                j += 1;
            }
            None => return Ok(false),
        }
    }
    Ok(j == text.len())
}
