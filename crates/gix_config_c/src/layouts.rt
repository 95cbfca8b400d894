//! Formatted texts, and path patterns: calls that need no handle.
ghost use Rattle.std.specs.Prelude.{◌≡◌, ◌⊎◌};
ghost use Rattle.gitconf_glob.specs.Pattern.{matches};
ghost use Rattle.gix_config_c.specs.Blocks.{IsKept};
ghost use Rattle.gix_config_c.specs.Layouts.{options_of};
ghost use Rattle.gitconf_layout.specs.Layout.{default_options};
ghost use Rattle.gix_config_c.specs.LaidOut.{IsLaidOut};
ghost use Rattle.gix_config_c.specs.Opened.{IsKeptPlace};
ghost use Rattle.gix_config_c.specs.Texts.{IsRefusedText};

use crate::block::{Block, room};
use crate::fault::Fault;
use crate::layout::{Layout, options};
use crate::opening::refused;
use crate::{DONE, OUT_OF_MEMORY};
use gitconf_glob::wildmatch;
use gitconf_layout::format::normalize;
use std::alloc::Global;

/// Fills in the usual layout: a tab before names, ` = `, the line ending of the text, one line ending at the end, and all blank lines.
#[unsafe(no_mangle)]
pub extern "C" fn gix_config_layout_default(layout: &mut Layout)
    ensures { options_of layout.new ≡ default_options }
{
    *layout = Layout::usual();
}

/// Returns a formatted text: its lines written again, with the same sections, entries and comments. What the block had is freed.
///
/// 1 for a text that can't be read on at some place, 2 for one of more than 4294967295 bytes; then the place says where, else it
/// is as it was. 27 when out of memory. The block is as it was after any number but 0.
#[unsafe(no_mangle)]
pub extern "C" fn gix_config_normalize(
    alloc: Global,
    text: &[u8],
    layout: &Layout,
    laid_out: &mut Block,
    place: &mut Fault,
) -> u32
    ensures answer { IsLaidOut (options_of layout.now) text.now result laid_out.new }
    ensures refused { (result ≡ 1) ⊎ (result ≡ 2) → IsRefusedText text.now result place.new }
    ensures kept { (result ≡ 0 → ⊥) → IsKept laid_out.old laid_out.new }
    ensures kept_place { (result ≡ 1 → ⊥) → (result ≡ 2 → ⊥) → IsKeptPlace place.old place.new }
{
    match normalize(alloc, text, options(layout)) {
        Ok(found) => match room(alloc) {
            Some(room) => {
                laid_out.put(room, found.into_vec());
                DONE
            }
            None => OUT_OF_MEMORY,
        },
        Err(refusal) => refused(text, &refusal, place),
    }
}

/// Tells whether a path pattern matches a text, as in the conditions of includes. With `ignore_case` letters are compared without ASCII
/// case.
///
/// 27 when out of memory; the boolean is then as it was.
#[unsafe(no_mangle)]
pub extern "C" fn gix_config_wildmatch(
    alloc: Global,
    pattern: &[u8],
    text: &[u8],
    ignore_case: bool,
    is_match: &mut bool,
) -> u32
    ensures number { (result ≡ 0) ⊎ (result ≡ 27) }
    ensures done { result ≡ 0 → is_match.new ≡ matches ignore_case pattern.now text.now }
    ensures kept { (result ≡ 0 → ⊥) → is_match.new ≡ is_match.old }
{
    match wildmatch(alloc, pattern, text, ignore_case) {
        Ok(found) => {
            *is_match = found;
            DONE
        }
        Err(_) => OUT_OF_MEMORY,
    }
}
