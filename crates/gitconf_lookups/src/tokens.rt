//! What is found in the tokens of a file: its line ending, whether there are any, and how many entries.
ghost use Rattle.std.specs.Prelude.{◌≡◌, ◌-◌, ◌^◌, ◌++◌, length, flat_map, min, option_map, true};
ghost use Rattle.std.specs.List.{count_by};
ghost use Rattle.gitconf_text.specs.Token.{item_tokens};
ghost use Rattle.gitconf_state.specs.State.{entries_of};
ghost use Rattle.gitconf_state.specs.LineEnds.{line_end_of};
ghost use Rattle.gitconf_items.specs.Items.{items_of};
ghost use Rattle.gitconf_text.specs.LineEnds.{bytes_of_line_end};
ghost use Rattle.gitconf_print.specs.LineEnds.{first_newline_of_bodies};
ghost use Rattle.gitconf_views.specs.Views.{sections_left};
ghost use Rattle.gitconf_body.specs.Spacings.{is_stored_entry};
ghost use Rattle.gitconf_views.specs.Counts.{are_void, section_entries};

use gitconf_body::entries::entry_count;
use gitconf_items::items::Item;
use gitconf_print::line_end::first_line_end;
use gitconf_text::line_end::LineEnd;
use gitconf_views::section::Sections;

/// The line ending of the first newline of the sections' bodies, if there is one.
pub fn bodies_line_end(sections: Sections<'_>) -> Option<LineEnd>
    ensures { option_map bytes_of_line_end result ≡ first_newline_of_bodies (sections_left sections.entry) }
{
    for section in sections {
        if let Some(found) = first_line_end(section.buffer, section.items) {
            return Some(found);
        }
    }
    None
}

/// The line ending of the first newline; LF if there is none. The newlines are those of a front and of the sections'
/// bodies.
pub fn file_line_end(buffer: &[u8], front: &[Item], sections: Sections<'_>) -> LineEnd
    ensures { bytes_of_line_end result ≡ line_end_of (flat_map item_tokens
        (items_of buffer.now front.now ++ flat_map (λ s. s.items) (sections_left sections.entry))) }
{
    if let Some(found) = first_line_end(buffer, front) {
        return found;
    }
    bodies_line_end(sections).unwrap_or(LineEnd::Lf)
}

/// Whether all bodies are empty.
pub fn are_void(sections: Sections<'_>) -> bool
    ensures { result ≡ are_void (sections_left sections.entry) }
{
    for section in sections {
        if !section.items.is_empty() {
            return false;
        }
    }
    true
}

/// How many entries the sections have, or `usize::MAX` if there are more.
pub fn value_count(sections: Sections<'_>) -> usize
    ensures { result ≡ min (length (section_entries (sections_left sections.entry))) (2 ^ 64 - 1) }
{
    let mut count: usize = 0;
    for section in sections {
        count = count.saturating_add(entry_count(section.items));
    }
    count
}
