//! Items of another file, after the items of this one.
ghost use Rattle.std.specs.Prelude.{◌≡◌, ℕ, ◌+◌, ◌-◌, ◌<◌, ◌≤◌, ◌↔◌, ◌++◌, [], ◌∷◌, if◌then◌else◌, length, IfErr, IsErrOf, OnErr, OnOk};
ghost use Rattle.gitconf_text.specs.Part as parts;
ghost use Rattle.gitconf_state.specs.Edits as edits;
ghost use Rattle.gitconf_items.specs.Items.{items_of};
ghost use Rattle.gitconf_text.specs.LineEnds.{bytes_of_line_end};
ghost use Rattle.gitconf_sections.specs.Held.{line_end_item};
ghost use Rattle.gitconf_views.specs.Joining.{front_then, AreBehind, AreSame};
ghost use Rattle.gitconf_text.specs.Sections.{no_number};

use gitconf_items::event::Span;
use gitconf_items::few::FewItems;
use gitconf_items::items::Item;
use gitconf_print::line_end::ends_line;
use gitconf_sections::held::join;
use gitconf_sections::sections::SectionList;
use gitconf_text::line_end::LineEnd;
use gitconf_text::parse::span;

/// Whether items begin with the line ending, or there are none.
fn begins_with(buffer: &[u8], items: &[Item], line_end: LineEnd) -> bool
    ensures { result ≡ edits.begins_with (bytes_of_line_end line_end) (items_of buffer.now items.now) }
{
    match items.split_first() {
        None => true,
        Some((first, _)) => match first {
            Item::Blanks(run) => run.bytes_in(buffer).starts_with(line_end.as_bytes()),
            Item::LineEnds(run) => run.bytes_in(buffer).starts_with(line_end.as_bytes()),
            Item::Comment { .. } | Item::Entry(_) => false,
        },
    }
}

/// Whether a line ending goes between items and those of another buffer: if there are items, they don't end with one, and the others don't
/// begin with it. A walk over the items from their end, up to an entry, a comment or a line ending.
pub fn parts_lines(
    buffer: &[u8],
    items: &[Item],
    other_buffer: &[u8],
    others: &[Item],
    line_end: LineEnd,
) -> bool
    ensures { edits.between (bytes_of_line_end line_end) (items_of buffer.now items.now) (items_of other_buffer.now others.now)
        ≡ (if result then parts.LineEndsItem (bytes_of_line_end line_end) ∷ [] else []) }
{
    !items.is_empty()
        && !ends_line(buffer, items, line_end)
        && !begins_with(other_buffer, others, line_end)
}

/// [`put_behind_section`] if there is no section: the items go after those of the front.
///
/// # Errors
///
/// Those of [`put_behind_section`]. The front is then as it was, too.
fn put_behind_front(
    front: &mut FewItems,
    sections: &mut SectionList,
    line_end: Option<Span>,
    others: FewItems,
    other: SectionList,
) -> Result<(), span::Error>
    requires none { sections.old.entries ≡ [] }
    ensures front { OnOk result (front.new.items ≡ front.old.items ++ (line_end_item line_end ++ others.items)) }
    ensures ok { OnOk result ((at : ℕ) → AreBehind at (line_end_item line_end ++ others.items) other sections.old sections.new) }
    ensures err_front { OnErr result (front.new.items ≡ front.old.items) }
    ensures err { OnErr result (AreSame sections.old sections.new) }
    ensures numbers { IsErrOf result 3 → no_number < sections.old.next + length other.entries }
    ensures memory { IfErr result (λ e. sections.old.next + length other.entries ≤ no_number → e ≡ 27) }
{
    let mut others = others;
    front.reserve(others.as_slice().len() + 1)?;
    sections.append(other)?;
    join(front, line_end, &mut others);
    Ok(())
}

/// Adds a line ending, if one is given, and others after what is held after the section at a place, and the sections of another table after
/// all others. Takes memory for the items, the places and the indexes.
///
/// # Errors
///
/// A [`span::Error`]: E3 if fewer numbers are left than the other table has sections, otherwise E27 when out of memory. All sections are
/// then as they were.
fn put_behind_section(
    sections: &mut SectionList,
    at: usize,
    line_end: Option<Span>,
    others: FewItems,
    other: SectionList,
) -> Result<(), span::Error>
    requires { at < length sections.old.entries }
    ensures ok { OnOk result (AreBehind at (line_end_item line_end ++ others.items) other sections.old sections.new) }
    ensures err { OnErr result (AreSame sections.old sections.new) }
    ensures numbers { IsErrOf result 3 → no_number < sections.old.next + length other.entries }
    ensures memory { IfErr result (λ e. sections.old.next + length other.entries ≤ no_number → e ≡ 27) }
{
    let mut others = others;
    sections.append_held(at, line_end, &mut others, other)
}

/// Adds items after what is held after a section, and another table's sections last. The items are a line ending, if one is given,
/// and others. They go after what is held after the section at a place, or after the front if there is no section; the sections of
/// the other table go after all others. Takes memory for the items, the places and the indexes.
///
/// # Errors
///
/// Those of [`put_behind_section`]. The front is then as it was, too.
pub fn put_behind(
    front: &mut FewItems,
    sections: &mut SectionList,
    at: usize,
    line_end: Option<Span>,
    others: FewItems,
    other: SectionList,
) -> Result<(), span::Error>
    requires { at ≤ length sections.old.entries - 1 }
    ensures front { OnOk result (front.new.items ≡ front_then sections.old.entries front.old.items (line_end_item line_end ++ others.items)) }
    ensures ok { OnOk result (AreBehind at (line_end_item line_end ++ others.items) other sections.old sections.new) }
    ensures err_front { OnErr result (front.new.items ≡ front.old.items) }
    ensures err { OnErr result (AreSame sections.old sections.new) }
    ensures numbers { IsErrOf result 3 → no_number < sections.old.next + length other.entries }
    ensures memory { IfErr result (λ e. sections.old.next + length other.entries ≤ no_number → e ≡ 27) }
{
    if sections.is_empty() {
        put_behind_front(front, sections, line_end, others, other)
    } else {
        put_behind_section(sections, at, line_end, others, other)
    }
}
