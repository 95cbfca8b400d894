//! Printing a file: its front and its sections, all or those that a filter keeps.
ghost use Rattle.std.specs.Fn.{ComputesKey};
ghost use Rattle.std.specs.List.{list_any};
ghost use Rattle.std.specs.Prelude.{◌≡◌, ℕ, Bool, List, true, IfOk};
ghost use Rattle.gitconf_items.specs.Sink.{Writes, Counts};
ghost use Rattle.gitconf_state.specs.State.{SectionState};
ghost use Rattle.gitconf_items.specs.Items.{items_of};
ghost use Rattle.gitconf_text.specs.LineEnds.{bytes_of_line_end};
ghost use Rattle.gitconf_views.specs.Texts.{is_front_ended, next_text, ended_behind, sections_text, IsTextOfSome};
ghost use Rattle.gitconf_views.specs.Views.{shown, sections_left};

use gitconf_items::items::Item;
use gitconf_items::sink::{Sink, SinkFault};
use gitconf_print::line_end::ends_line;
use gitconf_print::sections::write_line_end_unless;
use gitconf_text::line_end::LineEnd;
use gitconf_views::section::{SectionRef, Sections};

/// Whether the filter keeps a section. Only this function calls the filter.
fn is_kept<F: FnMut(&SectionRef<'_>) -> bool>(filter: &mut F, section: &SectionRef<'_>) -> bool
    requires { F.IsAlwaysCallable filter.old }
    ensures callable { F.IsAlwaysCallable filter.new }
    ensures exact { (keeps : SectionState → Bool) → ComputesKey F.FnMut (λ r. keeps (shown r)) filter.old
        → ComputesKey F.FnMut (λ r. keeps (shown r)) filter.new × (result ≡ keeps (shown section.now)) }
{
    filter(section)
}

/// Whether the filter keeps one of the sections. It is called up to the first that it keeps.
fn is_any_kept<F: FnMut(&SectionRef<'_>) -> bool>(filter: &mut F, sections: Sections<'_>) -> bool
    requires { F.IsAlwaysCallable filter.old }
    ensures callable { F.IsAlwaysCallable filter.new }
    ensures exact { (keeps : SectionState → Bool) → ComputesKey F.FnMut (λ r. keeps (shown r)) filter.old
        → ComputesKey F.FnMut (λ r. keeps (shown r)) filter.new × (result ≡ list_any keeps (sections_left sections.entry)) }
    ensures some { result ≡ true → list_any (λ _. true) (sections_left sections.entry) ≡ true }
{
    for section in sections {
        if is_kept(filter, &section) {
            return true;
        }
    }
    false
}

/// Whether no line ending is missing after a front: it is empty, or ends with one, or no section is kept.
pub fn front_is_ended<F: FnMut(&SectionRef<'_>) -> bool>(
    buffer: &[u8],
    front: &[Item],
    sections: Sections<'_>,
    line_end: LineEnd,
    filter: &mut F,
) -> bool
    requires { F.IsAlwaysCallable filter.old }
    ensures callable { F.IsAlwaysCallable filter.new }
    ensures exact { (keeps : SectionState → Bool) → ComputesKey F.FnMut (λ r. keeps (shown r)) filter.old
        → ComputesKey F.FnMut (λ r. keeps (shown r)) filter.new
        × (result ≡ is_front_ended keeps (bytes_of_line_end line_end) (items_of buffer.now front.now) (sections_left sections.entry)) }
    ensures some { is_front_ended (λ _. true) (bytes_of_line_end line_end) (items_of buffer.now front.now) (sections_left sections.entry) ≡ true
        → result ≡ true }
{
    front.is_empty() || ends_line(buffer, front, line_end) || !is_any_kept(filter, sections)
}

/// Writes a section that the filter keeps, after a line ending if the last one ended without. Returns whether the last section
/// that was written ended with a line ending.
fn write_next<W: Sink, F: FnMut(&SectionRef<'_>) -> bool>(
    out: &mut W,
    ended: bool,
    section: &SectionRef<'_>,
    line_end: LineEnd,
    filter: &mut F,
) -> Result<bool, SinkFault>
    requires { F.IsAlwaysCallable filter.old }
    ensures callable { F.IsAlwaysCallable filter.new }
    ensures exact { (keeps : SectionState → Bool) → ComputesKey F.FnMut (λ r. keeps (shown r)) filter.old
        → ComputesKey F.FnMut (λ r. keeps (shown r)) filter.new
        × Writes result (next_text keeps (bytes_of_line_end line_end) ended (shown section.now)) (W.told out.old) (W.told out.new)
        × IfOk result (λ e. e ≡ ended_behind keeps (bytes_of_line_end line_end) ended (shown section.now)) }
    ensures some { (kept : Bool) × Writes result (next_text (λ _. kept) (bytes_of_line_end line_end) ended (shown section.now)) (W.told out.old)
        (W.told out.new)
        × IfOk result (λ e. e ≡ ended_behind (λ _. kept) (bytes_of_line_end line_end) ended (shown section.now)) }
    ensures counted { Counts result (W.faults out.old) (W.faults out.new) }
{
    write_line_end_unless(out, ended, line_end)?;
    if !is_kept(filter, section) {
        return Ok(ended);
    }
    section.write_whole(out, line_end)?;
    Ok(section.ends_with_line(line_end))
}

/// Writes the sections that the filter keeps, and the line endings between them.
pub fn write_sections<W: Sink, F: FnMut(&SectionRef<'_>) -> bool>(
    out: &mut W,
    sections: Sections<'_>,
    line_end: LineEnd,
    filter: &mut F,
) -> Result<(), SinkFault>
    requires { F.IsAlwaysCallable filter.old }
    ensures exact { (keeps : SectionState → Bool) → ComputesKey F.FnMut (λ r. keeps (shown r)) filter.old
        → Writes result (sections_text keeps (bytes_of_line_end line_end) true (sections_left sections.entry)) (W.told out.old) (W.told out.new) }
    ensures some { (text : List ℕ) × IsTextOfSome (bytes_of_line_end line_end) true (sections_left sections.entry) text
        × Writes result text (W.told out.old) (W.told out.new) }
    ensures counted { Counts result (W.faults out.old) (W.faults out.new) }
{
    let mut ended = true;
    for section in sections {
        ended = write_next(out, ended, &section, line_end, filter)?;
    }
    write_line_end_unless(out, ended, line_end)
}
