//! The sections that an edit leaves with nothing.
ghost use Rattle.std.specs.Prelude.{◌≡◌, ◌++◌, [], drop, false, IfOk};
ghost use Rattle.std.specs.List.{list_any};
ghost use Rattle.gitconf_items.specs.EventRef.{shown as shown_event};
ghost use Rattle.gitconf_sources.specs.Key.{key_of};
ghost use Rattle.gitconf_views.specs.Views.{shown};
ghost use Rattle.gixcfg_core.specs.Entries.{is_listed_under};
ghost use Rattle.gixcfg_commands.specs.Emptied as spec;
ghost use Rattle.gixcfg_commands.specs.Emptied.{emptied};

use gitconf_items::event_ref::EventRef;
use gitconf_items::items::Item;
use gitconf_text::NoMemory;
use gitconf_views::section::SectionRef;
use gix_config::file::SectionId;
use gix_config::{File, KeyRef};
use gixcfg_core::entries::is_listed_under;
use std::alloc::{AllocError, Global};

/// What becomes of a section beside those that are left with nothing.
#[derive(Clone, Copy)]
enum Fate {
    /// It has other names, so that a run of sections ends before it.
    Apart,
    /// It has nothing, and belongs to the run.
    Bare,
    /// It has something, or a comment stands right above the run.
    Stays,
}

/// The numbers of the sections that go when entries of a key were removed. These are the key's sections with neither an entry nor a
/// comment, up to the next section of another name, if one of them lost an entry and no comment stands right above them. `losses` says
/// which sections of the key lost one, in order. One walk over the file.
///
/// # Errors
///
/// Out of memory.
#[tactic(auto, unfolding(crate::specs::Emptied::going))]
pub fn emptied(
    alloc: Global,
    file: &File,
    key: KeyRef<'_>,
    losses: &[bool],
) -> Result<Vec<SectionId>, NoMemory>
    ensures { IfOk result (λ gone. gone.items ≡ emptied (key_of key.entry) losses.now file.now) }
{
    let (mut gone, mut run) = (Vec::new(alloc), Vec::new(alloc));
    let (mut left, mut is_lost) = (losses, false);
    let mut stands = has_comment_before(file);
    for section in file.sections() {
        match fate_of(&section, key, stands && run.is_empty())? {
            Fate::Apart => {
                settle(&mut gone, &mut run, is_lost)?;
                is_lost = false;
                stands = comment_stands(false, &section);
            }
            Fate::Bare => {
                run.push(section.id())?;
                is_lost = is_lost || has_lost(left);
                left = behind_first(left);
            }
            Fate::Stays => {
                run.clear();
                is_lost = false;
                left = behind_first(left);
                stands = comment_stands(stands, &section);
            }
        }
    }
    settle(&mut gone, &mut run, is_lost)?;
    Ok(gone)
}

/// Whether the first of some sections lost an entry.
fn has_lost(losses: &[bool]) -> bool
    ensures { result ≡ spec.has_lost losses.now }
{
    matches!(losses.first(), Some(true))
}

/// What is behind the first.
fn behind_first(losses: &[bool]) -> &[bool]
    ensures { result.now ≡ drop 1 losses.now }
{
    losses.split_at(losses.len().min(1)).1
}

/// Adds a run of sections to those that go, if one of them lost an entry. The run is then empty.
fn settle(
    gone: &mut Vec<SectionId>,
    run: &mut Vec<SectionId>,
    is_lost: bool,
) -> Result<(), AllocError>
    ensures gone { IfOk result (λ _. gone.new.items ≡ gone.old.items ++ spec.settled is_lost run.old.items) }
    ensures run { IfOk result (λ _. run.new.items ≡ []) }
{
    if is_lost {
        gone.extend_from_slice(run)?;
    }
    run.clear();
    Ok(())
}

/// What becomes of a section, which may begin a run right below a comment.
fn fate_of(
    section: &SectionRef<'_>,
    key: KeyRef<'_>,
    is_below_comment: bool,
) -> Result<Fate, AllocError>
    ensures { IfOk result (λ fate. fate ≡ spec.fate_of (is_listed_under (key_of key.entry) (shown section.now)) (spec.is_bare (shown section.now).items) is_below_comment) }
{
    if !is_listed_under(section, key)? {
        Ok(Fate::Apart)
    } else if !is_below_comment && is_bare(section) {
        Ok(Fate::Bare)
    } else {
        Ok(Fate::Stays)
    }
}

/// Whether a section has neither an entry nor a comment.
fn is_bare(section: &SectionRef<'_>) -> bool
    ensures { result ≡ spec.is_bare (shown section.now).items }
{
    !has_kept(section.items)
}

/// Whether there is an entry or a comment.
fn has_kept(items: &[Item]) -> bool
    ensures { result ≡ list_any spec.is_kept items.now }
{
    items.iter().any(|item| matches!(item, Item::Entry(_) | Item::Comment { .. }))
}

/// Whether a comment stands below the last entry of a section and its line; or, if it has no entry, above it or in it.
fn comment_stands(above: bool, section: &SectionRef<'_>) -> bool
    ensures { result ≡ spec.comment_stands above false (shown section.now).items }
{
    let (mut stands, mut is_entry_line) = (above, false);
    for item in section.items {
        match item {
            Item::Blanks(_) => {}
            Item::LineEnds(_) => is_entry_line = false,
            Item::Comment { .. } => stands = stands || !is_entry_line,
            Item::Entry(_) => {
                stands = false;
                is_entry_line = true;
            }
        }
    }
    stands
}

/// Whether a comment stands before the first section.
fn has_comment_before(file: &File) -> bool
    ensures { result ≡ spec.has_comment_before file.now }
{
    let Some(events) = file.frontmatter() else {
        return false;
    };
    for event in events {
        if is_comment(&event) {
            return true;
        }
    }
    false
}

/// Whether an event is a comment.
fn is_comment(event: &EventRef<'_>) -> bool
    ensures { result ≡ spec.is_shown_comment (shown_event event.now) }
{
    matches!(event, EventRef::Comment { .. })
}
