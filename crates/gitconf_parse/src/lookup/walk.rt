//! The walk over a text, from one entry of a key to the next.
ghost use Rattle.std.specs.Prelude.{◌≡◌, ◌≤◌, ◌<◌, ◌^◌, ◌&&◌, length, IfOk, IfErr, IfSome, IfNone, OnOk};
ghost use Rattle.gitconf_sources.specs.Key.{key_of};
ghost use Rattle.gitconf_text.specs.Names.{is_same_name};
ghost use Rattle.gitconf_items.specs.Events.{bytes_of};
ghost use Rattle.gitconf_read.specs.declared.reading.Expected.{Expected};
ghost use Rattle.gitconf_read.specs.Reading.{span};
ghost use Rattle.gitconf_read.specs.Stretches.{IsBreak};
ghost use Rattle.gitconf_parse.specs.Places.{ValueInside};
ghost use Rattle.gitconf_parse.specs.Walk.{IsGap, IsWalk, mets_of};

use crate::lookup::entry::entry;
use crate::lookup::named::{is_meant, is_named};
use gitconf_read::reading::item::header_first;
use gitconf_read::reading::part::{Opening, part_opening};
use gitconf_read::reading::run::{Run, comment_end, gap_ends, run_end};
use gitconf_read::reading::{Expected, Fault, ReadError};
use gitconf_sources::key::KeyRef;

/// How far a text was read.
#[derive(Clone, Copy)]
pub struct Cursor {
    /// The offset from which on nothing was read yet.
    pub at: usize,
    /// What is reported as looked for if nothing can be read there.
    pub wanted: Expected,
    /// Whether the section at hand is that of the key.
    pub meant: bool,
    /// Whether no entry of the key was met in it yet.
    pub anew: bool,
}

/// An entry of the key.
#[derive(Clone, Copy)]
pub struct Met {
    /// Whether it is the first in its section.
    pub anew: bool,
    /// Where its value begins, if it has one.
    pub value: Option<usize>,
}

/// Whether an entry whose name is from one offset up to another, in a section that is that of the key or not, is one of the key.
#[inline(always)]
fn is_met(input: &[u8], at: usize, end: usize, meant: bool, key: &KeyRef<'_>) -> bool
    requires ordered { at ≤ end }
    requires within { end ≤ length input.now }
    requires fits { length input.now < 2 ^ 32 }
    ensures { result ≡ (meant && is_same_name key.now.value_name.now (bytes_of input.now (span at end))) }
{
    meant && is_named(input, at, end, key.value_name.as_bytes())
}

/// The offset after the line endings, and then the blanks, that are at an offset, if there are any.
#[inline(always)]
fn gap_end(input: &[u8], at: usize) -> usize
    requires { at ≤ length input.now }
    ensures gap { (wanted : Expected) → IsGap input.now at wanted result }
    ensures behind { at ≤ result }
    ensures inside { result ≤ length input.now }
{
    gap_ends(input, at).1
}

/// Reads the part that begins here, which may be an entry of the key.
#[inline(always)]
fn pass_part(input: &[u8], key: &KeyRef<'_>, cursor: &mut Cursor) -> Result<Option<Met>, ReadError>
    requires within { cursor.old.at < length input.now }
    requires fits { length input.now < 2 ^ 32 }
    ensures read { IfOk result (λ met. IsWalk input.now (key_of key.now) cursor.old cursor.new (mets_of input.now met)) }
    ensures ahead { OnOk result (cursor.old.at < cursor.new.at) }
    ensures inside { OnOk result (cursor.new.at ≤ length input.now) }
    ensures value { IfOk result (λ met. IfSome met (λ m. ValueInside (length input.now) m.value)) }
    ensures broken { IfErr result (IsBreak input.now cursor.old.at cursor.old.wanted) }
{
    let at = cursor.at;
    match part_opening(input, at) {
        Opening::Blanks => cursor.at = run_end(input, at + 1, Run::Blanks),
        Opening::LineEnds => cursor.at = run_end(input, at + 1, Run::LineEnds),
        Opening::Comment => cursor.at = comment_end(input, at + 1),
        Opening::Header => {
            let (header, end) = header_first(input, at, cursor.wanted)?;
            *cursor = Cursor {
                at: end,
                wanted: Expected::Name,
                meant: is_meant(input, &header, key),
                anew: true,
            };
        }
        Opening::Entry => {
            let entry = entry(input, at)?;
            cursor.at = entry.end;
            if is_met(input, at, entry.name_end, cursor.meant, key) {
                let met = Met {
                    anew: cursor.anew,
                    value: entry.value,
                };
                cursor.anew = false;
                return Ok(Some(met));
            }
        }
        Opening::Nothing => {
            return Err(ReadError::Fault(Fault {
                at,
                expected: cursor.wanted,
            }));
        }
    }
    Ok(None)
}

/// Reads on up to the next entry of the key, or up to the end.
pub fn next_met(
    input: &[u8],
    key: &KeyRef<'_>,
    cursor: &mut Cursor,
) -> Result<Option<Met>, ReadError>
    requires within { cursor.old.at ≤ length input.now }
    requires fits { length input.now < 2 ^ 32 }
    ensures read { IfOk result (λ met. IsWalk input.now (key_of key.now) cursor.old cursor.new (mets_of input.now met)) }
    ensures ended { IfOk result (λ met. IfNone met (cursor.new.at ≡ length input.now)) }
    ensures ahead { IfOk result (λ met. IfSome met (λ _. cursor.old.at < cursor.new.at)) }
    ensures inside { IfOk result (λ _. cursor.new.at ≤ length input.now) }
    ensures value { IfOk result (λ met. IfSome met (λ m. ValueInside (length input.now) m.value)) }
    ensures broken { IfErr result (IsBreak input.now cursor.old.at cursor.old.wanted) }
{
    while cursor.at < input.len() {
        if let Some(met) = pass_part(input, key, cursor)? {
            return Ok(Some(met));
        }
        cursor.at = gap_end(input, cursor.at);
    }
    Ok(None)
}
