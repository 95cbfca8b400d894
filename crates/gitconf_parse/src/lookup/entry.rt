//! Entries: where the name, the value and the entry end.
ghost use Rattle.std.specs.Prelude.{◌≤◌, ◌<◌, ◌^◌, [], length, IfOk, IfErr};
ghost use Rattle.gitconf_read.specs.ItemReading.{IsRefusal};
ghost use Rattle.gitconf_read.specs.Reading.{entry_at};
ghost use Rattle.gitconf_parse.specs.Places.{IsEntryRead, ValueInside};

use crate::lookup::value::value_end;
use gitconf_read::reading::entry::sign_ends;
use gitconf_read::reading::run::{Run, long_run_end};
use gitconf_read::reading::{Expected, Fault, ReadError};

/// The offsets of an entry's parts.
#[derive(Clone, Copy)]
pub struct EntryPlace {
    /// After its name.
    pub name_end: usize,
    /// Where its value begins, if it has one.
    pub value: Option<usize>,
    /// After the entry.
    pub end: usize,
}

/// The entry whose name begins, with a letter, at an offset.
#[inline(always)]
pub fn entry(input: &[u8], at: usize) -> Result<EntryPlace, ReadError>
    requires within { at < length input.now }
    requires fits { length input.now < 2 ^ 32 }
    ensures found { IfOk result (IsEntryRead input.now at) }
    ensures value { IfOk result (λ e. ValueInside (length input.now) e.value) }
    ensures name { IfOk result (λ e. (at ≤ e.name_end) × (e.name_end ≤ length input.now)) }
    ensures behind { IfOk result (λ e. at < e.end) }
    ensures inside { IfOk result (λ e. e.end ≤ length input.now) }
    ensures refused { IfErr result (IsRefusal (entry_at input.now at [])) }
{
    let name_end = long_run_end(input, at + 1, Run::NameBytes);
    let (sign, first) = sign_ends(input, name_end);
    match first {
        Some(first) => match value_end(input, first) {
            Some(end) => Ok(EntryPlace {
                name_end,
                value: Some(first),
                end,
            }),
            None => Err(ReadError::Fault(Fault {
                at: first,
                expected: Expected::Value,
            })),
        },
        None => Ok(EntryPlace {
            name_end,
            value: None,
            end: sign,
        }),
    }
}
