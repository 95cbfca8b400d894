//! Names one after the other in one list of bytes, and their places there.
ghost use Rattle.std.specs.Prelude.{◌≡◌, ◌+◌, ◌<◌, ◌≤◌, ◌^◌, drop, length, take, vec_capacity, vec_len, IfOk, OnOk, OnErr};
ghost use Rattle.std.specs.Option.{option_copied, option_map};
ghost use Rattle.gitconf_text.specs.Bytes.{fold};
ghost use Rattle.gitconf_sections.specs.Word.{name_state};
ghost use Rattle.gitconf_sections.specs.Letters.{name_part, part_of, subsection_len, subsection_part, ArePut, IsPut, IsSubsectionPut};

use crate::word::Mixing;
use std::alloc::AllocError;
use std::mem::size_of;

/// A place: the offset of its first byte, and how many bytes there are.
#[derive(Clone, Copy)]
pub(crate) struct Part {
    pub(crate) start: u32,
    pub(crate) len: u32,
}

/// Where the name of a section is, in ASCII lower case, and how many bytes its subsection has, if it has one. The subsection
/// directly follows the name.
#[derive(Clone, Copy)]
pub(crate) struct Names {
    pub(crate) start: u32,
    pub(crate) name_len: u32,
    pub(crate) subsection_len: Option<u32>,
}

// Each row of a table has such a value, so its size counts.
const _: () = prove!(size_of::<Names>() == 16);

/// The `len` bytes from `start` on.
fn bytes_from(letters: &[u8], start: usize, len: usize) -> &[u8]
    ensures { result.now ≡ take len (drop start letters.now) }
{
    let behind = letters.split_at(start.min(letters.len())).1;
    behind.split_at(len.min(behind.len())).0
}

/// The name at its place.
pub(crate) fn name_at(letters: &[u8], names: Names) -> &[u8]
    ensures { result.now ≡ part_of letters.now (name_part names) }
{
    bytes_from(letters, names.start as usize, names.name_len as usize)
}

/// The subsection at its place, if there is one.
pub(crate) fn subsection_at(letters: &[u8], names: Names) -> Option<&[u8]>
    ensures { option_copied result ≡ option_map (part_of letters.now) (subsection_part names) }
{
    let start = names.start as usize + names.name_len as usize;
    match names.subsection_len {
        Some(len) => Some(bytes_from(letters, start, len as usize)),
        None => None,
    }
}

/// Makes room for that many more bytes.
///
/// # Errors
///
/// Out of memory, or there would be more than 4294967295 bytes.
pub(crate) fn make_room(letters: &mut Vec<u8>, more: usize) -> Result<(), AllocError>
    ensures items { letters.new.items ≡ letters.old.items }
    ensures len { vec_len letters.new ≡ vec_len letters.old }
    ensures room { OnOk result (vec_len letters.new + more ≤ vec_capacity letters.new) }
    ensures places { OnOk result (vec_len letters.new + more < 2 ^ 32) }
{
    let count = letters.len().checked_add(more).ok_or(AllocError)?;
    if count > u32::MAX as usize {
        return Err(AllocError);
    }
    letters.reserve(more)
}

/// Puts bytes after the others, within the room that there is, and returns their place.
pub(crate) fn put(letters: &mut Vec<u8>, bytes: &[u8]) -> Part
    requires room { vec_len letters.old + length bytes.now ≤ vec_capacity letters.old }
    requires places { vec_len letters.old + length bytes.now < 2 ^ 32 }
    ensures put { IsPut bytes.now letters.old.items letters.new.items result }
    ensures len { vec_len letters.new ≡ vec_len letters.old + length bytes.now }
    ensures room { vec_capacity letters.old ≤ vec_capacity letters.new }
{
    let start = letters.len() as u32;
    letters.extend_from_slice(bytes).unwrap();
    Part {
        start,
        len: bytes.len() as u32,
    }
}

/// Puts a name in ASCII lower case after the other bytes, as [`put`] does, and returns its place and the state after it. A
/// name is short, so each byte is read and written once, instead of a copy that is put in lower case and read again.
#[tactic(auto, unfolding(crate::specs::Word::name_state))]
#[inline(always)]
fn put_folded(letters: &mut Vec<u8>, seed: u64, name: &[u8]) -> (Part, u64)
    requires room { vec_len letters.old + length name.now ≤ vec_capacity letters.old }
    requires places { vec_len letters.old + length name.now < 2 ^ 32 }
    ensures put { IsPut (fold name.now) letters.old.items letters.new.items result.0 }
    ensures state { result.1 ≡ name_state seed name.now }
    ensures len { vec_len letters.new ≡ vec_len letters.old + length name.now }
    ensures room { vec_capacity letters.old ≤ vec_capacity letters.new }
{
    let start = letters.len() as u32;
    let mut mixing = Mixing::behind(seed);
    let mut rest = name;
    while let Some((byte, behind)) = rest.split_first() {
        let folded = byte.to_ascii_lowercase();
        letters.push_reserved(folded);
        mixing = mixing.with_byte(folded);
        rest = behind;
    }
    let len = name.len() as u32;
    (Part { start, len }, mixing.whole())
}

/// How many bytes a name and a subsection have.
fn names_len(name: &[u8], subsection: Option<&[u8]>) -> Result<usize, AllocError>
    ensures { IfOk result (λ n. n ≡ length name.now + subsection_len (option_copied subsection.entry)) }
{
    match subsection {
        Some(bytes) => name.len().checked_add(bytes.len()).ok_or(AllocError),
        None => Ok(name.len()),
    }
}

/// Puts a subsection after the other bytes, if there is one, and returns how many bytes it has.
fn put_subsection(letters: &mut Vec<u8>, subsection: Option<&[u8]>) -> Option<u32>
    requires room { vec_len letters.old + subsection_len (option_copied subsection) ≤ vec_capacity letters.old }
    requires places { vec_len letters.old + subsection_len (option_copied subsection) < 2 ^ 32 }
    ensures { IsSubsectionPut (option_copied subsection.entry) letters.old.items letters.new.items result }
{
    match subsection {
        Some(bytes) => Some(put(letters, bytes).len),
        None => None,
    }
}

/// Puts the name, in ASCII lower case, and the subsection after the other bytes, and returns their places and the state
/// after the name.
///
/// # Errors
///
/// Out of memory, or there would be more than 4294967295 bytes. The bytes are as they were.
pub(crate) fn put_names(
    letters: &mut Vec<u8>,
    seed: u64,
    name: &[u8],
    subsection: Option<&[u8]>,
) -> Result<(Names, u64), AllocError>
    ensures ok { IfOk result (λ put. ArePut (fold name.now) (option_copied subsection.entry) letters.old.items letters.new.items put.0) }
    ensures state { IfOk result (λ put. put.1 ≡ name_state seed name.now) }
    ensures err { OnErr result (letters.new.items ≡ letters.old.items) }
{
    make_room(letters, names_len(name, subsection)?)?;
    let (part, state) = put_folded(letters, seed, name);
    let subsection_len = put_subsection(letters, subsection);
    let names = Names {
        start: part.start,
        name_len: part.len,
        subsection_len,
    };
    Ok((names, state))
}

impl Names {
    ghost use Rattle.std.specs.Prelude.{◌≡◌, ◌-◌, ◌^◌};
    ghost use Rattle.gitconf_sections.specs.Letters.{moved_names, NamesFit};

    /// No name and no subsection.
    pub(crate) const NOTHING: Names = Names {
        start: 0,
        name_len: 0,
        subsection_len: None,
    };

    /// The same places, after `by` bytes were put before.
    pub(crate) fn moved(self, by: u32) -> Names
        requires { NamesFit (2 ^ 32 - 1 - by) self }
        ensures { result ≡ moved_names by self }
    {
        Names {
            start: by + self.start,
            name_len: self.name_len,
            subsection_len: self.subsection_len,
        }
    }
}
