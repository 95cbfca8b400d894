//! From a meaning to a value as a file spells it.
ghost use Rattle.std.specs.Prelude.{◌≡◌, ◌+◌, ◌-◌, ◌*◌, ◌^◌, ◌≤◌, ◌<◌, min, [], ◌∷◌, ◌++◌, length, vec_len, vec_capacity, flat_map, IfOk, OnOk, OnErr};
ghost use Rattle.gitconf_text.specs.Bytes.{is_whitespace};
ghost use Rattle.gitconf_text.specs.Text as text;
ghost use Rattle.gitconf_text.specs.Unit as unit;
ghost use Rattle.gitconf_text.specs.Value as spec;

use crate::memory::NoMemory;
use std::alloc::Global;

/// Whether the first byte is whitespace.
fn begins_white(bytes: &[u8]) -> bool
    ensures { result ≡ text.begins is_whitespace bytes.now }
{
    match bytes {
        [first, ..] => first.is_ascii_whitespace(),
        [] => false,
    }
}

/// Whether the last byte is whitespace.
fn ends_white(bytes: &[u8]) -> bool
    ensures { result ≡ text.ends is_whitespace bytes.now }
{
    match bytes {
        [.., last] => last.is_ascii_whitespace(),
        [] => false,
    }
}

/// Whether the byte begins a comment.
#[tactic(auto, using(crate::proofs::ValuesEscaped::mark_is))]
fn is_mark(b: u8) -> bool
    ensures { result ≡ unit.is_mark b }
{
    b == b';' || b == b'#'
}

/// How many bytes the byte is written with.
fn escaped_byte_len(b: u8) -> usize
    ensures exact { result ≡ length (spec.escaped_byte b) }
    ensures few { result ≤ 2 }
{
    match b {
        b'\n' | b'\t' | b'"' | b'\\' => 2,
        _ => 1,
    }
}

/// How a value is written: whether in quotes, and with how many bytes apart from them.
#[derive(Drop)]
struct Spelling {
    quoted: bool,
    length: usize,
}

/// How these bytes are written. It reads them once.
fn spelling_of(bytes: &[u8]) -> Spelling
    ensures quoted { result.quoted ≡ spec.needs_quotes bytes.now }
    ensures exact { result.length ≡ length (flat_map spec.escaped_byte bytes.now) }
{
    let mut marked = false;
    let mut length = 0;
    for b in bytes {
        marked = marked || is_mark(*b);
        length += escaped_byte_len(*b);
    }
    let quoted = begins_white(bytes) || ends_white(bytes) || marked;
    Spelling { quoted, length }
}

/// Puts a backslash and a letter at the end.
fn put_escape(out: &mut Vec<u8>, letter: u8)
    requires { vec_len out.old + 2 ≤ vec_capacity out.old }
    ensures items { out.new.items ≡ out.old.items ++ 92 ∷ letter ∷ [] }
    ensures len { vec_len out.new ≡ vec_len out.old + 2 }
    ensures capacity { vec_capacity out.new ≡ vec_capacity out.old }
{
    out.push_reserved(b'\\');
    out.push_reserved(letter);
}

/// Puts a byte at the end as it is written.
fn put_byte(out: &mut Vec<u8>, b: u8)
    requires { vec_len out.old + length (spec.escaped_byte b) ≤ vec_capacity out.old }
    ensures items { out.new.items ≡ out.old.items ++ spec.escaped_byte b }
    ensures len { vec_len out.new ≡ vec_len out.old + length (spec.escaped_byte b) }
    ensures capacity { vec_capacity out.new ≡ vec_capacity out.old }
{
    match b {
        b'\n' => put_escape(out, b'n'),
        b'\t' => put_escape(out, b't'),
        b'"' => put_escape(out, b'"'),
        b'\\' => put_escape(out, b'\\'),
        _ => out.push_reserved(b),
    }
}

/// Puts bytes at the end as they are written.
fn put_bytes(out: &mut Vec<u8>, bytes: &[u8])
    requires { vec_len out.old + length (flat_map spec.escaped_byte bytes.now) ≤ vec_capacity out.old }
    ensures items { out.new.items ≡ out.old.items ++ flat_map spec.escaped_byte bytes.now }
    ensures len { vec_len out.new ≡ vec_len out.old + length (flat_map spec.escaped_byte bytes.now) }
    ensures capacity { vec_capacity out.new ≡ vec_capacity out.old }
{
    for b in bytes {
        put_byte(out, *b);
    }
}

/// How many bytes [`escape`] writes, or `usize::MAX` if there are more. It reads `bytes` once and takes no memory.
#[tactic(auto, using(crate::proofs::ValuesEscaped::escaping))]
pub fn escaped_len(bytes: &[u8]) -> usize
    ensures { result ≡ min (length (spec.escaped bytes.now)) (2 ^ 64 - 1) }
{
    let spelling = spelling_of(bytes);
    if spelling.quoted {
        spelling.length.saturating_add(2)
    } else {
        spelling.length
    }
}

/// Appends the value whose meaning is `bytes`, as a file spells it.
///
/// LF, tab, `"` and `\` are written as `\n`, `\t`, `\"` and `\\`, all other bytes as they are. The whole is put in quotes
/// if its first or last byte is ASCII whitespace, or a byte is `;` or `#` (the Rust crate's rule). It reads
/// `bytes` twice, once for the room that it needs, and asks for memory once.
///
/// # Errors
///
/// Only when out of memory: `out` had no room, and is as before.
#[tactic(auto, using(crate::proofs::ValuesEscaped::escaping))]
pub fn append_escaped(out: &mut Vec<u8>, bytes: &[u8]) -> Result<(), NoMemory>
    ensures ok { OnOk result (out.new.items ≡ out.old.items ++ spec.escaped bytes.now) }
    ensures err { OnErr result (out.new.items ≡ out.old.items) }
    ensures full { OnErr result (vec_capacity out.old < vec_len out.old + length (spec.escaped bytes.now)) }
{
    let spelling = spelling_of(bytes);
    if !spelling.quoted {
        out.reserve(spelling.length)?;
        put_bytes(out, bytes);
        return Ok(());
    }
    let Some(length) = spelling.length.checked_add(2) else {
        return Err(NoMemory);
    };
    out.reserve(length)?;
    out.push_reserved(b'"');
    put_bytes(out, bytes);
    out.push_reserved(b'"');
    Ok(())
}

/// The value whose meaning is `bytes`, as a file spells it. It is in memory of its own.
///
/// It is what `append_escaped` appends, at the same cost.
///
/// # Errors
///
/// Only when out of memory, and never if there are no bytes.
#[tactic(auto, using(crate::proofs::ValuesEscaped::escaping))]
pub fn escape(alloc: Global, bytes: &[u8]) -> Result<Vec<u8>, NoMemory>
    ensures ok { IfOk result (λ it. it.items ≡ spec.escaped bytes.now) }
    ensures err { OnErr result (0 < length bytes.now) }
{
    let mut out = Vec::new(alloc);
    append_escaped(&mut out, bytes)?;
    Ok(out)
}
