//! Files, opened and closed.
ghost use Rattle.std.specs.Prelude.{◌≡◌, ◌⊎◌, IfErr, IfOk, None, Some};
ghost use Rattle.gix_config_c.specs.declared.object.Object.TheVariants as object;
ghost use Rattle.gitconf_read.specs.EventResult.{IsRefused};
ghost use Rattle.gitconf_read.specs.ParseError.{Refusal};
ghost use Rattle.gitconf_state.specs.State.{State};
ghost use Rattle.gix_config_c.specs.Answers.{OfFile, OfWanted};
ghost use Rattle.gix_config_c.specs.Opened.{IsFileFrom, IsFileOf, IsKeptPlace, IsOpened, IsPlace};
ghost use Rattle.gix_config_c.specs.TextMetas.{meta_of, plain_meta};

use crate::fault::{Fault, column};
use crate::lists::put_list;
use crate::object::Object;
use crate::slot::{Slot, in_handle};
use crate::text_meta::{Known, TextMeta, known_meta, shared};
use crate::{DONE, OUT_OF_MEMORY};
use gitconf_includes::{includes, init};
use gix_config::refusals::Refusal as _;
use gix_config::{File, parse};
use std::alloc::Global;

/// The file of a text that comes from somewhere.
pub(crate) fn opened(
    alloc: Global,
    text: &[u8],
    known: Known<'_>,
    lossy: bool,
) -> Result<File, parse::Error>
    ensures ok { IfOk result (IsFileFrom (plain_meta known.entry) lossy text.now) }
    ensures err { IfErr result (λ refusal. (refusal.number ≡ 27 → ⊥) → IsRefused text.now refusal) }
{
    let Ok(meta) = shared(alloc, known) else {
        return Err(parse::Error::memory());
    };
    let options = init::Options {
        includes: includes::Options::no_follow(),
        lossy,
        ignore_io_errors: false,
    };
    match File::from_bytes_no_includes(alloc, text, meta, options) {
        Ok(file) => Ok(file),
        Err(init::Error::Parse(refusal)) => Err(refusal),
        Err(_) => Err(parse::Error::memory()),
    }
}

/// Tells where a text can't be read on.
fn tell(text: &[u8], refusal: &parse::Error, place: &mut Fault)
    ensures { IsPlace text.now refusal.now place.new }
{
    let offset = text.len().saturating_sub(refusal.remaining_data().len());
    place.line = refusal.line_number();
    place.offset = offset;
    place.column = column(&text[..offset]);
}

/// The number of the error of a text. Tells where the text can't be read on, unless memory ran out.
pub(crate) fn refused(text: &[u8], refusal: &parse::Error, place: &mut Fault) -> u32
    ensures number { result ≡ refusal.now.number }
    ensures place { (result ≡ 27 → ⊥) → IsPlace text.now refusal.now place.new }
    ensures kept { result ≡ 27 → IsKeptPlace place.old place.new }
{
    let number = u32::from(refusal.number());
    if number == OUT_OF_MEMORY {
        return number;
    }
    tell(text, refusal, place);
    number
}

/// Opens the file of a text. With `lossy` its whitespace, line endings and comments are left out: it is for look-ups then. What was in the
/// handle before is closed.
///
/// 1 for a text that can't be read on at some place, 2 for one of more than 4294967295 bytes, 27 when out of memory; the handle
/// is then as it was. For 1 and 2 the place says where; else it is as it was.
#[unsafe(no_mangle)]
pub extern "C" fn gix_config_file_parse(
    alloc: Global,
    text: &[u8],
    lossy: bool,
    file: &mut Slot,
    place: &mut Fault,
) -> u32
    ensures done { result ≡ 0 → (f : State) × (file.new.it ≡ Some (object.File f)) × IsFileOf lossy text.now f }
    ensures refused { (result ≡ 0 → ⊥) → (result ≡ 27 → ⊥) → (r : Refusal) × IsRefused text.now r × (result ≡ r.number) × IsPlace text.now r place.new }
    ensures kept { (result ≡ 0 → ⊥) → file.new.it ≡ file.old.it }
    ensures kept_place { (result ≡ 0) ⊎ (result ≡ 27) → IsKeptPlace place.old place.new }
{
    put_opened(alloc, text, Known::api(), lossy, file, place)
}

/// Puts the file of a text that comes from somewhere into a handle.
fn put_opened(
    alloc: Global,
    text: &[u8],
    known: Known<'_>,
    lossy: bool,
    file: &mut Slot,
    place: &mut Fault,
) -> u32
    ensures answer { IsOpened (plain_meta known.entry) lossy text.now result file.new.it place.new }
    ensures kept { (result ≡ 0 → ⊥) → file.new.it ≡ file.old.it }
    ensures kept_place { (result ≡ 1 → ⊥) → (result ≡ 2 → ⊥) → IsKeptPlace place.old place.new }
{
    match opened(alloc, text, known, lossy) {
        Ok(made) => put_list(alloc, Object::File(made), file),
        Err(refusal) => refused(text, &refusal, place),
    }
}

/// Like gix_config_file_parse, but of a text that comes from somewhere else than the calling program. Its includes are not followed:
/// gix_config_resolve_includes_told reads them.
///
/// The numbers of gix_config_file_parse; 101 if it has a path that is not UTF-8, else 104 if no source or trust has the number. The handle is
/// as it was after any number but 0, and the place after any but 1 and 2.
#[unsafe(no_mangle)]
pub extern "C" fn gix_config_file_parse_as(
    alloc: Global,
    text: &[u8],
    meta: &TextMeta<'_>,
    lossy: bool,
    file: &mut Slot,
    place: &mut Fault,
) -> u32
    ensures answer { OfWanted (meta_of meta.now) result (λ m. IsOpened m lossy text.now result file.new.it place.new) }
    ensures kept { (result ≡ 0 → ⊥) → file.new.it ≡ file.old.it }
    ensures kept_place { (result ≡ 1 → ⊥) → (result ≡ 2 → ⊥) → IsKeptPlace place.old place.new }
{
    match known_meta(meta) {
        Ok(known) => put_opened(alloc, text, known, lossy, file, place),
        Err(number) => number,
    }
}

/// Closes the file in a handle; an empty one stays empty.
#[unsafe(no_mangle)]
pub extern "C" fn gix_config_file_close(alloc: Global, file: &mut Slot)
    ensures { file.new.it ≡ None }
{
    drop(file.take(alloc));
}

/// Makes a copy of a file. What was in its handle before is closed.
///
/// 102 if the handle has no file, 27 when out of memory; the other handle is then as it was.
#[unsafe(no_mangle)]
pub extern "C" fn gix_config_file_clone(
    alloc: Global,
    file: &mut Slot,
    other_file: &mut Slot,
) -> u32
    ensures answer { OfFile file.old.it result (λ f. (result ≡ 0) ⊎ (result ≡ 27)) }
    ensures done { result ≡ 0 → other_file.new.it ≡ file.old.it }
    ensures kept { (result ≡ 0 → ⊥) → other_file.new.it ≡ other_file.old.it }
    ensures same { file.new.it ≡ file.old.it }
{
    in_handle!(alloc, &file, Object::File(f) => put_copy(alloc, f, other_file))
}

/// Puts a copy of a file into a handle.
fn put_copy(alloc: Global, file: &File, other_file: &mut Slot) -> u32
    ensures number { (result ≡ 0) ⊎ (result ≡ 27) }
    ensures done { result ≡ 0 → other_file.new.it ≡ Some (object.File file.now) }
    ensures kept { (result ≡ 0 → ⊥) → other_file.new.it ≡ other_file.old.it }
{
    let Ok(copy) = file.try_clone() else {
        return OUT_OF_MEMORY;
    };
    match Box::new(alloc, Object::File(copy)) {
        Ok(object) => {
            other_file.put(object);
            DONE
        }
        Err(_) => OUT_OF_MEMORY,
    }
}
