//! What a program tells of files and of variables, before it loads a file.
ghost use Rattle.std.specs.Prelude.{◌≡◌, ◌⊎◌, if◌then◌else◌, [], false, None, Some};
ghost use Rattle.gitconf_sources.specs.InMemory.{with_entry};
ghost use Rattle.gitconf_sources.specs.Reports.{IsFile, NoFile, NotSet, Unopened, Unread};
ghost use Rattle.gitconf_sources.specs.declared.source.Trust.TheVariants.{Full};
ghost use Rattle.gix_config_c.specs.declared.object.Object.TheVariants as object;
ghost use Rattle.gix_config_c.specs.Telling.{IsTold, IsToldIn, IsVariableToldIn, OfTold};
ghost use Rattle.gix_config_c.specs.Told.{report_of};
ghost use Rattle.gix_config_c.specs.Variables.{reported, set_to};
ghost use Rattle.gix_config_c.specs.declared.told.Told.{Told as AllTold};

use crate::lists::put_list;
use crate::object::Object;
use crate::slot::{Slot, in_handle};
use crate::told::{Report, Told, ToldFiles};
use crate::variables::{ToldVariables, Variable};
use crate::{DONE, NOT_UTF8, OUT_OF_MEMORY, key};
use std::alloc::Global;

/// Makes a place for what a program tells of files and of variables: nothing as yet. What was in the handle before is closed.
///
/// 27 when out of memory; the handle is then as it was.
#[unsafe(no_mangle)]
pub extern "C" fn gix_config_told_new(alloc: Global, told: &mut Slot) -> u32
    ensures number { (result ≡ 0) ⊎ (result ≡ 27) }
    ensures done { result ≡ 0 → told.new.it ≡ Some (object.Told (record { files = []; variables = [] })) }
    ensures kept { (result ≡ 0 → ⊥) → told.new.it ≡ told.old.it }
{
    let nothing = Told {
        files: ToldFiles::new(alloc),
        variables: ToldVariables::new(alloc),
    };
    put_list(alloc, Object::Told(nothing), told)
}

/// Tells the text of the file at a path. It replaces what was told of the path before. The text is copied.
///
/// 101 if the path is not UTF-8, 102 if the handle is not one for what is told, 27 when out of memory; what was told is then as it was.
#[unsafe(no_mangle)]
pub extern "C" fn gix_config_told_text(
    alloc: Global,
    told: &mut Slot,
    path: &[u8],
    text: &[u8],
) -> u32
    ensures answer { OfTold told.old.it result (λ old. IsToldIn path.now (IsFile text.now Full) old result told.new.it) }
    ensures other { ((old : AllTold) → told.old.it ≡ Some (object.Told old) → ⊥) → told.new.it ≡ told.old.it }
{
    in_handle!(alloc, &mut told, Object::Told(it) => tell_text(alloc, &mut it.files, path, text))
}

/// Tells the text of a file.
fn tell_text(alloc: Global, told: &mut ToldFiles, path: &[u8], text: &[u8]) -> u32
    ensures { IsTold path.now (IsFile text.now Full) told.old told.new result }
{
    let Some(path) = key::text(path) else {
        return NOT_UTF8;
    };
    let Ok(copy) = Vec::from_slice(alloc, text) else {
        return OUT_OF_MEMORY;
    };
    tell(alloc, told, path, Report::Text(copy))
}

/// Tells that no file is at a path. This replaces what was told of the path before. An include of it is left out.
///
/// 101 if the path is not UTF-8, 102 if the handle is not one for what is told, 27 when out of memory; what was told is then as it was.
#[unsafe(no_mangle)]
pub extern "C" fn gix_config_told_missing(alloc: Global, told: &mut Slot, path: &[u8]) -> u32
    ensures answer { OfTold told.old.it result (λ old. IsToldIn path.now NoFile old result told.new.it) }
    ensures other { ((old : AllTold) → told.old.it ≡ Some (object.Told old) → ⊥) → told.new.it ≡ told.old.it }
{
    in_handle!(alloc, &mut told, Object::Told(it) => tell_missing(alloc, &mut it.files, path))
}

/// Tells that there is no file.
fn tell_missing(alloc: Global, told: &mut ToldFiles, path: &[u8]) -> u32
    ensures { IsTold path.now NoFile told.old told.new result }
{
    let Some(path) = key::text(path) else {
        return NOT_UTF8;
    };
    tell(alloc, told, path, Report::Missing)
}

/// Tells that the file at a path can't be opened, or can't be read. If it opens, it can't be read. This replaces what was told of the path
/// before. A load that needs the file is refused.
///
/// 101 if the path is not UTF-8, 102 if the handle is not one for what is told, 27 when out of memory; what was told is then as it was.
#[unsafe(no_mangle)]
pub extern "C" fn gix_config_told_fault(
    alloc: Global,
    told: &mut Slot,
    path: &[u8],
    opens: bool,
) -> u32
    ensures answer { OfTold told.old.it result (λ old. IsToldIn path.now (if opens then Unread else Unopened false) old result told.new.it) }
    ensures other { ((old : AllTold) → told.old.it ≡ Some (object.Told old) → ⊥) → told.new.it ≡ told.old.it }
{
    in_handle!(alloc, &mut told, Object::Told(it) => tell_fault(alloc, &mut it.files, path, opens))
}

/// The fault of a file.
fn fault(opens: bool) -> Report
    ensures { report_of result ≡ (if opens then Unread else Unopened false) }
{
    if opens {
        Report::Unread
    } else {
        Report::Unopened
    }
}

/// Tells the fault of a file.
fn tell_fault(alloc: Global, told: &mut ToldFiles, path: &[u8], opens: bool) -> u32
    ensures { IsTold path.now (if opens then Unread else Unopened false) told.old told.new result }
{
    let Some(path) = key::text(path) else {
        return NOT_UTF8;
    };
    tell(alloc, told, path, fault(opens))
}

/// Tells what is at a path.
fn tell(alloc: Global, told: &mut ToldFiles, path: &str, report: Report) -> u32
    ensures number { (result ≡ 0) ⊎ (result ≡ 27) }
    ensures done { result ≡ 0 → told.new ≡ with_entry path.now (report_of report) told.old }
    ensures kept { (result ≡ 0 → ⊥) → told.new ≡ told.old }
{
    let Ok(path) = String::from_str(alloc, path) else {
        return OUT_OF_MEMORY;
    };
    match told.tell(path, report) {
        Ok(()) => DONE,
        Err(_) => OUT_OF_MEMORY,
    }
}

/// Tells what a variable of the environment is set to. This replaces what was told of it before. The bytes are copied. Of bytes that are
/// not UTF-8 a key or a value can't be made, and a variable that says where a file is counts as not set then.
///
/// 101 if the name is not UTF-8, 102 if the handle is not one for what is told, 27 when out of memory; what was told is then as it was.
#[unsafe(no_mangle)]
pub extern "C" fn gix_config_told_variable(
    alloc: Global,
    told: &mut Slot,
    name: &[u8],
    value: &[u8],
) -> u32
    ensures answer { OfTold told.old.it result (λ old. IsVariableToldIn name.now (set_to value.now) old result told.new.it) }
    ensures other { ((old : AllTold) → told.old.it ≡ Some (object.Told old) → ⊥) → told.new.it ≡ told.old.it }
{
    in_handle!(alloc, &mut told, Object::Told(it) => tell_value(alloc, &mut it.variables, name, value))
}

/// Tells what a variable is set to.
fn tell_value(alloc: Global, told: &mut ToldVariables, name: &[u8], value: &[u8]) -> u32
    ensures { IsTold name.now (set_to value.now) told.old told.new result }
{
    let Some(name) = key::text(name) else {
        return NOT_UTF8;
    };
    match Variable::set(alloc, value) {
        Ok(variable) => tell_variable(alloc, told, name, variable),
        Err(_) => OUT_OF_MEMORY,
    }
}

/// Tells that a variable of the environment isn't set. This replaces what was told of it before.
///
/// 101 if the name is not UTF-8, 102 if the handle is not one for what is told, 27 when out of memory; what was told is then as it was.
#[unsafe(no_mangle)]
pub extern "C" fn gix_config_told_no_variable(alloc: Global, told: &mut Slot, name: &[u8]) -> u32
    ensures answer { OfTold told.old.it result (λ old. IsVariableToldIn name.now NotSet old result told.new.it) }
    ensures other { ((old : AllTold) → told.old.it ≡ Some (object.Told old) → ⊥) → told.new.it ≡ told.old.it }
{
    in_handle!(alloc, &mut told, Object::Told(it) => tell_unset(alloc, &mut it.variables, name))
}

/// Tells that a variable isn't set.
fn tell_unset(alloc: Global, told: &mut ToldVariables, name: &[u8]) -> u32
    ensures { IsTold name.now NotSet told.old told.new result }
{
    let Some(name) = key::text(name) else {
        return NOT_UTF8;
    };
    tell_variable(alloc, told, name, Variable::Unset)
}

/// Tells what a variable is.
fn tell_variable(alloc: Global, told: &mut ToldVariables, name: &str, variable: Variable) -> u32
    ensures number { (result ≡ 0) ⊎ (result ≡ 27) }
    ensures done { result ≡ 0 → told.new ≡ with_entry name.now (reported variable) told.old }
    ensures kept { (result ≡ 0 → ⊥) → told.new ≡ told.old }
{
    let Ok(name) = String::from_str(alloc, name) else {
        return OUT_OF_MEMORY;
    };
    match told.tell(name, variable) {
        Ok(()) => DONE,
        Err(_) => OUT_OF_MEMORY,
    }
}

/// Closes what was told; an empty handle stays empty.
#[unsafe(no_mangle)]
pub extern "C" fn gix_config_told_close(alloc: Global, told: &mut Slot)
    ensures { told.new.it ≡ None }
{
    drop(told.take(alloc));
}
