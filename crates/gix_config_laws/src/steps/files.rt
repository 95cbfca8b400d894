//! Calls on a file.
ghost use Rattle.std.specs.Fn.{ComputesKey};
ghost use Rattle.std.specs.Option.{option_copied};
ghost use Rattle.std.specs.Prelude.{Bool, IsSome, Ok, map, option_map, true};
ghost use Rattle.bstr.specs.Owned.{bstring_bytes};
ghost use Rattle.gitconf_body.specs.Refusals.{header_refusal, span_refusal};
ghost use Rattle.gitconf_includes.specs.Outcomes.{asks_of};
ghost use Rattle.gitconf_lookups.specs.Lookups.{key_at};
ghost use Rattle.gitconf_lookups.specs.Picks.{picked};
ghost use Rattle.gitconf_lookups.specs.SomeSections.{Filtered};
ghost use Rattle.gitconf_sources.specs.Key.{the_key};
ghost use Rattle.gitconf_state.specs.Edits.{Append, Done, NewSection, Number, PushSection, RemoveNumbered, RemoveSection, RenameAll, SetMeta, SetRawValue, answer};
ghost use Rattle.gitconf_store.specs.RenameErrors.{rename_refusal};
ghost use Rattle.gitconf_store.specs.SetErrors.{set_refusal};
ghost use Rattle.gix_config.specs.Keys.{set_by_key};
ghost use Rattle.gix_config_laws.specs.Headline.{Edits, LeavesFile, RenamesSome, Resolves, SetsAllExisting, SetsExisting, SetsSomewhere, no_memory};
ghost use Rattle.gix_config_laws.specs.Steps.{IsFoundOrStep, IsRemovingStep, IsStep, raw};

use bstr::BString;
use gitconf_includes::init::Options;
use gitconf_text::parse::section::header;
use gitconf_text::parse::span;
use gix_config::file::{
    File, Metadata, Section, SectionId, includes, rename_section, set_raw_value,
};
use gix_config::host::{Files, Host};
use gix_config::{AsKey, NoMemory};
use std::rc::Rc;

/// [`File::set_raw_value`].
pub fn set_raw_value<K: AsKey>(
    file: &mut File,
    key: K,
    value: &[u8],
) -> Result<Option<BString>, set_raw_value::Error>
    requires { IsSome (K.key key) }
    ensures { IsStep (set_by_key (the_key (K.key key)) (λ _. true) value.now) raw set_refusal result file.old file.new }
{
    file.set_raw_value(key, value)
}

/// [`File::set_raw_value_by`].
pub fn set_raw_value_by(
    file: &mut File,
    section_name: &str,
    subsection_name: Option<&[u8]>,
    value_name: &str,
    value: &[u8],
) -> Result<Option<BString>, set_raw_value::Error>
    ensures { IsStep (SetRawValue section_name.now (option_copied subsection_name.entry) value_name.now (λ _. true) value.now)
        raw set_refusal result file.old file.new }
{
    file.set_raw_value_by(section_name, subsection_name, value_name, value)
}

/// [`File::set_raw_value_filter`], whatever the filter answers.
pub fn set_raw_value_filter<K: AsKey, F: FnMut(&Metadata) -> bool>(
    file: &mut File,
    key: K,
    value: &[u8],
    filter: F,
) -> Result<Option<BString>, set_raw_value::Error>
    requires known { IsSome (K.key key) }
    requires callable { F.IsAlwaysCallable filter }
    ensures { let k = the_key (K.key key) in LeavesFile (SetsSomewhere k.section k.subsection k.name value.now result) file.old file.new }
{
    file.set_raw_value_filter(key, value, filter)
}

/// [`File::set_raw_value_filter_by`], whatever the filter answers.
pub fn set_raw_value_filter_by<F: FnMut(&Metadata) -> bool>(
    file: &mut File,
    section_name: &str,
    subsection_name: Option<&[u8]>,
    value_name: &str,
    value: &[u8],
    filter: F,
) -> Result<Option<BString>, set_raw_value::Error>
    requires { F.IsAlwaysCallable filter }
    ensures { LeavesFile (SetsSomewhere section_name.now (option_copied subsection_name.entry) value_name.now value.now result) file.old file.new }
{
    file.set_raw_value_filter_by(section_name, subsection_name, value_name, value, filter)
}

/// [`File::set_existing_raw_value`].
pub fn set_existing_raw_value<K: AsKey>(
    file: &mut File,
    key: K,
    value: &[u8],
) -> Result<(), set_raw_value::Error>
    requires { IsSome (K.key key) }
    ensures { LeavesFile (SetsExisting (the_key (K.key key)) value.now result) file.old file.new }
{
    file.set_existing_raw_value(key, value)
}

/// [`File::set_existing_raw_value_by`].
pub fn set_existing_raw_value_by(
    file: &mut File,
    section_name: &str,
    subsection_name: Option<&[u8]>,
    value_name: &str,
    value: &[u8],
) -> Result<(), set_raw_value::Error>
    ensures { LeavesFile (SetsExisting (key_at section_name.now (option_copied subsection_name.entry) value_name.now) value.now result) file.old file.new }
{
    file.set_existing_raw_value_by(section_name, subsection_name, value_name, value)
}

/// [`File::set_existing_raw_multi_value`].
pub fn set_existing_raw_multi_value<K: AsKey>(
    file: &mut File,
    key: K,
    values: &[&[u8]],
) -> Result<(), set_raw_value::Error>
    requires { IsSome (K.key key) }
    ensures { LeavesFile (SetsAllExisting (the_key (K.key key)) (map (λ v. v.now) values.now) result) file.old file.new }
{
    file.set_existing_raw_multi_value(key, values)
}

/// [`File::set_existing_raw_multi_value_by`].
pub fn set_existing_raw_multi_value_by(
    file: &mut File,
    section_name: &str,
    subsection_name: Option<&[u8]>,
    value_name: &str,
    values: &[&[u8]],
) -> Result<(), set_raw_value::Error>
    ensures { LeavesFile (SetsAllExisting (key_at section_name.now (option_copied subsection_name.entry) value_name.now) (map (λ v. v.now) values.now) result)
        file.old file.new }
{
    file.set_existing_raw_multi_value_by(section_name, subsection_name, value_name, values)
}

/// [`File::rename_section`].
pub fn rename_section(
    file: &mut File,
    name: &str,
    subsection_name: Option<&[u8]>,
    new_name: &str,
    new_subsection_name: Option<BString>,
) -> Result<(), rename_section::Error>
    ensures { IsStep (RenameAll name.now (option_copied subsection_name.entry) (λ _. true) new_name.now (option_map bstring_bytes new_subsection_name))
        (λ _. Done) rename_refusal result file.old file.new }
{
    file.rename_section(name, subsection_name, new_name, new_subsection_name)
}

/// [`File::rename_section_filter`], whatever the filter answers.
pub fn rename_section_filter<F: FnMut(&Metadata) -> bool>(
    file: &mut File,
    name: &str,
    subsection_name: Option<&[u8]>,
    new_name: &str,
    new_subsection_name: Option<BString>,
    filter: F,
) -> Result<(), rename_section::Error>
    requires { F.IsAlwaysCallable filter }
    ensures { LeavesFile (RenamesSome name.now (option_copied subsection_name.entry) new_name.now (option_map bstring_bytes new_subsection_name) result) file.old file.new }
{
    file.rename_section_filter(name, subsection_name, new_name, new_subsection_name, filter)
}

/// [`File::append`].
pub fn append(file: &mut File, other: File) -> Result<(), span::Error>
    ensures { IsStep (Append other) (λ _. Done) span_refusal result file.old file.new }
{
    file.append(other)
}

/// [`File::remove_section`]. One that finds nothing is a step, too: it leaves the file as it was.
pub fn remove_section(
    file: &mut File,
    name: &str,
    subsection_name: Option<&[u8]>,
) -> Result<Option<Section>, NoMemory>
    ensures { let edit = RemoveSection name.now (option_copied subsection_name.entry) (λ _. true) in
        IsStep edit (λ _. answer edit file.old) (λ _. no_memory) result file.old file.new }
{
    file.remove_section(name, subsection_name)
}

/// [`File::remove_section_by_id`].
pub fn remove_section_by_id(file: &mut File, id: SectionId) -> Result<Option<Section>, NoMemory>
    ensures { let edit = RemoveNumbered id in IsStep edit (λ _. answer edit file.old) (λ _. no_memory) result file.old file.new }
{
    file.remove_section_by_id(id)
}

/// [`File::remove_section_filter`], whatever the filter answers.
pub fn remove_section_filter<F: FnMut(&Metadata) -> bool>(
    file: &mut File,
    name: &str,
    subsection_name: Option<&[u8]>,
    filter: F,
) -> Result<Option<Section>, NoMemory>
    requires { F.IsAlwaysCallable filter }
    ensures { Filtered (λ keeps. ComputesKey F.FnMut keeps filter)
        (λ keeps s. IsRemovingStep (picked name.now (option_copied subsection_name.entry) keeps s) result file.old file.new) file.old }
{
    file.remove_section_filter(name, subsection_name, filter)
}

/// [`File::new_section`], of whose editor the number is returned.
pub fn new_section(
    file: &mut File,
    name: &str,
    subsection_name: Option<BString>,
) -> Result<SectionId, header::Error>
    ensures { IsStep (NewSection name.now (option_map bstring_bytes subsection_name)) Number header_refusal result file.old file.new }
{
    match file.new_section(name, subsection_name) {
        Ok(section) => Ok(section.id()),
        Err(e) => Err(e),
    }
}

/// [`File::push_section`], of whose editor the number is returned.
pub fn push_section(file: &mut File, section: Section) -> Result<SectionId, span::Error>
    ensures { IsStep (PushSection section) Number span_refusal result file.old file.new }
{
    match file.push_section(section) {
        Ok(section) => Ok(section.id()),
        Err(e) => Err(e),
    }
}

/// [`File::section_mut_or_create_new`], of whose editor the number is returned.
pub fn section_mut_or_create_new(
    file: &mut File,
    name: &str,
    subsection_name: Option<&[u8]>,
) -> Result<SectionId, header::Error>
    ensures { let subsection = option_copied subsection_name.entry in
        IsFoundOrStep name.now subsection (picked name.now subsection (λ _. true) file.old) result file.old file.new }
{
    match file.section_mut_or_create_new(name, subsection_name) {
        Ok(section) => Ok(section.id()),
        Err(e) => Err(e),
    }
}

/// [`File::section_mut_or_create_new_filter`], whatever the filter answers; the number of its editor is returned.
pub fn section_mut_or_create_new_filter<F: FnMut(&Metadata) -> bool>(
    file: &mut File,
    name: &str,
    subsection_name: Option<&[u8]>,
    filter: F,
) -> Result<SectionId, header::Error>
    requires { F.IsAlwaysCallable filter }
    ensures { let subsection = option_copied subsection_name.entry in Filtered (λ keeps. ComputesKey F.FnMut keeps filter)
        (λ keeps s. IsFoundOrStep name.now subsection (picked name.now subsection keeps s) result file.old file.new) file.old }
{
    match file.section_mut_or_create_new_filter(name, subsection_name, filter) {
        Ok(section) => Ok(section.id()),
        Err(e) => Err(e),
    }
}

/// [`File::set_meta`].
pub fn set_meta(file: &mut File, meta: Rc<Metadata>)
    ensures { LeavesFile (Edits (SetMeta meta.value) (Ok Done)) file.old file.new }
{
    let _ = file.set_meta(meta);
}

/// [`File::resolve_includes`], over any host.
pub fn resolve_includes(
    file: &mut File,
    options: Options<'_>,
    mut host: Host,
) -> Result<(), includes::Error>
    ensures { LeavesFile (Resolves (asks_of options.entry (⟦<Box<dyn Files> as Files>⟧.table host.files)) result) file.old file.new }
{
    file.resolve_includes(options, &mut host)
}
