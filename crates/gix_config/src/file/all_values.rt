//! Lookups of all values of a key, in types of the caller's.
ghost use Rattle.std.specs.Option.{option_copied};
ghost use Rattle.std.specs.Prelude.{◌≡◌, ℕ, List, IfOk, IfErr, IsSome, map};
ghost use Rattle.gitconf_sources.specs.Key.{the_key};
ghost use Rattle.gitconf_state.specs.Lookup.{Miss};
ghost use Rattle.gitconf_state.specs.State.{SectionState};
ghost use Rattle.gitconf_lookups.specs.Lookups.{if_any, key_at, shown_with, texts_of};
ghost use Rattle.gitconf_lookups.specs.Misses.{IsExisting};
ghost use Rattle.gix_config.specs.Converted.{AreConverted, AreConvertedWith, AreGiven, AreTypedValues, AreValuesWithSections, IsListed, IsListedWith};

use crate::file::{File, SectionRef};
use crate::lookup;
use crate::lookup::existing;
use bstr::BString;
use gitconf_sources::key::AsKey;
use gitconf_sources::lists::{put, with_room};

/// The values of texts, up to the first that the type refuses.
fn values_of<T: TryFrom<BString> + Drop>(
    texts: Vec<BString>,
) -> Result<Vec<T>, lookup::Error<T::Error>>
    ensures { IsListed T.try_from_gives (texts_of texts) result }
{
    let mut values = with_room(*texts.allocator(), texts.len())?;
    for text in texts {
        match T::try_from(text) {
            Ok(value) => put(&mut values, value)?,
            Err(e) => return Err(lookup::Error::FailedConversion(e)),
        }
    }
    Ok(values)
}

/// The values that were found, in the type.
fn converted<T: TryFrom<BString> + Drop>(
    found: Result<Vec<BString>, existing::Error>,
) -> Result<Vec<T>, lookup::Error<T::Error>>
    ensures { (values : List (List ℕ)) (miss : Miss) → IsExisting texts_of found (if_any values) miss → AreConverted T.try_from_gives values miss result }
{
    match found {
        Ok(texts) => values_of(texts),
        Err(existing::Error::Memory) => Err(lookup::Error::Memory),
        Err(refusal) => Err(lookup::Error::ValueMissing(refusal)),
    }
}

/// The values of texts, each with its section, up to the first that the type refuses.
fn values_with_sections_of<'a, T: TryFrom<BString> + Drop>(
    found: Vec<(BString, SectionRef<'a>)>,
) -> Result<Vec<(T, SectionRef<'a>)>, lookup::Error<T::Error>>
    ensures { IsListedWith T.try_from_gives (map shown_with found.entry.items) result }
{
    let mut values = with_room(*found.allocator(), found.len())?;
    for (text, section) in found {
        match T::try_from(text) {
            Ok(value) => put(&mut values, (value, section))?,
            Err(e) => return Err(lookup::Error::FailedConversion(e)),
        }
    }
    Ok(values)
}

/// The values that were found, in the type, each with its section.
fn converted_with_sections<'a, T: TryFrom<BString> + Drop>(
    found: Result<Vec<(BString, SectionRef<'a>)>, existing::Error>,
) -> Result<Vec<(T, SectionRef<'a>)>, lookup::Error<T::Error>>
    ensures { (values : List (List ℕ × SectionState)) (miss : Miss) → IsExisting (λ texts. map shown_with texts.items) found.entry (if_any values) miss
        → AreConvertedWith T.try_from_gives values miss result }
{
    match found {
        Ok(texts) => values_with_sections_of(texts),
        Err(existing::Error::Memory) => Err(lookup::Error::Memory),
        Err(refusal) => Err(lookup::Error::ValueMissing(refusal)),
    }
}

impl File {
    /// All values of a key in a type, found as by [`File::raw_values`]: one or more. The key has to be valid, as
    /// [`AsKey::try_as_key`] says.
    ///
    /// # Errors
    ///
    /// Those of [`File::raw_values`], and E10 if the type rejects a value, with its error for the first such value.
    pub fn values<T: TryFrom<BString> + Drop, K: AsKey>(
        &self,
        key: K,
    ) -> Result<Vec<T>, lookup::Error<T::Error>>
        requires { IsSome (K.key key) }
        ensures { AreTypedValues T.try_from_gives (the_key (K.key key)) self.now result }
    {
        let key = key.as_key();
        self.values_by(key.section_name, key.subsection_name, key.value_name)
    }

    /// Like [`File::values`], but by the names of the section, the subsection and the value.
    ///
    /// # Errors
    ///
    /// Those of [`File::values`].
    pub fn values_by<T: TryFrom<BString> + Drop>(
        &self,
        section_name: &str,
        subsection_name: Option<&[u8]>,
        value_name: &str,
    ) -> Result<Vec<T>, lookup::Error<T::Error>>
        ensures { AreTypedValues T.try_from_gives (key_at section_name.now (option_copied subsection_name.entry) value_name.now) self.now result }
    {
        converted(self.raw_values_by(section_name, subsection_name, value_name))
    }
    /// All values of a key in a type, each with its section. They are found as by [`File::raw_values_with_sections`]: one
    /// or more. The key has to be valid, as [`AsKey::try_as_key`] says.
    ///
    /// # Errors
    ///
    /// Those of [`File::values`].
    pub fn values_with_sections<T: TryFrom<BString> + Drop, K: AsKey>(
        &self,
        key: K,
    ) -> Result<Vec<(T, SectionRef<'_>)>, lookup::Error<T::Error>>
        requires { IsSome (K.key key) }
        ensures { AreValuesWithSections T.try_from_gives (the_key (K.key key)) self.now result }
    {
        let key = key.as_key();
        self.values_with_sections_by(key.section_name, key.subsection_name, key.value_name)
    }

    /// Like [`File::values_with_sections`], but by the names of the section, the subsection and the value.
    ///
    /// # Errors
    ///
    /// Those of [`File::values`].
    pub fn values_with_sections_by<T: TryFrom<BString> + Drop>(
        &self,
        section_name: &str,
        subsection_name: Option<&[u8]>,
        value_name: &str,
    ) -> Result<Vec<(T, SectionRef<'_>)>, lookup::Error<T::Error>>
        ensures { AreValuesWithSections T.try_from_gives (key_at section_name.now (option_copied subsection_name.entry) value_name.now) self.now result }
    {
        converted_with_sections(self.raw_values_with_sections_by(
            section_name,
            subsection_name,
            value_name,
        ))
    }
}
