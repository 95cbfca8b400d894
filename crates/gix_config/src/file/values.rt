//! Lookups of values in types of the caller's.
ghost use Rattle.std.specs.Option.{option_copied};
ghost use Rattle.std.specs.Prelude.{◌≡◌, ℕ, Bool, true, List, Option, IsSome};
ghost use Rattle.bstr.specs.Owned.{bstring_bytes};
ghost use Rattle.gitconf_sources.specs.Key.{the_key};
ghost use Rattle.gitconf_state.specs.Lookup.{Miss};
ghost use Rattle.gitconf_state.specs.State.{SectionState};
ghost use Rattle.gitconf_lookups.specs.Lookups.{IsFound, key_at, shown_with};
ghost use Rattle.gitconf_lookups.specs.Misses.{IsExisting};
ghost use Rattle.gix_config.specs.Converted.{IsConvertedTo, IsConvertedWith, IsTried, IsTriedValue, IsTypedValue, IsValueWithSection};

use crate::file::{File, SectionRef};
use crate::lookup;
use crate::lookup::existing;
use bstr::BString;
use gitconf_sources::key::AsKey;
use gitconf_text::NoMemory;

/// The value that was found, in the type.
fn converted<T: TryFrom<BString>>(
    found: Result<BString, existing::Error>,
) -> Result<T, lookup::Error<T::Error>>
    ensures { (value : Option (List ℕ)) (miss : Miss) → IsExisting bstring_bytes found value miss → IsConvertedTo T.try_from_gives value miss result }
{
    match found {
        Ok(value) => match T::try_from(value) {
            Ok(value) => Ok(value),
            Err(e) => Err(lookup::Error::FailedConversion(e)),
        },
        Err(existing::Error::Memory) => Err(lookup::Error::Memory),
        Err(refusal) => Err(lookup::Error::ValueMissing(refusal)),
    }
}

/// The value that was found, in the type, with its section.
fn converted_with_section<'a, T: TryFrom<BString>>(
    found: Result<(BString, SectionRef<'a>), existing::Error>,
) -> Result<(T, SectionRef<'a>), lookup::Error<T::Error>>
    ensures { (value : Option (List ℕ × SectionState)) (miss : Miss) → IsExisting shown_with found.entry value miss
        → IsConvertedWith T.try_from_gives value miss result }
{
    match found {
        Ok((value, section)) => match T::try_from(value) {
            Ok(value) => Ok((value, section)),
            Err(e) => Err(lookup::Error::FailedConversion(e)),
        },
        Err(existing::Error::Memory) => Err(lookup::Error::Memory),
        Err(refusal) => Err(lookup::Error::ValueMissing(refusal)),
    }
}

/// The value that was found, if one was, in the type.
fn tried<T: TryFrom<BString>>(
    found: Result<Option<BString>, NoMemory>,
) -> Result<Option<T>, lookup::Error<T::Error>>
    ensures { (value : Option (List ℕ)) → IsFound bstring_bytes found value → IsTried T.try_from_gives value result }
{
    match found {
        Ok(Some(value)) => match T::try_from(value) {
            Ok(value) => Ok(Some(value)),
            Err(e) => Err(lookup::Error::FailedConversion(e)),
        },
        Ok(None) => Ok(None),
        Err(_) => Err(lookup::Error::Memory),
    }
}

impl File {
    /// The last value of a key in a type, found as by [`File::raw_value`]. The key has to be valid, as [`AsKey::try_as_key`]
    /// says.
    ///
    /// # Errors
    ///
    /// Those of [`File::raw_value`], and E10 if the type rejects the value.
    pub fn value<T: TryFrom<BString>, K: AsKey>(&self, key: K) -> Result<T, lookup::Error<T::Error>>
        requires { IsSome (K.key key) }
        ensures { IsTypedValue T.try_from_gives (the_key (K.key key)) self.now result }
    {
        let key = key.as_key();
        self.value_by(key.section_name, key.subsection_name, key.value_name)
    }

    /// Like [`File::value`], but by the names of the section, the subsection and the value.
    ///
    /// # Errors
    ///
    /// Those of [`File::value`].
    pub fn value_by<T: TryFrom<BString>>(
        &self,
        section_name: &str,
        subsection_name: Option<&[u8]>,
        value_name: &str,
    ) -> Result<T, lookup::Error<T::Error>>
        ensures { IsTypedValue T.try_from_gives (key_at section_name.now (option_copied subsection_name.entry) value_name.now) self.now result }
    {
        converted(self.raw_value_by(section_name, subsection_name, value_name))
    }

    /// The last value of a key in a type, and its section. It is found as by [`File::raw_value_with_section`]. The key has
    /// to be valid, as [`AsKey::try_as_key`] says.
    ///
    /// # Errors
    ///
    /// Those of [`File::value`].
    pub fn value_with_section<T: TryFrom<BString>, K: AsKey>(
        &self,
        key: K,
    ) -> Result<(T, SectionRef<'_>), lookup::Error<T::Error>>
        requires { IsSome (K.key key) }
        ensures { IsValueWithSection T.try_from_gives (the_key (K.key key)) self.now result }
    {
        let key = key.as_key();
        self.value_with_section_by(key.section_name, key.subsection_name, key.value_name)
    }

    /// Like [`File::value_with_section`], but by the names of the section, the subsection and the value.
    ///
    /// # Errors
    ///
    /// Those of [`File::value`].
    pub fn value_with_section_by<T: TryFrom<BString>>(
        &self,
        section_name: &str,
        subsection_name: Option<&[u8]>,
        value_name: &str,
    ) -> Result<(T, SectionRef<'_>), lookup::Error<T::Error>>
        ensures { IsValueWithSection T.try_from_gives (key_at section_name.now (option_copied subsection_name.entry) value_name.now) self.now result }
    {
        converted_with_section(self.raw_value_with_section_by(
            section_name,
            subsection_name,
            value_name,
        ))
    }

    /// The last value of a key in a type, or `None` if there is none. It is found as by [`File::string`]. The key has to be
    /// valid, as [`AsKey::try_as_key`] says.
    ///
    /// # Errors
    ///
    /// E10 if the type rejects the value; E27 when out of memory.
    pub fn try_value<T: TryFrom<BString>, K: AsKey>(
        &self,
        key: K,
    ) -> Result<Option<T>, lookup::Error<T::Error>>
        requires { IsSome (K.key key) }
        ensures { IsTriedValue T.try_from_gives (the_key (K.key key)) self.now result }
    {
        let key = key.as_key();
        self.try_value_by(key.section_name, key.subsection_name, key.value_name)
    }

    /// Like [`File::try_value`], but by the names of the section, the subsection and the value.
    ///
    /// # Errors
    ///
    /// Those of [`File::try_value`].
    pub fn try_value_by<T: TryFrom<BString>>(
        &self,
        section_name: &str,
        subsection_name: Option<&[u8]>,
        value_name: &str,
    ) -> Result<Option<T>, lookup::Error<T::Error>>
        ensures { IsTriedValue T.try_from_gives (key_at section_name.now (option_copied subsection_name.entry) value_name.now) self.now result }
    {
        tried(self.string_by(section_name, subsection_name, value_name))
    }
}
