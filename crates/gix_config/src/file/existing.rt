//! Setting the values of existing entries.
ghost use Rattle.std.specs.Option.{option_copied};
ghost use Rattle.std.specs.Prelude.{IsSome, map};
ghost use Rattle.gitconf_sources.specs.Key.{the_key};
ghost use Rattle.gitconf_store.specs.Existing.{IsSetExisting};
ghost use Rattle.gitconf_lookups.specs.Lookups.{key_at};
ghost use Rattle.gitconf_store.specs.Several.{AreSetExisting};

use crate::file::{File, set_raw_value};
use gitconf_sources::key::{AsKey, KeyRef};

impl File {
    /// Gives the last entry of a key such as `remote.origin.url` another value. That is the last entry, with `=` or without it, in the last
    /// section of the key's name and subsection that has one. It is rewritten, with the name as it is given, the whitespace around `=` that
    /// the section uses, and the value as a file spells it. If the old value ended in an empty last piece and a comment comes next, apart
    /// from whitespace, the last line ending of the old value stays before it. All else stays as it is; no entry is made. The key has to be
    /// valid, as [`AsKey::try_as_key`] says.
    ///
    /// It walks over the sections of the key's name and subsection from the last one up to that one, and over its items. Takes memory
    /// for what is added to the file's buffer, and for at most one more item.
    ///
    /// # Errors
    ///
    /// E7 if no section has the name, E8 if none of these has the subsection; otherwise E6 for an invalid value name; otherwise E9 if none
    /// of these has such an entry; E3 if the file would take more than 4294967295 bytes, E27 when out of memory. The file is then as it
    /// was.
    pub fn set_existing_raw_value<K: AsKey>(
        &mut self,
        key: K,
        new_value: &[u8],
    ) -> Result<(), set_raw_value::Error>
        requires { IsSome (K.key key) }
        ensures { IsSetExisting (the_key (K.key key)) new_value.now result self.old self.new }
    {
        let key = key.as_key();
        self.set_existing_raw_value_by(
            key.section_name,
            key.subsection_name,
            key.value_name,
            new_value,
        )
    }

    /// Like [`File::set_existing_raw_value`], but by the names of the section, the subsection and the value.
    ///
    /// # Errors
    ///
    /// Those of [`File::set_existing_raw_value`].
    pub fn set_existing_raw_value_by(
        &mut self,
        section_name: &str,
        subsection_name: Option<&[u8]>,
        value_name: &str,
        new_value: &[u8],
    ) -> Result<(), set_raw_value::Error>
        ensures { IsSetExisting (key_at section_name.now (option_copied subsection_name.entry) value_name.now) new_value.now result self.old self.new }
    {
        let key = KeyRef {
            section_name,
            subsection_name,
            value_name,
        };
        self.store.set_existing_raw_value(key, new_value)
    }

    /// Gives the entries of a key other values, one after the other. The first entry gets the first value and so on, up to the end of the
    /// shorter list. These are the entries with `=` or without it in all sections of the key's name and subsection, in the order of their
    /// sections' numbers, and in a section in that of the text. Each is rewritten, with the name as it is given, the whitespace around `=`
    /// that its section then uses, and the value as a file spells it. All else stays as it is; no entry is made, and none removed. The key
    /// has to be valid.
    ///
    /// # Errors
    ///
    /// E7, E8, E6 and E9 as those of [`File::set_existing_raw_value`], with the file as it was; E3 if the file would take more than
    /// 4294967295 bytes and E27 when out of memory, after the entries before the one that was refused got their values.
    pub fn set_existing_raw_multi_value<K: AsKey>(
        &mut self,
        key: K,
        new_values: &[&[u8]],
    ) -> Result<(), set_raw_value::Error>
        requires { IsSome (K.key key) }
        ensures { AreSetExisting (the_key (K.key key)) (map (λ v. v.now) new_values.now) result self.old self.new }
    {
        let key = key.as_key();
        self.set_existing_raw_multi_value_by(
            key.section_name,
            key.subsection_name,
            key.value_name,
            new_values,
        )
    }

    /// Like [`File::set_existing_raw_multi_value`], but by the names of the section, the subsection and the value.
    ///
    /// # Errors
    ///
    /// Those of [`File::set_existing_raw_multi_value`].
    pub fn set_existing_raw_multi_value_by(
        &mut self,
        section_name: &str,
        subsection_name: Option<&[u8]>,
        value_name: &str,
        new_values: &[&[u8]],
    ) -> Result<(), set_raw_value::Error>
        ensures { AreSetExisting (key_at section_name.now (option_copied subsection_name.entry) value_name.now) (map (λ v. v.now) new_values.now)
            result self.old self.new }
    {
        let key = KeyRef {
            section_name,
            subsection_name,
            value_name,
        };
        self.store.set_existing_raw_multi_value(key, new_values)
    }
}
