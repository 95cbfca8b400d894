//! Lookups of paths, booleans and integers.
ghost use Rattle.std.specs.Fn.{ComputesKey};
ghost use Rattle.std.specs.Option.{option_copied};
ghost use Rattle.std.specs.Prelude.{◌≡◌, Bool, true, IsSome};
ghost use Rattle.gitconf_sources.specs.Key.{the_key};
ghost use Rattle.gitconf_sources.specs.Metadata.{Meta};
ghost use Rattle.std.specs.Option.{option_map};
ghost use Rattle.std.specs.Prelude.{◌⊎◌, ℕ, List, Option, Ok, Err, IfOk, IfErr};
ghost use Rattle.bstr.specs.Owned.{bstring_bytes};
ghost use Rattle.gitconf_text.specs.ValueErrors.{wanting};
ghost use Rattle.gitconf_values.specs.Integers.{integer_or_refusal};
ghost use Rattle.gitconf_lookups.specs.Lookups.{IsFound, if_any, key_at, texts_of};
ghost use Rattle.gitconf_lookups.specs.SomeSections.{Filtered};
ghost use Rattle.gix_config.specs.Keys.{OfKey};
ghost use Rattle.gitconf_body.specs.Bodies.{IsFoundImplicit};
ghost use Rattle.gix_config.specs.Typed.{AreIntegers, IsBoolean, IsEntryBoolean, IsInteger, IsPath, IsReadAs, boolean_or_refusal, integers_or_refusal};

use crate::file::{File, Metadata};
use crate::values::{Boolean, Path};
use bstr::BString;
use gitconf_sources::key::{AsKey, KeyRef};
use gitconf_sources::lists::{put, with_room};
use gitconf_text::{NoMemory, value};
use gitconf_values::integer;

/// The path that was found.
fn found_path(found: Result<Option<BString>, NoMemory>) -> Result<Option<Path>, NoMemory>
    ensures { (value : Option (List ℕ)) → IsFound bstring_bytes found value → IsFound (λ path. path) result value }
{
    match found? {
        Some(value) => Ok(Some(Path::from(value))),
        None => Ok(None),
    }
}

/// The boolean of an entry: true without a value.
fn boolean_of(value: Option<BString>) -> Result<bool, value::Error>
    ensures { result ≡ boolean_or_refusal (option_map bstring_bytes value) }
{
    match value {
        Some(value) => Ok(Boolean::try_from(value)?.0),
        None => Ok(true),
    }
}

/// The boolean of the entry that was found.
fn found_boolean(
    found: Result<Option<Option<BString>>, NoMemory>,
) -> Result<Option<bool>, value::Error>
    ensures { (value : Option (Option (List ℕ))) → IsFoundImplicit found value → IsEntryBoolean value result }
{
    match found? {
        Some(value) => Ok(Some(boolean_of(value)?)),
        None => Ok(None),
    }
}

/// The integer of the value that was found.
fn found_integer(found: Result<Option<BString>, NoMemory>) -> Result<Option<i64>, value::Error>
    ensures { (value : Option (List ℕ)) → IsFound bstring_bytes found value → IsReadAs integer_or_refusal (λ n. n) value result }
{
    match found? {
        Some(value) => Ok(Some(integer::decimal(value)?)),
        None => Ok(None),
    }
}

/// The integers of values, up to the first that has none.
fn integers_of(values: Vec<BString>) -> Result<Vec<i64>, value::Error>
    ensures ok { IfOk result (λ ns. integers_or_refusal (texts_of values) ≡ Ok ns.items) }
    ensures err { IfErr result (λ e. (integers_or_refusal (texts_of values) ≡ Err e) ⊎ (e ≡ wanting)) }
{
    let mut integers = with_room(*values.allocator(), values.len())?;
    for value in values {
        put(&mut integers, integer::decimal(value)?)?;
    }
    Ok(integers)
}

/// The integers of the values that were found.
fn found_integers(
    found: Result<Option<Vec<BString>>, NoMemory>,
) -> Result<Option<Vec<i64>>, value::Error>
    ensures { (values : List (List ℕ)) → IsFound texts_of found (if_any values) → IsReadAs integers_or_refusal (λ ns. ns.items) (if_any values) result }
{
    match found? {
        Some(values) => Ok(Some(integers_of(values)?)),
        None => Ok(None),
    }
}

impl File {
    /// The last value of a key as a path, found as by [`File::string`]. Its shorthands are not replaced ([`Path::interpolate`] does that).
    ///
    /// # Errors
    ///
    /// E27 when out of memory for the result.
    pub fn path<K: AsKey>(&self, key: K) -> Result<Option<Path>, NoMemory>
        ensures { OfKey (K.key key) (λ key. IsPath key (λ _. true) self.now result) result }
    {
        match key.try_as_key() {
            Some(key) => self.path_by(key.section_name, key.subsection_name, key.value_name),
            None => Ok(None),
        }
    }

    /// Like [`File::path`], but by the names of the section, the subsection and the value.
    ///
    /// # Errors
    ///
    /// Those of [`File::path`].
    #[tactic(auto, using(std::proofs::lemmas::Fn::always_returns_same))]
    pub fn path_by(
        &self,
        section_name: &str,
        subsection_name: Option<&[u8]>,
        value_name: &str,
    ) -> Result<Option<Path>, NoMemory>
        ensures { IsPath (key_at section_name.now (option_copied subsection_name.entry) value_name.now) (λ _. true) self.now result }
    {
        self.path_filter_by(section_name, subsection_name, value_name, |_| true)
    }

    /// Like [`File::path`], but of the sections whose metadata passes the filter.
    ///
    /// # Errors
    ///
    /// Those of [`File::path`].
    pub fn path_filter<K: AsKey, F: FnMut(&Metadata) -> bool>(
        &self,
        key: K,
        filter: F,
    ) -> Result<Option<Path>, NoMemory>
        requires { F.IsAlwaysCallable filter }
        ensures { OfKey (K.key key) (λ key. Filtered (λ keeps. ComputesKey F.FnMut keeps filter)
            (λ keeps s. IsPath key keeps s result) self.now) result }
    {
        match key.try_as_key() {
            Some(key) => self.path_filter_by(
                key.section_name,
                key.subsection_name,
                key.value_name,
                filter,
            ),
            None => Ok(None),
        }
    }

    /// Like [`File::path_filter`], but by the names of the section, the subsection and the value.
    ///
    /// # Errors
    ///
    /// Those of [`File::path`].
    pub fn path_filter_by<F: FnMut(&Metadata) -> bool>(
        &self,
        section_name: &str,
        subsection_name: Option<&[u8]>,
        value_name: &str,
        filter: F,
    ) -> Result<Option<Path>, NoMemory>
        requires { F.IsAlwaysCallable filter }
        ensures { Filtered (λ keeps. ComputesKey F.FnMut keeps filter)
            (λ keeps s. IsPath (key_at section_name.now (option_copied subsection_name.entry) value_name.now) keeps s result) self.now }
    {
        let key = KeyRef {
            section_name,
            subsection_name,
            value_name,
        };
        let found = self.store.string_filter(key, filter);
        found_path(found)
    }

    /// The boolean of a key's last entry; true if that entry has no `=`. The entry is the last one in the last section of the key's name
    /// and subsection that has one. `None` if there is none or the key can't be parsed. A miss takes no memory.
    ///
    /// # Errors
    ///
    /// E11 for a value that is not a boolean, `not a boolean`, with its bytes. E27 when out of memory.
    pub fn boolean<K: AsKey>(&self, key: K) -> Result<Option<bool>, value::Error>
        ensures { OfKey (K.key key) (λ key. IsBoolean key (λ _. true) self.now result) result }
    {
        match key.try_as_key() {
            Some(key) => self.boolean_by(key.section_name, key.subsection_name, key.value_name),
            None => Ok(None),
        }
    }

    /// Like [`File::boolean`], but by the names of the section, the subsection and the value.
    ///
    /// # Errors
    ///
    /// Those of [`File::boolean`].
    #[tactic(auto, using(std::proofs::lemmas::Fn::always_returns_same))]
    pub fn boolean_by(
        &self,
        section_name: &str,
        subsection_name: Option<&[u8]>,
        value_name: &str,
    ) -> Result<Option<bool>, value::Error>
        ensures { IsBoolean (key_at section_name.now (option_copied subsection_name.entry) value_name.now) (λ _. true) self.now result }
    {
        self.boolean_filter_by(section_name, subsection_name, value_name, |_| true)
    }

    /// Like [`File::boolean`], but of the sections whose metadata passes the filter.
    ///
    /// # Errors
    ///
    /// Those of [`File::boolean`].
    pub fn boolean_filter<K: AsKey, F: FnMut(&Metadata) -> bool>(
        &self,
        key: K,
        filter: F,
    ) -> Result<Option<bool>, value::Error>
        requires { F.IsAlwaysCallable filter }
        ensures { OfKey (K.key key) (λ key. Filtered (λ keeps. ComputesKey F.FnMut keeps filter)
            (λ keeps s. IsBoolean key keeps s result) self.now) result }
    {
        match key.try_as_key() {
            Some(key) => self.boolean_filter_by(
                key.section_name,
                key.subsection_name,
                key.value_name,
                filter,
            ),
            None => Ok(None),
        }
    }

    /// Like [`File::boolean_filter`], but by the names of the section, the subsection and the value.
    ///
    /// # Errors
    ///
    /// Those of [`File::boolean`].
    pub fn boolean_filter_by<F: FnMut(&Metadata) -> bool>(
        &self,
        section_name: &str,
        subsection_name: Option<&[u8]>,
        value_name: &str,
        filter: F,
    ) -> Result<Option<bool>, value::Error>
        requires { F.IsAlwaysCallable filter }
        ensures { Filtered (λ keeps. ComputesKey F.FnMut keeps filter)
            (λ keeps s. IsBoolean (key_at section_name.now (option_copied subsection_name.entry) value_name.now) keeps s result) self.now }
    {
        let key = KeyRef {
            section_name,
            subsection_name,
            value_name,
        };
        let found = self.store.value_implicit_filter(key, filter);
        found_boolean(found)
    }

    /// The last value of a key, as an integer times its suffix. It is found as by [`File::string`]. A miss takes no memory.
    ///
    /// # Errors
    ///
    /// E11 for a value that is not an integer, `not an integer`, or one that 64 bits don't hold, `Integer overflow`, with its bytes. E27
    /// when out of memory.
    pub fn integer<K: AsKey>(&self, key: K) -> Result<Option<i64>, value::Error>
        ensures { OfKey (K.key key) (λ key. IsInteger key (λ _. true) self.now result) result }
    {
        match key.try_as_key() {
            Some(key) => self.integer_by(key.section_name, key.subsection_name, key.value_name),
            None => Ok(None),
        }
    }

    /// Like [`File::integer`], but by the names of the section, the subsection and the value.
    ///
    /// # Errors
    ///
    /// Those of [`File::integer`].
    #[tactic(auto, using(std::proofs::lemmas::Fn::always_returns_same))]
    pub fn integer_by(
        &self,
        section_name: &str,
        subsection_name: Option<&[u8]>,
        value_name: &str,
    ) -> Result<Option<i64>, value::Error>
        ensures { IsInteger (key_at section_name.now (option_copied subsection_name.entry) value_name.now) (λ _. true) self.now result }
    {
        self.integer_filter_by(section_name, subsection_name, value_name, |_| true)
    }

    /// Like [`File::integer`], but of the sections whose metadata passes the filter.
    ///
    /// # Errors
    ///
    /// Those of [`File::integer`].
    pub fn integer_filter<K: AsKey, F: FnMut(&Metadata) -> bool>(
        &self,
        key: K,
        filter: F,
    ) -> Result<Option<i64>, value::Error>
        requires { F.IsAlwaysCallable filter }
        ensures { OfKey (K.key key) (λ key. Filtered (λ keeps. ComputesKey F.FnMut keeps filter)
            (λ keeps s. IsInteger key keeps s result) self.now) result }
    {
        match key.try_as_key() {
            Some(key) => self.integer_filter_by(
                key.section_name,
                key.subsection_name,
                key.value_name,
                filter,
            ),
            None => Ok(None),
        }
    }

    /// Like [`File::integer_filter`], but by the names of the section, the subsection and the value.
    ///
    /// # Errors
    ///
    /// Those of [`File::integer`].
    pub fn integer_filter_by<F: FnMut(&Metadata) -> bool>(
        &self,
        section_name: &str,
        subsection_name: Option<&[u8]>,
        value_name: &str,
        filter: F,
    ) -> Result<Option<i64>, value::Error>
        requires { F.IsAlwaysCallable filter }
        ensures { Filtered (λ keeps. ComputesKey F.FnMut keeps filter)
            (λ keeps s. IsInteger (key_at section_name.now (option_copied subsection_name.entry) value_name.now) keeps s result) self.now }
    {
        let key = KeyRef {
            section_name,
            subsection_name,
            value_name,
        };
        let found = self.store.string_filter(key, filter);
        found_integer(found)
    }

    /// All values of a key, found as by [`File::strings`], as integers times their suffixes. An entry without `=` counts as empty, which is
    /// not an integer. A miss takes no memory.
    ///
    /// # Errors
    ///
    /// E11 for the first value that is not an integer, `not an integer`, or that 64 bits don't hold, `Integer overflow`, with its bytes.
    /// E27 when out of memory.
    pub fn integers<K: AsKey>(&self, key: K) -> Result<Option<Vec<i64>>, value::Error>
        ensures { OfKey (K.key key) (λ key. AreIntegers key (λ _. true) self.now result) result }
    {
        match key.try_as_key() {
            Some(key) => self.integers_by(key.section_name, key.subsection_name, key.value_name),
            None => Ok(None),
        }
    }

    /// Like [`File::integers`], but by the names of the section, the subsection and the value.
    ///
    /// # Errors
    ///
    /// Those of [`File::integers`].
    #[tactic(auto, using(std::proofs::lemmas::Fn::always_returns_same))]
    pub fn integers_by(
        &self,
        section_name: &str,
        subsection_name: Option<&[u8]>,
        value_name: &str,
    ) -> Result<Option<Vec<i64>>, value::Error>
        ensures { AreIntegers (key_at section_name.now (option_copied subsection_name.entry) value_name.now) (λ _. true) self.now result }
    {
        self.integers_filter_by(section_name, subsection_name, value_name, |_| true)
    }

    /// Like [`File::integers`], but of the sections whose metadata passes the filter.
    ///
    /// # Errors
    ///
    /// Those of [`File::integers`].
    pub fn integers_filter<K: AsKey, F: FnMut(&Metadata) -> bool>(
        &self,
        key: K,
        filter: F,
    ) -> Result<Option<Vec<i64>>, value::Error>
        requires { F.IsAlwaysCallable filter }
        ensures { OfKey (K.key key) (λ key. Filtered (λ keeps. ComputesKey F.FnMut keeps filter)
            (λ keeps s. AreIntegers key keeps s result) self.now) result }
    {
        match key.try_as_key() {
            Some(key) => self.integers_filter_by(
                key.section_name,
                key.subsection_name,
                key.value_name,
                filter,
            ),
            None => Ok(None),
        }
    }

    /// Like [`File::integers_filter`], but by the names of the section, the subsection and the value.
    ///
    /// # Errors
    ///
    /// Those of [`File::integers`].
    pub fn integers_filter_by<F: FnMut(&Metadata) -> bool>(
        &self,
        section_name: &str,
        subsection_name: Option<&[u8]>,
        value_name: &str,
        filter: F,
    ) -> Result<Option<Vec<i64>>, value::Error>
        requires { F.IsAlwaysCallable filter }
        ensures { Filtered (λ keeps. ComputesKey F.FnMut keeps filter)
            (λ keeps s. AreIntegers (key_at section_name.now (option_copied subsection_name.entry) value_name.now) keeps s result) self.now }
    {
        let key = KeyRef {
            section_name,
            subsection_name,
            value_name,
        };
        let found = self.store.strings_filter(key, filter);
        found_integers(found)
    }
}
