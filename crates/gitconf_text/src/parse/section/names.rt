//! Names, which are compared without ASCII case.
ghost use Rattle.std.specs.Prelude.{◌≡◌, ◌↔◌, [], true, false, IsTrue, Some, IfOk, IfErr, IsErrOf, string_bytes};
ghost use Rattle.bstr.specs.Owned.{bstring_bytes};
ghost use Rattle.std.proofs.Common.{rules};
ghost use Rattle.std.specs.Cmp.{partial_order_from_own_ties};
ghost use Rattle.std.specs.Cmp.Rules.{comparing, hashing};
ghost use Rattle.std.specs.Ordering.{as_partial_cmp};
ghost use Rattle.gitconf_text.specs.Names as spec;

use super::bytes;
use super::name_errors::{NameError, ValueNameError};
use crate::memory::NoMemory;
use bstr::BString;
use std::alloc::Global;
use std::cmp::Ordering;
use std::fmt;
use std::hash::{Hash, Hasher};
use std::marker::Model;

/// The name of a section, like `remote`: letters, digits and dashes.
///
/// It keeps its spelling, and is compared, ordered and hashed without ASCII case. `try_from` makes one of a `String` or
/// a `BString`, whose memory it keeps; its only error is E6, for bytes that are not such a name.
#[derive(Debug, Drop)]
pub struct Name {
    text: String,
}

impl Model for Name {
    ghost use Rattle.std.specs.Prelude.{ℕ, List, IsTrue, string_bytes};
    ghost use Rattle.gitconf_text.specs.Names as spec;

    ghost Value = { List ℕ };

    ghost view = { λ name. string_bytes name.text };

    ghost invariant = { λ name. IsTrue (spec.is_made_name (string_bytes name.text)) };
}

impl Name {
    /// A copy of the bytes, if they are such a name.
    ///
    /// # Errors
    ///
    /// E6 if they are not, and E27 when out of memory.
    pub fn try_from_bytes(alloc: Global, bytes: &[u8]) -> Result<Name, NameError>
        ensures ok { IfOk result (λ name. name ≡ bytes.now) }
        ensures invalid { IsErrOf result 6 ↔ (spec.is_name bytes.now ≡ false) }
        ensures memory { IfErr result (λ e. spec.is_name bytes.now ≡ true → e ≡ 27) }
    {
        if !bytes::is_name(bytes) {
            return Err(NameError::invalid());
        }
        let text = String::from_str(alloc, bytes::as_text(bytes))?;
        Ok(Name { text })
    }

    /// The name without a byte, which no conversion makes. It takes no memory.
    pub fn empty(alloc: Global) -> Name
        ensures { result ≡ [] }
    {
        Name {
            text: String::new(alloc),
        }
    }

    /// A copy with the same spelling.
    ///
    /// # Errors
    ///
    /// Only when out of memory.
    pub fn to_owned(&self) -> Result<Name, NoMemory>
        ensures { IfOk result (λ name. name ≡ self.now) }
    {
        let text = self.text.clone()?;
        Ok(Name { text })
    }

    /// The bytes as spelled.
    pub fn as_bytes(&self) -> &[u8]
        ensures bytes { result.now ≡ self.now }
        ensures valid { IsTrue (spec.is_made_name result.now) }
    {
        self.text.as_bytes()
    }

    /// The text as spelled.
    pub fn as_str(&self) -> &str
        ensures bytes { result.now ≡ self.now }
        ensures valid { IsTrue (spec.is_made_name result.now) }
    {
        self.text.as_str()
    }
}

impl TryFrom<String> for Name {
    type Error = NameError;

    ghost try_from_gives = { λ text result.
        spec.IsConverted (spec.is_name (string_bytes text)) (string_bytes text) result };

    fn try_from(text: String) -> Result<Name, NameError> {
        if !bytes::is_name(text.as_bytes()) {
            return Err(NameError::invalid());
        }
        Ok(Name { text })
    }
}

impl TryFrom<BString> for Name {
    type Error = NameError;

    ghost try_from_gives = { λ bytes result.
        spec.IsConverted (spec.is_name (bstring_bytes bytes)) (bstring_bytes bytes) result };

    fn try_from(bytes: BString) -> Result<Name, NameError> {
        if !bytes::is_name(bytes.as_bytes()) {
            return Err(NameError::invalid());
        }
        let text = bytes::into_text(bytes.into_vec());
        Ok(Name { text })
    }
}

impl fmt::Display for Name {
    ghost output = { λ name. Some name };

    fn fmt<W: fmt::Write>(&self, f: &mut fmt::Formatter<W>) -> fmt::Result {
        fmt::Display::fmt(self.as_str(), f)
    }
}

impl PartialEq for Name {
    ghost eq = { spec.is_same_name };

    ghost laws = { Prim.search (comparing, rules) };

    fn eq(&self, other: &Name) -> bool {
        bytes::is_same_name(self.as_bytes(), other.as_bytes())
    }
}

impl Eq for Name {
    ghost laws = { Prim.search (comparing, rules) };
}

impl PartialOrd for Name {
    ghost partial_cmp = { as_partial_cmp spec.name_order };

    ghost laws = { partial_order_from_own_ties (Prim.search (comparing, rules))
        (Prim.search (comparing, rules)) };

    fn partial_cmp(&self, other: &Name) -> Option<Ordering> {
        Some(self.cmp(other))
    }
}

impl Ord for Name {
    ghost cmp = { spec.name_order };

    ghost total = { Prim.search (comparing, rules) };

    ghost matches_partial_cmp = { Prim.search (comparing, rules) };

    ghost matches_eq = { Prim.search (comparing, rules) };

    fn cmp(&self, other: &Name) -> Ordering {
        bytes::name_order(self.as_bytes(), other.as_bytes())
    }
}

impl Hash for Name {
    ghost hash_input = { spec.name_writes };

    ghost respects_eq = { Prim.search (hashing, rules) };

    fn hash<H: Hasher>(&self, state: &mut H) {
        bytes::feed(self.as_bytes(), state);
    }
}

/// The name of a value, like `path` in `include.path`: a letter, and then letters, digits and dashes.
///
/// It keeps its spelling, and is compared, ordered and hashed without ASCII case. `try_from` makes one of a `String` or
/// a `BString`, whose memory it keeps; its only error is E6, for bytes that are not such a name.
#[derive(Debug, Drop)]
pub struct ValueName {
    text: String,
}

impl Model for ValueName {
    ghost use Rattle.std.specs.Prelude.{ℕ, List, IsTrue, string_bytes};
    ghost use Rattle.gitconf_text.specs.Names as spec;

    ghost Value = { List ℕ };

    ghost view = { λ name. string_bytes name.text };

    ghost invariant = { λ name. IsTrue (spec.is_value_name_or_empty (string_bytes name.text)) };
}

impl ValueName {
    /// A copy of the bytes, if they are such a name.
    ///
    /// # Errors
    ///
    /// E6 if they are not, and E27 when out of memory.
    pub fn try_from_bytes(alloc: Global, bytes: &[u8]) -> Result<ValueName, ValueNameError>
        ensures ok { IfOk result (λ name. name ≡ bytes.now) }
        ensures invalid { IsErrOf result 6 ↔ (spec.is_value_name bytes.now ≡ false) }
        ensures memory { IfErr result (λ e. spec.is_value_name bytes.now ≡ true → e ≡ 27) }
    {
        if !bytes::is_value_name(bytes) {
            return Err(ValueNameError::invalid());
        }
        let text = String::from_str(alloc, bytes::as_text(bytes))?;
        Ok(ValueName { text })
    }

    /// The name without a byte, which no conversion makes. It takes no memory.
    pub fn empty(alloc: Global) -> ValueName
        ensures { result ≡ [] }
    {
        ValueName {
            text: String::new(alloc),
        }
    }

    /// A copy with the same spelling.
    ///
    /// # Errors
    ///
    /// Only when out of memory.
    pub fn to_owned(&self) -> Result<ValueName, NoMemory>
        ensures { IfOk result (λ name. name ≡ self.now) }
    {
        let text = self.text.clone()?;
        Ok(ValueName { text })
    }

    /// The bytes as spelled.
    pub fn as_bytes(&self) -> &[u8]
        ensures bytes { result.now ≡ self.now }
        ensures valid { IsTrue (spec.is_value_name_or_empty result.now) }
    {
        self.text.as_bytes()
    }

    /// The text as spelled.
    pub fn as_str(&self) -> &str
        ensures bytes { result.now ≡ self.now }
        ensures valid { IsTrue (spec.is_value_name_or_empty result.now) }
    {
        self.text.as_str()
    }
}

impl TryFrom<String> for ValueName {
    type Error = ValueNameError;

    ghost try_from_gives = { λ text result.
        spec.IsConverted (spec.is_value_name (string_bytes text)) (string_bytes text) result };

    fn try_from(text: String) -> Result<ValueName, ValueNameError> {
        if !bytes::is_value_name(text.as_bytes()) {
            return Err(ValueNameError::invalid());
        }
        Ok(ValueName { text })
    }
}

impl TryFrom<BString> for ValueName {
    type Error = ValueNameError;

    ghost try_from_gives = { λ bytes result.
        spec.IsConverted (spec.is_value_name (bstring_bytes bytes)) (bstring_bytes bytes) result };

    fn try_from(bytes: BString) -> Result<ValueName, ValueNameError> {
        if !bytes::is_value_name(bytes.as_bytes()) {
            return Err(ValueNameError::invalid());
        }
        let text = bytes::into_text(bytes.into_vec());
        Ok(ValueName { text })
    }
}

impl fmt::Display for ValueName {
    ghost output = { λ name. Some name };

    fn fmt<W: fmt::Write>(&self, f: &mut fmt::Formatter<W>) -> fmt::Result {
        fmt::Display::fmt(self.as_str(), f)
    }
}

impl PartialEq for ValueName {
    ghost eq = { spec.is_same_name };

    ghost laws = { Prim.search (comparing, rules) };

    fn eq(&self, other: &ValueName) -> bool {
        bytes::is_same_name(self.as_bytes(), other.as_bytes())
    }
}

impl Eq for ValueName {
    ghost laws = { Prim.search (comparing, rules) };
}

impl PartialOrd for ValueName {
    ghost partial_cmp = { as_partial_cmp spec.name_order };

    ghost laws = { partial_order_from_own_ties (Prim.search (comparing, rules))
        (Prim.search (comparing, rules)) };

    fn partial_cmp(&self, other: &ValueName) -> Option<Ordering> {
        Some(self.cmp(other))
    }
}

impl Ord for ValueName {
    ghost cmp = { spec.name_order };

    ghost total = { Prim.search (comparing, rules) };

    ghost matches_partial_cmp = { Prim.search (comparing, rules) };

    ghost matches_eq = { Prim.search (comparing, rules) };

    fn cmp(&self, other: &ValueName) -> Ordering {
        bytes::name_order(self.as_bytes(), other.as_bytes())
    }
}

impl Hash for ValueName {
    ghost hash_input = { spec.name_writes };

    ghost respects_eq = { Prim.search (hashing, rules) };

    fn hash<H: Hasher>(&self, state: &mut H) {
        bytes::feed(self.as_bytes(), state);
    }
}
