//! A place that a lookup found, and what is there.
ghost use Rattle.std.specs.Prelude.{◌≡◌, ℕ, List, Some, IfOk, OnErr};

use bstr::BString;
use gitconf_body::meanings::{entry_meaning, entry_value};
use gitconf_items::entry::Entry;
use gitconf_text::NoMemory;
use gitconf_views::section::SectionRef;
use std::alloc::Global;

/// Which entries decide in their section, if they are the last of the key there.
#[derive(Clone, Copy)]
pub enum Deciding {
    /// Every entry.
    Entry,
    /// An entry with a value. After one without, a lookup continues with an earlier section.
    Value,
}

/// A copy of what is behind a reference. The proof does not cover `*item` itself where `T` is a struct of references.
pub(crate) fn copied<T: Copy>(item: &T) -> T
    ensures { result ≡ item.now }
{
    *item
}

/// An entry that a lookup found, and its section.
#[derive(Clone, Copy)]
pub struct Found<'a> {
    /// The section of the entry.
    pub section: SectionRef<'a>,
    /// The entry.
    pub entry: &'a Entry,
}

impl<'a> Found<'a> {
    ghost use Rattle.std.specs.Option.{option_map};
    ghost use Rattle.bstr.specs.Owned.{bstring_bytes};
    ghost use Rattle.gitconf_text.specs.Value.{plain};
    ghost use Rattle.gitconf_state.specs.Lookup.{meaning as meant};
    ghost use Rattle.gitconf_lookups.specs.Finding.{place_of};
    ghost use Rattle.gitconf_views.specs.Views.{shown};

    /// The section of the entry.
    pub fn section(&self) -> SectionRef<'a>
        ensures { shown result ≡ (place_of self.now).0 }
    {
        copied(&self.section)
    }

    /// What the entry means; without a value it is empty. Memory is taken for the result, if there is a value.
    pub fn meaning(&self, alloc: Global) -> Result<BString, NoMemory>
        ensures { IfOk result (λ text. bstring_bytes text ≡ meant (place_of self.now).1) }
    {
        entry_meaning(alloc, self.section.buffer, self.entry)
    }

    /// What the entry's value means, if it has one.
    pub fn value(&self, alloc: Global) -> Result<Option<BString>, NoMemory>
        ensures ok { IfOk result (λ value. option_map bstring_bytes value ≡ option_map plain (place_of self.now).1.raw) }
        ensures err { OnErr result ((bytes : List ℕ) × ((place_of self.now).1.raw ≡ Some bytes)) }
    {
        entry_value(alloc, self.section.buffer, self.entry)
    }
}
