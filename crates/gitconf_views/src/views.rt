//! Views of a section's header and of its body, and walks over its entries.
ghost use Rattle.std.specs.Prelude.{◌≡◌, true, length, []};
ghost use Rattle.std.specs.List.{list_all};
ghost use Rattle.bstr.specs.Owned.{bstring_bytes};
ghost use Rattle.gitconf_text.specs.Document.{document_entry};
ghost use Rattle.gitconf_text.specs.Names.{is_value_name};
ghost use Rattle.gitconf_items.specs.Events.{bytes_of};
ghost use Rattle.gitconf_items.specs.Items.{entry_of, items_of};
ghost use Rattle.gitconf_state.specs.State.{entries_of, is_item};
ghost use Rattle.gitconf_body.specs.Bodies.{IsEntryItem, has_key, values_in, AreFound};
ghost use Rattle.gitconf_views.specs.Viewed.{IsHeaderViewed, IsHeaderViewed-prop};
ghost use Rattle.std.proofs.Math.Bool.{Bool-set};

use crate::section::SectionRef;
use bstr::BString;
use gitconf_body::entries::{contains_key, entry_count, meanings, name_text, next_entry};
use gitconf_body::meanings::{entry_meaning, entry_value, last_entry};
use gitconf_items::entry::Entry;
use gitconf_items::event::Header;
use gitconf_items::items::Item;
use gitconf_items::lend::subsection_name;
use gitconf_print::sections::write_header;
use gitconf_text::NoMemory;
use std::alloc::Global;
use std::iter::FusedIterator;

/// A view of a section's header.
#[derive(Clone, Copy)]
pub struct HeaderRef<'a> {
    alloc: Global,
    buffer: &'a [u8],
    copies: &'a [u8],
    header: &'a Header,
    ghost viewed: { IsHeaderViewed buffer.now copies.now header.now } by { IsHeaderViewed-prop buffer.now copies.now header.now },
}

impl<'a> HeaderRef<'a> {
    ghost use Rattle.std.specs.Prelude.{◌≡◌, IfOk};
    ghost use Rattle.std.specs.Option.{option_copied};
    ghost use Rattle.bstr.specs.Owned.{bstring_bytes};
    ghost use Rattle.gitconf_text.specs.Header.{name_of, subsection_of, spelled_header};
    ghost use Rattle.gitconf_views.specs.Views.{is_dotted, shown_header};

    /// Whether the subsection follows a dot, as in `[a.b]`, and not in quotes.
    pub fn is_legacy(&self) -> bool
        ensures { result ≡ is_dotted (shown_header self.now) }
    {
        let header = self.header;
        match (header.separator, header.subsection) {
            (Some(separator), Some(_)) => separator.bytes_in(self.buffer) == b".".as_slice(),
            _ => false,
        }
    }

    /// The section's name, as spelled.
    pub fn name(&self) -> &'a [u8]
        ensures { result.now ≡ name_of (shown_header self.now) }
    {
        self.header.name.bytes_in(self.buffer)
    }

    /// The subsection that the header means, if there is one: without quotes and backslashes, and in lower case after a dot.
    pub fn subsection_name(&self) -> Option<&'a [u8]>
        ensures { option_copied result ≡ subsection_of (shown_header self.now) }
    {
        subsection_name(self.buffer, self.copies, self.header)
    }

    /// The header as it is spelled, with its brackets. Takes memory for the text as it grows.
    ///
    /// # Errors
    ///
    /// Out of memory.
    pub fn to_bstring(&self) -> Result<BString, NoMemory>
        ensures { IfOk result (λ text. bstring_bytes text ≡ spelled_header (shown_header self.now)) }
    {
        let mut text = Vec::new(self.alloc);
        match write_header(&mut text, self.buffer, self.header) {
            Ok(()) => Ok(BString::new(text)),
            Err(_) => Err(NoMemory),
        }
    }
}

/// A view of a section's body. Its lookups find only entries of this body.
#[derive(Clone, Copy)]
pub struct BodyRef<'a> {
    alloc: Global,
    buffer: &'a [u8],
    items: &'a [Item],
    ghost viewed: { list_all is_item (items_of buffer.now items.now) ≡ true } by { Bool-set _ _ },
}

impl<'a> BodyRef<'a> {
    ghost use Rattle.std.specs.Prelude.{◌≡◌, IfOk, length, map};
    ghost use Rattle.bstr.specs.Owned.{bstring_bytes};
    ghost use Rattle.gitconf_state.specs.State.{entries_of};
    ghost use Rattle.gitconf_body.specs.Bodies.{has_key, implicit_value_in, value_in, values_in, AreFound, IsFoundImplicit};
    ghost use Rattle.gitconf_views.specs.Counts.{is_empty_body};
    ghost use Rattle.gitconf_sources.specs.Found.{IsFound};
    ghost use Rattle.gitconf_views.specs.Views.{names_left, shown_body};

    /// The meaning of the last entry of the name, without ASCII case. It is `None` if there is no such entry, or if it
    /// has no `=`. It walks from the end up to that entry. A miss takes no memory.
    ///
    /// # Errors
    ///
    /// Out of memory for the result.
    pub fn value(&self, value_name: &str) -> Result<Option<BString>, NoMemory>
        ensures { IsFound bstring_bytes result (value_in value_name.now (entries_of (shown_body self.now))) }
    {
        match self.value_implicit(value_name)? {
            Some(value) => Ok(value),
            None => Ok(None),
        }
    }

    /// Like [`BodyRef::value`], but it distinguishes an entry without `=`: `None` if there is no entry of the name, `Some(None)`
    /// if the last one has no `=`. A miss takes no memory.
    ///
    /// # Errors
    ///
    /// Out of memory for the result.
    pub fn value_implicit(&self, value_name: &str) -> Result<Option<Option<BString>>, NoMemory>
        ensures { IsFoundImplicit result (implicit_value_in value_name.now (entries_of (shown_body self.now))) }
    {
        let Some(entry) = last_entry(self.buffer, self.items, value_name.as_bytes()) else {
            return Ok(None);
        };
        let value = entry_value(self.alloc, self.buffer, entry)?;
        Ok(Some(value))
    }

    /// The meanings of all entries of the name, without ASCII case, in order. One without `=` is empty. One pass. If
    /// there is none it takes no memory.
    ///
    /// # Errors
    ///
    /// Out of memory.
    pub fn values(&self, value_name: &str) -> Result<Vec<BString>, NoMemory>
        ensures { AreFound result (values_in value_name.now (entries_of (shown_body self.now))) }
    {
        meanings(self.alloc, self.buffer, self.items, value_name.as_bytes())
    }

    /// The names of the entries in order, as they are spelled. Each comes as often as it occurs. Takes no memory.
    pub fn value_names(&self) -> ValueNames<'a>
        ensures { names_left result ≡ map (λ e. e.name) (entries_of (shown_body self.now)) }
    {
        ValueNames {
            buffer: self.buffer,
            items: self.items,
        }
    }

    /// Whether there is an entry of the name, without ASCII case. One pass, which takes no memory.
    pub fn contains_value_name(&self, value_name: &str) -> bool
        ensures { result ≡ has_key value_name.now (entries_of (shown_body self.now)) }
    {
        contains_key(self.buffer, self.items, value_name.as_bytes())
    }

    /// How many entries there are. One pass, which takes no memory.
    pub fn num_values(&self) -> usize
        ensures { result ≡ length (entries_of (shown_body self.now)) }
    {
        entry_count(self.items)
    }

    /// Whether the body is empty, without even whitespace.
    pub fn is_void(&self) -> bool
        ensures { result ≡ is_empty_body (shown_body self.now) }
    {
        self.items.is_empty()
    }
}

impl<'a> IntoIterator for BodyRef<'a> {
    type Item = Result<(&'a str, BString), NoMemory>;

    type IntoIter = BodyRefIter<'a>;

    ghost use Rattle.std.specs.Prelude.{◌≡◌};
    ghost use Rattle.gitconf_state.specs.State.{entries_of};
    ghost use Rattle.gitconf_views.specs.Views.{entries_left, shown_body};

    ghost into_iter_gives = { λ body it. entries_left it ≡ entries_of (shown_body body) };

    fn into_iter(self) -> BodyRefIter<'a> {
        BodyRefIter {
            alloc: self.alloc,
            buffer: self.buffer,
            items: self.items,
        }
    }
}

/// The entries of a body in order, each as its name and what it means. One without `=` is empty.
///
/// A step takes memory for a value alone. If that is refused, the item is an `Err`, and the entry is skipped. After the
/// last entry it ends for good.
#[derive(Clone, Copy)]
pub struct BodyRefIter<'a> {
    alloc: Global,
    buffer: &'a [u8],
    items: &'a [Item],
    ghost viewed: { list_all is_item (items_of buffer.now items.now) ≡ true } by { Bool-set _ _ },
}

impl<'a> Iterator for BodyRefIter<'a> {
    type Item = Result<(&'a str, BString), NoMemory>;

    ghost use Rattle.std.specs.Iterator.{item_count};
    ghost use Rattle.gitconf_body.specs.Bodies.{GivesEntry};
    ghost use Rattle.gitconf_views.specs.Views.{entries_left};

    ghost next_gives = { λ before item behind. GivesEntry (entries_left before) item (entries_left behind) };

    ghost remaining = { item_count entries_left };

    fn next(&mut self) -> Option<Result<(&'a str, BString), NoMemory>> {
        let Some((entry, behind)) = next_entry(self.items) else {
            self.items = &[];
            return None;
        };
        self.items = behind;
        Some(entry_item(self.alloc, self.buffer, entry))
    }
}

impl FusedIterator for BodyRefIter<'_> {}

/// An entry as its name and what it means.
fn entry_item<'a>(
    alloc: Global,
    buffer: &'a [u8],
    entry: &Entry,
) -> Result<(&'a str, BString), NoMemory>
    requires { is_value_name (bytes_of buffer.now entry.now.name) ≡ true }
    ensures { IsEntryItem result (document_entry (entry_of buffer.now entry.now)) }
{
    let value = entry_meaning(alloc, buffer, entry)?;
    Ok((name_text(buffer, entry), value))
}

/// The names of a body's entries in order: [`BodyRef::value_names`].
#[derive(Clone, Copy)]
pub struct ValueNames<'a> {
    buffer: &'a [u8],
    items: &'a [Item],
    ghost viewed: { list_all is_item (items_of buffer.now items.now) ≡ true } by { Bool-set _ _ },
}

impl<'a> Iterator for ValueNames<'a> {
    type Item = &'a str;

    ghost use Rattle.std.specs.Iterator.{YieldsFirstRef, item_count};
    ghost use Rattle.gitconf_views.specs.Views.{names_left};

    ghost next_gives = { YieldsFirstRef names_left };

    ghost remaining = { item_count names_left };

    fn next(&mut self) -> Option<&'a str> {
        let Some((entry, behind)) = next_entry(self.items) else {
            self.items = &[];
            return None;
        };
        self.items = behind;
        Some(name_text(self.buffer, entry))
    }
}

impl FusedIterator for ValueNames<'_> {}

impl<'a> SectionRef<'a> {
    ghost use Rattle.std.specs.Prelude.{◌≡◌, length, map};
    ghost use Rattle.bstr.specs.Owned.{bstring_bytes};
    ghost use Rattle.gitconf_state.specs.State.{entries_of};
    ghost use Rattle.gitconf_body.specs.Bodies.{has_key, implicit_value_in, value_in, values_in, AreFound, IsFoundImplicit};
    ghost use Rattle.gitconf_sources.specs.Found.{IsFound};
    ghost use Rattle.gitconf_views.specs.Views.{names_left, shown, shown_body, shown_header};

    /// Its header.
    pub fn header(&self) -> HeaderRef<'a>
        ensures { shown_header result ≡ (shown self.now).header }
    {
        HeaderRef {
            alloc: self.alloc,
            buffer: self.buffer,
            copies: self.copies,
            header: self.header,
        }
    }

    /// Its body.
    pub fn body(&self) -> BodyRef<'a>
        ensures { shown_body result ≡ (shown self.now).items }
    {
        BodyRef {
            alloc: self.alloc,
            buffer: self.buffer,
            items: self.items,
        }
    }

    /// Like [`BodyRef::value`] of its body.
    ///
    /// # Errors
    ///
    /// Out of memory for the result.
    pub fn value(&self, value_name: &str) -> Result<Option<BString>, NoMemory>
        ensures { IsFound bstring_bytes result (value_in value_name.now (entries_of (shown self.now).items)) }
    {
        self.body().value(value_name)
    }

    /// Like [`BodyRef::value_implicit`] of its body.
    ///
    /// # Errors
    ///
    /// Out of memory for the result.
    pub fn value_implicit(&self, value_name: &str) -> Result<Option<Option<BString>>, NoMemory>
        ensures { IsFoundImplicit result (implicit_value_in value_name.now (entries_of (shown self.now).items)) }
    {
        self.body().value_implicit(value_name)
    }

    /// Like [`BodyRef::values`] of its body.
    ///
    /// # Errors
    ///
    /// Out of memory.
    pub fn values(&self, value_name: &str) -> Result<Vec<BString>, NoMemory>
        ensures { AreFound result (values_in value_name.now (entries_of (shown self.now).items)) }
    {
        self.body().values(value_name)
    }

    /// Like [`BodyRef::value_names`] of its body.
    pub fn value_names(&self) -> ValueNames<'a>
        ensures { names_left result ≡ map (λ e. e.name) (entries_of (shown self.now).items) }
    {
        self.body().value_names()
    }

    /// Like [`BodyRef::contains_value_name`] of its body.
    pub fn contains_value_name(&self, value_name: &str) -> bool
        ensures { result ≡ has_key value_name.now (entries_of (shown self.now).items) }
    {
        self.body().contains_value_name(value_name)
    }
}
