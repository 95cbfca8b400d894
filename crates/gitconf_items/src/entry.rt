//! Entries: a value name, the blanks around `=`, and the value.
//!
//! Nearly all entries are in a buffer as one line wrote them, and their parts are short; such an entry is the offset of its
//! name and four lengths, even if its blanks were left out. Any other entry has its parts in a box.
ghost use Rattle.std.specs.Prelude.{◌≡◌, ◌≤◌, ◌<◌, ◌+◌, ◌^◌, ℕ, List, Some, IfOk, IfSome};
ghost use Rattle.gitconf_items.specs.Events.{bytes_of, SpanFits};
ghost use Rattle.gitconf_items.specs.Items.{assigned_of, entry_of, lent, value_of};
ghost use Rattle.gitconf_items.specs.ItemsFit.{AssignedFits, EntryFits, ValueFits};
ghost use Rattle.gitconf_items.specs.Forms.{FormFits, line_parts, parts_in, stands_at};
ghost use Rattle.gitconf_items.specs.declared.entry.Assigned.TheVariants as assigned;
ghost use Rattle.gitconf_items.specs.declared.entry.Form.TheVariants as forms;

use crate::event::Span;
use gitconf_text::NoMemory;
use smallvec::SmallVec;
use std::alloc::{AllocError, Global};
use std::marker::Model;

/// A piece of a value other than the last one.
#[derive(Clone, Copy, Default)]
pub struct Piece {
    /// Its bytes, without the backslash after them.
    pub text: Span,
    /// The line ending after the backslash; no bytes if there is none.
    pub line_end: Span,
}

/// A value: the pieces before the last one, and the last one.
#[derive(Clone, Drop)]
pub struct Value {
    /// Up to four take no memory of their own.
    pub pieces: SmallVec<Piece, 4>,
    /// The last piece.
    pub last: Span,
}

/// A value of more than one piece, and the blanks before it.
#[derive(Clone, Drop)]
pub struct Continued {
    /// The blanks between `=` and the value.
    pub blanks: Span,
    /// The value, of more than one piece.
    pub value: Value,
}

/// What is assigned to a value name.
#[derive(Clone, Drop)]
pub enum Assigned {
    /// Nothing: no `=` follows the name.
    Nothing,
    /// A value in one piece, and the blanks between `=` and it.
    Plain { blanks: Span, value: Span },
    /// A value of more than one piece, which few entries have.
    Continued(Continued),
}

impl Assigned {
    /// The value, after these blanks.
    pub fn of_value(blanks: Span, value: Value) -> Assigned
        ensures told { (buffer : List ℕ) → assigned_of buffer result ≡ Some (record { blanks = bytes_of buffer blanks; value = value_of buffer value }) }
        ensures fits { (limit : ℕ) → SpanFits limit blanks → ValueFits limit value → AssignedFits limit result }
    {
        if value.pieces.is_empty() {
            return Assigned::Plain {
                blanks,
                value: value.last,
            };
        }
        Assigned::Continued(Continued { blanks, value })
    }
}

/// What is assigned to the value name of an entry, borrowed from it.
#[derive(Clone, Copy)]
pub enum AssignedRef<'a> {
    /// Nothing: no `=` follows the name.
    Nothing,
    /// A value in one piece, and the blanks between `=` and it.
    Plain { blanks: Span, value: Span },
    /// A value of more than one piece.
    Continued(&'a Continued),
}

/// The parts of an entry: a value name, the blanks after it, and what is assigned, if anything.
#[derive(Clone, Drop)]
pub struct EntryParts {
    /// The value name.
    pub name: Span,
    /// The blanks after the name.
    pub blanks: Span,
    /// What is assigned, if anything.
    pub assigned: Assigned,
}

/// The parts of an entry that are one after the other, with `=` among them: the offset of the name, and the lengths of the name,
/// of the blanks before and after `=`, and of the value.
#[derive(Clone, Copy)]
pub(crate) struct Line {
    pub(crate) start: u32,
    pub(crate) name: u16,
    pub(crate) before: u8,
    pub(crate) behind: u8,
    pub(crate) value: u32,
}

/// How the parts of an entry are held.
#[derive(Drop)]
pub(crate) enum Form {
    /// A name, and that many blanks directly after it.
    Name { name: Span, blanks: u32 },
    Line(Line),
    /// The name and the value of a line, whose blanks are no part of the entry.
    Bare(Line),
    Apart(Box<EntryParts>),
}

/// An entry. Contracts see its parts.
pub struct Entry {
    pub(crate) form: Form,
}

impl Drop for Entry {
    // By hand, so that each way out of a function is one call: a derived one is proved there part by part.
    fn drop(self) {
        let Entry { form } = self;
        drop(form);
    }
}

impl Model for Entry {
    ghost use Rattle.gitconf_items.specs.declared.entry.EntryParts.{EntryParts};
    ghost use Rattle.gitconf_items.specs.Forms.{FormFits, parts_in};

    ghost Value = { EntryParts };

    ghost view = { λ e. parts_in e.form };

    ghost invariant = { λ e. FormFits e.form };
}

impl Entry {
    /// The entry of these parts. Takes memory if a value has several pieces, a name has more than 65535 bytes, blanks have more than 255, or
    /// the parts aren't one after the other, with one byte for `=`.
    ///
    /// # Errors
    ///
    /// Out of memory.
    pub fn try_new(alloc: Global, parts: EntryParts) -> Result<Entry, NoMemory>
        ensures told { IfOk result (λ e. (buffer : List ℕ) → entry_of buffer e ≡ entry_of buffer parts) }
        ensures fits { IfOk result (λ e. (limit : ℕ) → EntryFits limit parts → EntryFits limit e) }
    {
        if let Some(form) = short_form(&parts) {
            return Ok(Entry { form });
        }
        let parts = Box::new(alloc, parts)?;
        Ok(Entry {
            form: Form::Apart(parts),
        })
    }

    /// The entry of a name and a value, as a line has them: the offsets where the name begins and ends, where the blanks after it end, at
    /// `=`, and where the value begins and ends; `None` if such an entry takes memory.
    #[inline(always)]
    pub fn of_line(
        start: usize,
        name_end: usize,
        sign: usize,
        first: usize,
        end: usize,
    ) -> Option<Entry>
        requires name { start ≤ name_end }
        requires blanks { name_end ≤ sign }
        requires sign { sign < first }
        requires value { first ≤ end }
        requires fits { end < 2 ^ 32 }
        ensures told { IfSome result (λ e. e ≡ line_parts start name_end sign first end) }
    {
        let name = name_end - start;
        let before = sign - name_end;
        let behind = first - sign - 1;
        if name > u16::MAX as usize || before > u8::MAX as usize || behind > u8::MAX as usize {
            return None;
        }
        let form = Form::Line(Line {
            start: start as u32,
            name: name as u16,
            before: before as u8,
            behind: behind as u8,
            value: (end - first) as u32,
        });
        Some(Entry { form })
    }

    /// How its parts are held.
    pub(crate) fn into_form(self) -> Form
        ensures parts { parts_in result ≡ self }
        ensures fits { FormFits result }
    {
        let Entry { form } = self;
        form
    }

    /// Its value name.
    pub fn name(&self) -> Span
        ensures { result ≡ self.now.name }
    {
        match &self.form {
            Form::Name { name, .. } => *name,
            Form::Line(line) => line.name(),
            Form::Bare(line) => line.name(),
            Form::Apart(parts) => parts.name,
        }
    }

    /// The blanks after its name.
    pub fn blanks(&self) -> Span
        ensures { result ≡ self.now.blanks }
    {
        match &self.form {
            Form::Name { name, blanks } => Span {
                start: name.start + name.len,
                len: *blanks,
            },
            Form::Line(line) => Span {
                start: line.start + line.name as u32,
                len: line.before as u32,
            },
            Form::Bare(_) => Span::NOTHING,
            Form::Apart(parts) => parts.blanks,
        }
    }

    /// What is assigned, if anything.
    pub fn assigned(&self) -> AssignedRef<'_>
        ensures { lent result ≡ self.now.assigned }
    {
        match &self.form {
            Form::Name { .. } => AssignedRef::Nothing,
            Form::Line(line) => AssignedRef::Plain {
                blanks: line.blanks_behind(),
                value: line.value(),
            },
            Form::Bare(line) => AssignedRef::Plain {
                blanks: Span::NOTHING,
                value: line.value(),
            },
            Form::Apart(parts) => match &parts.assigned {
                Assigned::Nothing => AssignedRef::Nothing,
                Assigned::Plain { blanks, value } => AssignedRef::Plain {
                    blanks: *blanks,
                    value: *value,
                },
                Assigned::Continued(continued) => AssignedRef::Continued(continued),
            },
        }
    }
}

impl Clone for Entry {
    ghost use Rattle.gitconf_items.specs.Alike.{AreAlike};

    ghost is_clone = { AreAlike };

    ghost is_infallible = { λ _. ⊥ };

    #[tactic(auto, using(crate::proofs::EntryClones::alike, crate::proofs::EntryClones::alike_itself))]
    fn clone(&self) -> Result<Entry, AllocError> {
        let form = match &self.form {
            Form::Name { name, blanks } => Form::Name {
                name: *name,
                blanks: *blanks,
            },
            Form::Line(line) => Form::Line(*line),
            Form::Bare(line) => Form::Bare(*line),
            Form::Apart(parts) => Form::Apart(parts.clone()?),
        };
        Ok(Entry { form })
    }
}

impl Line {
    /// The name.
    fn name(&self) -> Span
        ensures { result ≡ record { start = self.now.start; len = self.now.name } }
    {
        Span {
            start: self.start,
            len: self.name as u32,
        }
    }

    /// The blanks after `=`.
    fn blanks_behind(&self) -> Span
        requires { FormFits (forms.Line self.now) }
        ensures { result ≡ record { start = self.now.start + self.now.name + self.now.before + 1; len = self.now.behind } }
    {
        Span {
            start: self.start + self.name as u32 + self.before as u32 + 1,
            len: self.behind as u32,
        }
    }

    /// The value.
    fn value(&self) -> Span
        requires { FormFits (forms.Line self.now) }
        ensures { result ≡ record { start = self.now.start + self.now.name + self.now.before + 1 + self.now.behind; len = self.now.value } }
    {
        Span {
            start: self.start + self.name as u32 + self.before as u32 + 1 + self.behind as u32,
            len: self.value,
        }
    }
}

/// Whether the span begins there, or has no bytes.
fn begins_at(span: Span, at: u64) -> bool
    ensures { result ≡ stands_at span at }
{
    span.len == 0 || span.start as u64 == at
}

/// A name alone, if the blanks directly follow it.
fn name_form(name: Span, blanks: Span) -> Option<Form>
    ensures told { IfSome result (λ f. (buffer : List ℕ) → entry_of buffer (parts_in f)
        ≡ entry_of buffer (record { name = name; blanks = blanks; assigned = assigned.Nothing })) }
    ensures fits { IfSome result (λ f. (limit : ℕ) → SpanFits limit name → SpanFits limit blanks → EntryFits limit (parts_in f)) }
    ensures inside { IfSome result FormFits }
{
    let end = name.start as u64 + name.len as u64;
    if begins_at(blanks, end) && end + blanks.len as u64 <= u32::MAX as u64 {
        return Some(Form::Name {
            name,
            blanks: blanks.len,
        });
    }
    None
}

/// A name and its value, if they are as a line has them, and short.
fn line_form(name: Span, before: Span, behind: Span, value: Span) -> Option<Form>
    ensures told { IfSome result (λ f. (buffer : List ℕ) → entry_of buffer (parts_in f)
        ≡ entry_of buffer (record { name = name; blanks = before; assigned = assigned.Plain behind value })) }
    ensures fits { IfSome result (λ f. (limit : ℕ) → SpanFits limit value → EntryFits limit (parts_in f)) }
    ensures inside { IfSome result FormFits }
{
    let blanks = name.start as u64 + name.len as u64;
    let other_blanks = blanks + before.len as u64 + 1;
    let start = other_blanks + behind.len as u64;
    let stand = begins_at(before, blanks)
        && begins_at(behind, other_blanks)
        && value.start as u64 == start;
    let short = name.len <= u16::MAX as u32
        && before.len <= u8::MAX as u32
        && behind.len <= u8::MAX as u32;
    if stand && short && start + value.len as u64 <= u32::MAX as u64 {
        return Some(Form::Line(Line {
            start: name.start,
            name: name.len as u16,
            before: before.len as u8,
            behind: behind.len as u8,
            value: value.len,
        }));
    }
    None
}

/// The parts in a form that takes no memory; `None` if there is no such form.
fn short_form(parts: &EntryParts) -> Option<Form>
    ensures told { IfSome result (λ f. (buffer : List ℕ) → entry_of buffer (parts_in f) ≡ entry_of buffer parts.now) }
    ensures fits { IfSome result (λ f. (limit : ℕ) → EntryFits limit parts.now → EntryFits limit (parts_in f)) }
    ensures inside { IfSome result FormFits }
{
    match &parts.assigned {
        Assigned::Nothing => name_form(parts.name, parts.blanks),
        Assigned::Plain { blanks, value } => line_form(parts.name, parts.blanks, *blanks, *value),
        Assigned::Continued(_) => None,
    }
}
