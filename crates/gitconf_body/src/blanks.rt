//! The blanks of an editor, with memory of their own: they stay as they were when the editor was made, whatever happens to the body.
ghost use Rattle.std.specs.List.{list_all};
ghost use Rattle.std.specs.Prelude.{◌≡◌, IfOk, option_map, true};
ghost use Rattle.gitconf_state.specs.State.{is_item};
ghost use Rattle.gitconf_items.specs.Items.{items_of};
ghost use Rattle.gitconf_body.specs.Editors.{around_in, leading_in};

use crate::editor::{Around, Editor, Leading, editor_of};
use gitconf_items::items::Item;
use gitconf_text::NoMemory;
use gitconf_text::line_end::LineEnd;
use std::alloc::Global;
use std::marker::Model;

/// A copy of the bytes.
fn copied(alloc: Global, bytes: &[u8]) -> Result<Vec<u8>, NoMemory>
    ensures { IfOk result (λ copy. copy.items ≡ bytes.now) }
{
    let mut copy = Vec::new(alloc);
    copy.extend_from_slice(bytes)?;
    Ok(copy)
}

/// A copy of the blanks before a key.
fn copied_leading(
    alloc: Global,
    buffer: &[u8],
    leading: Leading<'_>,
) -> Result<Option<Vec<u8>>, NoMemory>
    ensures { IfOk result (λ copy. option_map (λ v. v.items) copy ≡ leading_in buffer.now leading.entry) }
{
    let bytes = match leading {
        Leading::Nothing => return Ok(None),
        Leading::Stored(run) => run.bytes_in(buffer),
        Leading::Given(bytes) => bytes,
    };
    let copy = copied(alloc, bytes)?;
    Ok(Some(copy))
}

/// A copy of the blanks before and after `=`.
fn copied_around(
    alloc: Global,
    buffer: &[u8],
    around: Around<'_>,
) -> Result<(Vec<u8>, Vec<u8>), NoMemory>
    ensures { IfOk result (λ copy. (copy.0.items, copy.1.items) ≡ around_in buffer.now around.entry) }
{
    let (before, behind) = match around {
        Around::Spaces => (b" ".as_slice(), b" ".as_slice()),
        Around::Stored { before, behind } => (before.bytes_in(buffer), behind.bytes_in(buffer)),
        Around::Given { before, behind } => (before, behind),
    };
    let before = copied(alloc, before)?;
    let behind = copied(alloc, behind)?;
    Ok((before, behind))
}

/// The three blanks of an editor: before a key, if there are any, and before and after `=`.
pub struct Blanks {
    leading: Option<Vec<u8>>,
    before: Vec<u8>,
    behind: Vec<u8>,
}

impl Drop for Blanks {
    // By hand, so that each way out of a function is one call: a derived one is proved there part by part.
    fn drop(self) {
        let Blanks {
            leading,
            before,
            behind,
        } = self;
        drop((leading, before, behind));
    }
}

impl Model for Blanks {
    ghost use Rattle.std.specs.Prelude.{option_map};
    ghost use Rattle.gitconf_state.specs.Edit.{Spacing};
    ghost use Rattle.gitconf_body.specs.Blanks.{AreBlanks};

    ghost Value = { Spacing };

    ghost view = { λ b. record { leading = option_map (λ v. v.items) b.leading; before = b.before.items; behind = b.behind.items } };

    ghost invariant = { λ b. AreBlanks (record { leading = option_map (λ v. v.items) b.leading; before = b.before.items; behind = b.behind.items }) };
}

impl Blanks {
    ghost use Rattle.std.specs.Option.{option_copied};
    ghost use Rattle.std.specs.Prelude.{◌≡◌, OnErr, OnOk, Bool};
    ghost use Rattle.gitconf_state.specs.Edit.{spacing_of};
    ghost use Rattle.gitconf_state.specs.Edits.{IsEditor};
    ghost use Rattle.gitconf_body.specs.Blanks.{editor_with, given_editor, IsGiven, PutsAround};

    /// The blanks that a body uses: those directly before its first entry, if there are any, and those around its first `=`. If no
    /// entry has `=`, none are around it; if there is no entry, the blanks are a tab, a space and a space. One walk over the
    /// items, which takes memory for the blanks alone.
    ///
    /// # Errors
    ///
    /// Out of memory.
    pub fn of_items(alloc: Global, buffer: &[u8], items: &[Item]) -> Result<Blanks, NoMemory>
        requires { list_all is_item (items_of buffer.now items.now) ≡ true }
        ensures { IfOk result (λ b. b ≡ spacing_of (items_of buffer.now items.now)) }
    {
        let found = editor_of(items, LineEnd::Lf);
        let leading = copied_leading(alloc, buffer, found.leading)?;
        let (before, behind) = copied_around(alloc, buffer, found.around)?;
        Ok(Blanks {
            leading,
            before,
            behind,
        })
    }

    /// An editor that writes these blanks. Takes no memory.
    pub fn editor(&self, line_end: LineEnd, ends: bool) -> Editor<'_>
        ensures given { IsGiven result }
        ensures puts { PutsAround result }
        ensures told { given_editor result ≡ editor_with self.now line_end ends }
        ensures editor { IsEditor (given_editor result) }
        ensures line_end { result.line_end ≡ line_end }
    {
        Editor {
            leading: match &self.leading {
                Some(blanks) => Leading::Given(blanks),
                None => Leading::Nothing,
            },
            around: Around::Given {
                before: &self.before,
                behind: &self.behind,
            },
            line_end,
            ends,
        }
    }

    /// Where their memory comes from.
    pub fn allocator(&self) -> Global {
        *self.before.allocator()
    }

    /// The blanks before a key, if there are any.
    pub fn leading(&self) -> Option<&[u8]>
        ensures { option_copied result ≡ self.now.leading }
    {
        self.leading.as_deref()
    }

    /// The blanks before and after `=`.
    pub fn around(&self) -> (&[u8], &[u8])
        ensures before { result.0.now ≡ self.now.before }
        ensures behind { result.1.now ≡ self.now.behind }
    {
        (&self.before, &self.behind)
    }

    /// Sets other blanks before keys, or none.
    ///
    /// # Errors
    ///
    /// Out of memory. The blanks are then as they were.
    pub fn set_leading(&mut self, leading: Option<&[u8]>) -> Result<(), NoMemory>
        ensures ok { OnOk result (self.new ≡ record self.old { leading = option_copied leading.entry }) }
        ensures err { OnErr result (self.new ≡ self.old) }
    {
        let alloc = *self.before.allocator();
        let given = match leading {
            Some(bytes) => Leading::Given(bytes),
            None => Leading::Nothing,
        };
        self.leading = copied_leading(alloc, &[], given)?;
        Ok(())
    }
}
