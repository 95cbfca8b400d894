//! What an editor of a value writes besides the value.
ghost use Rattle.std.specs.Prelude.{◌≡◌, IfOk, true};
ghost use Rattle.gitconf_text.specs.Names.{is_value_name};

use gitconf_body::blanks::Blanks;
use gitconf_body::editor::Editor;
use gitconf_text::NoMemory;
use gitconf_text::line_end::LineEnd;
use std::alloc::Global;
use std::marker::Model;

/// The name of a value as spelled by the caller, and the whitespace around `=`. They stay as they were when the editor was made.
#[derive(Drop)]
pub struct Spelling {
    key: Vec<u8>,
    blanks: Blanks,
}

impl Model for Spelling {
    ghost use Rattle.std.proofs.Math.Bool.{Bool-set};
    ghost use Rattle.std.specs.Prelude.{◌≡◌, true};
    ghost use Rattle.gitconf_text.specs.Names.{is_value_name};
    ghost use Rattle.gix_config.specs.Spelled.{Spelled};

    ghost Value = { Spelled };

    ghost view = { λ s. record { key = s.key.items; spacing = s.blanks } };

    ghost invariant = { λ s. is_value_name s.key.items ≡ true };
}

impl Spelling {
    ghost use Rattle.std.specs.Prelude.{◌≡◌, IfOk, true};
    ghost use Rattle.gitconf_text.specs.Names.{is_value_name};
    ghost use Rattle.gitconf_state.specs.Edits.{IsEditor};
    ghost use Rattle.gitconf_body.specs.Blanks.{editor_with, given_editor, IsGiven, PutsAround};

    /// A copy of a name, and whitespace.
    ///
    /// # Errors
    ///
    /// E27 when out of memory.
    pub(crate) fn new(key: &[u8], blanks: Blanks) -> Result<Spelling, NoMemory>
        requires { is_value_name key.now ≡ true }
        ensures { IfOk result (λ s. s ≡ record { key = key.now; spacing = blanks }) }
    {
        let key = Vec::from_slice(blanks.allocator(), key)?;
        Ok(Spelling { key, blanks })
    }

    /// The name.
    pub(crate) fn key(&self) -> &[u8]
        ensures key { result.now ≡ self.now.key }
        ensures name { is_value_name result.now ≡ true }
    {
        &self.key
    }

    /// An editor that writes the whitespace. Takes no memory.
    pub(crate) fn editor(&self, line_end: LineEnd) -> Editor<'_>
        ensures given { IsGiven result }
        ensures puts { PutsAround result }
        ensures told { given_editor result ≡ editor_with self.now.spacing line_end true }
        ensures editor { IsEditor (given_editor result) }
    {
        self.blanks.editor(line_end, true)
    }

    /// The whitespace, when the name is no longer needed.
    pub(crate) fn into_blanks(self) -> Blanks
        ensures { result ≡ self.spacing }
    {
        let Spelling { key, blanks } = self;
        drop(key);
        blanks
    }
}
