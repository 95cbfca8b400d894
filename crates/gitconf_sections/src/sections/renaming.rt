//! Other names for several sections at once.
ghost use Rattle.std.specs.Prelude.{◌≡◌, ◌<◌, length, OnOk, OnErr};
ghost use Rattle.std.specs.List.{AllByRecursion};
ghost use Rattle.std.specs.Option.{option_copied};
ghost use Rattle.gitconf_sections.specs.Renames.{named_each, with_names_at};

use crate::letters::{Names, put_names};
use crate::row::Row;
use crate::sections::SectionList;
use crate::word::{full_state, word_of};
use gitconf_text::NoMemory;

impl SectionList {
    /// Gives the sections at all these places other names. They get `name` in ASCII lower case; their numbers, their places
    /// and what they hold stay. Takes memory for the names once. If the places ascend, takes time for them and, once, for
    /// the sections that have the new name, or share a bucket with them; no other sections are looked at.
    ///
    /// # Errors
    ///
    /// Out of memory. All is then as it was.
    pub fn rename_each(
        &mut self,
        places: &[usize],
        name: &[u8],
        subsection: Option<&[u8]>,
    ) -> Result<(), NoMemory>
        requires { AllByRecursion (λ at. at < length self.old.entries) places.now }
        ensures ok { OnOk result (self.new ≡ with_names_at self.old places.now name.now (option_copied subsection.entry)) }
        ensures err { OnErr result (self.new ≡ self.old) }
    {
        let (names, state) = put_names(&mut self.letters, self.seed, name, subsection)?;
        self.names.set_each(places, word_of(state));
        self.full
            .set_each(places, word_of(full_state(state, subsection)));
        name_each(&mut self.rows, places, names);
        Ok(())
    }
}

// Gives the rows at these places the names.
fn name_each(rows: &mut Vec<Row>, places: &[usize], names: Names)
    requires { AllByRecursion (λ at. at < length rows.old.items) places.now }
    ensures { rows.new.items ≡ named_each names rows.old.items places.now }
{
    let mut rest = places;
    while let Some((at, behind)) = rest.split_first() {
        let row = &mut rows[*at];
        row.names = names;
        rest = behind;
    }
}
