//! Words of names, made from another seed.
ghost use Rattle.std.specs.Prelude.{◌≡◌, ◌+◌, ◌≤◌, length, map, vec_len};
ghost use Rattle.gitconf_sections.specs.Rows.{row_full_word, row_word};

use crate::index::WordIndex;
use crate::letters::{name_at, subsection_at};
use crate::row::Row;
use crate::sections::SectionList;
use crate::word::{full_state, name_state, word_of};

impl SectionList {
    /// Makes the words by which names are found from another seed, in place. Nothing that is returned depends on the seed;
    /// only the time of lookups does, if names were chosen to share words or buckets. A list begins with a
    /// seed that everyone can know. A program that loads untrusted text should draw a seed that its author can't know, once the
    /// names are in. Takes no memory, and one pass over the sections and the bytes of their names.
    pub fn reseed(&mut self, seed: u64)
        ensures { self.new ≡ self.old }
    {
        change_words(
            &self.rows,
            &self.letters,
            self.seed,
            seed,
            &mut self.names,
            &mut self.full,
        );
        self.seed = seed;
    }
}

/// Makes the words of all rows, which were made from one seed, from another one.
pub(super) fn change_words(
    rows: &Vec<Row>,
    letters: &Vec<u8>,
    from: u64,
    to: u64,
    names: &mut WordIndex,
    full: &mut WordIndex,
)
    requires names { names.old.words ≡ map (row_word from letters.now.items) rows.now.items }
    requires full { full.old.words ≡ map (row_full_word from letters.now.items) rows.now.items }
    ensures names { names.new.words ≡ map (row_word to letters.now.items) rows.now.items }
    ensures full { full.new.words ≡ map (row_full_word to letters.now.items) rows.now.items }
{
    if from != to {
        make_words(rows, letters, to, names, full);
    }
}

// Makes the words of all rows from a seed, in indexes with room for them.
fn make_words(
    rows: &Vec<Row>,
    letters: &Vec<u8>,
    seed: u64,
    names: &mut WordIndex,
    full: &mut WordIndex,
)
    requires names { vec_len rows.now ≤ length names.old.words + names.old.room }
    requires full { vec_len rows.now ≤ length full.old.words + full.old.room }
    ensures names { names.new.words ≡ map (row_word seed letters.now.items) rows.now.items }
    ensures full { full.new.words ≡ map (row_full_word seed letters.now.items) rows.now.items }
{
    names.clear();
    full.clear();
    for at in 0..rows.len() {
        let row = &rows[at];
        let state = name_state(seed, name_at(letters, row.names));
        names.push(word_of(state));
        full.push(word_of(full_state(state, subsection_at(letters, row.names))));
    }
}
