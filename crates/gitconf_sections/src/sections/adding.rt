//! Sections that are added after the others.
ghost use Rattle.std.specs.Option.{option_copied};
ghost use Rattle.std.specs.Prelude.{◌≡◌, [], ◌∷◌, ◌+◌, ◌-◌, ◌^◌, ◌<◌, ◌≤◌, ◌↔◌, ◌++◌, length, take, vec_capacity, vec_len, IfErr, IfOk, IsErrOf, OnErr, OnOk};
ghost use Rattle.gitconf_text.specs.Bytes.{fold};
ghost use Rattle.gitconf_text.specs.Sections.{edited_at, no_number, with_all, with_last};
ghost use Rattle.gitconf_sections.specs.Held.{line_end_item};
ghost use Rattle.gitconf_sections.specs.Letters.{ArePut};
ghost use Rattle.gitconf_sections.specs.Links.{no_place};
ghost use Rattle.gitconf_sections.specs.Rows.{moved_rows, RowsFit};
ghost use Rattle.gitconf_sections.specs.Section.{holding, made, AreListed};
ghost use Rattle.gitconf_sections.specs.Word.{full_word, name_word};

use crate::body::{Body, rebased};
use crate::held::Held;
use crate::id::SectionId;
use crate::index::WordIndex;
use crate::letters::{Names, make_room, put, put_names};
use crate::row::Row;
use crate::sections::reseeding::change_words;
use crate::sections::{SectionList, relocate};
use crate::word::{full_state, word_of};
use gitconf_items::event::{Header, Span};
use gitconf_items::few::FewItems;
use gitconf_items::items::Item;
use gitconf_sources::meta::Metadata;
use gitconf_text::NoMemory;
use gitconf_text::parse::span;
use std::alloc::AllocError;
use std::mem::replace;
use std::rc::Rc;

impl SectionList {
    /// Makes room at once for that many more sections. This is room for their places and for the indexes; each of them that is then
    /// added at the end takes memory for its names and its items alone.
    ///
    /// # Errors
    ///
    /// Out of memory, or there would be more than 4294967295 sections. All is then as it was.
    pub fn reserve(&mut self, more: usize) -> Result<(), NoMemory>
        ensures { self.new ≡ self.old }
    {
        self.rows.reserve(more)?;
        self.places.reserve(more)?;
        self.names.reserve(more)?;
        self.full.reserve(more)?;
        Ok(())
    }

    /// Adds a section at the end, and returns its number. It gets the next number and `name` in ASCII lower case, and nothing is held after
    /// it. The items are its own. Takes memory for the names and for a box, and constant time and memory on average for its place.
    ///
    /// # Errors
    ///
    /// A [`span::Error`]: E3 if only the greatest number is left, otherwise E27 when out of memory. All is then as it was.
    pub fn push(
        &mut self,
        name: &[u8],
        subsection: Option<&[u8]>,
        header: Header,
        meta: Rc<Metadata>,
        items: Vec<Item>,
    ) -> Result<SectionId, span::Error>
        ensures id { IfOk result (λ id. id ≡ self.old.next) }
        ensures ok { OnOk result (self.new ≡ with_last name.now (option_copied subsection.entry) (made header meta items.items) self.old) }
        ensures used_up { IsErrOf result 3 ↔ (self.old.next ≡ no_number) }
        ensures memory { IfErr result (λ e. self.old.next < no_number → e ≡ 27) }
        ensures err { OnErr result (self.new ≡ self.old) }
    {
        if self.numbers_left() == 0 {
            return Err(span::Error::too_large());
        }
        let own = Box::new(*self.list.allocator(), items)?;
        let id = SectionId { number: self.next };
        let row = unnamed(id, header, meta, Body::Own(own));
        push_row(
            &mut self.rows,
            &mut self.letters,
            &mut self.places,
            &mut self.names,
            &mut self.full,
            self.seed,
            name,
            subsection,
            row,
        )?;
        self.next += 1;
        Ok(id)
    }

    /// Adds a section at the end, as [`SectionList::push`] does, for a load. Its items go after those of the list that the sections share.
    /// It takes no memory except for the names, and on average constant time and memory for the items and its place.
    ///
    /// # Errors
    ///
    /// Those of [`SectionList::push`]; E27 also if the list would have more than 4294967295 items. The items are then as they
    /// were, too.
    pub fn push_loaded(
        &mut self,
        name: &[u8],
        subsection: Option<&[u8]>,
        header: Header,
        meta: Rc<Metadata>,
        items: &mut Vec<Item>,
    ) -> Result<SectionId, span::Error>
        ensures id { IfOk result (λ id. id ≡ self.old.next) }
        ensures ok { OnOk result (self.new ≡ with_last name.now (option_copied subsection.entry) (made header meta items.old.items) self.old) }
        ensures taken { OnOk result (items.new.items ≡ []) }
        ensures used_up { IsErrOf result 3 ↔ (self.old.next ≡ no_number) }
        ensures memory { IfErr result (λ e. self.old.next < no_number → e ≡ 27) }
        ensures err { OnErr result (self.new ≡ self.old) }
    {
        if self.numbers_left() == 0 {
            return Err(span::Error::too_large());
        }
        let from = self.list.len();
        let len = items.len();
        reserve_items(&mut self.list, len)?;
        let id = SectionId { number: self.next };
        let body = Body::Listed {
            from: from as u32,
            len: len as u32,
        };
        let row = unnamed(id, header, meta, body);
        push_row(
            &mut self.rows,
            &mut self.letters,
            &mut self.places,
            &mut self.names,
            &mut self.full,
            self.seed,
            name,
            subsection,
            row,
        )?;
        self.list.append(items).unwrap();
        self.next += 1;
        Ok(id)
    }

    /// Adds the sections of another list after all others, in their order. They get the next numbers; their items go after those of the
    /// list that the sections share. Takes memory for these, for the places and the indexes. Sections whose words were made from
    /// another seed get new ones first, as [`SectionList::reseed`] makes them.
    ///
    /// # Errors
    ///
    /// A [`span::Error`]: E3 if fewer numbers are left than the other has sections, otherwise E27 when out of memory. All is then as
    /// it was, and the other is dropped.
    pub fn append(&mut self, other: SectionList) -> Result<(), span::Error>
        ensures ok { OnOk result (self.new ≡ with_all (length self.old.entries) other self.old) }
        ensures used_up { IsErrOf result 3 ↔ (no_number < self.old.next + length other.entries) }
        ensures memory { IfErr result (λ e. self.old.next + length other.entries ≤ no_number → e ≡ 27) }
        ensures err { OnErr result (self.new ≡ self.old) }
    {
        let count = other.rows.len();
        if self.numbers_left() < count {
            return Err(span::Error::too_large());
        }
        reserve_items(&mut self.list, other.list.len())?;
        reserve_all(
            &mut self.rows,
            &mut self.letters,
            &mut self.places,
            &mut self.names,
            &mut self.full,
            self.next,
            count,
            other.letters.len(),
        )?;
        let SectionList {
            rows: added,
            letters,
            list: mut items,
            places: _,
            mut names,
            mut full,
            seed,
            next: _,
        } = other;
        change_words(&added, &letters, seed, self.seed, &mut names, &mut full);
        let position = self.rows.len();
        put_rows(
            &mut self.rows,
            &mut self.letters,
            self.next,
            self.list.len() as u32,
            added,
            &letters,
        );
        self.list.append(&mut items).unwrap();
        relocate(&self.rows, &mut self.places, position);
        self.names.append(names);
        self.full.append(full);
        self.next += count;
        Ok(())
    }

    /// Adds items after what is held after a section, and another list's sections last. The items are a line ending, if one is given,
    /// and others; they go after what is held after the section at a place. The sections go after all others, as [`SectionList::append`]
    /// adds them.
    ///
    /// # Errors
    ///
    /// Those of [`SectionList::append`].
    pub fn append_held(
        &mut self,
        position: usize,
        line_end: Option<Span>,
        others: &mut FewItems,
        other: SectionList,
    ) -> Result<(), span::Error>
        requires { position < length self.old.entries }
        ensures ok { OnOk result (self.new ≡ with_all (length self.old.entries) other
            (edited_at (holding (line_end_item line_end ++ others.old.items)) position self.old)) }
        ensures used_up { IsErrOf result 3 ↔ (no_number < self.old.next + length other.entries) }
        ensures memory { IfErr result (λ e. self.old.next + length other.entries ≤ no_number → e ≡ 27) }
        ensures err { OnErr result (self.new ≡ self.old) }
    {
        if self.numbers_left() < other.len() {
            return Err(span::Error::too_large());
        }
        let alloc = *self.list.allocator();
        let mut held = self.take_held(position);
        if held.reserve(alloc, others.as_slice().len() + 1).is_err() {
            self.put_held(position, held);
            return Err(span::Error::from(NoMemory));
        }
        match self.append(other) {
            Ok(()) => {
                held.join(line_end, others);
                self.put_held(position, held);
                Ok(())
            }
            Err(error) => {
                self.put_held(position, held);
                Err(error)
            }
        }
    }
}

// Makes room for that many more items in the list that the sections share. A row writes places there down in 32 bits.
fn reserve_items(list: &mut Vec<Item>, more: usize) -> Result<(), NoMemory>
    ensures items { list.new.items ≡ list.old.items }
    ensures room { OnOk result (vec_len list.new + more ≤ vec_capacity list.new) }
    ensures fits { OnOk result (vec_len list.new + more < 2 ^ 32) }
{
    if more > u32::MAX as usize || list.len() > u32::MAX as usize - more {
        return Err(NoMemory);
    }
    list.reserve(more)?;
    Ok(())
}

// A row with nothing held after it, which gets its names when it is put in.
fn unnamed(id: SectionId, header: Header, meta: Rc<Metadata>, body: Body) -> Row
    ensures id { result.id ≡ id }
    ensures header { result.header ≡ header }
    ensures meta { result.meta ≡ meta }
    ensures body { result.body ≡ body }
    ensures held { result.held.items ≡ [] }
{
    Row {
        id,
        names: Names::NOTHING,
        header,
        meta,
        body,
        held: Held::none(),
    }
}

// Makes room for one more row, its place and its words. Mostly there is room, so that is tested first for all of them.
#[inline(always)]
fn reserve_row(
    rows: &mut Vec<Row>,
    places: &mut Vec<u32>,
    names: &mut WordIndex,
    full: &mut WordIndex,
) -> Result<(), AllocError>
    ensures rows { rows.new.items ≡ rows.old.items }
    ensures places { places.new.items ≡ places.old.items }
    ensures words { (names.new.words ≡ names.old.words) × (full.new.words ≡ full.old.words) }
    ensures lists { OnOk result ((vec_len rows.new < vec_capacity rows.new) × (vec_len places.new < vec_capacity places.new)) }
    ensures indexes { OnOk result ((0 < names.new.room) × (0 < full.new.room)) }
    ensures fits { OnOk result (length names.new.words < no_place) }
{
    let has_room = rows.len() < rows.capacity()
        && places.len() < places.capacity()
        && names.has_room()
        && full.has_room();
    if has_room {
        return Ok(());
    }
    rows.reserve(1)?;
    places.reserve(1)?;
    names.reserve(1)?;
    full.reserve(1)
}

// Puts a row after the others, under these names, `name` in ASCII lower case, and returns where they are.
#[inline(always)]
fn push_row(
    rows: &mut Vec<Row>,
    letters: &mut Vec<u8>,
    places: &mut Vec<u32>,
    names: &mut WordIndex,
    full: &mut WordIndex,
    seed: u64,
    name: &[u8],
    subsection: Option<&[u8]>,
    mut row: Row,
) -> Result<Names, AllocError>
    requires { length names.old.words ≡ vec_len rows.old }
    ensures put { IfOk result (λ put. ArePut (fold name.now) (option_copied subsection.entry) letters.old.items letters.new.items put) }
    ensures row { IfOk result (λ put. rows.new.items ≡ rows.old.items ++ record row { names = put } ∷ []) }
    ensures place { OnOk result (places.new.items ≡ places.old.items ++ length rows.old.items ∷ []) }
    ensures word { OnOk result (names.new.words ≡ names.old.words ++ name_word seed name.now ∷ []) }
    ensures full_word { OnOk result (full.new.words ≡ full.old.words ++ full_word seed name.now (option_copied subsection.entry) ∷ []) }
    ensures err_rows { OnErr result (rows.new.items ≡ rows.old.items) }
    ensures err_letters { OnErr result (letters.new.items ≡ letters.old.items) }
    ensures err_places { OnErr result (places.new.items ≡ places.old.items) }
    ensures err_words { OnErr result ((names.new.words ≡ names.old.words) × (full.new.words ≡ full.old.words)) }
{
    reserve_row(rows, places, names, full)?;
    let (put, state) = put_names(letters, seed, name, subsection)?;
    row.names = put;
    let at = rows.len() as u32;
    rows.push_reserved(row);
    places.push_reserved(at);
    names.push(word_of(state));
    full.push(word_of(full_state(state, subsection)));
    Ok(put)
}

// Makes room for that many more rows and their words.
fn reserve_rows(
    rows: &mut Vec<Row>,
    names: &mut WordIndex,
    full: &mut WordIndex,
    more: usize,
) -> Result<(), AllocError>
    ensures items { rows.new.items ≡ rows.old.items }
    ensures names { names.new.words ≡ names.old.words }
    ensures full { full.new.words ≡ full.old.words }
    ensures room { OnOk result (vec_len rows.new + more ≤ vec_capacity rows.new) }
    ensures indexes { OnOk result ((more ≤ names.new.room) × (more ≤ full.new.room)) }
    ensures fits { OnOk result (length names.new.words + more ≤ no_place) }
{
    rows.reserve(more)?;
    names.reserve(more)?;
    full.reserve(more)
}

// Makes room for the places of `count` more numbers, after those below `next`.
fn add_places(places: &mut Vec<u32>, next: usize, count: usize) -> Result<(), AllocError>
    requires { next + count ≤ no_number }
    ensures ok { OnOk result (vec_len places.new ≡ next + count) }
    ensures kept { OnOk result (length places.old.items ≤ next + count → take (length places.old.items) places.new.items ≡ places.old.items) }
    ensures err { OnErr result (places.new.items ≡ places.old.items) }
{
    places.resize(next + count, 0)
}

// Makes room for `count` more rows with `bytes` bytes of names, and for the places of their numbers, those from `next` on.
fn reserve_all(
    rows: &mut Vec<Row>,
    letters: &mut Vec<u8>,
    places: &mut Vec<u32>,
    names: &mut WordIndex,
    full: &mut WordIndex,
    next: usize,
    count: usize,
    bytes: usize,
) -> Result<(), NoMemory>
    requires { next + count ≤ no_number }
    ensures items { (rows.new.items ≡ rows.old.items) × (letters.new.items ≡ letters.old.items) }
    ensures words { (names.new.words ≡ names.old.words) × (full.new.words ≡ full.old.words) }
    ensures err { OnErr result (places.new.items ≡ places.old.items) }
    ensures rows_room { OnOk result (vec_len rows.new + count ≤ vec_capacity rows.new) }
    ensures indexes { OnOk result ((count ≤ names.new.room) × (count ≤ full.new.room)) }
    ensures fits { OnOk result (length names.new.words + count ≤ no_place) }
    ensures letters_room { OnOk result (vec_len letters.new + bytes ≤ vec_capacity letters.new) }
    ensures letters_fit { OnOk result (vec_len letters.new + bytes < 2 ^ 32) }
    ensures placed { OnOk result (vec_len places.new ≡ next + count) }
    ensures kept { OnOk result (length places.old.items ≤ next + count → take (length places.old.items) places.new.items ≡ places.old.items) }
{
    reserve_rows(rows, names, full, count)?;
    make_room(letters, bytes)?;
    add_places(places, next, count)?;
    Ok(())
}

// Puts rows after the others, under the numbers from `next` on, their names after the other names, and their bodies `by` places
// further on; there is room.
fn put_rows(
    rows: &mut Vec<Row>,
    letters: &mut Vec<u8>,
    next: usize,
    by: u32,
    mut added: Vec<Row>,
    names: &[u8],
)
    requires room { vec_len rows.old + vec_len added ≤ vec_capacity rows.old }
    requires letters_room { vec_len letters.old + length names.now ≤ vec_capacity letters.old }
    requires letters_fit { vec_len letters.old + length names.now < 2 ^ 32 }
    requires numbers { next + vec_len added ≤ no_number }
    requires named { RowsFit (length names.now) added.items }
    requires listed { AreListed 0 (2 ^ 32 - 1 - by) added.items }
    ensures letters { letters.new.items ≡ letters.old.items ++ names.now }
    ensures rows { rows.new.items ≡ rows.old.items ++ moved_rows next (length letters.old.items) by added.items }
    ensures len { vec_len rows.new ≡ vec_len rows.old + vec_len added }
{
    let behind = put(letters, names).start;
    move_rows(&mut added, next, behind, by);
    rows.append(&mut added).unwrap();
}

// Gives the rows the numbers from `next` on, and moves the places of their names by `behind` bytes, and those of their bodies by
// `by` items. One pass.
fn move_rows(rows: &mut Vec<Row>, next: usize, behind: u32, by: u32)
    requires numbers { next + vec_len rows.old ≤ no_number }
    requires places { RowsFit (2 ^ 32 - 1 - behind) rows.old.items }
    requires listed { AreListed 0 (2 ^ 32 - 1 - by) rows.old.items }
    ensures moved { rows.new.items ≡ moved_rows next behind by rows.old.items }
    ensures len { vec_len rows.new ≡ vec_len rows.old }
{
    for at in 0..rows.len() {
        let row = &mut rows[at];
        row.id = SectionId { number: next + at };
        row.names = row.names.moved(behind);
        let body = replace(&mut row.body, Body::Nothing);
        row.body = rebased(body, by);
    }
}
