//! A file under expansion.
ghost use Rattle.std.specs.Prelude.{◌≡◌, ◌⊎◌, ◌↔◌, ◌==◌, ◌-◌, ◌<◌, ◌≤◌, ◌||◌, if◌then◌else◌, is_some, length, None, option_map, vec_capacity, vec_len, IfErr, IsErrOf, OnOk};
ghost use Rattle.gitconf_store.specs.Appends.{HasNoRoomAt};
ghost use Rattle.gitconf_text.specs.LineEnds.{bytes_of_line_end};
ghost use Rattle.gitconf_items.specs.Items.{tokens_in};
ghost use Rattle.gitconf_views.specs.Views.{shown};
ghost use Rattle.gitconf_print.specs.LineEnds.{first_newline, first_newline_of_bodies};

use gitconf_lookups::walks::SectionsByName;
use gitconf_print::line_end::first_line_end;
use gitconf_sections::runs::Run;
use gitconf_store::store::Store;
use gitconf_text::line_end::LineEnd;
use gitconf_text::parse::span;
use gitconf_views::section::SectionRef;
use std::marker::Model;

/// A file whose sections are visited one by one. Other files are put in after each. So what is put in goes after everything that is done,
/// and the sections that were put in are not visited. Nothing goes into the middle before the end: the sections of the beginning are in a
/// store, and after them all that were put in, and runs give their order.
#[derive(Drop)]
pub struct Gathering {
    store: Store,
    /// How many sections the file had at the beginning.
    count: usize,
    /// How many of these were visited.
    at: usize,
    /// The order of everything that is done: for each run that many of the beginning, and then that many that were put in.
    runs: Vec<Run>,
    /// How many were visited after the last run.
    ahead: usize,
    /// The place of the section that comes last of all that are done.
    last: usize,
    /// The line ending that the file uses.
    line_end: LineEnd,
    /// Whether what is done gives it.
    told: bool,
}

impl Model for Gathering {
    ghost use Rattle.gitconf_loaders.specs.Gathering.{gathered, Gathered, GatheringFits};

    ghost Value = { Gathered };

    ghost view = { λ g. gathered g.count g.at g.runs.items g.store };

    ghost invariant = { λ g. GatheringFits g.count g.at g.ahead g.last g.runs.items g.line_end g.told g.store };
}

/// The line ending that another file's sections give, if what is done gives none.
fn newly_told(told: bool, other: &Store) -> Option<LineEnd>
    ensures { option_map bytes_of_line_end result ≡ (if told then None else first_newline_of_bodies other.now.sections) }
{
    if told { None } else { other.bodies_line_end() }
}

/// Whether a line ending is known: it was before, or it was found.
fn is_told(told: bool, found: Option<LineEnd>) -> bool
    ensures { result ≡ (told || is_some found) }
{
    told || found.is_some()
}

/// Whether a line ending is known once this section is done as well. The section is looked at only if none is known yet.
fn tells_with(told: bool, section: &SectionRef<'_>) -> bool
    ensures { result ≡ (told || is_some (first_newline (tokens_in (shown section.now).items))) }
{
    told || first_line_end(section.buffer, section.items).is_some()
}

/// The place of the section that comes last, after `count` were put in after all others.
fn last_place(last: usize, long: usize, count: usize) -> usize
    requires { count ≤ long }
    ensures { result ≡ (if count == 0 then last else long - 1) }
{
    if count == 0 { last } else { long - 1 }
}

/// Checks whether another file may be put in after the section at a place, and makes room for its run.
///
/// # Errors
///
/// Those of [`Store::check_put`]; E27 when out of memory.
fn make_ready(
    store: &Store,
    runs: &mut Vec<Run>,
    at: usize,
    line_end: LineEnd,
    other: &Store,
) -> Result<(), span::Error>
    requires { at ≤ length store.now.sections - 1 }
    ensures items { runs.new.items ≡ runs.old.items }
    ensures room { OnOk result (vec_len runs.new < vec_capacity runs.new) }
    ensures too_large { IsErrOf result 3 ↔ HasNoRoomAt at (bytes_of_line_end line_end) other.now store.now }
    ensures known { IfErr result (λ e. (e ≡ 3) ⊎ (e ≡ 27)) }
{
    store.check_put(at, line_end, other)?;
    runs.reserve(1)?;
    Ok(())
}

impl Gathering {
    ghost use Rattle.std.specs.Prelude.{◌≡◌, ◌⊎◌, ◌↔◌, ◌<◌, [], ◌∷◌, Bool, false, length, option_map, slice_get, IfErr, IfSome, IsErrOf, IsNone, OnErr, OnOk};
    ghost use Rattle.std.specs.List.{list_any};
    ghost use Rattle.gitconf_lookups.specs.Walks.{by_name_left, with_name};
    ghost use Rattle.gitconf_state.specs.Edit.{with_used};
    ghost use Rattle.gitconf_state.specs.Including.{has_room, spliced, visited, whole, with_sections};
    ghost use Rattle.gitconf_state.specs.State.{SectionState};
    ghost use Rattle.gitconf_views.specs.Views.{shown};

    /// A file of which nothing is done. Takes no memory, and a walk up to the first newline.
    pub fn of(store: Store) -> Gathering
        ensures { result ≡ record { done = with_sections [] store; rest = store.sections } }
    {
        Gathering {
            count: store.section_count(),
            at: 0,
            runs: Vec::new(store.allocator()),
            ahead: 0,
            last: 0,
            line_end: store.line_end(),
            told: store.front_tells(),
            store,
        }
    }

    /// The first section that is still to be visited; `None` if all are done. Takes constant time, and no memory.
    pub fn next_section(&self) -> Option<SectionRef<'_>>
        ensures { option_map shown result ≡ slice_get self.now.rest 0 }
    {
        if self.at < self.count {
            Some(self.store.section_at(self.at))
        } else {
            None
        }
    }

    /// Counts the next section as done. Takes no memory, and constant time, but for a walk over the section up to its first newline
    /// while no line ending is known.
    pub fn advance(&mut self)
        requires { 0 < length self.old.rest }
        ensures { (s : SectionState) × (self.old.rest ≡ s ∷ self.new.rest) × (self.new.done ≡ visited self.old.done s) }
    {
        let section = self.store.section_at(self.at);
        self.told = tells_with(self.told, &section);
        self.last = self.at;
        self.at += 1;
        self.ahead += 1;
    }

    /// Puts another file after everything that is done. Its front is held after the last section that is done, with a line ending between
    /// if one is needed. The time is linear in the other file.
    ///
    /// # Errors
    ///
    /// A [`span::Error`]: E3 if and only if the buffer would be longer than 4294967295 bytes or fewer numbers are left than the other has
    /// sections, otherwise E27 when out of memory. The other is then dropped, and the file as it was.
    pub fn include(&mut self, other: Gathering) -> Result<(), span::Error>
        requires { 0 < length self.old.done.sections }
        ensures ok { OnOk result (self.new ≡ record { done = spliced (whole other.done other.rest) self.old.rest self.old.done; rest = self.old.rest }) }
        ensures err { OnErr result (self.new ≡ self.old) }
        ensures too_large { IsErrOf result 3 ↔ (has_room (whole other.done other.rest) self.old.rest self.old.done ≡ false) }
        ensures known { IfErr result (λ e. (e ≡ 3) ⊎ (e ≡ 27)) }
    {
        let other = other.into_store();
        make_ready(
            &self.store,
            &mut self.runs,
            self.last,
            self.line_end,
            &other,
        )?;
        let count = other.section_count();
        let found = newly_told(self.told, &other);
        self.store.include(self.last, self.line_end, other)?;
        let run = Run {
            ahead: self.ahead,
            count,
        };
        self.runs.push_reserved(run);
        self.ahead = 0;
        self.last = last_place(self.last, self.store.section_count(), count);
        self.line_end = found.unwrap_or(self.line_end);
        self.told = is_told(self.told, found);
        Ok(())
    }

    /// The sections of the whole file that have the name; `None` if there is none. The file is taken as it is. The name is compared
    /// without ASCII case, the subsection may be any, and the sections come in any order. They are found by an index: constant time
    /// except for the bytes of the names, and no memory.
    pub fn sections_by_name<'a, 'n>(&'a self, name: &'n str) -> Option<SectionsByName<'a, 'n>>
        ensures none { IsNone result → (p : SectionState → Bool) → list_any p (with_name name.now (whole self.now.done self.now.rest).sections) ≡ false }
        ensures some { IfSome result (λ it. (p : SectionState → Bool) → list_any p (by_name_left it)
            ≡ list_any p (with_name name.now (whole self.now.done self.now.rest).sections)) }
    {
        self.store.sections_by_name(name)
    }

    /// The whole file. Takes no memory, and time for all sections as [`Store::weave`] does.
    pub fn into_store(self) -> Store
        ensures { result ≡ whole self.done self.rest }
    {
        let Gathering {
            mut store,
            count,
            at: _,
            runs,
            ahead: _,
            last: _,
            line_end: _,
            told: _,
        } = self;
        store.weave(count, &runs);
        store
    }
}
