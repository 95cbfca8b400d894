//! What an expansion needs of a file.

use bstr::BString;
use gitconf_read::error as parse;
use gitconf_sources::meta::Metadata;
use gitconf_text::NoMemory;
use gitconf_text::parse::span;
use std::alloc::Global;
use std::rc::Rc;

/// What a section includes: files, in the order of their paths, under a condition or without one.
#[derive(Drop)]
pub struct Directive {
    /// The subsection of an `includeIf`; an `include` has none.
    pub condition: Option<BString>,
    /// The values of `path`, in order; an entry without `=` counts as empty.
    pub paths: Vec<BString>,
    /// Where the section comes from.
    pub meta: Rc<Metadata>,
}

/// A section that was visited.
#[derive(Drop)]
pub enum Visited {
    /// It includes nothing.
    Plain,
    /// It includes files.
    Includes(Directive),
}

/// A file under expansion: the sections that were visited, with what was put in after each, are done; the rest is still to be
/// visited. Both are in file order.
pub trait ConfigFile: Drop {
    ghost use Rattle.std.specs.Prelude.{◌≡◌, ◌↔◌, ◌⊎◌, List, [], ◌<◌, length, false, IfErr, IfOk, IsErrOf, OnErr, OnOk};
    ghost use Rattle.gitconf_read.specs.EventResult.{IsRefused};
    ghost use Rattle.gitconf_state.specs.Including.{has_room, spliced, whole};
    ghost use Rattle.gitconf_state.specs.State.{SectionState, State};
    ghost use Rattle.gitconf_includes.specs.Expansion.{IsLoaded};
    ghost use Rattle.gitconf_includes.specs.Inclusion.{has_url};
    ghost use Rattle.gitconf_includes.specs.Visits.{IsVisited};

    ghost done: { Self → State };

    ghost rest: { Self → List SectionState };

    /// A file loaded from a text, all of it or only what has a meaning. None of its sections is done.
    ///
    /// # Errors
    ///
    /// Those of the parser.
    fn load(
        alloc: Global,
        text: Vec<u8>,
        lossy: bool,
        meta: Rc<Metadata>,
    ) -> Result<Self, parse::Error>
        ensures loaded { IfOk result (λ file. IsLoaded lossy text.items meta.value (whole (done file) (rest file))) }
        ensures fresh { IfOk result (λ file. (done file).sections ≡ []) }
        ensures refused { IfErr result (IsRefused text.items) };

    /// Visits the next section, which is then done, and returns what it includes. The result is `None` if no section is left.
    ///
    /// # Errors
    ///
    /// Out of memory, only if a section is left. The file is then as it was.
    fn visit(&mut self) -> Result<Option<Visited>, NoMemory>
        ensures visited { IfOk result (λ section. IsVisited section (done self.old) (rest self.old) (done self.new) (rest self.new)) }
        ensures err { OnErr result (done self.new ≡ done self.old) }
        ensures err_rest { OnErr result (rest self.new ≡ rest self.old) }
        ensures more { OnErr result (0 < length (rest self.old)) };

    /// Whether a value of `url` in some section named `remote` matches the pattern. The section may have any subsection.
    ///
    /// # Errors
    ///
    /// Out of memory.
    fn has_url(&self, pattern: &[u8]) -> Result<bool, NoMemory>
        ensures { IfOk result (λ found. found ≡ has_url (whole (done self.now) (rest self.now)) pattern.now) };

    /// Puts all of another file after everything that is done: its sections under the next numbers, and its front after the last section
    /// that is done.
    ///
    /// # Errors
    ///
    /// A [`span::Error`]: E3 if and only if there is no room, otherwise E27 when out of memory. The file is then as it was, and the other
    /// is dropped.
    fn include(&mut self, other: Self) -> Result<(), span::Error>
        requires { 0 < length (done self.old).sections }
        ensures ok { OnOk result (done self.new ≡ spliced (whole (done other) (rest other)) (rest self.old) (done self.old)) }
        ensures err { OnErr result (done self.new ≡ done self.old) }
        ensures rest { rest self.new ≡ rest self.old }
        ensures too_large { IsErrOf result 3 ↔ (has_room (whole (done other) (rest other)) (rest self.old) (done self.old) ≡ false) }
        ensures known { IfErr result (λ e. (e ≡ 3) ⊎ (e ≡ 27)) };
}
