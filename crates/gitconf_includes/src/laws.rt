//! What holds of expansions, for all files and sources of files: each law is a function that does nothing.
ghost use Rattle.std.specs.Prelude.{◌≡◌, ◌≢◌, ◌⊎◌, ℕ, suc, true, false, Bool, IfErr, IsErrAnd, List, None, Option, Result, Some};
ghost use Rattle.gitconf_sources.specs.Metadata.{Meta};
ghost use Rattle.gitconf_sources.specs.Reports.{FileReport};
ghost use Rattle.gitconf_includes.specs.declared.includes.Error.{Error};
ghost use Rattle.gitconf_includes.specs.Errors.{includes_number, says};
ghost use Rattle.gitconf_includes.specs.Said.{known, OutOfMemory};
ghost use Rattle.gitconf_read.specs.ParseError.{Refusal};
ghost use Rattle.gitconf_includes.specs.Rules.{Rules};
ghost use Rattle.gitconf_state.specs.Clean.{IsClean};
ghost use Rattle.gitconf_state.specs.State.{document_of, AreNumbered, HasItems, IsState, State};
ghost use Rattle.gitconf_includes.specs.Expansion.{Asks, Ended, Expands, IsLoadOf, On, Reached, Resolves};
ghost use Rattle.gitconf_includes.specs.Laws.{file_of, AreHeaded, EndAlike, IncludesHeaded, IncludesNothing, asks_with, IsAnswered, IsAsItWas, IsKept, ParentsSayTheSame, SayTheSame, StandBehind};

/// Whatever the outcome, a file's own sections stay in their order, with their numbers. Where each comes from stays, and so do the
/// file's front and where the file itself comes from. The items held after a section stay too, and more may follow them.
pub fn own_sections_stay()
    ensures { (left : ℕ) (asks : Asks) (parent : Option State) (old : State) (r : Reached) → AreNumbered old.next old.sections
        → Expands left asks parent old r → IsKept old (file_of r) }
{}

/// Each section that was put in follows one of the file's own. It has the source and trust of that one, and a greater level.
pub fn included_sections_stand_behind()
    ensures { (left : ℕ) (asks : Asks) (parent : Option State) (old : State) (r : Reached) → AreNumbered old.next old.sections
        → Expands left asks parent old r → StandBehind old.next None (file_of r).sections }
{}

/// If a file's items are those a text may have, its expansion's are too. This holds whatever the outcome.
pub fn expansions_keep_items()
    ensures { (left : ℕ) (asks : Asks) (parent : Option State) (old : State) (r : Reached) → HasItems old → Expands left asks parent old r
        → HasItems (file_of r) }
{}

/// An expansion gives no number twice, and none that a section had before.
pub fn expansions_keep_numbers()
    ensures { (left : ℕ) (asks : Asks) (parent : Option State) (old : State) (r : Reached) → AreNumbered old.next old.sections
        → Expands left asks parent old r → AreNumbered (file_of r).next (file_of r).sections }
{}

/// What holds of every file loaded or edited also holds of it after an expansion. Whatever the outcome, its items are those that a text may
/// have, no number was given twice, and the greatest was not given.
pub fn expansions_keep_states()
    ensures { (left : ℕ) (asks : Asks) (parent : Option State) (old : State) (r : Reached) → IsState old → Expands left asks parent old r
        → IsState (file_of r) }
{}

/// A clean file stays clean if named files have no entry before their first section. The named files are those that a section names. This
/// holds whatever the outcome; so what is written of the file reads back. It is asked of each file that a path of a section names, also
/// where the condition of its include doesn't hold, and of those that these name, as deep as the expansion may go; so it holds where no
/// text at all has such an entry.
pub fn expansions_stay_clean()
    ensures clean { (left : ℕ) (asks : Asks) (parent : Option State) (old : State) (r : Reached) → IncludesHeaded left asks old → IsClean old
        → Expands left asks parent old r → IsClean (file_of r) }
    ensures texts { (files : List ℕ → FileReport) (asks : Asks) (left : ℕ) (state : State) → asks.table ≡ Some files → AreHeaded files
        → IncludesHeaded left asks state }
{}

/// A file whose sections include nothing is left as it is, or memory ran out. An expansion with no level left is not
/// meant: it may be refused.
pub fn nothing_is_included()
    ensures expanded { (left : ℕ) (asks : Asks) (parent : Option State) (old : State) (r : Reached) → IncludesNothing old
        → Expands (suc left) asks parent old r → (r ≡ On old) ⊎ (r ≡ Ended OutOfMemory old) }
    ensures resolved { (asks : Asks) (old new : State) (result : Result Unit Error) → IncludesNothing old
        → Resolves says asks old result new → IsAsItWas result old new }
{}

/// A lossy expansion gives what one gives that keeps everything, if neither is refused: for files that say the same, and so for one file.
/// If one is refused nothing is said, since what is left out takes no room.
pub fn lossy_expansions_say_the_same()
    ensures same { (rules : Rules) (files : List ℕ → FileReport) (left : ℕ) (parent other_parent : Option State) (old other full lossy : State)
        → ParentsSayTheSame parent other_parent → SayTheSame old other
        → Expands left (asks_with false rules files) parent old (On full) → Expands left (asks_with true rules files) other_parent other (On lossy)
        → SayTheSame full lossy }
    ensures document { (rules : Rules) (files : List ℕ → FileReport) (left : ℕ) (parent : Option State) (old full lossy : State)
        → Expands left (asks_with false rules files) parent old (On full) → Expands left (asks_with true rules files) parent old (On lossy)
        → document_of full ≡ document_of lossy }
{}

/// If the host says what each path has, an expansion has one outcome, memory apart. Apart from running out of memory, a call has one
/// outcome too: two that are made on one file leave the same file, or are refused for one cause, which says the same of the same file, and
/// leave the same. A text has one load.
pub fn expansions_have_one_outcome()
    ensures expanded { (asks : Asks) (files : List ℕ → FileReport) (left : ℕ) (parent : Option State) (old : State) (r s : Reached)
        → asks.table ≡ Some files → IsAnswered r → IsAnswered s
        → Expands left asks parent old r → Expands left asks parent old s → r ≡ s }
    ensures resolved { (asks : Asks) (files : List ℕ → FileReport) (old new left : State) (one other : Result Unit Error) → asks.table ≡ Some files
        → IfErr one (λ e. says e ≢ OutOfMemory) → IfErr other (λ e. says e ≢ OutOfMemory)
        → Resolves says asks old one new → Resolves says asks old other left → EndAlike one other new left }
    ensures loaded { (lossy : Bool) (text : List ℕ) (place : Meta) (one other : Result State Refusal) → IfErr one (λ e. e.number ≢ 27)
        → IfErr other (λ e. e.number ≢ 27) → IsLoadOf known lossy text place one → IsLoadOf known lossy text place other → one ≡ other }
{}

/// If the host is given, want of memory leaves a beginning of the whole expansion. The host says what is at each path. An expansion for
/// which memory runs out leaves a beginning of what it leaves otherwise: whatever the file has by then stays, in order, in the file that
/// the same expansion leaves with memory enough, also where that one is refused for another cause. What is put in later has greater
/// numbers, or is held after what was held. So it is of two calls.
pub fn want_of_memory_leaves_a_beginning()
    ensures expanded { (asks : Asks) (files : List ℕ → FileReport) (left : ℕ) (parent : Option State) (old end : State) (r : Reached)
        → asks.table ≡ Some files → AreNumbered old.next old.sections → IsAnswered r
        → Expands left asks parent old (Ended OutOfMemory end) → Expands left asks parent old r → IsKept end (file_of r) }
    ensures resolved { (asks : Asks) (files : List ℕ → FileReport) (old end new : State) (one other : Result Unit Error) → asks.table ≡ Some files
        → AreNumbered old.next old.sections → IsErrAnd one (λ e. includes_number e ≡ 27) → IfErr other (λ e. says e ≢ OutOfMemory)
        → Resolves says asks old one end → Resolves says asks old other new → IsKept end new }
{}
