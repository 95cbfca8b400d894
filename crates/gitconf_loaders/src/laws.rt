//! What holds of loaded files, for all hosts that report what is at each path, and of what these include: each law is a function that
//! does nothing.
ghost use Rattle.std.specs.Prelude.{◌≡◌, ◌≢◌, ℕ, Bool, false, true, IfErr, List, [], Ok, Option, Result, Some};
ghost use Rattle.gitconf_text.specs.Document.{IsText, gathered};
ghost use Rattle.gitconf_text.specs.Part.{Part};
ghost use Rattle.gitconf_sources.specs.Metadata.{Meta};
ghost use Rattle.gitconf_sources.specs.declared.source.Source.{Source};
ghost use Rattle.gitconf_sources.specs.Reports.{FileReport, VariableReport};
ghost use Rattle.gitconf_sources.specs.FoundFiles.{AreFound, global_sources};
ghost use Rattle.gitconf_sources.specs.declared.host.Places.{Places};
ghost use Rattle.gitconf_includes.specs.declared.init.Error.{Error};
ghost use Rattle.gitconf_state.specs.Clean.{IsClean};
ghost use Rattle.gitconf_state.specs.State.{document_of, entries_of, State};
ghost use Rattle.gitconf_includes.specs.Expansion.{Asks, IsLoaded};
ghost use Rattle.gitconf_includes.specs.Laws.{AreHeaded, IncludesHeaded, SayTheSame, asks_with};
ghost use Rattle.gitconf_includes.specs.Rules.{Rules};
ghost use Rattle.gitconf_loaders.specs.Errors.{init_says};
ghost use Rattle.gitconf_loaders.specs.Globals.{home_rules, IsGlobal};
ghost use Rattle.gitconf_loaders.specs.Headed.{AreHeadedAt, IsHeadedText};
ghost use Rattle.gitconf_loaders.specs.Paths.{HasOneOutcome, IsLoadedFrom, IsLoadOfPaths};
ghost use Rattle.gitconf_loaders.specs.Refused.{OutOfMemory};
ghost use Rattle.gitconf_loaders.specs.Resolving.{AreMadeAlike, IsMadeOf};

/// Loaded files are clean if no text has an entry before its first section. Files that are loaded by their paths or from a text are then
/// clean, those of the machine and of the user too, and have no entry before their first section. The texts are those that are loaded, and
/// the files that a section names. A file that is loaded without includes is clean in any case. So what is written of them reads back.
pub fn loaded_files_are_clean()
    ensures path { (table : Option (List ℕ → FileReport)) (path : List ℕ) (source : Source) (file : State) → IsLoadedFrom table path source (Ok file)
        → IsClean file }
    ensures paths { (must_exist ignores : Bool) (asks : Asks) (metas : List Meta) (file : State) → AreHeadedAt must_exist ignores asks metas
        → IsLoadOfPaths must_exist ignores asks metas (Ok (Some file)) → IsClean file × (entries_of file.front ≡ []) }
    ensures globals { (variables : Option (List ℕ → VariableReport)) (places : Places) (table : Option (List ℕ → FileReport)) (file : State)
        → ((found : List Meta) → AreFound variables places table global_sources found
        → AreHeadedAt true false (record { rules = home_rules places; table = table }) found)
        → IsGlobal variables places table (Ok file) → IsClean file × (entries_of file.front ≡ []) }
    // A text with what it includes, all of it; or some of it, if it has no such entry itself.
    ensures whole { (asks : Asks) (text : List ℕ) (place : Meta) (file : State) → asks.rules.lossy ≡ false
        → ((loaded : State) → IsLoaded false text place loaded → IncludesHeaded asks.rules.max_depth asks loaded)
        → IsMadeOf init_says asks text place (Ok file) → IsClean file }
    ensures text { (asks : Asks) (text : List ℕ) (place : Meta) (file : State) → IsHeadedText asks place text
        → IsMadeOf init_says asks text place (Ok file) → IsClean file × (entries_of file.front ≡ []) }
{}

/// If the host's texts have no entry before their first section, loaded ones have none. The host's texts are those that it tells. None that
/// is loaded then has such an entry, nor any file that it includes. So it is with a text that has none itself.
pub fn headed_files_are_loaded_headed()
    ensures paths { (files : List ℕ → FileReport) (must_exist ignores : Bool) (asks : Asks) (metas : List Meta) → asks.table ≡ Some files
        → AreHeaded files → AreHeadedAt must_exist ignores asks metas }
    ensures text { (files : List ℕ → FileReport) (asks : Asks) (text : List ℕ) (place : Meta) → asks.table ≡ Some files → AreHeaded files
        → ((parts : List Part) → IsText text parts → (gathered parts).front ≡ []) → IsHeadedText asks place text }
{}

/// If the host says what each path has, a text has one outcome, memory apart. One text from one place makes one file, apart from running
/// out of memory, or is refused for one cause, which says the same of the same file.
pub fn a_text_makes_one_file()
    ensures { (asks : Asks) (files : List ℕ → FileReport) (text : List ℕ) (place : Meta) (one other : Result State Error) → asks.table ≡ Some files
        → IfErr one (λ e. init_says e ≢ OutOfMemory) → IfErr other (λ e. init_says e ≢ OutOfMemory)
        → IsMadeOf init_says asks text place one → IsMadeOf init_says asks text place other → AreMadeAlike one other }
{}

/// If the host is given, a load has one outcome, memory apart. The host says what is at each path and what each variable is set to; apart
/// from running out of memory, the outcome is one file, or an error that says one thing. So it is with a file that is loaded by its path,
/// with several, and with those of the machine and of the user.
pub fn loads_have_one_outcome()
    ensures path { (files : List ℕ → FileReport) (path : List ℕ) (source : Source) → HasOneOutcome (IsLoadedFrom (Some files) path source) }
    ensures paths { (files : List ℕ → FileReport) (must_exist ignores : Bool) (asks : Asks) (metas : List Meta) → asks.table ≡ Some files
        → HasOneOutcome (IsLoadOfPaths must_exist ignores asks metas) }
    ensures globals { (variables : List ℕ → VariableReport) (places : Places) (files : List ℕ → FileReport)
        → HasOneOutcome (IsGlobal (Some variables) places (Some files)) }
{}

/// A lossy load says what a full one does, if neither is refused: the same entries, in sections of the same names, numbers and places. So it
/// is with a text and with files that are loaded by their paths, each with what it includes. Files that say the same have one document.
pub fn lossy_loads_say_the_same()
    ensures text { (rules : Rules) (files : List ℕ → FileReport) (text : List ℕ) (place : Meta) (full lossy : State)
        → IsMadeOf init_says (asks_with false rules files) text place (Ok full) → IsMadeOf init_says (asks_with true rules files) text place (Ok lossy)
        → SayTheSame full lossy }
    ensures paths { (rules : Rules) (files : List ℕ → FileReport) (must_exist ignores : Bool) (metas : List Meta) (full lossy : State)
        → IsLoadOfPaths must_exist ignores (asks_with false rules files) metas (Ok (Some full))
        → IsLoadOfPaths must_exist ignores (asks_with true rules files) metas (Ok (Some lossy)) → SayTheSame full lossy }
    ensures document { (one other : State) → SayTheSame one other → document_of one ≡ document_of other }
{}
