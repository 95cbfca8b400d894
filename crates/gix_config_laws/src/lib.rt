//! What holds of editors, of loaded files, and of files after any calls: each law is a function that does nothing. Nothing links this crate;
//! the gate proves it.
#![tactic(auto)]

pub mod beginnings;
pub mod programs;
pub mod steps;

ghost use Rattle.std.specs.List.{AllByRecursion};
ghost use Rattle.bstr.specs.Owned.{bstring_bytes};
ghost use Rattle.std.specs.Prelude.{◌≡◌, ◌≤◌, ℕ, Bool, false, true, List, [], filter, map, option_map, None, Result, Ok, Option, Some, IfOk, OnErr, OnOk, string_bytes};
ghost use Rattle.gitconf_sources.specs.Metadata.{Meta};
ghost use Rattle.gitconf_sources.specs.Reports.{FileReport, VariableReport};
ghost use Rattle.gitconf_sources.specs.declared.fault.FileFault.{FileFault};
ghost use Rattle.gitconf_sources.specs.declared.host.Places.{Places};
ghost use Rattle.gitconf_state.specs.Clean.{IsClean};
ghost use Rattle.gitconf_state.specs.Equality.{AreEqual};
ghost use Rattle.gitconf_state.specs.Made.{IsMade};
ghost use Rattle.gitconf_state.specs.Printing.{printed};
ghost use Rattle.gitconf_text.specs.Document.{IsText, Reads, unmarked};
ghost use Rattle.gitconf_text.specs.Part.{Part};
ghost use Rattle.gitconf_text.specs.Token.{spelled_token, tokens_of};
ghost use Rattle.gitconf_state.specs.Edit.{new_section, Spacing};
ghost use Rattle.gitconf_items.specs.EventList.{keeps_token};
ghost use Rattle.gitconf_items.specs.TokenDocument.{keeps_meaning};
ghost use Rattle.gitconf_sources.specs.declared.source.Trust.{Trust};
ghost use Rattle.gitconf_state.specs.Edits.{Count, DeleteAt, Detached, Done, Edit, Entry, NewSection, Number, Pop, PushSection, Raw, Remove, RemoveMarked, RemoveNumbered, SetMeta, SetTrust, answer, apply, has_blank_leading, new_bytes, numbered, IsEditor};
ghost use Rattle.gitconf_state.specs.Editors.{Editor, editor_of};
ghost use Rattle.gitconf_state.specs.State.{document_of, entries_of, HasItems, SectionState, State, with_sections};
ghost use Rattle.gitconf_includes.specs.Expansion.{Asks};
ghost use Rattle.gitconf_includes.specs.Laws.{AreHeaded, SayTheSame, asks_with};
ghost use Rattle.gitconf_includes.specs.Rules.{Rules};
ghost use Rattle.gitconf_loaders.specs.Globals.{home_rules};
ghost use Rattle.gitconf_loaders.specs.Paths.{HasOneOutcome};
ghost use Rattle.gitconf_lookups.specs.Lookups.{implicit_at, value_at, values_at};
ghost use Rattle.gitconf_lookups.specs.Picks.{picked};
ghost use Rattle.gitconf_lookups.specs.SomeSections.{AreSome};
ghost use Rattle.gitconf_sources.specs.Key.{Key};
ghost use Rattle.gitconf_lookups.specs.ValuePlaces.{editor_of_numbered};
ghost use Rattle.gix_config_laws.specs.Headline.{AreCleanCalls, IsOneEnding, Call, Ending, Ends, Runs, no_memory};
ghost use Rattle.gitconf_text.specs.declared.memory.NoMemory.{NoMemory};
ghost use Rattle.std.specs.declared.alloc.Global.{Global};
ghost use Rattle.std.specs.declared.string.String.{String};
ghost use Rattle.bstr.specs.declared.bstring.BString.{BString};
ghost use Rattle.gitconf_body.specs.Refusals.{header_refusal, span_refusal, value_refusal};
ghost use Rattle.gitconf_body.specs.declared.value.Error.{Error as ValueError};
ghost use Rattle.gitconf_store.specs.Removals.{IsTakenOut};
ghost use Rattle.gitconf_store.specs.RenameErrors.{rename_refusal};
ghost use Rattle.gitconf_store.specs.SetErrors.{set_refusal};
ghost use Rattle.gitconf_store.specs.declared.rename_section.Error.{Error as RenameError};
ghost use Rattle.gitconf_store.specs.declared.set_raw_value.Error.{Error as SetError};
ghost use Rattle.gitconf_text.specs.declared.parse.section.header.Error.{Error as HeaderError};
ghost use Rattle.gitconf_state.specs.Inserted.{Inserted, IsByteForByte};
ghost use Rattle.gix_config.specs.Environment.{HaveSectionNames, IncludeHeaded, IsFromEnv, IsOverrides};
ghost use Rattle.gitconf_body.specs.Done.{IsRefusedFor, first_cause};
ghost use Rattle.gitconf_store.specs.Edited.{causes, done, put_bytes, IsEdited};
ghost use Rattle.gix_config.specs.Repository.{IsHeadedRepository, IsRepository};
ghost use Rattle.gix_config.specs.SectionEditors.{IsFoundOrMadeOf, edited, editor_at, number_of, told, with_leading};
ghost use Rattle.gix_config.specs.declared.file.section_mut.SectionMut.{SectionMut};

/// Those of files that others are put into.
pub use gitconf_includes::laws as includes;
/// Those of files that are loaded by their paths.
pub use gitconf_loaders::laws as loaders;

/// A new editor writes what edits ask of an editor: for a section that is found by its names, whatever a filter answers, or by its number,
/// for one that is made, and for a value in the section of a number. It stays so with other whitespace before names, and with line endings
/// switched on or off. What it asks of the state holds of every file (`state` of [`File::sections`](gix_config::File::sections)).
pub fn new_editors_are_editors()
    ensures found { (name : List ℕ) (subsection : Option (List ℕ)) (keeps : Meta → Bool) (state : State) (s : SectionState) → HasItems state
        → picked name subsection keeps state ≡ Some s → IsEditor (editor_of state s) }
    // Whatever a filter answers.
    ensures found_of_some { (name : List ℕ) (subsection : Option (List ℕ)) (keeps : Meta → Bool) (state : State) (some : List SectionState) (s : SectionState)
        → HasItems state → AreSome state.sections some → picked name subsection keeps (with_sections some state) ≡ Some s → IsEditor (editor_of state s) }
    ensures of_number { (number : ℕ) (state : State) (s : SectionState) → HasItems state → numbered number state ≡ Some s → IsEditor (editor_of state s) }
    ensures made { (name : List ℕ) (subsection : Option (List ℕ)) (state : State) → IsEditor (editor_of state (new_section name subsection state)) }
    ensures value { (number : ℕ) (state : State) → HasItems state → IsEditor (editor_of_numbered number state) }
    ensures leading { (leading : Option (List ℕ)) (editor : Editor) → IsEditor editor → IsEditor (with_leading leading editor) }
    ensures ends { (on : Bool) (editor : Editor) → IsEditor editor → IsEditor (record editor { ends = on }) }
{}

/// A new editor of a clean file's section puts only spaces and tabs before names. So its edits leave the file clean.
pub fn new_editors_of_clean_files_put_blanks()
    ensures found { (name : List ℕ) (subsection : Option (List ℕ)) (keeps : Meta → Bool) (state : State) (s : SectionState) → IsClean state
        → picked name subsection keeps state ≡ Some s → has_blank_leading (editor_of state s) ≡ true }
    // Whatever a filter answers.
    ensures found_of_some { (name : List ℕ) (subsection : Option (List ℕ)) (keeps : Meta → Bool) (state : State) (some : List SectionState) (s : SectionState)
        → IsClean state → AreSome state.sections some → picked name subsection keeps (with_sections some state) ≡ Some s
        → has_blank_leading (editor_of state s) ≡ true }
    ensures of_number { (number : ℕ) (state : State) (s : SectionState) → IsClean state → numbered number state ≡ Some s
        → has_blank_leading (editor_of state s) ≡ true }
    ensures made { (name : List ℕ) (subsection : Option (List ℕ)) (state : State)
        → has_blank_leading (editor_of state (new_section name subsection state)) ≡ true }
{}

/// An editor's edit adds no more to the buffer than the tokens that it makes. The same holds for a new section.
pub fn edits_put_no_more_than_their_tokens()
    ensures { (edit : Edit) (state : State) → put_bytes edit state ≤ new_bytes edit state }
{}

/// Under two conditions the file that variables set and that of the overrides are clean. No key names a section with an empty name and no
/// subsection, and no file that is included has an entry before its first section.
pub fn files_of_variables_are_clean()
    ensures made { (variables : List ℕ → VariableReport) (asks : Asks) (file : State) → HaveSectionNames variables → IncludeHeaded variables asks
        → IsFromEnv (Some variables) asks (Ok (Some file)) → IsClean file × (entries_of file.front ≡ []) }
    ensures overrides { (variables : List ℕ → VariableReport) (places : Places) (table : Option (List ℕ → FileReport)) (file : State)
        → HaveSectionNames variables → IncludeHeaded variables (record { rules = home_rules places; table = table })
        → IsOverrides (Some variables) places table (Ok file) → IsClean file × (entries_of file.front ≡ []) }
{}

/// With a given host, configurations have one outcome, apart from running out of memory. If the host says what is at each path and what
/// each variable is set to, the file that variables set has this one outcome, and so have the overrides and the configuration of a
/// repository: one file, or an error of one number.
pub fn configurations_have_one_outcome()
    ensures made { (variables : List ℕ → VariableReport) (asks : Asks) (files : List ℕ → FileReport) → asks.table ≡ Some files
        → HasOneOutcome (IsFromEnv (Some variables) asks) }
    ensures overrides { (variables : List ℕ → VariableReport) (places : Places) (files : List ℕ → FileReport)
        → HasOneOutcome (IsOverrides (Some variables) places (Some files)) }
    ensures repository { (variables : List ℕ → VariableReport) (places : Places) (files : List ℕ → FileReport) (dir : List ℕ)
        (real : Result (List ℕ) FileFault) → HasOneOutcome (IsRepository (Some variables) places (Some files) dir real) }
{}

/// A lossy load of variables says the same as a full one, if both succeed. It is the file that variables set, where what it includes is
/// loaded lossy.
pub fn lossy_loads_of_variables_say_the_same()
    ensures { (variables : List ℕ → VariableReport) (rules : Rules) (files : List ℕ → FileReport) (full lossy : State)
        → IsFromEnv (Some variables) (asks_with false rules files) (Ok (Some full)) → IsFromEnv (Some variables) (asks_with true rules files) (Ok (Some lossy))
        → SayTheSame full lossy }
{}

/// Under two conditions the configuration of a repository is clean. It also has no entry before its first section, so what is written of it
/// reads back. The conditions are that no key of variables names a section with an empty name and no subsection, and that no file that is
/// read, or that a section names, has an entry before its first section. No file has such an entry if no text that the host tells has one.
pub fn repositories_are_clean()
    ensures clean { (variables : List ℕ → VariableReport) (places : Places) (table : Option (List ℕ → FileReport)) (dir : List ℕ)
        (real : Result (List ℕ) FileFault) (file : State) → HaveSectionNames variables → IsHeadedRepository variables places table dir real
        → IsRepository (Some variables) places table dir real (Ok file) → IsClean file × (entries_of file.front ≡ []) }
    ensures texts { (variables : List ℕ → VariableReport) (places : Places) (files : List ℕ → FileReport) (dir : List ℕ) (real : Result (List ℕ) FileFault)
        → AreHeaded files → IsHeadedRepository variables places (Some files) dir real }
{}

/// What an edit's contract says is what [`headline`] asks of one. This is so for each kind of result: the edit ends with its answer, which
/// the result shows, or refused for the cause that its error tells.
pub fn calls_end_as_their_contracts_say()
    ensures pushes { (edit : Edit) (result : Result (Unit {0}) ValueError) (old new : State) → IfOk result (λ _. Done ≡ answer edit old)
        → IsEdited value_refusal edit result old new → (ending : Ending) × Ends edit old ending new × IsOneEnding (λ _. Done) value_refusal ending result }
    ensures values { (edit : Edit) (result : Result (Option BString) ValueError) (old new : State)
        → IfOk result (λ o. Raw (option_map bstring_bytes o) ≡ answer edit old) → IsEdited value_refusal edit result old new
        → (ending : Ending) × Ends edit old ending new × IsOneEnding (λ o. Raw (option_map bstring_bytes o)) value_refusal ending result }
    // Line ends, values of entries that stand, and appended files.
    ensures spans { (edit : Edit) (result : Result (Unit {0}) ℕ) (old new : State) → IfOk result (λ _. Done ≡ answer edit old)
        → IsEdited span_refusal edit result old new → (ending : Ending) × Ends edit old ending new × IsOneEnding (λ _. Done) span_refusal ending result }
    ensures headers { (edit : Edit) (result : Result (Unit {0}) HeaderError) (old new : State) → IfOk result (λ _. Done ≡ answer edit old)
        → IsEdited header_refusal edit result old new → (ending : Ending) × Ends edit old ending new × IsOneEnding (λ _. Done) header_refusal ending result }
    ensures raw_values { (edit : Edit) (result : Result (Option BString) SetError) (old new : State)
        → IfOk result (λ o. Raw (option_map bstring_bytes o) ≡ answer edit old) → IsEdited set_refusal edit result old new
        → (ending : Ending) × Ends edit old ending new × IsOneEnding (λ o. Raw (option_map bstring_bytes o)) set_refusal ending result }
    ensures renamings { (edit : Edit) (result : Result (Unit {0}) RenameError) (old new : State) → IfOk result (λ _. Done ≡ answer edit old)
        → IsEdited rename_refusal edit result old new → (ending : Ending) × Ends edit old ending new × IsOneEnding (λ _. Done) rename_refusal ending result }
    // What only want of memory refuses.
    ensures removed { (number : ℕ) (key : List ℕ) (result : Result (Option BString) NoMemory) (old new : State)
        → IfOk result (λ o. Raw (option_map bstring_bytes o) ≡ answer (Remove number key) old) → OnOk result (new ≡ apply (Remove number key) old)
        → OnErr result (new ≡ old) → (ending : Ending) × Ends (Remove number key) old ending new
        × IsOneEnding (λ o. Raw (option_map bstring_bytes o)) (λ _. no_memory) ending result }
    ensures marked { (number : ℕ) (key : List ℕ) (marks : List Bool) (result : Result ℕ NoMemory) (old new : State)
        → IfOk result (λ n. Count n ≡ answer (RemoveMarked number key marks) old) → OnOk result (new ≡ apply (RemoveMarked number key marks) old)
        → OnErr result (new ≡ old) → (ending : Ending) × Ends (RemoveMarked number key marks) old ending new × IsOneEnding Count (λ _. no_memory) ending result }
    // A section that was found, whatever a filter answers, and is taken out.
    ensures taken { (s : SectionState) (result : Result (Option Detached) NoMemory) (old new : State) → IsTakenOut (Some s) result old new
        → OnErr result (new ≡ old) → (ending : Ending) × Ends (RemoveNumbered s.number) old ending new
        × IsOneEnding (λ _. answer (RemoveNumbered s.number) old) (λ _. no_memory) ending result }
    ensures trusted { (number : ℕ) (trust : Trust) (result : Result (Unit {0}) NoMemory) (old new : State)
        → OnOk result (new ≡ apply (SetTrust number trust) old) → OnErr result (new ≡ old)
        → (ending : Ending) × Ends (SetTrust number trust) old ending new × IsOneEnding (λ _. Done) (λ _. no_memory) ending result }
    ensures popped { (number : ℕ) (result : Result (Option (String Global × BString)) NoMemory) (old new : State)
        → IfOk result (λ o. Entry (option_map (λ t. (string_bytes t.0, bstring_bytes t.1)) o) ≡ answer (Pop number) old)
        → OnOk result (new ≡ apply (Pop number) old) → OnErr result (new ≡ old) → (ending : Ending) × Ends (Pop number) old ending new
        × IsOneEnding (λ o. Entry (option_map (λ t. (string_bytes t.0, bstring_bytes t.1)) o)) (λ _. no_memory) ending result }
    // What nothing refuses.
    ensures deleted { (number place : ℕ) (old new : State) → new ≡ apply (DeleteAt number place) old → Ends (DeleteAt number place) old (Ok Done) new }
    ensures placed { (meta : Meta) (old new : State) → new ≡ apply (SetMeta meta) old → Ends (SetMeta meta) old (Ok Done) new }
    // A section that is made, or put in, where an editor of it is returned; the file is then as the editor has it.
    ensures made { (name : List ℕ) (subsection : Option (List ℕ)) (result : Result (SectionMut Spacing) HeaderError) (old new : State)
        → IfOk result (λ e. edited e ≡ done (NewSection name subsection) old) → IfOk result (λ e. told e ≡ editor_at old (new_section name subsection old))
        → IsRefusedFor header_refusal (first_cause (causes (NewSection name subsection) old)) result → IfOk result (λ e. new ≡ edited e)
        → OnErr result (new ≡ old) → (ending : Ending) × Ends (NewSection name subsection) old ending new
        × IsOneEnding (λ e. Number (number_of e)) header_refusal ending result }
    ensures put_in { (detached : Detached) (result : Result (SectionMut Spacing) ℕ) (old new : State)
        → IfOk result (λ e. edited e ≡ done (PushSection detached) old) → IfOk result (λ e. told e ≡ (old.next, editor_of (edited e) detached.section))
        → IsRefusedFor span_refusal (first_cause (causes (PushSection detached) old)) result → IfOk result (λ e. new ≡ edited e)
        → OnErr result (new ≡ old) → (ending : Ending) × Ends (PushSection detached) old ending new
        × IsOneEnding (λ e. Number (number_of e)) span_refusal ending result }
    // One that is found changes nothing, and one that isn't is made.
    ensures found_or_made { (name : List ℕ) (subsection : Option (List ℕ)) (found : Option SectionState) (result : Result (SectionMut Spacing) HeaderError)
        (old new : State) → IsFoundOrMadeOf edited told (editor_at old) name subsection found old result → IfOk result (λ e. new ≡ edited e)
        → OnErr result (new ≡ old) → ((s : SectionState) → found ≡ Some s → new ≡ old) × (found ≡ None → (ending : Ending)
        × Ends (NewSection name subsection) old ending new × IsOneEnding (λ e. Number (number_of e)) header_refusal ending result) }
{}

/// After calls that change a file, what is written of it reads back. It does after every list of them, done or refused, each as its
/// contract says.
///
/// The calls are all edits, values set and sections renamed whatever a filter answers, values of existing entries set, one or several,
/// entries deleted, and includes resolved. The file was loaded,
/// whole or lossy, or has items such as a text may have and is clean: so is one that a loader made ([`beginnings`]). Of the calls it is
/// asked that edits are handed what the library makes ([`new_editors_are_editors`]); that no header has an empty name and no subsection;
/// that whitespace before names that was set is spaces and tabs; and that no file that is appended, or that a section names, has an entry
/// before its first section. Then the file after them is such a one again, the text that is written of it has exactly its document, and a
/// file that is loaded from this text has the same document and is equal to it.
pub fn headline()
    ensures kept { (calls : List Call) (old new : State) (runs : Runs calls old new) → AreCleanCalls calls old new runs → HasItems old → IsClean old
        → HasItems new × IsClean new }
    ensures reads { (calls : List Call) (old new : State) (runs : Runs calls old new) → AreCleanCalls calls old new runs → HasItems old → IsClean old
        → Reads (printed new) (document_of new) }
    ensures loaded { (text : List ℕ) (parts : List Part) (place : Meta) (bytes : ℕ) (calls : List Call) (old new : State)
        → IsText text parts → IsMade (tokens_of parts) place bytes old → (runs : Runs calls old new) → AreCleanCalls calls old new runs
        → Reads (printed new) (document_of new) }
    ensures lossy { (text : List ℕ) (parts : List Part) (place : Meta) (bytes : ℕ) (calls : List Call) (old new : State)
        → IsText text parts → IsMade (filter (keeps_token keeps_meaning) (tokens_of parts)) place bytes old → entries_of old.front ≡ []
        → (runs : Runs calls old new) → AreCleanCalls calls old new runs → Reads (printed new) (document_of new) }
    ensures unedited { (text : List ℕ) (parts : List Part) (place : Meta) (bytes : ℕ) (file : State) → IsText text parts
        → IsMade (tokens_of parts) place bytes file
        → Inserted (map spelled_token (tokens_of parts)) (printed file) × (IsByteForByte parts → printed file ≡ unmarked text) }
    ensures again { (parts : List Part) (place : Meta) (bytes : ℕ) (new again : State) → Reads (printed new) (document_of new)
        → IsText (printed new) parts → IsMade (tokens_of parts) place bytes again → (document_of again ≡ document_of new) × AreEqual again new }
    ensures lookups { (one other : State) (key : Key) → document_of one ≡ document_of other → (value_at key (λ _. true) one ≡ value_at key (λ _. true) other)
        × (values_at key (λ _. true) one ≡ values_at key (λ _. true) other) × (implicit_at key (λ _. true) one ≡ implicit_at key (λ _. true) other) }
{}
