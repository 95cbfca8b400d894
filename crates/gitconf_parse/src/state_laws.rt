//! What holds of the definitions, for all states: each law is a function that does nothing.
ghost use Rattle.std.specs.Prelude.{◌≡◌, ◌≤◌, ◌⊎◌, Bool, true, false, List, [], ℕ, filter, map, ◌∷◌, ◌++◌, ◌+◌, Option, Some};
ghost use Rattle.std.specs.Option.{option_map};
ghost use Rattle.std.specs.List.{list_all, list_any, AllByRecursion, flat_map};
ghost use Rattle.gitconf_text.specs.Value.{escaped};
ghost use Rattle.gitconf_text.specs.Names.{is_same_name};
ghost use Rattle.gitconf_text.specs.Part.{Assigned, Entry, Item, EntryItem, Part};
ghost use Rattle.gitconf_text.specs.Document.{IsText, gathered, unmarked, Reads};
ghost use Rattle.gitconf_text.specs.Token.{spelled_token, tokens_of};
ghost use Rattle.gitconf_sources.specs.Metadata.{Meta};
ghost use Rattle.gitconf_items.specs.EventRef.{Shown};
ghost use Rattle.gitconf_items.specs.EventList.{keeps_entry_token};
ghost use Rattle.gitconf_items.specs.TokenDocument.{keeps_meaning};
ghost use Rattle.gitconf_text.specs.Sections.{no_number};
ghost use Rattle.gitconf_state.specs.State.{State, AreNumbered, HasItems, IsState, document_of, entries_of, SectionState, section_document, document_of_kept};
ghost use Rattle.gitconf_state.specs.Printing.{printed, printed_kept, printed_section};
ghost use Rattle.gitconf_state.specs.Clean.{IsClean};
ghost use Rattle.gitconf_state.specs.Loads.{IsFullLoad, IsLoad, IsPartLoad};
ghost use Rattle.gitconf_state.specs.Inserted.{Inserted, IsByteForByte};
ghost use Rattle.gitconf_state.specs.LineEnds.{file_line_end};
ghost use Rattle.gitconf_state.specs.Equality.{AreEqual};
ghost use Rattle.gitconf_state.specs.Lookup.{is_named, listing, listed, said, last_value};
ghost use Rattle.gitconf_state.specs.Edit.{is_entry_of, spacing_of, new_entry, set_value, new_section, is_target, section_with, set_raw_value, with_used};
ghost use Rattle.gitconf_state.specs.Edits.{Edit, is_about, IsEdit, IsCleanEdit, AreEdits, AreCleanEdits, apply, apply_all, edited_number, finds_or_makes, IsOneChanged};
ghost use Rattle.gitconf_state.specs.Comments.{item_comments, comments_of, comments, comments_of_kept};

/// A state loaded from a text has items of a text. This holds also if a filter dropped blanks, line endings and comments. Loaded
/// whole it is clean and has the text's document; a lossy load, or any that kept what makes entries, has the document too, and is
/// clean if no entry comes before its first section.
pub fn loads_are_clean()
    ensures full { (text : List ℕ) (parts : List Part) (state : State) → IsText text parts → IsFullLoad parts state → HasItems state × IsClean state }
    ensures full_document { (text : List ℕ) (parts : List Part) (state : State) → IsText text parts → IsFullLoad parts state
        → document_of state ≡ gathered parts }
    ensures kept { (keeps : Shown → Bool) (text : List ℕ) (parts : List Part) (state : State)
        → list_all (keeps_entry_token keeps) (tokens_of parts) ≡ true → IsText text parts → IsLoad keeps parts state → HasItems state }
    ensures lossy { (text : List ℕ) (parts : List Part) (state : State) → IsText text parts → IsLoad keeps_meaning parts state
        → entries_of state.front ≡ [] → IsClean state }
    ensures lossy_document { (text : List ℕ) (parts : List Part) (state : State) → IsText text parts → IsLoad keeps_meaning parts state
        → document_of state ≡ gathered parts }
    ensures part { (text : List ℕ) (parts : List Part) (state : State) → IsText text parts → IsPartLoad parts state → HasItems state }
    ensures part_clean { (text : List ℕ) (parts : List Part) (state : State) → IsText text parts → IsPartLoad parts state
        → entries_of state.front ≡ [] → IsClean state }
    ensures part_document { (text : List ℕ) (parts : List Part) (state : State) → IsText text parts → IsPartLoad parts state
        → document_of state ≡ gathered parts }
{}

/// Loaded whole and printed, a text keeps the bytes of all its tokens, in order. Nothing is inserted but a line ending after some of them.
pub fn full_load_is_inserted()
    ensures { (text : List ℕ) (parts : List Part) (state : State) → IsText text parts → IsFullLoad parts state
        → Inserted (map spelled_token (tokens_of parts)) (printed state) }
{}

/// A text that meets these conditions is printed byte for byte, except for its mark. It is loaded whole, its line endings are of one
/// kind and it ends with one, each header is at the start of a line, no key is on a header's line or on another key's, and no value is
/// left open at the end.
pub fn byte_for_byte()
    ensures { (text : List ℕ) (parts : List Part) (state : State) → IsText text parts → IsFullLoad parts state → IsByteForByte parts
        → printed state ≡ unmarked text }
{}

/// The text of a section alone reads back: its document has the section, and nothing else.
pub fn printed_section_reads_back()
    ensures { (state : State) → HasItems state → IsClean state
        → AllByRecursion (λ s. Reads (printed_section s) (record { front = []; sections = section_document s ∷ [] })) state.sections }
{}

/// What is printed of a clean state with items of a text reads back. The text of the front and of the sections that a
/// filter keeps has their document, and the text of a state has that of the state.
pub fn printed_text_reads_back()
    ensures kept { (keeps : SectionState → Bool) (state : State) → HasItems state → IsClean state
        → Reads (printed_kept keeps state) (document_of_kept keeps state) }
    ensures all { (state : State) → HasItems state → IsClean state → Reads (printed state) (document_of state) }
{}

/// The comments of a printed text are those of what is printed, in order. They are the same, each with its mark, except for spaces, tabs
/// and CRs at their ends. The printed state is clean and has items of a text.
pub fn comments_are_kept()
    ensures kept { (keeps : SectionState → Bool) (state : State) → HasItems state → IsClean state
        → (parts : List Part) → IsText (printed_kept keeps state) parts → comments_of parts ≡ comments_of_kept keeps state }
    ensures all { (state : State) → HasItems state → IsClean state
        → (parts : List Part) → IsText (printed state) parts → comments_of parts ≡ comments state }
    ensures section { (state : State) → HasItems state → IsClean state
        → AllByRecursion (λ s. (parts : List Part) → IsText (printed_section s) parts → comments_of parts ≡ flat_map item_comments s.items) state.sections }
{}

/// An edit leaves items of a text, if what it writes may be in one. The state that is edited has to have such items. An edit leaves a
/// clean state clean, if its headers have a name or a subsection and what it puts in is clean. So does a list of edits. Edits give no
/// number twice.
pub fn edits_keep_states()
    ensures items { (edit : Edit) (state : State) → IsEdit edit state → HasItems state → HasItems (apply edit state) }
    ensures clean { (edit : Edit) (state : State) → IsCleanEdit edit → IsClean state → IsClean (apply edit state) }
    ensures all_items { (edits : List Edit) (state : State) → AreEdits edits state → HasItems state → HasItems (apply_all edits state) }
    ensures all_clean { (edits : List Edit) (state : State) → AreCleanEdits edits → IsClean state → IsClean (apply_all edits state) }
    ensures numbers { (edits : List Edit) (state : State) → AreNumbered state.next state.sections
        → AreNumbered (apply_all edits state).next (apply_all edits state).sections }
    ensures state { (edits : List Edit) (state : State) → AreEdits edits state → IsState state → (apply_all edits state).next ≤ no_number
        → IsState (apply_all edits state) }
{}

/// An editor's edit changes only the section of its number, and no section's number.
pub fn an_editor_changes_one_section()
    ensures { (edit : Edit) (number : ℕ) (state : State) → edited_number edit ≡ Some number → IsOneChanged number state (apply edit state) }
{}

/// The text of an edited state reads back: it has the document that the edits leave, for the whole, for the sections that a filter keeps,
/// and for each section alone, with its comments. So this is a round trip from the bytes of an accepted text, loaded whole, through any
/// list of edits, to the bytes that are written.
pub fn edited_text_reads_back()
    ensures state { (edits : List Edit) (state : State) → AreEdits edits state → AreCleanEdits edits → HasItems state → IsClean state
        → Reads (printed (apply_all edits state)) (document_of (apply_all edits state)) }
    ensures kept { (edits : List Edit) (keeps : SectionState → Bool) (state : State) → AreEdits edits state → AreCleanEdits edits → HasItems state
        → IsClean state
        → Reads (printed_kept keeps (apply_all edits state)) (document_of_kept keeps (apply_all edits state)) }
    ensures section { (edits : List Edit) (state : State) → AreEdits edits state → AreCleanEdits edits → HasItems state → IsClean state
        → AllByRecursion (λ s. Reads (printed_section s) (record { front = []; sections = section_document s ∷ [] })) (apply_all edits state).sections }
    ensures comments { (edits : List Edit) (keeps : SectionState → Bool) (state : State) → AreEdits edits state → AreCleanEdits edits
        → HasItems state → IsClean state
        → (parts : List Part) → IsText (printed_kept keeps (apply_all edits state)) parts → comments_of parts ≡ comments_of_kept keeps (apply_all edits state) }
    ensures text { (edits : List Edit) (text : List ℕ) (parts : List Part) (state : State) → IsText text parts → IsFullLoad parts state
        → AreEdits edits state → AreCleanEdits edits
        → Reads (printed (apply_all edits state)) (document_of (apply_all edits state)) }
{}

/// No edit depends on how many bytes a buffer has. No text or document shows it either. So calls that leave the state of an edit except
/// for this number leave that of all edits, one after the other, except for it.
pub fn used_bytes_are_not_asked()
    ensures edits { (edits : List Edit) (used : ℕ) (state : State) → apply_all edits (with_used used state) ≡ with_used used (apply_all edits state) }
    ensures names { (edits : List Edit) (used : ℕ) (state : State) → AreEdits edits state → AreEdits edits (with_used used state) }
    ensures text { (used : ℕ) (state : State) → printed (with_used used state) ≡ printed state }
    ensures document { (used : ℕ) (state : State) → document_of (with_used used state) ≡ document_of state }
{}

/// An edit leaves what is said of every key that it is not about: so all lookups of these keys, whatever the filter, return what they
/// returned before.
pub fn edits_leave_other_keys()
    ensures { (edit : Edit) (name : List ℕ) (subsection : Option (List ℕ)) (key : List ℕ) (state : State) → IsEdit edit state
        → is_about edit name subsection key state ≡ false
        → said name subsection key (listed (apply edit state)) ≡ said name subsection key (listed state) }
{}

/// Lookups depend on the number of each section, where it comes from, and its document: states that agree in these are listed alike, and
/// every lookup returns the same. So a lossy load of a text returns for each lookup what the full one returns.
pub fn look_ups_ask_documents()
    ensures listed { (one other : State) → map section_document one.sections ≡ map section_document other.sections
        → map (λ s. s.number) one.sections ≡ map (λ s. s.number) other.sections → map (λ s. s.meta) one.sections ≡ map (λ s. s.meta) other.sections
        → listed one ≡ listed other }
    ensures lossy { (parts : List Part) (full lossy : State) → IsFullLoad parts full → IsLoad keeps_meaning parts lossy
        → map (λ s. s.number) lossy.sections ≡ map (λ s. s.number) full.sections → map (λ s. s.meta) lossy.sections ≡ map (λ s. s.meta) full.sections
        → listed lossy ≡ listed full }
{}

/// Equality of files is an equivalence. Files whose sections have the same documents are equal.
pub fn equality_is_an_equivalence()
    ensures same { (state : State) → AreEqual state state }
    ensures turned { (one other : State) → AreEqual one other → AreEqual other one }
    ensures chained { (one other third : State) → AreEqual one other → AreEqual other third → AreEqual one third }
    ensures documents { (one other : State) → map section_document one.sections ≡ map section_document other.sections → AreEqual one other }
{}

/// A value that was set is found by its name, subsection and key. This holds if the lookup keeps the sections that the
/// edit keeps and would keep a new one.
pub fn set_value_is_found()
    ensures found { (name : List ℕ) (subsection : Option (List ℕ)) (key value : List ℕ) (state : State)
        → finds_or_makes name subsection (λ _. true) state ≡ true
        → last_value name subsection key (λ _. true) (listed (set_raw_value name subsection key (λ _. true) value state)) ≡ Some value }
    ensures filtered { (name : List ℕ) (subsection : Option (List ℕ)) (key : List ℕ) (keeps : Meta → Bool) (value : List ℕ) (state : State)
        → finds_or_makes name subsection keeps state ≡ true → keeps state.meta ≡ true
        → last_value name subsection key keeps (listed (set_raw_value name subsection key keeps value state)) ≡ Some value }
{}

/// Setting a value changes the last section of the name and subsection that passes. It changes only the items of it. If none
/// passes, a new section follows all others.
pub fn set_value_changes_one_section()
    ensures file { (name : List ℕ) (subsection : Option (List ℕ)) (key : List ℕ) (keeps : Meta → Bool) (value : List ℕ) (state : State)
        → ((set_raw_value name subsection key keeps value state).front ≡ state.front)
        × ((set_raw_value name subsection key keeps value state).meta ≡ state.meta)
        × ((set_raw_value name subsection key keeps value state).used ≡ state.used) }
    ensures found { (name : List ℕ) (subsection : Option (List ℕ)) (key : List ℕ) (keeps : Meta → Bool) (value : List ℕ) (state : State)
        → (before : List SectionState) (s : SectionState) (behind : List SectionState) → state.sections ≡ before ++ s ∷ behind
        → is_target name subsection keeps s ≡ true → list_any (is_target name subsection keeps) behind ≡ false
        → ((set_raw_value name subsection key keeps value state).next ≡ state.next)
        × ((set_raw_value name subsection key keeps value state).sections ≡ before ++ section_with (file_line_end state) key value s ∷ behind) }
    ensures made { (name : List ℕ) (subsection : Option (List ℕ)) (key : List ℕ) (keeps : Meta → Bool) (value : List ℕ) (state : State)
        → list_any (is_target name subsection keeps) state.sections ≡ false
        → ((set_raw_value name subsection key keeps value state).next ≡ state.next + 1)
        × ((set_raw_value name subsection key keeps value state).sections
        ≡ state.sections ++ section_with (file_line_end state) key value (new_section name subsection state) ∷ []) }
    ensures section { (line_end key value : List ℕ) (s : SectionState)
        → ((section_with line_end key value s).number ≡ s.number) × ((section_with line_end key value s).header ≡ s.header)
        × ((section_with line_end key value s).meta ≡ s.meta) × ((section_with line_end key value s).held ≡ s.held) }
{}

/// Of a section's items, setting a value changes only the key's last entry. That entry keeps its name as spelled. Without an entry of
/// the key, a new one follows all others.
pub fn set_value_changes_one_entry()
    ensures found { (line_end key value : List ℕ) (items before : List Item) (e : Entry) (behind : List Item) → items ≡ before ++ EntryItem e ∷ behind
        → is_same_name key e.name ≡ true → list_any (is_entry_of key) behind ≡ false
        → (d : Entry) × (d.name ≡ e.name) × (option_map (λ (a : Assigned). a.value) d.assigned ≡ Some (record { pieces = []; last = escaped value }))
        × (set_value line_end key value items ≡ before ++ EntryItem d ∷ behind) }
    ensures made { (line_end key value : List ℕ) (items : List Item) → list_any (is_entry_of key) items ≡ false
        → set_value line_end key value items ≡ items ++ new_entry (spacing_of items) line_end key value }
{}

/// Setting a value leaves what is said of every other key, in any section. It also leaves the sections of every other name or subsection.
pub fn set_value_leaves_others()
    ensures keys { (name : List ℕ) (subsection : Option (List ℕ)) (key : List ℕ) (keeps : Meta → Bool) (value : List ℕ) (state : State)
        → (other_name : List ℕ) (other_subsection : Option (List ℕ)) (other : List ℕ) → is_same_name key other ≡ false
        → said other_name other_subsection other (listed (set_raw_value name subsection key keeps value state))
        ≡ said other_name other_subsection other (listed state) }
    ensures sections { (name : List ℕ) (subsection : Option (List ℕ)) (key : List ℕ) (keeps : Meta → Bool) (value : List ℕ) (state : State)
        → (other_name : List ℕ) (other_subsection : Option (List ℕ)) → finds_or_makes name subsection keeps state ≡ true
        → (is_same_name name other_name ≡ false) ⊎ (subsection ≡ other_subsection → ⊥)
        → filter (λ s. is_named other_name other_subsection (listing s)) (set_raw_value name subsection key keeps value state).sections
        ≡ filter (λ s. is_named other_name other_subsection (listing s)) state.sections }
{}
