//! What holds of the definitions, for all values: each law is a function that does nothing.
ghost use Rattle.std.specs.Prelude.{◌≡◌, ℕ, List, true};
ghost use Rattle.gitconf_sources.specs.Key.{Key};
ghost use Rattle.gitconf_text.specs.Document.{Document, Reads};
ghost use Rattle.gitconf_state.specs.Lookup.{all_values, last_value, listed};
ghost use Rattle.gitconf_state.specs.State.{State, document_of};
ghost use Rattle.gitconf_parse.specs.Lookup.{value_of_key, values_of_key};

/// What lookups find in a file is what is found in its document. This holds wherever its sections come from.
pub fn a_file_is_looked_up_by_its_document()
    ensures value { (state : State) (key : Key) → last_value key.section key.subsection key.name (λ _. true) (listed state) ≡ value_of_key key (document_of state) }
    ensures values { (state : State) (key : Key) → all_values key.section key.subsection key.name (λ _. true) (listed state) ≡ values_of_key key (document_of state) }
{}

/// A file that has a text's document is looked up as the text itself. The one that is loaded from the text is such a
/// file.
pub fn a_text_is_looked_up_as_its_file()
    ensures value { (text : List ℕ) (d : Document) (state : State) (key : Key) → Reads text d → Reads text (document_of state)
        → value_of_key key d ≡ last_value key.section key.subsection key.name (λ _. true) (listed state) }
    ensures values { (text : List ℕ) (d : Document) (state : State) (key : Key) → Reads text d → Reads text (document_of state)
        → values_of_key key d ≡ all_values key.section key.subsection key.name (λ _. true) (listed state) }
{}
