//! What holds of the texts that are written, for all states: each law is a function that does nothing.
ghost use Rattle.std.specs.Prelude.{◌≡◌, ℕ, List, [], ◌∷◌, map, flat_map};
ghost use Rattle.std.specs.Option.{option_or, unwrap_or};
ghost use Rattle.gitconf_text.specs.Part.{Item, ItemPart, spelled_item, spelled};
ghost use Rattle.gitconf_state.specs.State.{SectionState, State};
ghost use Rattle.gitconf_state.specs.LineEnds.{section_line_end, file_line_end};
ghost use Rattle.gitconf_state.specs.Printing.{ends_with_line, held_items, printed_section};
ghost use Rattle.gitconf_items.specs.Items.{tokens_in};
ghost use Rattle.gitconf_print.specs.LineEnds.{first_newline, first_newline_of_bodies, both_end_line};
ghost use Rattle.gitconf_print.specs.Texts.{section_text, held_text};

/// What is written for a section is what a state prints of it. The same is true of what is held after it.
pub fn sections_are_printed()
    ensures items { (items : List Item) → spelled (map ItemPart items) ≡ flat_map spelled_item items }
    ensures section { (s : SectionState) → printed_section s ≡ section_text s.header s.items }
    ensures held { (line_end : List ℕ) (s : SectionState) → flat_map spelled_item (held_items line_end s) ≡ held_text line_end s.items s.held }
    ensures ended { (line_end : List ℕ) (s : SectionState) → ends_with_line line_end s ≡ both_end_line line_end s.items s.held }
{}

/// A section's line ending is that of its body's first newline. A file's is that of its front's first newline, or
/// otherwise of the first body with one. It is LF if there is none.
pub fn line_ends_are_told()
    ensures section { (s : SectionState) → section_line_end s ≡ unwrap_or (first_newline (tokens_in s.items)) (10 ∷ []) }
    ensures file { (state : State) → file_line_end state
        ≡ unwrap_or (option_or (first_newline (tokens_in state.front)) (first_newline_of_bodies state.sections)) (10 ∷ []) }
{}
