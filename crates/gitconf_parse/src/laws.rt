//! What holds of the definitions, for all values: each law is a function that does nothing.
ghost use Rattle.std.specs.Prelude.{◌≡◌, ◌==◌, Bool, true, not, List, ℕ};
ghost use Rattle.std.specs.Prelude.{filter};
ghost use Rattle.std.specs.List.{list_all, flat_map};
ghost use Rattle.gitconf_text.specs.Part.{Part};
ghost use Rattle.gitconf_text.specs.Document.{Document, IsText, Reads, gathered, unmarked};
ghost use Rattle.gitconf_text.specs.Stuck.{IsStuck};
ghost use Rattle.gitconf_text.specs.Token.{Token, spelled_token, tokens_of};
ghost use Rattle.gitconf_text.specs.Header.{is_spelling, unquoted};
ghost use Rattle.gitconf_items.specs.EventRef.{Shown, escaped_subsection};
ghost use Rattle.gitconf_items.specs.EventList.{EventList, IsParsed, IsSelected, IsSelection, IsWhole, keeps_token};
ghost use Rattle.gitconf_items.specs.TokenDocument.{SayDocument, keeps_meaning};

/// A subsection without LF may be in a header, and reads back as it was. It is spelled in quotes, with a backslash
/// before each `"` and `\`.
pub fn escaped_subsection_reads_back()
    ensures fits { (s : List ℕ) → list_all (λ b. not (b == 10)) s ≡ true → is_spelling (escaped_subsection s) ≡ true }
    ensures same { (s : List ℕ) → list_all (λ b. not (b == 10)) s ≡ true → unquoted (escaped_subsection s) ≡ s }
{}

/// A text has at most one document, and one list of tokens.
pub fn one_document()
    ensures document { (text : List ℕ) (document other : Document) → Reads text document → Reads text other → document ≡ other }
    ensures tokens { (text : List ℕ) (parts others : List Part) → IsText text parts → IsText text others → tokens_of parts ≡ tokens_of others }
{}

/// A text can't be read on at one place only: in one line, before one rest, and one kind of token was looked for there.
pub fn stuck_at_one_place()
    ensures { (text : List ℕ) (line other : ℕ) (rest rest_too kind kind_too : List ℕ) → IsStuck text line rest kind → IsStuck text other rest_too kind_too
        → (line ≡ other) × (rest ≡ rest_too) × (kind ≡ kind_too) }
{}

/// The spelled tokens of a text, one after the other, give it without its mark.
pub fn tokens_join()
    ensures { (text : List ℕ) (parts : List Part) → IsText text parts → flat_map spelled_token (tokens_of parts) ≡ unmarked text }
{}

/// Parts with the same tokens have the same document. The tokens that are left of a text without whitespace, line endings and
/// comments, all of these or some, are those of parts with the text's document.
pub fn lossy_tokens_have_the_document()
    ensures one { (parts others : List Part) → tokens_of parts ≡ tokens_of others → gathered parts ≡ gathered others }
    ensures lossy { (parts : List Part) → SayDocument (filter (keeps_token keeps_meaning) (tokens_of parts)) (gathered parts) }
    ensures selected { (parts : List Part) (tokens : List Token) → IsSelection true (tokens_of parts) tokens → SayDocument tokens (gathered parts) }
{}

/// Events of a text are the tokens of parts, and so make items by section. This holds without a filter, or with any that keeps each
/// name, separator and value.
pub fn kept_entries_make_items()
    ensures whole { (text : List ℕ) (list : EventList) → IsWhole text list → (parts : List Part) × (list.tokens ≡ tokens_of parts) }
    ensures kept { (p : Shown → Bool) (text : List ℕ) (list : EventList) → IsParsed p text list → list.keeps_entries ≡ true
        → (parts : List Part) × (list.tokens ≡ tokens_of parts) }
    ensures selected { (text : List ℕ) (list : EventList) → IsSelected text list → list.keeps_entries ≡ true
        → (parts : List Part) × (list.tokens ≡ tokens_of parts) }
{}
