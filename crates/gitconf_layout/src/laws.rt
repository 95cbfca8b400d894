//! What holds of layouts, for all texts and options: each law is a function that does nothing.
ghost use Rattle.std.specs.Prelude.{◌≡◌, ℕ, List, true, false};
ghost use Rattle.gitconf_text.specs.Part.{Part};
ghost use Rattle.gitconf_text.specs.Document.{IsText};
ghost use Rattle.gitconf_layout.specs.Kept.{Keeps, EndsOnce, HoldLineEnd, has_no_cr, line_end_in};
ghost use Rattle.gitconf_layout.specs.Layout.{layout};
ghost use Rattle.gitconf_layout.specs.declared.format.Options.{Options};

/// The layout of a text has the text's document and its comments, whatever the options.
///
/// So no two tokens are joined, and none is lost. Comments are compared without the blanks and CRs at their ends.
pub fn layouts_keep_documents()
    ensures { (options : Options) (text : List ℕ) (parts : List Part) → IsText text parts → Keeps parts (layout options parts) }
{}

/// If it is asked for, a nonempty text ends with exactly one line ending.
pub fn layouts_end_once()
    ensures { (options : Options) (parts : List Part) → options.ensure_trailing_newline ≡ true → EndsOnce (layout options parts) }
{}

/// Each newline of a layout is the chosen line ending, once or more often. This holds if no comment of the text ends with a
/// CR.
///
/// So `Detect` finds the line ending of a text in its layout too, if that has a newline.
pub fn layouts_hold_their_line_end()
    ensures { (options : Options) (text : List ℕ) (parts read : List Part) → IsText text parts → has_no_cr parts ≡ true
        → IsText (layout options parts) read → HoldLineEnd (line_end_in options parts) read }
{}

/// A layout that is formatted again by the same options stays as it is. This holds if no comment of the text ends with a CR.
pub fn layouts_stay()
    ensures { (options : Options) (text : List ℕ) (parts read : List Part) → IsText text parts → has_no_cr parts ≡ true
        → IsText (layout options parts) read → layout options read ≡ layout options parts }
{}
