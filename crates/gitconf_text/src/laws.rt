//! What holds of the definitions, for all values: each law is a function that does nothing.
ghost use Rattle.std.specs.Prelude.{◌≡◌, ◌↔◌, ◌⊎◌, [], true, false, List, ℕ};
ghost use Rattle.std.specs.declared.cmp.Ordering.TheVariants.{Equal};
ghost use Rattle.gitconf_text.specs.Bytes.{fold};
ghost use Rattle.gitconf_text.specs.Stripped.{is_enclosed, stripped};
ghost use Rattle.gitconf_text.specs.Text.{begins_line_end};
ghost use Rattle.gitconf_text.specs.Value.{FitsValue, IsValue, plain, escaped};
ghost use Rattle.gitconf_text.specs.Names.{is_same_name, name_order, name_writes};

/// Equality, order and hash of names agree: they are those of the bytes without ASCII case.
///
/// Two names are equal if and only if those bytes are, `cmp` returns `Equal` if and only if they are, and equal names
/// feed a hasher the same bytes.
pub fn names_without_case()
    ensures equal { (a b : List ℕ) → (is_same_name a b ≡ true) ↔ (fold a ≡ fold b) }
    ensures order { (a b : List ℕ) → (name_order a b ≡ Equal) ↔ (fold a ≡ fold b) }
    ensures hash { (a b : List ℕ) → fold a ≡ fold b → name_writes a ≡ name_writes b }
{}

/// Quotes that enclose a raw text mean nothing: what is left when they are stripped has the same meaning, for all texts.
///
/// What is left is not enclosed again.
pub fn enclosing_quotes_mean_nothing()
    ensures meaning { (raw : List ℕ) → plain (stripped raw) ≡ plain raw }
    ensures bare { (raw : List ℕ) → is_enclosed (stripped raw) ≡ false }
{}

/// Decoding undoes escaping: the meaning of a value as it is written is what was to be written, for all bytes.
pub fn escaped_means_itself()
    ensures { (bytes : List ℕ) → plain (escaped bytes) ≡ bytes }
{}

/// A value as it is written is one value of one piece. This holds if a line ending or the end of the input follows it.
///
/// So its raw text is the written bytes, and its meaning is by `escaped_means_itself` what was to be written.
pub fn escaped_is_one_value()
    ensures fits { (bytes rest : List ℕ) → (rest ≡ []) ⊎ (begins_line_end rest ≡ true)
        → FitsValue (record { pieces = []; last = escaped bytes }) rest }
    ensures value { (bytes rest : List ℕ) → (rest ≡ []) ⊎ (begins_line_end rest ≡ true)
        → IsValue (escaped bytes) (escaped bytes) rest }
{}
