//! The types that a value may be asked for in, as `git config --type` names them.
ghost use Rattle.std.specs.Prelude.{◌≡◌};
ghost use Rattle.gixcfg_words.specs.Kinds as kinds;

/// The type that a value is to have.
#[derive(Clone, Copy, PartialEq, Eq)]
pub enum Kind {
    /// A boolean.
    Bool,
    /// An integer.
    Int,
    /// A boolean, else an integer.
    BoolOrInt,
    /// A boolean, else any text.
    BoolOrStr,
    /// A path.
    Path,
    /// A date, as what is older than it expires.
    ExpiryDate,
    /// A color with attributes, as terminals are told it.
    Color,
}

/// The names of all types, as a message has them.
pub const KIND_NAMES: &str = "bool, int, bool-or-int, bool-or-str, path, expiry-date or color";

/// The type of this name, if there is one.
pub fn kind_named(word: &str) -> Option<Kind>
    ensures { result ≡ kinds.kind_named word.now }
{
    match word {
        "bool" => Some(Kind::Bool),
        "int" => Some(Kind::Int),
        "bool-or-int" => Some(Kind::BoolOrInt),
        "bool-or-str" => Some(Kind::BoolOrStr),
        "path" => Some(Kind::Path),
        "expiry-date" => Some(Kind::ExpiryDate),
        "color" => Some(Kind::Color),
        _ => None,
    }
}

impl Kind {
    /// Whether it is this one.
    pub(crate) fn is(self, other: Kind) -> bool
        ensures { result ≡ kinds.is_same_kind self other }
    {
        self as u8 == other as u8
    }
}
