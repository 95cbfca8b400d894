//! Which side a conflict goes to.

/// What becomes of a key that both sides changed, each otherwise.
#[derive(Clone, Copy, Debug, PartialEq, Eq)]
pub enum Favor {
    /// It stays a conflict. The merged file has what OURS says.
    Neither,
    /// It gets what OURS says.
    Ours,
    /// It gets what THEIRS says.
    Theirs,
    /// It gets the values of OURS, and behind them those of THEIRS that OURS hasn't.
    Union,
}
