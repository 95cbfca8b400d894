//! Path patterns, as in the conditions of includes: Git's wildmatch in path mode.
#![tactic(auto)]

pub mod bracket;
pub mod front;
pub mod matcher;
pub mod places;
pub mod table;

pub use matcher::wildmatch;
pub use table::Table;
