//! The reader of git-config files: from bytes to the tokens of a text, and how a text is refused.
#![tactic(auto)]

pub mod compact;
pub mod error;
pub mod reading;
