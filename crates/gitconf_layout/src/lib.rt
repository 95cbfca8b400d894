//! The layout of a text: its lines written again, with the same document and comments.
#![tactic(auto)]

pub mod format;
pub mod laws;
pub mod place;
mod setting;
mod trimming;
