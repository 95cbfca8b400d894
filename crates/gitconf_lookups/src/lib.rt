//! Walks over the sections of a file, what lookups find in them, whether two files have the same sections, and how sections are written.
#![tactic(auto)]

pub mod entries;
pub mod equality;
pub mod existing;
pub mod filters;
pub mod found;
pub mod places;
pub mod print;
pub mod texts;
pub mod tokens;
pub mod walk;
pub mod walks;
