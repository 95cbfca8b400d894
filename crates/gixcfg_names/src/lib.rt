//! The names that git knows, and what a file's settings have wrong beside them: misspelled names, values that aren't of their variable's
//! type or none of its words, names that git has given up, and settings that count for nothing since the file sets them again. It reads no file.
#![tactic(auto)]

pub mod findings;
pub mod known;
pub mod nearest;
pub mod rows;
mod table;
pub mod values;
