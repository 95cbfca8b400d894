//! Writing what a file's state is made of: items, headers and sections, to any sink.
#![tactic(auto)]

pub mod items;
pub mod laws;
pub mod line_end;
mod open;
mod runs;
pub mod sections;
