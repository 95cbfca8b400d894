//! Sections of a file, as they are loaded, moved behind those of another, and looked at; and sections that are in no file, with their editor.
#![tactic(auto)]

mod debug;
pub mod detached;
pub mod fronts;
pub mod load;
pub mod section;
pub mod shifted_sections;
pub mod tables;
pub mod views;
