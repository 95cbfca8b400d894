//! The text layer of git's configuration files.
#![tactic(auto)]

pub mod laws;
pub mod line_end;
pub mod memory;
pub mod parse;
pub mod value;

pub use memory::NoMemory;
