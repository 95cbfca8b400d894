//! The state of a git-config file over one buffer with spans: how it is made, looked up, edited and printed.
#![tactic(auto)]

mod equality;
mod headings;
pub mod laws;
pub mod rename_section;
pub mod set_raw_value;
pub mod store;
