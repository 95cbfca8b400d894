//! Includes: which are followed, under which conditions, as options; which file a path names; and the expansion of a file over whatever
//! keeps its sections.
#![tactic(auto)]

pub mod conditions;
pub mod config_file;
pub mod expanding;
mod following;
pub mod includes;
pub mod init;
mod judging;
pub mod laws;
pub mod paths;
