//! Files loaded by paths and expanded, the configuration of the machine and of the user, the entries that variables set; why loads are
//! refused, and the numbers of all errors.
#![tactic(auto)]

mod expansion;
pub mod from_env;
pub mod from_git_dir;
pub mod from_paths;
pub mod gathering;
pub mod globals;
pub mod laws;
pub mod lookup;
pub mod paths;
pub mod refusals;
pub mod resolving;
pub mod variables;
