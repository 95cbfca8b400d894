//! The commands of `gixcfg`: what each call does, on files, on what they include or on all that git reads. Files, variables, and the loads that
//! ask them, come from the runtime.
#![tactic(auto)]

mod at_once;
mod beginnings;
mod beside_git;
mod calls;
mod checks;
mod coloring;
mod differing;
mod edits;
mod effective;
mod emptied;
mod entries;
mod explaining;
mod including;
mod inclusions;
mod layouts;
mod library;
mod loads;
mod meant;
mod merging;
mod named;
mod naming;
mod parameters;
mod paths;
mod placing;
mod reads;
mod refusals;
mod system;
mod tracing;

pub use calls::{Invocation, Terminal, run_words, tell_ill_formed};
pub use loads::Loads;
pub use paths::{located, located_target};
pub use reads::{Asked, put_answer};
