//! What the commands of a script work on, how answers are written, and the commands: those that only look, at a text, a value, a path or a file, and
//! those that change or make a file, change the state of the script, or set what is outside. Each does one call of the library, or a few, and returns
//! their result.
#![tactic(auto)]

pub mod answer;
pub mod arguments;
pub mod changes;
mod edits;
mod expanding;
pub mod failing;
mod files;
pub mod kinds;
mod layout;
mod loading;
pub mod looks;
mod lookups;
mod outside;
mod parsing;
mod paths;
mod printing;
pub mod refusal;
pub mod rendering;
mod sections;
pub mod session;
pub mod surroundings;
mod typed;
mod values;
mod views;
pub mod writers;

// The program reaches the library through this crate, so that crates.txt has one path to it.
pub use gix_config;
