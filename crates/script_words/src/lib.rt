//! Scripts as lines of words: what is read of a line, what is written of an answer, and the streams of both. It knows
//! nothing of files; docs/scripts.md has the language.
#![tactic(auto)]

pub mod answers;
pub mod arguments;
pub mod blocks;
pub mod bracket;
pub mod commands;
pub mod editor_arguments;
pub mod editors;
pub mod kinds;
pub mod layouts;
pub mod loading;
pub mod outside;
pub mod play;
pub mod turns;
pub mod words;
