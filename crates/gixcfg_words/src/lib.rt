//! The words of a call of `gixcfg`: which command they are, with what it has, and what is wrong with words that aren't understood. It
//! knows nothing of files.
#![tactic(auto)]

pub mod command;
pub mod fault;
mod given;
pub mod help;
pub mod keys;
pub mod kinds;
mod nearest;
mod of_git;
mod options;
mod parts;
pub mod plain;
pub mod rules;
pub mod shown;
mod spelled;
pub mod verbs;
mod words;

pub use words::{has_options, read};

/// What `--version` prints: the name, the version, and the logic of the toolchain that the sources are proved with, which `rt version`
/// tells too.
pub const VERSION: &str = "gixcfg 0.1.0 (rattle, logic dac8208d650f15bf)\n";
