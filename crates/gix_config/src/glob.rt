//! Path patterns, as in the conditions of includes.
pub use gitconf_glob::{Table, wildmatch};
