//! The formatter of texts.
pub use gitconf_layout::format::{Indent, Newline, Options, normalize};
