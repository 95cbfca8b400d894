//! What raw values mean.
pub use gitconf_text::value::{Error, normalize};
