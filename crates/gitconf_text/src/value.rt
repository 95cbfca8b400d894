//! Values: their meaning, and how a meaning is written.

mod decoding;
mod escaping;
mod refusal;

pub use decoding::normalize;
pub use escaping::{append_escaped, escape, escaped_len};
pub use refusal::Error;
