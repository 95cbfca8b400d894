//! What the parser reads, and how it refuses.

pub mod section;
pub mod span;
