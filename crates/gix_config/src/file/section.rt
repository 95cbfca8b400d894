//! Views of a section's parts, and why values are not written to it.
pub use gitconf_body::value;
pub use gitconf_views::views::{BodyRef, BodyRefIter, HeaderRef, ValueNames};
