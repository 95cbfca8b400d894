//! Values that have a type: booleans, integers and paths.
pub use gitconf_values::integer::Suffix;
pub use gitconf_values::{Boolean, Homes, Integer, Path};
