//! Sections: the names of sections and of their values, and headers that are made.

pub mod bytes;
pub mod header;
mod name_errors;
mod names;
pub mod unvalidated;

pub use name_errors::{NameError, ValueNameError};
pub use names::{Name, ValueName};
