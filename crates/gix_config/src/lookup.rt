//! What lookups of a [`File`](crate::File) are refused with, and lookups in a text that isn't loaded.
pub use gitconf_loaders::lookup::{Error, existing};
pub use gitconf_parse::lookup::{value_in, values_in};
