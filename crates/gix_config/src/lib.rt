//! Git's configuration files: read, looked up, edited and written, as the Rust crate gix-config does it, and proved to do so.
#![tactic(auto)]

pub mod diff;
pub mod file;
pub mod format;
pub mod glob;
pub mod host;
pub mod lookup;
pub mod merge;
pub mod parse;
pub mod refusals;
pub mod value;
pub mod values;

pub use file::File;
pub use gitconf_sources::key::{AsKey, KeyRef};
pub use gitconf_sources::source::{self, Source};
pub use gitconf_text::NoMemory;
pub use gitconf_values::Boolean;
pub use gitconf_values::integer::{self, Integer};
pub use gitconf_values::path::{self, Path};
