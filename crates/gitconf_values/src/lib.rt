//! Values of git's configuration that have a type: booleans, integers and paths.
#![tactic(auto)]

pub mod boolean;
pub mod integer;
mod number;
pub mod path;

pub use boolean::Boolean;
pub use integer::Integer;
pub use path::Path;
pub use path::interpolate::Homes;
