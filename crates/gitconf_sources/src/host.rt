//! Everything outside of the program that calls may ask, in one value.

use crate::env::Env;
use crate::files::Files;
use gitconf_values::Homes;

/// The places of configuration that a program knows. The Rust crate finds them itself; here the program sets them.
#[derive(Drop)]
pub struct Places {
    /// The path of the configuration installed with Git, or `None` if there is none.
    pub installation_config: Option<String>,
    /// The directory that the configuration of the whole machine is below, such as `etc/gitconfig`.
    pub system_prefix: String,
    /// The home directory of the user who runs the program, for `~/`.
    pub home: Option<String>,
    /// The home directories of users, for `~user/`.
    pub homes: Option<Homes>,
}

/// What a call may ask besides its arguments: files, variables of the environment, and places. A program makes one, and
/// passes it to each call that reads a file or asks for a variable.
#[derive(Drop)]
pub struct Host {
    /// Where files come from.
    pub files: Box<dyn Files>,
    /// Where variables come from.
    pub env: Box<dyn Env>,
    /// The places of configuration.
    pub places: Places,
}
