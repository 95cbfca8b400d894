//! What is outside of the program: files, variables of the environment, and the places where configuration is.
pub use gitconf_sources::{
    Env, EnvVar, FileFault, Files, Host, MemEnv, MemFile, MemFiles, Places, Stage, StorageLocation,
};
