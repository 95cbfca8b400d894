//! Where configuration comes from: keys, sources and metadata; the files and variables of a host, in memory and on the real system; where
//! git's files are, and which of them are there.
#![tactic(auto)]

mod disk;
mod env;
mod fault;
mod files;
mod found;
mod host;
pub mod key;
pub mod laws;
pub mod lists;
mod mem_env;
mod mem_files;
pub mod meta;
mod process;
mod random;
pub mod source;
mod storage;

pub use disk::Disk;
pub use env::{Env, EnvVar};
pub use fault::{FileFault, Stage};
pub use files::Files;
pub use found::all_found;
pub use host::{Host, Places};
pub use mem_env::MemEnv;
pub use mem_files::{MemFile, MemFiles};
pub use process::Process;
pub use random::seed;
pub use storage::StorageLocation;
