//! Where git's files are; and the safe edit of a file on the disk: whatever fails, and whenever the process ends, the file is the
//! old one or the new one.
//!
//! What values determine is proved: paths, and which fault an error is. The standard library's contracts of files and variables say
//! nothing of what a disk or an environment answers; so of an edit it is proved what it asks for after which answers (`EditCalls`).
#![tactic(auto)]

mod calls;
mod ceilings;
mod edit_files;
mod fault;
mod folder;
mod left;
mod links;
mod lock;
mod made;
mod paths;
mod place;
mod places;
mod process;
mod reading;
mod repository;
mod rights;
mod sight;
mod variables;

pub use calls::{EditCalls, Found, System};
pub use edit_files::EditFiles;
pub use fault::Fault;
pub use folder::{DiskFolder, Manner, Spot};
pub use links::end_of_links;
pub use lock::Lock;
pub use made::Owner;
pub use place::{Place, Replaced, Replacement};
pub use places::{system_file, user_file};
pub use process::Process;
pub use reading::read;
pub use repository::{Repository, find_repository, is_own_file, repository_file};
pub use sight::find_file;
pub use variables::variable;
