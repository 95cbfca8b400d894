//! The text of a file replaced in place, proved over a directory with a clock: while nobody else changes the file, a crash at any moment
//! leaves its old text or the new one, whole, and each end says what readers find.
#![tactic(auto)]

mod call;
mod edit;
mod ended;
mod folder;
mod logged;
mod names;

pub use call::{Call, seen};
pub use edit::replace;
pub use ended::{Edited, Ended};
pub use folder::Folder;
pub use logged::{FolderCalls, LoggedFolder};
pub use names::{draft_of, lock_of};
