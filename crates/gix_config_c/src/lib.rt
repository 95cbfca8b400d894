//! Git's configuration files for programs in C.
//!
//! Each call answers a number: 0 when it is done, that of an error (docs/refusals.md), or another of those below. What a call does is said
//! by its contract for every content of every handle, also an empty one or one that holds something else.
#![tactic(auto)]

mod appending;
pub mod block;
mod comparing;
pub mod difference;
mod editing;
mod entries;
pub mod entry;
mod env_loads;
mod existing;
pub mod fault;
mod files;
mod filtered;
mod finding;
pub mod folders;
mod global_loads;
pub mod includes;
pub mod key;
pub mod layout;
mod layouts;
pub mod line;
mod lines;
mod lists;
pub mod load;
mod loading;
mod look_ups;
mod metas;
mod nth;
mod numbered;
pub mod object;
mod opening;
pub mod origin;
mod parts;
mod paths;
pub mod places;
mod reading;
mod repository_loads;
pub mod section;
mod section_lists;
mod section_texts;
mod sections;
mod setting;
pub mod slot;
mod telling;
pub mod text_meta;
mod texts;
pub mod told;
pub mod told_list;
mod told_places;
pub mod variables;
mod version;
pub mod view;
mod viewing;

/// The call is done.
pub const DONE: u32 = 0;

/// A text can't be read on at some place.
pub const UNEXPECTED_TOKEN: u32 = 1;

/// A text has more than 4294967295 bytes.
pub const INPUT_TOO_LARGE: u32 = 2;

/// The file would have more than 4294967295 bytes, or more sections than there are numbers.
pub const SPAN_TOO_LARGE: u32 = 3;

/// The name can't be that of a section that is made.
pub const INVALID_SECTION_NAME: u32 = 4;

/// The name can't be that of a subsection that is made.
pub const INVALID_SUBSECTION: u32 = 5;

/// The name can't be that of a value.
pub const INVALID_VALUE_NAME: u32 = 6;

/// No section has the name.
pub const SECTION_MISSING: u32 = 7;

/// No section of the name has the subsection.
pub const SUBSECTION_MISSING: u32 = 8;

/// The sections have no such value.
pub const KEY_MISSING: u32 = 9;

/// The value is not of the type asked for, or 64 bits don't hold it.
pub const BAD_VALUE: u32 = 11;

/// A path needs a directory that is not known, or is empty.
pub const MISSING_FOLDER: u32 = 12;

/// A path is not UTF-8.
pub const PATH_NOT_UTF8: u32 = 13;

/// The name of a path's user is not UTF-8.
pub const USER_NOT_UTF8: u32 = 14;

/// Files include each other too deeply.
pub const INCLUDE_DEPTH_EXCEEDED: u32 = 15;

/// The path of an include is relative, and its file has no path.
pub const MISSING_CONFIG_PATH: u32 = 16;

/// The condition of an include is about a repository, and there is none.
pub const MISSING_GIT_DIR: u32 = 17;

/// The repository's directory can't be resolved.
pub const REALPATH: u32 = 18;

/// A file that is included can't be opened.
pub const INCLUDE_NOT_OPENED: u32 = 19;

/// A file that is included can't be read.
pub const INCLUDE_NOT_READ: u32 = 20;

/// A file that is loaded can't be opened or read.
pub const FILE_NOT_READ: u32 = 21;

/// The key or the value that variables of the environment set is not UTF-8.
pub const ILLFORMED_VARIABLE: u32 = 22;

/// `GIT_CONFIG_COUNT` is no number.
pub const INVALID_CONFIG_COUNT: u32 = 23;

/// The variable of a key, such as `GIT_CONFIG_KEY_0`, is not set.
pub const INVALID_KEY_ID: u32 = 24;

/// The key that a variable sets has no dot.
pub const INVALID_KEY_VALUE: u32 = 25;

/// The variable of a value, such as `GIT_CONFIG_VALUE_0`, is not set.
pub const INVALID_VALUE_ID: u32 = 26;

/// Out of memory.
pub const OUT_OF_MEMORY: u32 = 27;

/// There is no such thing.
pub const NOTHING_THERE: u32 = 100;

/// A name is not UTF-8.
pub const NOT_UTF8: u32 = 101;

/// The handle is empty, or holds something else.
pub const WRONG_HANDLE: u32 = 102;

/// Nothing was told of a file that is needed: tell it, and call again.
pub const NOT_TOLD: u32 = 103;

/// No source, or no trust, has the number.
pub const NO_SUCH_NUMBER: u32 = 104;

/// Nothing was told of a variable that is needed: tell it, and call again.
pub const VARIABLE_NOT_TOLD: u32 = 105;
