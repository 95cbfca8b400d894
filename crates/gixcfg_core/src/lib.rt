//! What `gixcfg` answers: entries with their values in the type that was asked for, as lines; why a call isn't done; how a refused text is
//! told: its place, what is wrong there, and its line with a mark under the place. And what lies around a call: streams, files, where
//! what is read comes from. All that needs no loaded file, so that it is proved beside the library's loads.
#![tactic(auto)]

pub mod c_strings;
pub mod closest;
pub mod colors;
pub mod comments;
pub mod conditions;
pub mod dates;
pub mod entries;
pub mod for_url;
pub mod git_reading;
pub mod lines;
pub mod message;
pub mod names;
pub mod numbers;
pub mod origins;
pub mod outside;
pub mod parts;
pub mod patterns;
pub mod place;
pub mod places;
mod posix;
pub mod quoted;
mod reason;
pub mod refusals;
pub mod showing;
pub mod streams;
pub mod telling;
pub mod texts;
pub mod trouble;
pub mod typed;
pub mod urls;
