//! Tests of what is below files: sources, metadata, home directories, hosts in memory, keys, names, tables of sections, events, lookups
//! in a text, writers that fail, the limit of spans, growths that are refused, the texts of errors. Also what the tests of files use
//! too.
#![tactic(auto)]

#[cfg(test)]
mod alone;
#[cfg(test)]
mod base;
#[cfg(test)]
mod events;
#[cfg(test)]
mod hosts;
#[cfg(test)]
mod lookups;
#[cfg(test)]
mod lookups_refused;
#[cfg(test)]
mod messages;
#[cfg(test)]
mod names;
pub mod narrow;
#[cfg(test)]
mod parse_messages;
#[cfg(test)]
mod parse_refused;
#[cfg(test)]
mod paths;
#[cfg(test)]
mod refused;
pub mod shim;
#[cfg(test)]
mod tables;
pub mod texts;
pub mod users;
#[cfg(test)]
mod writers;
