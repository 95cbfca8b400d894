//! What texts and states are made of: spans of a buffer, events, entries and items, with their bytes; and writers.
#![tactic(auto)]

pub mod decode;
pub mod entry;
pub mod event;
pub mod event_ref;
pub mod events;
pub mod few;
pub mod items;
pub mod lend;
pub mod moving;
pub mod section_sink;
pub mod sink;
pub mod stripping;
