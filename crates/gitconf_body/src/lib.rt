//! The body of a section: its lines and blanks, its entries and what they mean, and how its items are edited, removed and copied in a buffer
//! that only grows.
#![tactic(auto)]

pub mod blanks;
pub mod buffer;
pub mod copying;
pub mod editor;
pub mod entries;
pub mod entry;
pub mod heading;
pub mod items_edit;
pub mod items_edits;
pub mod marked;
pub mod meanings;
pub mod popped;
pub mod push;
pub mod push_below;
pub mod section;
pub mod seeking;
pub mod set;
pub mod spacing;
pub mod take_out;
pub mod value;
pub mod value_at;
pub mod values;
