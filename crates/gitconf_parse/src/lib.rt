//! Whole texts: their events, their sections as they are loaded, a value found in one pass; and the laws of texts and of states.
#![tactic(auto)]

pub mod events;
mod grouping;
pub mod input;
pub mod laws;
pub mod loading;
pub mod lookup;
pub mod lookup_laws;
pub mod state_laws;
