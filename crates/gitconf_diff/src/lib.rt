//! What the sections of two files mean differently: sections sorted by their names, and the entries of each name compared.
#![tactic(auto)]

pub mod comparing;
pub mod difference;
pub mod differences;
pub mod differing;
pub mod laws;
pub mod mention;
pub mod owned;
pub mod sections;
pub mod setting;
pub mod settings;
