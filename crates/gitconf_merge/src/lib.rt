//! Two changes of one file merged by what its entries mean, and the text that this makes.
#![tactic(auto)]

mod changes;
pub mod conflicts;
mod deciding;
mod favor;
mod groups;
mod judging;
mod key;
pub mod laws;
pub mod merging;
mod outline;
mod patches;
mod placing;
mod plan;
mod sides;
mod uniting;
