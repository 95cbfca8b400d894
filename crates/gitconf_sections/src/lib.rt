//! The sections of a git configuration file with their bodies, in file order, found by number and by name through an index
//! over their names. The items of loaded sections are in one list, which they share.
#![tactic(auto)]

mod body;
pub mod held;
pub mod id;
mod index;
mod letters;
mod lists;
mod part;
pub mod row;
pub mod runs;
pub mod sections;
mod word;
