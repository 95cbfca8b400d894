//! Two changes of one file merged, by what its entries mean.

pub use gitconf_merge::conflicts::{Conflict, Spot};
/// Laws of merging. Merging with an unchanged side gives what the other side says, and a swap of the sides changes
/// nothing but conflicts.
pub use gitconf_merge::laws;
pub use gitconf_merge::merging::{Error, Favor, Input, Merged, Texts, merge};
