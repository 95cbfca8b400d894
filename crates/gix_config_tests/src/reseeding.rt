//! A file whose lookups use another seed.

use crate::calls::{KEY, TEXT, Told, change, is_text};
use gix_config::File;
use std::test::Fail;

/// A lookup returns what it returned before.
fn reseed(file: &mut File) -> Told {
    file.reseed(0x9e37_79b9_7f4a_7c15);
    is_text(&file.string(KEY), Some(b"2"))
}

#[test]
fn another_seed(rt: HostRuntime) -> Result<(), Fail> {
    change(rt.alloc(), "look-ups under another seed", reseed, TEXT)
}
