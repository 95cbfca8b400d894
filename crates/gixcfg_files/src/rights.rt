//! Which file it is, whose it is, and who may do what with it.

use std::fs::Metadata;
use std::os::unix::fs::MetadataExt;

/// Which file it is: while it is there, or open, no other one has both numbers.
#[derive(Clone, Copy, PartialEq, Eq)]
pub struct Identity {
    device: u64,
    number: u64,
}

impl Identity {
    /// The file of which that is said.
    pub fn of(metadata: &Metadata) -> Identity {
        Identity {
            device: metadata.dev(),
            number: metadata.ino(),
        }
    }
}

/// Whose a file is, and who may do what with it.
#[derive(Clone, Copy, PartialEq, Eq)]
pub struct Rights {
    /// The number of its owner.
    pub owner: u32,
    /// The number of its group.
    pub group: u32,
    /// The bits of its mode.
    pub mode: u32,
}

/// The file that is edited, as it was when it was opened.
#[derive(Clone, Copy, PartialEq, Eq)]
pub struct Original {
    pub identity: Identity,
    pub rights: Rights,
}

impl Original {
    /// The file of which that is said.
    pub fn of(metadata: &Metadata) -> Original {
        Original {
            identity: Identity::of(metadata),
            rights: Rights {
                owner: metadata.uid(),
                group: metadata.gid(),
                mode: metadata.mode(),
            },
        }
    }
}
