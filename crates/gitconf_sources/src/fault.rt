//! Faults of files.
/// Where reading a file failed: when it was opened, when it was read, or when memory ran out.
#[derive(Clone, Copy, PartialEq, Eq, PartialOrd, Ord, Hash, Debug)]
pub enum Stage {
    Open,
    Read,
    Memory,
}

/// Why a source of files couldn't give a file.
#[derive(Clone, Copy, PartialEq, Eq, PartialOrd, Ord, Hash, Debug)]
pub struct FileFault {
    /// Where it failed.
    pub stage: Stage,
    /// Whether it failed because there is no such file.
    pub not_found: bool,
}
