//! What the system says where it doesn't do a call.

use std::io;

/// Why the system doesn't do a call.
#[derive(Clone, Copy)]
pub enum Refusal {
    /// Nothing is at the path.
    Missing,
    /// The rights of the file don't allow it.
    Forbidden,
    /// Something is at the path already.
    Taken,
    /// The path leads through what is no directory.
    NoFolder,
    /// A directory has no text.
    Folder,
    /// What is at the path is no link.
    NoLink,
    /// There is no room left.
    Full,
    /// The links at the path don't end.
    Loop,
    /// The other side of the stream has gone.
    Gone,
    /// Nothing of the program asks for it.
    Unknown,
}

impl Refusal {
    /// The error that Linux tells it by.
    pub fn error(self) -> io::Error {
        io::Error::from_raw_os_error(match self {
            Refusal::Missing => 2,
            Refusal::Forbidden => 13,
            Refusal::Taken => 17,
            Refusal::NoFolder => 20,
            Refusal::Folder => 21,
            Refusal::NoLink => 22,
            Refusal::Full => 28,
            Refusal::Loop => 40,
            Refusal::Unknown => 95,
            Refusal::Gone => 104,
        })
    }
}
