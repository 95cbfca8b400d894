//! The parser's cursor: each function reads at an offset of the text, adds its events, and returns the offset after what it read.
ghost use Rattle.std.specs.Prelude.{◌≡◌, ◌≤◌, ◌<◌, ◌^◌, ◌==◌, List, [], length, take, drop, count_by};
ghost use Rattle.gitconf_text.specs.Part.{Part};
ghost use Rattle.gitconf_text.specs.Document.{unmarked, IsText};
ghost use Rattle.gitconf_read.specs.Parsing.{IsReading, NoFault};
ghost use Rattle.gitconf_read.specs.declared.reading.ReadError.TheVariants.{Memory};

use crate::compact::EventVec;
use gitconf_text::NoMemory;
use part::parts;
use std::alloc::AllocFailed;

/// What was looked for where the text was refused.
#[derive(Clone, Copy, Debug)]
pub enum Expected {
    SectionHeader,
    Name,
    Value,
}

/// Where the text was refused.
#[derive(Clone, Copy)]
pub struct Fault {
    /// The offset, in bytes, from which on nothing can be read.
    pub at: usize,
    /// What was looked for there.
    pub expected: Expected,
}

/// Why a text was not read: a fault of it, or out of memory.
#[derive(Clone, Copy)]
pub enum ReadError {
    Memory,
    Fault(Fault),
}

impl From<NoMemory> for ReadError {
    ghost from_gives = { λ _ e. e ≡ Memory };

    fn from(_refused: NoMemory) -> ReadError {
        ReadError::Memory
    }
}

impl<T: Drop> From<AllocFailed<T>> for ReadError {
    ghost from_gives = { λ _ e. e ≡ Memory };

    fn from(_refused: AllocFailed<T>) -> ReadError {
        ReadError::Memory
    }
}

mod block;
mod class;
pub mod entry;
mod header;
pub mod item;
pub mod part;
pub mod run;
pub mod value;

/// How many bytes the mark EF BB BF takes at the front of a text.
pub fn mark_len(input: &[u8]) -> usize
    ensures unmarked { drop result input.now ≡ unmarked input.now }
    ensures line { count_by (λ b. b == 10) (take result input.now) ≡ 0 }
    ensures inside { result ≤ length input.now }
{
    if input.starts_with(b"\xEF\xBB\xBF") {
        3
    } else {
        0
    }
}

/// Reads the text into `events`, which are empty before: they are its tokens if it has a document, otherwise the
/// error says where and why it has none. One pass.
pub fn read(input: &[u8], events: &mut EventVec) -> Result<(), ReadError>
    requires fits { length input.now < 2 ^ 32 }
    requires empty { events.old ≡ [] }
    ensures found { IsReading input.now events.new result }
    // A text with a document is never refused.
    ensures only { (parts : List Part) → IsText input.now parts → NoFault result }
{
    parts(input, mark_len(input), events)
}
