//! What a crash leaves of a folder in memory, by chance.
ghost use Rattle.std.specs.Prelude.{◌≡◌};
ghost use Rattle.gixcfg_replacing.specs.Calls.{is_synced as is_synced_lem};

use gixcfg_replacing::{Call, seen};
use std::alloc::{AllocError, Global};

/// A chance that is the same at each run.
#[derive(Clone, Copy)]
pub struct Chance {
    state: u64,
}

impl Chance {
    /// The chance that begins with a seed.
    pub fn new(seed: u64) -> Chance {
        Chance { state: seed }
    }

    /// A number below that one, or 0.
    pub fn below(&mut self, end: usize) -> usize {
        self.state = self
            .state
            .wrapping_mul(6364136223846793005)
            .wrapping_add(1442695040888963407);
        match end {
            0 => 0,
            _ => (self.state >> 33) as usize % end,
        }
    }

    /// Whether it is so, one time in two.
    pub fn is_so(&mut self) -> bool {
        self.below(2) == 0
    }
}

/// What a crash after these calls, the last one first, leaves at a name: what was written down, or by chance what came since, whole or torn where
/// it wasn't synced.
pub fn left_by_crash(
    alloc: Global,
    calls: &[Call],
    name: &[u8],
    chance: &mut Chance,
) -> Result<Option<Vec<u8>>, AllocError> {
    let mut rest = calls;
    while let Some((call, older)) = rest.split_first() {
        match call {
            Call::Settled => return held(alloc, older, name, chance),
            Call::Made(at) | Call::Written(at, _) | Call::Found(at, _) => {
                if at.as_slice() == name && chance.is_so() {
                    return held(alloc, rest, name, chance);
                }
            }
            Call::Renamed(from, to) => {
                if to.as_slice() == name && chance.is_so() {
                    return held(alloc, older, from.as_slice(), chance);
                }
                if from.as_slice() == name && chance.is_so() {
                    return Ok(None);
                }
            }
            Call::Removed(at) => {
                if at.as_slice() == name && chance.is_so() {
                    return Ok(None);
                }
            }
            Call::Shared(_, _) | Call::Synced(_) | Call::Fault => {}
        }
        rest = older;
    }
    Ok(None)
}

/// What a crash leaves of the file that is found at a name.
fn held(
    alloc: Global,
    calls: &[Call],
    name: &[u8],
    chance: &mut Chance,
) -> Result<Option<Vec<u8>>, AllocError> {
    let Some(text) = seen(calls, name) else {
        return Ok(None);
    };
    if is_synced(calls, name) {
        Ok(Some(Vec::from_slice(alloc, text)?))
    } else {
        Ok(Some(torn(alloc, text, chance)?))
    }
}

/// Whether the text of the file at a name is written down after these calls.
pub fn is_synced(calls: &[Call], name: &[u8]) -> bool
    ensures { result ≡ is_synced_lem calls.now name.now }
{
    let mut rest = calls;
    let mut at = name;
    while let Some((call, older)) = rest.split_first() {
        match call {
            Call::Made(made) => {
                if made.as_slice() == at {
                    return false;
                }
            }
            Call::Written(written, _) => {
                if written.as_slice() == at {
                    return false;
                }
            }
            Call::Synced(synced) => {
                if synced.as_slice() == at {
                    return true;
                }
            }
            Call::Renamed(from, to) => {
                if to.as_slice() == at {
                    at = from.as_slice();
                }
            }
            Call::Found(found, _) => {
                if found.as_slice() == at {
                    return false;
                }
            }
            Call::Shared(_, _) | Call::Removed(_) | Call::Settled | Call::Fault => {}
        }
        rest = older;
    }
    false
}

/// A text of which the end is lost, and some of the rest is zeros.
fn torn(alloc: Global, text: &[u8], chance: &mut Chance) -> Result<Vec<u8>, AllocError> {
    let mut left = Vec::from_slice(
        alloc,
        text.split_at(chance.below(text.len() + 1).min(text.len()))
            .0,
    )?;
    for byte in left.iter_mut() {
        if chance.below(8) == 0 {
            *byte = 0;
        }
    }
    Ok(left)
}
