//! The calls that were made on a directory, the last one first, and what they come to.
ghost use Rattle.std.specs.Prelude.{◌≡◌, Option, option_map};
ghost use Rattle.gixcfg_replacing.specs.Disk.{last_found};
ghost use Rattle.gixcfg_replacing.specs.Calls.{past, is_ours as is_ours_lem};

/// A call that changed a directory.
#[derive(Drop)]
pub enum Call {
    /// An empty file was made at a name.
    Made(Vec<u8>),
    /// The file at a second name was given the rights of the one at the first.
    Shared(Vec<u8>, Vec<u8>),
    /// The file at a name was given a text.
    Written(Vec<u8>, Vec<u8>),
    /// The text of the file at a name was written down.
    Synced(Vec<u8>),
    /// The file at a name was given another one.
    Renamed(Vec<u8>, Vec<u8>),
    /// The file at a name was removed.
    Removed(Vec<u8>),
    /// The names were written down.
    Settled,
    /// Others left this text at a name, or nothing.
    Found(Vec<u8>, Option<Vec<u8>>),
    /// A call failed.
    Fault,
}

/// The text that readers find at a name after these calls.
pub fn seen<'a>(calls: &'a [Call], name: &'a [u8]) -> Option<&'a [u8]>
    ensures { option_map (λ text. text.now) result ≡ last_found (past calls.entry.now name.entry.now) }
{
    let mut rest = calls;
    let mut sought = name;
    while let Some((call, older)) = rest.split_first() {
        match call {
            Call::Made(made) => {
                if made.as_slice() == sought {
                    return Some(&[]);
                }
            }
            Call::Written(written, text) => {
                if written.as_slice() == sought {
                    return Some(text.as_slice());
                }
            }
            Call::Renamed(from, to) => {
                if to.as_slice() == sought {
                    sought = from.as_slice();
                } else if from.as_slice() == sought {
                    return None;
                }
            }
            Call::Removed(removed) => {
                if removed.as_slice() == sought {
                    return None;
                }
            }
            Call::Found(at, found) => {
                if at.as_slice() == sought {
                    return found.as_deref();
                }
            }
            Call::Shared(_, _) | Call::Synced(_) | Call::Settled | Call::Fault => {}
        }
        rest = older;
    }
    None
}

/// Whether a name is ours after these calls: a file was made there, and not removed or renamed since.
pub fn is_ours(calls: &[Call], name: &[u8]) -> bool
    ensures { result ≡ is_ours_lem calls.now name.now }
{
    let mut rest = calls;
    while let Some((call, older)) = rest.split_first() {
        match call {
            Call::Made(at) => {
                if at.as_slice() == name {
                    return true;
                }
            }
            Call::Renamed(at, _) | Call::Removed(at) => {
                if at.as_slice() == name {
                    return false;
                }
            }
            Call::Shared(_, _)
            | Call::Written(_, _)
            | Call::Synced(_)
            | Call::Settled
            | Call::Found(_, _)
            | Call::Fault => {}
        }
        rest = older;
    }
    false
}
