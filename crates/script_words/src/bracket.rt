//! How the program shows the shim that refuses growths (`tools/refuse.c`) where a command begins and where it ends: by
//! the sizes of two blocks, which no command asks for.
ghost use Rattle.std.specs.Prelude.{◌≡◌, ◌↔◌, true, IfOk, IsSome};

use std::alloc::{AllocError, Global};

const BEGIN: usize = 999_979;

const END: usize = 999_983;

/// Encloses what a command does, in which growths may be refused.
#[derive(Clone, Copy)]
pub struct Bracket {
    is_told: bool,
}

impl Bracket {
    /// From here on the shim may refuse a growth, if `is_told`.
    pub fn open(alloc: Global, is_told: bool) -> Result<Bracket, AllocError>
        ensures { IfOk result (λ b. b.is_told ≡ is_told) }
    {
        if is_told {
            let _block: Vec<u8> = Vec::with_capacity(alloc, BEGIN)?;
        }
        Ok(Bracket { is_told })
    }

    /// From here on it refuses none. Returns whether it refused one, since it then refuses this block too; `None`
    /// if nothing was shown to it.
    pub fn close(self, alloc: Global) -> Option<bool>
        ensures { IsSome result ↔ (self.is_told ≡ true) }
    {
        if !self.is_told {
            return None;
        }
        let block: Result<Vec<u8>, AllocError> = Vec::with_capacity(alloc, END);
        Some(block.is_err())
    }
}
