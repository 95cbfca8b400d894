//! How a test talks to the shim that refuses an allocation (`tools/refuse.c`): by the sizes of two blocks.
//!
//! The shim, if it is loaded, learns by these blocks where a call begins and ends. In a process it refuses the first
//! allocation of the first call; the next one if it refused one in the last call; and the first one again after a call
//! in which it refused none. So each call is made until no allocation of it is refused, and then gives its full result. Before that, it
//! reports that memory ran out, and everything is as it was. Without the shim it is made once.
use std::alloc::{AllocError, Global};
use std::test::Fail;

const BEGIN: usize = 999_979;

const END: usize = 999_983;

/// More allocations than any call has.
pub const MOST: usize = 1000;

/// From here on allocations are counted, and one of them may be refused.
pub fn begin(alloc: Global) -> Result<(), AllocError> {
    let _block: Vec<u8> = Vec::with_capacity(alloc, BEGIN)?;
    Ok(())
}

/// From here on no allocation is refused. Returns whether one was refused since `begin`: then the shim refuses this one too.
pub fn was_refused(alloc: Global) -> bool {
    let block: Result<Vec<u8>, AllocError> = Vec::with_capacity(alloc, END);
    block.is_err()
}

/// How a call went in which an allocation may have been refused.
#[derive(Clone, Copy)]
pub struct Outcome {
    /// Whether an allocation was refused.
    pub refused: bool,
    /// Whether the result is the full one, or else reports that memory ran out. In the second case everything was left as it was.
    pub fits: bool,
}

/// Makes the call again and again, until no allocation of it is refused. Each of its outcomes has to fit.
pub fn each_refused<F: Fn(Global) -> Result<Outcome, Fail>>(
    alloc: Global,
    what: &str,
    call: F,
) -> Result<(), Fail>
    requires { F.IsAlwaysCallable call }
{
    for _ in 0..MOST {
        let outcome = call(alloc)?;
        if !outcome.fits {
            return Err(Fail::new(what));
        }
        if !outcome.refused {
            return Ok(());
        }
    }
    Err(Fail::new("too many growths"))
}
