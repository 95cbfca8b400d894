//! Writers that fail, and writers that take little at a time.

use gitconf_items::sink::{Sink, SinkFault};
use std::alloc::Global;
use std::test::Fail;

/// A writer that takes `width` bytes at a time until it has no room. Then it fails or takes nothing. It counts both.
#[derive(Drop)]
pub struct Narrow {
    taken: Vec<u8>,
    width: usize,
    room: usize,
    takes_nothing: bool,
    failures: u64,
}

impl Narrow {
    fn new(alloc: Global, width: usize, room: usize, takes_nothing: bool) -> Narrow {
        Narrow {
            taken: Vec::new(alloc),
            width,
            room,
            takes_nothing,
            failures: 0,
        }
    }
}

impl Sink for Narrow {
    ghost use Rattle.std.specs.Prelude.{Some};
    ghost use Rattle.gitconf_items.specs.Sink.{reported_count};

    ghost told = { λ s. Some s.taken.items };

    ghost faults = { λ s. reported_count s.failures };

    fn write(&mut self, text: &[u8]) -> Result<usize, SinkFault> {
        let part = &text[..text.len().min(self.width).min(self.room)];
        if part.is_empty() && !text.is_empty() {
            self.failures = self.failures.saturating_add(1);
            return if self.takes_nothing {
                Ok(0)
            } else {
                Err(SinkFault)
            };
        }
        if self.taken.extend_from_slice(part).is_err() {
            self.failures = self.failures.saturating_add(1);
            return Err(SinkFault);
        }
        self.room -= part.len();
        Ok(part.len())
    }
}

/// Whether a writer with room for the whole text gets it, `width` bytes at a time.
fn is_written<F: Fn(&mut Narrow) -> Result<(), SinkFault>>(
    alloc: Global,
    text: &[u8],
    width: usize,
    write: &F,
) -> bool
    requires { F.IsAlwaysCallable write.now }
{
    let mut out = Narrow::new(alloc, width, text.len(), false);
    let answer = write(&mut out);
    answer == Ok(()) && out.taken.as_slice() == text && out.failures == 0
}

/// Whether a writer with less room returns the fault once, and took what fits of the text.
fn is_cut_off<F: Fn(&mut Narrow) -> Result<(), SinkFault>>(
    text: &[u8],
    mut out: Narrow,
    write: &F,
) -> bool
    requires { F.IsAlwaysCallable write.now }
{
    let room = out.room;
    let answer = write(&mut out);
    answer == Err(SinkFault) && text.get(..room) == Some(out.taken.as_slice()) && out.failures == 1
}

/// A writer with enough room gets the whole text. So it is however little it takes at a time. One with less room
/// returns the fault once, and took what fits of the text.
pub fn check<F: Fn(&mut Narrow) -> Result<(), SinkFault>>(
    alloc: Global,
    text: &[u8],
    write: F,
) -> Result<(), Fail>
    requires { F.IsAlwaysCallable write }
{
    for width in [1, 2, 7, usize::MAX] {
        if !is_written(alloc, text, width, &write) {
            return Err(Fail::new("the whole text wasn't written"));
        }
        for room in 0..text.len() {
            let failing = Narrow::new(alloc, width, room, false);
            let full = Narrow::new(alloc, width, room, true);
            if !is_cut_off(text, failing, &write) || !is_cut_off(text, full, &write) {
                return Err(Fail::new(format_args!("with room for {room} bytes")));
            }
        }
    }
    Ok(())
}
