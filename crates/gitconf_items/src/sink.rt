//! Writers that count their failures.
ghost use Rattle.std.specs.Prelude.{◌≡◌, ◌<◌, ◌≤◌, [], List, ℕ, Option, length, take, IfOk, OnErr};
ghost use Rattle.gitconf_items.specs.Sink.{with_text, CountsOne, Writes, Counts};

use thiserror::Error;

/// A writer failed.
#[derive(Clone, Copy, Debug, PartialEq, Eq, PartialOrd, Ord, Hash, Error)]
#[error("the writer failed")]
pub struct SinkFault;

/// What a text is written to.
///
/// A writer that reports its bytes or its failures in its contract says in `told` which bytes it took, and in `faults`
/// how often it failed: each refused write counts one, and so does each that takes nothing of a text that isn't empty.
pub trait Sink {
    ghost told: { Self → Option (List ℕ) };

    ghost faults: { Self → Option ℕ };

    /// Takes a beginning of `text`, and returns how many bytes it took.
    ///
    /// # Errors
    ///
    /// Nothing was taken, and the writer counted a failure.
    fn write(&mut self, text: &[u8]) -> Result<usize, SinkFault>
        ensures within { IfOk result (λ n. n ≤ length text.now) }
        ensures took { IfOk result (λ n. told self.new ≡ with_text (take n text.now) (told self.old)) }
        ensures some { IfOk result (λ n. 0 < n → faults self.new ≡ faults self.old) }
        ensures none { IfOk result (λ n. n ≡ 0 → 0 < length text.now → CountsOne (faults self.old) (faults self.new)) }
        ensures empty { IfOk result (λ n. text.now ≡ [] → faults self.new ≡ faults self.old) }
        ensures fault { OnErr result (CountsOne (faults self.old) (faults self.new)) }
        ensures kept { OnErr result (told self.new ≡ told self.old) };
}

/// Takes all bytes, and reports them; it doesn't count its failures. A failed allocation is a failed write.
impl Sink for Vec<u8> {
    ghost use Rattle.std.specs.Prelude.{Some, None};

    ghost told = { λ v. Some v.items };

    ghost faults = { λ _. None };

    fn write(&mut self, text: &[u8]) -> Result<usize, SinkFault> {
        match self.extend_from_slice(text) {
            Ok(()) => Ok(text.len()),
            Err(_) => Err(SinkFault),
        }
    }
}

/// Writes the whole text. If a write takes only a part of it, another follows for the rest.
///
/// It takes no memory of its own, and doesn't call the writer for an empty text.
///
/// # Errors
///
/// A write failed, or took nothing. It is not tried again, and a beginning of the text may have been written.
#[tactic(auto, using(crate::proofs::SinkLaws::in_parts))]
pub fn write_all<W: Sink>(out: &mut W, text: &[u8]) -> Result<(), SinkFault>
    ensures written { Writes result text.now (W.told out.old) (W.told out.new) }
    ensures counted { Counts result (W.faults out.old) (W.faults out.new) }
{
    let mut done = 0;
    while done < text.len() {
        let taken = out.write(&text[done..])?;
        if taken == 0 {
            return Err(SinkFault);
        }
        done += taken;
    }
    Ok(())
}
