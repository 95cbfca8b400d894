//! Blanks, and entries: a value name, and what is assigned to it.
ghost use Rattle.std.specs.Prelude.{◌≡◌, ◌≤◌, ◌<◌, ◌+◌, ◌^◌, ◌==◌, true, false, length, drop, IfOk, IfSome, OnOk, MatchOption, IsOkUnless};
ghost use Rattle.gitconf_text.specs.Text.{begins};
ghost use Rattle.gitconf_read.specs.declared.reading.ReadError.TheVariants.{Memory};
ghost use Rattle.gitconf_read.specs.declared.reading.run.Run.TheVariants.{Blanks};
ghost use Rattle.gitconf_read.specs.Reading.{Gives, with_blanks, run_end_at, entry_at};

use super::ReadError;
use super::class::is_blank;
use super::run::{Run, long_run_end, run_end};
use super::value::value_events;
use crate::compact::EventVec;
use gitconf_items::event::{Event, Span};

/// Adds the blanks from one offset up to another, if there are any.
#[inline(always)]
pub fn push_blanks(from: usize, end: usize, events: &mut EventVec) -> Result<(), ReadError>
    requires ordered { from ≤ end }
    requires fits { end < 2 ^ 32 }
    ensures events { OnOk result (events.new ≡ with_blanks events.old from end) }
    ensures memory { IsOkUnless result Memory }
{
    if from < end {
        events.push(Event::Whitespace(Span::between(from, end)))?;
    }
    Ok(())
}

/// Whether `=` is at an offset.
#[inline(always)]
pub fn is_assignment(input: &[u8], at: usize) -> bool
    requires { at ≤ length input.now }
    ensures { result ≡ begins (λ b. b == 61) (drop at input.now) }
{
    at < input.len() && input[at] == b'='
}

/// Whether ` = ` and a byte that is no blank are at an offset, as they are behind most names.
#[inline(always)]
fn is_plain_sign(input: &[u8], at: usize) -> bool
    requires { at ≤ length input.now }
    ensures { result ≡ true → (run_end_at input.now Blanks at ≡ at + 1) × (begins (λ b. b == 61) (drop (at + 1) input.now) ≡ true)
        × (run_end_at input.now Blanks (at + 2) ≡ at + 3) × (at + 3 ≤ length input.now) }
{
    if at + 3 >= input.len()
        || input[at] != b' '
        || input[at + 1] != b'='
        || input[at + 2] != b' '
    {
        return false;
    }
    !is_blank(input[at + 3])
}

/// The offset after the blanks that follow a name. If `=` is there, also the one after the blanks that follow it.
#[inline(always)]
pub fn sign_ends(input: &[u8], at: usize) -> (usize, Option<usize>)
    requires { at ≤ length input.now }
    ensures sign { result.0 ≡ run_end_at input.now Blanks at }
    ensures first { MatchOption result.1 (begins (λ b. b == 61) (drop result.0 input.now) ≡ false)
        (λ first. (begins (λ b. b == 61) (drop result.0 input.now) ≡ true) × (first ≡ run_end_at input.now Blanks (result.0 + 1))) }
    ensures behind { at ≤ result.0 }
    ensures inside { result.0 ≤ length input.now }
    ensures ordered { IfSome result.1 (λ first. (result.0 < first) × (first ≤ length input.now)) }
{
    if is_plain_sign(input, at) {
        return (at + 1, Some(at + 3));
    }
    let sign = run_end(input, at, Run::Blanks);
    if is_assignment(input, sign) {
        (sign, Some(run_end(input, sign + 1, Run::Blanks)))
    } else {
        (sign, None)
    }
}

/// The entry whose name begins, with a letter, at an offset.
#[inline(always)]
#[tactic(auto, unfolding(crate::specs::Reading::entry_at, crate::specs::Reading::assigned_at))]
pub fn entry(input: &[u8], at: usize, events: &mut EventVec) -> Result<usize, ReadError>
    requires within { at < length input.now }
    requires fits { length input.now < 2 ^ 32 }
    ensures gives { Gives result events.new (entry_at input.now at events.old) }
    ensures behind { IfOk result (λ end. at < end) }
    ensures inside { IfOk result (λ end. end ≤ length input.now) }
{
    let name_end = long_run_end(input, at + 1, Run::NameBytes);
    events.push(Event::SectionValueName(Span::between(at, name_end)))?;
    let (sign, first) = sign_ends(input, name_end);
    push_blanks(name_end, sign, events)?;
    match first {
        Some(first) => {
            events.push(Event::KeyValueSeparator)?;
            push_blanks(sign + 1, first, events)?;
            value_events(input, first, events)
        }
        None => {
            events.push(Event::Value(Span::between(sign, sign)))?;
            Ok(sign)
        }
    }
}
