//! The end of a text.
ghost use Rattle.std.specs.Prelude.{◌≡◌, ◌≤◌, length, take, OnOk};
ghost use Rattle.gitconf_layout.specs.Layout as spec;

use gitconf_text::NoMemory;

fn is_cr_or_lf(b: u8) -> bool
    ensures { result ≡ spec.is_cr_or_lf b }
{
    b == b'\r' || b == b'\n'
}

/// How many bytes come before the CRs and LFs at the end.
#[tactic(auto, using(crate::proofs::LastBytes::trimming))]
fn trimmed_len(text: &[u8]) -> usize
    ensures within { result ≤ length text.now }
    ensures front { take result text.now ≡ spec.trimmed text.now }
{
    let mut kept = text.len();
    while kept > 0 && is_cr_or_lf(text[kept - 1]) {
        kept -= 1;
    }
    kept
}

/// A comment's text without the CR at its end, if there is one.
#[tactic(auto, using(crate::proofs::LastBytes::trimming))]
pub fn without_cr(text: &[u8]) -> &[u8]
    ensures { result.now ≡ spec.without_cr text.now }
{
    match text.split_last() {
        Some((b'\r', front)) => front,
        _ => text,
    }
}

/// Puts one line ending in place of all CRs and LFs at the end. It does so unless the text is empty.
pub fn end_with(text: &mut Vec<u8>, line_end: &[u8]) -> Result<(), NoMemory>
    ensures { OnOk result (text.new.items ≡ spec.with_one_line_end line_end.now text.old.items) }
{
    if text.is_empty() {
        return Ok(());
    }
    let len = trimmed_len(text);
    text.truncate(len);
    text.extend_from_slice(line_end)?;
    Ok(())
}
