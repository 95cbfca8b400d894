//! Texts cut at bytes.
ghost use Rattle.std.specs.Prelude.{◌≡◌, ◌<◌, ◌∷◌, IfSome, length, position};
ghost use Rattle.std.specs.Option.{option_copied};
ghost use Rattle.gixcfg_core.specs.Parts.{is_one_of, parts_left, parts_of};

/// The first part of a text, and what follows the byte behind it.
///
/// Between two parts stands one of the bytes of `between`. Behind the last part there is none, and nothing follows. It reads no further than
/// the first such byte, and takes no memory.
#[tactic(auto, using(crate::proofs::PartLemmas::only_part))]
pub fn first_part<'a>(text: &'a [u8], between: &[u8]) -> (&'a [u8], Option<&'a [u8]>)
    ensures { parts_of between.now text.now ≡ result.0.now ∷ parts_left between.now (option_copied result.1) }
{
    match first_of(text, between) {
        Some(end) => (&text[..end], Some(&text[end + 1..])),
        None => (text, None),
    }
}

/// The place of the first byte that is one of these.
fn first_of(text: &[u8], wanted: &[u8]) -> Option<usize>
    ensures place { result ≡ position (is_one_of wanted.now) text.now }
    ensures within { IfSome result (λ n. n < length text.now) }
{
    text.iter().position(|byte| is_one_of(wanted, *byte))
}

/// Whether a byte is one of these.
#[tactic(auto, unfolding(crate::specs::Parts::is_one_of))]
fn is_one_of(wanted: &[u8], byte: u8) -> bool
    ensures { result ≡ is_one_of wanted.now byte }
{
    wanted.contains(&byte)
}
