//! Numbers as values write them.
ghost use Rattle.std.specs.Prelude.{◌≡◌};
ghost use Rattle.gitconf_text.specs.Typed.{number_of};

/// The number that an optional sign and one or more digits write, if it fits in 64 bits with its sign.
pub(crate) fn number(bytes: &[u8]) -> Option<i64>
    ensures { result ≡ number_of bytes.now }
{
    let text = std::str::from_utf8(bytes).ok()?;
    text.parse::<i64>().ok()
}
