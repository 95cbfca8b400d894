//! What an editor accepts as whitespace before names.
ghost use Rattle.std.specs.List.{list_all};
ghost use Rattle.std.specs.Prelude.{◌≡◌};
ghost use Rattle.gitconf_text.specs.Bytes as spec;

/// Whether all these bytes are ASCII whitespace: space, tab, LF, FF or CR. It is true for no bytes. An editor's leading whitespace has to
/// pass. One pass up to the first other byte, which takes no memory.
pub fn is_whitespace(bytes: &[u8]) -> bool
    ensures { result ≡ list_all spec.is_whitespace bytes.now }
{
    bytes.iter().all(|byte| byte.is_ascii_whitespace())
}
