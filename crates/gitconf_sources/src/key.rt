//! Keys: the three names of a value, written with dots between them, as in git-config's manual page.
ghost use Rattle.std.specs.Prelude.{◌≡◌, ◌≤◌, length, position, string_bytes, Some};
ghost use Rattle.std.specs.Option.{option_copied, option_map};
ghost use Rattle.bstr.specs.Owned.{bstring_bytes};
ghost use Rattle.gitconf_text.specs.SectionKeys.{as_utf8, is_dot};
ghost use Rattle.gitconf_sources.specs.Key.{behind_last_dot, key_of, parsed_key};

use bstr::BString;

/// The three names of a value: that of its section, that of the subsection if there is one, and its own.
#[derive(Clone, Copy, PartialEq, Eq, PartialOrd, Ord, Hash, Debug)]
pub struct KeyRef<'a> {
    /// The section's name, such as `remote`.
    pub section_name: &'a str,
    /// The subsection's name, such as `origin`, in any bytes.
    pub subsection_name: Option<&'a [u8]>,
    /// The value's name, such as `url`.
    pub value_name: &'a str,
}

impl<'a> KeyRef<'a> {
    /// The key that `input` writes, such as `remote.origin.url`: its section up to the first dot, its name
    /// after the last one, and its subsection between them if there are two dots or more. `None` without a dot, or
    /// if the section or the name is not UTF-8. The names are not checked further. It takes no memory.
    #[tactic(auto, unfolding(crate::specs::Key::parsed_key))]
    pub fn parse_unvalidated(input: &'a [u8]) -> Option<KeyRef<'a>>
        ensures { option_map key_of result ≡ parsed_key input.now }
    {
        let first = first_dot(input)?;
        let behind = name_start(input);
        let section_name = text(&input[..first])?;
        let value_name = text(&input[behind..])?;
        let subsection_name = if first + 1 < behind {
            Some(&input[first + 1..behind - 1])
        } else {
            None
        };
        Some(KeyRef {
            section_name,
            subsection_name,
            value_name,
        })
    }
}

// The place of the first dot.
fn first_dot(input: &[u8]) -> Option<usize>
    ensures { result ≡ position is_dot input.now }
{
    input.iter().position(|b| *b == b'.')
}

// The place after the last dot, or 0 if there is none.
fn name_start(input: &[u8]) -> usize
    ensures place { result ≡ behind_last_dot input.now }
    ensures within { result ≤ length input.now }
{
    let mut behind = input.len();
    while behind > 0 && input[behind - 1] != b'.' {
        behind -= 1;
    }
    behind
}

// The bytes as text, if they are UTF-8.
fn text(bytes: &[u8]) -> Option<&str>
    ensures { option_copied result ≡ as_utf8 bytes.now }
{
    str::from_utf8(bytes).ok()
}

/// What can be read as a key: a text such as `core.editor`, or the three names themselves.
pub trait AsKey: Copy {
    ghost use Rattle.std.specs.Prelude.{◌≡◌, IsSome, Option};
    ghost use Rattle.std.specs.Option.{option_map};
    ghost use Rattle.gitconf_sources.specs.Key.{Key, key_of, the_key};

    ghost key: { Self → Option Key };

    /// The key. A caller shows first that there is one, as by [`AsKey::try_as_key`]. It takes no memory.
    fn as_key(&self) -> KeyRef<'_>
        requires { IsSome (key self.now) }
        ensures { key_of result ≡ the_key (key self.now) };

    /// The key, or `None` if the text is not one ([`KeyRef::parse_unvalidated`]). It takes no memory.
    fn try_as_key(&self) -> Option<KeyRef<'_>>
        ensures { option_map key_of result ≡ key self.now };
}

impl AsKey for &String {
    ghost key = { λ s. parsed_key (string_bytes s.now) };

    fn as_key(&self) -> KeyRef<'_> {
        self.try_as_key().unwrap()
    }

    fn try_as_key(&self) -> Option<KeyRef<'_>> {
        KeyRef::parse_unvalidated(self.as_bytes())
    }
}

impl AsKey for &str {
    ghost key = { λ s. parsed_key s.now };

    fn as_key(&self) -> KeyRef<'_> {
        self.try_as_key().unwrap()
    }

    fn try_as_key(&self) -> Option<KeyRef<'_>> {
        KeyRef::parse_unvalidated(self.as_bytes())
    }
}

impl AsKey for &BString {
    ghost key = { λ s. parsed_key (bstring_bytes s.now) };

    fn as_key(&self) -> KeyRef<'_> {
        self.try_as_key().unwrap()
    }

    fn try_as_key(&self) -> Option<KeyRef<'_>> {
        KeyRef::parse_unvalidated(self.as_slice())
    }
}

impl AsKey for &[u8] {
    ghost key = { λ s. parsed_key s.now };

    fn as_key(&self) -> KeyRef<'_> {
        self.try_as_key().unwrap()
    }

    fn try_as_key(&self) -> Option<KeyRef<'_>> {
        KeyRef::parse_unvalidated(self)
    }
}

impl AsKey for KeyRef<'_> {
    ghost key = { λ key. Some (key_of key) };

    fn as_key(&self) -> KeyRef<'_> {
        *self
    }

    fn try_as_key(&self) -> Option<KeyRef<'_>> {
        Some(*self)
    }
}

impl AsKey for &KeyRef<'_> {
    ghost key = { λ key. Some (key_of key.now) };

    fn as_key(&self) -> KeyRef<'_> {
        **self
    }

    fn try_as_key(&self) -> Option<KeyRef<'_>> {
        Some(**self)
    }
}
