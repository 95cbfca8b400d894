//! Keys of sections that nothing has checked yet.
ghost use Rattle.std.specs.Prelude.{◌≡◌, option_map, option_copied, position};
ghost use Rattle.gitconf_text.specs.SectionKeys as spec;
ghost use Rattle.gitconf_text.specs.SectionKeys.{parsed_section_key, cut_key, is_dot};
ghost use Rattle.gitconf_text.specs.SectionKeyRefs.{section_key_of};

/// A section's name and subsection, as the caller wrote them.
#[derive(Clone, Copy, Debug, PartialEq, Eq, PartialOrd, Ord, Hash)]
pub struct KeyRef<'a> {
    /// The name of the section, like `remote` in `remote.origin`.
    pub section_name: &'a str,
    /// The subsection, like `origin` in `remote.origin`.
    pub subsection_name: Option<&'a [u8]>,
}

impl<'a> KeyRef<'a> {
    /// Cuts `input` at its first dot: the section's name is before it, and all after it is the subsection.
    /// Without a dot there is no subsection. Returns `None` if the name isn't UTF-8.
    ///
    /// It reads `input` once and takes no memory.
    pub fn parse(input: &'a [u8]) -> Option<KeyRef<'a>>
        ensures { option_map section_key_of result ≡ parsed_section_key input.now }
    {
        let (name, subsection_name) = cut(input);
        let section_name = as_utf8(name)?;
        Some(KeyRef {
            section_name,
            subsection_name,
        })
    }
}

fn first_dot(text: &[u8]) -> Option<usize>
    ensures { result ≡ position is_dot text.now }
{
    text.iter().position(|b| *b == b'.')
}

fn as_utf8(bytes: &[u8]) -> Option<&str>
    ensures { option_copied result ≡ spec.as_utf8 bytes.now }
{
    str::from_utf8(bytes).ok()
}

// What is before the first dot, and what is after it.
fn cut(text: &[u8]) -> (&[u8], Option<&[u8]>)
    ensures section { result.0.now ≡ (cut_key text.now).section }
    ensures subsection { option_copied result.1 ≡ (cut_key text.now).subsection }
{
    match first_dot(text) {
        Some(dot) => (&text[..dot], Some(&text[dot + 1..])),
        None => (text, None),
    }
}
