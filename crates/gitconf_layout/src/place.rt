//! Where a token is.
ghost use Rattle.std.specs.Prelude.{◌≡◌};
ghost use Rattle.gitconf_items.specs.EventRef.{shown};
ghost use Rattle.gitconf_layout.specs.Layout.{behind};

use gitconf_items::event_ref::EventRef;

/// What comes before a token on its line, apart from blanks.
#[derive(Clone, Copy)]
pub enum Before {
    /// Nothing.
    Nothing,
    /// A value; before a name it is the empty value of an entry without `=`.
    Value,
    /// Some other token.
    Other,
}

/// Where a token is.
#[derive(Clone, Copy)]
pub struct Place {
    /// Whether it comes after a header.
    pub in_section: bool,
    /// What comes before it on its line.
    pub before: Before,
    /// How many more blank lines may stay here; `None` if all may.
    pub room: Option<usize>,
}

impl Before {
    /// What comes before the next token, after this one.
    pub fn behind(self, event: &EventRef<'_>) -> Before
        ensures { result ≡ behind self (shown event.now) }
    {
        match event {
            EventRef::Whitespace(_) | EventRef::Newline(_) => self,
            EventRef::Value(_) => Before::Value,
            EventRef::Comment { .. }
            | EventRef::SectionHeader { .. }
            | EventRef::SectionValueName(_)
            | EventRef::ValueNotDone(_)
            | EventRef::ValueDone(_)
            | EventRef::KeyValueSeparator => Before::Other,
        }
    }
}
