//! A line of a section, as a program in C gives it.

/// A line of a section: a name, with a value, a comment behind it, both or none.
#[repr(C)]
pub struct Line<'a> {
    /// The name.
    pub name: &'a [u8],
    /// Whether there is a value: without one the line is the name alone, which is true as a boolean.
    pub has_value: bool,
    /// The value, if there is one.
    pub value: &'a [u8],
    /// Whether there is a comment.
    pub has_comment: bool,
    /// The comment, if there is one, without its mark.
    pub comment: &'a [u8],
}

/// A name with its value.
#[repr(C)]
pub struct Assigned<'a> {
    /// The name.
    pub name: &'a [u8],
    /// The value.
    pub value: &'a [u8],
}
