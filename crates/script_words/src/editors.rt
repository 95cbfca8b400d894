//! The commands of editors: what opens an editor, and what its lines ask for, up to `end`.

use crate::words::{Word, named_in};

/// What opens an editor.
#[derive(Clone, Copy)]
pub enum Opening {
    /// `edit`
    Section,
    /// `editid`
    SectionNumbered,
    /// `editnew`
    SectionOrNew,
    /// `editdetached`
    SectionAlone,
    /// `value`
    Value,
    /// `multi`
    Values,
}

/// A line of the editor of a section.
#[derive(Clone, Copy)]
pub enum SectionLine {
    Change(SectionChange),
    Style(SectionStyle),
    View(SectionView),
    /// `end`
    End,
}

/// What changes the section.
#[derive(Clone, Copy)]
pub enum SectionChange {
    /// `push`
    Push,
    /// `pushc`
    PushWithComment,
    /// `pushlast`
    PushAfterLast,
    /// `set`
    Set,
    /// `remove`
    Remove,
    /// `removemarked`
    RemoveMarked,
    /// `pop`
    Pop,
    /// `nl`
    LineEnd,
    /// `header`
    Header,
}

/// What changes how the editor writes.
#[derive(Clone, Copy)]
pub enum SectionStyle {
    /// `implicit`
    ImplicitLineEnd,
    /// `leading`
    LeadingBlanks,
}

/// What looks at the section, or at the editor.
#[derive(Clone, Copy)]
pub enum SectionView {
    /// `blanks`
    Blanks,
    /// `value`
    Value,
    /// `implicitvalue`
    ImplicitValue,
    /// `values`
    Values,
    /// `text`
    Text,
}

/// A line of the editor of one value.
#[derive(Clone, Copy)]
pub enum ValueLine {
    /// `get`
    Get,
    /// `set`
    Set,
    /// `delete`
    Delete,
    /// `end`
    End,
}

/// A line of the editor of all values of a key.
#[derive(Clone, Copy)]
pub enum ValuesLine {
    /// `get`
    Get,
    /// `len`
    Count,
    /// `setat`
    SetAt,
    /// `setvalues`
    SetEach,
    /// `setall`
    SetAll,
    /// `delete`
    DeleteAt,
    /// `deleteall`
    DeleteAll,
    /// `end`
    End,
}

/// The editor that the first word opens, and the words after it. `None`, and all words, if it opens none.
pub fn opening_of<'a, 'b>(words: &'a [Word<'b>]) -> (Option<Opening>, &'a [Word<'b>]) {
    match words.split_first() {
        Some((Word::Plain(word), rest)) => (named_in(&OPENINGS, word), rest),
        _ => (None, words),
    }
}

/// What a line asks of the editor of a section, and the words after it. `None`, and all words, for any other line.
pub fn section_line_of<'a, 'b>(words: &'a [Word<'b>]) -> (Option<SectionLine>, &'a [Word<'b>]) {
    match words.split_first() {
        Some((Word::Plain(word), rest)) => (section_line_named(word), rest),
        _ => (None, words),
    }
}

/// What a line asks of the editor of one value, and the words after it. `None`, and all words, for any other line.
pub fn value_line_of<'a, 'b>(words: &'a [Word<'b>]) -> (Option<ValueLine>, &'a [Word<'b>]) {
    match words.split_first() {
        Some((Word::Plain(word), rest)) => (named_in(&VALUE_LINES, word), rest),
        _ => (None, words),
    }
}

/// What a line asks of an editor of values, and the words after it. It is the editor of all values of a key. `None`, and all
/// words, for any other line.
pub fn values_line_of<'a, 'b>(words: &'a [Word<'b>]) -> (Option<ValuesLine>, &'a [Word<'b>]) {
    match words.split_first() {
        Some((Word::Plain(word), rest)) => (named_in(&VALUES_LINES, word), rest),
        _ => (None, words),
    }
}

static OPENINGS: [(&[u8], Opening); 6] = [
    (b"edit", Opening::Section),
    (b"editid", Opening::SectionNumbered),
    (b"editnew", Opening::SectionOrNew),
    (b"editdetached", Opening::SectionAlone),
    (b"value", Opening::Value),
    (b"multi", Opening::Values),
];

fn section_line_named(word: &[u8]) -> Option<SectionLine> {
    if let Some(change) = named_in(&SECTION_CHANGES, word) {
        return Some(SectionLine::Change(change));
    }
    if let Some(style) = named_in(&SECTION_STYLES, word) {
        return Some(SectionLine::Style(style));
    }
    if let Some(view) = named_in(&SECTION_VIEWS, word) {
        return Some(SectionLine::View(view));
    }
    if word == b"end".as_slice() {
        return Some(SectionLine::End);
    }
    None
}

static SECTION_CHANGES: [(&[u8], SectionChange); 9] = [
    (b"push", SectionChange::Push),
    (b"pushc", SectionChange::PushWithComment),
    (b"pushlast", SectionChange::PushAfterLast),
    (b"set", SectionChange::Set),
    (b"remove", SectionChange::Remove),
    (b"removemarked", SectionChange::RemoveMarked),
    (b"pop", SectionChange::Pop),
    (b"nl", SectionChange::LineEnd),
    (b"header", SectionChange::Header),
];

static SECTION_STYLES: [(&[u8], SectionStyle); 2] = [
    (b"implicit", SectionStyle::ImplicitLineEnd),
    (b"leading", SectionStyle::LeadingBlanks),
];

static SECTION_VIEWS: [(&[u8], SectionView); 5] = [
    (b"blanks", SectionView::Blanks),
    (b"value", SectionView::Value),
    (b"implicitvalue", SectionView::ImplicitValue),
    (b"values", SectionView::Values),
    (b"text", SectionView::Text),
];

static VALUE_LINES: [(&[u8], ValueLine); 4] = [
    (b"get", ValueLine::Get),
    (b"set", ValueLine::Set),
    (b"delete", ValueLine::Delete),
    (b"end", ValueLine::End),
];

static VALUES_LINES: [(&[u8], ValuesLine); 8] = [
    (b"get", ValuesLine::Get),
    (b"len", ValuesLine::Count),
    (b"setat", ValuesLine::SetAt),
    (b"setvalues", ValuesLine::SetEach),
    (b"setall", ValuesLine::SetAll),
    (b"delete", ValuesLine::DeleteAt),
    (b"deleteall", ValuesLine::DeleteAll),
    (b"end", ValuesLine::End),
];
