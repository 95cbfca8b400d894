//! The parts of commands, as words give them.
ghost use Rattle.std.specs.Prelude.{◌≡◌, option_map};
ghost use Rattle.gixcfg_words.specs.Asking as asking;
ghost use Rattle.gixcfg_words.specs.Given as spec;
ghost use Rattle.gixcfg_words.specs.Spelling.{Gives};
ghost use Rattle.gixcfg_words.specs.Tasks as tasks;

use crate::command::{Choice, Fallback, Form, Indent, Newline, Reading, Source, Target, Values};
use crate::fault::Fault;
use crate::given::{File, Given};
use crate::options::Opt;
use crate::spelled::{indent_named, newline_named};
use crate::verbs::Verb;

impl<'a> Given<'a> {
    /// The only word.
    ///
    /// # Errors
    ///
    /// There are more or none.
    pub fn word(&self) -> Result<&'a str, Fault<'a>>
        ensures { Gives (λ word. word.now) (asking.only_word (spec.seen self.now).words) result }
    {
        match self.spelled.words.as_slice() {
            [] => Err(Fault::TooFew(self.verb)),
            [word] => Ok(word),
            [_, word, ..] => Err(Fault::TooMany(self.verb, word)),
        }
    }

    /// The only two words.
    ///
    /// # Errors
    ///
    /// There are more or fewer.
    pub fn two_words(&self) -> Result<(&'a str, &'a str), Fault<'a>>
        ensures { Gives (λ words. (words.0.now, words.1.now)) (asking.two_words (spec.seen self.now).words) result }
    {
        match self.spelled.words.as_slice() {
            [] | [_] => Err(Fault::TooFew(self.verb)),
            [one, other] => Ok((one, other)),
            [_, _, word, ..] => Err(Fault::TooMany(self.verb, word)),
        }
    }

    /// The only three words.
    ///
    /// # Errors
    ///
    /// There are more or fewer.
    pub fn three_words(&self) -> Result<(&'a str, &'a str, &'a str), Fault<'a>>
        ensures { Gives (λ words. (words.0.now, words.1.now, words.2.now)) (asking.three_words (spec.seen self.now).words) result }
    {
        match self.spelled.words.as_slice() {
            [] | [_] | [_, _] => Err(Fault::TooFew(self.verb)),
            [one, other, third] => Ok((one, other, third)),
            [_, _, _, word, ..] => Err(Fault::TooMany(self.verb, word)),
        }
    }

    /// A word and one after it, if there is one.
    ///
    /// # Errors
    ///
    /// There are more or none.
    pub fn word_and_more(&self) -> Result<(&'a str, Option<&'a str>), Fault<'a>>
        ensures { Gives (λ words. (words.0.now, option_map (λ w. w.now) words.1)) (asking.word_and_more (spec.seen self.now).words) result }
    {
        match self.spelled.words.as_slice() {
            [] => Err(Fault::TooFew(self.verb)),
            [word] => Ok((word, None)),
            [word, more] => Ok((word, Some(more))),
            [_, _, word, ..] => Err(Fault::TooMany(self.verb, word)),
        }
    }

    /// Two words and one after them, if there is one.
    ///
    /// # Errors
    ///
    /// There are more or fewer.
    pub fn two_words_and_more(&self) -> Result<(&'a str, &'a str, Option<&'a str>), Fault<'a>>
        ensures { Gives (λ words. (words.0.now, words.1.now, option_map (λ w. w.now) words.2)) (asking.two_words_and_more (spec.seen self.now).words) result }
    {
        match self.spelled.words.as_slice() {
            [] | [_] => Err(Fault::TooFew(self.verb)),
            [one, other] => Ok((one, other, None)),
            [one, other, more] => Ok((one, other, Some(more))),
            [_, _, _, word, ..] => Err(Fault::TooMany(self.verb, word)),
        }
    }

    /// What is read where no file is named.
    fn unnamed(&self) -> Source<'a>
        ensures { tasks.where_read result ≡ asking.unnamed self.now.verb }
    {
        match self.verb {
            Verb::Forms => Source::Target(Target::Default),
            Verb::Explain => Source::Effective,
            _ => Source::Target(Target::Input),
        }
    }

    /// What is read.
    pub fn source(&self) -> Source<'a>
        ensures { tasks.where_read result ≡ asking.where_given (spec.seen self.now) }
    {
        match self.file {
            Some(File::Path(path)) => Source::Target(file_at(path)),
            Some(File::OfGit(place)) => Source::Target(Target::Place(place)),
            Some(File::Effective) => Source::Effective,
            None => self.unnamed(),
        }
    }

    /// What is read, and whether with what it includes.
    pub fn reading(&self) -> Reading<'a>
        ensures source { tasks.where_read result.source ≡ asking.where_given (spec.seen self.now) }
        ensures includes { result.includes ≡ asking.includes_given (spec.seen self.now) }
    {
        Reading {
            source: self.source(),
            includes: self.state_of(Opt::Includes),
        }
    }

    /// The file that is edited, as far as one is named: standard input without, but with [`Verb::Forms`] what git works on.
    ///
    /// # Errors
    ///
    /// All that git reads is named.
    pub fn target(&self) -> Result<Target<'a>, Fault<'a>>
        ensures { Gives tasks.where_of (asking.target_given (spec.seen self.now)) result }
    {
        match self.source() {
            Source::Target(target) => Ok(target),
            Source::Effective => Err(Fault::NotItsOption(self.verb, "--effective")),
        }
    }

    /// Whether what an edit makes of a file is written down to the disk.
    pub fn is_synced(&self) -> bool
        ensures { result ≡ asking.is_synced (spec.seen self.now) }
    {
        self.state_of(Opt::Sync).unwrap_or(true)
    }

    /// Which values are meant, if those are that a pattern says.
    ///
    /// # Errors
    ///
    /// They are to be just a text, which isn't given.
    pub fn values(&self, pattern: Option<&'a str>) -> Result<Values<'a>, Fault<'a>>
        ensures { Gives tasks.which_of (asking.values_given (spec.seen self.now) (option_map (λ p. p.now) pattern.entry)) result }
    {
        values_by(self.has(Opt::FixedValue), pattern)
    }

    /// What of an entry is printed, with its names or without.
    pub fn form(&self, has_names: bool) -> Form
        ensures { result ≡ asking.form_given (spec.seen self.now) has_names }
    {
        Form {
            has_scope: self.has(Opt::ShowScope),
            has_origin: self.has(Opt::ShowOrigin),
            has_position: self.has(Opt::ShowPosition),
            has_names,
            has_value: !self.has(Opt::NameOnly),
            is_null: self.has(Opt::Null),
            kind: self.kind,
        }
    }

    /// The last of the entries that an argument asks for, or what `--default` gives.
    pub fn last(&self, word: &'a str) -> Choice<'a>
        ensures { tasks.chosen_of result ≡ asking.last (spec.seen self.now) word.now }
    {
        Choice::Last {
            default: match self.word_of(Opt::Default) {
                Some(value) => Some(Fallback { word, value }),
                None => None,
            },
        }
    }

    /// What comes before a name.
    pub fn indent(&self) -> Option<Indent>
        ensures { result ≡ asking.indent_given (spec.seen self.now) }
    {
        match self.word_of(Opt::Indent) {
            Some(word) => indent_named(word),
            None => None,
        }
    }

    /// What lines end with.
    pub fn newline(&self) -> Option<Newline>
        ensures { result ≡ asking.newline_given (spec.seen self.now) }
    {
        match self.word_of(Opt::Newline) {
            Some(word) => newline_named(word),
            None => None,
        }
    }
}

/// The file at a path; `-` is standard input.
fn file_at<'a>(path: &'a str) -> Target<'a>
    ensures { tasks.where_of result ≡ asking.file_at path.now }
{
    if path == "-" {
        Target::Input
    } else {
        Target::File(path)
    }
}

/// Which values are meant, if those are that a pattern says, or that are just this text.
fn values_by<'a>(is_fixed: bool, pattern: Option<&'a str>) -> Result<Values<'a>, Fault<'a>>
    ensures { Gives tasks.which_of (asking.values_by is_fixed (option_map (λ p. p.now) pattern.entry)) result }
{
    match pattern {
        Some(text) if is_fixed => Ok(Values::Equal(text)),
        Some(pattern) => Ok(Values::Matching(pattern)),
        None if is_fixed => Err(Fault::NoValue),
        None => Ok(Values::Any),
    }
}
