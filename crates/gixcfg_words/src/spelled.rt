//! The words after a command, read one by one: options, and other words.
//!
//! Options may stand among other words, up to `--`. The value of `set` is taken as it is, so it may begin with a dash. Where an option says
//! what is done, options come first, as in `git config`: from the first word on that isn't one all are taken as they are.
ghost use Rattle.std.specs.Prelude.{◌≡◌, ◌++◌, ◌⊎◌, ◌<◌, drop, length, map, option_map, Option, Some, None, string_bytes};
ghost use Rattle.std.specs.Char.{encode_utf8};
ghost use Rattle.gixcfg_words.specs.Spelling as spec;
ghost use Rattle.gixcfg_words.specs.Spelling.{seen, Gives};
ghost use Rattle.gixcfg_words.specs.declared.spelled.Next.TheVariants as next_words;

use crate::command::{Indent, Newline};
use crate::fault::Fault;
use crate::kinds::kind_named;
use crate::options::{Named, Opt, is_known, option_named, option_of_letter, takes_word};
use crate::verbs::Verb;
use std::alloc::Global;

/// What is said of an option.
#[derive(Clone, Copy)]
pub(crate) struct Mention<'a> {
    /// The option.
    pub option: Opt,
    /// What it was called by.
    pub name: &'a str,
    /// The word of its own, if it takes one.
    pub word: Option<&'a str>,
    /// Whether it wasn't taken back, as by `--no-all`.
    pub is_given: bool,
}

/// What the next word may be.
#[derive(Clone, Copy)]
pub(crate) enum Next<'a> {
    /// An option or another word.
    Any,
    /// The word of an option that was given by this name.
    WordOf(Opt, &'a str),
    /// A word that is taken as it is.
    Plain,
}

/// What words say: of options, in the order in which they were given, and the other words.
pub(crate) struct Spelled<'a> {
    /// What is said of options.
    pub options: Vec<Mention<'a>>,
    /// The words that are no options.
    pub words: Vec<&'a str>,
}

impl Drop for Spelled<'_> {
    // By hand, so that each way out of a function is one call: a derived one is proved there part by part.
    fn drop(self) {
        let Spelled { options, words } = self;
        drop((options, words));
    }
}

impl<'a> Spelled<'a> {
    /// The words that are no options.
    pub fn into_words(self) -> Vec<&'a str>
        ensures { result ≡ self.entry.words }
    {
        let Spelled { options, words } = self;
        drop(options);
        words
    }
}

/// What words after a command say.
///
/// # Errors
///
/// What is wrong with the first word that isn't understood; out of memory.
pub(crate) fn spelled_by<'a>(
    alloc: Global,
    verb: Verb,
    words: &[&'a str],
) -> Result<Spelled<'a>, Fault<'a>>
    ensures { Gives (λ s. seen s next_words.Any) (spec.spelled verb (map (λ w. w.now) words.now)) result }
{
    let mut spelled = Spelled {
        options: Vec::new(alloc),
        words: Vec::new(alloc),
    };
    match read_words(verb, &mut spelled, words) {
        Ok(Next::WordOf(option, _)) => Err(Fault::MissingWord(option)),
        Ok(_) => Ok(spelled),
        Err(fault) => Err(fault),
    }
}

/// Reads the words after a command.
#[tactic(auto, unfolding(crate::specs::Spelling::read_words))]
fn read_words<'a>(
    verb: Verb,
    spelled: &mut Spelled<'a>,
    words: &[&'a str],
) -> Result<Next<'a>, Fault<'a>>
    ensures { Gives (seen spelled.new) (spec.read_words verb (map (λ w. w.now) words.now) (seen spelled.old next_words.Any)) result }
{
    let mut next = Next::Any;
    for word in words {
        next = read_word(verb, spelled, next, word)?;
    }
    Ok(next)
}

/// Reads a word, and returns what the next one may be.
fn read_word<'a>(
    verb: Verb,
    spelled: &mut Spelled<'a>,
    next: Next<'a>,
    word: &'a str,
) -> Result<Next<'a>, Fault<'a>>
    ensures { Gives (seen spelled.new) (spec.read_word verb word.now (seen spelled.old next.entry)) result }
{
    match next {
        Next::WordOf(option, name) => put_word(spelled, option, name, word),
        Next::Plain => put_other(spelled, next, word),
        Next::Any => read_any(verb, spelled, word),
    }
}

/// Reads a word that may be an option.
fn read_any<'a>(verb: Verb, spelled: &mut Spelled<'a>, word: &'a str) -> Result<Next<'a>, Fault<'a>>
    ensures { Gives (seen spelled.new) (spec.read_any verb word.now (seen spelled.old next_words.Any)) result }
{
    if is_value(verb, spelled) {
        put_other(spelled, Next::Any, word)
    } else if word == "--" {
        Ok(Next::Plain)
    } else if is_option(word) {
        read_option(verb, spelled, word)
    } else {
        put_other(spelled, behind_other(verb), word)
    }
}

/// Whether the next word is the value that `set` gives a key.
fn is_value(verb: Verb, spelled: &Spelled<'_>) -> bool
    ensures { result ≡ spec.is_value verb (map (λ w. w.now) spelled.now.words.items) }
{
    matches!(verb, Verb::Set) && spelled.words.len() == 1
}

/// What may stand behind a word that is no option.
fn behind_other<'a>(verb: Verb) -> Next<'a>
    ensures { spec.next_by result ≡ spec.behind_other verb }
{
    match verb {
        Verb::Forms => Next::Plain,
        _ => Next::Any,
    }
}

/// Whether a word is an option: it begins with a dash, and is more than that.
pub(crate) fn is_option(word: &str) -> bool
    ensures { result ≡ spec.is_option word.now }
{
    word.len() > 1 && word.as_bytes().starts_with(b"-")
}

/// What stands behind a beginning of a word, if it has this beginning.
fn behind<'a>(word: &'a str, beginning: &str) -> Option<&'a str>
    ensures { option_map (λ rest. rest.now) result ≡ spec.behind beginning.now word.now }
{
    word.strip_prefix(beginning)
}

/// What stands before the first `=` of a word.
fn name_in(word: &str) -> &str
    ensures { result.now ≡ spec.name_in word.now }
{
    match word.split_once('=') {
        Some((name, _)) => name,
        None => word,
    }
}

/// What stands behind the first `=` of a word, if it has one.
fn value_in(word: &str) -> Option<&str>
    ensures { option_map (λ value. value.now) result ≡ spec.value_in word.now }
{
    match word.split_once('=') {
        Some((_, value)) => Some(value),
        None => None,
    }
}

/// Reads an option.
fn read_option<'a>(
    verb: Verb,
    spelled: &mut Spelled<'a>,
    word: &'a str,
) -> Result<Next<'a>, Fault<'a>>
    ensures { Gives (seen spelled.new) (spec.option_in verb word.now (seen spelled.old next_words.Any)) result }
{
    let shown = name_in(word);
    match behind(shown, "--") {
        Some(name) => read_long(verb, spelled, shown, name, value_in(word)),
        None => match behind(word, "-") {
            Some(letters) => read_letters(verb, spelled, word, letters),
            None => Err(Fault::UnknownOption(word)),
        },
    }
}

/// Reads an option behind two dashes, as `--file=x` or `--no-includes`.
fn read_long<'a>(
    verb: Verb,
    spelled: &mut Spelled<'a>,
    word: &'a str,
    name: &'a str,
    value: Option<&'a str>,
) -> Result<Next<'a>, Fault<'a>>
    ensures { Gives (seen spelled.new) (spec.long verb name.now (option_map (λ v. v.now) value.entry) (seen spelled.old next_words.Any)) result }
{
    match behind(name, "no-") {
        Some(name) => match option_named(verb, name) {
            Named::One(option) => read_negated(spelled, option, word, value),
            named => Err(unnamed(verb, named, word, name)),
        },
        None => match option_named(verb, name) {
            Named::One(option) => read_named(spelled, option, word, value),
            named => Err(unnamed(verb, named, word, name)),
        },
    }
}

/// Reads an option that is named.
fn read_named<'a>(
    spelled: &mut Spelled<'a>,
    option: Opt,
    word: &'a str,
    value: Option<&'a str>,
) -> Result<Next<'a>, Fault<'a>>
    ensures { Gives (seen spelled.new) (spec.named option (option_map (λ v. v.now) value.entry) (seen spelled.old next_words.Any)) result }
{
    match value {
        Some(value) if takes_word(option) => put_word(spelled, option, word, value),
        Some(_) => Err(unasked(option, word)),
        None if takes_word(option) => Ok(Next::WordOf(option, word)),
        None => put_alone(spelled, option, word),
    }
}

/// Reads an option behind `--no-`.
fn read_negated<'a>(
    spelled: &mut Spelled<'a>,
    option: Opt,
    word: &'a str,
    value: Option<&str>,
) -> Result<Next<'a>, Fault<'a>>
    ensures { Gives (seen spelled.new) (spec.negated option (option_map (λ v. v.now) value.entry) (seen spelled.old next_words.Any)) result }
{
    match value {
        Some(_) => Err(Fault::UnaskedWord(word)),
        None => take_back(spelled, option, word),
    }
}

/// The fault of a word that names no option of the command, or several.
fn unnamed<'a>(verb: Verb, named: Named, word: &'a str, name: &str) -> Fault<'a> {
    match named {
        Named::Several(one, other) => Fault::Ambiguous(word, one, other),
        _ if is_known(name) => Fault::NotItsOption(verb, word),
        _ => Fault::UnknownOption(word),
    }
}

/// The fault of an option that takes no word and has one.
fn unasked<'a>(option: Opt, word: &'a str) -> Fault<'a> {
    match option {
        Opt::Alone(alone) => Fault::Alone(alone, word),
        _ => Fault::UnaskedWord(word),
    }
}

/// Reads options behind one dash, a letter each, as in `-z` or `-zf FILE` or `-fFILE`.
#[tactic(auto, unfolding(crate::specs::Spelling::letters))]
fn read_letters<'a>(
    verb: Verb,
    spelled: &mut Spelled<'a>,
    word: &'a str,
    letters: &'a str,
) -> Result<Next<'a>, Fault<'a>>
    ensures { Gives (seen spelled.new) (spec.letters verb letters.now (seen spelled.old next_words.Any)) result }
{
    let mut rest = letters;
    while let Some((letter, more)) = first_letter(rest) {
        rest = more;
        match lettered(verb, letter) {
            None => return Err(unknown_letter(verb, word, letter)),
            Some(option) if takes_word(option) => return read_last(spelled, option, word, rest),
            Some(option) => match put_alone(spelled, option, word) {
                Ok(_) => {}
                Err(fault) => return Err(fault),
            },
        }
    }
    Ok(Next::Any)
}

/// The option of a letter, which is one of ASCII.
fn lettered(verb: Verb, letter: char) -> Option<Opt>
    ensures { result ≡ spec.lettered verb letter }
{
    if letter.is_ascii() {
        option_of_letter(verb, letter)
    } else {
        None
    }
}

/// The first letter of a text, and what follows it.
fn first_letter(text: &str) -> Option<(char, &str)>
    ensures { spec.IsSplit text.now result }
{
    let mut letters = text.chars();
    let letter = letters.next()?;
    Some((letter, letters.as_str()))
}

/// Reads the rest of a word behind the letter of an option that takes a word.
fn read_last<'a>(
    spelled: &mut Spelled<'a>,
    option: Opt,
    word: &'a str,
    rest: &'a str,
) -> Result<Next<'a>, Fault<'a>>
    ensures { Gives (seen spelled.new) (spec.last option rest.now (seen spelled.old next_words.Any)) result }
{
    if rest.is_empty() {
        Ok(Next::WordOf(option, word))
    } else {
        put_word(spelled, option, word, rest)
    }
}

/// The fault of a letter that the command doesn't have.
fn unknown_letter<'a>(verb: Verb, word: &'a str, letter: char) -> Fault<'a> {
    match verb {
        Verb::Check | Verb::Diff | Verb::Merge if word.starts_with("-f") => Fault::NotItsOption(
            verb, word,
        ),
        _ => Fault::UnknownLetter(letter),
    }
}

/// Puts in a word that is no option.
fn put_other<'a>(
    spelled: &mut Spelled<'a>,
    next: Next<'a>,
    word: &'a str,
) -> Result<Next<'a>, Fault<'a>>
    ensures { Gives (seen spelled.new) (Some (spec.with_other word.now (seen spelled.old next.entry))) result }
{
    spelled.words.push(word)?;
    Ok(next)
}

/// Notes what is said of an option.
fn note<'a>(spelled: &mut Spelled<'a>, mention: Mention<'a>) -> Result<Next<'a>, Fault<'a>>
    ensures { Gives (seen spelled.new) (Some (spec.with_option (spec.said_by mention.entry) (seen spelled.old next_words.Any))) result }
{
    spelled.options.push(mention)?;
    Ok(Next::Any)
}

/// Puts in an option that has no word of its own, which is called by this name.
///
/// # Errors
///
/// Only git has it; out of memory.
fn put_alone<'a>(
    spelled: &mut Spelled<'a>,
    option: Opt,
    name: &'a str,
) -> Result<Next<'a>, Fault<'a>>
    ensures { Gives (seen spelled.new) (spec.alone option (seen spelled.old next_words.Any)) result }
{
    match option {
        Opt::Alone(alone) => Err(Fault::Alone(alone, name)),
        option => note(
            spelled,
            Mention {
                option,
                name,
                word: None,
                is_given: true,
            },
        ),
    }
}

/// Puts in that an option isn't given after all.
///
/// # Errors
///
/// It is none that can be taken back; out of memory.
fn take_back<'a>(
    spelled: &mut Spelled<'a>,
    option: Opt,
    name: &'a str,
) -> Result<Next<'a>, Fault<'a>>
    ensures { Gives (seen spelled.new) (spec.taken_back option (seen spelled.old next_words.Any)) result }
{
    if may_be_taken_back(option) {
        note(
            spelled,
            Mention {
                option,
                name,
                word: None,
                is_given: false,
            },
        )
    } else {
        Err(Fault::UnknownOption(name))
    }
}

/// Whether an option may be taken back.
fn may_be_taken_back(option: Opt) -> bool
    ensures { result ≡ spec.may_be_taken_back option }
{
    !matches!(
        option,
        Opt::File
            | Opt::Place(_)
            | Opt::Effective
            | Opt::Help
            | Opt::Kind(_)
            | Opt::Do(_)
            | Opt::Alone(_)
    )
}

/// Puts in an option that is called by this name, with its word.
///
/// # Errors
///
/// The word is none that the option may have; out of memory.
fn put_word<'a>(
    spelled: &mut Spelled<'a>,
    option: Opt,
    name: &'a str,
    word: &'a str,
) -> Result<Next<'a>, Fault<'a>>
    ensures { Gives (seen spelled.new) (spec.with_word option word.now (seen spelled.old next_words.Any)) result }
{
    if is_meant(option, word) {
        note(
            spelled,
            Mention {
                option,
                name,
                word: Some(word),
                is_given: true,
            },
        )
    } else {
        Err(Fault::BadWord(option, word))
    }
}

/// Whether a word is one that the option may have.
fn is_meant(option: Opt, word: &str) -> bool
    ensures { result ≡ spec.is_meant option word.now }
{
    match option {
        Opt::File => !word.is_empty(),
        Opt::Type => kind_named(word).is_some(),
        Opt::Comment => is_comment(word),
        Opt::Indent => indent_named(word).is_some(),
        Opt::Newline => newline_named(word).is_some(),
        _ => true,
    }
}

/// Whether a word is a comment on one line.
fn is_comment(word: &str) -> bool
    ensures { result ≡ spec.is_comment word.now }
{
    !word.as_bytes().contains(&b'\n') && !word.as_bytes().contains(&0)
}

/// The indent of a word, as `tabs:1` or `spaces:4`.
pub(crate) fn indent_named(word: &str) -> Option<Indent>
    ensures { result ≡ spec.indent_named word.now }
{
    let (what, count) = word.split_once(':')?;
    let count = count_of(count)?;
    match what {
        "tabs" => Some(Indent::Tabs(count)),
        "spaces" => Some(Indent::Spaces(count)),
        _ => None,
    }
}

/// A count of at most 255.
fn count_of(digits: &str) -> Option<u8>
    ensures { result ≡ spec.count_of digits.now }
{
    match digits.parse::<u8>() {
        Ok(count) => Some(count),
        Err(_) => None,
    }
}

/// The line ending of a word.
pub(crate) fn newline_named(word: &str) -> Option<Newline>
    ensures { result ≡ spec.newline_named word.now }
{
    match word {
        "lf" => Some(Newline::Lf),
        "crlf" => Some(Newline::CrLf),
        "detect" => Some(Newline::Detect),
        _ => None,
    }
}
