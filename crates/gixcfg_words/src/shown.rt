//! What messages show.
ghost use Rattle.std.specs.Prelude.{◌≡◌};
ghost use Rattle.gixcfg_words.specs.Shown.{steers};

use std::fmt;
use std::fmt::Write;

/// What a message shows of a word, or of what else can be displayed: in place of what would steer a terminal is U+FFFD.
#[derive(Clone, Copy)]
pub struct Shown<T: fmt::Display>(pub T);

/// Puts letter by letter what is shown of a text.
#[derive(Drop)]
struct Letters<'a, W: fmt::Write> {
    shown: &'a mut fmt::Formatter<W>,
}

impl<W: fmt::Write> fmt::Write for Letters<'_, W> {
    fn write_str(&mut self, text: &str) -> fmt::Result {
        for letter in text.chars() {
            self.shown
                .write_char(if steers(letter) { '\u{fffd}' } else { letter })?;
        }
        Ok(())
    }
}

impl<T: fmt::Display> fmt::Display for Shown<T> {
    fn fmt<W: fmt::Write>(&self, f: &mut fmt::Formatter<W>) -> fmt::Result {
        write!(Letters { shown: f }, "{}", self.0)
    }
}

/// Whether a letter would steer a terminal: a control character, or one that turns the direction of what follows.
pub fn steers(letter: char) -> bool
    ensures { result ≡ steers letter }
{
    letter.is_control()
        || matches!(letter, '\u{200e}' | '\u{200f}' | '\u{202a}'..='\u{202e}' | '\u{2066}'..='\u{2069}')
}
