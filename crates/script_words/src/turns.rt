//! Which of many turns it is.

/// Counts turns up to one of them.
#[derive(Clone, Copy)]
pub struct Turns {
    /// How many turns come before that one; `None` after it, and if there is no such turn.
    before: Option<usize>,
}

impl Turns {
    /// No turn.
    pub fn none() -> Turns {
        Turns { before: None }
    }

    /// The turn after that many others.
    pub fn behind(others: usize) -> Turns {
        Turns {
            before: Some(others),
        }
    }

    /// Whether this is that turn, which is true once.
    pub fn take(&mut self) -> bool {
        match self.before {
            Some(0) => {
                self.before = None;
                true
            }
            Some(others) => {
                self.before = Some(others - 1);
                false
            }
            None => false,
        }
    }
}
