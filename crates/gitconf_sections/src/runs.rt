//! What was added at the end of a list goes among its elements, run by run.

/// That many of the first elements, and then that many of the others.
#[derive(Clone, Copy)]
pub struct Run {
    /// How many of the first.
    pub ahead: usize,
    /// How many of the others.
    pub count: usize,
}
