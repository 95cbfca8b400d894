//! `Debug` shows files and their editors by their type's name alone; their calls show what they have.
use crate::file::{File, MultiValueMut, SectionMut, ValueMut};
use std::fmt;

impl fmt::Debug for File {
    fn fmt<W: fmt::Write>(&self, f: &mut fmt::Formatter<W>) -> fmt::Result {
        f.debug_struct("File").finish_non_exhaustive()
    }
}

impl<B: Drop> fmt::Debug for SectionMut<'_, B> {
    fn fmt<W: fmt::Write>(&self, f: &mut fmt::Formatter<W>) -> fmt::Result {
        f.debug_struct("SectionMut").finish_non_exhaustive()
    }
}

impl<S: Drop> fmt::Debug for ValueMut<'_, S> {
    fn fmt<W: fmt::Write>(&self, f: &mut fmt::Formatter<W>) -> fmt::Result {
        f.debug_struct("ValueMut").finish_non_exhaustive()
    }
}

impl<T: Drop> fmt::Debug for MultiValueMut<'_, T> {
    fn fmt<W: fmt::Write>(&self, f: &mut fmt::Formatter<W>) -> fmt::Result {
        f.debug_struct("MultiValueMut").finish_non_exhaustive()
    }
}
