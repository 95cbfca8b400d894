//! `Debug` shows views, and sections that are in no file, by their type's name alone; their calls show what they have.
use crate::detached::Section;
use crate::detached::editor::DetachedSectionMut;
use crate::section::SectionRef;
use crate::views::{BodyRef, HeaderRef};
use std::fmt;

impl fmt::Debug for HeaderRef<'_> {
    fn fmt<W: fmt::Write>(&self, f: &mut fmt::Formatter<W>) -> fmt::Result {
        f.debug_struct("HeaderRef").finish_non_exhaustive()
    }
}

impl fmt::Debug for BodyRef<'_> {
    fn fmt<W: fmt::Write>(&self, f: &mut fmt::Formatter<W>) -> fmt::Result {
        f.debug_struct("BodyRef").finish_non_exhaustive()
    }
}

impl fmt::Debug for SectionRef<'_> {
    fn fmt<W: fmt::Write>(&self, f: &mut fmt::Formatter<W>) -> fmt::Result {
        f.debug_struct("SectionRef").finish_non_exhaustive()
    }
}

impl fmt::Debug for Section {
    fn fmt<W: fmt::Write>(&self, f: &mut fmt::Formatter<W>) -> fmt::Result {
        f.debug_struct("Section").finish_non_exhaustive()
    }
}

impl<B: Drop> fmt::Debug for DetachedSectionMut<'_, B> {
    fn fmt<W: fmt::Write>(&self, f: &mut fmt::Formatter<W>) -> fmt::Result {
        f.debug_struct("DetachedSectionMut").finish_non_exhaustive()
    }
}
