//! A section that is in no file: its copy, its editor, and what both show.

use crate::calls::{Told, all, are_texts, is_text};
use bstr::BString;
use gitconf_tests::shim::{Outcome, begin, each_refused, was_refused};
use gix_config::NoMemory;
use gix_config::file::section::BodyRef;
use gix_config::file::{DetachedSectionMut, Metadata, Section};
use gix_config::source::Trust;
use std::alloc::Global;
use std::rc::Rc;
use std::test::Fail;

/// A section `[A]` without a value.
fn section_without_value(alloc: Global) -> Result<Section, Fail> {
    let meta = Rc::new(alloc, Metadata::api())?;
    Ok(Section::new(alloc, "A", None, meta)?)
}

/// Pushes a value, and another one without `=`.
fn push_both(section: &mut Section) -> Result<(), Fail> {
    let mut editor = section.to_mut()?;
    editor.push("k", Some(b"2"))?;
    editor.push("k", None)?;
    Ok(())
}

/// The section with both.
fn section_of_two(alloc: Global) -> Result<Section, Fail> {
    let mut section = section_without_value(alloc)?;
    push_both(&mut section)?;
    Ok(section)
}

const TEXT: &[u8] = b"[A]\n\tk = 2\n\tk\n";

fn is_trusted(meta: &Metadata, trust: Trust) -> bool {
    meta.trust == trust
}

/// Whether the section is trusted less after that, and fully before; `None` when out of memory, and then it is as before.
fn trusts_less(editor: &mut DetachedSectionMut<'_>) -> Told {
    if !is_trusted(editor.meta(), Trust::Full) {
        return Some(false);
    }
    match editor.set_trust(Trust::Reduced) {
        Ok(()) => Some(is_trusted(editor.meta(), Trust::Reduced)),
        Err(NoMemory) if is_trusted(editor.meta(), Trust::Full) => None,
        Err(NoMemory) => Some(false),
    }
}

/// Whether the names are those of both values.
fn has_both(editor: &DetachedSectionMut<'_>) -> bool {
    let mut names = editor.value_names();
    names.next() == Some("k")
        && names.next() == Some("k")
        && names.next().is_none()
        && editor.contains_value_name("K")
        && !editor.contains_value_name("j")
        && editor.num_values() == 2
        && !editor.is_void()
}

/// Whether the editor shows its section, its header and its body.
fn shows_parts(editor: &DetachedSectionMut<'_>) -> bool {
    editor.header().name() == b"A".as_slice()
        && editor.body().num_values() == 2
        && editor.section().id() == editor.id()
}

/// Whether an editor shows the section, and it is trusted less by it.
fn shows_and_trusts_less(section: &mut Section) -> Told {
    match section.to_mut() {
        Ok(mut editor) if has_both(&editor) && shows_parts(&editor) => trusts_less(&mut editor),
        Ok(_) => Some(false),
        Err(NoMemory) => None,
    }
}

/// Whether the section has its text, and this trust.
fn is_whole(section: &Section, trust: Trust) -> bool {
    let shown = section.to_ref();
    is_trusted(shown.meta(), trust) && is_printed(shown.to_bstring()) == Some(true)
}

/// One attempt at an editor.
fn edited(alloc: Global, section: &mut Section) -> Result<Outcome, Fail> {
    begin(alloc)?;
    let told = shows_and_trusts_less(section);
    let refused = was_refused(alloc);
    let trust = if told.is_some() {
        Trust::Reduced
    } else {
        Trust::Full
    };
    Ok(Outcome {
        refused,
        fits: told.unwrap_or(refused) && is_whole(section, trust),
    })
}

fn an_editor(alloc: Global) -> Result<Outcome, Fail> {
    let mut section = section_of_two(alloc)?;
    edited(alloc, &mut section)
}

#[test]
fn an_editor_shows_and_trusts(rt: HostRuntime) -> Result<(), Fail> {
    each_refused(rt.alloc(), "an editor of a section alone", an_editor)
}

/// Whether this is the text; `None` when out of memory.
fn is_printed(answer: Result<BString, NoMemory>) -> Told {
    match answer {
        Ok(text) => Some(text.as_bytes() == TEXT),
        Err(NoMemory) => None,
    }
}

/// Whether a copy is the same section; `None` when out of memory.
fn is_copied(copy: Result<Section, NoMemory>) -> Told {
    match copy {
        Ok(copy) => is_printed(copy.to_ref().to_bstring()),
        Err(NoMemory) => None,
    }
}

/// Whether the names are those of both values.
fn has_names(body: BodyRef<'_>) -> bool {
    let mut names = body.value_names();
    names.next() == Some("k")
        && names.next() == Some("k")
        && names.next().is_none()
        && body.contains_value_name("K")
        && !body.contains_value_name("j")
        && !body.is_void()
}

/// Whether these are the texts; `None` when out of memory.
fn are_all(found: Result<Vec<BString>, NoMemory>, wanted: &[&[u8]]) -> Told {
    match found {
        Ok(found) => Some(are_texts(&found, wanted)),
        Err(NoMemory) => None,
    }
}

/// Whether the last entry has no value, or there is no entry, as expected.
fn is_implicit(found: Result<Option<Option<BString>>, NoMemory>, stands: bool) -> Told {
    match found {
        Ok(Some(value)) => Some(stands && value.is_none()),
        Ok(None) => Some(!stands),
        Err(NoMemory) => None,
    }
}

/// Whether the body has the first value as the last one that is written with `=`, and both.
fn has_values(body: BodyRef<'_>) -> Told {
    all(&[
        Some(has_names(body)),
        is_text(&body.value("k"), None),
        is_implicit(body.value_implicit("k"), true),
        is_implicit(body.value_implicit("j"), false),
        are_all(body.values("K"), &[b"2", b""]),
        are_all(body.values("j"), &[]),
    ])
}

/// A section alone, its copy and its body.
fn told(section: &Section) -> Told {
    all(&[
        is_copied(section.try_clone()),
        is_copied(section.to_ref().to_owned()),
        has_values(section.to_ref().body()),
    ])
}

/// One attempt at all of this.
fn looked(alloc: Global, section: &Section) -> Result<Outcome, Fail> {
    begin(alloc)?;
    let told = told(section);
    let refused = was_refused(alloc);
    Ok(Outcome {
        refused,
        fits: told.unwrap_or(refused),
    })
}

#[test]
fn copies_and_bodies(rt: HostRuntime) -> Result<(), Fail> {
    let section = section_of_two(rt.alloc())?;
    each_refused(
        rt.alloc(),
        "copies and a body",
        |alloc| looked(alloc, &section),
    )
}
