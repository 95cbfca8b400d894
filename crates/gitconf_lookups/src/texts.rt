//! What found entries mean.
ghost use Rattle.std.specs.Option.{option_map};
ghost use Rattle.std.specs.Prelude.{◌≡◌, List, map, IfOk};
ghost use Rattle.bstr.specs.Owned.{bstring_bytes};
ghost use Rattle.gitconf_text.specs.Value.{plain};
ghost use Rattle.gitconf_state.specs.Lookup.{meaning as meant};
ghost use Rattle.gitconf_body.specs.Bodies.{IsFoundImplicit};
ghost use Rattle.gitconf_lookups.specs.Finding.{AreFound, Place, place_of};
ghost use Rattle.gitconf_lookups.specs.Lookups.{IsFound, shown_with, texts_of, if_any};

use crate::found::Found;
use bstr::BString;
use gitconf_body::meanings::entry_meaning;
use gitconf_sources::lists::put;
use gitconf_text::NoMemory;
use gitconf_views::section::SectionRef;
use std::alloc::Global;

/// What an entry means, if one was found.
pub fn text(alloc: Global, found: &Option<Found<'_>>) -> Result<Option<BString>, NoMemory>
    ensures { IsFound bstring_bytes result (option_map (λ (p : Place). meant p.1) (option_map place_of found.now)) }
{
    match found {
        // Not `meaning` of the place: it would put the view of the section into memory.
        Some(place) => Ok(Some(entry_meaning(alloc, place.section.buffer, place.entry)?)),
        None => Ok(None),
    }
}

/// What an entry means, and its section, if one was found.
pub fn text_with_section<'a>(
    alloc: Global,
    found: &Option<Found<'a>>,
) -> Result<Option<(BString, SectionRef<'a>)>, NoMemory>
    ensures { IsFound shown_with result (option_map (λ (p : Place). (meant p.1, p.0)) (option_map place_of found.now)) }
{
    match found {
        Some(place) => {
            let text = place.meaning(alloc)?;
            Ok(Some((text, place.section())))
        }
        None => Ok(None),
    }
}

/// What an entry's value means, if an entry was found and has a value.
pub fn implicit_text(
    alloc: Global,
    found: &Option<Found<'_>>,
) -> Result<Option<Option<BString>>, NoMemory>
    ensures { IsFoundImplicit result (option_map (λ (p : Place). option_map plain p.1.raw) (option_map place_of found.now)) }
{
    match found {
        Some(place) => Ok(Some(place.value(alloc)?)),
        None => Ok(None),
    }
}

/// What the entries mean, in order.
fn meanings(alloc: Global, found: &[Found<'_>]) -> Result<Vec<BString>, NoMemory>
    ensures { IfOk result (λ texts. texts_of texts ≡ map (λ f. meant (place_of f).1) found.now) }
{
    let mut texts = Vec::with_capacity(alloc, found.len())?;
    for place in found {
        texts.push(place.meaning(alloc)?)?;
    }
    Ok(texts)
}

/// What the entries mean, if some were found.
pub fn texts(
    alloc: Global,
    found: Result<Vec<Found<'_>>, NoMemory>,
) -> Result<Option<Vec<BString>>, NoMemory>
    ensures { (places : List Place) → AreFound found.entry places → IsFound texts_of result (if_any (map (λ (p : Place). meant p.1) places)) }
{
    let found = found?;
    if found.is_empty() {
        return Ok(None);
    }
    Ok(Some(meanings(alloc, &found)?))
}

/// What the entries mean, each with its section, in order.
fn meanings_with_sections<'a>(
    alloc: Global,
    found: &[Found<'a>],
) -> Result<Vec<(BString, SectionRef<'a>)>, NoMemory>
    ensures { IfOk result (λ texts. map shown_with texts.items ≡ map (λ f. (meant (place_of f).1, (place_of f).0)) found.now) }
{
    let mut texts = Vec::with_capacity(alloc, found.len())?;
    for place in found {
        let text = place.meaning(alloc)?;
        put(&mut texts, (text, place.section()))?;
    }
    Ok(texts)
}

/// What the entries mean, each with its section, if some were found.
pub fn texts_with_sections<'a>(
    alloc: Global,
    found: Result<Vec<Found<'a>>, NoMemory>,
) -> Result<Option<Vec<(BString, SectionRef<'a>)>>, NoMemory>
    ensures { (places : List Place) → AreFound found.entry places → IsFound (λ texts. map shown_with texts.items) result
        (if_any (map (λ (p : Place). (meant p.1, p.0)) places)) }
{
    let found = found?;
    if found.is_empty() {
        return Ok(None);
    }
    Ok(Some(meanings_with_sections(alloc, &found)?))
}
