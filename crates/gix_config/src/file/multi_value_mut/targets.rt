//! The entries of an editor of several values.
ghost use Rattle.std.specs.Prelude.{◌≡◌, map};
ghost use Rattle.gitconf_store.specs.Several as spec;

use crate::file::SectionId;
use gitconf_text::NoMemory;
use std::marker::Model;

/// The name of a value as the caller spelled it, and the entries' places. The places are in order, each by the number of its section and
/// its place among the items of the body, counted in items from 0.
#[derive(Drop)]
pub struct Targets {
    key: Vec<u8>,
    places: Vec<(SectionId, usize)>,
}

impl Model for Targets {
    ghost use Rattle.std.proofs.Math.Bool.{Bool-set};
    ghost use Rattle.std.specs.Prelude.{◌≡◌, true};
    ghost use Rattle.gitconf_text.specs.Names.{is_value_name};
    ghost use Rattle.gix_config.specs.Targeted.{Targeted};

    ghost Value = { Targeted };

    ghost view = { λ t. record { key = t.key.items; places = t.places.items } };

    ghost invariant = { λ t. is_value_name t.key.items ≡ true };
}

/// The place of an entry in its section after another one is removed.
fn moved_up(place: &(SectionId, usize), gone: &(SectionId, usize)) -> usize
    ensures { result ≡ (spec.moved_up gone.now place.now).1 }
{
    if place.0 == gone.0 && gone.1 < place.1 {
        place.1 - 1
    } else {
        place.1
    }
}

/// Moves all places up after an entry is removed.
fn move_up(places: &mut [(SectionId, usize)], gone: &(SectionId, usize))
    ensures { places.new ≡ map (spec.moved_up gone.now) places.old }
{
    for place in places.iter_mut() {
        place.1 = moved_up(place, gone);
    }
}

/// Moves all places of a list up after an entry is removed.
fn move_all_up(places: &mut Vec<(SectionId, usize)>, gone: &(SectionId, usize))
    ensures { places.new.items ≡ map (spec.moved_up gone.now) places.old.items }
{
    move_up(places, gone);
}

impl Targets {
    ghost use Rattle.std.specs.Prelude.{◌≡◌, ◌<◌, [], length, true, IfOk};
    ghost use Rattle.gitconf_text.specs.Names.{is_value_name};
    ghost use Rattle.gix_config.specs.Targeted.{place_at, without_place};

    /// A copy of a name, and places.
    ///
    /// # Errors
    ///
    /// E27 when out of memory.
    pub(crate) fn new(key: &[u8], places: Vec<(SectionId, usize)>) -> Result<Targets, NoMemory>
        requires { is_value_name key.now ≡ true }
        ensures { IfOk result (λ t. t ≡ record { key = key.now; places = places.items }) }
    {
        let key = Vec::from_slice(*places.allocator(), key)?;
        Ok(Targets { key, places })
    }

    /// The name.
    pub(crate) fn key(&self) -> &[u8]
        ensures key { result.now ≡ self.now.key }
        ensures name { is_value_name result.now ≡ true }
    {
        &self.key
    }

    /// The places of the entries, in order.
    pub(crate) fn places(&self) -> &[(SectionId, usize)]
        ensures { result.now ≡ self.now.places }
    {
        &self.places
    }

    /// The place of one of the entries.
    pub(crate) fn at(&self, index: usize) -> (SectionId, usize)
        requires { index < length self.now.places }
        ensures { result ≡ place_at self.now.places index }
    {
        self.places[index]
    }

    /// Removes one of the entries from the list; those after it in its section move one place nearer to the front. Returns its place.
    pub(crate) fn take(&mut self, index: usize) -> (SectionId, usize)
        requires { index < length self.old.places }
        ensures gone { result ≡ place_at self.old.places index }
        ensures left { self.new ≡ record self.old { places = without_place index self.old.places } }
    {
        let gone = self.places.remove(index);
        move_all_up(&mut self.places, &gone);
        gone
    }

    /// Removes all of them.
    pub(crate) fn clear(&mut self)
        ensures { self.new ≡ record self.old { places = [] } }
    {
        self.places.clear();
    }
}
