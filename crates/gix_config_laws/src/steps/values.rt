//! Calls on an editor of a value, or of several: steps of the file that it edits.
ghost use Rattle.std.specs.Prelude.{◌∷◌, ◌<◌, [], if◌then◌else◌, length, map};
ghost use Rattle.gitconf_body.specs.Refusals.{span_refusal};
ghost use Rattle.gitconf_state.specs.Edits.{Done};
ghost use Rattle.gix_config.specs.MultiValueEditors as several;
ghost use Rattle.gix_config.specs.Targeted.{place_at};
ghost use Rattle.gix_config.specs.ValueEditors.{edited, place_of, stands_there, writing};
ghost use Rattle.gix_config_laws.specs.Headline.{DeletesAll, LeavesFile, SetsValues};
ghost use Rattle.gix_config_laws.specs.Steps.{IsStep};

use gitconf_text::parse::span;
use gix_config::file::{MultiValueMut, ValueMut};

/// [`ValueMut::set`].
pub fn set(editor: &mut ValueMut<'_>, value: &[u8]) -> Result<(), span::Error>
    ensures { IsStep (writing editor.old value.now) (λ _. Done) span_refusal result (edited editor.old) (edited editor.new) }
{
    editor.set(value)
}

/// [`ValueMut::set_string`].
pub fn set_string(editor: &mut ValueMut<'_>, value: &str) -> Result<(), span::Error>
    ensures { IsStep (writing editor.old value.now) (λ _. Done) span_refusal result (edited editor.old) (edited editor.new) }
{
    editor.set_string(value)
}

/// [`ValueMut::delete`].
pub fn delete(editor: &mut ValueMut<'_>)
    ensures { LeavesFile (DeletesAll (if stands_there editor.old then place_of editor.old ∷ [] else [])) (edited editor.old) (edited editor.new) }
{
    editor.delete()
}

/// [`MultiValueMut::set_at`].
pub fn set_at(editor: &mut MultiValueMut<'_>, index: usize, value: &[u8]) -> Result<(), span::Error>
    requires { index < length (several.places_of editor.old) }
    ensures { LeavesFile (SetsValues (several.key_of editor.old) (place_at (several.places_of editor.old) index ∷ []) (value.now ∷ []) result)
        (several.edited editor.old) (several.edited editor.new) }
{
    editor.set_at(index, value)
}

/// [`MultiValueMut::set_string_at`].
pub fn set_string_at(
    editor: &mut MultiValueMut<'_>,
    index: usize,
    value: &str,
) -> Result<(), span::Error>
    requires { index < length (several.places_of editor.old) }
    ensures { LeavesFile (SetsValues (several.key_of editor.old) (place_at (several.places_of editor.old) index ∷ []) (value.now ∷ []) result)
        (several.edited editor.old) (several.edited editor.new) }
{
    editor.set_string_at(index, value)
}

/// [`MultiValueMut::set_values`].
pub fn set_values(editor: &mut MultiValueMut<'_>, values: &[&[u8]]) -> Result<(), span::Error>
    ensures { LeavesFile (SetsValues (several.key_of editor.old) (several.places_of editor.old) (map (λ v. v.now) values.now) result)
        (several.edited editor.old) (several.edited editor.new) }
{
    editor.set_values(values)
}

/// [`MultiValueMut::set_all`].
pub fn set_all(editor: &mut MultiValueMut<'_>, value: &[u8]) -> Result<(), span::Error>
    ensures { let places = several.places_of editor.old in LeavesFile (SetsValues (several.key_of editor.old) places (map (λ _. value.now) places) result)
        (several.edited editor.old) (several.edited editor.new) }
{
    editor.set_all(value)
}

/// [`MultiValueMut::delete`].
pub fn delete_at(editor: &mut MultiValueMut<'_>, index: usize)
    requires { index < length (several.places_of editor.old) }
    ensures { LeavesFile (DeletesAll (place_at (several.places_of editor.old) index ∷ [])) (several.edited editor.old) (several.edited editor.new) }
{
    editor.delete(index)
}

/// [`MultiValueMut::delete_all`].
pub fn delete_all(editor: &mut MultiValueMut<'_>)
    ensures { LeavesFile (DeletesAll (several.places_of editor.old)) (several.edited editor.old) (several.edited editor.new) }
{
    editor.delete_all()
}
