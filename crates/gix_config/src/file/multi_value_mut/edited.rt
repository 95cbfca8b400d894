//! What an editor of several values edits.
use crate::file::multi_value_mut::targets::Targets;
use crate::file::{File, Metadata};
use crate::lookup::existing;
use gitconf_sources::key::KeyRef;

impl File {
    ghost use Rattle.std.specs.Fn.{ComputesKey};
    ghost use Rattle.gitconf_sources.specs.Key.{key_of};
    ghost use Rattle.gitconf_lookups.specs.SomeSections.{Filtered};
    ghost use Rattle.gitconf_lookups.specs.ValuePlaces.{key_places};
    ghost use Rattle.gix_config.specs.MultiValueEditors.{AreFoundTargets};

    /// The entries of a key, by [`Store::value_places_filter`](gitconf_store::store::Store::value_places_filter).
    pub(crate) fn value_targets<F: FnMut(&Metadata) -> bool>(
        &self,
        key: KeyRef<'_>,
        filter: F,
    ) -> Result<Targets, existing::Error>
        requires { F.IsAlwaysCallable filter }
        ensures { Filtered (λ keeps. ComputesKey F.FnMut keeps filter)
            (λ keeps s. AreFoundTargets (λ t. t) (key_of key.entry) self.now (key_places (key_of key.entry) keeps s) result) self.now }
    {
        let places = self.store.value_places_filter(key, filter)?;
        Ok(Targets::new(key.value_name.as_bytes(), places)?)
    }
}
