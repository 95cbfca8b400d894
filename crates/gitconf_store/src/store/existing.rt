//! Setting the value of an existing entry.
use crate::set_raw_value;
use crate::store::Store;
use gitconf_body::value_at::InPlaceOf;
use gitconf_sources::key::KeyRef;

impl Store {
    ghost use Rattle.gitconf_store.specs.Existing.{IsSetExisting};
    ghost use Rattle.gitconf_sources.specs.Key.{key_of};

    /// `File::set_existing_raw_value_by` of `gix_config` is this call, and says what it does.
    pub fn set_existing_raw_value(
        &mut self,
        key: KeyRef<'_>,
        new_value: &[u8],
    ) -> Result<(), set_raw_value::Error>
        ensures { IsSetExisting (key_of key.entry) new_value.now result self.old self.new }
    {
        let place = self.value_place_filter(key, |_| true)?;
        self.rewrite_entry_at(
            place.0,
            place.1,
            InPlaceOf::EntryButLineEnd,
            key.value_name.as_bytes(),
            new_value,
        )?;
        Ok(())
    }
}
