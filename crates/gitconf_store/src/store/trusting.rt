//! The trust of a section of a store.
ghost use Rattle.std.specs.Prelude.{◌≡◌, true, IfOk, IsOk, None, OnErr, OnOk};
ghost use Rattle.gitconf_state.specs.Edits.{SetTrust, apply, numbered};
ghost use Rattle.gitconf_store.specs.Edited.{has_number};

use crate::store::Store;
use gitconf_sections::id::SectionId;
use gitconf_sources::source::Trust;
use gitconf_text::NoMemory;
use gitconf_views::section::trusted;

impl Store {
    /// Sets how far the section of a number is trusted. Its metadata is its own from then on; that of other sections and of the file stays,
    /// even if it was shared with it. If no section has the number, nothing is changed.
    ///
    /// Constant time except for the path of the metadata, which is copied.
    ///
    /// # Errors
    ///
    /// E27 when out of memory, only if a section has the number. The file is then as it was.
    pub fn set_trust(&mut self, id: SectionId, trust: Trust) -> Result<(), NoMemory>
        ensures ok { OnOk result (self.new ≡ apply (SetTrust id trust) self.old) }
        ensures none { numbered id self.old ≡ None → IsOk result }
        ensures err { OnErr result (self.new ≡ self.old) }
        ensures stands { has_number id self.old ≡ true → has_number id self.new ≡ true }
    {
        let Some(at) = self.sections.position(id) else {
            return Ok(());
        };
        let alloc = *self.buffer.allocator();
        let section = self.sections.at(at);
        let meta = trusted(alloc, section.meta, trust)?;
        self.sections.set_meta(at, meta);
        Ok(())
    }
}
