//! Filters of metadata, and the last section that passes one.
ghost use Rattle.std.specs.Fn.{ComputesKey};
ghost use Rattle.std.specs.List.{last_or};
ghost use Rattle.std.specs.Option.{option_map};
ghost use Rattle.std.specs.Prelude.{◌≡◌, Bool, List, None, true};
ghost use Rattle.gitconf_sources.specs.Metadata.{Meta};
ghost use Rattle.gitconf_state.specs.State.{SectionState};
ghost use Rattle.gitconf_views.specs.Views.{shown};
ghost use Rattle.gitconf_lookups.specs.SomeSections.{AreSome};
ghost use Rattle.gitconf_lookups.specs.Walks.{named_left, passing};

use crate::walks::SectionsNamed;
use gitconf_sources::meta::Metadata;
use gitconf_views::section::SectionRef;

/// Whether the metadata passes the filter. Only this function calls the filter.
pub fn passes<F: FnMut(&Metadata) -> bool>(filter: &mut F, meta: &Metadata) -> bool
    requires { F.IsAlwaysCallable filter.old }
    ensures callable { F.IsAlwaysCallable filter.new }
    ensures exact { (keeps : Meta → Bool) → ComputesKey F.FnMut keeps filter.old
        → ComputesKey F.FnMut keeps filter.new × (result ≡ keeps meta.now) }
{
    filter(meta)
}

/// The last of the sections whose metadata passes the filter. The filter is called for the sections from the last one up to that
/// one.
pub fn last_passing<'a, F: FnMut(&Metadata) -> bool>(
    sections: SectionsNamed<'a, '_, '_>,
    filter: F,
) -> Option<SectionRef<'a>>
    requires { F.IsAlwaysCallable filter }
    ensures exact { (keeps : Meta → Bool) → ComputesKey F.FnMut keeps filter
        → option_map shown result ≡ last_or None (passing keeps (named_left sections.entry)) }
    // For any filter.
    ensures some { (some : List SectionState) × AreSome (named_left sections.entry) some
        × (option_map shown result ≡ last_or None (passing (λ _. true) some)) }
{
    let mut filter = filter;
    let mut left = sections;
    while let Some(section) = left.next_back() {
        if passes(&mut filter, section.meta()) {
            return Some(section);
        }
    }
    None
}
