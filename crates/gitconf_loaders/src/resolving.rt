//! Resolving includes.
ghost use Rattle.std.specs.Prelude.{◌≡◌, None};
ghost use Rattle.gitconf_includes.specs.Errors.{says};
ghost use Rattle.gitconf_includes.specs.Expansion.{Expands, Leaves, Reached};
ghost use Rattle.gitconf_includes.specs.Outcomes.{asks_of, CountsFaults};
ghost use Rattle.gitconf_loaders.specs.Errors.{init_says};
ghost use Rattle.gitconf_loaders.specs.Resolving.{IsMadeOf, MakesCounted};

use crate::expansion::Expansion;
pub use crate::expansion::load;
use crate::gathering::Gathering;
use gitconf_includes::expanding::expand_file;
use gitconf_includes::includes::Error;
use gitconf_includes::init;
use gitconf_includes::init::Options;
use gitconf_sources::Files;
use gitconf_sources::meta::Metadata;
use gitconf_store::store::Store;
use std::alloc::Global;
use std::rc::Rc;

/// A store whose includes were resolved, or were refused. If they were refused, it has what was put in before.
#[derive(Drop)]
pub struct Resolved {
    /// The store, with everything that was put in.
    pub store: Store,
    /// Whether all includes were resolved, or why they were refused.
    pub result: Result<(), Error>,
}

/// Resolves the includes of a store, as many levels deep as the options say. The time is linear in all that is read, except for the order
/// of the sections, which is made once at the end.
pub fn resolve<F: Files>(
    alloc: Global,
    files: &mut F,
    options: &Options<'_>,
    store: Store,
) -> Resolved
    ensures expanded { (r : Reached) × Expands options.now.includes.max_depth (asks_of options.now (F.table files.old)) None store r
        × Leaves says result.result result.store r }
    ensures table { F.table files.new ≡ F.table files.old }
    ensures counted { CountsFaults result.result (F.failures files.old) (F.failures files.new) }
{
    let mut expansion = Expansion {
        gathering: Gathering::of(store),
    };
    let result = expand_file(alloc, files, options, &mut expansion);
    Resolved {
        store: expansion.gathering.into_store(),
        result,
    }
}

/// The store of a text, with its includes resolved. The text becomes the store's buffer.
///
/// # Errors
///
/// Those of the parser, and of [`resolve`].
pub fn resolved_text<F: Files>(
    alloc: Global,
    files: &mut F,
    options: &Options<'_>,
    text: Vec<u8>,
    meta: Rc<Metadata>,
) -> Result<Store, init::Error>
    ensures made { IsMadeOf init_says (asks_of options.now (F.table files.old)) text.items meta.value result }
    ensures table { F.table files.new ≡ F.table files.old }
    ensures counted { MakesCounted result (F.failures files.old) (F.failures files.new) }
{
    let store = load(alloc, text, options.lossy, meta)?;
    let Resolved { store, result } = resolve(alloc, files, options, store);
    match result {
        Ok(()) => Ok(store),
        Err(refused) => {
            drop(store);
            Err(init::Error::from(refused))
        }
    }
}
