//! What a program told of names: of files by their paths, and of variables by their names.

use gix_config::NoMemory;
use std::alloc::Global;
use std::collections::BTreeMap;
use std::marker::{Model, PhantomData};

/// What is told of a name. What is known by it is of the type `R`, in contracts alone.
pub trait Tells<R>: Clone + Drop {
    ghost use Rattle.std.specs.Prelude.{◌≡◌};

    // What is known by it.
    ghost reported: { Self → R };

    // A copy tells the same.
    ghost same: { (told copy : Self) → Self.is_clone told copy → reported copy ≡ reported told };
}

/// What a program told of names. In contracts it is the list of what is known, each under the bytes of its name, in the order of these.
#[derive(Drop)]
pub struct ToldList<T: Tells<R>, R> {
    tree: BTreeMap<String, T>,
    known: PhantomData<R>,
}

impl<T: Tells<R>, R> Model for ToldList<T, R> {
    ghost use Rattle.std.specs.Prelude.{ℕ, List};
    ghost use Rattle.gitconf_sources.specs.InMemory.{reported_entries};

    ghost Value = { List (List ℕ × R) };

    ghost view = { λ l. reported_entries T.reported l.tree.entries };
}

impl<T: Tells<R>, R> ToldList<T, R> {
    ghost use Rattle.std.specs.Prelude.{◌≡◌, [], IfOk, OnErr, OnOk, string_bytes};
    ghost use Rattle.std.specs.Map.{lookup};
    ghost use Rattle.std.specs.Option.{option_map};
    ghost use Rattle.std.specs.Str.{bytes_eq};
    ghost use Rattle.gitconf_sources.specs.InMemory.{with_entry};
    ghost use Rattle.gix_config_c.specs.Told.{is_told};

    /// Nothing was told. Takes no memory.
    pub fn new(alloc: Global) -> ToldList<T, R>
        ensures { result ≡ [] }
    {
        ToldList {
            tree: BTreeMap::new(alloc),
            known: PhantomData,
        }
    }

    /// Tells something of a name, in place of what was told of it. Takes a walk down a tree of the names.
    ///
    /// # Errors
    ///
    /// Out of memory, only for a new name. What was told is then as it was.
    pub fn tell(&mut self, name: String, told: T) -> Result<(), NoMemory>
        ensures ok { OnOk result (self.new ≡ with_entry (string_bytes name) (T.reported told) self.old) }
        ensures err { OnErr result (self.new ≡ self.old) }
    {
        self.tree.insert(name, told)?;
        Ok(())
    }

    /// Whether something was told of a name. Takes a walk down a tree of the names.
    pub fn knows(&self, name: &str) -> bool
        ensures { result ≡ is_told self.now name.now }
    {
        self.tree.contains_key(name)
    }

    /// What was told of a name. Takes a walk down a tree of the names.
    pub fn told(&self, name: &str) -> Option<&T>
        ensures { option_map (λ told. T.reported told.now) result ≡ lookup (bytes_eq name.now) self.now }
    {
        self.tree.get(name)
    }

    /// A copy. Each byte is copied once.
    ///
    /// # Errors
    ///
    /// Out of memory.
    pub fn try_clone(&self) -> Result<ToldList<T, R>, NoMemory>
        ensures { IfOk result (λ copy. copy ≡ self.now) }
    {
        Ok(ToldList {
            tree: self.tree.clone()?,
            known: PhantomData,
        })
    }
}
