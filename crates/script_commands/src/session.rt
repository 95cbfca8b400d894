//! What commands work on: four files, one of which is the current one, two sections that are in no file, and what is set of what
//! is outside.

ghost use Rattle.std.specs.Prelude.{◌≡◌, None, OnErr, OnOk};
ghost use Rattle.script_commands.specs.Session.{ChangesFile, LoadsFile};

use crate::surroundings::Outside;
use gix_config::File;
use gix_config::file::{Metadata, Section};
use script_words::words::{Place, Slot};
use std::alloc::{AllocError, Global};
use std::mem::replace;
use std::rc::Rc;

/// A text that a file is made of.
#[derive(Drop)]
pub struct Loaded {
    pub text: Vec<u8>,
    /// Whether blanks, comments and line endings are left out.
    pub lossy: bool,
}

impl Loaded {
    /// An empty text.
    pub fn nothing(alloc: Global) -> Loaded {
        Loaded {
            text: Vec::new(alloc),
            lossy: false,
        }
    }
}

/// The state of a script.
#[derive(Drop)]
pub struct Session {
    f: File,
    g: File,
    h: File,
    i: File,
    s: Option<Section>,
    t: Option<Section>,
    current: Slot,
    /// The metadata of what is loaded or made.
    meta: Rc<Metadata>,
    /// What the current file was last made of, since it became the current one.
    loaded: Option<Loaded>,
    outside: Outside,
    tells_refusals: bool,
}

impl Session {
    /// Four empty files, the first of them the current one, and no section.
    pub fn new(alloc: Global) -> Result<Session, AllocError> {
        let meta = Rc::new(alloc, Metadata::api())?;
        // All shares are taken before a file is made, so that nothing is left if one is refused.
        let (f, g, h, i) = (meta.clone()?, meta.clone()?, meta.clone()?, meta.clone()?);
        Ok(Session {
            f: File::new(alloc, f),
            g: File::new(alloc, g),
            h: File::new(alloc, h),
            i: File::new(alloc, i),
            s: None,
            t: None,
            current: Slot::F,
            meta,
            loaded: Some(Loaded::nothing(alloc)),
            outside: Outside::new(alloc),
            tells_refusals: false,
        })
    }

    /// The current file.
    pub fn file(&self) -> &File {
        self.file_at(self.current)
    }

    /// The file at that place.
    pub fn file_at(&self, slot: Slot) -> &File {
        match slot {
            Slot::F => &self.f,
            Slot::G => &self.g,
            Slot::H => &self.h,
            Slot::I => &self.i,
        }
    }

    /// The current file, to change it.
    pub fn file_mut(&mut self) -> &mut File {
        match self.current {
            Slot::F => &mut self.f,
            Slot::G => &mut self.g,
            Slot::H => &mut self.h,
            Slot::I => &mut self.i,
        }
    }

    /// Makes the file at that place the current one.
    pub fn select(&mut self, slot: Slot)
        ensures { self.new ≡ record self.old { current = slot; loaded = None } }
    {
        self.current = slot;
        self.loaded = None;
    }

    /// Replaces the current file, with what the new one was made of.
    pub fn put(&mut self, file: File, loaded: Option<Loaded>)
        ensures { LoadsFile self.old.current self.old self.new }
    {
        self.put_at(self.current, file);
        self.loaded = loaded;
    }

    /// Replaces the current file by one that was made of the same.
    pub fn put_again(&mut self, file: File)
        ensures { ChangesFile self.old.current self.old self.new }
    {
        self.put_at(self.current, file);
    }

    /// What the current file was last made of, since it became the current one.
    pub fn loaded(&self) -> Option<&Loaded> {
        self.loaded.as_ref()
    }

    /// Puts a file into that place.
    pub fn put_at(&mut self, slot: Slot, file: File)
        ensures { ChangesFile slot self.old self.new }
    {
        drop(match slot {
            Slot::F => replace(&mut self.f, file),
            Slot::G => replace(&mut self.g, file),
            Slot::H => replace(&mut self.h, file),
            Slot::I => replace(&mut self.i, file),
        });
    }

    /// Takes the file from that place, and leaves an empty one there.
    pub fn take(&mut self, alloc: Global, slot: Slot) -> Result<File, AllocError>
        ensures ok { OnOk result (ChangesFile slot self.old self.new) }
        ensures err { OnErr result (self.new ≡ self.old) }
    {
        let empty = File::new(alloc, self.meta.clone()?);
        Ok(match slot {
            Slot::F => replace(&mut self.f, empty),
            Slot::G => replace(&mut self.g, empty),
            Slot::H => replace(&mut self.h, empty),
            Slot::I => replace(&mut self.i, empty),
        })
    }

    /// The section at that place, if there is one.
    pub fn section_at(&self, place: Place) -> Option<&Section> {
        match place {
            Place::S => self.s.as_ref(),
            Place::T => self.t.as_ref(),
        }
    }

    /// Puts a section into that place, or empties it. Returns the one that was there.
    pub fn replace_section(&mut self, place: Place, section: Option<Section>) -> Option<Section> {
        match place {
            Place::S => replace(&mut self.s, section),
            Place::T => replace(&mut self.t, section),
        }
    }

    /// The metadata of what is loaded or made.
    pub fn meta(&self) -> Result<Rc<Metadata>, AllocError> {
        self.meta.clone()
    }

    /// Where what is loaded or made comes from.
    pub fn origin(&self) -> &Metadata {
        &self.meta
    }

    /// Sets where what is loaded or made from now on comes from.
    pub fn set_meta(&mut self, meta: Rc<Metadata>) {
        self.meta = meta;
    }

    /// What is set of what is outside.
    pub fn outside(&self) -> &Outside {
        &self.outside
    }

    /// The same, to change it.
    pub fn outside_mut(&mut self) -> &mut Outside {
        &mut self.outside
    }

    /// Replaces what is set of what is outside, and returns the old.
    pub fn replace_outside(&mut self, outside: Outside) -> Outside {
        replace(&mut self.outside, outside)
    }

    /// Whether each answer reports if a growth was refused.
    pub fn tells_refusals(&self) -> bool
        ensures { result ≡ self.now.tells_refusals }
    {
        self.tells_refusals
    }

    /// Sets whether answers report that from now on.
    pub fn tell_refusals(&mut self, on: bool)
        ensures { self.new ≡ record self.old { tells_refusals = on } }
    {
        self.tells_refusals = on;
    }
}
