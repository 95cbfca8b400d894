//! Of the entries of sections that match a URL, the best of each name.

use crate::entries::Found;
use crate::urls::Specificity;
use gitconf_text::NoMemory;
use std::alloc::Global;

/// An entry, and how closely its section matches the URL.
#[derive(Drop)]
struct Candidate {
    entry: Found,
    specificity: Specificity,
}

/// Entries of sections that match, in the order in which they were put in.
#[derive(Drop)]
pub struct Closest {
    candidates: Vec<Candidate>,
}

impl Closest {
    /// No entries.
    pub fn none(alloc: Global) -> Closest {
        Closest {
            candidates: Vec::new(alloc),
        }
    }

    /// Puts in an entry whose section matches so closely.
    ///
    /// # Errors
    ///
    /// Out of memory.
    pub fn put(&mut self, entry: Found, specificity: Specificity) -> Result<(), NoMemory> {
        self.candidates.push(Candidate { entry, specificity })?;
        Ok(())
    }

    /// Of each name the entry whose section matches most closely. Of several that match alike it is the last one. They are in the order
    /// of their names.
    ///
    /// # Errors
    ///
    /// Out of memory.
    pub fn into_entries(self, alloc: Global) -> Result<Vec<Found>, NoMemory> {
        let Closest { mut candidates } = self;
        candidates.sort_by(|one, other| one
            .entry
            .names
            .as_slice()
            .cmp(other.entry.names.as_slice()))?;
        let mut best = Vec::new(alloc);
        for candidate in candidates {
            add_unless_worse(&mut best, candidate)?;
        }
        let mut entries = Vec::with_capacity(alloc, best.len())?;
        for candidate in best {
            let Candidate { entry, .. } = candidate;
            entries.push(entry)?;
        }
        Ok(entries)
    }
}

/// Adds a candidate. If the last one has its name, it takes that one's place, unless that matches more closely.
fn add_unless_worse(best: &mut Vec<Candidate>, candidate: Candidate) -> Result<(), NoMemory> {
    if let Some(last) = best.last_mut() {
        if last.entry.names.as_slice() == candidate.entry.names.as_slice() {
            if candidate.specificity.is_at_least(&last.specificity) {
                *last = candidate;
            }
            return Ok(());
        }
    }
    best.push(candidate)?;
    Ok(())
}
