//! An index over a list of words: it finds the places of a word without a walk over the others.
ghost use Rattle.std.specs.Prelude.{◌≡◌, ◌+◌, ◌-◌, ◌<◌, ◌≤◌, [], ◌∷◌, ◌++◌, length, remove, true, vec_capacity, vec_len, IfOk, OnOk};
ghost use Rattle.std.specs.Iterator.{item_count, YieldsFirst, YieldsLast};
ghost use Rattle.std.specs.List.{AllByRecursion};
ghost use Rattle.gitconf_sections.specs.Links.{bucket_of, no_place, words_of, AreEmpty, AreLinked, IsLed};
ghost use Rattle.gitconf_sections.specs.Words.{set_each};
ghost use Rattle.gitconf_sections.specs.Runs.{woven, AreRuns};
ghost use Rattle.gitconf_sections.specs.Words.{places_of};

use crate::index::moving::move_each;
use crate::lists::weave;
use crate::runs::Run;
use std::alloc::{AllocError, Global};
use std::marker::Model;
use std::mem::size_of;

mod moving;

// Stands for no place: the greatest number of 32 bits. So a list has at most as many words.
const NO_PLACE: u32 = u32::MAX;

// A place of the list: its word, the next place of its bucket or `NO_PLACE`, and one more than the previous
// place of its bucket, or 0.
#[derive(Clone, Copy)]
struct Link {
    word: u32,
    next: u32,
    before: u32,
}

// The first place of a bucket or `NO_PLACE`, and one more than its last place, or 0.
#[derive(Clone, Copy)]
struct Bucket {
    first: u32,
    behind: u32,
}

// A list has as many links as words, and about as many buckets.
const _: () = prove!(size_of::<Link>() == 12);

const _: () = prove!(size_of::<Bucket>() == 8);

const EMPTY: Bucket = Bucket {
    first: NO_PLACE,
    behind: 0,
};

// The bucket of a word, of `size` buckets.
#[inline(always)]
fn bucket_of(word: u32, size: usize) -> usize
    requires { 0 < size }
    ensures bucket { result ≡ bucket_of size word }
    ensures within { result < size }
{
    word as usize & (size - 1)
}

// Makes the place before `behind`, if there is one, lead on to the place `at`.
#[inline(always)]
fn lead(links: &mut [Link], behind: u32, at: u32)
    requires { behind ≤ length links.old }
    ensures words { words_of links.new ≡ words_of links.old }
    ensures led { IsLed links.old behind at links.new }
{
    if behind > 0 {
        links[behind as usize - 1].next = at;
    }
}

// Puts the place at the end of its bucket's chain.
#[inline(always)]
fn chain(links: &mut [Link], buckets: &mut [Bucket], at: u32)
    requires within { at < length links.old }
    requires long { length links.old ≤ no_place }
    requires some { 0 < length buckets.old }
    requires linked { AreLinked at links.old buckets.old }
    ensures words { words_of links.new ≡ words_of links.old }
    ensures linked { AreLinked (at + 1) links.new buckets.new }
{
    let word = links[at as usize].word;
    let bucket = bucket_of(word, buckets.len());
    let Bucket { first, behind } = buckets[bucket];
    lead(links, behind, at);
    links[at as usize] = Link {
        word,
        next: NO_PLACE,
        before: behind,
    };
    buckets[bucket] = Bucket {
        first: first.min(at),
        behind: at + 1,
    };
}

// Chains the places from `from` on, after those before it, which are chained.
fn link_from(links: &mut [Link], buckets: &mut [Bucket], from: usize)
    requires within { from ≤ length links.old }
    requires long { length links.old ≤ no_place }
    requires some { 0 < length buckets.old }
    requires linked { AreLinked from links.old buckets.old }
    ensures words { words_of links.new ≡ words_of links.old }
    ensures linked { AreLinked (length links.old) links.new buckets.new }
{
    for at in from..links.len() {
        chain(links, buckets, at as u32);
    }
}

// Chains all places again.
fn relink(links: &mut [Link], buckets: &mut [Bucket])
    requires long { length links.old ≤ no_place }
    requires some { 0 < length buckets.old }
    ensures words { words_of links.new ≡ words_of links.old }
    ensures linked { AreLinked (length links.old) links.new buckets.new }
{
    for bucket in buckets.iter_mut() {
        *bucket = EMPTY;
    }
    link_from(links, buckets, 0);
}

// Chains the places of a list from `from` on, after those before it, which are chained.
fn link_rest(links: &mut Vec<Link>, buckets: &mut Vec<Bucket>, from: usize)
    requires within { from ≤ length links.old.items }
    requires long { vec_len links.old ≤ no_place }
    requires some { 0 < vec_len buckets.old }
    requires linked { AreLinked from links.old.items buckets.old.items }
    ensures words { words_of links.new.items ≡ words_of links.old.items }
    ensures linked { AreLinked (length links.new.items) links.new.items buckets.new.items }
    ensures room { (vec_len links.new ≡ vec_len links.old) × (vec_capacity links.new ≡ vec_capacity links.old) }
    ensures buckets { vec_len buckets.new ≡ vec_len buckets.old }
{
    link_from(links, buckets, from);
}

// Chains all places of a list again.
fn relink_all(links: &mut Vec<Link>, buckets: &mut Vec<Bucket>)
    requires long { vec_len links.old ≤ no_place }
    requires some { 0 < vec_len buckets.old }
    ensures words { words_of links.new.items ≡ words_of links.old.items }
    ensures linked { AreLinked (length links.new.items) links.new.items buckets.new.items }
    ensures room { (vec_len links.new ≡ vec_len links.old) × (vec_capacity links.new ≡ vec_capacity links.old) }
    ensures buckets { vec_len buckets.new ≡ vec_len buckets.old }
{
    relink(links, buckets);
}

// Empty buckets for that many places: a power of two, at least as many as places.
fn empty_buckets(alloc: Global, places: usize) -> Result<Vec<Bucket>, AllocError>
    ensures some { IfOk result (λ buckets. 0 < vec_len buckets) }
    ensures empty { IfOk result (λ buckets. AreEmpty buckets.items) }
{
    let mut size: usize = 4;
    while size < places {
        size = size.checked_mul(2).ok_or(AllocError)?;
    }
    vec![in alloc; EMPTY; size]
}

/// A list of at most 4294967295 words, with the places of each word. Takes 12 bytes for each word that there is room for, and 8
/// for each bucket.
#[derive(Drop)]
pub struct WordIndex {
    links: Vec<Link>,
    buckets: Vec<Bucket>,
}

impl Model for WordIndex {
    ghost use Rattle.gitconf_sections.specs.Words.{Words};

    ghost Value = { Words };

    ghost use Rattle.gitconf_sections.specs.WordIndexes.{shown_index, IsIndex};

    ghost view = { shown_index };

    ghost invariant = { IsIndex };
}

impl WordIndex {
    /// No words. Takes no memory.
    pub fn new(alloc: Global) -> WordIndex
        ensures { result.words ≡ [] }
    {
        WordIndex {
            links: Vec::new(alloc),
            buckets: Vec::new(alloc),
        }
    }

    /// Makes room for that many more words, and at least as many buckets as words. So words that are added at the end one by
    /// one take constant time and memory on average.
    ///
    /// # Errors
    ///
    /// Out of memory, or there would be more than 4294967295 words. The words are as they were.
    #[cold]
    pub fn reserve(&mut self, more: usize) -> Result<(), AllocError>
        ensures words { self.new.words ≡ self.old.words }
        ensures ok { OnOk result (more ≤ self.new.room) }
        ensures fits { OnOk result (length self.new.words + more ≤ no_place) }
    {
        let count = self.links.len().checked_add(more).ok_or(AllocError)?;
        if count > NO_PLACE as usize {
            return Err(AllocError);
        }
        if self.buckets.is_empty() || self.buckets.len() < count {
            let mut buckets = empty_buckets(*self.links.allocator(), count)?;
            link_rest(&mut self.links, &mut buckets, 0);
            self.buckets = buckets;
        }
        self.links.reserve(more)
    }

    /// Whether one more word can be added with at least as many buckets as words. Then [`WordIndex::reserve`] has nothing to do.
    #[inline(always)]
    pub fn has_room(&self) -> bool
        ensures room { result ≡ true → 0 < self.now.room }
        ensures fits { result ≡ true → length self.now.words < no_place }
    {
        let count = self.links.len();
        count < self.buckets.len() && count < self.links.capacity() && count < NO_PLACE as usize
    }

    /// Adds a word at the end, in constant time.
    #[inline(always)]
    pub fn push(&mut self, word: u32)
        requires { 0 < self.old.room }
        ensures words { self.new.words ≡ self.old.words ++ word ∷ [] }
        ensures room { self.new.room + 1 ≡ self.old.room }
    {
        let at = self.links.len() as u32;
        self.links.push_reserved(unlinked(word));
        chain(&mut self.links, &mut self.buckets, at);
    }

    /// Removes all words. Their memory stays, as room for others. Takes time for the buckets.
    pub fn clear(&mut self)
        ensures words { self.new.words ≡ [] }
        ensures room { length self.old.words + self.old.room ≤ self.new.room }
    {
        if self.links.is_empty() {
            return;
        }
        self.links.clear();
        relink_all(&mut self.links, &mut self.buckets);
    }

    /// Removes the word at a place. Takes time for all words.
    pub fn remove(&mut self, at: usize)
        requires { at < length self.old.words }
        ensures words { self.new.words ≡ remove self.old.words at }
        ensures fits { length self.old.words ≤ no_place }
    {
        self.links.remove(at);
        relink_all(&mut self.links, &mut self.buckets);
    }

    /// Puts another word at all these places. If they ascend, takes time for them and, once, for the places of the word's
    /// bucket; each one that is less than the one before it takes the time of that bucket again.
    pub fn set_each(&mut self, places: &[usize], word: u32)
        requires { AllByRecursion (λ at. at < length self.old.words) places.now }
        ensures { self.new.words ≡ set_each self.old.words places.now word }
    {
        if self.links.is_empty() {
            return;
        }
        move_each(&mut self.links, &mut self.buckets, places, word);
    }

    /// Adds all words of another list at the end. Takes time for the other list's words.
    pub fn append(&mut self, other: WordIndex)
        requires { length other.words ≤ self.old.room }
        ensures { self.new.words ≡ self.old.words ++ other.words }
    {
        let WordIndex {
            links: mut added,
            buckets: _,
        } = other;
        if added.is_empty() {
            return;
        }
        let count = self.links.len();
        self.links.append(&mut added).unwrap();
        link_rest(&mut self.links, &mut self.buckets, count);
    }

    /// Weaves the words from `first` on among those before them. Takes no memory, and time for all words: those between the runs
    /// are moved once for each time that the runs can be halved, and all are linked once.
    pub fn weave(&mut self, first: usize, runs: &[Run])
        requires within { first ≤ length self.old.words }
        requires runs { AreRuns runs.now first (length self.old.words - first) }
        ensures woven { self.new ≡ record self.old { words = woven runs.now first self.old.words } }
        ensures fits { length self.old.words ≤ no_place }
    {
        if self.links.is_empty() {
            return;
        }
        weave(&mut self.links, first, runs);
        relink_all(&mut self.links, &mut self.buckets);
    }

    /// A copy of the words. Takes the memory for the links and for the buckets at once.
    ///
    /// # Errors
    ///
    /// Out of memory.
    pub fn try_clone(&self) -> Result<WordIndex, AllocError>
        ensures { IfOk result (λ copy. copy.words ≡ self.now.words) }
    {
        let alloc = *self.links.allocator();
        if self.buckets.is_empty() {
            return Ok(WordIndex::new(alloc));
        }
        Ok(WordIndex {
            links: Vec::from_slice(alloc, &self.links)?,
            buckets: Vec::from_slice(alloc, &self.buckets)?,
        })
    }

    /// The places of a word. Takes the time to compute its bucket.
    pub fn places(&self, word: u32) -> Places<'_>
        ensures { result ≡ places_of word self.now.words }
    {
        if self.buckets.is_empty() {
            return Places {
                links: &self.links,
                word,
                front: 0,
                behind: 0,
            };
        }
        let bucket = self.buckets[bucket_of(word, self.buckets.len())];
        Places {
            links: &self.links,
            word,
            front: bucket.first,
            behind: bucket.behind,
        }
    }
}

// A link in no chain.
fn unlinked(word: u32) -> Link
    ensures { result.word ≡ word }
{
    Link {
        word,
        next: NO_PLACE,
        before: 0,
    }
}

/// The places of a word in the list, in order, from either end.
#[derive(Drop)]
pub struct Places<'a> {
    links: &'a [Link],
    word: u32,
    // The first place that is left, if it is before `behind`.
    front: u32,
    behind: u32,
}

impl<'a> Model for Places<'a> {
    ghost use Rattle.std.specs.Prelude.{ℕ, List};

    ghost Value = { List ℕ };

    ghost use Rattle.gitconf_sections.specs.Places.{left_of, IsPlaces};

    ghost view = { left_of };

    ghost invariant = { IsPlaces };
}

impl Iterator for Places<'_> {
    type Item = usize;

    ghost next_gives = { YieldsFirst (λ p. p) };

    ghost remaining = { item_count (λ p. p) };

    /// Takes time for the places of the bucket up to the next one with the word.
    fn next(&mut self) -> Option<usize> {
        while self.front < self.behind {
            let at = self.front as usize;
            let link = self.links[at];
            self.front = link.next;
            if link.word == self.word {
                return Some(at);
            }
        }
        None
    }
}

impl DoubleEndedIterator for Places<'_> {
    ghost next_back_gives = { YieldsLast (λ p. p) };

    fn next_back(&mut self) -> Option<usize> {
        while self.front < self.behind {
            let at = self.behind as usize - 1;
            let link = self.links[at];
            self.behind = link.before;
            if link.word == self.word {
                return Some(at);
            }
        }
        None
    }
}
