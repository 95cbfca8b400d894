//! Places that get another word: each is removed from its bucket's chain and put into the other's.
ghost use Rattle.std.specs.Prelude.{◌≡◌, ◌≢◌, ℕ, ◌+◌, ◌<◌, ◌≤◌, length, slice_set, vec_capacity, vec_len};
ghost use Rattle.std.specs.List.{AllByRecursion};
ghost use Rattle.gitconf_sections.specs.Links.{bucket_of, no_place, words_of, AreLinked, IsBehindLast, IsFirst, IsLed};
ghost use Rattle.gitconf_sections.specs.LinkMoves.{bucket_but, AreLinkedBut, IsLedBack, LeadsBack, LeadsOn};
ghost use Rattle.gitconf_sections.specs.Words.{set_each};
ghost use Rattle.gitconf_sections.specs.Places.{bucket_at};

use crate::index::{Bucket, Link, bucket_of, lead};

// Where a place is in a chain: one more than the previous place of the bucket, or 0, and the next place, or
// the greatest number.
#[derive(Clone, Copy)]
struct Gap {
    behind: u32,
    next: u32,
}

// If nothing comes before `behind`, makes the bucket lead on to the place.
fn lead_bucket(buckets: &mut [Bucket], bucket: usize, behind: u32, at: u32)
    requires { bucket < length buckets.old }
    ensures { LeadsOn buckets.old bucket behind at buckets.new }
{
    if behind == 0 {
        buckets[bucket].first = at;
    }
}

// Makes the place, if there is one, lead back to what comes before `behind`.
fn lead_back(links: &mut [Link], at: u32, behind: u32)
    ensures words { words_of links.new ≡ words_of links.old }
    ensures led { IsLedBack links.old at behind links.new }
{
    if (at as usize) < links.len() {
        links[at as usize].before = behind;
    }
}

// If there is no such place among `count`, makes the bucket lead back to what comes before `behind`.
fn lead_bucket_back(buckets: &mut [Bucket], bucket: usize, count: usize, at: u32, behind: u32)
    requires { bucket < length buckets.old }
    ensures { LeadsBack buckets.old bucket count at behind buckets.new }
{
    if count <= at as usize {
        buckets[bucket].behind = behind;
    }
}

// Removes the place from its chain: those beside it lead to each other.
fn take_out(links: &mut [Link], buckets: &mut [Bucket], at: u32)
    requires within { at < length links.old }
    requires long { length links.old ≤ no_place }
    requires some { 0 < length buckets.old }
    requires linked { AreLinked (length links.old) links.old buckets.old }
    ensures words { words_of links.new ≡ words_of links.old }
    ensures linked { AreLinkedBut at links.new buckets.new }
{
    let Link { word, next, before } = links[at as usize];
    let bucket = bucket_of(word, buckets.len());
    lead(links, before, next);
    lead_bucket(buckets, bucket, before, next);
    lead_back(links, next, before);
    lead_bucket_back(buckets, bucket, links.len(), next, before);
}

// Puts the place, which is in no chain, under a word into the chain of its bucket.
fn put_in(links: &mut [Link], buckets: &mut [Bucket], at: u32, word: u32, gap: Gap)
    requires within { at < length links.old }
    requires long { length links.old ≤ no_place }
    requires some { 0 < length buckets.old }
    requires linked { AreLinkedBut at links.old buckets.old }
    requires behind { IsBehindLast (bucket_but (length buckets.old) at links.old) (bucket_of (length buckets.old) word) at gap.behind }
    requires next { IsFirst (bucket_but (length buckets.old) at links.old) (bucket_of (length buckets.old) word) (at + 1) (length links.old) gap.next }
    ensures words { words_of links.new ≡ slice_set (words_of links.old) at word }
    ensures linked { AreLinked (length links.old) links.new buckets.new }
{
    let Gap { behind, next } = gap;
    let bucket = bucket_of(word, buckets.len());
    links[at as usize] = Link {
        word,
        next,
        before: behind,
    };
    lead(links, behind, at);
    lead_bucket(buckets, bucket, behind, at);
    lead_back(links, next, at + 1);
    lead_bucket_back(buckets, bucket, links.len(), next, at + 1);
}

// Where a place of another bucket would be in the chain of a bucket. Walks from what comes before `from`.
fn find_gap(links: &[Link], buckets: &[Bucket], bucket: usize, from: u32, at: u32) -> Gap
    requires within { at < length links.now }
    requires long { length links.now ≤ no_place }
    requires bucket { bucket < length buckets.now }
    requires linked { AreLinked (length links.now) links.now buckets.now }
    requires other { bucket_at (length buckets.now) links.now at ≢ bucket }
    requires before { from ≤ at }
    requires from { (k : ℕ) → from ≡ k + 1 → bucket_at (length buckets.now) links.now k ≡ bucket }
    ensures behind { IsBehindLast (bucket_at (length buckets.now) links.now) bucket at result.behind }
    ensures next { IsFirst (bucket_at (length buckets.now) links.now) bucket (at + 1) (length links.now) result.next }
{
    let mut behind = from;
    let mut next = first_from(links, buckets, bucket, from);
    while next < at {
        behind = next + 1;
        next = links[next as usize].next;
    }
    Gap { behind, next }
}

// The first place of a bucket after the one before `from`, which is in it, or the first of all.
fn first_from(links: &[Link], buckets: &[Bucket], bucket: usize, from: u32) -> u32
    requires within { from ≤ length links.now }
    requires bucket { bucket < length buckets.now }
    requires linked { AreLinked (length links.now) links.now buckets.now }
    requires from { (k : ℕ) → from ≡ k + 1 → bucket_at (length buckets.now) links.now k ≡ bucket }
    ensures { IsFirst (bucket_at (length buckets.now) links.now) bucket from (length links.now) result }
{
    if from == 0 {
        buckets[bucket].first
    } else {
        links[from as usize - 1].next
    }
}

// Puts a word at the place, and the place into the word's chain. Takes a walk along that chain from what comes before `from`, or,
// if the place comes before that, from its front.
fn move_one(links: &mut [Link], buckets: &mut [Bucket], at: u32, word: u32, from: u32)
    requires within { at < length links.old }
    requires long { length links.old ≤ no_place }
    requires some { 0 < length buckets.old }
    requires linked { AreLinked (length links.old) links.old buckets.old }
    requires from { (k : ℕ) → from ≡ k + 1 → bucket_at (length buckets.old) links.old k ≡ bucket_of (length buckets.old) word }
    ensures words { words_of links.new ≡ slice_set (words_of links.old) at word }
    ensures linked { AreLinked (length links.old) links.new buckets.new }
{
    let bucket = bucket_of(word, buckets.len());
    if bucket_of(links[at as usize].word, buckets.len()) == bucket {
        links[at as usize].word = word;
        return;
    }
    let from = if from <= at { from } else { 0 };
    let gap = find_gap(links, buckets, bucket, from, at);
    take_out(links, buckets, at);
    put_in(links, buckets, at, word, gap);
}

// Puts a word at all these places, each after a walk along the word's chain from where the one before it is.
fn move_places(links: &mut [Link], buckets: &mut [Bucket], places: &[usize], word: u32)
    requires within { AllByRecursion (λ at. at < length (words_of links.old)) places.now }
    requires long { length links.old ≤ no_place }
    requires some { 0 < length buckets.old }
    requires linked { AreLinked (length links.old) links.old buckets.old }
    ensures words { words_of links.new ≡ set_each (words_of links.old) places.now word }
    ensures linked { AreLinked (length links.old) links.new buckets.new }
{
    let mut from = 0;
    let mut rest = places;
    while let Some((at, behind)) = rest.split_first() {
        let place = *at as u32;
        move_one(links, buckets, place, word, from);
        from = place + 1;
        rest = behind;
    }
}

/// Puts a word at all these places of a list, and moves them to its chain.
pub(crate) fn move_each(
    links: &mut Vec<Link>,
    buckets: &mut Vec<Bucket>,
    places: &[usize],
    word: u32,
)
    requires within { AllByRecursion (λ at. at < length (words_of links.old.items)) places.now }
    requires long { vec_len links.old ≤ no_place }
    requires some { 0 < vec_len buckets.old }
    requires linked { AreLinked (length links.old.items) links.old.items buckets.old.items }
    ensures words { words_of links.new.items ≡ set_each (words_of links.old.items) places.now word }
    ensures linked { AreLinked (length links.new.items) links.new.items buckets.new.items }
    ensures room { (vec_len links.new ≡ vec_len links.old) × (vec_capacity links.new ≡ vec_capacity links.old) }
    ensures buckets { vec_len buckets.new ≡ vec_len buckets.old }
{
    move_places(links, buckets, places, word);
}
