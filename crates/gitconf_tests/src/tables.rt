//! The list of sections: its changes, and walks over it from both ends. What a section holds is told by the tag of a comment, its only item.

use self::Step::{Change, Put, PutAll, Remove, Rename, Reseed};
use crate::shim::{MOST, Outcome, begin, each_refused, was_refused};
use gitconf_items::event::{Header, Span};
use gitconf_items::items::Item;
use gitconf_sections::id::SectionId;
use gitconf_sections::row::Section;
use gitconf_sections::runs::Run;
use gitconf_sections::sections::SectionList;
use gitconf_sources::meta::Metadata;
use gitconf_text::NoMemory;
use gitconf_text::parse::span;
use std::alloc::Global;
use std::rc::Rc;
use std::test::Fail;

/// A section's name and its subsection.
pub type Names<'a> = (&'a [u8], Option<&'a [u8]>);

const CORE: Names<'static> = (b"Core", None);

const EMPTY: Names<'static> = (b"CORE", Some(b""));

const LOWER: Names<'static> = (b"rEmote", Some(b"origin"));

const UPPER: Names<'static> = (b"REMOTE", Some(b"Origin"));

const BRANCH: Names<'static> = (b"branch", None);

const OTHER: Names<'static> = (b"core", Some(b"\xff"));

/// A change of a list; a section is given by its place, or by its number if it is removed.
#[derive(Clone, Copy)]
enum Step<'a> {
    /// Last.
    Put(Names<'a>, u8),
    /// Before a section, all sections of another list.
    PutAll(usize, &'a [(Names<'a>, u8)]),
    Remove(usize),
    Rename(usize, Names<'a>),
    Change(usize, u8),
    /// All names get words from another seed.
    Reseed(u64),
}

/// No name.
const NOWHERE: Header = Header {
    name: Span::NOTHING,
    separator: None,
    subsection: None,
    decoded: None,
};

/// A list of one item, which has the tag.
fn items_of(alloc: Global, tag: u8) -> Result<Vec<Item>, NoMemory> {
    let mut items = Vec::with_capacity(alloc, 1)?;
    items.push(Item::Comment {
        tag,
        text: Span::NOTHING,
    })?;
    Ok(items)
}

/// What a section holds: the tag of its first item; 0 if that is no comment.
fn content_of(section: &Section<'_>) -> u8 {
    match section.items.first() {
        Some(Item::Comment { tag, .. }) => *tag,
        _ => 0,
    }
}

/// Puts a section in, with items in the list that all share.
fn put(
    alloc: Global,
    table: &mut SectionList,
    names: Names<'_>,
    content: u8,
) -> Result<SectionId, span::Error> {
    let meta = Rc::new(alloc, Metadata::api())?;
    let mut items = items_of(alloc, content)?;
    table.push_loaded(names.0, names.1, NOWHERE, meta, &mut items)
}

/// The same, with items of its own.
fn put_own(
    alloc: Global,
    table: &mut SectionList,
    names: Names<'_>,
    content: u8,
) -> Result<SectionId, span::Error> {
    let meta = Rc::new(alloc, Metadata::api())?;
    let items = items_of(alloc, content)?;
    table.push(names.0, names.1, NOWHERE, meta, items)
}

/// Puts a section in, then these, and removes the first.
fn fill(
    alloc: Global,
    table: &mut SectionList,
    sections: &[(Names<'_>, u8)],
) -> Result<(), span::Error> {
    let first = put(alloc, table, (b"x", None), b'x')?;
    for (names, content) in sections {
        put(alloc, table, *names, *content)?;
    }
    table.remove(first);
    Ok(())
}

/// A list of these sections, from which one was removed before.
fn table_of(alloc: Global, sections: &[(Names<'_>, u8)]) -> Result<SectionList, span::Error> {
    let mut table = SectionList::new(alloc);
    fill(alloc, &mut table, sections)?;
    Ok(table)
}

/// What is under a number.
fn under(table: &SectionList, id: SectionId) -> Option<u8> {
    let section = table.get(id)?;
    Some(content_of(&section))
}

/// Moves the sections from `first` on to before the section at a place.
fn weave_last(table: &mut SectionList, first: usize, at: usize) {
    let len = table.len();
    if first <= len && at <= first {
        table.weave(
            first,
            &[Run {
                ahead: at,
                count: len - first,
            }],
        );
    }
}

fn put_all(
    alloc: Global,
    table: &mut SectionList,
    at: usize,
    sections: &[(Names<'_>, u8)],
) -> Result<(), span::Error> {
    let other = table_of(alloc, sections)?;
    let first = table.len();
    if at <= first {
        table.append(other)?;
        weave_last(table, first, at);
    }
    Ok(())
}

fn rename(table: &mut SectionList, at: usize, names: Names<'_>) -> Result<(), NoMemory> {
    if at < table.len() {
        table.rename_each(&[at], names.0, names.1)?;
    }
    Ok(())
}

/// Gives the section at a place other items.
fn change(alloc: Global, table: &mut SectionList, at: usize, content: u8) -> Result<(), NoMemory> {
    if at < table.len() {
        let items = Box::new(alloc, items_of(alloc, content)?)?;
        table.put_items(at, items);
    }
    Ok(())
}

/// Removes the section of a number, and returns what it held.
fn remove(table: &mut SectionList, id: SectionId) -> Option<u8> {
    let held = under(table, id);
    table.remove(id);
    held
}

/// Takes the step, and returns what is under the number that was given, or what was removed.
fn take(
    alloc: Global,
    table: &mut SectionList,
    numbers: &[SectionId],
    step: Step<'_>,
) -> Result<Option<u8>, span::Error> {
    match step {
        Put(names, content) => {
            let id = put_own(alloc, table, names, content)?;
            return Ok(under(table, id));
        }
        PutAll(at, sections) => put_all(alloc, table, at, sections)?,
        Remove(number) => {
            let id = numbers.get(number).copied().unwrap_or_default();
            return Ok(remove(table, id));
        }
        Rename(at, names) => rename(table, at, names)?,
        Change(at, content) => change(alloc, table, at, content)?,
        Reseed(seed) => table.reseed(seed),
    }
    Ok(None)
}

/// The numbers that a table gives to sections that are put in.
fn give(
    alloc: Global,
    table: &mut SectionList,
    numbers: &mut [SectionId],
) -> Result<(), span::Error> {
    for number in numbers.iter_mut() {
        *number = put(alloc, table, (b"", None), b'x')?;
    }
    Ok(())
}

/// The numbers that a table gives first.
fn numbers(alloc: Global) -> Result<[SectionId; 11], span::Error> {
    let mut numbers = [SectionId::default(); 11];
    let mut table = SectionList::new(alloc);
    give(alloc, &mut table, &mut numbers)?;
    Ok(numbers)
}

/// The place after this letter, if it is at that place.
fn behind(told: &[u8], at: usize, letter: u8) -> Option<usize> {
    if told.get(at) == Some(&letter) {
        at.checked_add(1)
    } else {
        None
    }
}

/// The place after the contents of all sections.
fn behind_all(table: &SectionList, told: &[u8]) -> Option<usize> {
    let mut at = 0;
    for (_, section) in table.iter() {
        at = behind(told, at, content_of(&section))?;
    }
    Some(at)
}

/// The place after a `|` and the contents of the sections of the names.
fn behind_named(table: &SectionList, names: &Asked, told: &[u8], at: usize) -> Option<usize> {
    let mut at = behind(told, at, b'|')?;
    for (_, section) in table.named(names.0, names.1) {
        at = behind(told, at, content_of(&section))?;
    }
    Some(at)
}

/// The same for the sections of one name.
fn behind_name(table: &SectionList, told: &[u8], at: usize) -> Option<usize> {
    let mut at = behind(told, at, b'|')?;
    for (_, section) in table.with_name("Remote") {
        at = behind(told, at, content_of(&section))?;
    }
    Some(at)
}

/// The same for what is under each number.
fn behind_numbers(
    table: &SectionList,
    numbers: &[SectionId],
    told: &[u8],
    at: usize,
) -> Option<usize> {
    let mut at = behind(told, at, b'|')?;
    for id in numbers {
        at = behind(told, at, under(table, *id).unwrap_or(b'-'))?;
    }
    Some(at)
}

/// A name and a subsection that are asked for.
type Asked = (&'static str, Option<&'static [u8]>);

static ASKED: [Asked; 4] = [
    ("core", None),
    ("Core", Some(b"")),
    ("REMOTE", Some(b"origin")),
    ("remote", Some(b"Origin")),
];

/// The place after everything that is expected of a table.
fn end(table: &SectionList, numbers: &[SectionId], told: &[u8]) -> Option<usize> {
    let mut at = behind_all(table, told)?;
    for names in ASKED.iter() {
        at = behind_named(table, names, told, at)?;
    }
    let at = behind_name(table, told, at)?;
    behind_numbers(table, numbers, told, at)
}

/// Whether the table is as expected: the contents of all sections, of those of four names, and of those with a name, with
/// a `|` after each of these lists; last what is under each number.
fn is_told(table: &SectionList, numbers: &[SectionId], told: &[u8]) -> bool {
    end(table, numbers, told) == Some(told.len())
}

/// Whether the step was taken. If an allocation of it was refused instead, the table is as it was.
fn is_taken(
    alloc: Global,
    table: &mut SectionList,
    numbers: &[SectionId],
    row: &Row,
    before: &[u8],
) -> Result<bool, Fail> {
    begin(alloc)?;
    let taken = take(alloc, table, numbers, row.0);
    let refused = was_refused(alloc);
    match taken {
        Ok(answer) if answer == row.1 => Ok(true),
        Err(error) if refused && error.number() == 27 && is_told(table, numbers, before) => Ok(
            false,
        ),
        _ => Err(Fail::new("a step's answer")),
    }
}

/// Takes the step, with each of its allocations refused before, and returns whether the table is then as expected.
fn leads_to(
    alloc: Global,
    table: &mut SectionList,
    numbers: &[SectionId],
    row: &Row,
    before: &[u8],
) -> Result<bool, Fail> {
    for _ in 0..MOST {
        if is_taken(alloc, table, numbers, row, before)? {
            return Ok(
                under(table, SectionId::default()).is_none() && is_told(table, numbers, row.2),
            );
        }
    }
    Err(Fail::new("too many growths"))
}

const THREE: [(Names<'static>, u8); 3] = [(CORE, b'f'), (BRANCH, b'g'), (UPPER, b'h')];

const ONE: [(Names<'static>, u8); 1] = [(CORE, b'i')];

const BEHIND_FIRST: [(Names<'static>, u8); 1] = [(LOWER, b'd')];

const BEHIND_FOURTH: [(Names<'static>, u8); 1] = [(EMPTY, b'e')];

const TEN: [(Names<'static>, u8); 10] = [
    (BRANCH, b'0'),
    (BRANCH, b'1'),
    (BRANCH, b'2'),
    (BRANCH, b'3'),
    (BRANCH, b'4'),
    (BRANCH, b'5'),
    (BRANCH, b'6'),
    (BRANCH, b'7'),
    (BRANCH, b'8'),
    (BRANCH, b'9'),
];

/// A step, its result, and what is expected of the table after it.
type Row = (Step<'static>, Option<u8>, &'static [u8]);

static ROWS: [Row; 21] = [
    (Put(CORE, b'a'), Some(b'a'), b"a|a|||||a----------"),
    (Put(LOWER, b'b'), Some(b'b'), b"ab|a||b||b|ab---------"),
    (Put(UPPER, b'c'), Some(b'c'), b"abc|a||b|c|bc|abc--------"),
    (
        PutAll(1, &BEHIND_FIRST),
        None,
        b"adbc|a||db|c|dbc|abcd-------",
    ),
    (
        PutAll(4, &BEHIND_FOURTH),
        None,
        b"adbce|a|e|db|c|dbc|abcde------",
    ),
    (Reseed(1), None, b"adbce|a|e|db|c|dbc|abcde------"),
    (Remove(1), Some(b'b'), b"adce|a|e|d|c|dc|a-cde------"),
    (Remove(1), None, b"adce|a|e|d|c|dc|a-cde------"),
    (Rename(2, CORE), None, b"adce|ac|e|d||d|a-cde------"),
    (PutAll(1, &THREE), None, b"afghdce|afc|e|d|h|hd|a-cdefgh---"),
    (Remove(0), Some(b'a'), b"fghdce|fc|e|d|h|hd|--cdefgh---"),
    (PutAll(6, &ONE), None, b"fghdcei|fci|e|d|h|hd|--cdefghi--"),
    (PutAll(0, &[]), None, b"fghdcei|fci|e|d|h|hd|--cdefghi--"),
    (Remove(8), Some(b'i'), b"fghdce|fc|e|d|h|hd|--cdefgh---"),
    (
        Put(OTHER, b'j'),
        Some(b'j'),
        b"fghdcej|fc|e|d|h|hd|--cdefgh-j-",
    ),
    (Rename(5, LOWER), None, b"fghdcej|fc||de|h|hde|--cdefgh-j-"),
    (Reseed(u64::MAX), None, b"fghdcej|fc||de|h|hde|--cdefgh-j-"),
    (Change(1, b'k'), None, b"fkhdcej|fc||de|h|hde|--cdefkh-j-"),
    (Remove(10), None, b"fkhdcej|fc||de|h|hde|--cdefkh-j-"),
    (
        PutAll(1, &TEN),
        None,
        b"f0123456789khdcej|fc||de|h|hde|--cdefkh-j0",
    ),
    (
        Reseed(0),
        None,
        b"f0123456789khdcej|fc||de|h|hde|--cdefkh-j0",
    ),
];

/// What is expected before the row of this place: after the row before it, or of an empty table.
fn told_before(rows: &[Row], at: usize) -> &'static [u8] {
    if at == 0 || at > rows.len() {
        return b"||||||-----------";
    }
    rows[at - 1].2
}

/// Whether the table is as the rows say, step by step.
fn goes_through(alloc: Global, table: &mut SectionList, rows: &[Row]) -> Result<bool, Fail> {
    let numbers = numbers(alloc)?;
    for (at, row) in rows.iter().enumerate() {
        if !leads_to(alloc, table, &numbers, row, told_before(rows, at))? {
            return Ok(false);
        }
    }
    Ok(true)
}

fn are_changed(alloc: Global) -> Result<bool, Fail> {
    let mut table = SectionList::new(alloc);
    goes_through(alloc, &mut table, &ROWS)
}

#[test]
fn tables_are_changed(rt: HostRuntime) -> Result<(), Fail> {
    assert!(rt; are_changed(rt.alloc())?);
    Ok(())
}

/// Two subsections of a name that have one word, f5e4a707, from the seed of a new table, and two words from the seed 1.
const LEFT: &[u8] = b"dcwk";

const RIGHT: &[u8] = b"didd";

/// Whether the sections of the two subsections are told apart.
fn are_told_apart(table: &SectionList) -> bool {
    behind_named(table, &("Remote", Some(LEFT)), b"|ac", 0) == Some(3)
        && behind_named(table, &("remote", Some(RIGHT)), b"|b", 0) == Some(2)
}

/// The same before and after another seed.
fn stay_apart(table: &mut SectionList) -> bool {
    if !are_told_apart(table) {
        return false;
    }
    table.reseed(1);
    are_told_apart(table)
}

/// The same for a list that is filled here.
fn is_one_told_apart(alloc: Global) -> Result<bool, span::Error> {
    let left: Names<'_> = (b"remote", Some(LEFT));
    let right: Names<'_> = (b"REMOTE", Some(RIGHT));
    let mut table = table_of(alloc, &[(left, b'a'), (right, b'b'), (left, b'c')])?;
    Ok(stay_apart(&mut table))
}

/// Names of one word are told apart, or the allocation is refused.
fn names_told_apart(alloc: Global) -> Result<Outcome, Fail> {
    begin(alloc)?;
    let answer = is_one_told_apart(alloc);
    let refused = was_refused(alloc);
    let fits = match answer {
        Ok(apart) => apart,
        Err(error) => refused && error.number() == 27,
    };
    Ok(Outcome { refused, fits })
}

#[test]
fn names_of_one_word_are_told_apart(rt: HostRuntime) -> Result<(), Fail> {
    each_refused(rt.alloc(), "names of one word", names_told_apart)
}

/// Puts three sections of one name in, and another one, and returns the numbers of the three.
fn three_of_one_name(
    alloc: Global,
    table: &mut SectionList,
) -> Result<[SectionId; 3], span::Error> {
    let first = put(alloc, table, (b"core", None), b'a')?;
    put(alloc, table, (b"other", None), b'b')?;
    let second = put_own(alloc, table, (b"Core", None), b'c')?;
    let third = put(alloc, table, (b"CORE", None), b'd')?;
    Ok([first, second, third])
}

/// Whether an item of a walk is the section of a number, and holds this.
fn is_item(item: &Option<(SectionId, Section<'_>)>, number: SectionId, content: u8) -> bool {
    match item {
        Some((id, section)) => *id == number && content_of(section) == content,
        None => false,
    }
}

/// Whether the sections of a name and no subsection are found from both ends.
fn named_are_walked(table: &SectionList, numbers: &[SectionId; 3]) -> bool {
    let [first, second, third] = *numbers;
    let mut named = table.named("core", None);
    is_item(&named.next_back(), third, b'd')
        && is_item(&named.next(), first, b'a')
        && is_item(&named.next_back(), second, b'c')
        && named.next().is_none()
        && named.next_back().is_none()
}

/// The same for the sections of a name.
fn with_name_are_walked(table: &SectionList, numbers: &[SectionId; 3]) -> bool {
    let [first, second, third] = *numbers;
    let mut any = table.with_name("cORE");
    is_item(&any.next_back(), third, b'd')
        && is_item(&any.next(), first, b'a')
        && is_item(&any.next_back(), second, b'c')
        && any.next_back().is_none()
}

/// The same for all sections: the last one, the first one, and two between them.
fn all_are_walked(table: &SectionList, numbers: &[SectionId; 3]) -> bool {
    let [first, _, third] = *numbers;
    let mut all = table.iter();
    is_item(&all.next_back(), third, b'd') && is_item(&all.next(), first, b'a') && all.count() == 2
}

/// All three.
fn are_walked(table: &SectionList, numbers: &[SectionId; 3]) -> bool {
    named_are_walked(table, numbers)
        && with_name_are_walked(table, numbers)
        && all_are_walked(table, numbers)
}

/// The same for a list that is filled here.
fn is_filled_and_walked(alloc: Global, table: &mut SectionList) -> Result<bool, span::Error> {
    let numbers = three_of_one_name(alloc, table)?;
    Ok(are_walked(table, &numbers))
}

fn is_one_walked(alloc: Global) -> Result<bool, span::Error> {
    let mut table = SectionList::new(alloc);
    is_filled_and_walked(alloc, &mut table)
}

#[test]
fn tables_are_walked_from_both_ends(rt: HostRuntime) -> Result<(), Fail> {
    assert!(rt; is_one_walked(rt.alloc())?);
    Ok(())
}

/// A copy of a table has the same sections under the same numbers, or is refused with each allocation.
fn a_table_copied(
    alloc: Global,
    table: &SectionList,
    numbers: &[SectionId],
) -> Result<Outcome, Fail> {
    let expected: &[u8] = b"cr|c||r||r|-cr--------";
    begin(alloc)?;
    let answer = table.try_clone();
    let refused = was_refused(alloc);
    let stays = is_told(table, numbers, expected);
    let fits = match answer {
        Ok(copy) => stays && is_told(&copy, numbers, expected),
        Err(NoMemory) => stays && refused,
    };
    Ok(Outcome { refused, fits })
}

#[test]
fn tables_are_copied(rt: HostRuntime) -> Result<(), Fail> {
    let numbers = numbers(rt.alloc())?;
    let table = table_of(rt.alloc(), &[(CORE, b'c'), (LOWER, b'r')])?;
    each_refused(rt.alloc(), "a copy of a table", |alloc| {
        a_table_copied(alloc, &table, &numbers)
    })
}
