//! Two changes of one file, merged.
ghost use Rattle.std.specs.Prelude.{◌≡◌, true, map, IfOk, IfErr};
ghost use Rattle.std.specs.Option.{ForSome};
ghost use Rattle.gitconf_text.specs.Document.{Reads};
ghost use Rattle.gitconf_read.specs.EventResult.{IsRefused};
ghost use Rattle.gitconf_diff.specs.Differences.{different_of};
ghost use Rattle.gitconf_state.specs.State.{State, document_of};
ghost use Rattle.gitconf_merge.specs.Changes.{AreChanges, AreSorted, plain_changes};
ghost use Rattle.gitconf_merge.specs.Conflicts.{key_of};
ghost use Rattle.gitconf_merge.specs.Inputs.{text_of};
ghost use Rattle.gitconf_merge.specs.Texts.{IsAllowed, IsAllowedText, IsFinished, IsMergeOfStates, IsMergeOfTexts, IsRefusedMerge};

use crate::changes::{Changes, changes_of};
use crate::conflicts::{Conflict, Spot, conflicts_of};
pub use crate::favor::Favor;
use crate::judging::are_allowed;
use crate::patches::patched;
use crate::plan::{Manner, Marks, Plan, Work};
use crate::sides::Sided;
use crate::uniting::are_united;
use gitconf_diff::differences::differences_of;
use gitconf_diff::setting::Side;
use gitconf_parse::input::check_len;
use gitconf_read::error as parse;
use gitconf_sources::meta::Metadata;
use gitconf_store::store::Store;
use gitconf_text::NoMemory;
use std::alloc::Global;
use std::rc::Rc;
use thiserror::Error;

/// The texts of a file before both changes, and after each.
#[derive(Clone, Copy)]
pub struct Texts<'a> {
    /// What both sides changed.
    pub base: &'a [u8],
    /// What our side made of it.
    pub ours: &'a [u8],
    /// What their side made of it.
    pub theirs: &'a [u8],
}

impl<'a> Texts<'a> {
    ghost use Rattle.std.specs.Prelude.{◌≡◌};
    ghost use Rattle.gitconf_merge.specs.Inputs.{text_of};

    /// One of them.
    pub(crate) fn text_of(&self, input: Input) -> &'a [u8]
        ensures { result.now ≡ text_of input self.now.base.now self.now.ours.now self.now.theirs.now }
    {
        match input {
            Input::Base => self.base,
            Input::Ours => self.ours,
            Input::Theirs => self.theirs,
        }
    }
}

/// Which of the three texts.
#[derive(Clone, Copy, Debug, PartialEq, Eq)]
pub enum Input {
    /// What both sides changed.
    Base,
    /// What our side made of it.
    Ours,
    /// What their side made of it.
    Theirs,
}

/// Why texts aren't merged.
#[derive(Debug, Drop, Error)]
pub enum Error {
    /// The parser refused one of the texts: E1 or E2.
    #[error("{1}")]
    Refused(Input, parse::Error),
    /// No text was found that says what the merge says. None is known of which this is so.
    #[error("no text was found that says what the merge says")]
    Unplaced,
    /// An allocation failed: E27.
    #[error("out of memory")]
    Memory,
}

/// Why texts that were read aren't merged.
#[derive(Clone, Copy, Debug, PartialEq, Eq)]
enum Unmade {
    /// No text was found that says what the merge says.
    Unplaced,
    /// An allocation failed.
    Memory,
}

impl From<NoMemory> for Unmade {
    fn from(_: NoMemory) -> Unmade {
        Unmade::Memory
    }
}

/// What two changes of a file make together.
#[derive(Debug, Drop)]
pub struct Merged {
    /// The text: that of our side, with what the other side changed. At a conflict it has what the favor says, else what our side says.
    pub text: Vec<u8>,
    /// The text with its conflicts marked, as git marks them. It is `None` if no conflict stays.
    pub marked: Option<Vec<u8>>,
    /// The keys that both sides changed, each otherwise, sorted: also those that the favor settles.
    pub conflicts: Vec<Conflict>,
}

/// Metadata of what is given as a text, with one owner.
fn shared(alloc: Global) -> Result<Rc<Metadata>, NoMemory> {
    Ok(Rc::new(alloc, Metadata::api())?)
}

/// What a text has, without whitespace and comments.
fn read(alloc: Global, text: &[u8]) -> Result<Store, parse::Error>
    ensures document { IfOk result (λ store. Reads text.now (document_of store)) }
    ensures refused { IfErr result (IsRefused text.now) }
{
    check_len(text.len())?;
    let meta = shared(alloc)?;
    Store::from_bytes_lossy(alloc, text, meta)
}

/// The same of one of the three texts.
fn read_input(alloc: Global, texts: &Texts<'_>, input: Input) -> Result<Store, Error>
    ensures document { IfOk result (λ store. Reads (text_of input texts.now.base.now texts.now.ours.now texts.now.theirs.now) (document_of store)) }
    ensures refused { IfErr result (IsRefusedMerge texts.now.base.now texts.now.ours.now texts.now.theirs.now) }
{
    match read(alloc, texts.text_of(input)) {
        Ok(store) => Ok(store),
        Err(refusal) if refusal.is_memory() => Err(Error::Memory),
        Err(refusal) => Err(Error::Refused(input, refusal)),
    }
}

/// What a text has; none if it is refused.
fn read_made(alloc: Global, text: &[u8]) -> Result<Option<Store>, NoMemory>
    ensures { IfOk result (λ made. ForSome made (λ store. Reads text.now (document_of store))) }
{
    match read(alloc, text) {
        Ok(store) => Ok(Some(store)),
        Err(refusal) if refusal.is_memory() => Err(NoMemory),
        Err(_) => Ok(None),
    }
}

/// Two sides, as they were read, and what they changed.
#[derive(Clone, Copy)]
struct Judge<'a> {
    alloc: Global,
    ours: &'a Store,
    theirs: &'a Store,
    changes: &'a Changes,
    favor: Favor,
}

/// A text that says what the merge says, where its conflicts are, and how it was put together.
#[derive(Drop)]
struct Allowed {
    text: Vec<u8>,
    spots: Vec<Spot>,
    manner: Manner,
}

/// Whether a text that was read differs from both sides only where it has to, and has the values of both where conflicts are united.
fn is_right(judge: &Judge<'_>, made: &Store) -> Result<bool, NoMemory>
    requires { AreSorted (plain_changes judge.now.changes.now) }
    ensures { IfOk result (λ is_right. is_right ≡ true → IsAllowed judge.now.favor (plain_changes judge.now.changes.now)
        judge.now.ours.now.sections judge.now.theirs.now.sections made.now.sections) }
{
    let from_ours = differences_of(judge.alloc, made.sections(), judge.ours.sections())?;
    let from_theirs = differences_of(judge.alloc, made.sections(), judge.theirs.sections())?;
    let are_allowed = are_allowed(judge.changes, judge.favor, &from_ours, &from_theirs);
    Ok(are_allowed && are_united(judge.changes, judge.favor, &from_ours))
}

/// Whether a text says what the merge says.
fn is_right_text(judge: &Judge<'_>, text: &[u8]) -> Result<bool, NoMemory>
    requires { AreSorted (plain_changes judge.now.changes.now) }
    ensures { IfOk result (λ is_right. is_right ≡ true → IsAllowedText judge.now.favor (plain_changes judge.now.changes.now)
        judge.now.ours.now.sections judge.now.theirs.now.sections text.now) }
{
    match read_made(judge.alloc, text)? {
        Some(made) => is_right(judge, &made),
        None => Ok(false),
    }
}

/// The text that a manner of putting both sides together makes.
fn made(work: &Work<'_>) -> Result<Allowed, NoMemory>
    requires { AreSorted (plain_changes work.now.changes.now) }
{
    let plan = Plan::of_work(work)?;
    let text = patched(work, &plan)?;
    let Plan { spots, .. } = plan;
    Ok(Allowed {
        text,
        spots,
        manner: work.manner,
    })
}

/// The text that a manner of putting both sides together makes, if it says what the merge says.
fn made_right(judge: &Judge<'_>, work: &Work<'_>) -> Result<Option<Allowed>, NoMemory>
    requires judge { AreSorted (plain_changes judge.now.changes.now) }
    requires work { AreSorted (plain_changes work.now.changes.now) }
    ensures { IfOk result (λ made. ForSome made (λ allowed. IsAllowedText judge.now.favor (plain_changes judge.now.changes.now)
        judge.now.ours.now.sections judge.now.theirs.now.sections allowed.text.items)) }
{
    let made = made(work)?;
    if is_right_text(judge, &made.text)? {
        Ok(Some(made))
    } else {
        Ok(None)
    }
}

/// The text that says what the merge says: with all that comes from THEIRS at its place, or, if that says something else, at the end.
fn allowed_text(judge: &Judge<'_>, work: &Work<'_>) -> Result<Allowed, Unmade>
    requires judge { AreSorted (plain_changes judge.now.changes.now) }
    requires work { AreSorted (plain_changes work.now.changes.now) }
    ensures { IfOk result (λ allowed. IsAllowedText judge.now.favor (plain_changes judge.now.changes.now)
        judge.now.ours.now.sections judge.now.theirs.now.sections allowed.text.items) }
{
    if let Some(allowed) = made_right(judge, work)? {
        return Ok(allowed);
    }
    match made_right(judge, &work.in_manner(work.manner.apart()))? {
        Some(allowed) => Ok(allowed),
        None => Err(Unmade::Unplaced),
    }
}

/// How the text is put together in which conflicts are marked: as the one without marks, if what is left of it without marks and what THEIRS
/// has between them says what the merge says.
fn marked_manner(judge: &Judge<'_>, work: &Work<'_>, manner: Manner) -> Result<Manner, NoMemory>
    requires judge { AreSorted (plain_changes judge.now.changes.now) }
    requires work { AreSorted (plain_changes work.now.changes.now) }
{
    let left = made_right(judge, &work.in_manner(manner.with_marks(Marks::Left)))?;
    let manner = if left.is_some() {
        manner
    } else {
        manner.apart()
    };
    Ok(manner.with_marks(Marks::Shown))
}

/// The text with its conflicts marked, if one stays.
fn marked(
    judge: &Judge<'_>,
    work: &Work<'_>,
    allowed: &Allowed,
) -> Result<Option<Vec<u8>>, NoMemory>
    requires judge { AreSorted (plain_changes judge.now.changes.now) }
    requires work { AreSorted (plain_changes work.now.changes.now) }
{
    if work.manner.favor != Favor::Neither || allowed.spots.is_empty() {
        return Ok(None);
    }
    let manner = marked_manner(judge, work, allowed.manner)?;
    let Allowed { text, .. } = made(&work.in_manner(manner))?;
    Ok(Some(text))
}

/// The merge of two sides, as it was put together.
fn finished(judge: &Judge<'_>, work: &Work<'_>) -> Result<Merged, Unmade>
    requires judge { AreSorted (plain_changes judge.now.changes.now) }
    requires work { AreSorted (plain_changes work.now.changes.now) }
    ensures { IfOk result (λ merged. IsFinished judge.now.favor (plain_changes judge.now.changes.now)
        judge.now.ours.now.sections judge.now.theirs.now.sections merged.text.items (map key_of merged.conflicts.items)) }
{
    let allowed = allowed_text(judge, work)?;
    let marked = marked(judge, work, &allowed)?;
    let conflicts = conflicts_of(judge.alloc, judge.changes, &allowed.spots)?;
    let Allowed { text, .. } = allowed;
    Ok(Merged {
        text,
        marked,
        conflicts,
    })
}

/// The merge of two sides that were read.
fn merge_read(judge: &Judge<'_>, texts: &Texts<'_>) -> Result<Merged, Unmade>
    requires { AreSorted (plain_changes judge.now.changes.now) }
    ensures { IfOk result (λ merged. IsFinished judge.now.favor (plain_changes judge.now.changes.now)
        judge.now.ours.now.sections judge.now.theirs.now.sections merged.text.items (map key_of merged.conflicts.items)) }
{
    let alloc = judge.alloc;
    let ours = Sided::of_text(alloc, texts.ours, judge.ours, Side::One)?;
    let theirs = Sided::of_text(alloc, texts.theirs, judge.theirs, Side::Other)?;
    let work = Work {
        alloc,
        ours: &ours,
        theirs: &theirs,
        changes: judge.changes,
        manner: Manner {
            favor: judge.favor,
            is_apart: false,
            marks: Marks::Absent,
        },
    };
    finished(judge, &work)
}

/// The merge of three texts that were read.
fn merge_all(
    texts: &Texts<'_>,
    base: &Store,
    ours: &Store,
    theirs: &Store,
    favor: Favor,
) -> Result<Merged, Unmade>
    ensures { IfOk result (λ merged. IsMergeOfStates favor base.now.sections ours.now.sections theirs.now.sections merged.text.items (map key_of merged.conflicts.items)) }
{
    let alloc = base.allocator();
    let changes = changes_of(alloc, base, ours, theirs)?;
    let judge = Judge {
        alloc,
        ours,
        theirs,
        changes: &changes,
        favor,
    };
    merge_read(&judge, texts)
}

/// Two changes of a file, merged by what its entries mean. The text keeps the lines of our side. Where the other side alone changed a key, its
/// entries come in the places of ours, or behind what they followed there, with the comments directly above them.
///
/// It reads each text once, compares each two of them, sorts their entries by key, and compares what it made with both sides. Where conflicts
/// are united, each value that THEIRS has at one is compared with those of OURS.
///
/// # Errors
///
/// One of the texts is refused, with which one; out of memory. [`Error::Unplaced`] is of no text that is known.
pub fn merge(alloc: Global, texts: &Texts<'_>, favor: Favor) -> Result<Merged, Error>
    ensures merge { IfOk result (λ merged. IsMergeOfTexts favor texts.now.base.now texts.now.ours.now texts.now.theirs.now
        merged.text.items (map key_of merged.conflicts.items)) }
    ensures refused { IfErr result (IsRefusedMerge texts.now.base.now texts.now.ours.now texts.now.theirs.now) }
{
    let base = read_input(alloc, texts, Input::Base)?;
    let ours = read_input(alloc, texts, Input::Ours)?;
    let theirs = read_input(alloc, texts, Input::Theirs)?;
    match merge_all(texts, &base, &ours, &theirs, favor) {
        Ok(merged) => Ok(merged),
        Err(Unmade::Unplaced) => Err(Error::Unplaced),
        Err(Unmade::Memory) => Err(Error::Memory),
    }
}
