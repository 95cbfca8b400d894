//! Edits: `set`, `unset`, `rename-section`, `remove-section` and `fmt`.
ghost use Rattle.std.specs.Prelude.{◌≡◌, ◌-◌, ◌==◌, List, [], length, map, not, option_map, is_some, string_bytes, true, unwrap_or, IfErr, IfOk, None, Ok, OnOk, Some};
ghost use Rattle.std.specs.Option.{option_copied};
ghost use Rattle.bstr.specs.Owned.{bstring_bytes};
ghost use Rattle.gitconf_text.specs.Document.{IsText};
ghost use Rattle.gitconf_text.specs.Part.{Part};
ghost use Rattle.gitconf_text.specs.Token.{tokens_of};
ghost use Rattle.gitconf_sources.specs.Key.{key_of};
ghost use Rattle.gitconf_sources.specs.Metadata.{api_meta};
ghost use Rattle.gitconf_state.specs.Made.{IsMade};
ghost use Rattle.gitconf_state.specs.Edit.{with_used};
ghost use Rattle.gitconf_state.specs.Edits.{RenameAll, apply, apply_all};
ghost use Rattle.gitconf_store.specs.Edited.{done, has_number};
ghost use Rattle.std.specs.List.{list_all, list_any};
ghost use Rattle.std.specs.HashSet.{IsFromIterResult, contains_by};
ghost use Rattle.gitconf_state.specs.Printing.{printed, printed_kept};
ghost use Rattle.gixcfg_core.specs.Answers.{Answers, IsRefusedText};
ghost use Rattle.gixcfg_core.specs.Comments.{IsUncommented};
ghost use Rattle.gix_config.specs.MultiValueEditors as multi;
ghost use Rattle.gix_config.specs.SectionEditors.{edited, lent};
ghost use Rattle.gixcfg_commands.specs.Beginnings as spec;
ghost use Rattle.gixcfg_commands.specs.Answered.{IsCarriedOut, IsChecked, marked_answer};
ghost use Rattle.gixcfg_commands.specs.Comments.{IsCommentedText, IsEditedText, IsTextWith};
ghost use Rattle.gixcfg_commands.specs.ByWords.{EndsEditing, IsEdit};
ghost use Rattle.gixcfg_commands.specs.Edits.{EditsTo, IsOfText, command_of, UnsetsTo, no_room, others_of, removal_of, renaming_of, trouble_of_renaming, unremoved, unrenamed, unsetting_of};
ghost use Rattle.gixcfg_commands.specs.Emptied.{losses_of, text_of_rest};
ghost use Rattle.gixcfg_commands.specs.Setting.{IsGivenText, IsPlacedText, IsPushed, IsPutText, IsGiven, IsRewritten, IsSetIn, IsSetText, IsStoredValue, IsUnwritten, SetsTo, added, pushing, setting, setting_of, setting_of_one, setting_of_several, unadded, writing};
ghost use Rattle.gixcfg_files.specs.Replacing.{known};
ghost use Rattle.gixcfg_files.specs.declared.place.Replaced.TheVariants.{Done};
ghost use Rattle.gixcfg_commands.specs.InPlace.{IsDone, IsNewText, is_synced};
ghost use Rattle.gixcfg_words.specs.Plain.{Plain};
ghost use Rattle.gixcfg_words.specs.declared.rules.Rules.TheVariants as rules;
ghost use Rattle.gixcfg_core.specs.Troubles.{IsStatus};
ghost use Rattle.gixcfg_core.specs.declared.origins.Located.TheVariants as located;
ghost use Rattle.gixcfg_commands.specs.Plainly.{plain_edit, EndsPlainly, Gives, GivesOfInput, IsOutcome};
ghost use Rattle.gixcfg_commands.specs.Meant.{IsMeant, count_marked, plain_holder, removals, spared, values_of_key, without_marked};
ghost use Rattle.gitconf_store.specs.declared.rename_section.Error.TheVariants.{Section};

use crate::beginnings::marked;
use crate::emptied::emptied;
use crate::layouts::laid_out;
use crate::library;
use crate::meant::{Meant, are_named, entries_meant, remove_meant, section_of_last};
use crate::named::Text;
use bstr::BString;
use gitconf_text::parse::section::header;
use gix_config::file::multi_value_mut::MultiValueMut;
use gix_config::file::section_mut::{self, SectionMut};
use gix_config::file::{SectionId, rename_section};
use gix_config::lookup::existing;
use gix_config::refusals::Refusal;
use gix_config::{File, KeyRef};
use gixcfg_core::comments;
use gixcfg_core::entries::has_names;
use gixcfg_core::origins::Located;
use gixcfg_core::outside::{Inputs, Outside, accepted};
use gixcfg_core::showing::{Told, show};
use gixcfg_core::streams::read_all;
use gixcfg_core::trouble::{Trouble, of_number, report};
use gixcfg_core::typed::stored;
use gixcfg_files::{EditCalls, EditFiles, Fault, Place, Replaced, Replacement, System};
use gixcfg_words::command::{Fmt, Placing, Removal, Renaming, Set, Unset, Values};
use gixcfg_words::keys::Names;
use gixcfg_words::rules::Rules;
use std::alloc::{AllocError, AllocGlobal, Global};
use std::collections::HashSet;
use std::io::{Read, Write};

/// An edit of a text.
#[derive(Clone, Copy)]
pub enum Edit<'a> {
    Set(&'a Set<'a>),
    Unset(&'a Unset<'a>),
    RenameSection(&'a Renaming<'a>),
    RemoveSection(&'a Removal<'a>),
    Fmt(&'a Fmt<'a>),
}

impl Edit<'_> {
    /// Whether the new text of a file is written down to the disk.
    fn is_synced(self) -> bool
        ensures { result ≡ is_synced self.entry }
    {
        match self {
            Edit::Set(set) => set.is_synced,
            Edit::Unset(unset) => unset.is_synced,
            Edit::RenameSection(renaming) => renaming.is_synced,
            Edit::RemoveSection(removal) => removal.is_synced,
            Edit::Fmt(fmt) => fmt.is_synced,
        }
    }
}

/// How often an edit is begun at most of a file that others change meanwhile.
const TRIES: usize = 16;

/// Carries an edit out: of a file in place, of standard input to standard output, and returns the status. What the user has to know of is told, a
/// line each.
pub fn carry_out<R: EditFiles + AllocGlobal, I: Read + Drop, W: Write, E: Write>(
    inputs: &mut Inputs<'_, R, I>,
    place: &Located,
    edit: Edit<'_>,
    out: &mut W,
    err: &mut E,
) -> u8
    ensures known { IsStatus result }
    ensures plain { (plain : Plain) → place.now ≡ located.Input → plain_edit edit.entry ≡ Some plain → inputs.old.rules ≡ rules.Library
        → EndsPlainly plain (I.remaining inputs.old.input) (W.contents out.old) (W.contents out.new) result }
    ensures by_git { place.now ≡ located.Input → inputs.old.rules ≡ rules.Git
        → EndsEditing (command_of edit.entry) inputs.old.outside.is_colored (I.remaining inputs.old.input) (W.contents out.old) (W.contents out.new) result }
{
    let told = Told {
        name: place.name(),
        rules: inputs.rules,
    };
    match place.path() {
        Some(path) => match edit_in_place(inputs.rt, path, edit, inputs.outside, err) {
            Ok(()) => 0,
            Err(trouble) => report(&trouble, told.name, told.rules, err),
        },
        None => {
            let edited = edited_input(inputs, place, edit);
            show(edited, &told, out, err)
        }
    }
}

/// What an edit makes of standard input.
fn edited_input<R: AllocGlobal, I: Read + Drop>(
    inputs: &mut Inputs<'_, R, I>,
    place: &Located,
    edit: Edit<'_>,
) -> Result<Vec<u8>, Trouble>
    ensures plain { (plain : Plain) → plain_edit edit.entry ≡ Some plain → inputs.old.rules ≡ rules.Library
        → GivesOfInput (λ text. text.items) (IsOutcome plain) (I.remaining inputs.old.input) result }
    ensures by_git { inputs.old.rules ≡ rules.Git
        → GivesOfInput (λ text. text.items) (IsEdit (command_of edit.entry) inputs.old.outside.is_colored) (I.remaining inputs.old.input) result }
{
    let alloc = inputs.rt.alloc();
    match read_all(alloc, &mut inputs.input) {
        Ok(text) => match inputs.rules {
            Rules::Library => edited_plainly(alloc, text, edit),
            Rules::Git => edited_bytes(alloc, edit, place.name(), &text, inputs.outside),
        },
        Err(trouble) => Err(trouble),
    }
}

/// What an edit with options makes of a text of this name.
fn edited_bytes(
    alloc: Global,
    edit: Edit<'_>,
    name: &str,
    text: &[u8],
    outside: Outside<'_>,
) -> Result<Vec<u8>, Trouble>
    ensures { Gives (λ text. text.items) (IsEdit (command_of edit.entry) outside.entry.is_colored text.now) result }
{
    match edited(alloc, edit, name, text, outside) {
        Ok(edited) => Ok(edited.into_vec()),
        Err(trouble) => Err(trouble),
    }
}

/// What an edit without options makes of a text. No other edit goes by the library's rules.
fn edited_plainly(alloc: Global, text: Vec<u8>, edit: Edit<'_>) -> Result<Vec<u8>, Trouble>
    ensures { (plain : Plain) → plain_edit edit.entry ≡ Some plain → Gives (λ text. text.items) (IsOutcome plain text.items) result }
{
    match edit {
        Edit::Set(set) => library::with_value(alloc, text, set.key, set.value),
        Edit::Unset(unset) => library::without_entry(alloc, text, unset.key),
        Edit::Fmt(fmt) => library::laid_out(alloc, text.as_slice(), fmt),
        Edit::RenameSection(_) | Edit::RemoveSection(_) => Err(Trouble::NoSection),
    }
}

/// Does an edit of the file at a path. A text that it doesn't change isn't written. Of a file that another process changes meanwhile the
/// edit is begun again.
fn edit_in_place<R: EditFiles + AllocGlobal, E: Write>(
    rt: &R,
    path: &str,
    edit: Edit<'_>,
    outside: Outside<'_>,
    err: &mut E,
) -> Result<(), Trouble> {
    for _ in 0..TRIES {
        let place = Place::find(rt, System::new(rt), path)?;
        if let (_, Replaced::Done) = edit_once(place, edit, path, outside, err)? {
            return Ok(());
        }
    }
    Err(Trouble::File(Fault::Changing))
}

/// Does an edit of the file at a place, which the user names so, if no other process changes it meanwhile. The calls of the system, on
/// which it was done, are returned.
fn edit_once<D: EditCalls, E: Write>(
    place: Place<D>,
    edit: Edit<'_>,
    name: &str,
    outside: Outside<'_>,
    err: &mut E,
) -> Result<(D, Replaced), Trouble>
    ensures { IfOk result (λ done. done.1 ≡ Done
        → IsDone edit.entry outside.entry.is_colored (string_bytes place.path) (string_bytes place.folder) (option_map known place.found) (D.told done.0)) }
{
    let alloc = place.calls.alloc();
    match new_text(alloc, place.text(), edit, name, outside)? {
        Some(text) => {
            let new = Replacement {
                text: &text,
                is_synced: edit.is_synced(),
            };
            Ok(place.replace(&new, err)?)
        }
        None => {
            let Place { calls, .. } = place;
            Ok((calls, Replaced::Done))
        }
    }
}

/// What an edit makes of the text of a file of this name, or of a file that isn't there; none if that is what it has.
fn new_text(
    alloc: Global,
    before: Option<&[u8]>,
    edit: Edit<'_>,
    name: &str,
    outside: Outside<'_>,
) -> Result<Option<BString>, Trouble>
    ensures { IfOk result (IsNewText edit.entry (unwrap_or (option_map (λ text. text.now) before.entry) []) outside.entry.is_colored) }
{
    match (before, edit) {
        (Some(text), _) => changed(alloc, text, edit, name, outside),
        (None, Edit::Set(_)) => changed(alloc, b"", edit, name, outside),
        (None, Edit::Unset(_)) => Err(Trouble::NoEntry),
        (None, _) => Err(Trouble::NoFile),
    }
}

/// What an edit makes of a text of this name; none if that is what it is.
fn changed(
    alloc: Global,
    text: &[u8],
    edit: Edit<'_>,
    name: &str,
    outside: Outside<'_>,
) -> Result<Option<BString>, Trouble>
    ensures { IfOk result (IsNewText edit.entry text.now outside.entry.is_colored) }
{
    let edited = edited(alloc, edit, name, text, outside)?;
    if edited.as_bytes() == text {
        Ok(None)
    } else {
        Ok(Some(edited))
    }
}

/// What an edit makes of a text of this name.
fn edited(
    alloc: Global,
    edit: Edit<'_>,
    name: &str,
    text: &[u8],
    outside: Outside<'_>,
) -> Result<BString, Trouble>
    ensures { EditsTo edit.entry text.now outside.entry.is_colored result }
{
    let read = Text { name, text };
    match edit {
        Edit::Set(set) => set_in(alloc, &read, set, outside),
        Edit::Unset(unset) => unset_in(alloc, &read, unset, outside),
        Edit::RenameSection(renaming) => renamed_in(alloc, &read, renaming, outside),
        Edit::RemoveSection(removal) => removed_in(alloc, &read, removal, outside),
        Edit::Fmt(fmt) => laid_out(alloc, name, text, fmt, outside),
    }
}

/// A text of this name as a file. It is copied, since the message of an error shows a line of it, and the edited text is compared with it.
fn parsed(alloc: Global, name: &str, text: &[u8], outside: Outside<'_>) -> Result<File, Trouble>
    ensures made { IfOk result (λ f. (parts : List Part) × IsText text.now parts × IsMade (tokens_of parts) api_meta (length text.now) f) }
    ensures refused { IfErr result (IsRefusedText text.now outside.entry.is_colored) }
{
    accepted(
        alloc,
        name,
        text,
        File::try_from_bytes(alloc, text),
        outside,
    )
}

/// The text of what is read, in which a key has got a value.
fn set_in(
    alloc: Global,
    read: &Text<'_>,
    set: &Set<'_>,
    outside: Outside<'_>,
) -> Result<BString, Trouble>
    ensures { IsOfText read.now.text.now outside.entry.is_colored (λ file. SetsTo set.now read.now.text.now file result) result }
{
    match parsed(alloc, read.name, read.text, outside) {
        Ok(mut file) => with_value(alloc, read.text, &mut file, set),
        Err(trouble) => Err(trouble),
    }
}

/// The text of a file, in which a key has got a value, as it is stored.
fn with_value(
    alloc: Global,
    text: &[u8],
    file: &mut File,
    set: &Set<'_>,
) -> Result<BString, Trouble>
    ensures { SetsTo set.now text.now file.old result }
{
    match value_of(alloc, set) {
        Ok(value) => {
            let giving = Giving {
                before: text,
                set,
                value: &value,
            };
            placed_text(alloc, file, &giving)
        }
        Err(trouble) => Err(trouble),
    }
}

/// What is set, in which text.
#[derive(Clone, Copy)]
struct Giving<'a> {
    /// The text.
    before: &'a [u8],
    /// What is asked for.
    set: &'a Set<'a>,
    /// The value, as it is stored.
    value: &'a [u8],
}

/// What becomes of a key's entries that are meant.
#[derive(Clone, Copy)]
enum Setting {
    /// There is none, so that one is added.
    Add,
    /// There is one, and it has the value.
    Keep,
    /// There is one, at this place among all of the key, and it gets the value.
    Give(usize),
    /// There are several; the last one, at this place among all of the key, gets the value, and the others are removed.
    GiveAlone(usize),
}

/// The text of a file, in which a key has got a value: the only one, one in place of others, or one more.
fn placed_text(alloc: Global, file: &mut File, giving: &Giving<'_>) -> Result<BString, Trouble>
    ensures { let set = giving.now.set.now in IsPlacedText set.comment set.placing (key_of set.key) giving.now.value.now giving.now.before.now file.old result }
{
    match giving.set.placing {
        Placing::New => added_text(alloc, file, giving),
        Placing::Only(values) => text_in_place(alloc, file, giving, values, false),
        Placing::All(values) => text_in_place(alloc, file, giving, values, true),
    }
}

/// The text of a file, in which a key has got a value in place of entries with such values.
fn text_in_place(
    alloc: Global,
    file: &mut File,
    giving: &Giving<'_>,
    values: Values<'_>,
    is_all: bool,
) -> Result<BString, Trouble>
    ensures { let set = giving.now.set.now in
        IsPutText set.comment is_all values.entry (key_of set.key) giving.now.value.now giving.now.before.now file.old result }
{
    match entries_meant(alloc, file, giving.set.key, values) {
        Ok(meant) => meant_text(alloc, file, giving, meant, is_all),
        Err(trouble) => Err(trouble),
    }
}

/// The text of a file, in which a key has got a value in place of the only entry that is meant, or of all that are.
fn meant_text(
    alloc: Global,
    file: &mut File,
    giving: &Giving<'_>,
    meant: Meant,
    is_all: bool,
) -> Result<BString, Trouble>
    ensures { let set = giving.now.set.now in let key = key_of set.key in let value = giving.now.value.now in
        (means : _) → IsMeant key means file.old meant → let found = values_of_key key file.old in
        IsSetText set.comment (setting_of is_all (is_some set.comment) value (map means found) found) key value (map means found) giving.now.before.now file.old result }
{
    let is_commented = giving.set.comment.is_some();
    match setting_of(&meant, giving.value, is_commented, is_all) {
        Ok(Setting::Add) => added_text(alloc, file, giving),
        Ok(Setting::Keep) => kept_text(alloc, giving),
        Ok(Setting::Give(at)) => given_text(alloc, file, giving, at),
        Ok(Setting::GiveAlone(at)) => alone_text(alloc, file, giving, meant, at),
        Err(trouble) => Err(trouble),
    }
}

/// What becomes of entries that are meant.
fn setting_of(
    meant: &Meant,
    value: &[u8],
    is_commented: bool,
    is_all: bool,
) -> Result<Setting, Trouble>
    ensures { result ≡ setting_of is_all is_commented value.now meant.now.marks.items (map (option_map bstring_bytes) meant.now.values.items) }
{
    match meant.last() {
        Some(at) if meant.count() == 1 => Ok(setting_of_one(meant, value, is_commented, at)),
        Some(last) => setting_of_several(is_all, last),
        None => Ok(Setting::Add),
    }
}

/// What becomes of the only one, which is at this place.
fn setting_of_one(meant: &Meant, value: &[u8], is_commented: bool, at: usize) -> Setting
    ensures { result ≡ setting_of_one is_commented value.now (map (option_map bstring_bytes) meant.now.values.items) at }
{
    if !is_commented && meant.is_at(at, value) {
        Setting::Keep
    } else {
        Setting::Give(at)
    }
}

/// What becomes of several, of which the last is at this place.
fn setting_of_several(is_all: bool, last: usize) -> Result<Setting, Trouble>
    ensures { result ≡ setting_of_several is_all last }
{
    if is_all {
        Ok(Setting::GiveAlone(last))
    } else {
        Err(Trouble::Several)
    }
}

/// The text of a file, with an entry more.
fn added_text(alloc: Global, file: &mut File, giving: &Giving<'_>) -> Result<BString, Trouble>
    ensures { let set = giving.now.set.now in let key = key_of set.key in let value = giving.now.value.now in
        IsEditedText set.comment giving.now.before.now (unadded key value file.old) (added key value file.old) result }
{
    match add(file, giving.set.key, giving.value) {
        Ok(()) => with_comment(alloc, file, giving),
        Err(trouble) => Err(trouble),
    }
}

/// The text as it was.
fn kept_text(alloc: Global, giving: &Giving<'_>) -> Result<BString, Trouble>
    ensures { Answers bstring_bytes result (Ok giving.now.before.now) }
{
    Ok(BString::new(giving.before.to_vec(alloc)?))
}

/// The text of a file, in which the entry of a key at a place among its entries has got another value.
fn given_text(
    alloc: Global,
    file: &mut File,
    giving: &Giving<'_>,
    at: usize,
) -> Result<BString, Trouble>
    ensures { let set = giving.now.set.now in IsGivenText set.comment (key_of set.key) at giving.now.value.now giving.now.before.now file.old result }
{
    match give(alloc, file, giving, at) {
        Ok(()) => with_comment(alloc, file, giving),
        Err(trouble) => Err(trouble),
    }
}

/// The same, without the others that are meant, which are all before it.
fn alone_text(
    alloc: Global,
    file: &mut File,
    giving: &Giving<'_>,
    meant: Meant,
    at: usize,
) -> Result<BString, Trouble>
    ensures { let set = giving.now.set.now in let key = key_of set.key in (means : _) → IsMeant key means file.old meant →
        let others = spared (map means (values_of_key key file.old)) at in
        IsGivenText set.comment key (at - count_marked others) giving.now.value.now giving.now.before.now (without_marked key others file.old) result }
{
    let mut others = meant;
    others.spare(at);
    text_without_others(alloc, file, giving, &others, at)
}

/// The same, without other entries, which are all before it.
fn text_without_others(
    alloc: Global,
    file: &mut File,
    giving: &Giving<'_>,
    others: &Meant,
    at: usize,
) -> Result<BString, Trouble>
    ensures { let set = giving.now.set.now in let key = key_of set.key in let holders = map plain_holder others.now.holders.items in
        list_all (λ h. has_number h.0 file.old) holders ≡ true → let marks = others.now.marks.items in
        IsGivenText set.comment key (at - count_marked marks) giving.now.value.now giving.now.before.now (apply_all (removals key.name marks holders) file.old) result }
{
    let key = giving.set.key;
    match remove_meant(file, key.value_name, others) {
        Ok(()) => given_text(alloc, file, giving, at.saturating_sub(others.count())),
        Err(trouble) => Err(trouble),
    }
}

/// The text of a file, with a comment after the value of a key's last entry, if one is asked for.
fn with_comment(alloc: Global, file: &File, giving: &Giving<'_>) -> Result<BString, Trouble>
    ensures { IsTextWith giving.now.set.now.comment giving.now.before.now file.now result }
{
    match giving.set.comment {
        None => written(alloc, giving.before, file),
        Some(comment) => match commented(alloc, file, giving.set.key, comment) {
            Ok(text) => marked(alloc, giving.before, text),
            Err(trouble) => Err(trouble),
        },
    }
}

/// The text of a file, from which entries of a key are removed, and the sections that have nothing left.
fn without_entries(
    alloc: Global,
    text: &[u8],
    file: &mut File,
    unset: &Unset<'_>,
) -> Result<BString, Trouble>
    ensures { UnsetsTo unset.now text.now file.old result }
{
    match entries_meant(alloc, file, unset.key, unset.values) {
        Ok(meant) => without_meant(alloc, text, file, unset, &meant),
        Err(trouble) => Err(trouble),
    }
}

/// The same, where it is known which entries are meant.
fn without_meant(
    alloc: Global,
    text: &[u8],
    file: &mut File,
    unset: &Unset<'_>,
    meant: &Meant,
) -> Result<BString, Trouble>
    ensures { let key = key_of unset.now.key in (means : _) → IsMeant key means file.old meant.now →
        Answers bstring_bytes result (marked_answer text.now (unsetting_of unset.now.is_all means key file.old)) }
{
    match remove_found(file, unset, meant) {
        Ok(()) => text_of_rest(alloc, text, file, unset.key, meant),
        Err(trouble) => Err(trouble),
    }
}

/// The text of a file from which entries of a key were removed, without the sections that this left with nothing.
fn text_of_rest(
    alloc: Global,
    before: &[u8],
    file: &File,
    key: KeyRef<'_>,
    meant: &Meant,
) -> Result<BString, Trouble>
    ensures { let losses = losses_of meant.now.marks.items (map plain_holder meant.now.holders.items) in
        Answers bstring_bytes result (Ok (spec.marked before.now (text_of_rest (key_of key.entry) losses file.now))) }
{
    let losses = meant.losses(alloc)?;
    let gone = emptied(alloc, file, key, &losses)?;
    let text = text_of_kept(alloc, file, gone)?;
    marked(alloc, before, BString::new(text))
}

/// The text of a file without the sections of these numbers. One walk over the file, however many they are.
fn text_of_kept(alloc: Global, file: &File, gone: Vec<SectionId>) -> Result<Vec<u8>, AllocError>
    ensures { IfOk result (λ text. text.items ≡ printed_kept (λ s. not (list_any (λ n. s.number == n) gone.items)) file.now) }
{
    match set_of(alloc, gone) {
        Ok(numbers) => text_beside(alloc, file, &numbers),
        Err(refusal) => Err(refusal),
    }
}

/// Numbers as a set.
fn set_of(alloc: Global, numbers: Vec<SectionId>) -> Result<HashSet<SectionId>, AllocError>
    ensures { IfOk result (IsFromIterResult (λ p q. p == q) numbers.items) }
{
    numbers.into_iter().collect(alloc)
}

/// The text of a file without the sections whose numbers are in a set.
fn text_beside(alloc: Global, file: &File, gone: &HashSet<SectionId>) -> Result<Vec<u8>, AllocError>
    ensures { IfOk result (λ text. text.items ≡ printed_kept (λ s. not (contains_by (λ n. s.number == n) gone.now)) file.now) }
{
    let mut text = Vec::new(alloc);
    match file.write_to_filter(&mut text, |section| !gone.contains(&section.id())) {
        Ok(()) => Ok(text),
        Err(_) => Err(AllocError),
    }
}

/// The text of what is read, from which entries of a key are removed.
fn unset_in(
    alloc: Global,
    read: &Text<'_>,
    unset: &Unset<'_>,
    outside: Outside<'_>,
) -> Result<BString, Trouble>
    ensures { IsOfText read.now.text.now outside.entry.is_colored (λ file. UnsetsTo unset.now read.now.text.now file result) result }
{
    match parsed(alloc, read.name, read.text, outside) {
        Ok(mut file) => without_entries(alloc, read.text, &mut file, unset),
        Err(trouble) => Err(trouble),
    }
}

/// The text of a file without the sections of a name.
fn removed(
    alloc: Global,
    text: &[u8],
    file: &File,
    removal: &Removal<'_>,
) -> Result<BString, Trouble>
    ensures { let names = removal.now.names in
        Answers bstring_bytes result (marked_answer text.now (removal_of names.name.now (option_copied names.subsection_name) file.now)) }
{
    match text_without(alloc, file, &removal.names) {
        Ok(edited) => marked(alloc, text, edited),
        Err(trouble) => Err(trouble),
    }
}

/// The text of what is read without the sections of a name.
fn removed_in(
    alloc: Global,
    read: &Text<'_>,
    removal: &Removal<'_>,
    outside: Outside<'_>,
) -> Result<BString, Trouble>
    ensures { let names = removal.now.names in
        IsOfText read.now.text.now outside.entry.is_colored (λ file. Answers bstring_bytes result
        (marked_answer read.now.text.now (removal_of names.name.now (option_copied names.subsection_name) file))) result }
{
    match parsed(alloc, read.name, read.text, outside) {
        Ok(file) => removed(alloc, read.text, &file, removal),
        Err(trouble) => Err(trouble),
    }
}

/// The text of a file, in which the sections of a name have got another one.
fn renamed(
    alloc: Global,
    text: &[u8],
    file: &mut File,
    renaming: &Renaming<'_>,
) -> Result<BString, Trouble>
    ensures { let old = renaming.now.old in let new = renaming.now.new in
        Answers bstring_bytes result (marked_answer text.now
        (renaming_of old.name.now (option_copied old.subsection_name) new.name.now (option_copied new.subsection_name) file.old)) }
{
    match rename(alloc, file, renaming) {
        Ok(()) => written(alloc, text, file),
        Err(trouble) => Err(trouble),
    }
}

/// The text of what is read, in which the sections of a name have got another one.
fn renamed_in(
    alloc: Global,
    read: &Text<'_>,
    renaming: &Renaming<'_>,
    outside: Outside<'_>,
) -> Result<BString, Trouble>
    ensures { let old = renaming.now.old in let new = renaming.now.new in
        IsOfText read.now.text.now outside.entry.is_colored (λ file. Answers bstring_bytes result (marked_answer read.now.text.now
        (renaming_of old.name.now (option_copied old.subsection_name) new.name.now (option_copied new.subsection_name) file))) result }
{
    match parsed(alloc, read.name, read.text, outside) {
        Ok(mut file) => renamed(alloc, read.text, &mut file, renaming),
        Err(trouble) => Err(trouble),
    }
}

/// The text of a file that was read from another one.
fn written(alloc: Global, before: &[u8], file: &File) -> Result<BString, Trouble>
    ensures { Answers bstring_bytes result (Ok (spec.marked before.now (printed file.now))) }
{
    marked(alloc, before, file.to_bstring()?)
}

/// The text of a file with a comment after the value of a key's last entry. The new text is read again, and has to mean what the file means.
fn commented(alloc: Global, file: &File, key: KeyRef<'_>, comment: &str) -> Result<BString, Trouble>
    ensures done { IfOk result (λ text. IsCommentedText comment.now file.now (bstring_bytes text)) }
    ensures refused { IfErr result IsUncommented }
{
    let text = comments::with_comment(alloc, &file.to_bstring()?, key, comment)?;
    match File::try_from_bytes(alloc, &text) {
        Ok(read) if read == *file => Ok(text),
        Ok(_) => Err(Trouble::Uncommented),
        Err(refusal) => Err(comments::trouble_of(&refusal)),
    }
}

/// A value as it is stored.
fn value_of(alloc: Global, set: &Set<'_>) -> Result<BString, Trouble>
    ensures { IsStoredValue set.now result }
{
    let value = set.value.as_bytes();
    match set.kind {
        None => Ok(BString::new(value.to_vec(alloc)?)),
        Some(kind) => match stored(alloc, value, kind) {
            Ok(text) => Ok(text),
            Err(fault) => Err(Trouble::from(fault)),
        },
    }
}

/// Adds an entry after the last one of the last section of its name, as git does it.
fn add(file: &mut File, key: KeyRef<'_>, value: &[u8]) -> Result<(), Trouble>
    ensures { let names = key_of key.entry in IsCarriedOut (unadded names value.now file.old) (added names value.now) result file.old file.new }
{
    match file.section_mut_or_create_new(key.section_name, key.subsection_name) {
        Ok(mut section) => push(&mut section, key.value_name, value),
        Err(refusal) => Err(of_number(refusal.number())),
    }
}

/// Adds an entry after the last one of a section.
fn push(section: &mut SectionMut<'_>, name: &str, value: &[u8]) -> Result<(), Trouble>
    ensures same_file { lent section.new ≡ lent section.old }
    ensures done { IsPushed (pushing section.old name.now value.now) result (edited section.old) (edited section.new) }
{
    match section.push_after_last(name, Some(value)) {
        Ok(()) => Ok(()),
        Err(refusal) => Err(of_number(refusal.number())),
    }
}

/// Gives the entry of a key at a place among its entries another value. As the last one of its section it keeps its name and the whitespace
/// around it; before others of the key it gets that of the section.
fn give(alloc: Global, file: &mut File, giving: &Giving<'_>, at: usize) -> Result<(), Trouble>
    ensures done { IfOk result (λ _. IsGiven (key_of giving.now.set.now.key) at giving.now.value.now file.old file.new) }
    ensures refused { IfErr result IsUnwritten }
{
    let key = giving.set.key;
    match section_of_last(alloc, file, key, at)? {
        Some(id) => set_last(file, id, key.value_name, giving.value),
        None => rewrite(file, key, giving.value, at),
    }
}

/// Gives the last entry of a name in the section of a number another value.
fn set_last(file: &mut File, id: SectionId, name: &str, value: &[u8]) -> Result<(), Trouble>
    ensures done { IfOk result (λ _. IsSetIn id name.now value.now file.old file.new) }
    ensures refused { IfErr result IsUnwritten }
{
    match file.section_mut_by_id(id) {
        Ok(mut section) => set_value(&mut section, name, value),
        Err(section_mut::Error::NonePasses) => Err(Trouble::Missing),
        Err(section_mut::Error::Lookup(_)) => Err(Trouble::Memory),
    }
}

/// Gives the last entry of a name in a section another value.
fn set_value(section: &mut SectionMut<'_>, name: &str, value: &[u8]) -> Result<(), Trouble>
    ensures same_file { lent section.new ≡ lent section.old }
    ensures done { OnOk result (edited section.new ≡ done (setting section.old name.now value.now) (edited section.old)) }
    ensures refused { IfErr result IsUnwritten }
{
    match section.set(name, value) {
        Ok(old) => {
            drop(old);
            Ok(())
        }
        Err(refusal) => Err(of_number(refusal.number())),
    }
}

/// Gives the entry of a key at a place among its entries another value, with the whitespace of its section. Beside a section as `[a.b "c"]`
/// the library doesn't count them so.
fn rewrite(file: &mut File, key: KeyRef<'_>, value: &[u8], at: usize) -> Result<(), Trouble>
    ensures done { IfOk result (λ _. IsRewritten (key_of key.entry) at value.now file.old file.new) }
    ensures refused { IfErr result IsUnwritten }
{
    if !are_named(file, key)? {
        return Err(Trouble::Several);
    }
    match file.raw_values_mut(key) {
        Ok(mut editor) => write_at(&mut editor, value, at),
        Err(existing::Error::Memory) => Err(Trouble::Memory),
        Err(_) => Err(Trouble::Missing),
    }
}

/// Gives one of the entries another value.
fn write_at(editor: &mut MultiValueMut<'_>, value: &[u8], at: usize) -> Result<(), Trouble>
    ensures same_file { multi.lent editor.new ≡ multi.lent editor.old }
    ensures done { OnOk result (multi.edited editor.new ≡ with_used (multi.edited editor.new).used (apply (writing editor.old at value.now) (multi.edited editor.old))) }
    ensures refused { IfErr result IsUnwritten }
{
    if at >= editor.len() {
        return Err(Trouble::Missing);
    }
    match editor.set_at(at, value) {
        Ok(()) => Ok(()),
        Err(refusal) => Err(of_number(refusal.number())),
    }
}

/// Removes the entries of a key that are meant, if there may be so many.
fn remove_found(file: &mut File, unset: &Unset<'_>, meant: &Meant) -> Result<(), Trouble>
    ensures { let key = key_of unset.now.key in
        (means : _) → IsMeant key means file.old meant.now → let marks = map means (values_of_key key file.old) in
        IsCarriedOut (unremoved unset.now.is_all (count_marked marks)) (without_marked key marks) result file.old file.new }
{
    match check_count(meant.count(), unset.is_all) {
        Ok(()) => remove_meant(file, unset.key.value_name, meant),
        Err(trouble) => Err(trouble),
    }
}

/// Tests that there is an entry, and only one if there may not be several.
fn check_count(count: usize, is_all: bool) -> Result<(), Trouble>
    ensures { IsChecked (unremoved is_all count) result }
{
    match count {
        0 => Err(Trouble::NoEntry),
        count if count > 1 && !is_all => Err(Trouble::Several),
        _ => Ok(()),
    }
}

/// The text of a file without the sections of these names. One walk over the file, however many they are.
///
/// # Errors
///
/// There is no such section; out of memory.
fn text_without(alloc: Global, file: &File, names: &Names<'_>) -> Result<BString, Trouble>
    ensures { Answers bstring_bytes result (removal_of names.now.name.now (option_copied names.now.subsection_name) file.now) }
{
    match file.section(names.name, names.subsection_name) {
        Ok(_) => Ok(BString::new(text_of_others(alloc, file, names)?)),
        Err(_) => Err(Trouble::NoSection),
    }
}

/// The text of a file without the sections of these names, if there are some.
fn text_of_others(alloc: Global, file: &File, names: &Names<'_>) -> Result<Vec<u8>, AllocError>
    ensures { IfOk result (λ text. text.items ≡ others_of names.now.name.now (option_copied names.now.subsection_name) file.now) }
{
    let mut text = Vec::new(alloc);
    match file.write_to_filter(
        &mut text,
        |section| !has_names(section, names.name, names.subsection_name),
    ) {
        Ok(()) => Ok(text),
        Err(_) => Err(AllocError),
    }
}

/// Gives the sections of a name another one.
fn rename(alloc: Global, file: &mut File, renaming: &Renaming<'_>) -> Result<(), Trouble>
    ensures { let old = renaming.now.old in let new = renaming.now.new in
        IsCarriedOut (unrenamed old.name.now (option_copied old.subsection_name) new.name.now (option_copied new.subsection_name) file.old)
        (apply (RenameAll old.name.now (option_copied old.subsection_name) (λ _. true) new.name.now (option_copied new.subsection_name)))
        result file.old file.new }
{
    let (old, new) = (&renaming.old, &renaming.new);
    let subsection_name = owned(alloc, new.subsection_name)?;
    match file.rename_section(old.name, old.subsection_name, new.name, subsection_name) {
        Ok(()) => Ok(()),
        Err(refusal) => Err(trouble_of(refusal)),
    }
}

/// A copy of a text, if there is one.
fn owned(alloc: Global, text: Option<&[u8]>) -> Result<Option<BString>, AllocError>
    ensures { IfOk result (λ copy. option_map bstring_bytes copy ≡ option_copied text.entry) }
{
    match text {
        Some(bytes) => Ok(Some(BString::new(bytes.to_vec(alloc)?))),
        None => Ok(None),
    }
}

/// The trouble that an error of renaming is.
fn trouble_of(refusal: rename_section::Error) -> Trouble
    ensures { result ≡ trouble_of_renaming refusal }
{
    match refusal {
        rename_section::Error::Lookup(_) => Trouble::NoSection,
        rename_section::Error::Section(refusal) => trouble_of_header(&refusal),
        rename_section::Error::Memory => Trouble::Memory,
    }
}

/// The trouble that a refused header is.
fn trouble_of_header(refusal: &header::Error) -> Trouble
    ensures { result ≡ trouble_of_renaming (Section refusal.now) }
{
    match refusal {
        header::Error::InvalidName => Trouble::BadName(4),
        header::Error::InvalidSubSection => Trouble::BadName(5),
        header::Error::Span(_) | header::Error::Memory => no_room(refusal.number()),
    }
}

/// The trouble of an error of this number, where only 3, too large, and 27, out of memory, come.
fn no_room(number: u8) -> Trouble
    ensures { result ≡ no_room number }
{
    if number == 3 {
        Trouble::Refused(3)
    } else {
        Trouble::Memory
    }
}
