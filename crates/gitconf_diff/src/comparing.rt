//! What two files say of one key, compared.
ghost use Rattle.std.specs.Prelude.{◌≡◌, unwrap_or, position, ◌<◌, ◌≤◌, ◌+◌, length, drop, None, if◌then◌else◌, slice_index_or};
ghost use Rattle.std.specs.Option.{option_copied, option_eq};
ghost use Rattle.std.specs.Cmp.Lexicographic.{pointwise};
ghost use Rattle.std.specs.Str.{bytes_eq};
ghost use Rattle.gitconf_diff.specs.PlainSettings.{are_same, differ_alone, found_in, goes_on, plain_mention, plain_mentions, same_side, values_of, IsBySide};
ghost use Rattle.gitconf_diff.specs.declared.setting.Side.TheVariants.{Other};

use crate::mention::{Mention, bytes_of};

/// Whether the entries have the same values, in order.
fn have_same_values(one: &[Mention<'_>], other: &[Mention<'_>]) -> bool
    ensures { result ≡ pointwise (option_eq bytes_eq) (values_of (plain_mentions one.now)) (values_of (plain_mentions other.now)) }
{
    if one.len() != other.len() {
        return false;
    }
    for at in 0..one.len() {
        if one[at].value != other[at].value {
            return false;
        }
    }
    true
}

/// The value at a place, if the entry there is the last of its section.
fn deciding<'m, 'a>(mentions: &'m [Mention<'a>], at: usize) -> Option<&'m [u8]>
    requires { at < length mentions.now }
    ensures { (d : Mention) → option_copied result
        ≡ (if goes_on (plain_mention (slice_index_or mentions.now at d)) (plain_mentions (drop (at + 1) mentions.now)) then None
        else (plain_mention (slice_index_or mentions.now at d)).value) }
{
    let mention = &mentions[at];
    match mentions.get(at + 1) {
        Some(next) if next.section == mention.section => None,
        _ => bytes_of(&mention.value),
    }
}

/// The value that a lookup finds among the entries of a key.
fn found_in<'m, 'a>(mentions: &'m [Mention<'a>]) -> Option<&'m [u8]>
    ensures { option_copied result ≡ found_in (plain_mentions mentions.now) }
{
    let mut at = mentions.len();
    while at > 0 {
        at -= 1;
        match deciding(mentions, at) {
            Some(value) => return Some(value),
            None => {}
        }
    }
    None
}

/// Whether two files say the same of a key: the same values, and lookups find the same one.
fn say_same(one: &[Mention<'_>], other: &[Mention<'_>]) -> bool
    ensures { result ≡ are_same (plain_mentions one.now) (plain_mentions other.now) }
{
    have_same_values(one, other) && found_in(one) == found_in(other)
}

/// The place of the first entry that is the other file's.
fn other_place(mentions: &[Mention<'_>]) -> Option<usize>
    ensures { result ≡ position (λ s. same_side Other s.side) mentions.now }
{
    mentions.iter().position(|s| s.side.is_other())
}

/// How many entries of a key are of the first file, where these come first.
fn first_count(mentions: &[Mention<'_>]) -> usize
    ensures within { result ≤ length mentions.now }
    ensures count { result ≡ unwrap_or (position (λ s. same_side Other s.side) mentions.now) (length mentions.now) }
{
    other_place(mentions).unwrap_or(mentions.len())
}

/// Whether the files say different things of a key. Of its entries the first file's come first.
pub fn differ(mentions: &[Mention<'_>]) -> bool
    requires { IsBySide (plain_mentions mentions.now) }
    ensures { result ≡ differ_alone (plain_mentions mentions.now) }
{
    let (one, other) = mentions.split_at(first_count(mentions));
    !say_same(one, other)
}
