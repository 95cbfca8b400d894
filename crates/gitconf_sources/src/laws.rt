//! Laws of the crate, each the contract of a function that does nothing.
ghost use Rattle.std.specs.Prelude.{◌≡◌, true};
ghost use Rattle.gitconf_sources.specs.Key.{AnswersAgree};
ghost use Rattle.gitconf_sources.specs.Source.{ascends, kinds_in_order, sources_in_order, trust_in_order};
ghost use Rattle.gitconf_sources.specs.contracts.source.KindOrd.TheImpl as kind_ord;
ghost use Rattle.gitconf_sources.specs.contracts.source.SourceOrd.TheImpl as source_ord;
ghost use Rattle.gitconf_sources.specs.contracts.source.TrustOrd.TheImpl as trust_ord;

use crate::key::AsKey;

/// If there is a key, [`AsKey::as_key`] returns what [`AsKey::try_as_key`] returns: whatever their contracts let
/// them return, it is the same key.
pub fn as_key_is_the_answer<K: AsKey>()
    ensures { AnswersAgree K.key }
{}

/// Sources and their groups are ordered as they are read, lowest first. Reduced trust is less than full trust.
pub fn sources_are_ordered_as_read()
    ensures sources { ascends (source_ord.ghosts).cmp sources_in_order ≡ true }
    ensures kinds { ascends (kind_ord.ghosts).cmp kinds_in_order ≡ true }
    ensures trust { ascends (trust_ord.ghosts).cmp trust_in_order ≡ true }
{}
