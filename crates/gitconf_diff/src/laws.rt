//! What holds of the differences of two files.
ghost use Rattle.std.specs.Prelude.{◌≡◌, ◌↔◌, [], Bool, List, true};
ghost use Rattle.gitconf_sources.specs.Key.{Key};
ghost use Rattle.gitconf_state.specs.State.{State};
ghost use Rattle.gitconf_lookups.specs.Lookups.{implicit_at, value_at, values_at};
ghost use Rattle.gitconf_diff.specs.Differences.{answers_at, AreDifferences, Different};

/// Two files differ in nothing exactly if both say the same of every key. Then lookups of a key without a filter find the same
/// values in both.
pub fn nothing_differs_if_files_say_the_same()
    ensures nothing { (one other : State) (differences : List Different) → AreDifferences one.sections other.sections differences
        → (differences ≡ []) ↔ ((key : Key) → answers_at key one.sections ≡ answers_at key other.sections) }
    ensures look_ups { (one other : State) (key : Key) → AreDifferences one.sections other.sections []
        → (value_at key (λ _. true) one ≡ value_at key (λ _. true) other) × (values_at key (λ _. true) one ≡ values_at key (λ _. true) other)
        × (implicit_at key (λ _. true) one ≡ implicit_at key (λ _. true) other) }
{}
