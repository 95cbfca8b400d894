//! What holds of merges.
ghost use Rattle.std.specs.Prelude.{◌≡◌, List, Some};
ghost use Rattle.gitconf_sources.specs.Key.{Key};
ghost use Rattle.gitconf_state.specs.State.{SectionState};
ghost use Rattle.gitconf_diff.specs.Differences.{Answers, answers_at};
ghost use Rattle.gitconf_merge.specs.Merging.{IsMerge, merged};
ghost use Rattle.gitconf_merge.specs.declared.favor.Favor.{Favor};

/// A merge with a side that changed nothing says what the other side says. With the sides swapped it says the same of each key that is no
/// conflict.
pub fn merges_follow_the_changes()
    ensures ours_unchanged { (favor : Favor) (base ours theirs result : List SectionState) → IsMerge favor base ours theirs result
        → ((key : Key) → answers_at key base ≡ answers_at key ours) → (key : Key) → answers_at key result ≡ answers_at key theirs }
    ensures theirs_unchanged { (favor : Favor) (base ours theirs result : List SectionState) → IsMerge favor base ours theirs result
        → ((key : Key) → answers_at key base ≡ answers_at key theirs) → (key : Key) → answers_at key result ≡ answers_at key ours }
    ensures swapped { (favor other : Favor) (base ours theirs result swapped : List SectionState) → IsMerge favor base ours theirs result → IsMerge other base theirs ours swapped
        → (key : Key) (answers : Answers) → merged (answers_at key base) (answers_at key ours) (answers_at key theirs) ≡ Some answers
        → answers_at key result ≡ answers_at key swapped }
{}
