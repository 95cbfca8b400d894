//! Lists that are woven, which `Vec` lacks.
ghost use Rattle.std.specs.Prelude.{◌≡◌, ◌+◌, ◌-◌, ◌^◌, ◌<◌, ◌≤◌, [], ◌∷◌, length, vec_capacity, vec_len};
ghost use Rattle.gitconf_sections.specs.Runs.{total, woven, AreRuns};

use crate::runs::Run;

/// Weaves the elements from `first` on among those before them, by halves of the runs: each element is moved once for each
/// time that the runs can be halved.
pub fn weave<T>(list: &mut Vec<T>, first: usize, runs: &[Run])
    requires within { first ≤ vec_len list.old }
    requires runs { AreRuns runs.now first (vec_len list.old - first) }
    ensures woven { list.new.items ≡ woven runs.now first list.old.items }
    ensures room { (vec_len list.new ≡ vec_len list.old) × (vec_capacity list.new ≡ vec_capacity list.old) }
{
    weave_halves(list, first, runs);
}

// The same for a slice. First the first half of the runs is moved as one run, so that each half has its part of the list.
fn weave_halves<T>(list: &mut [T], first: usize, runs: &[Run])
    requires within { first ≤ length list.old }
    requires runs { AreRuns runs.now first (length list.old - first) }
    ensures { list.new ≡ woven runs.now first list.old }
{
    if list.len() == first {
        return;
    }
    if runs.len() < 2 {
        if let Some(run) = runs.first() {
            weave_run(list, first, *run);
        }
        return;
    }
    let (left, right) = runs.split_at(runs.len() / 2);
    let all = total(left);
    weave_run(list, first, all);
    let (before, behind) = list.split_at_mut(all.ahead + all.count);
    weave_halves(before, all.ahead, left);
    weave_halves(behind, first - all.ahead, right);
}

// The same for one run.
fn weave_run<T>(list: &mut [T], first: usize, run: Run)
    requires ahead { run.ahead ≤ first }
    requires count { first + run.count ≤ length list.old }
    ensures { list.new ≡ woven (run ∷ []) first list.old }
{
    let (_, tail) = list.split_at_mut(run.ahead);
    let behind = first - run.ahead;
    let (part, _) = tail.split_at_mut(behind + run.count);
    part.rotate_left(behind);
}

// All runs put together to one.
fn total(runs: &[Run]) -> Run
    requires ahead { (total runs.now).ahead < 2 ^ 64 }
    requires count { (total runs.now).count < 2 ^ 64 }
    ensures { result ≡ total runs.now }
{
    let mut all = Run { ahead: 0, count: 0 };
    for run in runs {
        all.ahead += run.ahead;
        all.count += run.count;
    }
    all
}
