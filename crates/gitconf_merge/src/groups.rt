//! What both sides have of a name, out of lists sorted by name.
ghost use Rattle.std.specs.Prelude.{◌≤◌, ◌<◌, ◌+◌, length};

/// A part of one of the sides that stands in a list sorted by names. Of a name those of OURS come first.
pub trait Grouped {
    /// Whether another one has the same name.
    fn is_alike(&self, other: &Self) -> bool;

    /// Whether it is one of THEIRS.
    fn is_theirs(&self) -> bool;
}

/// How many at the front have the name of the first, which comes before them.
fn alike_count<T: Grouped>(first: &T, rows: &[T]) -> usize
    ensures { result ≤ length rows.now }
{
    rows.iter()
        .position(|row| !first.is_alike(row))
        .unwrap_or(rows.len())
}

/// Those from a place on that have the name of the first of them.
pub fn group_at<T: Grouped>(rows: &[T], at: usize) -> &[T]
    requires { at < length rows.now }
    ensures some { 0 < length result.now }
    ensures within { at + length result.now ≤ length rows.now }
{
    let rest = rows.split_at(at).1;
    let first = &rest[0];
    rest.split_at(alike_count(first, &rest[1..]) + 1).0
}

/// How many of a name are those of OURS.
pub fn ours_count<T: Grouped>(rows: &[T]) -> usize
    ensures { result ≤ length rows.now }
{
    rows.iter()
        .position(Grouped::is_theirs)
        .unwrap_or(rows.len())
}
