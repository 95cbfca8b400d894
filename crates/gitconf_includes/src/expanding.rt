//! The expansion of files.
ghost use Rattle.std.specs.Option.{option_copied, option_map};
ghost use Rattle.std.specs.Prelude.{◌≡◌, ◌-◌, ◌<◌, [], if◌then◌else◌, length, map, Err, None, Ok, OnOk};
ghost use Rattle.bstr.specs.Owned.{bstring_bytes};
ghost use Rattle.gitconf_includes.specs.Errors.{says};
ghost use Rattle.gitconf_includes.specs.Said.{TooDeep};
ghost use Rattle.gitconf_state.specs.Including.{whole};
ghost use Rattle.gitconf_includes.specs.Expansion.{Expands, Follows, FollowsAll, Gives, Leaves, Reached};
ghost use Rattle.gitconf_includes.specs.Inclusion.{Includes};
ghost use Rattle.gitconf_includes.specs.Outcomes.{asks_of, told, CountsFaults, LeavesDone};
ghost use Rattle.gitconf_includes.specs.Visits.{condition_of, paths_of};

use crate::config_file::{ConfigFile, Directive, Visited};
use crate::following::fetch;
use crate::includes::Error;
use crate::init::Options;
use crate::judging::is_followed;
use crate::paths::file_named;
use bstr::BString;
use gitconf_sources::Files;
use gitconf_sources::meta::Metadata;
use std::alloc::Global;

/// A file at the last level: it is refused if the options ask for that.
fn at_the_limit(options: &Options<'_>) -> Result<(), Error>
    ensures { told (λ done. done) result ≡ (if options.now.includes.err_on_max_depth_exceeded then Err (TooDeep options.now.includes.max_depth) else Ok (tt {0})) }
{
    if options.includes.err_on_max_depth_exceeded {
        return Err(Error::IncludeDepthExceeded {
            max_depth: options.includes.max_depth,
        });
    }
    Ok(())
}

/// Puts the file that a path of a section names, itself expanded one level deeper, after everything that is done.
///
/// # Errors
///
/// Those of [`expand_file`].
#[cycle(expanding)]
fn follow<F: Files, S: ConfigFile>(
    alloc: Global,
    files: &mut F,
    options: &Options<'_>,
    from: &Metadata,
    path: BString,
    file: &mut S,
    left: u8,
) -> Result<(), Error>
    requires deep { 0 < left }
    requires some { 0 < length (S.done file.old).sections }
    ensures followed { (r : Reached) × Follows (Expands (left - 1) (asks_of options.now (F.table files.old))) (asks_of options.now (F.table files.old))
        from.now (bstring_bytes path) (S.rest file.old) (S.done file.old) r × LeavesDone result (S.rest file.new) (S.done file.new) r }
    ensures rest { S.rest file.new ≡ S.rest file.old }
    ensures some { OnOk result (0 < length (S.done file.new).sections) }
    ensures table { F.table files.new ≡ F.table files.old }
    ensures counted { CountsFaults result (F.failures files.old) (F.failures files.new) }
{
    let Some(path) = file_named(alloc, &options.includes, from, path)? else {
        return Ok(());
    };
    if !files.is_file(&path) {
        return Ok(());
    }
    let mut other: S = fetch(alloc, files, options, from, path)?;
    expand(alloc, files, options, Some(&*file), &mut other, left - 1)?;
    Ok(file.include(other)?)
}

/// Follows all paths of a section, in order.
///
/// # Errors
///
/// Those of [`expand_file`].
#[cycle(expanding)]
fn follow_all<F: Files, S: ConfigFile>(
    alloc: Global,
    files: &mut F,
    options: &Options<'_>,
    from: &Metadata,
    paths: Vec<BString>,
    file: &mut S,
    left: u8,
) -> Result<(), Error>
    requires deep { 0 < left }
    requires some { 0 < length (S.done file.old).sections }
    ensures followed { (r : Reached) × FollowsAll (Expands (left - 1) (asks_of options.now (F.table files.old))) (asks_of options.now (F.table files.old))
        from.now (map bstring_bytes paths.items) (S.rest file.old) (S.done file.old) r × LeavesDone result (S.rest file.new) (S.done file.new) r }
    ensures rest { S.rest file.new ≡ S.rest file.old }
    ensures table { F.table files.new ≡ F.table files.old }
    ensures counted { CountsFaults result (F.failures files.old) (F.failures files.new) }
{
    for path in paths {
        follow(alloc, files, options, from, path, file, left)?;
    }
    Ok(())
}

/// Follows what a visited section includes, if its condition holds.
///
/// # Errors
///
/// Those of [`expand_file`].
#[cycle(expanding)]
fn obey<'a, 'b, F: Files, S: ConfigFile>(
    alloc: Global,
    files: &mut F,
    options: &Options<'_>,
    parent: Option<&'a S>,
    directive: Directive,
    file: &'b mut S,
    left: u8,
) -> Result<(), Error>
    requires deep { 0 < left }
    requires some { 0 < length (S.done file.old).sections }
    ensures given { (r : Reached) × Gives (Expands (left - 1) (asks_of options.now (F.table files.old))) (asks_of options.now (F.table files.old))
        (option_map (λ s. whole (S.done s) (S.rest s)) (option_copied parent.entry)) directive.meta.value
        (Includes (condition_of directive) (paths_of directive))
        (S.rest file.old) (S.done file.old) r × LeavesDone result (S.rest file.new) (S.done file.new) r }
    ensures rest { S.rest file.new ≡ S.rest file.old }
    ensures table { F.table files.new ≡ F.table files.old }
    ensures counted { CountsFaults result (F.failures files.old) (F.failures files.new) }
{
    if !is_followed(alloc, options, parent, &*file, &directive)? {
        return Ok(());
    }
    let Directive {
        condition: _,
        paths,
        meta,
    } = directive;
    follow_all(alloc, files, options, &meta, paths, file, left)
}

/// Expands a file, `left` levels deep: each section that is in it at the beginning is visited, in order, and what its paths give is put
/// after it. `parent` is the file that includes it, if one does.
///
/// # Errors
///
/// Those of [`expand_file`].
#[cycle(expanding)]
fn expand<'a, F: Files, S: ConfigFile>(
    alloc: Global,
    files: &mut F,
    options: &Options<'_>,
    parent: Option<&'a S>,
    file: &'a mut S,
    left: u8,
) -> Result<(), Error>
    requires fresh { (S.done file.old).sections ≡ [] }
    ensures expanded { (r : Reached) × Expands left (asks_of options.now (F.table files.old))
        (option_map (λ s. whole (S.done s) (S.rest s)) (option_copied parent.entry)) (whole (S.done file.old) (S.rest file.old)) r
        × Leaves says result (whole (S.done file.new) (S.rest file.new)) r }
    ensures table { F.table files.new ≡ F.table files.old }
    ensures counted { CountsFaults result (F.failures files.old) (F.failures files.new) }
{
    if left == 0 {
        return at_the_limit(options);
    }
    while let Some(section) = file.visit()? {
        if let Visited::Includes(directive) = section {
            obey(alloc, files, options, parent, directive, file, left)?;
        }
    }
    Ok(())
}

/// Expands a file that no other file includes. It goes as many levels deep as the options say.
///
/// # Errors
///
/// An [`Error`], with the file as it then is: all files that were put in before stay, and one that was not yet put in is left out.
pub fn expand_file<F: Files, S: ConfigFile>(
    alloc: Global,
    files: &mut F,
    options: &Options<'_>,
    file: &mut S,
) -> Result<(), Error>
    requires fresh { (S.done file.old).sections ≡ [] }
    ensures expanded { (r : Reached) × Expands options.now.includes.max_depth (asks_of options.now (F.table files.old)) None
        (whole (S.done file.old) (S.rest file.old)) r
        × Leaves says result (whole (S.done file.new) (S.rest file.new)) r }
    ensures table { F.table files.new ≡ F.table files.old }
    ensures counted { CountsFaults result (F.failures files.old) (F.failures files.new) }
{
    let depth = options.includes.max_depth;
    expand(alloc, files, options, None, file, depth)
}
