//! Whether a section's paths are followed.
ghost use Rattle.std.specs.Option.{option_copied, option_map, unwrap_or};
ghost use Rattle.std.specs.Prelude.{◌≡◌, IfOk};
ghost use Rattle.gitconf_includes.specs.Conditions.{holds, Says};
ghost use Rattle.gitconf_includes.specs.Rules.{rules_of, rules_of_includes};
ghost use Rattle.gitconf_state.specs.Including.{whole};
ghost use Rattle.gitconf_includes.specs.Inclusion.{has_url, is_followed};
ghost use Rattle.gitconf_includes.specs.Visits.{condition_of};

use crate::conditions::{Judged, judge};
use crate::config_file::{ConfigFile, Directive};
use crate::includes;
use crate::includes::Error;
use crate::init::Options;
use gitconf_sources::meta::Metadata;
use gitconf_text::NoMemory;
use std::alloc::Global;

/// Whether a remote's url matches the pattern, in the file that includes this one or, if none does, in this one.
///
/// # Errors
///
/// Out of memory.
fn has_url<S: ConfigFile>(parent: Option<&S>, file: &S, pattern: &[u8]) -> Result<bool, NoMemory>
    ensures { IfOk result (λ found. found ≡ has_url
        (unwrap_or (option_map (λ s. whole (S.done s) (S.rest s)) (option_copied parent.entry)) (whole (S.done file.now) (S.rest file.now))) pattern.now) }
{
    match parent {
        Some(parent) => parent.has_url(pattern),
        None => file.has_url(pattern),
    }
}

/// Whether the condition of a section of this file holds; `from` is where the section comes from.
///
/// # Errors
///
/// Those of [`judge`].
fn holds<S: ConfigFile>(
    alloc: Global,
    options: &includes::Options<'_>,
    parent: Option<&S>,
    file: &S,
    from: &Metadata,
    condition: &[u8],
) -> Result<bool, Error>
    ensures { Says (λ holds. holds) result (holds (rules_of_includes options.now) from.now
        (has_url (unwrap_or (option_map (λ s. whole (S.done s) (S.rest s)) (option_copied parent.entry))
        (whole (S.done file.now) (S.rest file.now)))) condition.now) }
{
    match judge(alloc, options, from, condition)? {
        Judged::Holds(holds) => Ok(holds),
        Judged::IfUrl(pattern) => Ok(has_url(parent, file, pattern)?),
    }
}

/// Whether the paths of a section of this file are followed: without a condition, or if it holds.
///
/// # Errors
///
/// Those of [`judge`].
pub(crate) fn is_followed<S: ConfigFile>(
    alloc: Global,
    options: &Options<'_>,
    parent: Option<&S>,
    file: &S,
    directive: &Directive,
) -> Result<bool, Error>
    ensures { Says (λ follows. follows) result (is_followed (rules_of options.now) directive.now.meta.value
        (unwrap_or (option_map (λ s. whole (S.done s) (S.rest s)) (option_copied parent.entry)) (whole (S.done file.now) (S.rest file.now)))
        (condition_of directive.now)) }
{
    match &directive.condition {
        None => Ok(true),
        Some(condition) => {
            let meta = &directive.meta;
            holds(alloc, &options.includes, parent, file, meta, condition)
        }
    }
}
