//! Which file an include leads to, and why to none.
ghost use Rattle.std.specs.Prelude.{◌≡◌, ◌&&◌, IfOk, false, is_none, map};
ghost use Rattle.bstr.specs.Owned.{bstring_bytes};
ghost use Rattle.gitconf_includes.specs.Conditions.{holds};
ghost use Rattle.gitconf_includes.specs.Inclusion.{inclusion};
ghost use Rattle.gitconf_includes.specs.Rules.{rules_of_includes};
ghost use Rattle.gitconf_views.specs.Views.{shown};
ghost use Rattle.gixcfg_commands.specs.Inclusions.{condition_by, condition_in, has_url_among, is_so, leads_on, led_to, path_told};

use bstr::BString;
use gitconf_glob::wildmatch;
use gitconf_includes::conditions::{Judged, judge};
use gitconf_includes::includes;
use gitconf_includes::paths::file_named;
use gitconf_sources::meta::Metadata;
use gitconf_views::section::SectionRef;
use gix_config::{File, NoMemory};
use gixcfg_core::trouble::Trouble;
use gixcfg_words::shown::Shown;
use std::alloc::{AllocError, Global};

/// What includes are judged by.
#[derive(Clone, Copy)]
pub struct Judging<'a> {
    /// What conditions and shorthands of paths stand for.
    pub options: includes::Options<'a>,
    /// Whether includes are followed at all.
    pub follows: bool,
}

/// What a section includes by.
#[derive(Clone, Copy)]
pub enum Directive<'a> {
    /// It is an `include`.
    Always,
    /// It is an `includeIf` with this condition.
    If(&'a [u8]),
    /// It is one of them for git, but written in other letters.
    Misspelled,
}

/// What a section includes by, if it includes.
pub fn directive_of<'a>(section: &SectionRef<'a>) -> Option<Directive<'a>>
    ensures { condition_by result ≡ condition_in (inclusion (shown section.now)) }
{
    let header = section.header();
    let name = header.name();
    match header.subsection_name() {
        None if name == b"include".as_slice() => Some(Directive::Always),
        Some(condition) if name == b"includeIf".as_slice() => Some(Directive::If(condition)),
        None if name.eq_ignore_ascii_case(b"include") => Some(Directive::Misspelled),
        Some(_) if name.eq_ignore_ascii_case(b"includeif") => Some(Directive::Misspelled),
        _ => None,
    }
}

/// The URLs of the remotes of a file.
pub fn urls_of(alloc: Global, file: &File) -> Result<Vec<BString>, NoMemory> {
    let mut urls = Vec::new(alloc);
    for section in file.sections() {
        if section.header().name().eq_ignore_ascii_case(b"remote") {
            for url in section.values("url")? {
                urls.push(url)?;
            }
        }
    }
    Ok(urls)
}

/// Whether a pattern matches one of these URLs.
fn has_url(alloc: Global, urls: &[BString], pattern: &[u8]) -> Result<bool, NoMemory>
    ensures { IfOk result (λ found. found ≡ has_url_among (map bstring_bytes urls.now) pattern.now) }
{
    for url in urls {
        if wildmatch(alloc, pattern, url, false)? {
            return Ok(true);
        }
    }
    Ok(false)
}

impl Judging<'_> {
    /// The path of the file that a section includes, or why it includes none. The section includes it by the value of `path`. `urls` are
    /// those that conditions ask for.
    ///
    /// # Errors
    ///
    /// Out of memory.
    pub fn path_of(
        &self,
        alloc: Global,
        section: &SectionRef<'_>,
        path: BString,
        urls: &[BString],
    ) -> Result<Result<String, String>, Trouble>
        ensures { IfOk result (λ told. path_told told ≡ led_to self.now.follows (rules_of_includes self.now.options) (shown section.now).meta
            (map bstring_bytes urls.now) (inclusion (shown section.now)) (bstring_bytes path)) }
    {
        let meta = section.meta();
        if let Some(why) = self.why_not(alloc, section, urls)? {
            return Ok(Err(why));
        }
        match file_named(alloc, &self.options, meta, path) {
            Ok(Some(path)) => Ok(Ok(path)),
            Ok(None) => Ok(Err(String::from_str(
                alloc,
                "the beginning of its path stands for nothing here",
            )?)),
            Err(includes::Error::Memory) => Err(Trouble::Memory),
            Err(refusal) => Ok(Err(format!(in alloc; "{refusal}")?)),
        }
    }

    /// Why what a section includes isn't followed, if that is by the section.
    fn why_not(
        &self,
        alloc: Global,
        section: &SectionRef<'_>,
        urls: &[BString],
    ) -> Result<Option<String>, Trouble>
        ensures { IfOk result (λ why. is_none why ≡ (self.now.follows && leads_on (rules_of_includes self.now.options) (shown section.now).meta
            (map bstring_bytes urls.now) (inclusion (shown section.now)))) }
    {
        match directive_of(section) {
            _ if !self.follows => some(
                alloc,
                "this call reads no includes, but would with --includes",
            ),
            Some(Directive::Misspelled) => some(
                alloc,
                "the library takes include and includeIf only in these letters",
            ),
            Some(Directive::If(condition)) => {
                self.why_fails(alloc, section.meta(), condition, urls)
            }
            Some(Directive::Always) => Ok(None),
            None => some(alloc, "it is in no include"),
        }
    }

    /// Why a condition doesn't hold, if it doesn't.
    fn why_fails(
        &self,
        alloc: Global,
        meta: &Metadata,
        condition: &[u8],
        urls: &[BString],
    ) -> Result<Option<String>, Trouble>
        ensures { IfOk result (λ why. is_none why
            ≡ is_so (holds (rules_of_includes self.now.options) meta.now (has_url_among (map bstring_bytes urls.now)) condition.now)) }
    {
        match judge(alloc, &self.options, meta, condition) {
            Ok(Judged::Holds(true)) => Ok(None),
            Ok(Judged::Holds(false)) => Ok(Some(self.because(alloc, meta, condition)?)),
            Ok(Judged::IfUrl(pattern)) if has_url(alloc, urls, pattern)? => Ok(None),
            Ok(Judged::IfUrl(_)) => Ok(Some(because_of_urls(alloc, urls)?)),
            Err(includes::Error::Memory) => Err(Trouble::Memory),
            Err(refusal) => Ok(Some(format!(in alloc; "{refusal}")?)),
        }
    }

    /// Why a condition that is about no URL doesn't hold.
    fn because(
        &self,
        alloc: Global,
        meta: &Metadata,
        condition: &[u8],
    ) -> Result<String, NoMemory> {
        let about = &self.options.conditional;
        if condition.starts_with(b"gitdir:") || condition.starts_with(b"gitdir/i:") {
            match about.git_dir {
                Some(git_dir) => {
                    let path = Shown(git_dir.path);
                    let hint = self.hint(alloc, meta, condition)?;
                    Ok(format!(in alloc; "the repository here is {path}{hint}")?)
                }
                None => Ok(String::from_str(alloc, "there is no repository here")?),
            }
        } else if condition.starts_with(b"onbranch:") {
            match about.branch_name {
                Some(name) => {
                    let name = Shown(name.strip_prefix("refs/heads/").unwrap_or(name));
                    let hint = self.hint(alloc, meta, condition)?;
                    Ok(format!(in alloc; "the branch here is {name}{hint}")?)
                }
                None => Ok(String::from_str(alloc, "no branch is checked out here")?),
            }
        } else {
            Ok(String::from_str(
                alloc,
                "a condition begins with gitdir:, gitdir/i:, onbranch: or hasconfig:remote.*.url:",
            )?)
        }
    }

    /// That a condition would hold with a slash at its end, if it would.
    fn hint(
        &self,
        alloc: Global,
        meta: &Metadata,
        condition: &[u8],
    ) -> Result<&'static str, NoMemory> {
        let mut longer = Vec::from_slice(alloc, condition)?;
        longer.push(b'/')?;
        match judge(alloc, &self.options, meta, &longer) {
            Ok(Judged::Holds(true)) => Ok("; with / at its end the condition would hold"),
            Err(includes::Error::Memory) => Err(NoMemory),
            _ => Ok(""),
        }
    }
}

/// That there is a reason.
fn some(alloc: Global, why: &str) -> Result<Option<String>, Trouble>
    ensures { IfOk result (λ reason. is_none reason ≡ false) }
{
    Ok(Some(String::from_str(alloc, why)?))
}

/// The URLs that none of matches.
fn because_of_urls(alloc: Global, urls: &[BString]) -> Result<String, AllocError> {
    let mut why = String::from_str(alloc, "no remote of the file has such a URL")?;
    for (at, url) in urls.iter().enumerate() {
        let (between, url) = (if at == 0 { ": " } else { ", " }, Shown(url));
        why.push_str(format!(in alloc; "{between}{url}")?.as_str())?;
    }
    Ok(why)
}
