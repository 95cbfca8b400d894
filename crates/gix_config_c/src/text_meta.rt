//! Where a text comes from, as a program in C says it.
ghost use Rattle.std.specs.Prelude.{◌≡◌, IfOk};
ghost use Rattle.std.specs.Result.{result_map_both};
ghost use Rattle.gitconf_sources.specs.Metadata.{api_meta};
ghost use Rattle.gix_config_c.specs.TextMetas.{meta_of, plain_meta};

use crate::folders::text_if;
use crate::origin::{source_of, trust_of};
use crate::places::owned;
use crate::{NO_SUCH_NUMBER, NOT_UTF8};
use gitconf_sources::meta::Metadata;
use gitconf_sources::source::{Source, Trust};
use gix_config::NoMemory;
use std::alloc::Global;
use std::rc::Rc;

/// Where a text comes from that is parsed: its sections come from there, too.
#[repr(C)]
pub struct TextMeta<'a> {
    /// Whether it is that of a file with a path.
    pub has_path: bool,
    /// The path of its file, if there is one: that of an include is relative to its directory.
    pub path: &'a [u8],
    /// The place that it stands for: one of the sources' numbers.
    pub source: u32,
    /// How far it is trusted: one of the numbers of trust.
    pub trust: u32,
}

/// The same for the library.
#[derive(Clone, Copy)]
pub struct Known<'a> {
    /// The path of its file, if there is one.
    pub path: Option<&'a str>,
    /// The place that it stands for.
    pub source: Source,
    /// How far it is trusted.
    pub trust: Trust,
}

impl<'a> Known<'a> {
    /// That of a text of the calling program's own.
    pub fn api() -> Known<'a>
        ensures { plain_meta result ≡ api_meta }
    {
        Known {
            path: None,
            source: Source::Api,
            trust: Trust::Full,
        }
    }
}

/// Where a text comes from, or the number that says why that can't be: 101 for a path that is not UTF-8, else 104.
pub fn known_meta<'a>(meta: &'a TextMeta<'_>) -> Result<Known<'a>, u32>
    ensures { result_map_both plain_meta (λ number. number) result ≡ meta_of meta.now }
{
    let Some(path) = text_if(meta.has_path, meta.path) else {
        return Err(NOT_UTF8);
    };
    let Some(source) = source_of(meta.source) else {
        return Err(NO_SUCH_NUMBER);
    };
    let Some(trust) = trust_of(meta.trust) else {
        return Err(NO_SUCH_NUMBER);
    };
    Ok(Known {
        path,
        source,
        trust,
    })
}

/// The metadata of the library, with one owner.
pub fn shared(alloc: Global, known: Known<'_>) -> Result<Rc<Metadata>, NoMemory>
    ensures { IfOk result (λ meta. meta.value ≡ plain_meta known.entry) }
{
    let path = owned(alloc, known.path)?;
    let meta = Metadata {
        path,
        source: known.source,
        level: 0,
        trust: known.trust,
    };
    Ok(Rc::new(alloc, meta)?)
}
