//! Where a section comes from.
ghost use Rattle.std.specs.Prelude.{◌≡◌, IfOk, IfErr, string_bytes};
ghost use Rattle.gitconf_sources.specs.Metadata.{api_meta, meta_of_file, meta_of_source};

use crate::source::{Source, Trust};
use gitconf_text::NoMemory;
use std::cmp::Ordering;
use std::hash::{Hash, Hasher};
use std::marker::Model;

/// Where a section of the configuration comes from.
#[derive(Debug, Drop)]
pub struct Metadata {
    /// The path of its file, or `None` if it comes from no file.
    pub path: Option<String>,
    /// The place that it was read from.
    pub source: Source,
    /// How many includes led to its file: 0 for a file that was not included.
    pub level: u8,
    /// How far it is trusted.
    pub trust: Trust,
}

impl Model for Metadata {
    ghost use Rattle.std.specs.Option.{option_map};
    ghost use Rattle.std.specs.String.{string_bytes};
    ghost use Rattle.gitconf_sources.specs.Metadata.{Meta};

    ghost Value = { Meta };

    ghost view = { λ m. record { path = option_map string_bytes m.path; source = m.source; level = m.level; trust = m.trust } };
}

impl Metadata {
    /// The metadata of what a calling program sets: no path, `Source::Api`, level 0 and full trust.
    pub fn api() -> Metadata
        ensures { result ≡ api_meta }
    {
        Metadata {
            path: None,
            source: Source::Api,
            level: 0,
            trust: Trust::Full,
        }
    }

    /// The metadata of the file at `path`, at level 0. If the trust is an error, returns that error.
    pub fn try_from_path<E>(
        path: String,
        source: Source,
        trust: Result<Trust, E>,
    ) -> Result<Metadata, E>
        ensures trusted { IfOk trust (λ full. result ≡ Ok (meta_of_file (string_bytes path) source full)) }
        ensures fault { IfErr trust (λ fault. result ≡ Err fault) }
    {
        match trust {
            Ok(trust) => Ok(Metadata {
                path: Some(path),
                source,
                level: 0,
                trust,
            }),
            Err(fault) => Err(fault),
        }
    }

    /// The same with this trust.
    pub fn with(mut self, trust: Trust) -> Metadata
        ensures { result ≡ record self { trust = trust } }
    {
        self.trust = trust;
        self
    }

    /// The same with this path.
    pub fn at(mut self, path: String) -> Metadata
        ensures { result ≡ record self { path = Some (string_bytes path) } }
    {
        self.path = Some(path);
        self
    }

    /// A copy, or [`NoMemory`] if there is none for its path.
    pub fn try_clone(&self) -> Result<Metadata, NoMemory>
        ensures { IfOk result (λ copy. copy ≡ self.now) }
    {
        Ok(Metadata {
            path: self.path.clone()?,
            source: self.source,
            level: self.level,
            trust: self.trust,
        })
    }
}

impl Default for Metadata {
    ghost is_default = { λ m. m ≡ api_meta };

    /// Is [`Metadata::api`].
    fn default() -> Metadata {
        Metadata::api()
    }
}

impl From<Source> for Metadata {
    ghost from_gives = { λ source m. m ≡ meta_of_source source };

    /// [`Metadata::api`] with this source.
    fn from(source: Source) -> Metadata {
        Metadata {
            source,
            ..Metadata::api()
        }
    }
}

impl PartialEq for Metadata {
    ghost use Rattle.gitconf_sources.specs.MetadataLaws.{same_meta_partial};
    ghost use Rattle.gitconf_sources.specs.Metadata.{same_meta};

    ghost eq = { same_meta };

    ghost laws = { same_meta_partial };

    fn eq(&self, other: &Metadata) -> bool {
        self.path == other.path
            && self.source == other.source
            && self.level == other.level
            && self.trust == other.trust
    }
}

impl Eq for Metadata {
    ghost use Rattle.gitconf_sources.specs.MetadataLaws.{same_meta_equiv};

    ghost laws = { same_meta_equiv };
}

impl PartialOrd for Metadata {
    ghost use Rattle.gitconf_sources.specs.MetadataLaws.{meta_partial};
    ghost use Rattle.std.specs.Ordering.{as_partial_cmp};
    ghost use Rattle.gitconf_sources.specs.Metadata.{meta_cmp};

    ghost partial_cmp = { as_partial_cmp meta_cmp };

    ghost laws = { meta_partial };

    fn partial_cmp(&self, other: &Metadata) -> Option<Ordering> {
        Some(self.cmp(other))
    }
}

impl Ord for Metadata {
    ghost use Rattle.std.proofs.Common.{refl};
    ghost use Rattle.gitconf_sources.specs.MetadataLaws.{meta_cmp_total, meta_ties};
    ghost use Rattle.gitconf_sources.specs.Metadata.{meta_cmp};

    ghost cmp = { meta_cmp };

    ghost total = { meta_cmp_total };

    ghost matches_partial_cmp = { λ x y. refl };

    ghost matches_eq = { meta_ties };

    fn cmp(&self, other: &Metadata) -> Ordering {
        self.path
            .cmp(&other.path)
            .then(self.source.cmp(&other.source))
            .then(self.level.cmp(&other.level))
            .then(self.trust.cmp(&other.trust))
    }
}

impl Hash for Metadata {
    ghost use Rattle.gitconf_sources.specs.MetadataLaws.{meta_alike};
    ghost use Rattle.gitconf_sources.specs.Metadata.{meta_hash};

    ghost hash_input = { meta_hash };

    ghost respects_eq = { meta_alike.fed };

    fn hash<H: Hasher>(&self, state: &mut H) {
        self.path.hash(state);
        self.source.hash(state);
        self.level.hash(state);
        self.trust.hash(state);
    }
}
