//! What a program told of files and of variables: where loads of programs in C have these from.
ghost use Rattle.std.specs.Prelude.{◌≡◌, false};

use crate::told_list::{Tells, ToldList};
use crate::variables::ToldVariables;
use gitconf_sources::source::Trust;
use gitconf_sources::{FileFault, Files, Stage};
use std::alloc::AllocError;
use std::marker::Model;

/// What a program told of a path.
#[derive(Drop)]
pub enum Report {
    /// No file is there.
    Missing,
    /// A file of these bytes.
    Text(Vec<u8>),
    /// A file that can't be opened.
    Unopened,
    /// A file that can be opened but not read.
    Unread,
}

/// A fault at a stage.
fn fault(stage: Stage) -> FileFault
    ensures { result ≡ record { stage = stage; not_found = false } }
{
    FileFault {
        stage,
        not_found: false,
    }
}

impl Report {
    ghost use Rattle.std.specs.Prelude.{◌≡◌};
    ghost use Rattle.gitconf_sources.specs.Reports.{IsReadOf, is_there, trust_of};
    ghost use Rattle.std.specs.Option.{option_map};
    ghost use Rattle.gix_config_c.specs.Told.{report_of, text_told};

    /// Whether a file is there.
    fn is_there(&self) -> bool
        ensures { result ≡ is_there (report_of self.now) }
    {
        match self {
            Report::Missing => false,
            Report::Text(_) => true,
            Report::Unopened => true,
            Report::Unread => true,
        }
    }

    /// Its text, if it has one.
    fn text(&self) -> Option<&Vec<u8>>
        ensures { option_map (λ text. text.now.items) result ≡ text_told (report_of self.now) }
    {
        match self {
            Report::Text(text) => Some(text),
            _ => None,
        }
    }

    /// A copy of its bytes.
    fn read(&self) -> Result<Vec<u8>, FileFault>
        ensures { IsReadOf result (report_of self.now) }
    {
        match self {
            Report::Missing => Err(FileFault {
                stage: Stage::Open,
                not_found: true,
            }),
            Report::Text(text) => match Vec::from_slice(*text.allocator(), text.as_slice()) {
                Ok(copy) => Ok(copy),
                Err(_) => Err(fault(Stage::Memory)),
            },
            Report::Unopened => Err(fault(Stage::Open)),
            Report::Unread => Err(fault(Stage::Read)),
        }
    }

    /// How far it is trusted: fully, if it can be read.
    fn trust(&self) -> Result<Trust, FileFault>
        ensures { result ≡ trust_of (report_of self.now) }
    {
        match self {
            Report::Missing => Err(FileFault {
                stage: Stage::Open,
                not_found: true,
            }),
            Report::Text(_) => Ok(Trust::Full),
            Report::Unopened => Err(fault(Stage::Open)),
            Report::Unread => Err(fault(Stage::Read)),
        }
    }
}

impl Clone for Report {
    ghost use Rattle.std.specs.Prelude.{◌≡◌};
    ghost use Rattle.gix_config_c.specs.Told.{report_of};

    ghost is_clone = { λ report copy. report_of copy ≡ report_of report };

    fn clone(&self) -> Result<Report, AllocError> {
        match self {
            Report::Missing => Ok(Report::Missing),
            Report::Text(text) => Ok(Report::Text(Vec::from_slice(
                *text.allocator(),
                text.as_slice(),
            )?)),
            Report::Unopened => Ok(Report::Unopened),
            Report::Unread => Ok(Report::Unread),
        }
    }
}

/// Stands in a type for what is known of a file. No value of it is ever made.
pub struct OfFile {}

impl Model for OfFile {
    ghost use Rattle.gitconf_sources.specs.Reports.{FileReport, NoFile};

    ghost Value = { FileReport };

    ghost view = { λ _. NoFile };
}

impl Tells<OfFile> for Report {
    ghost use Rattle.gix_config_c.specs.Told.{report_of};

    ghost reported = { report_of };

    ghost same = { λ told copy is. is };
}

/// What a program told of files, by their paths. It is a source of files in which a path of which nothing was told can't be opened, so that
/// a load that needs it is refused.
pub type ToldFiles = ToldList<Report, OfFile>;

impl ToldFiles {
    ghost use Rattle.std.specs.Prelude.{◌≡◌};
    ghost use Rattle.std.specs.Option.{option_map};
    ghost use Rattle.gix_config_c.specs.Told.{text_told, told_at};

    /// The text that was told of a path. Takes a walk down a tree of the paths.
    pub fn text(&self, path: &str) -> Option<&Vec<u8>>
        ensures { option_map (λ text. text.now.items) result ≡ text_told (told_at self.now path.now) }
    {
        match self.told(path) {
            Some(report) => report.text(),
            None => None,
        }
    }
}

impl Files for ToldFiles {
    ghost use Rattle.std.specs.Prelude.{None, Some};
    ghost use Rattle.gix_config_c.specs.Told.{told_at};

    ghost table = { λ t. Some (told_at t) };

    ghost failures = { λ _. None };

    fn is_file(&mut self, path: &str) -> bool {
        match self.told(path) {
            Some(report) => report.is_there(),
            None => true,
        }
    }

    fn read(&mut self, path: &str) -> Result<Vec<u8>, FileFault> {
        match self.told(path) {
            Some(report) => report.read(),
            None => Err(fault(Stage::Open)),
        }
    }

    fn trust(&mut self, path: &str) -> Result<Trust, FileFault> {
        match self.told(path) {
            Some(report) => report.trust(),
            None => Err(fault(Stage::Open)),
        }
    }
}

/// What a program told of files and of variables.
#[derive(Drop)]
pub struct Told {
    /// What is at paths.
    pub files: ToldFiles,
    /// What variables are set to.
    pub variables: ToldVariables,
}
