//! Files and variables in memory, alone and in the boxes of a host; with each allocation refused in turn.

use crate::shim::{Outcome, begin, each_refused, was_refused};
use gitconf_sources::source::Trust;
use gitconf_sources::{
    Env, EnvVar, FileFault, Files, Host, MemEnv, MemFile, MemFiles, Places, Stage,
};
use gitconf_text::NoMemory;
use std::alloc::{AllocError, Global};
use std::test::Fail;

/// A path, whether a file is there, and its bytes and trust, or the fault of both.
type Row = (
    &'static str,
    bool,
    Result<(&'static [u8], Trust), FileFault>,
);

static ROWS: [Row; 7] = [
    ("/b", true, Ok((b"[a]\n", Trust::Full))),
    ("", true, Ok((b"", Trust::Reduced))),
    (
        "/gone",
        true,
        Err(FileFault {
            stage: Stage::Open,
            not_found: true,
        }),
    ),
    (
        "/a",
        true,
        Err(FileFault {
            stage: Stage::Open,
            not_found: false,
        }),
    ),
    (
        "/broken",
        true,
        Err(FileFault {
            stage: Stage::Read,
            not_found: false,
        }),
    ),
    (
        "/A",
        false,
        Err(FileFault {
            stage: Stage::Open,
            not_found: true,
        }),
    ),
    (
        "/b/",
        false,
        Err(FileFault {
            stage: Stage::Open,
            not_found: true,
        }),
    ),
];

/// A file that behaves as the row says.
fn file_of(alloc: Global, row: &Row) -> Result<MemFile, AllocError> {
    match row.2 {
        Ok((text, trust)) => Ok(MemFile::Bytes(Vec::from_slice(alloc, text)?, trust)),
        Err(FileFault { stage, not_found }) => match stage {
            Stage::Open => Ok(MemFile::OpenFault { not_found }),
            Stage::Read | Stage::Memory => Ok(MemFile::ReadFault),
        },
    }
}

/// Puts a file at a path.
fn put(alloc: Global, files: &mut MemFiles, path: &str, file: MemFile) -> Result<(), NoMemory> {
    files.insert(String::from_str(alloc, path)?, file)
}

/// The files of the rows, each put in over another one.
fn files(alloc: Global) -> Result<MemFiles, NoMemory> {
    let mut files = MemFiles::new(alloc);
    for row in ROWS.iter() {
        if row.1 {
            put(
                alloc,
                &mut files,
                row.0,
                MemFile::OpenFault { not_found: true },
            )?;
            put(alloc, &mut files, row.0, file_of(alloc, row)?)?;
        }
    }
    Ok(files)
}

/// Whether these are the bytes of the row, or its fault.
fn has_bytes(read: &Result<Vec<u8>, FileFault>, row: &Row) -> bool {
    match (read, &row.2) {
        (Ok(bytes), Ok((text, _))) => bytes.as_slice() == *text,
        (Err(fault), Err(told)) => fault == told,
        _ => false,
    }
}

/// Whether reading returns what the row says.
fn is_read<F: Files>(files: &mut F, row: &Row) -> bool {
    has_bytes(&files.read(row.0), row)
}

/// Whether the trust is what the row says.
fn is_trusted<F: Files>(files: &mut F, row: &Row) -> bool {
    match (files.trust(row.0), row.2) {
        (Ok(trust), Ok((_, told))) => trust == told,
        (Err(fault), Err(told)) => fault == told,
        _ => false,
    }
}

/// Whether all rows are returned.
fn are_answered<F: Files>(files: &mut F) -> bool {
    for row in ROWS.iter() {
        let is_file = files.is_file(row.0) == row.1;
        if !(is_file && is_read(files, row) && is_trusted(files, row)) {
            return false;
        }
    }
    true
}

/// A name, and its text, or whether it is ill-formed.
type Named = (&'static str, Result<&'static str, bool>);

static NAMES: [Named; 5] = [
    ("HOME", Ok("/h")),
    ("XDG_CONFIG_HOME", Err(true)),
    ("", Ok("")),
    ("home", Err(false)),
    ("HOM", Err(false)),
];

/// A variable that is set as the row says.
fn variable_of(alloc: Global, row: &Named) -> Result<EnvVar, AllocError> {
    match row.1 {
        Ok(text) => Ok(EnvVar::Text(String::from_str(alloc, text)?)),
        Err(true) => Ok(EnvVar::IllFormed),
        Err(false) => Ok(EnvVar::Unset),
    }
}

/// Sets a name.
fn set(alloc: Global, env: &mut MemEnv, name: &str, variable: EnvVar) -> Result<(), NoMemory> {
    env.insert(String::from_str(alloc, name)?, variable)
}

/// The names of the rows, each set twice.
fn variables(alloc: Global) -> Result<MemEnv, NoMemory> {
    let mut env = MemEnv::new(alloc);
    for row in NAMES.iter() {
        if row.1 != Err(false) {
            set(alloc, &mut env, row.0, EnvVar::Unset)?;
            set(alloc, &mut env, row.0, variable_of(alloc, row)?)?;
        }
    }
    Ok(env)
}

/// Whether the variable is that of the row.
fn is_variable(variable: &EnvVar, row: &Named) -> bool {
    match variable {
        EnvVar::Unset => row.1 == Err(false),
        EnvVar::Text(text) => row.1 == Ok(text.as_str()),
        EnvVar::IllFormed => row.1 == Err(true),
    }
}

/// Whether all names are set as the rows say.
fn are_set<E: Env>(env: &mut E) -> Result<bool, NoMemory> {
    for row in NAMES.iter() {
        let variable = env.var(row.0)?;
        if !is_variable(&variable, row) {
            return Ok(false);
        }
    }
    Ok(true)
}

fn files_are_answered(alloc: Global) -> Result<bool, NoMemory> {
    let mut files = files(alloc)?;
    Ok(are_answered(&mut files))
}

fn names_are_set(alloc: Global) -> Result<bool, NoMemory> {
    let mut env = variables(alloc)?;
    are_set(&mut env)
}

/// Whether a host returns all of this.
fn is_answering(host: &mut Host) -> Result<bool, NoMemory> {
    Ok(are_answered(&mut host.files) && are_set(&mut host.env)?)
}

fn host_answers(alloc: Global) -> Result<bool, NoMemory> {
    let files: Box<dyn Files> = Box::new(alloc, files(alloc)?)?;
    let env: Box<dyn Env> = Box::new(alloc, variables(alloc)?)?;
    let places = Places {
        installation_config: None,
        system_prefix: String::new(alloc),
        home: None,
        homes: None,
    };
    is_answering(&mut Host { files, env, places })
}

#[test]
fn hosts_in_memory(rt: HostRuntime) -> Result<(), Fail> {
    assert!(rt; files_are_answered(rt.alloc())?);
    assert!(rt; names_are_set(rt.alloc())?);
    assert!(rt; host_answers(rt.alloc())?);
    Ok(())
}

/// A first file at `/b`.
fn a_first_file(alloc: Global) -> Result<Outcome, Fail> {
    let path = String::from_str(alloc, "/b")?;
    let mut files = MemFiles::new(alloc);
    begin(alloc)?;
    let is_put = files.insert(path, MemFile::ReadFault).is_ok();
    let refused = was_refused(alloc);
    let fits = files.is_file("/b") == is_put && (is_put || refused);
    Ok(Outcome { refused, fits })
}

/// Whether these are the bytes of the row, or out of memory if an allocation was refused.
fn is_outcome(read: &Result<Vec<u8>, FileFault>, row: &Row, refused: bool) -> bool {
    match read {
        Ok(_) => has_bytes(read, row),
        Err(fault) => refused && fault.stage == Stage::Memory,
    }
}

/// The bytes at `/b`; the files return what they returned before.
fn bytes_read(alloc: Global) -> Result<Outcome, Fail> {
    let mut files = files(alloc)?;
    begin(alloc)?;
    let read = files.read("/b");
    let refused = was_refused(alloc);
    let fits = is_outcome(&read, &ROWS[0], refused) && are_answered(&mut files);
    Ok(Outcome { refused, fits })
}

/// A first variable `HOME`.
fn a_first_variable(alloc: Global) -> Result<Outcome, Fail> {
    let name = String::from_str(alloc, "HOME")?;
    let mut env = MemEnv::new(alloc);
    begin(alloc)?;
    let is_set = env.insert(name, EnvVar::IllFormed).is_ok();
    let refused = was_refused(alloc);
    let row = ("HOME", Err(is_set));
    let fits = is_variable(&env.var("HOME")?, &row) && (is_set || refused);
    Ok(Outcome { refused, fits })
}

/// The variable `HOME`; the names are set as before.
fn variable_asked(alloc: Global) -> Result<Outcome, Fail> {
    let mut env = variables(alloc)?;
    begin(alloc)?;
    let answer = env.var("HOME");
    let refused = was_refused(alloc);
    let fits = match &answer {
        Ok(variable) => is_variable(variable, &NAMES[0]),
        Err(NoMemory) => refused,
    };
    let stands = are_set(&mut env)?;
    Ok(Outcome {
        refused,
        fits: fits && stands,
    })
}

#[test]
fn hosts_without_memory(rt: HostRuntime) -> Result<(), Fail> {
    each_refused(rt.alloc(), "a first file", a_first_file)?;
    each_refused(rt.alloc(), "bytes read", bytes_read)?;
    each_refused(rt.alloc(), "a first variable", a_first_variable)?;
    each_refused(rt.alloc(), "a variable asked for", variable_asked)
}
