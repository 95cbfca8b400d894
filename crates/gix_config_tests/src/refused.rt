//! Calls on files that no command makes, each with one of its allocations refused in turn.

use crate::loads::{loaded, section_at};
use gitconf_items::sink::SinkFault;
use gitconf_tests::shim::{Outcome, begin, each_refused, was_refused};
use gitconf_tests::texts::{PRINTED, TEXT};
use gix_config::File;
use gix_config::refusals::Refusal as _;
use std::alloc::Global;
use std::test::Fail;

/// Whether the file is the whole text.
fn is_whole(file: &File) -> Result<bool, Fail> {
    Ok(file.to_bstring()?.as_bytes() == PRINTED && file.num_values() == 6)
}

fn a_text_loaded(alloc: Global) -> Result<Outcome, Fail> {
    begin(alloc)?;
    let answer = File::try_from_bytes(alloc, TEXT);
    let refused = was_refused(alloc);
    let fits = match answer {
        Ok(file) => is_whole(&file)?,
        Err(error) => refused && error.number() == 27,
    };
    Ok(Outcome { refused, fits })
}

fn a_file_written(alloc: Global, file: &File) -> Result<Outcome, Fail> {
    let mut out = Vec::new(alloc);
    begin(alloc)?;
    let answer = file.write_to(&mut out);
    let refused = was_refused(alloc);
    let fits = match answer {
        Ok(()) => out.as_slice() == PRINTED,
        Err(SinkFault) => refused && PRINTED.starts_with(&out) && is_whole(file)?,
    };
    Ok(Outcome { refused, fits })
}

/// A vector is a writer that fails when its allocation is refused.
#[test]
fn files(rt: HostRuntime) -> Result<(), Fail> {
    each_refused(rt.alloc(), "a text that is loaded", a_text_loaded)?;
    let file = loaded(rt.alloc(), TEXT)?;
    each_refused(rt.alloc(), "a file that is written", |alloc| {
        a_file_written(alloc, &file)
    })
}

/// The first section of the text alone.
const SECTION: &[u8] =
    b"[core] # c\n\tk = v\n j\n\tlong = a \\\n  b \\\r\n c ; end\ne = \"x\\ty\" z\n";

fn a_section_written(alloc: Global, file: &File) -> Result<Outcome, Fail> {
    let Some(section) = section_at(file, 0) else {
        return Err(Fail::new("no section"));
    };
    let mut out = Vec::new(alloc);
    begin(alloc)?;
    let answer = section.write_to(&mut out);
    let refused = was_refused(alloc);
    let fits = match answer {
        Ok(()) => out.as_slice() == SECTION,
        Err(SinkFault) => refused && SECTION.starts_with(&out) && is_whole(file)?,
    };
    Ok(Outcome { refused, fits })
}

/// Rows have what the text of a section is, refused or not.
#[test]
fn sections(rt: HostRuntime) -> Result<(), Fail> {
    let file = loaded(rt.alloc(), TEXT)?;
    each_refused(rt.alloc(), "a section that is written", |alloc| {
        a_section_written(alloc, &file)
    })
}
