//! Programs of several calls, whose clauses say what [`crate::headline`] says of them: the prover puts their steps together.
ghost use Rattle.std.specs.Prelude.{◌≡◌, IfSome};
ghost use Rattle.bstr.specs.Owned.{bstring_bytes};
ghost use Rattle.gitconf_state.specs.Printing.{printed};
ghost use Rattle.gix_config_laws.specs.Headline.{Ending};
ghost use Rattle.gix_config_laws.specs.Programs.{ReadsAfter, section_made, three_edits};

use crate::steps::files::{remove_section, rename_section, set_raw_value_by};
use bstr::BString;
use gix_config::File;
use std::alloc::Global;

/// A text after three edits, as far as these aren't refused. A value is set, a section renamed and one removed.
pub fn three_edits(alloc: Global, text: &[u8]) -> Option<BString>
    ensures { IfSome result (λ written. (set : Ending) × (renamed : Ending) × (removed : Ending)
        × ReadsAfter text.now (three_edits set renamed removed) (bstring_bytes written)) }
{
    let Ok(mut file) = File::try_from_bytes(alloc, text) else {
        return None;
    };
    let _ = set_raw_value_by(&mut file, "core", None, "editor", b"ed");
    let _ = rename_section(&mut file, "user", None, "author", None);
    let _ = remove_section(&mut file, "alias", None);
    written(&file)
}

/// A text with a section more, made by an editor: an entry is pushed, and gets another value, as far as that isn't refused.
pub fn section_made(alloc: Global, text: &[u8]) -> Option<BString>
    ensures { IfSome result (λ written. (made : Ending) × (pushed : Ending) × (set : Ending)
        × ReadsAfter text.now (section_made made pushed set) (bstring_bytes written)) }
{
    let Ok(mut file) = File::try_from_bytes(alloc, text) else {
        return None;
    };
    match file.new_section("alias", None) {
        Ok(mut section) => {
            let _ = section.push("st", Some(b"status"));
            let _ = section.set("st", b"status -s");
        }
        Err(_) => return None,
    }
    written(&file)
}

/// The text of a file.
fn written(file: &File) -> Option<BString>
    ensures { IfSome result (λ text. bstring_bytes text ≡ printed file.now) }
{
    match file.to_bstring() {
        Ok(text) => Some(text),
        Err(_) => None,
    }
}
