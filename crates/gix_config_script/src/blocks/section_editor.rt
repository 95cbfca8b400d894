//! The editor of a section, in a file or in none.

use bstr::BString;
use script_commands::gix_config::NoMemory;
use script_commands::gix_config::file::section::value;
use script_commands::gix_config::file::{DetachedSectionMut, SectionMut};
use script_commands::gix_config::parse::section::header;
use script_commands::gix_config::parse::span;
use script_words::editor_arguments::PushedLine;

/// What the lines of a block ask of the editor of a section.
pub trait SectionEditor {
    ghost use Rattle.bstr.specs.Owned.{bstring_bytes};
    ghost use Rattle.std.specs.Borrow.{GName};
    ghost use Rattle.std.specs.List.{list_all};
    ghost use Rattle.std.specs.Prelude.{◌≡◌, true, IfSome};
    ghost use Rattle.script_commands.specs.SectionEditors.{is_whitespace};

    ghost held: { Self → GName };

    fn push_line(&mut self, line: PushedLine<'_>) -> Result<(), value::Error>
        ensures { held self.new ≡ held self.old };

    fn push_after_last(&mut self, name: &str, value: Option<&[u8]>) -> Result<(), value::Error>
        ensures { held self.new ≡ held self.old };

    fn push_newline(&mut self) -> Result<(), span::Error>
        ensures { held self.new ≡ held self.old };

    fn set(&mut self, name: &str, value: &[u8]) -> Result<Option<BString>, value::Error>
        ensures { held self.new ≡ held self.old };

    fn remove(&mut self, name: &str) -> Result<Option<BString>, NoMemory>
        ensures { held self.new ≡ held self.old };

    fn remove_marked(&mut self, name: &str, marks: &[bool]) -> Result<usize, NoMemory>
        ensures { held self.new ≡ held self.old };

    fn pop(&mut self) -> Result<Option<(String, BString)>, NoMemory>
        ensures { held self.new ≡ held self.old };

    fn rename(&mut self, name: &str, subsection: Option<BString>) -> Result<(), header::Error>
        ensures { held self.new ≡ held self.old };

    fn end_lines(&mut self, on: bool)
        ensures { held self.new ≡ held self.old };

    fn set_leading(&mut self, blanks: Option<BString>) -> Result<(), NoMemory>
        requires { IfSome blanks (λ run. list_all is_whitespace (bstring_bytes run) ≡ true) }
        ensures { held self.new ≡ held self.old };

    fn value(&self, name: &str) -> Result<Option<BString>, NoMemory>;

    fn value_implicit(&self, name: &str) -> Result<Option<Option<BString>>, NoMemory>;

    fn values(&self, name: &str) -> Result<Vec<BString>, NoMemory>;

    fn text(&self) -> Result<BString, NoMemory>;

    fn leading(&self) -> Option<&[u8]>;

    fn around(&self) -> (Option<&[u8]>, Option<&[u8]>);

    fn line_end(&self) -> &[u8];
}

impl SectionEditor for SectionMut<'_> {
    ghost use Rattle.script_commands.specs.SectionEditors.{lent};

    ghost held = { lent };

    fn push_line(&mut self, line: PushedLine<'_>) -> Result<(), value::Error> {
        match line.comment {
            Some(comment) => self.push_with_comment(line.name, line.value, comment),
            None => self.push(line.name, line.value),
        }
    }

    fn push_after_last(&mut self, name: &str, value: Option<&[u8]>) -> Result<(), value::Error> {
        SectionMut::push_after_last(self, name, value)
    }

    fn push_newline(&mut self) -> Result<(), span::Error> {
        SectionMut::push_newline(self)
    }

    fn set(&mut self, name: &str, value: &[u8]) -> Result<Option<BString>, value::Error> {
        SectionMut::set(self, name, value)
    }

    fn remove(&mut self, name: &str) -> Result<Option<BString>, NoMemory> {
        SectionMut::remove(self, name)
    }

    fn remove_marked(&mut self, name: &str, marks: &[bool]) -> Result<usize, NoMemory> {
        SectionMut::remove_marked(self, name, marks)
    }

    fn pop(&mut self) -> Result<Option<(String, BString)>, NoMemory> {
        SectionMut::pop(self)
    }

    fn rename(&mut self, name: &str, subsection: Option<BString>) -> Result<(), header::Error> {
        SectionMut::rename(self, name, subsection)
    }

    fn end_lines(&mut self, on: bool) {
        // It returns the editor, which isn't needed here.
        let _ = self.set_implicit_newline(on);
    }

    fn set_leading(&mut self, blanks: Option<BString>) -> Result<(), NoMemory> {
        self.set_leading_whitespace(blanks)
    }

    fn value(&self, name: &str) -> Result<Option<BString>, NoMemory> {
        SectionMut::value(self, name)
    }

    fn value_implicit(&self, name: &str) -> Result<Option<Option<BString>>, NoMemory> {
        SectionMut::value_implicit(self, name)
    }

    fn values(&self, name: &str) -> Result<Vec<BString>, NoMemory> {
        SectionMut::values(self, name)
    }

    fn text(&self) -> Result<BString, NoMemory> {
        self.to_bstring()
    }

    fn leading(&self) -> Option<&[u8]> {
        self.leading_whitespace()
    }

    fn around(&self) -> (Option<&[u8]>, Option<&[u8]>) {
        self.separator_whitespace()
    }

    fn line_end(&self) -> &[u8] {
        self.newline()
    }
}

impl SectionEditor for DetachedSectionMut<'_> {
    ghost use Rattle.script_commands.specs.AloneEditors.{lent};

    ghost held = { lent };

    fn push_line(&mut self, line: PushedLine<'_>) -> Result<(), value::Error> {
        match line.comment {
            Some(comment) => self.push_with_comment(line.name, line.value, comment),
            None => self.push(line.name, line.value),
        }
    }

    fn push_after_last(&mut self, name: &str, value: Option<&[u8]>) -> Result<(), value::Error> {
        DetachedSectionMut::push_after_last(self, name, value)
    }

    fn push_newline(&mut self) -> Result<(), span::Error> {
        DetachedSectionMut::push_newline(self)
    }

    fn set(&mut self, name: &str, value: &[u8]) -> Result<Option<BString>, value::Error> {
        DetachedSectionMut::set(self, name, value)
    }

    fn remove(&mut self, name: &str) -> Result<Option<BString>, NoMemory> {
        DetachedSectionMut::remove(self, name)
    }

    fn remove_marked(&mut self, name: &str, marks: &[bool]) -> Result<usize, NoMemory> {
        DetachedSectionMut::remove_marked(self, name, marks)
    }

    fn pop(&mut self) -> Result<Option<(String, BString)>, NoMemory> {
        DetachedSectionMut::pop(self)
    }

    fn rename(&mut self, name: &str, subsection: Option<BString>) -> Result<(), header::Error> {
        DetachedSectionMut::rename(self, name, subsection)
    }

    fn end_lines(&mut self, on: bool) {
        // It returns the editor, which isn't needed here.
        let _ = self.set_implicit_newline(on);
    }

    fn set_leading(&mut self, blanks: Option<BString>) -> Result<(), NoMemory> {
        self.set_leading_whitespace(blanks)
    }

    fn value(&self, name: &str) -> Result<Option<BString>, NoMemory> {
        DetachedSectionMut::value(self, name)
    }

    fn value_implicit(&self, name: &str) -> Result<Option<Option<BString>>, NoMemory> {
        DetachedSectionMut::value_implicit(self, name)
    }

    fn values(&self, name: &str) -> Result<Vec<BString>, NoMemory> {
        DetachedSectionMut::values(self, name)
    }

    fn text(&self) -> Result<BString, NoMemory> {
        self.to_bstring()
    }

    fn leading(&self) -> Option<&[u8]> {
        self.leading_whitespace()
    }

    fn around(&self) -> (Option<&[u8]>, Option<&[u8]>) {
        self.separator_whitespace()
    }

    fn line_end(&self) -> &[u8] {
        self.newline()
    }
}
