//! What a line ends with.
ghost use Rattle.std.specs.Prelude.{◌≡◌};
ghost use Rattle.gitconf_text.specs.LineEnds.{bytes_of_line_end, line_end_in};

/// What a line ends with.
#[derive(Clone, Copy, Debug, PartialEq, Eq)]
pub enum LineEnd {
    /// LF alone.
    Lf,
    /// CR and LF.
    CrLf,
}

impl LineEnd {
    /// Its bytes.
    pub fn as_bytes(self) -> &'static [u8]
        ensures { result.now ≡ bytes_of_line_end self }
    {
        match self {
            LineEnd::Lf => b"\n",
            LineEnd::CrLf => b"\r\n",
        }
    }

    /// The line ending of a newline: CR and LF where a CR is in it, otherwise LF.
    pub fn of_newline(run: &[u8]) -> LineEnd
        ensures { bytes_of_line_end result ≡ line_end_in run.now }
    {
        if run.contains(&b'\r') {
            LineEnd::CrLf
        } else {
            LineEnd::Lf
        }
    }
}
