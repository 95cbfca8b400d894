//! Where a text is refused.
ghost use Rattle.std.specs.Prelude.{◌≡◌};
ghost use Rattle.gix_config_c.specs.Columns.{column_behind};

/// Where a text can't be read on.
#[repr(C)]
pub struct Fault {
    /// The line, from 1.
    pub line: usize,
    /// The column in bytes, from 1.
    pub column: usize,
    /// How many bytes are before it.
    pub offset: usize,
}

/// The column of what comes behind a text.
pub fn column(before: &[u8]) -> usize
    ensures { result ≡ column_behind before.now }
{
    let mut start = before.len();
    while start > 0 && before[start - 1] != b'\n' {
        start -= 1;
    }
    before.len() - start + 1
}
