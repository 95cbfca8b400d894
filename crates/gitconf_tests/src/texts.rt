//! A text with all kinds of parts, and what is written of it.

/// A text with a mark, comments of both kinds, LF and CR LF. It has headers of all three kinds, an entry before them,
/// and entries without a value, with one in quotes, and with one of three pieces.
pub const TEXT: &[u8] =
    b"\xef\xbb\xbf# x\n; y\r\nf = 0\n[core] # c\n\tk = v\n j\n\tlong = a \\\n  b \\\r\n c ; end\ne = \"x\\ty\" z\n[remote \"or\\\"igin\"]\nurl=u\r\n[Branch.Main]\n  m = 1 # d\n";

/// What is printed of it: only its mark is left out.
pub const PRINTED: &[u8] =
    b"# x\n; y\r\nf = 0\n[core] # c\n\tk = v\n j\n\tlong = a \\\n  b \\\r\n c ; end\ne = \"x\\ty\" z\n[remote \"or\\\"igin\"]\nurl=u\r\n[Branch.Main]\n  m = 1 # d\n";

/// Its events, each written alone: a dotted subsection is in lower case.
pub const WRITTEN: &[u8] =
    b"# x\n; y\r\nf = 0\n[core] # c\n\tk = v\n j\n\tlong = a \\\n  b \\\r\n c ; end\ne = \"x\\ty\" z\n[remote \"or\\\"igin\"]\nurl=u\r\n[Branch.main]\n  m = 1 # d\n";
