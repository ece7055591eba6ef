//! Where something stands in the source text.

/// A place in a source file.
#[derive(Clone, Copy, Debug, PartialEq, Eq)]
pub struct Place {
    /// The file's number in the order of reading. 0 is the main file.
    pub file: u32,
    /// The line, from 1.
    pub line: u32,
    /// The column in bytes, from 1.
    pub col: u32,
}

/// The bytes of a file from `first` up to, and without, `past`.
#[derive(Clone, Copy)]
pub struct Span {
    pub first: u32,
    pub past: u32,
}
