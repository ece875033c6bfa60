//! The words of `survey --fix`.

/// The words of `survey --fix`.
#[derive(Clone, Copy, Debug)]
pub struct FixWords<'a> {
    /// Whether the reply fails if something is left.
    pub is_strict: bool,
    /// Whether strings are also suggested for faults of which T can't tell whether they are some.
    pub is_standard: bool,
    /// The terminal's rows, a decimal number.
    pub rows: &'a str,
    /// The terminal's columns, a decimal number.
    pub cols: &'a str,
    /// The path of the source file.
    pub path: &'a str,
    /// The path of the new text, if it isn't for standard output.
    pub out: Option<&'a str>,
}
