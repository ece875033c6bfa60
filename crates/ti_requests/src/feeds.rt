//! The words of `feed` with options.

/// The form in which `feed` prints.
#[derive(Clone, Copy, Debug, PartialEq, Eq)]
pub enum FeedForm {
    /// The screen.
    Screen,
    /// `--state`: the whole state, as lines.
    State,
    /// `--json`: the whole state, as an object.
    Json,
    /// `--cases`: an object for each case of the file.
    Cases,
}

/// The words of `feed` with an option.
#[derive(Clone, Copy, Debug)]
pub struct FeedWords<'a> {
    /// The form of the output.
    pub form: FeedForm,
    /// `--plain-text`: the file is a recording, from which strings are dropped and in which
    /// characters above 127 are replaced.
    pub plain_text: bool,
    /// The terminal's rows, a decimal number.
    pub rows: &'a str,
    /// The terminal's columns, a decimal number.
    pub cols: &'a str,
    /// The path of the file.
    pub file: &'a str,
}
