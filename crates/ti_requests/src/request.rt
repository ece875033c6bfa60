//! The requests of a command line: one variant for each command, with its words.

use crate::feeds::FeedWords;

/// Words of which a command takes any number.
pub type Words<'a> = Vec<&'a str>;

/// The words of `expand`.
#[derive(Debug, Drop)]
pub struct ExpandWords<'a> {
    /// Whether the string is also judged as `cup`.
    pub judges_cup: bool,
    /// The parameter string, in the escapes of terminfo source.
    pub string: &'a str,
    /// The terminal's rows, a decimal number.
    pub rows: &'a str,
    /// The terminal's columns, a decimal number.
    pub cols: &'a str,
    /// The string's parameters: decimal numbers, or `s:` and a text.
    pub params: Words<'a>,
}

/// The words of `check`.
#[derive(Clone, Copy, Debug)]
pub struct CheckWords<'a> {
    /// The entry.
    pub entry: &'a str,
    /// The terminal's rows, a decimal number.
    pub rows: &'a str,
    /// The terminal's columns, a decimal number.
    pub cols: &'a str,
    /// The path of the certificate, if it isn't for standard output.
    pub out: Option<&'a str>,
}

/// The words of `check --all` and of `check --json`.
#[derive(Clone, Copy, Debug)]
pub struct FaultsWords<'a> {
    /// The entry.
    pub entry: &'a str,
    /// The terminal's rows, a decimal number.
    pub rows: &'a str,
    /// The terminal's columns, a decimal number.
    pub cols: &'a str,
}

/// The words of `verify`.
#[derive(Clone, Copy, Debug)]
pub struct VerifyWords<'a> {
    /// The entry.
    pub entry: &'a str,
    /// The terminal's rows, a decimal number.
    pub rows: &'a str,
    /// The terminal's columns, a decimal number.
    pub cols: &'a str,
    /// The path of the certificate.
    pub certificate: &'a str,
}

/// The words of `play` and `show`.
#[derive(Clone, Copy, Debug)]
pub struct ScriptWords<'a> {
    /// The entry.
    pub entry: &'a str,
    /// The terminal's rows, a decimal number.
    pub rows: &'a str,
    /// The terminal's columns, a decimal number.
    pub cols: &'a str,
    /// The path of the certificate.
    pub certificate: &'a str,
    /// The path of the script.
    pub script: &'a str,
}

/// The words of `survey`.
#[derive(Debug, Drop)]
pub struct SurveyWords<'a> {
    /// Whether all faults of each entry are listed.
    pub lists_all: bool,
    /// Whether the entries that are only there to be used are named, where all faults are listed.
    pub names_parts: bool,
    /// Whether the survey fails if an entry has a fault or can't be read.
    pub is_strict: bool,
    /// The terminal's rows, a decimal number.
    pub rows: &'a str,
    /// The terminal's columns, a decimal number.
    pub cols: &'a str,
    /// The paths of the files.
    pub paths: Words<'a>,
}

/// A command and its words. Each command decides what a word means (a number, a path, an entry).
#[derive(Debug, Drop)]
pub enum Request<'a> {
    /// `expand [--cup] STRING ROWS COLS [PARAM..]`: expand a parameter string.
    Expand(ExpandWords<'a>),
    /// `feed ROWS COLS FILE`: feed a file to a terminal.
    Feed {
        /// The terminal's rows.
        rows: &'a str,
        /// The terminal's columns.
        cols: &'a str,
        /// The path of the file.
        file: &'a str,
    },
    /// `feed` with an option: print the whole state, or the states of many cases, or feed a recording.
    FeedAs(FeedWords<'a>),
    /// `tic ENTRY [--out FILE]`: compile an entry.
    Tic {
        /// The entry.
        entry: &'a str,
        /// The path of the compiled file, if one is asked for.
        out: Option<&'a str>,
    },
    /// `check ENTRY ROWS COLS [--out FILE]`: write the certificate of an entry.
    Check(CheckWords<'a>),
    /// `check --all ENTRY ROWS COLS`: list all faults of an entry.
    CheckAll(FaultsWords<'a>),
    /// `check --json [--all] ENTRY ROWS COLS`: report on an entry, or on all its faults, in JSON.
    CheckJson {
        /// Whether all faults are reported.
        lists_all: bool,
        /// The entry and the size.
        words: FaultsWords<'a>,
    },
    /// `verify ENTRY ROWS COLS CERT`: verify the certificate of an entry.
    Verify(VerifyWords<'a>),
    /// `play ENTRY ROWS COLS CERT SCRIPT`: play a script of curses calls.
    Play(ScriptWords<'a>),
    /// `show ENTRY ROWS COLS CERT SCRIPT`: show the screen that a script of curses calls leaves.
    Show(ScriptWords<'a>),
    /// `survey [--all] [--fail] ROWS COLS FILE..`: check all entries of some files.
    Survey(SurveyWords<'a>),
    /// `survey --json [--all] [--fail] ROWS COLS FILE..`: report on all entries of some files in JSON.
    SurveyJson(SurveyWords<'a>),
    /// `infocmp ENTRY`: print an entry.
    Print {
        /// The entry.
        entry: &'a str,
    },
    /// `infocmp -c ENTRY ENTRY`: list the capabilities that both entries have with equal values.
    Common {
        /// The first entry.
        first: &'a str,
        /// The second entry.
        second: &'a str,
    },
    /// `infocmp -n ENTRY ENTRY`: list the capabilities that neither entry has.
    Neither {
        /// The first entry.
        first: &'a str,
        /// The second entry.
        second: &'a str,
    },
}
