//! The parser of the command line, from words to a request.

use crate::commands::{Sizes, command_line};
use crate::inputs::input_fault;
use crate::names::names_fault;
use crate::requests::{all_words, request_of};
use crate::rules::fault_of;
use clap::ArgMatches;
use clap::error::{Error, ErrorKind};
use std::alloc::{AllocError, Global};
use ti_requests::Request;

/// A command with its words, and options that say how it is carried out.
#[derive(Debug, Drop)]
pub struct Asked<'a> {
    /// The command and its words.
    pub request: Request<'a>,
    /// Whether the line has `--join`: a field of a source may continue on further lines.
    pub joins: bool,
    /// The paths after `--with`, in order: files whose entries those of a source may use.
    pub further: Vec<&'a str>,
    /// Whether the line has `--fix`: a `check` or a `survey` is to write a mended source text.
    pub fixes: bool,
    /// Whether the line has `--standard`: the standard's strings are suggested also where nothing is known of a string.
    pub standard: bool,
    /// Whether the line has `--diff`: what differs is to be written in place of a mended text.
    pub diff: bool,
    /// Whether the line has `--every-size`: a `check` or a `survey` is about all sizes, and its rows and columns are
    /// empty.
    pub every_size: bool,
    /// Whether the line has `--sarif`: the report is to be a file of SARIF.
    pub sarif: bool,
    /// The path of an earlier report, if the line has `--baseline`: only what it doesn't say is to be reported.
    pub baseline: Option<&'a str>,
    /// The path of what is written, if the line has `--out`.
    pub out: Option<&'a str>,
}

/// The answer to a line that can be understood.
#[derive(Debug, Drop)]
pub enum ParsedLine<'a> {
    /// A command with its words.
    Request(Asked<'a>),
    /// The text of `--help`, `help` or `--version`.
    Text(String),
}

/// Why a line can't be answered.
#[derive(Debug, Drop)]
pub enum UsageFault {
    /// A usage error with its message, which ends with a newline.
    Usage(String),
    /// Out of memory.
    NoMemory,
}

impl From<AllocError> for UsageFault {
    fn from(_refused: AllocError) -> UsageFault {
        UsageFault::NoMemory
    }
}

/// The answer to the `words` after the program's own name. The files of `--with` and an earlier report among them, a
/// request reads standard input (the path `-`) at most once, and doesn't write to it.
///
/// # Errors
/// `Usage` with a message, or `NoMemory`.
pub fn parse_line<'a>(alloc: Global, words: &'a [String]) -> Result<ParsedLine<'a>, UsageFault> {
    match command_line(alloc, sizes_of(words))?.try_get_matches_from(words) {
        Ok(matches) => Ok(ParsedLine::Request(asked_by(alloc, &matches)?)),
        Err(error) => explain(alloc, &error),
    }
}

/// The sizes that a line with these `words` is about. Behind `--` a word is no option.
fn sizes_of(words: &[String]) -> Sizes {
    let mut options = words
        .iter()
        .map_while(|word| (word.as_str() != "--").then_some(word.as_str()));
    if options.any(|word| word == "--every-size") {
        Sizes::Every
    } else {
        Sizes::One
    }
}

/// The answer to `error`: the text of help or of the version, or a usage error for any other error
/// of the parser.
fn explain<'a>(alloc: Global, error: &Error) -> Result<ParsedLine<'a>, UsageFault> {
    match error.kind() {
        ErrorKind::OutOfMemory => Err(UsageFault::NoMemory),
        ErrorKind::DisplayHelp | ErrorKind::DisplayVersion => {
            Ok(ParsedLine::Text(format!(in alloc; "{error}")?))
        }
        _ => Err(UsageFault::Usage(format!(in alloc; "{error}")?)),
    }
}

/// The command and the options of a line that clap understands as `matches`.
fn asked_by<'a>(alloc: Global, matches: &ArgMatches<'a>) -> Result<Asked<'a>, UsageFault> {
    let Some((name, words)) = matches.subcommand() else {
        return Err(UsageFault::Usage(String::new(alloc)));
    };
    if let Some(message) = fault_of(name, words) {
        return Err(usage_error(alloc, message));
    }
    let asked = Asked {
        request: request_of(alloc, name, words)?,
        joins: words.get_flag("join"),
        further: all_words(alloc, words, "with")?,
        fixes: words.get_flag("fix"),
        standard: words.get_flag("standard"),
        diff: words.get_flag("diff"),
        every_size: words.get_flag("every-size"),
        sarif: words.get_flag("sarif"),
        baseline: words.get_str("baseline"),
        out: words.get_str("out"),
    };
    if let Some(message) = input_fault(&asked) {
        return Err(usage_error(alloc, message));
    }
    match names_fault(alloc, &asked)? {
        Some(message) => Err(usage_error(alloc, message.as_str())),
        None => Ok(asked),
    }
}

/// The usage error with this `message`.
fn usage_error(alloc: Global, message: &str) -> UsageFault {
    match format!(in alloc; "error: {message}\n\nFor more information, try '--help'.\n") {
        Ok(text) => UsageFault::Usage(text),
        Err(_refused) => UsageFault::NoMemory,
    }
}
